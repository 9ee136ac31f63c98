//! The forms of tokens: how many characters at the front of a line have a form.

ghost use Rattle.std.specs.Prelude.{◌≡◌, ◌≤◌, length, IfSome};
ghost use Rattle.std.specs.List.{prefix_len};
ghost use Rattle.vba_lexer.specs.Classes.{is_in};
ghost use Rattle.vba_lexer.specs.Forms as forms;
ghost use Rattle.vba_lexer.specs.Forms.{IsLongest};
ghost use Rattle.vba_lexer.specs.Kinds as kinds;
ghost use Rattle.vba_lexer.specs.Scans as scans;

use crate::classes::{Class, is_suffix};

/// A piece of a form: what it takes of the characters at a place.
#[derive(Clone, Copy)]
pub enum Piece {
    /// One character of a class.
    Single(Class),
    /// All characters of a class that stand there.
    Run(Class),
    /// A character of a class, where one stands there.
    Optional(Class),
    /// A type suffix, where one stands there.
    Suffix,
}

/// How many characters of a class a line begins with.
pub fn run_size(class: Class, line: &[u32]) -> usize
    ensures size { result ≡ prefix_len (is_in class) line.now }
    ensures within { result ≤ length line.now }
{
    line.iter()
        .take_while(|character| class.has(**character))
        .count()
}

/// How many characters at the front of a line a piece takes, where it stands there.
fn piece_size(piece: Piece, line: &[u32]) -> Option<usize>
    ensures size { result ≡ scans.piece_size piece line.now }
    ensures within { IfSome result (λ size. size ≤ length line.now) }
{
    match (piece, line) {
        (Piece::Single(class), [character, ..]) if class.has(*character) => Some(1),
        (Piece::Single(_), _) => None,
        (Piece::Run(class), _) => Some(run_size(class, line)),
        (Piece::Optional(class), [character, ..]) if class.has(*character) => Some(1),
        (Piece::Suffix, [character, rest @ ..]) if is_suffix(*character, rest) => Some(1),
        (Piece::Optional(_) | Piece::Suffix, _) => Some(0),
    }
}

/// How many characters at the front of a line the pieces take one behind the other, where they stand there.
fn pieces_size(pieces: &[Piece], line: &[u32]) -> Option<usize>
    ensures size { result ≡ scans.pieces_size pieces.now line.now }
    ensures within { IfSome result (λ size. size ≤ length line.now) }
{
    match pieces {
        [] => Some(0),
        [piece, others @ ..] => {
            let front = piece_size(*piece, line)?;
            let behind = pieces_size(others, &line[front..])?;
            Some(front + behind)
        }
    }
}

/// The size of the longest slice at the front of a line that the pieces fit, or 0.
fn form_size(pieces: &[Piece], line: &[u32]) -> usize
    ensures { IsLongest (forms.fits pieces.now) line.now result }
{
    pieces_size(pieces, line).unwrap_or(0)
}

/// The size of the word at the front of a line, or 0. So many characters behind a `[` there may stand in brackets.
pub fn word_size(line: &[u32], bracket_run: usize) -> usize
    requires { scans.IsBracketRun line.now bracket_run }
    ensures { IsLongest kinds.is_word line.now result }
{
    let name = form_size(
        &[
            Piece::Single(Class::NameStart),
            Piece::Run(Class::NamePart),
            Piece::Suffix,
        ],
        line,
    );
    name.max(bracketed_size(line, bracket_run))
}

/// The size of the word in brackets at the front of a line, or 0.
fn bracketed_size(line: &[u32], run: usize) -> usize
    requires { scans.IsBracketRun line.now run }
    ensures { IsLongest kinds.is_bracketed line.now result }
{
    if is_bracketed(line, run) { run + 2 } else { 0 }
}

/// Does a line begin with `[`, so many characters, one at least, and `]`?
fn is_bracketed(line: &[u32], run: usize) -> bool
    requires { run ≤ length line.now }
    ensures { result ≡ scans.is_bracketed_by line.now run }
{
    0 < run && run + 1 < line.len() && line[0] == '[' as u32 && line[run + 1] == ']' as u32
}

/// The size of the whole number at the front of a line, or 0.
pub fn whole_size(line: &[u32]) -> usize
    ensures { IsLongest kinds.is_whole line.now result }
{
    let decimal = form_size(
        &[
            Piece::Single(Class::Digit),
            Piece::Run(Class::Digit),
            Piece::Suffix,
        ],
        line,
    );
    let hexadecimal = form_size(
        &[
            Piece::Single(Class::Exactly(b'&')),
            Piece::Single(Class::Either(b'H', b'h')),
            Piece::Single(Class::HexadecimalDigit),
            Piece::Run(Class::HexadecimalDigit),
            Piece::Suffix,
        ],
        line,
    );
    let octal = form_size(
        &[
            Piece::Single(Class::Exactly(b'&')),
            Piece::Optional(Class::Either(b'O', b'o')),
            Piece::Single(Class::OctalDigit),
            Piece::Run(Class::OctalDigit),
            Piece::Suffix,
        ],
        line,
    );
    decimal.max(hexadecimal).max(octal)
}

/// The size of the fixed number at the front of a line, or 0.
pub fn fixed_size(line: &[u32]) -> usize
    ensures { IsLongest kinds.is_fixed line.now result }
{
    plain_fixed_size(line).max(exponent_size(line))
}

/// The size of the fixed number without an exponent at the front of a line, or 0.
fn plain_fixed_size(line: &[u32]) -> usize
    ensures { IsLongest kinds.is_plain_fixed line.now result }
{
    let whole_first = form_size(
        &[
            Piece::Single(Class::Digit),
            Piece::Run(Class::Digit),
            Piece::Single(Class::Exactly(b'.')),
            Piece::Run(Class::Digit),
            Piece::Suffix,
        ],
        line,
    );
    let point_first = form_size(
        &[
            Piece::Single(Class::Exactly(b'.')),
            Piece::Single(Class::Digit),
            Piece::Run(Class::Digit),
            Piece::Suffix,
        ],
        line,
    );
    whole_first.max(point_first)
}

/// The size of the number with an exponent at the front of a line, or 0.
fn exponent_size(line: &[u32]) -> usize
    ensures { IsLongest kinds.is_exponent line.now result }
{
    let digits_first = form_size(
        &[
            Piece::Single(Class::Digit),
            Piece::Run(Class::Digit),
            Piece::Optional(Class::Exactly(b'.')),
            Piece::Run(Class::Digit),
            Piece::Single(Class::ExponentLetter),
            Piece::Optional(Class::Either(b'+', b'-')),
            Piece::Single(Class::Digit),
            Piece::Run(Class::Digit),
            Piece::Suffix,
        ],
        line,
    );
    let point_first = form_size(
        &[
            Piece::Single(Class::Exactly(b'.')),
            Piece::Single(Class::Digit),
            Piece::Run(Class::Digit),
            Piece::Single(Class::ExponentLetter),
            Piece::Optional(Class::Either(b'+', b'-')),
            Piece::Single(Class::Digit),
            Piece::Run(Class::Digit),
            Piece::Suffix,
        ],
        line,
    );
    digits_first.max(point_first)
}

/// The size of the date at the front of a line, or 0. The first token of a line is none.
pub fn date_size(line: &[u32], is_first: bool) -> usize
    ensures { IsLongest (kinds.is_date is_first) line.now result }
{
    if is_first {
        return 0;
    }
    form_size(
        &[
            Piece::Single(Class::Exactly(b'#')),
            Piece::Run(Class::DatePart),
            Piece::Single(Class::Exactly(b'#')),
        ],
        line,
    )
}

/// The size of the mark at the front of a line, or 0.
pub fn mark_size(line: &[u32]) -> usize
    ensures { IsLongest kinds.is_mark line.now result }
{
    let single = form_size(&[Piece::Single(Class::Mark)], line);
    let less = form_size(
        &[
            Piece::Single(Class::Exactly(b'<')),
            Piece::Single(Class::Either(b'=', b'>')),
        ],
        line,
    );
    let greater = form_size(
        &[
            Piece::Single(Class::Exactly(b'>')),
            Piece::Single(Class::Exactly(b'=')),
        ],
        line,
    );
    let equal = form_size(
        &[
            Piece::Single(Class::Exactly(b'=')),
            Piece::Single(Class::Either(b'<', b'>')),
        ],
        line,
    );
    let assign = form_size(
        &[
            Piece::Single(Class::Exactly(b':')),
            Piece::Single(Class::Exactly(b'=')),
        ],
        line,
    );
    single.max(less).max(greater).max(equal).max(assign)
}

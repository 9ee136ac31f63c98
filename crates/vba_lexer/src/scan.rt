//! The token at the front of a line.

ghost use Rattle.std.specs.Prelude.{◌≡◌, ◌<◌, ◌≤◌, ◌==◌, not, length, slice_index, IsTrue};
ghost use Rattle.vba_lexer.specs.Forms.{IsLongest};
ghost use Rattle.vba_lexer.specs.Kinds as kinds;
ghost use Rattle.vba_lexer.specs.Scans as scans;
ghost use Rattle.vba_lexer.specs.Tokens.{IsToken};

use crate::classes::{Class, FEED, QUOTE};
use crate::forms::{date_size, fixed_size, mark_size, run_size, whole_size, word_size};
use crate::token::TokenKind;

/// A token of a line: its kind and how many characters it takes.
#[derive(Clone, Copy)]
pub struct Lexeme {
    pub kind: TokenKind,
    pub size: usize,
}

/// How a token stands on its logical line.
#[derive(Clone, Copy)]
pub enum Standing {
    /// No token stands before it.
    First,
    /// A `:`, Then or Else stands before it.
    BehindOpener,
    /// Another token stands before it.
    Within,
}

/// The token at the front of a line that begins with no white space. So many characters behind a `[` there may stand in
/// brackets.
pub fn scan(line: &[u32], is_first: bool, bracket_run: usize) -> Lexeme
    requires begins { IsTrue (scans.begins_with (λ character. not (kinds.is_gap character)) line.now) }
    requires run { scans.IsBracketRun line.now bracket_run }
    ensures { IsToken is_first line.now result.kind result.size }
{
    let bad = Lexeme {
        kind: TokenKind::BadMark,
        size: 1,
    };
    let mark = longer(TokenKind::Mark, mark_size(line), bad);
    let date = longer(TokenKind::DateMark, date_size(line, is_first), mark);
    let text = longer(TokenKind::Text, text_size(line), date);
    let fixed = longer(TokenKind::Fixed, fixed_size(line), text);
    let whole = longer(TokenKind::Whole, whole_size(line), fixed);
    longer(TokenKind::Word, word_size(line, bracket_run), whole)
}

/// Where what may stand in brackets behind a `[` at a place of a line ends: at `]`, at a line end, or with the line. `stop` is
/// where it ended behind an earlier `[`: no character is looked at twice.
pub fn bracket_stop(line: &[u32], place: usize, stop: usize) -> usize
    requires inside { place < length line.now }
    requires stop { scans.IsStop line.now place stop }
    ensures stop { scans.IsStop line.now place result }
    ensures exact { slice_index line.now place ≡ 91 → result ≡ scans.stop_behind line.now place }
{
    if place < stop || line[place] != '[' as u32 {
        stop
    } else {
        place + 1 + run_size(Class::BracketPart, &line[place + 1..])
    }
}

/// A form of this kind and size, or a longer token of another kind.
fn longer(kind: TokenKind, size: usize, other: Lexeme) -> Lexeme
    ensures { result ≡ scans.longer kind size other }
{
    if size < other.size {
        other
    } else {
        Lexeme { kind, size }
    }
}

/// The size of the text at the front of a line, or 0.
fn text_size(line: &[u32]) -> usize
    ensures { IsLongest (λ slice after. kinds.is_text slice) line.now result }
{
    match line {
        [first, ..] if *first == QUOTE => quoted_size(line),
        _ => 0,
    }
}

/// The size of the text at the front of a line that begins with a quote, or 0.
fn quoted_size(line: &[u32]) -> usize
    requires { IsTrue (scans.begins_with (λ character. character == QUOTE) line.now) }
    ensures { IsLongest (λ slice after. kinds.is_text slice) line.now result }
{
    let mut longest = 0;
    let mut place = 1;
    while place < line.len() && line[place] != FEED {
        if line[place] != QUOTE {
            place += 1;
            continue;
        }
        longest = place + 1;
        if place + 1 == line.len() || line[place + 1] != QUOTE {
            return longest;
        }
        place += 2;
    }
    longest
}

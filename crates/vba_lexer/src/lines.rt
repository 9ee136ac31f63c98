//! The first line of a source.

ghost use Rattle.std.specs.Prelude.{◌≡◌, ◌≤◌, not, length};
ghost use Rattle.std.specs.List.{prefix_len};
ghost use Rattle.vba_lexer.specs.FirstLine.{IsFirstLine, end_size};
ghost use Rattle.vba_lexer.specs.Lines as lines;

/// How a line ends.
#[derive(Clone, Copy)]
pub enum Ending {
    /// LF.
    Feed,
    /// CR LF.
    ReturnFeed,
    /// CR by itself.
    Return,
    /// U+2028.
    LineSeparator,
    /// U+2029.
    ParagraphSeparator,
    /// The end of the source.
    FileEnd,
}

impl Ending {
    /// How many units it takes.
    pub fn size(self) -> usize
        ensures { result ≡ end_size self }
    {
        match self {
            Ending::Feed | Ending::Return | Ending::LineSeparator | Ending::ParagraphSeparator => 1,
            Ending::ReturnFeed => 2,
            Ending::FileEnd => 0,
        }
    }
}

/// Does the unit end a line?
fn is_line_end(unit: u16) -> bool
    ensures { result ≡ lines.is_line_end unit }
{
    unit == 0x0A || unit == 0x0D || unit == 0x2028 || unit == 0x2029
}

/// How many units of a source stand before its first line end.
fn text_size(source: &[u16]) -> usize
    ensures size { result ≡ prefix_len (λ unit. not (lines.is_line_end unit)) source.now }
    ensures within { result ≤ length source.now }
{
    source
        .iter()
        .take_while(|unit| !is_line_end(**unit))
        .count()
}

/// The line end at the front of what stands behind a line's text.
fn ending_of(rest: &[u16]) -> Ending
    ensures { result ≡ lines.ending_of rest.now }
{
    match rest {
        [0x0D, 0x0A, ..] => Ending::ReturnFeed,
        [0x0D, ..] => Ending::Return,
        [0x2028, ..] => Ending::LineSeparator,
        [0x2029, ..] => Ending::ParagraphSeparator,
        [_, ..] => Ending::Feed,
        [] => Ending::FileEnd,
    }
}

/// The first line of a source: how many units its text has, and how it ends.
pub fn first_line(source: &[u16]) -> (usize, Ending)
    ensures { IsFirstLine source.now result.0 result.1 }
{
    let size = text_size(source);
    (size, ending_of(&source[size..]))
}

use vba_base::Place;

/// The kinds of tokens.
#[derive(Clone, Copy, Debug, PartialEq, Eq)]
pub enum TokenKind {
    /// A name or a word of the grammar, with its suffix.
    Word,
    /// A whole number, with its suffix.
    Whole,
    /// A number with a point or an exponent, with its suffix.
    Fixed,
    /// A string literal, with its quotes.
    Text,
    /// A date between number signs.
    DateMark,
    /// An operator or a mark of punctuation.
    Mark,
    /// A character that begins no token.
    BadMark,
}

/// A token: its kind, the units of the source from `start` to before `end`, and the place of its first unit.
#[derive(Clone, Copy, Debug, PartialEq, Eq)]
pub struct Token {
    pub kind: TokenKind,
    pub start: u32,
    pub end: u32,
    pub place: Place,
}

use crate::keyword::Keyword;
use crate::mark::Mark;
use vba_base::{Name, Units};
use vba_lexer::{Number, Token, TypeSuffix};

/// What a token is for the grammar.
#[derive(Drop)]
pub enum Reading {
    /// A kept word, not behind a dot, without a suffix.
    Keyword(Keyword),
    /// Any other word: a name, or a word of the grammar in its place.
    Name {
        name: Name,
        suffix: Option<TypeSuffix>,
        is_bracketed: bool,
    },
    /// A number literal, and whether it is decimal digits alone.
    Number {
        number: Number,
        is_plain: bool,
    },
    /// The text of a string literal, each doubled quote once.
    Text(Units),
    Mark(Mark),
    /// A token that no line of the grammar has: a kept word with a suffix, a number without a value, a date, a character
    /// that begins no token.
    Other,
}

/// A token with what it is for the grammar.
#[derive(Drop)]
pub struct ReadToken {
    pub token: Token,
    pub reading: Reading,
}

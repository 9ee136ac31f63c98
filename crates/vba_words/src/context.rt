//! What tokens of a line have to know of those before them.

ghost use Rattle.std.specs.Prelude.{◌≡◌, option_map};
ghost use Rattle.vba_words.specs.Readings as readings;
ghost use Rattle.vba_words.specs.Words.{is_word};

use crate::keyword::Keyword;
use crate::mark::Mark;
use crate::reading::{ReadToken, Reading};
use crate::table::is_text;

/// Whether a To of the statement stands before, and whether the name that the last token seems to be is a word of the
/// grammar.
#[derive(Clone, Copy, Debug, PartialEq, Eq)]
pub struct Context {
    pub is_behind_to: bool,
    pub is_word: bool,
}

/// At the front of a line.
pub fn nothing_before() -> Context
    ensures { result ≡ readings.nothing_before }
{
    Context {
        is_behind_to: false,
        is_word: false,
    }
}

/// Is it this word of the grammar, where one may stand?
pub fn is_word(reading: &Reading, word: &[u8]) -> bool
    ensures { result ≡ is_word reading.now word.now }
{
    match reading {
        Reading::Name {
            name,
            suffix: None,
            is_bracketed: false,
        } => is_text(name.units(), word),
        _ => false,
    }
}

/// Stands a To of the same statement before what follows it?
fn behind_to(is_behind: bool, reading: &Reading) -> bool
    ensures { result ≡ readings.behind_to is_behind reading.now }
{
    match reading {
        Reading::Keyword(Keyword::To) => true,
        Reading::Keyword(Keyword::Then | Keyword::Else) | Reading::Mark(Mark::Colon) => false,
        _ => is_behind,
    }
}

/// Is it a word that is a value or the object itself?
fn is_value_word(word: Keyword) -> bool
    ensures { result ≡ readings.is_value_word word }
{
    matches!(
        word,
        Keyword::Empty
            | Keyword::False
            | Keyword::Me
            | Keyword::Nothing
            | Keyword::Null
            | Keyword::True
    )
}

/// May a place or primary end with it?
fn ends_primary(reading: &Reading) -> bool
    ensures { result ≡ readings.ends_primary reading.now }
{
    match reading {
        Reading::Keyword(word) => is_value_word(*word),
        Reading::Name { .. } | Reading::Number { .. } | Reading::Text(_) => true,
        Reading::Mark(mark) => matches!(mark, Mark::RightParenthesis),
        Reading::Other => false,
    }
}

/// Does a token end what may go on with a dot: a place or primary, and no word of the grammar?
pub fn may_go_on(context: Context, before: &Reading) -> bool
    ensures { result ≡ readings.may_go_on context before.now }
{
    ends_primary(before) && !context.is_word
}

/// Is a name behind another token a word of the grammar? It is where it is Preserve behind ReDim, or the Step of a For
/// line.
fn becomes_word(context: Context, before: &Reading, reading: &Reading) -> bool
    ensures { result ≡ readings.becomes_word context before.now reading.now }
{
    (matches!(before, Reading::Keyword(Keyword::ReDim)) && is_word(reading, b"preserve"))
        || (context.is_behind_to && (may_go_on(context, before) && is_word(reading, b"step")))
}

/// What the tokens behind a token have to know.
pub fn context_behind(context: Context, before: Option<&ReadToken>, reading: &Reading) -> Context
    ensures { result ≡ readings.context_behind context (option_map (λ read. read.now) before.entry) reading.now }
{
    match before {
        None => Context {
            is_behind_to: behind_to(false, reading),
            is_word: false,
        },
        Some(before) => Context {
            is_behind_to: behind_to(context.is_behind_to, reading),
            is_word: becomes_word(context, &before.reading, reading),
        },
    }
}

//! Reading the tokens of a line.

ghost use Rattle.std.specs.Prelude.{◌≡◌, length, All, IfOk, option_map};
ghost use Rattle.std.specs.List.{list_all};
ghost use Rattle.vba_lexer.specs.Classes.{is_digit};
ghost use Rattle.vba_lexer.specs.Inside.{IsWithin};
ghost use Rattle.vba_lexer.specs.Numbers.{number_of};
ghost use Rattle.vba_words.specs.Readings as readings;

use crate::context::{Context, context_behind, may_go_on, nothing_before};
use crate::keyword::keyword_of;
use crate::mark::{Mark, mark_of};
use crate::quotes::quoted_text;
use crate::reading::{ReadToken, Reading};
use crate::table::is_text;
use std::alloc::Global;
use vba_base::{NoMemory, Units, name_of};
use vba_lexer::{Token, TokenKind, TypeSuffix, number_value, slice_of, suffix_of, without_suffix};

/// The tokens of a line of a source as the grammar reads them. They have to lie in the source.
pub fn read_tokens(
    alloc: Global,
    source: &Units,
    tokens: &[Token],
) -> Result<Vec<ReadToken>, NoMemory>
    requires { All (IsWithin (length source.now)) tokens.now }
    ensures { IfOk result (λ found. found.items ≡ readings.read_line source.now tokens.now) }
{
    let mut found = Vec::with_capacity(alloc, tokens.len())?;
    let mut context = nothing_before();
    for token in tokens {
        let before = found.last();
        let next = read_token(alloc, source, context, before, token)?;
        context = context_behind(context, before, &next.reading);
        found.push(next)?;
    }
    Ok(found)
}

/// A token of a source, behind another one or first on its line.
fn read_token(
    alloc: Global,
    source: &Units,
    context: Context,
    before: Option<&ReadToken>,
    token: &Token,
) -> Result<ReadToken, NoMemory>
    requires { IsWithin (length source.now) token.now }
    ensures { IfOk result (λ next. next
        ≡ readings.read_token source.now context (option_map (λ read. read.now) before.entry) token.now) }
{
    let text = slice_of(source, token);
    let reading = match before {
        None => reading_of(alloc, false, false, token.kind, text)?,
        Some(before) => {
            let goes_on = may_go_on(context, &before.reading) && adjoins(&before.token, token);
            reading_of(alloc, is_dot(&before.reading), goes_on, token.kind, text)?
        }
    };
    Ok(ReadToken {
        token: *token,
        reading,
    })
}

/// What a token of this kind and text is. Does a dot stand before it, and would it go on with what stands before it?
fn reading_of(
    alloc: Global,
    behind_dot: bool,
    goes_on: bool,
    kind: TokenKind,
    text: &[u16],
) -> Result<Reading, NoMemory>
    ensures { IfOk result (λ reading. reading ≡ readings.reading_of behind_dot goes_on kind text.now) }
{
    match kind {
        TokenKind::Word => bracket_or_word(alloc, behind_dot, text),
        TokenKind::Whole => Ok(number_reading(is_decimal(text), text)),
        TokenKind::Fixed => Ok(number_reading(false, text)),
        TokenKind::Text => Ok(Reading::Text(quoted_text(alloc, text)?)),
        TokenKind::Mark => Ok(mark_reading(goes_on, text)),
        TokenKind::DateMark | TokenKind::BadMark => Ok(Reading::Other),
    }
}

/// A word.
fn bracket_or_word(alloc: Global, behind_dot: bool, text: &[u16]) -> Result<Reading, NoMemory>
    ensures { IfOk result (λ reading. reading ≡ readings.bracket_or_word behind_dot text.now) }
{
    match text {
        // `[`
        [0x5B, inner @ ..] => Ok(Reading::Name {
            name: name_of(alloc, &inner[..inner.len().saturating_sub(1)])?,
            suffix: None,
            is_bracketed: true,
        }),
        _ => word_reading(alloc, behind_dot, without_suffix(text), suffix_of(text)),
    }
}

/// A word without brackets. A kept word is no name but behind a dot.
fn word_reading(
    alloc: Global,
    behind_dot: bool,
    text: &[u16],
    suffix: Option<TypeSuffix>,
) -> Result<Reading, NoMemory>
    ensures { IfOk result (λ reading. reading ≡ readings.word_reading behind_dot text.now suffix) }
{
    let name = name_of(alloc, text)?;
    let keyword = if behind_dot {
        None
    } else {
        keyword_of(name.units())
    };
    Ok(match (keyword, suffix) {
        (None, suffix) => Reading::Name {
            name,
            suffix,
            is_bracketed: false,
        },
        (Some(keyword), None) => Reading::Keyword(keyword),
        (Some(_), Some(_)) => Reading::Other,
    })
}

/// Has a text decimal digits alone?
fn is_decimal(text: &[u16]) -> bool
    ensures { result ≡ list_all is_digit text.now }
{
    text.iter().all(|unit| 0x30 <= *unit && *unit <= 0x39)
}

/// A number literal.
fn number_reading(is_plain: bool, text: &[u16]) -> Reading
    ensures { result ≡ readings.number_reading is_plain (number_of text.now) }
{
    match number_value(text) {
        Ok(number) => Reading::Number { number, is_plain },
        Err(_) => Reading::Other,
    }
}

/// A mark. A dot goes on with what stands before it, or begins a place of a With block.
fn mark_reading(goes_on: bool, text: &[u16]) -> Reading
    ensures { result ≡ readings.mark_reading goes_on text.now }
{
    if is_text(text, b".") {
        return Reading::Mark(if goes_on { Mark::Dot } else { Mark::WithDot });
    }
    match mark_of(text) {
        Some(mark) => Reading::Mark(mark),
        None => Reading::Other,
    }
}

/// Is it a dot?
fn is_dot(reading: &Reading) -> bool
    ensures { result ≡ readings.is_dot reading.now }
{
    matches!(reading, Reading::Mark(Mark::Dot | Mark::WithDot))
}

/// Stands no white space between two tokens, or a continuation?
fn adjoins(before: &Token, token: &Token) -> bool
    ensures { result ≡ readings.adjoins before.now token.now }
{
    before.end == token.start || before.place.line != token.place.line
}

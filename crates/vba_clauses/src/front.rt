//! What stands at the front of tokens: one token, a name, a place, the end of a statement.

ghost use Rattle.std.specs.Prelude.{◌≡◌, IfOk, option_map, is_some};
ghost use Rattle.vba_expression.specs.View.{view};
ghost use Rattle.vba_grammar.specs.Front.{begins, token_at, token_if, reads, name_at, plain_name_at, place_at, ends};
ghost use Rattle.vba_grammar.specs.Clauses.{item_ends};
ghost use Rattle.vba_clauses.specs.Meets.{meets};
ghost use Rattle.vba_clauses.specs.Places.{begins_place};

use crate::expected::{Expected, is_expected};
use std::alloc::Global;
use vba_base::NoMemory;
use vba_expression::{Expression, read_primary};
use vba_lexer::Token;
use vba_words::{Identifier, Keyword, Mark, ReadToken, Reading, identifier_at, reads_word};

/// The first token, where it is what is expected, and the tokens behind it.
pub fn read_token(tokens: &[ReadToken], expected: Expected) -> Option<(Token, &[ReadToken])>
    ensures found { option_map (λ f. (f.0, f.1.now)) result ≡ token_at (meets expected) tokens.now }
    ensures begins { is_some result ≡ begins (meets expected) tokens.now }
{
    let [first, rest @ ..] = tokens else {
        return None;
    };
    if is_expected(&first.reading, expected) {
        Some((first.token, rest))
    } else {
        None
    }
}

/// The first token, if it is what is expected, and the tokens behind it, or else all.
pub fn skip_token(tokens: &[ReadToken], expected: Expected) -> (Option<Token>, &[ReadToken])
    ensures { (result.0, result.1.now) ≡ token_if (meets expected) tokens.now }
{
    let [first, rest @ ..] = tokens else {
        return (None, tokens);
    };
    if is_expected(&first.reading, expected) {
        (Some(first.token), rest)
    } else {
        (None, tokens)
    }
}

/// Is the first token what is expected?
pub fn begins_with(tokens: &[ReadToken], expected: Expected) -> bool
    ensures { result ≡ begins (meets expected) tokens.now }
{
    match tokens {
        [] => false,
        [first, ..] => is_expected(&first.reading, expected),
    }
}

/// The first token, where it is this word of the grammar, given in lower case, and the tokens behind it. Such a word is a
/// name elsewhere.
pub fn read_word<'a>(tokens: &'a [ReadToken], word: &[u8]) -> Option<(Token, &'a [ReadToken])>
    ensures found { option_map (λ f. (f.0, f.1.now)) result ≡ token_at (reads word.now) tokens.now }
    ensures begins { is_some result ≡ begins (reads word.now) tokens.now }
{
    let [first, rest @ ..] = tokens else {
        return None;
    };
    if reads_word(first, word) {
        Some((first.token, rest))
    } else {
        None
    }
}

/// The first token, if it is this word of the grammar, and the tokens behind it, or else all.
pub fn skip_word<'a>(tokens: &'a [ReadToken], word: &[u8]) -> (Option<Token>, &'a [ReadToken])
    ensures { (result.0, result.1.now) ≡ token_if (reads word.now) tokens.now }
{
    let [first, rest @ ..] = tokens else {
        return (None, tokens);
    };
    if reads_word(first, word) {
        (Some(first.token), rest)
    } else {
        (None, tokens)
    }
}

/// Is the first token this word of the grammar?
pub fn begins_with_word(tokens: &[ReadToken], word: &[u8]) -> bool
    ensures { result ≡ begins (reads word.now) tokens.now }
{
    match tokens {
        [] => false,
        [first, ..] => reads_word(first, word),
    }
}

/// The name without a suffix at the front, and the tokens behind it.
pub(crate) fn read_plain_name(
    alloc: Global,
    tokens: &[ReadToken],
) -> Result<Option<(Identifier, &[ReadToken])>, NoMemory>
    ensures { IfOk result (λ found. option_map (λ f. (f.0, f.1.now)) found ≡ plain_name_at tokens.now) }
{
    let Some((name, rest)) = read_name(alloc, tokens)? else {
        return Ok(None);
    };
    match name.suffix {
        None => Ok(Some((name, rest))),
        Some(_) => Ok(None),
    }
}

/// The name at the front, and the tokens behind it.
pub fn read_name(
    alloc: Global,
    tokens: &[ReadToken],
) -> Result<Option<(Identifier, &[ReadToken])>, NoMemory>
    ensures { IfOk result (λ found. option_map (λ f. (f.0, f.1.now)) found ≡ name_at tokens.now) }
{
    let [first, rest @ ..] = tokens else {
        return Ok(None);
    };
    match identifier_at(alloc, first)? {
        Some(name) => Ok(Some((name, rest))),
        None => Ok(None),
    }
}

/// The place at the front, as long as it can be, and the tokens behind it: a name, `Me` or a member of a With block, and
/// members and indices of these ([MS-VBAL] 5.6.10 to 5.6.13, 5.6.15).
#[tactic(auto, using(crate::proofs::Places::place_begins))]
pub fn read_place(
    alloc: Global,
    tokens: &[ReadToken],
) -> Result<Option<(Expression, &[ReadToken])>, NoMemory>
    ensures { IfOk result (λ found. option_map (λ f. (view f.0, f.1.now)) found ≡ place_at tokens.now) }
{
    let Some((place, rest)) = read_primary(alloc, tokens)? else {
        return Ok(None);
    };
    if begins_place(tokens) {
        Ok(Some((place, rest)))
    } else {
        Ok(None)
    }
}

/// Do tokens begin with what begins a place: a name, `Me` or a dot of a With block?
fn begins_place(tokens: &[ReadToken]) -> bool
    ensures { result ≡ begins begins_place tokens.now }
{
    match tokens {
        [] => false,
        [first, ..] => matches!(
            first.reading,
            Reading::Name { .. } | Reading::Keyword(Keyword::Me) | Reading::Mark(Mark::WithDot)
        ),
    }
}

/// Is nothing left of a statement? Its line ends, or a colon or an `Else` stands there.
pub fn ends(tokens: &[ReadToken]) -> bool
    ensures { result ≡ ends tokens.now }
{
    match tokens {
        [] => true,
        [first, ..] => matches!(
            first.reading,
            Reading::Mark(Mark::Colon) | Reading::Keyword(Keyword::Else)
        ),
    }
}

/// Does a constant, a parameter or an array of a ReDim end? Its list goes on with a comma, or ends.
pub fn item_ends(tokens: &[ReadToken]) -> bool
    ensures { result ≡ item_ends tokens.now }
{
    ends(tokens)
        || (begins_with(tokens, Expected::Comma) || begins_with(tokens, Expected::RightParenthesis))
}

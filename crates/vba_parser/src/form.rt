//! Forms of statements that the profile hasn't.

ghost use Rattle.std.specs.Prelude.{◌≡◌, true, IfOk};
ghost use Rattle.vba_grammar.specs.Front.{begins};
ghost use Rattle.vba_module.specs.Outside as outside;

use std::alloc::Global;
use vba_base::{NoMemory, Place};
use vba_clauses::{Expected, begins_with_word, is_expected};
use vba_expression::read_expression;
use vba_words::{Keyword, Mark, ReadToken, Reading};

/// Does an expression stand at the front?
fn begins_with_expression(alloc: Global, tokens: &[ReadToken]) -> Result<bool, NoMemory>
    ensures { IfOk result (λ begins. begins ≡ outside.begins_expression tokens.now) }
{
    Ok(read_expression(alloc, tokens)?.is_some())
}

/// Does a word begin such a statement, before these tokens? `On` begins one before an expression, but for `On Error`.
fn begins_form(alloc: Global, reading: &Reading, rest: &[ReadToken]) -> Result<bool, NoMemory>
    ensures { IfOk result (λ begins. begins ≡ outside.begins_form reading.now rest.now) }
{
    match reading {
        Reading::Keyword(
            Keyword::Open
            | Keyword::Print
            | Keyword::Declare
            | Keyword::LSet
            | Keyword::RSet
            | Keyword::Implements,
        ) => Ok(true),
        Reading::Keyword(Keyword::On) => {
            if begins_with_word(rest, b"error") {
                Ok(false)
            } else {
                begins_with_expression(alloc, rest)
            }
        }
        _ => Ok(false),
    }
}

/// Is it an operator or a mark of such a form, wherever it stands?
fn is_of_form(reading: &Reading) -> bool
    ensures { result ≡ outside.is_of_form reading.now }
{
    matches!(
        reading,
        Reading::Keyword(Keyword::Like | Keyword::AddressOf) | Reading::Mark(Mark::Exclamation)
    )
}

/// Is it `Public` or `Private` before `Declare`?
fn is_before_declare(reading: &Reading, rest: &[ReadToken]) -> bool
    ensures { result ≡ outside.is_before_declare reading.now rest.now }
{
    match reading {
        Reading::Keyword(Keyword::Public | Keyword::Private) => begins_with_declare(rest),
        _ => false,
    }
}

/// Does `Declare` stand at the front?
fn begins_with_declare(tokens: &[ReadToken]) -> bool
    ensures { result ≡ begins outside.is_declare tokens.now }
{
    match tokens {
        [] => false,
        [first, ..] => matches!(first.reading, Reading::Keyword(Keyword::Declare)),
    }
}

/// May a statement begin behind it?
fn ends_before(reading: &Reading) -> bool
    ensures { result ≡ outside.ends_before reading.now }
{
    is_expected(reading, Expected::Colon)
        || (is_expected(reading, Expected::Then) || is_expected(reading, Expected::Else))
}

/// The place of the first word that begins such a statement or belongs to one, where a statement may begin at the front.
fn form_in(alloc: Global, tokens: &[ReadToken]) -> Result<Option<Place>, NoMemory>
    ensures { IfOk result (λ place. place ≡ outside.form_in true tokens.now) }
{
    let mut left = tokens;
    let mut may_begin = true;
    'tokens: while let [token, rest @ ..] = left {
        let is_form = is_of_form(&token.reading)
            || (may_begin && begins_form(alloc, &token.reading, rest)?);
        if is_form {
            return Ok(Some(token.token.place));
        }
        may_begin = ends_before(&token.reading)
            || (may_begin && is_before_declare(&token.reading, rest));
        left = rest;
    }
    Ok(None)
}

/// The place at which the tokens of a line have a form that the profile hasn't, if they have one. A line number may stand
/// before it. It fails only for want of memory.
pub fn form_place(alloc: Global, tokens: &[ReadToken]) -> Result<Option<Place>, NoMemory>
    ensures { IfOk result (λ place. place ≡ outside.form_of tokens.now) }
{
    let [first, rest @ ..] = tokens else {
        return Ok(None);
    };
    match &first.reading {
        Reading::Number { is_plain: true, .. } => form_in(alloc, rest),
        _ => form_in(alloc, tokens),
    }
}

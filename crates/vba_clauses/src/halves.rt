//! The length of a text and the value behind it, which the last `=` that allows it parts.

ghost use Rattle.std.specs.Prelude.{◌≡◌, ◌≤◌, [], length, take, drop, None, IfOk, option_map};
ghost use Rattle.vba_expression.specs.View.{view};
ghost use Rattle.vba_grammar.specs.Clauses.{only_expression, halves, last_halves};
ghost use Rattle.vba_clauses.specs.Seen.{halves_view, halves_between};

use crate::expected::{Expected, is_expected};
use crate::front::item_ends;
use std::alloc::Global;
use vba_base::NoMemory;
use vba_expression::{Expression, read_expression};
use vba_lexer::Token;
use vba_tree::DefaultValue;
use vba_words::ReadToken;

/// The length of a text, and `= value`.
#[derive(Drop)]
pub struct Halves {
    pub length: Expression,
    pub default: DefaultValue,
}

/// A length, `=` and a value at the front, and the tokens behind them, where the length ends before the last `=` that
/// allows it.
#[tactic(auto, using(crate::proofs::Equals::none_at_end, crate::proofs::Equals::none_before, crate::proofs::Equals::none_at_all))]
pub fn read_last_halves(
    alloc: Global,
    tokens: &[ReadToken],
) -> Result<Option<(Halves, &[ReadToken])>, NoMemory>
    ensures { IfOk result (λ found. option_map (λ f. (halves_view f.0, f.1.now)) found ≡ last_halves [] tokens.now) }
{
    let limit = last_end(alloc, tokens)?;
    'ends: for end in (0..limit).rev() {
        let (before, behind) = tokens.split_at(end);
        if let Some(found) = read_halves_between(alloc, before, behind)? {
            return Ok(Some(found));
        }
    }
    Ok(None)
}

/// No length ends from here on: it is no longer than the longest expression at the front.
#[tactic(auto, using(crate::proofs::Equals::none_at_end, crate::proofs::Equals::none_behind))]
fn last_end(alloc: Global, tokens: &[ReadToken]) -> Result<usize, NoMemory>
    ensures within { IfOk result (λ end. end ≤ length tokens.now) }
    ensures none { IfOk result (λ end. last_halves (take end tokens.now) (drop end tokens.now) ≡ None) }
{
    let Some((_, rest)) = read_expression(alloc, tokens)? else {
        return Ok(tokens.len());
    };
    match rest {
        [] => Ok(tokens.len()),
        [_, behind @ ..] => Ok(tokens.len().saturating_sub(behind.len())),
    }
}

/// A length before `=`, and a value behind it.
fn read_halves_between<'a>(
    alloc: Global,
    before: &[ReadToken],
    behind: &'a [ReadToken],
) -> Result<Option<(Halves, &'a [ReadToken])>, NoMemory>
    ensures { IfOk result (λ found. option_map (λ f. (halves_view f.0, f.1.now)) found ≡ halves_between before.now behind.now) }
{
    let [equal, rest @ ..] = behind else {
        return Ok(None);
    };
    if is_expected(&equal.reading, Expected::Equal) {
        read_halves(alloc, before, equal.token, rest)
    } else {
        Ok(None)
    }
}

/// A length, the whole of what stands before `=`, and a value behind it that ends a constant or a parameter.
fn read_halves<'a>(
    alloc: Global,
    before: &[ReadToken],
    equal: Token,
    behind: &'a [ReadToken],
) -> Result<Option<(Halves, &'a [ReadToken])>, NoMemory>
    ensures { IfOk result (λ found. option_map (λ f. (halves_view f.0, f.1.now)) found ≡ halves before.now equal behind.now) }
{
    let Some(length) = read_only_expression(alloc, before)? else {
        return Ok(None);
    };
    let Some((value, rest)) = read_expression(alloc, behind)? else {
        return Ok(None);
    };
    if item_ends(rest) {
        let default = DefaultValue { equal, value };
        Ok(Some((Halves { length, default }, rest)))
    } else {
        Ok(None)
    }
}

/// The expression that the whole of tokens is.
fn read_only_expression(alloc: Global, tokens: &[ReadToken]) -> Result<Option<Expression>, NoMemory>
    ensures { IfOk result (λ found. option_map view found ≡ only_expression tokens.now) }
{
    let Some((expression, rest)) = read_expression(alloc, tokens)? else {
        return Ok(None);
    };
    match rest {
        [] => Ok(Some(expression)),
        [_, ..] => Ok(None),
    }
}

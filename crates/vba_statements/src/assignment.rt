//! Reading Let and Set statements, and what begins with a place: an assignment without Let, or a call ([MS-VBAL] 5.4.3.8,
//! 5.4.3.9, 5.4.2.1).

ghost use Rattle.std.specs.Prelude.{◌≡◌, IfOk, option_map};
ghost use Rattle.vba_expression.specs.View.{view};
ghost use Rattle.vba_tree.specs.Tree as tree;
ghost use Rattle.vba_tree.specs.View.{simple_view};
ghost use Rattle.vba_grammar.specs.Front.{found_as, place_at};
ghost use Rattle.vba_grammar.specs.Places.{assignment_or_call_at};
ghost use Rattle.vba_grammar.specs.Statements.{free_at, let_at, set_at};
ghost use Rattle.vba_statements.specs.Calls.{equal_value, equal_value_at};

use crate::call::read_longest_call;
use crate::print::{begins_print, read_print};
use std::alloc::Global;
use vba_base::NoMemory;
use vba_clauses::{Expected, ends, read_place, read_token};
use vba_expression::{Expression, read_expression};
use vba_lexer::Token;
use vba_tree::SimpleStatement;
use vba_words::ReadToken;

/// `=` and a value behind a place, and the end of the statement behind them.
fn read_equal_value(
    alloc: Global,
    tokens: &[ReadToken],
) -> Result<Option<((Token, Expression), &[ReadToken])>, NoMemory>
    ensures { IfOk result (λ found. option_map (λ f. (equal_value f.0.0 (view f.0.1), f.1.now)) found ≡ equal_value_at tokens.now) }
{
    let Some((equal, behind)) = read_token(tokens, Expected::Equal) else {
        return Ok(None);
    };
    let Some((value, rest)) = read_expression(alloc, behind)? else {
        return Ok(None);
    };
    if ends(rest) {
        Ok(Some(((equal, value), rest)))
    } else {
        Ok(None)
    }
}

/// Behind `Let`: `place = value`.
#[tactic(auto, using(crate::proofs::Places::assigned_by_value))]
pub fn read_let(
    alloc: Global,
    let_word: Token,
    tokens: &[ReadToken],
) -> Result<Option<(SimpleStatement, &[ReadToken])>, NoMemory>
    ensures { IfOk result (λ found. option_map (λ f. (simple_view f.0, f.1.now)) found ≡ let_at let_word tokens.now) }
{
    let Some((place, behind)) = read_place(alloc, tokens)? else {
        return Ok(None);
    };
    let Some(((equal, value), rest)) = read_equal_value(alloc, behind)? else {
        return Ok(None);
    };
    let statement = SimpleStatement::Assignment {
        let_word: Some(let_word),
        place,
        equal,
        value,
    };
    Ok(Some((statement, rest)))
}

/// Behind `Set`: `place = value`.
pub fn read_set(
    alloc: Global,
    set_word: Token,
    tokens: &[ReadToken],
) -> Result<Option<(SimpleStatement, &[ReadToken])>, NoMemory>
    ensures { IfOk result (λ found. option_map (λ f. (simple_view f.0, f.1.now)) found ≡ set_at set_word tokens.now) }
{
    let Some((place, behind_place)) = read_place(alloc, tokens)? else {
        return Ok(None);
    };
    let Some((equal, behind_equal)) = read_token(behind_place, Expected::Equal) else {
        return Ok(None);
    };
    let Some((value, rest)) = read_expression(alloc, behind_equal)? else {
        return Ok(None);
    };
    let statement = SimpleStatement::SetAssignment {
        set_word,
        place,
        equal,
        value,
    };
    Ok(Some((statement, rest)))
}

/// Behind `Call`: the place that is called.
pub fn read_call_place(
    alloc: Global,
    call_word: Token,
    tokens: &[ReadToken],
) -> Result<Option<(SimpleStatement, &[ReadToken])>, NoMemory>
    ensures { IfOk result (λ found. option_map (λ f. (simple_view f.0, f.1.now)) found ≡ found_as (tree.call_place call_word) (place_at tokens.now)) }
{
    let Some((place, rest)) = read_place(alloc, tokens)? else {
        return Ok(None);
    };
    Ok(Some((SimpleStatement::CallPlace { call_word, place }, rest)))
}

/// An assignment without Let, or a call. What is assigned to or called is as long as it can be.
#[tactic(auto, using(crate::proofs::Places::assigned_by_value, crate::proofs::Places::place_ends))]
fn read_assignment_or_call(
    alloc: Global,
    tokens: &[ReadToken],
) -> Result<Option<(SimpleStatement, &[ReadToken])>, NoMemory>
    ensures { IfOk result (λ found. option_map (λ f. (simple_view f.0, f.1.now)) found ≡ assignment_or_call_at tokens.now) }
{
    let Some((place, behind)) = read_place(alloc, tokens)? else {
        return Ok(None);
    };
    if let Some(((equal, value), rest)) = read_equal_value(alloc, behind)? {
        let statement = SimpleStatement::Assignment {
            let_word: None,
            place,
            equal,
            value,
        };
        return Ok(Some((statement, rest)));
    }
    let end = tokens.len() - behind.len();
    read_longest_call(alloc, tokens, end)
}

/// A statement that begins with no kept word but `Me`: Debug.Print, an assignment without Let, or a call.
pub fn read_free(
    alloc: Global,
    tokens: &[ReadToken],
) -> Result<Option<(SimpleStatement, &[ReadToken])>, NoMemory>
    ensures { IfOk result (λ found. option_map (λ f. (simple_view f.0, f.1.now)) found ≡ free_at tokens.now) }
{
    if !begins_print(tokens) {
        return read_assignment_or_call(alloc, tokens);
    }
    match read_print(alloc, tokens)? {
        Some(found) => Ok(Some(found)),
        None => read_assignment_or_call(alloc, tokens),
    }
}

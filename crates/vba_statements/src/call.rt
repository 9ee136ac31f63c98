//! Reading a call without `Call` ([MS-VBAL] 5.4.2.1): what is called is the longest beginning of a place that a statement
//! may call.

ghost use Rattle.std.specs.Prelude.{◌≡◌, ◌≤◌, length, take, drop, Some, IfOk, option_map};
ghost use Rattle.vba_tree.specs.Forms.{begins_attribute};
ghost use Rattle.vba_tree.specs.View.{simple_view};
ghost use Rattle.vba_grammar.specs.Front.{place_at};
ghost use Rattle.vba_statements.specs.Calls.{turn_of, starts, call_by, call_unless, place_calls};

use crate::print::begins_print;
use std::alloc::Global;
use vba_base::NoMemory;
use vba_clauses::{ends, read_place};
use vba_expression::read_arguments;
use vba_tree::SimpleStatement;
use vba_words::{Mark, ReadToken, Reading, reads_word};

/// What a token does to brackets and members.
#[derive(Clone, Copy)]
pub enum Turn {
    Opens,
    Closes,
    Dots,
    Stays,
}

/// Where a member or a bracket of a place begins: how many tokens are left there.
#[derive(Clone, Copy)]
pub struct Start {
    pub left: usize,
    pub is_bracket: bool,
}

/// Do tokens begin with the word Attribute?
fn begins_attribute(tokens: &[ReadToken]) -> bool
    ensures { result ≡ begins_attribute tokens.now }
{
    match tokens {
        [] => false,
        [first, ..] => reads_word(first, b"attribute"),
    }
}

fn turn_of(reading: &Reading) -> Turn
    ensures { result ≡ turn_of reading.now }
{
    match reading {
        Reading::Mark(Mark::LeftParenthesis) => Turn::Opens,
        Reading::Mark(Mark::RightParenthesis) => Turn::Closes,
        Reading::Mark(Mark::Dot) => Turn::Dots,
        _ => Turn::Stays,
    }
}

/// Where the members and brackets of a place begin that stand in no bracket of it.
fn starts_of(alloc: Global, tokens: &[ReadToken]) -> Result<Vec<Start>, NoMemory>
    ensures { IfOk result (λ found. found.items ≡ starts 0 tokens.now) }
{
    let mut found = Vec::new(alloc);
    let mut depth: usize = 0;
    let mut left = tokens;
    'tokens: while let [first, rest @ ..] = left {
        match turn_of(&first.reading) {
            Turn::Opens => {
                if depth == 0 {
                    found.push(Start {
                        left: left.len(),
                        is_bracket: true,
                    })?;
                }
                depth += 1;
            }
            Turn::Closes => {
                if depth > 0 {
                    depth -= 1;
                }
            }
            Turn::Dots => {
                if depth == 0 {
                    found.push(Start {
                        left: left.len(),
                        is_bracket: false,
                    })?;
                }
            }
            Turn::Stays => {}
        }
        left = rest;
    }
    Ok(found)
}

/// The call of the place that is all of `spelled`, with the arguments at the front of tokens, and the end of the statement
/// behind them.
fn read_call<'a>(
    alloc: Global,
    spelled: &[ReadToken],
    tokens: &'a [ReadToken],
) -> Result<Option<(SimpleStatement, &'a [ReadToken])>, NoMemory>
    ensures { IfOk result (λ found. option_map (λ f. (simple_view f.0, f.1.now)) found ≡ call_by spelled.now tokens.now) }
{
    if begins_attribute(spelled) || begins_print(spelled) {
        return Ok(None);
    }
    let Some((arguments, rest)) = read_arguments(alloc, tokens)? else {
        return Ok(None);
    };
    if !ends(rest) {
        return Ok(None);
    }
    let Some((target, _)) = read_place(alloc, spelled)? else {
        return Ok(None);
    };
    Ok(Some((SimpleStatement::Call { target, arguments }, rest)))
}

/// The same, where the place doesn't end in a bracket: a statement calls none that does.
fn read_call_unless<'a>(
    alloc: Global,
    is_bracket: bool,
    spelled: &[ReadToken],
    tokens: &'a [ReadToken],
) -> Result<Option<(SimpleStatement, &'a [ReadToken])>, NoMemory>
    ensures { IfOk result (λ found. option_map (λ f. (simple_view f.0, f.1.now)) found ≡ call_unless is_bracket spelled.now tokens.now) }
{
    if is_bracket {
        Ok(None)
    } else {
        read_call(alloc, spelled, tokens)
    }
}

/// The call of the longest beginning of a place that a statement may call, where the place is the tokens before this
/// index. What is not called is arguments.
#[tactic(auto, using(crate::proofs::Places::calls_begin, crate::proofs::Places::call_found, crate::proofs::Places::call_ends))]
pub fn read_longest_call(
    alloc: Global,
    tokens: &[ReadToken],
    end: usize,
) -> Result<Option<(SimpleStatement, &[ReadToken])>, NoMemory>
    requires within { end ≤ length tokens.now }
    requires placed { option_map (λ f. f.1) (place_at tokens.now) ≡ Some (drop end tokens.now) }
    ensures { IfOk result (λ found. option_map (λ f. (simple_view f.0, f.1.now)) found ≡ place_calls tokens.now) }
{
    let mut parts = starts_of(alloc, &tokens[..end])?;
    let mut behind = end;
    'targets: while let Some(part) = parts.pop() {
        let spelled = &tokens[..behind];
        if let Some(call) = read_call_unless(alloc, part.is_bracket, spelled, &tokens[behind..])? {
            return Ok(Some(call));
        }
        behind = end - part.left;
    }
    read_call(alloc, &tokens[..behind], &tokens[behind..])
}

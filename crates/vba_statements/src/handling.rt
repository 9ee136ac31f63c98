//! Reading the statements of error handling and events ([MS-VBAL] 5.4.4, 5.4.2.20).

ghost use Rattle.std.specs.Prelude.{◌≡◌, IfOk, option_map};
ghost use Rattle.vba_tree.specs.View.{event_arguments_view, simple_view};
ghost use Rattle.vba_grammar.specs.Front.{is_left, part_if};
ghost use Rattle.vba_grammar.specs.Statements.{go_to_at, handling_at, on_error_at, target_at, resume_at, event_arguments_at, raise_event_at};

use crate::label::{is_digit, read_label};
use std::alloc::Global;
use vba_base::NoMemory;
use vba_clauses::{Expected, begins_with, ends, read_name, read_token, read_word};
use vba_expression::read_arguments;
use vba_lexer::Token;
use vba_tree::{ErrorHandling, EventArguments, ResumeTarget, SimpleStatement};
use vba_words::ReadToken;

/// Behind `On Error GoTo`: `0`, `-1` or a label.
fn read_go_to_handling(
    alloc: Global,
    goto_word: Token,
    tokens: &[ReadToken],
) -> Result<Option<(ErrorHandling, &[ReadToken])>, NoMemory>
    ensures { IfOk result (λ found. option_map (λ f. (f.0, f.1.now)) found ≡ go_to_at goto_word tokens.now) }
{
    let [token, rest @ ..] = tokens else {
        return Ok(None);
    };
    if is_digit(0, token) {
        let zero = token.token;
        return Ok(Some((ErrorHandling::GoToZero { goto_word, zero }, rest)));
    }
    if begins_with(tokens, Expected::Minus) {
        let [digit, behind @ ..] = rest else {
            return Ok(None);
        };
        if !is_digit(1, digit) {
            return Ok(None);
        }
        let handling = ErrorHandling::GoToMinusOne {
            goto_word,
            minus: token.token,
            one: digit.token,
        };
        return Ok(Some((handling, behind)));
    }
    let Some((label, behind)) = read_label(alloc, tokens)? else {
        return Ok(None);
    };
    Ok(Some((ErrorHandling::GoTo { goto_word, label }, behind)))
}

/// Behind `On Error`: `Resume Next`, or `GoTo` and where it goes.
fn read_handling(
    alloc: Global,
    tokens: &[ReadToken],
) -> Result<Option<(ErrorHandling, &[ReadToken])>, NoMemory>
    ensures { IfOk result (λ found. option_map (λ f. (f.0, f.1.now)) found ≡ handling_at tokens.now) }
{
    if let Some((resume_word, rest)) = read_token(tokens, Expected::Resume) {
        let Some((next_word, behind)) = read_token(rest, Expected::Next) else {
            return Ok(None);
        };
        let handling = ErrorHandling::ResumeNext {
            resume_word,
            next_word,
        };
        return Ok(Some((handling, behind)));
    }
    let Some((goto_word, rest)) = read_token(tokens, Expected::GoTo) else {
        return Ok(None);
    };
    read_go_to_handling(alloc, goto_word, rest)
}

/// Behind `On`: `Error` and what is done.
pub fn read_on_error(
    alloc: Global,
    on_word: Token,
    tokens: &[ReadToken],
) -> Result<Option<(SimpleStatement, &[ReadToken])>, NoMemory>
    ensures { IfOk result (λ found. option_map (λ f. (simple_view f.0, f.1.now)) found ≡ on_error_at on_word tokens.now) }
{
    let Some((error_word, rest)) = read_word(tokens, b"error") else {
        return Ok(None);
    };
    let Some((handling, behind)) = read_handling(alloc, rest)? else {
        return Ok(None);
    };
    let statement = SimpleStatement::OnError {
        on_word,
        error_word,
        handling,
    };
    Ok(Some((statement, behind)))
}

/// Behind `Resume`, where it goes on elsewhere: `Next`, `0` or a label.
fn read_target(
    alloc: Global,
    tokens: &[ReadToken],
) -> Result<Option<(ResumeTarget, &[ReadToken])>, NoMemory>
    ensures { IfOk result (λ found. option_map (λ f. (f.0, f.1.now)) found ≡ target_at tokens.now) }
{
    let [token, rest @ ..] = tokens else {
        return Ok(None);
    };
    if begins_with(tokens, Expected::Next) {
        return Ok(Some((ResumeTarget::Next(token.token), rest)));
    }
    if is_digit(0, token) {
        return Ok(Some((ResumeTarget::Zero(token.token), rest)));
    }
    let Some((label, behind)) = read_label(alloc, tokens)? else {
        return Ok(None);
    };
    Ok(Some((ResumeTarget::Label(label), behind)))
}

/// Behind `Resume`: where it goes on, if not where the error was.
pub fn read_resume(
    alloc: Global,
    resume_word: Token,
    tokens: &[ReadToken],
) -> Result<Option<(SimpleStatement, &[ReadToken])>, NoMemory>
    ensures { IfOk result (λ found. option_map (λ f. (simple_view f.0, f.1.now)) found ≡ resume_at resume_word tokens.now) }
{
    if ends(tokens) {
        let statement = SimpleStatement::Resume {
            resume_word,
            target: None,
        };
        return Ok(Some((statement, tokens)));
    }
    let Some((target, rest)) = read_target(alloc, tokens)? else {
        return Ok(None);
    };
    let statement = SimpleStatement::Resume {
        resume_word,
        target: Some(target),
    };
    Ok(Some((statement, rest)))
}

/// The arguments of an event, in brackets.
fn read_event_arguments(
    alloc: Global,
    tokens: &[ReadToken],
) -> Result<Option<(EventArguments, &[ReadToken])>, NoMemory>
    ensures { IfOk result (λ found. option_map (λ f. (event_arguments_view f.0, f.1.now)) found ≡ event_arguments_at tokens.now) }
{
    let Some((left, inner)) = read_token(tokens, Expected::LeftParenthesis) else {
        return Ok(None);
    };
    let Some((arguments, rest)) = read_arguments(alloc, inner)? else {
        return Ok(None);
    };
    let Some((right, behind)) = read_token(rest, Expected::RightParenthesis) else {
        return Ok(None);
    };
    let arguments = EventArguments {
        left,
        arguments,
        right,
    };
    Ok(Some((arguments, behind)))
}

/// The arguments of an event, where its bracket stands there.
fn read_event_arguments_if(
    alloc: Global,
    tokens: &[ReadToken],
) -> Result<Option<(Option<EventArguments>, &[ReadToken])>, NoMemory>
    ensures { IfOk result (λ found. option_map (λ f. (option_map event_arguments_view f.0, f.1.now)) found
        ≡ part_if is_left event_arguments_at tokens.now) }
{
    if !begins_with(tokens, Expected::LeftParenthesis) {
        return Ok(Some((None, tokens)));
    }
    let Some((arguments, rest)) = read_event_arguments(alloc, tokens)? else {
        return Ok(None);
    };
    Ok(Some((Some(arguments), rest)))
}

/// Behind `RaiseEvent`: the event, and its arguments where they are written.
pub fn read_raise_event(
    alloc: Global,
    raise_event_word: Token,
    tokens: &[ReadToken],
) -> Result<Option<(SimpleStatement, &[ReadToken])>, NoMemory>
    ensures { IfOk result (λ found. option_map (λ f. (simple_view f.0, f.1.now)) found ≡ raise_event_at raise_event_word tokens.now) }
{
    let Some((event, rest)) = read_name(alloc, tokens)? else {
        return Ok(None);
    };
    let Some((arguments, behind)) = read_event_arguments_if(alloc, rest)? else {
        return Ok(None);
    };
    let statement = SimpleStatement::RaiseEvent {
        raise_event_word,
        event,
        arguments,
    };
    Ok(Some((statement, behind)))
}

//! The statements of a line, one token or statement after another.

ghost use Rattle.std.specs.Prelude.{◌≡◌, ◌∷◌, Some, None, if◌then◌else◌, IfOk, OnOk, option_map};
ghost use Rattle.vba_expression.specs.View.{view as expression_view};
ghost use Rattle.vba_tree.specs.Forms.{begins};
ghost use Rattle.vba_tree.specs.View.{block_line_view};
ghost use Rattle.vba_grammar.specs.Lists as lists;
ghost use Rattle.vba_parser.specs.Begun.{is_begun, AreBegun, IsBegun};
ghost use Rattle.vba_parser.specs.Seen.{statements_view, place_view, stack, state_view};
ghost use Rattle.vba_parser.specs.Turns as turns;

use crate::building::{boxed, close_all, no_statements, open_else, push_frame, push_gap, put};
use crate::frame::{Cut, Frame, IfHead, State, Statements, Where};
use std::alloc::Global;
use std::mem;
use vba_base::NoMemory;
use vba_clauses::{Expected, read_token};
use vba_expression::{Expression, read_expression};
use vba_lexer::Token;
use vba_statements::read_simple;
use vba_tree::{BlockLine, SimpleStatement, Statement};
use vba_words::{Keyword, Mark, ReadToken, Reading};

/// What a token is between statements.
fn cut_of(reading: &Reading) -> Cut
    ensures { result ≡ turns.cut_of reading.now }
{
    match reading {
        Reading::Keyword(Keyword::If) => Cut::If,
        Reading::Keyword(Keyword::Else) => Cut::Else,
        Reading::Mark(Mark::Colon) => Cut::Colon,
        _ => Cut::Other,
    }
}

/// What the first token is.
fn cut_at(tokens: &[ReadToken]) -> Cut
    ensures { result ≡ turns.cut_at tokens.now }
{
    match tokens {
        [] => Cut::Other,
        [first, ..] => cut_of(&first.reading),
    }
}

/// Is an `Else` before these tokens a line of a block? A colon stands there or the line ends, or else one more `Else` stands
/// there that is no such line.
fn is_else_line(tokens: &[ReadToken]) -> bool
    ensures { result ≡ lists.is_else_line tokens.now }
{
    let mut left = tokens;
    let mut is_turned = false;
    'elses: while let [token, rest @ ..] = left {
        match cut_of(&token.reading) {
            Cut::Else => {
                is_turned = !is_turned;
                left = rest;
            }
            Cut::Colon => return !is_turned,
            Cut::If | Cut::Other => return is_turned,
        }
    }
    !is_turned
}

/// Is the `Else` at the front a line of a block?
fn is_block_else(tokens: &[ReadToken]) -> bool
    ensures { result ≡ turns.is_block_else tokens.now }
{
    match tokens {
        [] => true,
        [_, rest @ ..] => is_else_line(rest),
    }
}

/// The If is a line of a block.
fn block_if(alloc: Global, state: &mut State, place: Where, line: BlockLine) -> Result<(), NoMemory>
    ensures { OnOk result (state_view state.new
        ≡ lists.got (lists.put_block (place_view place (statements_view state.old.statements)) (block_line_view line)) (stack state.old.frames.items)) }
{
    let statement = boxed(alloc, Statement::Simple(SimpleStatement::BlockLine(line)))?;
    put(alloc, place, &mut state.statements, statement)?;
    state.place = None;
    Ok(())
}

/// The first list of an If begins.
fn begin_then(
    alloc: Global,
    state: &mut State,
    place: Where,
    if_word: Token,
    condition: Expression,
    then_word: Token,
) -> Result<(), NoMemory>
    ensures { OnOk result (state_view state.new ≡ lists.need lists.in_list
        (lists.then_frame (place_view place (statements_view state.old.statements)) if_word (expression_view condition) then_word ∷ stack state.old.frames.items)) }
{
    let before = mem::replace(&mut state.statements, no_statements(alloc));
    let head = IfHead {
        place,
        before,
        if_word,
        condition,
        then_word,
    };
    state.place = Some(Where::InList);
    push_frame(&mut state.frames, Frame::Then(head))
}

/// Behind `Then`: the If is a line of a block where no statement follows, or where an `Else` follows that belongs to an If
/// outside. Else its first list begins.
#[tactic(auto, using(vba_grammar::proofs::ListsComplete::behind_is))]
fn behind_then(
    alloc: Global,
    state: &mut State,
    place: Where,
    if_word: Token,
    condition: Expression,
    then_word: Token,
    tokens: &[ReadToken],
) -> Result<(), NoMemory>
    ensures { OnOk result (lists.behind_then (place_view place (statements_view state.old.statements)) if_word (expression_view condition) then_word (stack state.old.frames.items) tokens.now
        ≡ Some (state_view state.new, tokens.now)) }
{
    if is_else_line(tokens) {
        let line = BlockLine::If {
            if_word,
            condition,
            then_word,
        };
        block_if(alloc, state, place, line)
    } else {
        begin_then(alloc, state, place, if_word, condition, then_word)
    }
}

/// A single-line If up to its `Then`.
fn at_if<'a>(
    alloc: Global,
    state: &mut State,
    place: Where,
    tokens: &'a [ReadToken],
) -> Result<Option<&'a [ReadToken]>, NoMemory>
    ensures { IfOk result (λ found. option_map (λ rest. (state_view state.new, rest.now)) found ≡ turns.if_at (place_view place (statements_view state.old.statements)) (stack state.old.frames.items) tokens.now) }
{
    let [first, rest @ ..] = tokens else {
        return Ok(None);
    };
    let Some((condition, rest)) = read_expression(alloc, rest)? else {
        return Ok(None);
    };
    let Some((then_word, behind)) = read_token(rest, Expected::Then) else {
        return Ok(None);
    };
    behind_then(
        alloc,
        state,
        place,
        first.token,
        condition,
        then_word,
        behind,
    )?;
    Ok(Some(behind))
}

/// A statement other than an If.
fn at_statement<'a>(
    alloc: Global,
    state: &mut State,
    place: Where,
    tokens: &'a [ReadToken],
) -> Result<Option<&'a [ReadToken]>, NoMemory>
    ensures { IfOk result (λ found. option_map (λ rest. (state_view state.new, rest.now)) found ≡ lists.statement_at (place_view place (statements_view state.old.statements)) (stack state.old.frames.items) tokens.now) }
{
    let Some((simple, rest)) = read_simple(alloc, tokens)? else {
        return Ok(None);
    };
    let statement = boxed(alloc, Statement::Simple(simple))?;
    put(alloc, place, &mut state.statements, statement)?;
    state.place = None;
    Ok(Some(rest))
}

/// An `Else` that goes on with an If that is open.
fn next_list<'a>(
    alloc: Global,
    state: &mut State,
    tokens: &'a [ReadToken],
) -> Result<Option<&'a [ReadToken]>, NoMemory>
    requires { AreBegun (begins (statements_view state.old.statements)) (stack state.old.frames.items) }
    ensures { IfOk result (λ found. option_map (λ rest. (state_view state.new, rest.now)) found ≡ turns.next_list_at (statements_view state.old.statements) (stack state.old.frames.items) tokens.now) }
{
    let [first, rest @ ..] = tokens else {
        return Ok(None);
    };
    if open_else(alloc, state, first.token)? {
        Ok(Some(rest))
    } else {
        Ok(None)
    }
}

/// A colon behind statements.
fn next_place<'a>(state: &mut State, tokens: &'a [ReadToken]) -> Option<&'a [ReadToken]>
    ensures { option_map (λ rest. (state_view state.new, rest.now)) result ≡ turns.next_place_at (statements_view state.old.statements) (stack state.old.frames.items) tokens.now }
{
    let [first, rest @ ..] = tokens else {
        return None;
    };
    state.place = Some(Where::Behind(first.token));
    Some(rest)
}

/// An `Else` behind a colon: a line of a block, or it goes on with an If that is open.
fn else_behind<'a>(
    alloc: Global,
    state: &mut State,
    colon: Token,
    tokens: &'a [ReadToken],
) -> Result<Option<&'a [ReadToken]>, NoMemory>
    requires { AreBegun (begins (statements_view state.old.statements)) (stack state.old.frames.items) }
    ensures { IfOk result (λ found. option_map (λ rest. (state_view state.new, rest.now)) found ≡ turns.else_behind (statements_view state.old.statements) colon (stack state.old.frames.items) tokens.now) }
{
    if is_block_else(tokens) {
        return at_statement(alloc, state, Where::Behind(colon), tokens);
    }
    push_gap(&mut state.statements, colon)?;
    next_list(alloc, state, tokens)
}

/// An `Else` where a statement may stand.
fn at_else<'a>(
    alloc: Global,
    state: &mut State,
    place: Where,
    tokens: &'a [ReadToken],
) -> Result<Option<&'a [ReadToken]>, NoMemory>
    requires { AreBegun (is_begun (place_view place (statements_view state.old.statements))) (stack state.old.frames.items) }
    ensures { IfOk result (λ found. option_map (λ rest. (state_view state.new, rest.now)) found ≡ turns.else_at (place_view place (statements_view state.old.statements)) (stack state.old.frames.items) tokens.now) }
{
    match place {
        Where::AtLine | Where::InList => at_statement(alloc, state, place, tokens),
        Where::Behind(colon) => else_behind(alloc, state, colon, tokens),
    }
}

/// A colon where a statement may stand.
fn at_colon<'a>(
    alloc: Global,
    state: &mut State,
    place: Where,
    tokens: &'a [ReadToken],
) -> Result<Option<&'a [ReadToken]>, NoMemory>
    ensures { IfOk result (λ found. option_map (λ rest. (state_view state.new, rest.now)) found ≡ turns.colon_at (place_view place (statements_view state.old.statements)) (stack state.old.frames.items) tokens.now) }
{
    match place {
        Where::AtLine => state.statements = no_statements(alloc),
        Where::InList => return at_statement(alloc, state, place, tokens),
        Where::Behind(colon) => push_gap(&mut state.statements, colon)?,
    }
    Ok(next_place(state, tokens))
}

/// Where a statement may stand.
fn at_place<'a>(
    alloc: Global,
    cut: Cut,
    state: &mut State,
    place: Where,
    tokens: &'a [ReadToken],
) -> Result<Option<&'a [ReadToken]>, NoMemory>
    requires { AreBegun (is_begun (place_view place (statements_view state.old.statements))) (stack state.old.frames.items) }
    ensures { IfOk result (λ found. option_map (λ rest. (state_view state.new, rest.now)) found ≡ turns.needed_by cut (place_view place (statements_view state.old.statements)) (stack state.old.frames.items) tokens.now) }
{
    match cut {
        Cut::If => at_if(alloc, state, place, tokens),
        Cut::Else => at_else(alloc, state, place, tokens),
        Cut::Colon => at_colon(alloc, state, place, tokens),
        Cut::Other => at_statement(alloc, state, place, tokens),
    }
}

/// Behind a statement.
fn behind_statement<'a>(
    alloc: Global,
    cut: Cut,
    state: &mut State,
    tokens: &'a [ReadToken],
) -> Result<Option<&'a [ReadToken]>, NoMemory>
    requires { AreBegun (begins (statements_view state.old.statements)) (stack state.old.frames.items) }
    ensures { IfOk result (λ found. option_map (λ rest. (state_view state.new, rest.now)) found ≡ turns.had_by cut (statements_view state.old.statements) (stack state.old.frames.items) tokens.now) }
{
    match cut {
        Cut::Else => next_list(alloc, state, tokens),
        Cut::Colon => Ok(next_place(state, tokens)),
        Cut::If | Cut::Other => Ok(None),
    }
}

/// One turn: a token is read, or a statement.
fn turn<'a>(
    alloc: Global,
    state: &mut State,
    tokens: &'a [ReadToken],
) -> Result<Option<&'a [ReadToken]>, NoMemory>
    requires { IsBegun (state_view state.old) }
    ensures { IfOk result (λ found. option_map (λ rest. (state_view state.new, rest.now)) found ≡ turns.turn_by (turns.cut_at tokens.now) (state_view state.old) tokens.now) }
{
    let cut = cut_at(tokens);
    match state.place {
        Some(place) => at_place(alloc, cut, state, place, tokens),
        None => behind_statement(alloc, cut, state, tokens),
    }
}

/// The line ends where a statement may stand. False where one must.
fn end_at(alloc: Global, state: &mut State, place: Where) -> Result<bool, NoMemory>
    requires { AreBegun (is_begun (place_view place (statements_view state.old.statements))) (stack state.old.frames.items) }
    ensures { IfOk result (λ is_whole. (if is_whole then Some (statements_view state.new.statements) else None)
        ≡ lists.finish (lists.need (place_view place (statements_view state.old.statements)) (stack state.old.frames.items))) }
{
    match place {
        Where::AtLine => {
            state.statements = no_statements(alloc);
            Ok(true)
        }
        Where::InList => Ok(false),
        Where::Behind(colon) => {
            push_gap(&mut state.statements, colon)?;
            close_all(alloc, state)?;
            Ok(true)
        }
    }
}

/// The line ends. False where a statement must stand there.
fn end(alloc: Global, state: &mut State) -> Result<bool, NoMemory>
    requires { IsBegun (state_view state.old) }
    ensures { IfOk result (λ is_whole. (if is_whole then Some (statements_view state.new.statements) else None) ≡ lists.finish (state_view state.old)) }
{
    match state.place {
        Some(place) => end_at(alloc, state, place),
        None => {
            close_all(alloc, state)?;
            Ok(true)
        }
    }
}

/// The statements of a line that ends.
fn finished(alloc: Global, state: State) -> Result<Option<Statements>, NoMemory>
    requires { IsBegun (state_view state) }
    ensures { IfOk result (λ found. option_map statements_view found ≡ lists.finish (state_view state)) }
{
    let mut ending = state;
    if end(alloc, &mut ending)? {
        Ok(Some(ending.read()))
    } else {
        Ok(None)
    }
}

/// The statements of a line behind its label ([MS-VBAL] 5.4.1, 5.4.2.9); none exactly where the tokens are no statements with
/// colons between them. Only memory can fail, and single-line Ifs take no stack.
pub fn read_statements(alloc: Global, tokens: &[ReadToken]) -> Result<Option<Statements>, NoMemory>
    ensures { IfOk result (λ found. option_map statements_view found ≡ lists.statements_of tokens.now) }
{
    let mut state = State {
        place: Some(Where::AtLine),
        statements: no_statements(alloc),
        frames: Vec::new(alloc),
    };
    let mut left = tokens;
    // A turn reads a token at least.
    'turns: for _ in 0..tokens.len() {
        if left.is_empty() {
            return finished(alloc, state);
        }
        let Some(behind) = turn(alloc, &mut state, left)? else {
            return Ok(None);
        };
        left = behind;
    }
    match left {
        [] => finished(alloc, state),
        [_, ..] => Ok(None),
    }
}

//! Statements with one more, and single-line Ifs that end.

ghost use Rattle.std.specs.Prelude.{◌≡◌, true, ◌∷◌, Some, None, if◌then◌else◌, IfOk, OnOk};
ghost use Rattle.vba_expression.specs.View.{view as expression_view};
ghost use Rattle.vba_tree.specs.Forms.{begins};
ghost use Rattle.vba_tree.specs.Tree as tree;
ghost use Rattle.vba_tree.specs.View.{put as put_next, statement_view, next_view, list_view};
ghost use Rattle.vba_grammar.specs.Lists as lists;
ghost use Rattle.vba_parser.specs.Begun.{ended, AreBegun};
ghost use Rattle.vba_parser.specs.Seen.{statements_view, place_view, head_place, then_view, else_view, frame_view, stack, state_view};

use crate::frame::{ElseHead, Frame, IfHead, State, Statements, Where};
use std::alloc::Global;
use std::mem;
use vba_base::NoMemory;
use vba_lexer::Token;
use vba_tree::{NextStatement, Statement, StatementList};

/// No statement.
#[tactic(auto, unfolding(crate::specs::Seen::statements_view))]
pub fn no_statements(alloc: Global) -> Statements
    ensures { statements_view result ≡ tree.nothing }
{
    Statements {
        first: None,
        others: Vec::new(alloc),
    }
}

/// A statement alone.
#[tactic(auto, unfolding(crate::specs::Seen::statements_view))]
fn alone(alloc: Global, statement: Box<Statement>) -> Statements
    ensures { statements_view result ≡ tree.one (statement_view statement.value) }
{
    Statements {
        first: Some(statement),
        others: Vec::new(alloc),
    }
}

/// A statement in a box.
pub fn boxed(alloc: Global, statement: Statement) -> Result<Box<Statement>, NoMemory>
    ensures { IfOk result (λ made. made.value ≡ statement) }
{
    Ok(Box::new(alloc, statement)?)
}

/// Adds a statement, or none, behind a colon.
#[tactic(auto, using(crate::proofs::Pushed::statements_push), unfolding(crate::specs::Seen::statements_view))]
fn push_next(statements: &mut Statements, next: NextStatement) -> Result<(), NoMemory>
    ensures { OnOk result (statements_view statements.new ≡ put_next (statements_view statements.old) (next_view next)) }
{
    Ok(statements.others.push(next)?)
}

/// Adds none behind a colon.
pub fn push_gap(statements: &mut Statements, colon: Token) -> Result<(), NoMemory>
    ensures { OnOk result (statements_view statements.new ≡ tree.gap (statements_view statements.old) colon) }
{
    push_next(statements, NextStatement::Missing { colon })
}

/// Puts a statement where it goes.
pub fn put(
    alloc: Global,
    place: Where,
    statements: &mut Statements,
    statement: Box<Statement>,
) -> Result<(), NoMemory>
    ensures { OnOk result (statements_view statements.new ≡ lists.put (place_view place (statements_view statements.old)) (statement_view statement.value)) }
{
    match place {
        Where::AtLine | Where::InList => {
            *statements = alone(alloc, statement);
            Ok(())
        }
        Where::Behind(colon) => push_next(statements, NextStatement::Written { colon, statement }),
    }
}

/// Statements as a list of a single-line If: the first is written.
#[tactic(auto, using(crate::proofs::Pushed::none_begins, crate::proofs::Pushed::list_made), unfolding(crate::specs::Seen::statements_view))]
fn list_of(statements: Statements) -> StatementList
    requires { begins (statements_view statements) ≡ true }
    ensures { list_view result ≡ statements_view statements }
{
    let (first, others) = statements.parts();
    let Some(first) = first else {
        unreachable!();
    };
    StatementList { first, others }
}

/// Takes the statements that were read as a list of a single-line If.
fn take_list(alloc: Global, statements: &mut Statements) -> StatementList
    requires { begins (statements_view statements.old) ≡ true }
    ensures { list_view result ≡ statements_view statements.old }
{
    list_of(mem::replace(statements, no_statements(alloc)))
}

/// A single-line If without Else ends with these statements.
fn end_if(alloc: Global, head: IfHead, statements: &mut Statements) -> Result<(), NoMemory>
    requires { begins (statements_view statements.old) ≡ true }
    ensures { OnOk result (statements_view statements.new ≡ ended (then_view head) (statements_view statements.old)) }
{
    let then_list = take_list(alloc, statements);
    head.end(alloc, statements, then_list)
}

/// A single-line If with an Else ends with these statements.
fn end_if_else(alloc: Global, head: ElseHead, statements: &mut Statements) -> Result<(), NoMemory>
    requires { begins (statements_view statements.old) ≡ true }
    ensures { OnOk result (statements_view statements.new ≡ ended (else_view head) (statements_view statements.old)) }
{
    let else_list = take_list(alloc, statements);
    head.end(alloc, statements, else_list)
}

/// A single-line If ends with these statements.
fn end_frame(alloc: Global, frame: Frame, statements: &mut Statements) -> Result<(), NoMemory>
    requires { begins (statements_view statements.old) ≡ true }
    ensures { OnOk result (statements_view statements.new ≡ ended (frame_view frame) (statements_view statements.old)) }
{
    match frame {
        Frame::Then(head) => end_if(alloc, head, statements),
        Frame::Else(head) => end_if_else(alloc, head, statements),
    }
}

/// The line ends, and with it each If that is open.
#[tactic(auto, using(crate::proofs::Closing::closes, crate::proofs::Closing::closes_none))]
pub fn close_all(alloc: Global, state: &mut State) -> Result<(), NoMemory>
    requires { AreBegun (begins (statements_view state.old.statements)) (stack state.old.frames.items) }
    ensures { OnOk result (statements_view state.new.statements ≡ lists.closed (statements_view state.old.statements) (stack state.old.frames.items)) }
{
    'closing: while let Some(frame) = state.frames.pop() {
        end_frame(alloc, frame, &mut state.statements)?;
    }
    Ok(())
}

/// One more If is open.
#[tactic(auto, using(crate::proofs::Closing::stack_push))]
pub fn push_frame(frames: &mut Vec<Frame>, frame: Frame) -> Result<(), NoMemory>
    ensures { OnOk result (stack frames.new.items ≡ frame_view frame ∷ stack frames.old.items) }
{
    Ok(frames.push(frame)?)
}

/// Behind the `Else` of a single-line If, its second list begins.
fn begin_else(
    alloc: Global,
    state: &mut State,
    head: IfHead,
    else_word: Token,
) -> Result<(), NoMemory>
    requires { begins (statements_view state.old.statements) ≡ true }
    ensures { OnOk result (state_view state.new
        ≡ lists.need lists.in_list (lists.else_frame (head_place head) head.if_word (expression_view head.condition) head.then_word (statements_view state.old.statements) else_word ∷ stack state.old.frames.items)) }
{
    let then_list = take_list(alloc, &mut state.statements);
    let head = ElseHead {
        head,
        then_list,
        else_word,
    };
    push_frame(&mut state.frames, Frame::Else(head))?;
    state.place = Some(Where::InList);
    Ok(())
}

/// An `Else` belongs to the nearest If that has none. Those inside end. It finds none where each has one.
#[tactic(auto, using(crate::proofs::Closing::opens, crate::proofs::Closing::opening_begun, crate::proofs::Closing::opens_else, crate::proofs::Closing::opens_none))]
pub fn open_else(alloc: Global, state: &mut State, else_word: Token) -> Result<bool, NoMemory>
    requires { AreBegun (begins (statements_view state.old.statements)) (stack state.old.frames.items) }
    ensures { IfOk result (λ is_open. (if is_open then Some (state_view state.new) else None)
        ≡ lists.with_else (statements_view state.old.statements) (stack state.old.frames.items) else_word) }
{
    'closing: while let Some(frame) = state.frames.pop() {
        match frame {
            Frame::Then(head) => {
                begin_else(alloc, state, head, else_word)?;
                return Ok(true);
            }
            Frame::Else(head) => end_if_else(alloc, head, &mut state.statements)?,
        }
    }
    Ok(false)
}

//! Calls that stand as statements, once their arguments were read.

ghost use Rattle.std.specs.Prelude.{◌≡◌, ◌≢◌, [], ◌∷◌, IfOk, MatchBool, OnOk, reverse};
ghost use Rattle.vba_expression.specs.declared.node.ExpressionNode.TheVariants as node;
ghost use Rattle.bound_project.specs.DraftView.{draft_view};
ghost use Rattle.bound_members.specs.bound_calls.specs.bound_forms.specs.Terms as plain;
ghost use Rattle.statement_terms.specs.Called.{Acts, RestPushed};
ghost use Rattle.statement_terms.specs.NamedCalls.{PushesCall, PushesNamed};
ghost use Rattle.bound_members.specs.bound_calls.specs.Standing.{TermNamed};
ghost use Rattle.bound_members.specs.bound_calls.specs.declared.term.Term.TheVariants as term;

use crate::pushed_terms::push_term;
use bound_members::bound_calls::bound_declarations::NotYet;
use bound_members::bound_calls::{
    Passed, Routine, Term, call_ending, count_of, named_ending, pass_rest, push_broken, sum,
};
use bound_project::{ActionKind, Draft};
use std::alloc::Global;
use vba_base::{OrMemory, Place};
use vba_expression::ExpressionNode;

/// Pushes what the other parameters have behind written arguments without names; answers how many are written, and how
/// many there are.
pub fn push_rest<'a>(
    alloc: Global,
    draft: &mut Draft,
    passed: Passed<'a>,
) -> Result<(u32, u32), OrMemory<NotYet>>
    ensures { IfOk result (λ counts. RestPushed passed.entry (draft_view draft.old) (draft_view draft.new) counts.0 counts.1) }
{
    let left = count_of(passed.left)?;
    let arguments = sum(passed.count, left)?;
    pass_rest(alloc, draft, passed.left)?;
    Ok((passed.count, arguments))
}

/// Pushes what a call gives whose written arguments were pushed.
fn push_call<'a>(
    alloc: Global,
    draft: &mut Draft,
    routine: Routine<'a>,
    passed: Passed<'a>,
    place: Place,
) -> Result<(), OrMemory<NotYet>>
    ensures { OnOk result (PushesCall routine.entry passed.entry place (draft_view draft.old) (draft_view draft.new)) }
{
    let ending = call_ending(alloc, draft, routine, passed)?;
    push_term(alloc, draft, Term::Value(ending), place)
}

/// The same where some of those arguments have names: they were pushed for the parameters with these numbers, the last one
/// first.
fn push_named<'a>(
    alloc: Global,
    draft: &mut Draft,
    routine: Routine<'a>,
    passed: Passed<'a>,
    named: Vec<u32>,
    place: Place,
) -> Result<(), OrMemory<NotYet>>
    requires { named.items ≢ [] }
    ensures { OnOk result (PushesNamed routine.entry passed.entry (reverse named.items) place (draft_view draft.old) (draft_view draft.new)) }
{
    let ending = named_ending(alloc, draft, routine, passed, named)?;
    push_term(alloc, draft, Term::Value(ending), place)
}

/// The same with names or without.
pub fn push_given<'a>(
    alloc: Global,
    draft: &mut Draft,
    routine: Routine<'a>,
    passed: Passed<'a>,
    named: Vec<u32>,
    place: Place,
) -> Result<(), OrMemory<NotYet>>
    ensures { OnOk result (PushesNamed routine.entry passed.entry (reverse named.items) place (draft_view draft.old) (draft_view draft.new)) }
{
    if named.is_empty() {
        push_call(alloc, draft, routine, passed, place)?;
        return Ok(());
    }
    push_named(alloc, draft, routine, passed, named, place)
}

/// A statement that is the value of a call, another value or an object.
fn evaluate_term<'a>(
    alloc: Global,
    draft: &mut Draft,
    term: Term<'a>,
    place: Place,
) -> Result<ActionKind, OrMemory<NotYet>>
    requires { TermNamed (draft_view draft.old).tables term }
    ensures { IfOk result (λ kind. (env : plain.Env) → Acts env term.entry place [] (draft_view draft.old) (draft_view draft.new) kind) }
{
    push_term(alloc, draft, term, place)?;
    Ok(ActionKind::Evaluate)
}

/// A statement that calls without arguments. Err.Raise needs one.
pub fn bare_term<'a>(
    alloc: Global,
    draft: &mut Draft,
    term: Term<'a>,
    place: Place,
) -> Result<ActionKind, OrMemory<NotYet>>
    requires { TermNamed (draft_view draft.old).tables term }
    ensures { IfOk result (λ kind. (env : plain.Env) → Acts env term.entry place [] (draft_view draft.old) (draft_view draft.new) kind) }
{
    match term {
        Term::ErrClear => Ok(ActionKind::ClearErr),
        Term::ErrRaise => {
            push_broken(draft, 25, place, 0)?;
            Ok(ActionKind::Evaluate)
        }
        _ => evaluate_term(alloc, draft, term, place),
    }
}

/// Are these nodes no arguments?
pub fn are_none(nodes: &[ExpressionNode]) -> bool
    ensures { MatchBool result (nodes.now ≡ node.NoArguments ∷ []) (Unit {0}) }
{
    match nodes {
        [ExpressionNode::NoArguments] => true,
        _ => false,
    }
}

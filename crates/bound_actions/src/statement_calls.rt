//! Calls that stand as statements.

ghost use Rattle.std.specs.Prelude.{◌≢◌, [], IfOk, OnOk, map};
ghost use Rattle.bound_project.specs.DraftView.{draft_view};
ghost use Rattle.bound_project.specs.View.{parameter_view};
ghost use Rattle.statement_terms.specs.Called.{ActsOn, CallsTree, CallsTreeOn, PassesAll, Reads};
ghost use Rattle.statement_terms.specs.NamedCalls.{PushesValues, ReadsNamed};
ghost use Rattle.bound_actions.specs.NamedCalls.{ReadsWritten};
ghost use Rattle.bound_terms.specs.bound_accesses.specs.bound_names.specs.bound_members.specs.bound_calls.specs.Standing.{TermNamed};
ghost use Rattle.bound_terms.specs.bound_accesses.specs.bound_names.specs.View.{EnvStands, env_view};
ghost use Rattle.bound_terms.specs.bound_accesses.specs.bound_names.specs.bound_members.specs.bound_calls.specs.declared.term.Term.TheVariants as term;

use crate::indexed_calls::call_indexed;
use crate::raising::{raise, raise_number};
use bound_project::{ActionKind, Draft, Parameter};
use bound_terms::bound_accesses::bound_names::bound_members::bound_calls::bound_declarations::NotYet;
use bound_terms::bound_accesses::bound_names::bound_members::bound_calls::{
    Item, Passed, Routine, Term, Tree, push_receiver, put_item, take_item, take_numbers, takes,
};
use bound_terms::bound_accesses::bound_names::bound_members::shapes_ahead;
use bound_terms::bound_accesses::bound_names::{Env, callee_term};
use bound_terms::bound_operands::{gathered_ending, take_gathered};
use bound_terms::{indexes_value, run};
use statement_terms::{are_none, bare_term, push_given, push_rest, push_term};
use std::alloc::Global;
use vba_base::{NoMemory, OrMemory, Place};
use vba_expression::ExpressionNode;

/// Pushes the arguments that are written, by their nodes, for these parameters; answers those without names, the numbers
/// of the parameters that the others name, the last one first, and how many values for a ParamArray there are.
pub fn read_written<'a>(
    alloc: Global,
    draft: &mut Draft,
    env: Env<'a>,
    parameters: &'a [Parameter],
    nodes: &'a [ExpressionNode],
) -> Result<(Passed<'a>, Vec<u32>, u32), OrMemory<NotYet>>
    requires { EnvStands env }
    ensures { IfOk result (λ read. ReadsWritten (env_view env.entry) (map parameter_view parameters.now) nodes.now (draft_view draft.old) (draft_view draft.new) read.0 read.1.items read.2) }
{
    let Some((ExpressionNode::NoArguments, nodes)) = nodes.split_first() else {
        return Err(OrMemory::NoMemory);
    };
    let mut stack = Vec::new(alloc);
    let none = Passed {
        left: parameters,
        count: 0,
    };
    put_item(&mut stack, Item::Listed(none))?;
    run(alloc, draft, env, &mut stack, nodes)?;
    let named = take_numbers(alloc, &mut stack)?;
    let values = take_gathered(&mut stack)?;
    let Some(Item::Listed(passed)) = take_item(&mut stack) else {
        return Err(OrMemory::Fault(NotYet));
    };
    if stack.is_empty() {
        Ok((passed, named, values))
    } else {
        Err(OrMemory::NoMemory)
    }
}

/// The same where none is a value for a ParamArray.
pub fn read_named<'a>(
    alloc: Global,
    draft: &mut Draft,
    env: Env<'a>,
    parameters: &'a [Parameter],
    nodes: &'a [ExpressionNode],
) -> Result<(Passed<'a>, Vec<u32>), OrMemory<NotYet>>
    requires { EnvStands env }
    ensures { IfOk result (λ read. ReadsNamed (env_view env.entry) (map parameter_view parameters.now) nodes.now (draft_view draft.old) (draft_view draft.new) read.0 read.1.items) }
{
    let (passed, named, values) = read_written(alloc, draft, env, parameters, nodes)?;
    if values == 0 {
        Ok((passed, named))
    } else {
        Err(OrMemory::Fault(NotYet))
    }
}

/// The same where no argument has a name.
pub fn read_arguments<'a>(
    alloc: Global,
    draft: &mut Draft,
    env: Env<'a>,
    parameters: &'a [Parameter],
    nodes: &'a [ExpressionNode],
) -> Result<Passed<'a>, OrMemory<NotYet>>
    requires { EnvStands env }
    ensures { IfOk result (λ passed. Reads (env_view env.entry) (map parameter_view parameters.now) nodes.now (draft_view draft.old) (draft_view draft.new) passed) }
{
    let (passed, named) = read_named(alloc, draft, env, parameters, nodes)?;
    if named.is_empty() {
        Ok(passed)
    } else {
        Err(OrMemory::Fault(NotYet))
    }
}

/// Pushes all arguments of these parameters, none with a name; answers how many are written, and how many there are.
pub fn push_arguments<'a>(
    alloc: Global,
    draft: &mut Draft,
    env: Env<'a>,
    parameters: &'a [Parameter],
    nodes: &'a [ExpressionNode],
) -> Result<(u32, u32), OrMemory<NotYet>>
    requires { EnvStands env }
    ensures { IfOk result (λ counts. PassesAll (env_view env.entry) (map parameter_view parameters.now) nodes.now (draft_view draft.old) (draft_view draft.new) counts.0 counts.1) }
{
    let passed = read_arguments(alloc, draft, env, parameters, nodes)?;
    push_rest(alloc, draft, passed)
}

/// The same where the last arguments are so many values for a ParamArray.
fn push_values<'a>(
    alloc: Global,
    draft: &mut Draft,
    routine: Routine<'a>,
    passed: Passed<'a>,
    values: u32,
    place: Place,
) -> Result<(), OrMemory<NotYet>>
    requires { values ≢ 0 }
    ensures { OnOk result (PushesValues routine.entry passed.entry values place (draft_view draft.old) (draft_view draft.new)) }
{
    let ending = gathered_ending(alloc, draft, routine, passed, values)?;
    push_term(alloc, draft, Term::Value(ending), place)
}

/// A statement that calls a procedure.
fn call_routine<'a>(
    alloc: Global,
    draft: &mut Draft,
    env: Env<'a>,
    routine: Routine<'a>,
    place: Place,
    nodes: &'a [ExpressionNode],
) -> Result<ActionKind, OrMemory<NotYet>>
    requires { EnvStands env }
    ensures { IfOk result (λ kind. ActsOn (env_view env.entry) (term.Routine routine.entry) place nodes.now (draft_view draft.old) (draft_view draft.new) kind) }
{
    push_receiver(draft, routine.receiver)?;
    let (passed, named, values) = read_written(alloc, draft, env, routine.parameters, nodes)?;
    if values == 0 {
        push_given(alloc, draft, routine, passed, named, place)?;
        return Ok(ActionKind::Evaluate);
    }
    if !named.is_empty() {
        return Err(OrMemory::Fault(NotYet));
    }
    push_values(alloc, draft, routine, passed, values, place)?;
    Ok(ActionKind::Evaluate)
}

/// A statement that calls a procedure, Err.Raise or Error with arguments.
fn given_term<'a>(
    alloc: Global,
    draft: &mut Draft,
    env: Env<'a>,
    term: Term<'a>,
    place: Place,
    nodes: &'a [ExpressionNode],
) -> Result<ActionKind, OrMemory<NotYet>>
    requires { EnvStands env }
    ensures { IfOk result (λ kind. ActsOn (env_view env.entry) term.entry place nodes.now (draft_view draft.old) (draft_view draft.new) kind) }
{
    match term {
        Term::Routine(routine) => call_routine(alloc, draft, env, routine, place, nodes),
        Term::ErrRaise => raise(alloc, draft, env, place, nodes),
        Term::ErrorWord => raise_number(alloc, draft, env, nodes),
        _ => Err(OrMemory::Fault(NotYet)),
    }
}

/// Do brackets behind a procedure index its value, or does it not take these arguments?
fn is_other_routine<'a>(
    alloc: Global,
    routine: Routine<'a>,
    nodes: &'a [ExpressionNode],
) -> Result<bool, NoMemory> {
    if indexes_value(routine) {
        return Ok(true);
    }
    let shapes = shapes_ahead(alloc, nodes)?;
    let takes = takes(alloc, routine.parameters, &shapes)?;
    Ok(!takes)
}

/// Do brackets index a term, or take a member of an object there, or are they none that it takes?
fn is_indexed<'a>(
    alloc: Global,
    term: Term<'a>,
    nodes: &'a [ExpressionNode],
) -> Result<bool, NoMemory> {
    match term {
        Term::Routine(routine) => is_other_routine(alloc, routine, nodes),
        Term::Place { .. } => Ok(true),
        Term::Value(_) => Ok(true),
        Term::Function(_) => Ok(true),
        Term::HostMember(_) => Ok(true),
        Term::SheetMember(_) => Ok(true),
        Term::Err => Ok(true),
        Term::ErrClear => Ok(true),
        _ => Ok(false),
    }
}

/// A statement that calls an expression with arguments.
pub fn call_tree<'a>(
    alloc: Global,
    draft: &mut Draft,
    env: Env<'a>,
    tree: Tree<'a>,
    nodes: &'a [ExpressionNode],
) -> Result<ActionKind, OrMemory<NotYet>>
    requires env { EnvStands env }
    requires named { TermNamed (draft_view draft.old).tables tree.term }
    ensures { IfOk result (λ kind. CallsTreeOn (env_view env.entry) tree.entry nodes.now (draft_view draft.old) (draft_view draft.new) kind) }
{
    let term = callee_term(alloc, draft, env, tree)?;
    if are_none(nodes) {
        return bare_term(alloc, draft, term, tree.place);
    }
    if is_indexed(alloc, term, nodes)? {
        return call_indexed(alloc, draft, env, tree, nodes);
    }
    given_term(alloc, draft, env, term, tree.place, nodes)
}

/// A statement that calls an expression without arguments.
pub fn call_bare<'a>(
    alloc: Global,
    draft: &mut Draft,
    env: Env<'a>,
    tree: Tree<'a>,
) -> Result<ActionKind, OrMemory<NotYet>>
    requires env { EnvStands env }
    requires named { TermNamed (draft_view draft.old).tables tree.term }
    ensures { IfOk result (λ kind. CallsTree (env_view env.entry) tree.entry [] (draft_view draft.old) (draft_view draft.new) kind) }
{
    let term = callee_term(alloc, draft, env, tree)?;
    bare_term(alloc, draft, term, tree.place)
}

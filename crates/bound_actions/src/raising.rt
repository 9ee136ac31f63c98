//! Err.Raise and Error.

ghost use Rattle.std.specs.Prelude.{◌≡◌, IfOk, map};
ghost use Rattle.vba_base.specs.declared.place.Place as place;
ghost use Rattle.bound_project.specs.DraftView.{draft_view};
ghost use Rattle.bound_project.specs.View.{parameter_view};
ghost use Rattle.bound_terms.specs.bound_accesses.specs.bound_names.specs.bound_members.specs.bound_calls.specs.bound_forms.specs.StatementsBound as plain;
ghost use Rattle.statement_terms.specs.Called.{ActsOn, PassesAll};
ghost use Rattle.bound_terms.specs.bound_accesses.specs.bound_names.specs.View.{EnvStands, env_view};
ghost use Rattle.bound_terms.specs.bound_accesses.specs.bound_names.specs.bound_members.specs.bound_calls.specs.declared.term.Term.TheVariants as term;

use crate::statement_calls::{push_arguments, read_named};
use crate::untaken::refuse_arguments;
use bound_project::{ActionKind, Draft, Parameter};
use bound_terms::bound_accesses::bound_names::Env;
use bound_terms::bound_accesses::bound_names::bound_members::bound_calls::bound_declarations::NotYet;
use bound_terms::bound_accesses::bound_names::bound_members::bound_calls::{push_in_order, takes};
use bound_terms::bound_accesses::bound_names::bound_members::shapes_ahead;
use statement_terms::{push_rest, raise_parameters};
use std::alloc::Global;
use vba_base::{OrMemory, Place};
use vba_expression::ExpressionNode;

/// Pushes the arguments of Error, as those of Err.Raise; answers how many are written, and how many there are.
fn push_raised<'a>(
    alloc: Global,
    draft: &mut Draft,
    env: Env<'a>,
    nodes: &'a [ExpressionNode],
) -> Result<(u32, u32), OrMemory<NotYet>>
    requires { EnvStands env }
    ensures { IfOk result (λ counts. PassesAll (env_view env.entry) plain.raise_parameters nodes.now (draft_view draft.old) (draft_view draft.new) counts.0 counts.1) }
{
    let parameters = raise_parameters(alloc)?;
    push_arguments(alloc, draft, env, parameters.as_slice(), nodes)
}

/// `Err.Raise arguments`, with its parameters at hand.
fn raise_with<'a>(
    alloc: Global,
    draft: &mut Draft,
    env: Env<'a>,
    parameters: &'a [Parameter],
    place: Place,
    nodes: &'a [ExpressionNode],
) -> Result<ActionKind, OrMemory<NotYet>>
    requires env { EnvStands env }
    requires raised { map parameter_view parameters.now ≡ plain.raise_parameters }
    ensures { IfOk result (λ kind. ActsOn (env_view env.entry) term.ErrRaise place nodes.now (draft_view draft.old) (draft_view draft.new) kind) }
{
    let shapes = shapes_ahead(alloc, nodes)?;
    let is_taken = takes(alloc, parameters, &shapes)?;
    if !is_taken {
        return refuse_arguments(alloc, draft, env, parameters, 0, place, nodes);
    }
    let (passed, named) = read_named(alloc, draft, env, parameters, nodes)?;
    if named.is_empty() {
        let (_written, arguments) = push_rest(alloc, draft, passed)?;
        return Ok(ActionKind::Raise { arguments });
    }
    let ordered = push_in_order(alloc, draft, parameters, passed, named)?;
    Ok(ActionKind::RaiseInOrder {
        arguments: ordered.arguments,
        order: ordered.order,
    })
}

/// `Err.Raise arguments`
pub fn raise<'a>(
    alloc: Global,
    draft: &mut Draft,
    env: Env<'a>,
    place: Place,
    nodes: &'a [ExpressionNode],
) -> Result<ActionKind, OrMemory<NotYet>>
    requires { EnvStands env }
    ensures { IfOk result (λ kind. ActsOn (env_view env.entry) term.ErrRaise place nodes.now (draft_view draft.old) (draft_view draft.new) kind) }
{
    let parameters = raise_parameters(alloc)?;
    raise_with(alloc, draft, env, parameters.as_slice(), place, nodes)
}

/// `Error number`
pub fn raise_number<'a>(
    alloc: Global,
    draft: &mut Draft,
    env: Env<'a>,
    nodes: &'a [ExpressionNode],
) -> Result<ActionKind, OrMemory<NotYet>>
    requires { EnvStands env }
    ensures { IfOk result (λ kind. (place : place.Place) → ActsOn (env_view env.entry) term.ErrorWord place nodes.now (draft_view draft.old) (draft_view draft.new) kind) }
{
    let (written, arguments) = push_raised(alloc, draft, env, nodes)?;
    if written == 1 {
        Ok(ActionKind::Raise { arguments })
    } else {
        Err(OrMemory::Fault(NotYet))
    }
}

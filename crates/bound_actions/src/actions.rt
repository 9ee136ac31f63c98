ghost use Rattle.std.specs.Prelude.{◌≡◌, [], IfOk, option_and_then};
ghost use Rattle.vba_expression.specs.View.{view as expression_view, arguments_view};
ghost use Rattle.bound_project.specs.DraftView.{draft_view};
ghost use Rattle.bound_terms.specs.bound_accesses.specs.bound_names.specs.bound_members.specs.bound_calls.specs.bound_forms.specs.ExpressionsBound.{givens};
ghost use Rattle.bound_terms.specs.bound_accesses.specs.bound_names.specs.bound_members.specs.bound_calls.specs.bound_forms.specs.Targets as targets;
ghost use Rattle.bound_terms.specs.bound_accesses.specs.bound_names.specs.bound_members.specs.bound_calls.specs.bound_forms.specs.StatementsBound as plain;
ghost use Rattle.statement_terms.specs.statement_nodes.specs.Pushed.{ActionStands};
ghost use Rattle.bound_terms.specs.bound_accesses.specs.bound_names.specs.View.{EnvStands, env_view};

use crate::assigned_values::bind_assigned;
use crate::assigning::assign_to;
use crate::statement_calls::{call_bare, call_tree};
use crate::trees::nodes_tree;
use bound_project::{ActionKind, Draft};
use bound_terms::bound_accesses::bound_names::Env;
use bound_terms::bound_accesses::bound_names::bound_members::bound_calls::bound_declarations::NotYet;
use bound_terms::tree_of;
use statement_terms::{ends_bare, split_call};
use std::alloc::Global;
use vba_base::OrMemory;
use vba_expression::{Arguments, Expression};

/// `[Let] place = value`
pub fn bind_assignment<'a>(
    alloc: Global,
    draft: &mut Draft,
    env: Env<'a>,
    place: &'a Expression,
    value: &'a Expression,
) -> Result<Option<ActionKind>, OrMemory<NotYet>>
    requires env { EnvStands env }
    requires empty { (draft_view draft.old).pieces ≡ [] }
    ensures { IfOk result (λ kind. ActionStands kind
        (option_and_then (targets.assigned_to (env_view env.entry) (expression_view place.now)) (targets.value_given (env_view env.entry) (expression_view place.now) (expression_view value.now)))
        (draft_view draft.old) (draft_view draft.new)) }
{
    let may_be = bind_assigned(alloc, draft, env, place, value)?;
    let done = assign_to(alloc, draft, env, place, may_be)?;
    Ok(Some(done.kind))
}

/// `target arguments`
pub fn bind_call<'a>(
    alloc: Global,
    draft: &mut Draft,
    env: Env<'a>,
    target: &'a Expression,
    arguments: &'a Arguments,
) -> Result<Option<ActionKind>, OrMemory<NotYet>>
    requires env { EnvStands env }
    requires empty { (draft_view draft.old).pieces ≡ [] }
    ensures { IfOk result (λ kind. ActionStands kind
        (plain.called_with (env_view env.entry) (expression_view target.now) (givens (env_view env.entry) (arguments_view arguments.now)))
        (draft_view draft.old) (draft_view draft.new)) }
{
    let tree = tree_of(alloc, draft, env, target)?;
    let kind = call_tree(alloc, draft, env, tree, arguments.nodes())?;
    Ok(Some(kind))
}

/// `Call place`: the last brackets have the arguments
pub fn bind_call_place<'a>(
    alloc: Global,
    draft: &mut Draft,
    env: Env<'a>,
    place: &'a Expression,
) -> Result<Option<ActionKind>, OrMemory<NotYet>>
    requires env { EnvStands env }
    requires empty { (draft_view draft.old).pieces ≡ [] }
    ensures { IfOk result (λ kind. ActionStands kind
        (plain.called_place (env_view env.entry) (expression_view place.now))
        (draft_view draft.old) (draft_view draft.new)) }
{
    let nodes = place.nodes();
    if ends_bare(nodes) {
        let tree = tree_of(alloc, draft, env, place)?;
        return Ok(Some(call_bare(alloc, draft, env, tree)?));
    }
    let Some(split) = split_call(nodes) else {
        return Err(OrMemory::Fault(NotYet));
    };
    let tree = nodes_tree(alloc, draft, env, split.target)?;
    let kind = call_tree(alloc, draft, env, tree, split.arguments)?;
    Ok(Some(kind))
}

//! Arguments of statements that aren't taken: each is pushed as a Variant takes it.

ghost use Rattle.std.specs.Prelude.{IfOk, map};
ghost use Rattle.bound_project.specs.DraftView.{draft_view};
ghost use Rattle.bound_project.specs.View.{parameter_view};
ghost use Rattle.bound_actions.specs.Untaken.{ReadsUntaken, RefusesArguments};
ghost use Rattle.bound_terms.specs.bound_accesses.specs.bound_names.specs.View.{EnvStands, env_view};

use bound_project::{ActionKind, Draft, Parameter};
use bound_terms::bound_accesses::bound_names::Env;
use bound_terms::bound_accesses::bound_names::bound_members::bound_calls::bound_declarations::NotYet;
use bound_terms::bound_accesses::bound_names::bound_members::bound_calls::{
    Item, Shape, push_broken, put_item, sum, take_item, take_shapes, takes,
};
use bound_terms::bound_operands::count_shapes;
use bound_terms::run;
use std::alloc::Global;
use vba_base::{OrMemory, Place};
use vba_expression::ExpressionNode;

/// Pushes arguments of what doesn't take them, by their nodes; answers what is known of them.
pub fn read_untaken<'a>(
    alloc: Global,
    draft: &mut Draft,
    env: Env<'a>,
    nodes: &'a [ExpressionNode],
) -> Result<Vec<Shape<'a>>, OrMemory<NotYet>>
    requires { EnvStands env }
    ensures { IfOk result (λ shapes. ReadsUntaken (env_view env.entry) nodes.now (draft_view draft.old) (draft_view draft.new) shapes.items) }
{
    let Some((ExpressionNode::NoArguments, nodes)) = nodes.split_first() else {
        return Err(OrMemory::NoMemory);
    };
    let mut stack = Vec::new(alloc);
    put_item(&mut stack, Item::Unlisted)?;
    run(alloc, draft, env, &mut stack, nodes)?;
    let shapes = take_shapes(alloc, &mut stack)?;
    let Some(Item::Unlisted) = take_item(&mut stack) else {
        return Err(OrMemory::NoMemory);
    };
    if stack.is_empty() {
        Ok(shapes)
    } else {
        Err(OrMemory::NoMemory)
    }
}

/// A statement with arguments that these parameters don't take, behind so many values of it that were pushed.
pub fn refuse_arguments<'a>(
    alloc: Global,
    draft: &mut Draft,
    env: Env<'a>,
    parameters: &'a [Parameter],
    before: u32,
    place: Place,
    nodes: &'a [ExpressionNode],
) -> Result<ActionKind, OrMemory<NotYet>>
    requires { EnvStands env }
    ensures { IfOk result (λ kind. RefusesArguments (env_view env.entry) (map parameter_view parameters.now) before place nodes.now (draft_view draft.old) (draft_view draft.new) kind) }
{
    let shapes = read_untaken(alloc, draft, env, nodes)?;
    let is_taken = takes(alloc, parameters, &shapes)?;
    if is_taken {
        return Err(OrMemory::Fault(NotYet));
    }
    let count = count_shapes(&shapes)?;
    let values = sum(count, before)?;
    push_broken(draft, 25, place, values)?;
    Ok(ActionKind::Evaluate)
}

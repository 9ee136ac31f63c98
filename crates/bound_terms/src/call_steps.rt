ghost use Rattle.std.specs.Prelude.{OnOk, reverse};
ghost use Rattle.vba_expression.specs.declared.node.ExpressionNode.TheVariants as node;
ghost use Rattle.vba_expression.specs.Nodes.{behind_node};
ghost use Rattle.bound_project.specs.DraftView.{draft_view};
ghost use Rattle.bound_accesses.specs.bound_names.specs.bound_members.specs.bound_calls.specs.Standing.{AllNamed};
ghost use Rattle.bound_accesses.specs.bound_names.specs.bound_members.specs.bound_calls.specs.Steps.{Goes};
ghost use Rattle.bound_accesses.specs.bound_names.specs.View.{EnvStands, env_view};

use crate::indexing::begin_arguments;
use bound_accesses::bound_names::Env;
use bound_accesses::bound_names::bound_members::bound_calls::bound_declarations::NotYet;
use bound_accesses::bound_names::bound_members::bound_calls::{Item, Shape, put_item, take_item};
use bound_project::Draft;
use std::alloc::Global;
use vba_base::OrMemory;

/// Arguments begin, these: the expression on top is called or indexed.
pub fn step_no_arguments<'a>(
    alloc: Global,
    draft: &mut Draft,
    env: Env<'a>,
    stack: &mut Vec<Item<'a>>,
    shapes: &[Shape<'a>],
) -> Result<(), OrMemory<NotYet>>
    requires env { EnvStands env }
    requires named { AllNamed (draft_view draft.old).tables (reverse stack.old.items) }
    ensures { OnOk result (Goes (env_view env.entry) (draft_view draft.old) (reverse stack.old.items) (draft_view draft.new) (reverse stack.new.items) (behind_node node.NoArguments)) }
{
    let Some(Item::Tree(tree)) = take_item(stack) else {
        return Err(OrMemory::NoMemory);
    };
    let item = begin_arguments(alloc, draft, env, tree, shapes)?;
    put_item(stack, item)?;
    Ok(())
}

//! Expressions by a part of their nodes.

ghost use Rattle.std.specs.Prelude.{IfOk};
ghost use Rattle.bound_project.specs.DraftView.{draft_view};
ghost use Rattle.statement_terms.specs.Called.{Continues, LeavesAlone};
ghost use Rattle.bound_terms.specs.bound_accesses.specs.bound_names.specs.bound_members.specs.bound_calls.specs.Standing.{TermNamed};
ghost use Rattle.bound_terms.specs.bound_accesses.specs.bound_names.specs.View.{EnvStands, env_view};

use bound_project::Draft;
use bound_terms::bound_accesses::bound_names::Env;
use bound_terms::bound_accesses::bound_names::bound_members::bound_calls::bound_declarations::NotYet;
use bound_terms::bound_accesses::bound_names::bound_members::bound_calls::{
    Item, Tree, put_item, take_item,
};
use bound_terms::run;
use std::alloc::Global;
use vba_base::OrMemory;
use vba_expression::ExpressionNode;

/// What nodes are that are an expression; all but the last one are pushed.
pub fn nodes_tree<'a>(
    alloc: Global,
    draft: &mut Draft,
    env: Env<'a>,
    nodes: &'a [ExpressionNode],
) -> Result<Tree<'a>, OrMemory<NotYet>>
    requires { EnvStands env }
    ensures { IfOk result (λ tree. LeavesAlone (env_view env.entry) nodes.now (draft_view draft.old) (draft_view draft.new) tree) }
{
    let mut stack = Vec::new(alloc);
    run(alloc, draft, env, &mut stack, nodes)?;
    let Some(Item::Tree(tree)) = take_item(&mut stack) else {
        return Err(OrMemory::NoMemory);
    };
    if stack.is_empty() {
        Ok(tree)
    } else {
        Err(OrMemory::NoMemory)
    }
}

/// An expression of which more nodes are read.
pub fn continue_tree<'a>(
    alloc: Global,
    draft: &mut Draft,
    env: Env<'a>,
    tree: Tree<'a>,
    nodes: &'a [ExpressionNode],
) -> Result<Tree<'a>, OrMemory<NotYet>>
    requires env { EnvStands env }
    requires named { TermNamed (draft_view draft.old).tables tree.term }
    ensures { IfOk result (λ more. Continues (env_view env.entry) tree.entry nodes.now (draft_view draft.old) (draft_view draft.new) more) }
{
    let mut stack = Vec::new(alloc);
    put_item(&mut stack, Item::Tree(tree))?;
    run(alloc, draft, env, &mut stack, nodes)?;
    let Some(Item::Tree(more)) = take_item(&mut stack) else {
        return Err(OrMemory::NoMemory);
    };
    if stack.is_empty() {
        Ok(more)
    } else {
        Err(OrMemory::NoMemory)
    }
}

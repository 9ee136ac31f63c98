//! Calls that stand as statements and call no procedure: members of objects with arguments, and what else brackets index.

ghost use Rattle.std.specs.Prelude.{◌≡◌, ◌++◌, IfOk};
ghost use Rattle.bound_project.specs.DraftView.{draft_view};
ghost use Rattle.statement_terms.specs.Called.{CallsTreeOn, Continues};
ghost use Rattle.statement_terms.specs.Heights.{GivesSome, brackets};
ghost use Rattle.bound_terms.specs.bound_accesses.specs.bound_names.specs.bound_members.specs.bound_calls.specs.Standing.{TermNamed};
ghost use Rattle.bound_terms.specs.bound_accesses.specs.bound_names.specs.View.{EnvStands, env_view};

use bound_project::{ActionKind, Draft};
use bound_terms::bound_accesses::bound_names::Env;
use bound_terms::bound_accesses::bound_names::bound_members::bound_calls::bound_declarations::NotYet;
use bound_terms::bound_accesses::bound_names::bound_members::bound_calls::{
    Item, Tree, put_item, take_item,
};
use bound_terms::run;
use statement_terms::{brackets, gives_some, push_term};
use std::alloc::Global;
use vba_base::{NoMemory, OrMemory};
use vba_expression::ExpressionNode;

/// An expression behind which arguments are read, and their brackets.
fn index_tree<'a>(
    alloc: Global,
    draft: &mut Draft,
    env: Env<'a>,
    tree: Tree<'a>,
    nodes: &'a [ExpressionNode],
    close: &'a [ExpressionNode],
) -> Result<Tree<'a>, OrMemory<NotYet>>
    requires env { EnvStands env }
    requires named { TermNamed (draft_view draft.old).tables tree.term }
    ensures { IfOk result (λ more. Continues (env_view env.entry) tree.entry (nodes.now ++ close.now) (draft_view draft.old) (draft_view draft.new) more) }
{
    let mut stack = Vec::new(alloc);
    put_item(&mut stack, Item::Tree(tree))?;
    run(alloc, draft, env, &mut stack, nodes)?;
    run(alloc, draft, env, &mut stack, close)?;
    let Some(Item::Tree(more)) = take_item(&mut stack) else {
        return Err(OrMemory::NoMemory);
    };
    if stack.is_empty() {
        Ok(more)
    } else {
        Err(OrMemory::NoMemory)
    }
}

/// A statement that calls an expression with arguments, some, and with these brackets.
fn call_closed<'a>(
    alloc: Global,
    draft: &mut Draft,
    env: Env<'a>,
    tree: Tree<'a>,
    nodes: &'a [ExpressionNode],
    close: &'a [ExpressionNode],
) -> Result<ActionKind, OrMemory<NotYet>>
    requires env { EnvStands env }
    requires named { TermNamed (draft_view draft.old).tables tree.term }
    requires some { GivesSome nodes.now }
    requires closes { close.now ≡ brackets tree.place }
    ensures { IfOk result (λ kind. CallsTreeOn (env_view env.entry) tree.entry nodes.now (draft_view draft.old) (draft_view draft.new) kind) }
{
    let more = index_tree(alloc, draft, env, tree, nodes, close)?;
    push_term(alloc, draft, more.term, more.place)?;
    Ok(ActionKind::Evaluate)
}

/// A statement that calls an expression with arguments: what brackets make of it is its value.
pub fn call_indexed<'a>(
    alloc: Global,
    draft: &mut Draft,
    env: Env<'a>,
    tree: Tree<'a>,
    nodes: &'a [ExpressionNode],
) -> Result<ActionKind, OrMemory<NotYet>>
    requires env { EnvStands env }
    requires named { TermNamed (draft_view draft.old).tables tree.term }
    ensures { IfOk result (λ kind. CallsTreeOn (env_view env.entry) tree.entry nodes.now (draft_view draft.old) (draft_view draft.new) kind) }
{
    if !gives_some(nodes) {
        return Err(OrMemory::Fault(NotYet));
    }
    let close = brackets(alloc, tree.place)?;
    call_closed(alloc, draft, env, tree, nodes, close.as_slice())
}

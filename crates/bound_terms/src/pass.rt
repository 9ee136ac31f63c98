ghost use Rattle.std.specs.Prelude.{OnOk, IfOk, Some, reverse};
ghost use Rattle.vba_expression.specs.Nodes.{behind_node, behind_nodes};
ghost use Rattle.vba_expression.specs.View.{view as expression_view};
ghost use Rattle.bound_project.specs.DraftView.{draft_view};
ghost use Rattle.bound_accesses.specs.bound_names.specs.bound_members.specs.bound_calls.specs.bound_forms.specs.ExpressionsBound.{bound_as_given, bound_operand, bound_reference, bound_value};
ghost use Rattle.bound_accesses.specs.bound_names.specs.bound_members.specs.bound_calls.specs.Standing.{AllNamed, TermNamed};
ghost use Rattle.bound_accesses.specs.bound_names.specs.bound_members.specs.bound_calls.specs.Steps.{Binds, Goes, Leaves, PushesValue};
ghost use Rattle.bound_accesses.specs.bound_names.specs.View.{EnvStands, env_view};

use crate::call_steps::step_no_arguments;
use crate::step::{step_me, step_name, step_new, step_type_of};
use bound_accesses::bound_names::Env;
use bound_accesses::bound_names::bound_members::bound_calls::bound_declarations::NotYet;
use bound_accesses::bound_names::bound_members::bound_calls::{
    Item, Shape, Tree, push_ending, push_given, push_operand, push_reference, take_item,
    value_ending,
};
use bound_accesses::bound_names::bound_members::{links_of, shapes_at};
use bound_accesses::{step_member, step_with_member};
use bound_operands::{
    step_binary, step_index, step_literal, step_missing_argument, step_named_argument,
    step_parenthesised, step_plain_argument, step_unary,
};
use bound_project::{DeclaredType, Draft};
use std::alloc::Global;
use vba_base::{NoMemory, OrMemory};
use vba_expression::{BinaryOperator, Expression, ExpressionNode};

/// Is it the operator Is?
fn is_same(node: &ExpressionNode) -> bool {
    match node {
        ExpressionNode::Binary { operator, .. } => match operator {
            BinaryOperator::Is => true,
            _ => false,
        },
        _ => false,
    }
}

/// Is there an operator Is?
fn has_same(nodes: &[ExpressionNode]) -> bool {
    for node in nodes {
        if is_same(node) {
            return true;
        }
    }
    false
}

/// How many expressions stand on top behind a node, where so many stood before it.
fn depth_behind(node: &ExpressionNode, depth: usize) -> usize {
    match node {
        ExpressionNode::Literal(_) => depth.saturating_add(1),
        ExpressionNode::Name(_) => depth.saturating_add(1),
        ExpressionNode::Me(_) => depth.saturating_add(1),
        ExpressionNode::WithMember { .. } => depth.saturating_add(1),
        ExpressionNode::New { .. } => depth.saturating_add(1),
        ExpressionNode::Binary { .. } => depth.saturating_sub(1),
        ExpressionNode::PlainArgument { .. } => depth.saturating_sub(1),
        ExpressionNode::NamedArgument { .. } => depth.saturating_sub(1),
        _ => depth,
    }
}

/// Is what stands before the expression that begins with these nodes the left operand of Is? No promise rests on it: where
/// the operator comes it is tested.
fn is_before_same(nodes: &[ExpressionNode]) -> bool {
    let mut depth: usize = 0;
    for node in nodes {
        let behind = depth_behind(node, depth);
        if depth == 1 && behind == 0 {
            return is_same(node);
        }
        depth = behind;
    }
    false
}

/// The same of the nodes from a number on; asked only where there is an operator Is at all.
fn refers_at(nodes: &[ExpressionNode], number: usize, has_same: bool) -> bool {
    if !has_same {
        return false;
    }
    let Some((_before, behind)) = nodes.split_at_checked(number) else {
        return false;
    };
    is_before_same(behind)
}

/// Reads one node, which stands before these arguments where it begins some; a left operand before a leaf is a reference or
/// none.
fn step<'a>(
    alloc: Global,
    draft: &mut Draft,
    env: Env<'a>,
    stack: &mut Vec<Item<'a>>,
    node: &'a ExpressionNode,
    shapes: &[Shape<'a>],
    refers: bool,
) -> Result<(), OrMemory<NotYet>>
    requires env { EnvStands env }
    requires named { AllNamed (draft_view draft.old).tables (reverse stack.old.items) }
    ensures { OnOk result (Goes (env_view env.entry) (draft_view draft.old) (reverse stack.old.items) (draft_view draft.new) (reverse stack.new.items) (behind_node node.now)) }
{
    match node {
        ExpressionNode::Literal(literal) => step_literal(
            alloc,
            draft,
            env.declared,
            stack,
            refers,
            literal,
        ),
        ExpressionNode::Name(name) => step_name(alloc, draft, env, stack, refers, name),
        ExpressionNode::WithMember { dot, member } => {
            step_with_member(alloc, draft, env, stack, refers, *dot, member)
        }
        ExpressionNode::Member { dot, member } => {
            step_member(alloc, draft, env, stack, *dot, member)
        }
        ExpressionNode::Parenthesised { .. } => step_parenthesised(alloc, draft, stack),
        ExpressionNode::TypeOf {
            type_of_word,
            class,
            ..
        } => step_type_of(alloc, draft, env, stack, *type_of_word, class),
        ExpressionNode::Unary { operator, token } => {
            step_unary(alloc, draft, stack, *operator, *token)
        }
        ExpressionNode::Binary { operator, token } => {
            step_binary(alloc, draft, env.compare, stack, *operator, *token)
        }
        ExpressionNode::NoArguments => step_no_arguments(alloc, draft, env, stack, shapes),
        ExpressionNode::MissingArgument { .. } => step_missing_argument(alloc, draft, stack),
        ExpressionNode::PlainArgument { .. } => step_plain_argument(alloc, draft, stack),
        ExpressionNode::NamedArgument { name, .. } => {
            step_named_argument(alloc, draft, stack, name)
        }
        ExpressionNode::Index { .. } => step_index(alloc, draft, env.declared, stack),
        ExpressionNode::Me(token) => step_me(alloc, draft, env, stack, refers, *token),
        ExpressionNode::New { new_word, class } => {
            step_new(alloc, draft, env, stack, refers, *new_word, class)
        }
    }
}

/// The arguments that a node begins, where it begins some.
fn shapes_behind<'a>(
    alloc: Global,
    nodes: &'a [ExpressionNode],
    links: &[usize],
    number: usize,
    node: &ExpressionNode,
) -> Result<Vec<Shape<'a>>, NoMemory> {
    match node {
        ExpressionNode::NoArguments => shapes_at(alloc, nodes, links, number),
        _ => Ok(Vec::new(alloc)),
    }
}

/// Reads nodes in order.
pub fn run<'a>(
    alloc: Global,
    draft: &mut Draft,
    env: Env<'a>,
    stack: &mut Vec<Item<'a>>,
    nodes: &'a [ExpressionNode],
) -> Result<(), OrMemory<NotYet>>
    requires env { EnvStands env }
    requires named { AllNamed (draft_view draft.old).tables (reverse stack.old.items) }
    ensures { OnOk result (Goes (env_view env.entry) (draft_view draft.old) (reverse stack.old.items) (draft_view draft.new) (reverse stack.new.items) (λ is. behind_nodes is nodes.now)) }
{
    let has_same = has_same(nodes);
    let links = links_of(alloc, nodes)?;
    let mut number: usize = 0;
    for node in nodes {
        let shapes = shapes_behind(alloc, nodes, &links, number, node)?;
        let refers = refers_at(nodes, number, has_same);
        step(alloc, draft, env, stack, node, &shapes, refers)?;
        number = number.saturating_add(1);
    }
    Ok(())
}

/// What an expression is; all of its nodes but the last one are pushed.
pub fn tree_of<'a>(
    alloc: Global,
    draft: &mut Draft,
    env: Env<'a>,
    expression: &'a Expression,
) -> Result<Tree<'a>, OrMemory<NotYet>>
    requires { EnvStands env }
    ensures { IfOk result (λ tree. Leaves (env_view env.entry) (expression_view expression.now) (draft_view draft.old) (draft_view draft.new) tree) }
{
    let mut stack = Vec::new(alloc);
    run(alloc, draft, env, &mut stack, expression.nodes())?;
    let Some(Item::Tree(tree)) = take_item(&mut stack) else {
        return Err(OrMemory::NoMemory);
    };
    if stack.is_empty() {
        Ok(tree)
    } else {
        Err(OrMemory::NoMemory)
    }
}

/// Pushes an expression as a value; answers its type.
pub fn push_value<'a>(
    alloc: Global,
    draft: &mut Draft,
    tree: Tree<'a>,
) -> Result<Option<DeclaredType>, OrMemory<NotYet>>
    requires { TermNamed (draft_view draft.old).tables tree.term }
    ensures { IfOk result (λ of. PushesValue tree.entry (draft_view draft.old) (draft_view draft.new) of) }
{
    let ending = value_ending(alloc, draft, tree.term, tree.place)?;
    let of = push_ending(draft, ending, tree.place)?;
    Ok(of)
}

/// Pushes the nodes of an expression as an operand; answers the type that it has as one, and none where it isn't bound.
pub fn bind_operand<'a>(
    alloc: Global,
    draft: &mut Draft,
    env: Env<'a>,
    expression: &'a Expression,
) -> Result<Option<DeclaredType>, OrMemory<NotYet>>
    requires { EnvStands env }
    ensures { IfOk result (λ of. Binds (bound_operand (env_view env.entry) (expression_view expression.now)) (draft_view draft.old) (draft_view draft.new) of) }
{
    let tree = tree_of(alloc, draft, env, expression)?;
    let of = push_operand(alloc, draft, tree)?;
    Ok(of)
}

/// Pushes the nodes of an expression as a value; answers its type, and none where it isn't bound.
pub fn bind_value<'a>(
    alloc: Global,
    draft: &mut Draft,
    env: Env<'a>,
    expression: &'a Expression,
) -> Result<Option<DeclaredType>, OrMemory<NotYet>>
    requires { EnvStands env }
    ensures { IfOk result (λ of. Binds (bound_value (env_view env.entry) (expression_view expression.now)) (draft_view draft.old) (draft_view draft.new) of) }
{
    let tree = tree_of(alloc, draft, env, expression)?;
    let of = push_value(alloc, draft, tree)?;
    Ok(of)
}

/// Pushes the nodes of an expression as a reference to an object; answers its type.
pub fn bind_reference<'a>(
    alloc: Global,
    draft: &mut Draft,
    env: Env<'a>,
    expression: &'a Expression,
) -> Result<DeclaredType, OrMemory<NotYet>>
    requires { EnvStands env }
    ensures { IfOk result (λ of. Binds (bound_reference (env_view env.entry) (expression_view expression.now)) (draft_view draft.old) (draft_view draft.new) (Some of)) }
{
    let tree = tree_of(alloc, draft, env, expression)?;
    push_reference(alloc, draft, tree)
}

/// Pushes the nodes of an expression as it is, a value or a reference; answers its type.
pub fn bind_given<'a>(
    alloc: Global,
    draft: &mut Draft,
    env: Env<'a>,
    expression: &'a Expression,
) -> Result<DeclaredType, OrMemory<NotYet>>
    requires { EnvStands env }
    ensures { IfOk result (λ of. Binds (bound_as_given (env_view env.entry) (expression_view expression.now)) (draft_view draft.old) (draft_view draft.new) (Some of)) }
{
    let tree = tree_of(alloc, draft, env, expression)?;
    push_given(alloc, draft, tree)
}

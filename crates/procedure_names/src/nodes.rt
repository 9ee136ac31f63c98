//! The names that expressions use, in one pass over their nodes.

ghost use Rattle.std.specs.Prelude.{◌≡◌, [], ◌∷◌, map, IfOk, OnOk};
ghost use Rattle.vba_expression.specs.View.{arguments_view, view};
ghost use Rattle.declared_names.specs.binder.specs.Names.{names_called, names_in_args, names_used};
ghost use Rattle.declared_names.specs.binder.specs.Scopes.{plainly};
ghost use Rattle.declared_names.specs.View.{use_view};
ghost use Rattle.procedure_names.specs.Used as plain;
ghost use Rattle.procedure_names.specs.Used.{stack, used_view};

use crate::item::{Item, Used, joined, push_item, take_arguments, take_tree};
use declared_names::Use;
use std::alloc::Global;
use vba_base::NoMemory;
use vba_expression::{Arguments, Expression, ExpressionNode};

/// Goes behind a node that uses no names.
fn pass_bare(alloc: Global, items: &mut Vec<Item<'_>>) -> Result<(), NoMemory>
    ensures { OnOk result (stack items.new.items ≡ plain.behind_bare (stack items.old.items)) }
{
    push_item(items, Item::Tree(Vec::new(alloc)))
}

/// Goes behind a node with one operand, which is used in a way.
fn pass_unary(alloc: Global, items: &mut Vec<Item<'_>>, how: Use) -> Result<(), NoMemory>
    ensures { OnOk result (stack items.new.items ≡ plain.behind_unary (use_view how) (stack items.old.items)) }
{
    let names = take_tree(alloc, items, how)?;
    push_item(items, Item::Tree(names))
}

/// Goes behind an operator between two operands.
fn pass_binary(alloc: Global, items: &mut Vec<Item<'_>>) -> Result<(), NoMemory>
    ensures { OnOk result (stack items.new.items ≡ plain.behind_binary (stack items.old.items)) }
{
    let right = take_tree(alloc, items, Use::Plainly)?;
    let left = take_tree(alloc, items, Use::Plainly)?;
    push_item(items, Item::Tree(joined(left, right)?))
}

/// Goes behind a call or an index.
fn pass_index(alloc: Global, items: &mut Vec<Item<'_>>) -> Result<(), NoMemory>
    ensures { OnOk result (stack items.new.items ≡ plain.behind_index (stack items.old.items)) }
{
    let arguments = take_arguments(alloc, items);
    let base = take_tree(alloc, items, Use::Called)?;
    push_item(items, Item::Tree(joined(base, arguments)?))
}

/// Goes behind an argument that isn't written.
fn pass_missing(alloc: Global, items: &mut Vec<Item<'_>>) -> Result<(), NoMemory>
    ensures { OnOk result (stack items.new.items ≡ plain.behind_missing (stack items.old.items)) }
{
    let before = take_arguments(alloc, items);
    push_item(items, Item::Arguments(before))
}

/// Goes behind an argument.
fn pass_argument(alloc: Global, items: &mut Vec<Item<'_>>) -> Result<(), NoMemory>
    ensures { OnOk result (stack items.new.items ≡ plain.behind_argument (stack items.old.items)) }
{
    let argument = take_tree(alloc, items, Use::Plainly)?;
    let before = take_arguments(alloc, items);
    push_item(items, Item::Arguments(joined(before, argument)?))
}

/// Goes behind a node.
fn pass_node<'a>(
    alloc: Global,
    items: &mut Vec<Item<'a>>,
    node: &'a ExpressionNode,
) -> Result<(), NoMemory>
    ensures { OnOk result (stack items.new.items ≡ plain.behind_node node.now (stack items.old.items)) }
{
    match node {
        ExpressionNode::Literal(_)
        | ExpressionNode::Me(_)
        | ExpressionNode::WithMember { .. }
        | ExpressionNode::New { .. } => pass_bare(alloc, items),
        ExpressionNode::Name(name) => push_item(items, Item::Name(name)),
        ExpressionNode::Member { .. } => pass_unary(alloc, items, Use::BeforeDot),
        ExpressionNode::NoArguments => push_item(items, Item::Arguments(Vec::new(alloc))),
        ExpressionNode::MissingArgument { .. } => pass_missing(alloc, items),
        ExpressionNode::PlainArgument { .. } | ExpressionNode::NamedArgument { .. } => {
            pass_argument(alloc, items)
        }
        ExpressionNode::Index { .. } => pass_index(alloc, items),
        ExpressionNode::Parenthesised { .. }
        | ExpressionNode::TypeOf { .. }
        | ExpressionNode::Unary { .. } => pass_unary(alloc, items, Use::Plainly),
        ExpressionNode::Binary { .. } => pass_binary(alloc, items),
    }
}

/// What nodes leave.
#[tactic(auto, using(std::proofs::lemmas::List::drop_more))]
fn pass_nodes<'a>(alloc: Global, nodes: &'a [ExpressionNode]) -> Result<Vec<Item<'a>>, NoMemory>
    ensures { IfOk result (λ items. stack items.items ≡ plain.behind_nodes [] nodes.now) }
{
    let mut items = Vec::new(alloc);
    for node in nodes {
        pass_node(alloc, &mut items, node)?;
    }
    Ok(items)
}

/// The names in an expression that is used in a way.
fn names_in<'a>(
    alloc: Global,
    nodes: &'a [ExpressionNode],
    how: Use,
) -> Result<Vec<Used<'a>>, NoMemory>
    ensures { IfOk result (λ names. map used_view names.items ≡ plain.last_tree (use_view how) (plain.behind_nodes [] nodes.now)) }
{
    let mut items = pass_nodes(alloc, nodes)?;
    take_tree(alloc, &mut items, how)
}

/// The names that an expression uses.
///
/// It fails only for want of memory.
#[tactic(auto, using(crate::proofs::Passing::expression_names))]
pub(crate) fn names_used(alloc: Global, expression: &Expression) -> Result<Vec<Used<'_>>, NoMemory>
    ensures { IfOk result (λ names. map used_view names.items ≡ names_used plainly (view expression.now)) }
{
    names_in(alloc, expression.nodes(), Use::Plainly)
}

/// The names that an expression uses which is called.
///
/// It fails only for want of memory.
#[tactic(auto, using(crate::proofs::Passing::called_names))]
pub(crate) fn names_called(
    alloc: Global,
    expression: &Expression,
) -> Result<Vec<Used<'_>>, NoMemory>
    ensures { IfOk result (λ names. map used_view names.items ≡ names_called (view expression.now)) }
{
    names_in(alloc, expression.nodes(), Use::Called)
}

/// The names that arguments use.
///
/// It fails only for want of memory.
#[tactic(auto, using(crate::proofs::Passing::argument_names))]
pub(crate) fn names_in_arguments(
    alloc: Global,
    arguments: &Arguments,
) -> Result<Vec<Used<'_>>, NoMemory>
    ensures { IfOk result (λ names. map used_view names.items ≡ names_in_args (arguments_view arguments.now)) }
{
    let mut items = pass_nodes(alloc, arguments.nodes())?;
    Ok(take_arguments(alloc, &mut items))
}

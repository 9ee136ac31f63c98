//! The value of a constant expression by what is known of names: one pass over its nodes.

ghost use Rattle.std.specs.Prelude.{◌≡◌, ◌∷◌, IfOk, OnOk, option_map};
ghost use Rattle.vba_expression.specs.Tree.{name as name_expression};
ghost use Rattle.vba_expression.specs.View.{view};
ghost use Rattle.declared_names.specs.binder.specs.Constants as plain;
ghost use Rattle.declared_names.specs.View.{qualifier_view, scope_view};
ghost use Rattle.constant_values.specs.Names.{names_from};
ghost use Rattle.constant_values.specs.Names as plain_names;
ghost use Rattle.constant_values.specs.Stack.{behind_outcome, behind_outcomes, last, member_outcome, others, outcome};
ghost use Rattle.constant_values.specs.View.{item_view, names_view, outcomes, slot_view};

use crate::item::{Item, pop, push};
use crate::known::Known;
use crate::literals::literal_meant;
use crate::names::{Names, value_of};
use crate::operate::{with_one, with_two};
use declared_names::{Qualifier, Scope, Use, as_qualifier, behind, declares, enum_behind};
use std::alloc::Global;
use vba_base::NoMemory;
use vba_expression::{BinaryOperator, Expression, ExpressionNode};
use vba_words::Identifier;

/// The value of a name.
fn value_of_name(
    alloc: Global,
    names: Names,
    scope: Scope,
    name: &Identifier,
) -> Result<Option<Known>, NoMemory>
    ensures { IfOk result (λ value. slot_view value ≡ (outcome (names_view names.entry) (scope_view scope.entry) (name_expression name.now)).value) }
{
    value_of(
        alloc,
        names,
        scope,
        name,
        declares(Use::Plainly, scope, name),
    )
}

/// The value of a name behind what stands before its dot.
fn value_of_member(
    alloc: Global,
    names: Names,
    scope: Scope,
    qualifier: Option<Qualifier>,
    name: &Identifier,
) -> Result<Option<Known>, NoMemory>
    ensures { IfOk result (λ value. slot_view value ≡ (member_outcome (names_view names.entry) (scope_view scope.entry) (option_map qualifier_view qualifier.entry) name.now).value) }
{
    let meant = match qualifier {
        Some(qualifier) => behind(Use::Plainly, scope, qualifier, name),
        None => None,
    };
    value_of(alloc, names, scope, name, meant)
}

/// The value of an item.
fn value_of_item(
    alloc: Global,
    names: Names,
    scope: Scope,
    item: Item,
) -> Result<Option<Known>, NoMemory>
    ensures { IfOk result (λ value. slot_view value ≡ (item_view (names_view names.entry) (scope_view scope.entry) item.entry).value) }
{
    match item {
        Item::Value(value) => Ok(value),
        Item::Name(name) => value_of_name(alloc, names, scope, name),
        Item::Member { qualifier, name } => {
            value_of_member(alloc, names, scope, qualifier, name)
        }
    }
}

/// What an item is before a dot.
fn qualifier_of_item<'a>(scope: Scope<'a>, item: &Item<'a>) -> Option<Qualifier<'a>>
    ensures { (names : plain_names.Names) → option_map qualifier_view result ≡ (item_view names (scope_view scope.entry) item.now).qualifier }
{
    match item {
        Item::Value(_) => None,
        Item::Name(name) => as_qualifier(declares(Use::BeforeDot, scope, name)),
        Item::Member { qualifier, name } => enum_behind(scope, *qualifier, name),
    }
}

/// The value of the operand that the last item is.
fn pop_value(
    alloc: Global,
    names: Names,
    scope: Scope,
    stack: &mut Vec<Item>,
) -> Result<Option<Known>, NoMemory>
    ensures value { IfOk result (λ value. slot_view value ≡ (last (outcomes (names_view names.entry) (scope_view scope.entry) stack.old.items)).value) }
    ensures stack { outcomes (names_view names.entry) (scope_view scope.entry) stack.new.items ≡ others (outcomes (names_view names.entry) (scope_view scope.entry) stack.old.items) }
{
    let item = pop(stack);
    value_of_item(alloc, names, scope, item)
}

/// An operator behind its two operands.
fn binary_item(
    alloc: Global,
    names: Names,
    scope: Scope,
    operator: BinaryOperator,
    stack: &mut Vec<Item>,
) -> Result<Option<Known>, NoMemory>
    ensures value { IfOk result (λ value. slot_view value
        ≡ plain.with_two operator (plain.compare_in (scope_view scope.entry)) (last (others (outcomes (names_view names.entry) (scope_view scope.entry) stack.old.items))).value
        (last (outcomes (names_view names.entry) (scope_view scope.entry) stack.old.items)).value) }
    ensures stack { OnOk result (outcomes (names_view names.entry) (scope_view scope.entry) stack.new.items
        ≡ others (others (outcomes (names_view names.entry) (scope_view scope.entry) stack.old.items))) }
{
    let right = pop_value(alloc, names, scope, stack)?;
    let left = pop_value(alloc, names, scope, stack)?;
    let compare = scope.here.source.compare();
    with_two(alloc, operator, compare, &left, &right)
}

/// The item that a node puts in the place of those that it takes.
fn item_behind<'a>(
    alloc: Global,
    names: Names,
    scope: Scope<'a>,
    stack: &mut Vec<Item<'a>>,
    node: &'a ExpressionNode,
) -> Result<Item<'a>, NoMemory>
    ensures { IfOk result (λ item. item_view (names_view names.entry) (scope_view scope.entry) item ∷ outcomes (names_view names.entry) (scope_view scope.entry) stack.new.items
        ≡ behind_outcome (names_view names.entry) (scope_view scope.entry) node.now (outcomes (names_view names.entry) (scope_view scope.entry) stack.old.items)) }
{
    match node {
        ExpressionNode::Literal(literal) => {
            let value = literal_meant(alloc, &literal.value)?;
            Ok(Item::Value(Some(Known::typed(value))))
        }
        ExpressionNode::Name(name) => Ok(Item::Name(name)),
        ExpressionNode::Me(_)
        | ExpressionNode::WithMember { .. }
        | ExpressionNode::NoArguments
        | ExpressionNode::New { .. } => Ok(Item::Value(None)),
        ExpressionNode::Member { member, .. } => {
            let base = pop(stack);
            let qualifier = qualifier_of_item(scope, &base);
            Ok(Item::Member {
                qualifier,
                name: member,
            })
        }
        ExpressionNode::MissingArgument { .. } | ExpressionNode::TypeOf { .. } => {
            let _operand = pop_value(alloc, names, scope, stack)?;
            Ok(Item::Value(None))
        }
        ExpressionNode::PlainArgument { .. }
        | ExpressionNode::NamedArgument { .. }
        | ExpressionNode::Index { .. } => {
            let _operand = pop_value(alloc, names, scope, stack)?;
            let _before = pop_value(alloc, names, scope, stack)?;
            Ok(Item::Value(None))
        }
        ExpressionNode::Parenthesised { .. } => {
            Ok(Item::Value(pop_value(alloc, names, scope, stack)?))
        }
        ExpressionNode::Unary { operator, .. } => {
            let operand = pop_value(alloc, names, scope, stack)?;
            Ok(Item::Value(with_one(alloc, *operator, &operand)?))
        }
        ExpressionNode::Binary { operator, .. } => {
            Ok(Item::Value(binary_item(alloc, names, scope, *operator, stack)?))
        }
    }
}

/// Passes nodes.
fn pass_nodes<'a>(
    alloc: Global,
    names: Names,
    scope: Scope<'a>,
    stack: &mut Vec<Item<'a>>,
    nodes: &'a [ExpressionNode],
) -> Result<(), NoMemory>
    ensures { OnOk result (outcomes (names_view names.entry) (scope_view scope.entry) stack.new.items
        ≡ behind_outcomes (names_view names.entry) (scope_view scope.entry) (outcomes (names_view names.entry) (scope_view scope.entry) stack.old.items) nodes.now) }
{
    let mut left = nodes;
    while let [node, rest @ ..] = left {
        let item = item_behind(alloc, names, scope, stack, node)?;
        push(stack, item)?;
        left = rest;
    }
    Ok(())
}

/// The value of an expression, by what is known of names.
#[tactic(auto, using(crate::proofs::Folding::folded_value))]
pub fn value_in<'a>(
    alloc: Global,
    names: Names,
    scope: Scope<'a>,
    expression: &'a Expression,
) -> Result<Option<Known>, NoMemory>
    ensures { IfOk result (λ value. slot_view value ≡ plain.value_by (names_from (names_view names.entry)) (scope_view scope.entry) (view expression.now)) }
{
    let mut stack = Vec::new(alloc);
    pass_nodes(alloc, names, scope, &mut stack, expression.nodes())?;
    pop_value(alloc, names, scope, &mut stack)
}

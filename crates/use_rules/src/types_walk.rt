//! S16 in expressions: what New may not make and TypeOf may not ask for.

ghost use Rattle.std.specs.Prelude.{◌≡◌, [], ◌∷◌, OnOk, IfOk};
ghost use Rattle.declared_names.specs.binder.specs.Violations.{types_in, types_in_args};
ghost use Rattle.declared_names.specs.View.{scope_view};
ghost use Rattle.use_rules.specs.Found.{noted};
ghost use Rattle.use_rules.specs.TypesFound as found;
ghost use Rattle.use_rules.specs.TypesFound.{ended, a_type_of, in_arguments, no_item, top_given, top_expression, types_behind, types_through};
ghost use Rattle.use_rules.specs.Stacks.{top, below};
ghost use Rattle.use_rules.specs.View.{types_stack};
ghost use Rattle.vba_expression.specs.View.{view, arguments_view};
ghost use Rattle.refusal_order.specs.Least.{least_of_both};

use crate::noting::lesser_of;
use crate::types_item::{TypesItem, in_expression, in_given, pop_types, push_types, with_dot};
use declared_names::Scope;
use refusal_order::note_both;
use std::alloc::Global;
use vba_base::{NoMemory, Refusal};
use vba_expression::{Arguments, Expression, ExpressionNode};
use vba_words::Identifier;

/// A dot and a name behind the last item.
fn pass_member(
    scope: Scope,
    member: &Identifier,
    stack: &mut Vec<TypesItem>,
) -> Result<(), NoMemory>
    ensures { OnOk result (types_stack stack.new.items ≡ ended (found.with_dot (scope_view scope.entry) (top no_item (types_stack stack.old.items)) member.now)
        ∷ below (types_stack stack.old.items)) }
{
    let base = pop_types(stack);
    let least = with_dot(scope, base, member)?;
    push_types(stack, TypesItem::Ended(least))
}

/// An argument that isn't written.
fn pass_missing(stack: &mut Vec<TypesItem>) -> Result<(), NoMemory>
    ensures { OnOk result (types_stack stack.new.items ≡ in_arguments (top_given (types_stack stack.old.items)) ∷ below (types_stack stack.old.items)) }
{
    let before = pop_types(stack);
    push_types(stack, TypesItem::Arguments(in_given(before)))
}

/// One more argument.
fn pass_argument(scope: Scope, stack: &mut Vec<TypesItem>) -> Result<(), NoMemory>
    ensures { OnOk result (types_stack stack.new.items
        ≡ in_arguments (least_of_both (top_given (below (types_stack stack.old.items))) (top_expression (scope_view scope.entry) (types_stack stack.old.items)))
        ∷ below (below (types_stack stack.old.items))) }
{
    let value = pop_types(stack);
    let value = in_expression(scope, value)?;
    let before = pop_types(stack);
    let least = lesser_of(in_given(before), value);
    push_types(stack, TypesItem::Arguments(least))
}

/// Arguments behind what is called or indexed.
fn pass_index(scope: Scope, stack: &mut Vec<TypesItem>) -> Result<(), NoMemory>
    ensures { OnOk result (types_stack stack.new.items
        ≡ ended (least_of_both (top_expression (scope_view scope.entry) (below (types_stack stack.old.items))) (top_given (types_stack stack.old.items)))
        ∷ below (below (types_stack stack.old.items))) }
{
    let arguments = pop_types(stack);
    let base = pop_types(stack);
    let base = in_expression(scope, base)?;
    let least = lesser_of(base, in_given(arguments));
    push_types(stack, TypesItem::Ended(least))
}

/// An operator or parentheses of one operand.
fn pass_operand(scope: Scope, stack: &mut Vec<TypesItem>) -> Result<(), NoMemory>
    ensures { OnOk result (types_stack stack.new.items
        ≡ ended (top_expression (scope_view scope.entry) (types_stack stack.old.items)) ∷ below (types_stack stack.old.items)) }
{
    let operand = pop_types(stack);
    let least = in_expression(scope, operand)?;
    push_types(stack, TypesItem::Ended(least))
}

/// TypeOf with the name of a type.
fn pass_type_of<'a>(
    scope: Scope,
    class: &'a Identifier,
    stack: &mut Vec<TypesItem<'a>>,
) -> Result<(), NoMemory>
    ensures { OnOk result (types_stack stack.new.items
        ≡ a_type_of (top_expression (scope_view scope.entry) (types_stack stack.old.items)) class.now ∷ below (types_stack stack.old.items)) }
{
    let operand = pop_types(stack);
    let operand = in_expression(scope, operand)?;
    push_types(stack, TypesItem::TypeOf { operand, class })
}

/// An operator with two operands.
fn pass_operands(scope: Scope, stack: &mut Vec<TypesItem>) -> Result<(), NoMemory>
    ensures { OnOk result (types_stack stack.new.items
        ≡ ended (least_of_both (top_expression (scope_view scope.entry) (below (types_stack stack.old.items))) (top_expression (scope_view scope.entry) (types_stack stack.old.items)))
        ∷ below (below (types_stack stack.old.items))) }
{
    let right = pop_types(stack);
    let right = in_expression(scope, right)?;
    let left = pop_types(stack);
    let left = in_expression(scope, left)?;
    push_types(stack, TypesItem::Ended(lesser_of(left, right)))
}

/// One node.
fn pass_node<'a>(
    scope: Scope,
    passed: &'a ExpressionNode,
    stack: &mut Vec<TypesItem<'a>>,
) -> Result<(), NoMemory>
    ensures { OnOk result (types_stack stack.new.items ≡ types_behind (scope_view scope.entry) passed.now (types_stack stack.old.items)) }
{
    match passed {
        ExpressionNode::Literal(_)
        | ExpressionNode::Me(_)
        | ExpressionNode::Name(_)
        | ExpressionNode::WithMember { .. } => push_types(stack, TypesItem::Ended(None)),
        ExpressionNode::Member { member, .. } => pass_member(scope, member, stack),
        ExpressionNode::NoArguments => push_types(stack, TypesItem::Arguments(None)),
        ExpressionNode::MissingArgument { .. } => pass_missing(stack),
        ExpressionNode::PlainArgument { .. } | ExpressionNode::NamedArgument { .. } => {
            pass_argument(scope, stack)
        }
        ExpressionNode::Index { .. } => pass_index(scope, stack),
        ExpressionNode::Parenthesised { .. } | ExpressionNode::Unary { .. } => {
            pass_operand(scope, stack)
        }
        ExpressionNode::New { class, .. } => push_types(stack, TypesItem::New(class)),
        ExpressionNode::TypeOf { class, .. } => pass_type_of(scope, class, stack),
        ExpressionNode::Binary { .. } => pass_operands(scope, stack),
    }
}

/// The items that nodes leave.
fn pass_nodes<'a>(
    alloc: Global,
    scope: Scope,
    nodes: &'a [ExpressionNode],
) -> Result<Vec<TypesItem<'a>>, NoMemory>
    ensures { IfOk result (λ stack. types_stack stack.items ≡ types_through (scope_view scope.entry) [] nodes.now) }
{
    let mut stack = Vec::new(alloc);
    for passed in nodes {
        pass_node(scope, passed, &mut stack)?;
    }
    Ok(stack)
}

/// Notes where an expression breaks S16.
#[tactic(auto, using(crate::proofs::TypesKept::expression_found))]
pub fn note_types(
    alloc: Global,
    scope: Scope,
    expression: &Expression,
    least: &mut Option<Refusal>,
) -> Result<(), NoMemory>
    ensures { OnOk result (least.new ≡ noted 16 least.old (types_in (scope_view scope.entry) (view expression.now))) }
{
    let mut stack = pass_nodes(alloc, scope, expression.nodes())?;
    let whole = pop_types(&mut stack);
    let found = in_expression(scope, whole)?;
    note_both(least, found);
    Ok(())
}

/// Notes where arguments break S16.
#[tactic(auto, using(crate::proofs::TypesKept::arguments_found))]
pub fn note_types_in_arguments(
    alloc: Global,
    scope: Scope,
    arguments: &Arguments,
    least: &mut Option<Refusal>,
) -> Result<(), NoMemory>
    ensures { OnOk result (least.new ≡ noted 16 least.old (types_in_args (scope_view scope.entry) (arguments_view arguments.now))) }
{
    let mut stack = pass_nodes(alloc, scope, arguments.nodes())?;
    let whole = pop_types(&mut stack);
    note_both(least, in_given(whole));
    Ok(())
}

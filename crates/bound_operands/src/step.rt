ghost use Rattle.std.specs.Prelude.{◌≡◌, ◌∷◌, IfSome, OnOk, reverse};
ghost use Rattle.vba_lexer.specs.declared.token.Token.{Token};
ghost use Rattle.vba_expression.specs.declared.node.ExpressionNode.TheVariants as node;
ghost use Rattle.vba_expression.specs.declared.operator.BinaryOperator.TheVariants as operators;
ghost use Rattle.vba_expression.specs.Nodes.{behind_node};
ghost use Rattle.bound_project.specs.DraftView.{draft_view};
ghost use Rattle.bound_project.specs.View.{declarations_view};
ghost use Rattle.bound_members.specs.bound_calls.specs.bound_declarations.specs.constant_values.specs.declared_names.specs.binder.specs.Constants.{compare_in};
ghost use Rattle.bound_members.specs.bound_calls.specs.bound_forms.specs.ClassDefaults.{declared_in};
ghost use Rattle.bound_members.specs.bound_calls.specs.bound_forms.specs.Terms as plain;
ghost use Rattle.bound_members.specs.bound_calls.specs.Standing.{AllNamed};
ghost use Rattle.bound_members.specs.bound_calls.specs.Steps.{Goes, is_same};

use crate::operators::{binary_term, unary_term};
use bound_members::bound_calls::bound_declarations::NotYet;
use bound_members::bound_calls::bound_declarations::constant_values::{literal_meant, value_type};
use bound_members::bound_calls::{
    Ending, Item, Operand, Term, Tree, given_ending, push_operand, push_reference, put_item,
    settle, take_item, value_term,
};
use bound_project::{Declarations, DeclaredType, Draft, ElementType, NodeKind};
use std::alloc::Global;
use vba_base::OrMemory;
use vba_expression::{BinaryOperator, Literal, UnaryOperator};
use vba_lexer::Token;
use vba_values::Compare;

/// A literal: a value. A left operand before it is a reference where its operator is Is.
pub fn step_literal<'a>(
    alloc: Global,
    draft: &mut Draft,
    declared: &'a Declarations,
    stack: &mut Vec<Item<'a>>,
    is_reference: bool,
    literal: &Literal,
) -> Result<(), OrMemory<NotYet>>
    requires { AllNamed (draft_view draft.old).tables (reverse stack.old.items) }
    ensures { OnOk result ((env : plain.Env) → declared_in env.scope ≡ declarations_view declared.now → Goes env (draft_view draft.old) (reverse stack.old.items) (draft_view draft.new) (reverse stack.new.items) (behind_node (node.Literal literal.now))) }
{
    settle(alloc, draft, stack, is_reference)?;
    let value = literal_meant(alloc, &literal.value)?;
    let of = value_type(&value);
    let term = value_term(draft, value, of)?;
    put_item(
        stack,
        Item::Tree(Tree {
            place: literal.token.place,
            name: None,
            dotted: None,
            term,
            declared,
        }),
    )?;
    Ok(())
}

/// Parentheses: what stands in them is a value, and an object as it is; it is told where it was.
pub fn step_parenthesised<'a>(
    alloc: Global,
    draft: &mut Draft,
    stack: &mut Vec<Item<'a>>,
) -> Result<(), OrMemory<NotYet>>
    requires { AllNamed (draft_view draft.old).tables (reverse stack.old.items) }
    ensures { OnOk result ((env : plain.Env) (left right : Token) → Goes env (draft_view draft.old) (reverse stack.old.items) (draft_view draft.new) (reverse stack.new.items) (behind_node (node.Parenthesised left right))) }
{
    let Some(Item::Tree(tree)) = take_item(stack) else {
        return Err(OrMemory::NoMemory);
    };
    let place = tree.place;
    let ending = given_ending(alloc, draft, tree.term, tree.place)?;
    put_item(
        stack,
        Item::Tree(Tree {
            place,
            name: None,
            dotted: None,
            term: Term::Value(ending),
            declared: tree.declared,
        }),
    )?;
    Ok(())
}

/// An operator of one operand.
pub fn step_unary<'a>(
    alloc: Global,
    draft: &mut Draft,
    stack: &mut Vec<Item<'a>>,
    operator: UnaryOperator,
    token: Token,
) -> Result<(), OrMemory<NotYet>>
    requires { AllNamed (draft_view draft.old).tables (reverse stack.old.items) }
    ensures { OnOk result ((env : plain.Env) → Goes env (draft_view draft.old) (reverse stack.old.items) (draft_view draft.new) (reverse stack.new.items) (behind_node (node.Unary operator token))) }
{
    let Some(Item::Tree(tree)) = take_item(stack) else {
        return Err(OrMemory::NoMemory);
    };
    let of = push_operand(alloc, draft, tree)?;
    let term = unary_term(alloc, operator, of)?;
    put_item(
        stack,
        Item::Tree(Tree {
            place: token.place,
            name: None,
            dotted: None,
            term,
            declared: tree.declared,
        }),
    )?;
    Ok(())
}

/// Is it the operator Is?
fn is_same(operator: BinaryOperator) -> bool
    ensures { result ≡ is_same operator }
{
    match operator {
        BinaryOperator::Is => true,
        _ => false,
    }
}

/// Takes a right operand, and the left one below it, which stands first in the answer.
fn take_operands<'a>(stack: &mut Vec<Item<'a>>) -> Option<(Operand, Tree<'a>)>
    ensures { IfSome result (λ found. reverse stack.old.items ≡ Item.Tree found.1 ∷ Item.Operand found.0 ∷ reverse stack.new.items) }
{
    let Some(Item::Tree(right)) = take_item(stack) else {
        return None;
    };
    let Some(Item::Operand(left)) = take_item(stack) else {
        return None;
    };
    Some((left, right))
}

/// The operator Is: whether two references are to the same object.
fn step_same<'a>(
    alloc: Global,
    draft: &mut Draft,
    stack: &mut Vec<Item<'a>>,
    token: Token,
) -> Result<(), OrMemory<NotYet>>
    requires { AllNamed (draft_view draft.old).tables (reverse stack.old.items) }
    ensures { OnOk result ((env : plain.Env) → Goes env (draft_view draft.old) (reverse stack.old.items) (draft_view draft.new) (reverse stack.new.items) (behind_node (node.Binary operators.Is token))) }
{
    let Some((left, right)) = take_operands(stack) else {
        return Err(OrMemory::NoMemory);
    };
    if !left.is_reference {
        return Err(OrMemory::Fault(NotYet));
    }
    let Some(_of) = left.of else {
        return Err(OrMemory::Fault(NotYet));
    };
    push_reference(alloc, draft, right)?;
    put_item(
        stack,
        Item::Tree(Tree {
            place: token.place,
            name: None,
            dotted: None,
            term: Term::Value(Ending {
                kind: NodeKind::Same,
                of: DeclaredType::Plain(ElementType::Boolean),
            }),
            declared: right.declared,
        }),
    )?;
    Ok(())
}

/// An operator of two operands, but for Is.
fn step_operands<'a>(
    alloc: Global,
    draft: &mut Draft,
    compare: Compare,
    stack: &mut Vec<Item<'a>>,
    operator: BinaryOperator,
    token: Token,
) -> Result<(), OrMemory<NotYet>>
    requires { AllNamed (draft_view draft.old).tables (reverse stack.old.items) }
    ensures { OnOk result ((env : plain.Env) → compare ≡ compare_in env.scope
        → Goes env (draft_view draft.old) (reverse stack.old.items) (draft_view draft.new) (reverse stack.new.items) (behind_node (node.Binary operator token))) }
{
    let Some((left, right)) = take_operands(stack) else {
        return Err(OrMemory::NoMemory);
    };
    if left.is_reference {
        return Err(OrMemory::Fault(NotYet));
    }
    if is_same(operator) {
        return Err(OrMemory::Fault(NotYet));
    }
    let of = push_operand(alloc, draft, right)?;
    let term = binary_term(alloc, compare, operator, left.of, of)?;
    put_item(
        stack,
        Item::Tree(Tree {
            place: token.place,
            name: None,
            dotted: None,
            term,
            declared: right.declared,
        }),
    )?;
    Ok(())
}

/// An operator of two operands.
pub fn step_binary<'a>(
    alloc: Global,
    draft: &mut Draft,
    compare: Compare,
    stack: &mut Vec<Item<'a>>,
    operator: BinaryOperator,
    token: Token,
) -> Result<(), OrMemory<NotYet>>
    requires { AllNamed (draft_view draft.old).tables (reverse stack.old.items) }
    ensures { OnOk result ((env : plain.Env) → compare ≡ compare_in env.scope
        → Goes env (draft_view draft.old) (reverse stack.old.items) (draft_view draft.new) (reverse stack.new.items) (behind_node (node.Binary operator token))) }
{
    match operator {
        BinaryOperator::Is => step_same(alloc, draft, stack, token),
        _ => step_operands(alloc, draft, compare, stack, operator, token),
    }
}

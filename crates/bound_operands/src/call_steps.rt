ghost use Rattle.std.specs.Prelude.{◌≡◌, OnOk, Option, reverse};
ghost use Rattle.vba_lexer.specs.declared.token.Token.{Token};
ghost use Rattle.vba_expression.specs.declared.node.ExpressionNode.TheVariants as node;
ghost use Rattle.vba_expression.specs.Nodes.{behind_node};
ghost use Rattle.bound_project.specs.DraftView.{draft_view};
ghost use Rattle.bound_project.specs.View.{declarations_view};
ghost use Rattle.bound_members.specs.bound_calls.specs.bound_forms.specs.ClassDefaults.{declared_in};
ghost use Rattle.bound_members.specs.bound_calls.specs.bound_forms.specs.Terms as plain;
ghost use Rattle.bound_members.specs.bound_calls.specs.Calls.{passed_in, with_passed};
ghost use Rattle.bound_members.specs.bound_calls.specs.Standing.{AllNamed};
ghost use Rattle.bound_members.specs.bound_calls.specs.Steps.{Goes};

use crate::gathering::{gather, gather_missing, gathers};
use crate::indexing::{add_argument, end_arguments, skip_argument};
use crate::untaken::{is_refused, refuse, refuse_missing};
use bound_members::bound_calls::bound_declarations::NotYet;
use bound_members::bound_calls::{Call, Item, Passed, put_item, take_item};
use bound_project::{Declarations, Draft};
use std::alloc::Global;
use vba_base::OrMemory;

/// The arguments of an item.
pub fn passed_in<'a>(item: Item<'a>) -> Option<Passed<'a>>
    ensures { result ≡ passed_in item.entry }
{
    match item {
        Item::Call(call) => Some(call.passed),
        Item::Listed(passed) => Some(passed),
        _ => None,
    }
}

/// An item with other arguments.
pub fn with_passed<'a>(item: Item<'a>, passed: Passed<'a>) -> Item<'a>
    ensures { result ≡ with_passed item.entry passed.entry }
{
    match item {
        Item::Call(call) => Item::Call(Call { passed, ..call }),
        Item::Listed(_) => Item::Listed(passed),
        _ => item,
    }
}

/// One more argument: the expression on top.
pub fn step_plain_argument<'a>(
    alloc: Global,
    draft: &mut Draft,
    stack: &mut Vec<Item<'a>>,
) -> Result<(), OrMemory<NotYet>>
    requires { AllNamed (draft_view draft.old).tables (reverse stack.old.items) }
    ensures { OnOk result ((env : plain.Env) (comma : Option Token) → Goes env (draft_view draft.old) (reverse stack.old.items) (draft_view draft.new) (reverse stack.new.items) (behind_node (node.PlainArgument comma))) }
{
    let Some(Item::Tree(tree)) = take_item(stack) else {
        return Err(OrMemory::NoMemory);
    };
    let Some(item) = take_item(stack) else {
        return Err(OrMemory::NoMemory);
    };
    if gathers(item) {
        gather(alloc, draft, stack, item, tree)?;
        return Ok(());
    }
    if is_refused(item) {
        return refuse(alloc, draft, stack, item, tree, None);
    }
    let item = add_argument(alloc, draft, item, tree)?;
    put_item(stack, item)?;
    Ok(())
}

/// One more argument, which isn't written.
pub fn step_missing_argument<'a>(
    alloc: Global,
    draft: &mut Draft,
    stack: &mut Vec<Item<'a>>,
) -> Result<(), OrMemory<NotYet>>
    requires { AllNamed (draft_view draft.old).tables (reverse stack.old.items) }
    ensures { OnOk result ((env : plain.Env) (comma : Option Token) → Goes env (draft_view draft.old) (reverse stack.old.items) (draft_view draft.new) (reverse stack.new.items) (behind_node (node.MissingArgument comma))) }
{
    let Some(item) = take_item(stack) else {
        return Err(OrMemory::NoMemory);
    };
    if gathers(item) {
        gather_missing(draft, stack, item)?;
        return Ok(());
    }
    if is_refused(item) {
        return refuse_missing(draft, stack, item);
    }
    let item = skip_argument(alloc, draft, item)?;
    put_item(stack, item)?;
    Ok(())
}

/// Arguments end: a call, or an element.
pub fn step_index<'a>(
    alloc: Global,
    draft: &mut Draft,
    declared: &'a Declarations,
    stack: &mut Vec<Item<'a>>,
) -> Result<(), OrMemory<NotYet>>
    requires { AllNamed (draft_view draft.old).tables (reverse stack.old.items) }
    ensures { OnOk result ((env : plain.Env) → declared_in env.scope ≡ declarations_view declared.now → (left right : Token) → Goes env (draft_view draft.old) (reverse stack.old.items) (draft_view draft.new) (reverse stack.new.items) (behind_node (node.Index left right))) }
{
    let Some(item) = take_item(stack) else {
        return Err(OrMemory::NoMemory);
    };
    let tree = end_arguments(alloc, draft, declared, item)?;
    put_item(stack, Item::Tree(tree))?;
    Ok(())
}

//! Values for a ParamArray: each is pushed as it is read, and the call makes an array of them.

ghost use Rattle.std.specs.Prelude.{◌≡◌, ◌≢◌, ◌∷◌, true, IfOk, OnOk, Option, map, reverse};
ghost use Rattle.vba_lexer.specs.declared.token.Token.{Token};
ghost use Rattle.vba_expression.specs.declared.node.ExpressionNode.TheVariants as node;
ghost use Rattle.vba_expression.specs.Nodes.{behind_node};
ghost use Rattle.bound_project.specs.DraftView.{draft_view};
ghost use Rattle.bound_project.specs.View.{declarations_view, parameter_view};
ghost use Rattle.bound_members.specs.bound_calls.specs.bound_forms.specs.ClassDefaults.{declared_in};
ghost use Rattle.bound_members.specs.bound_calls.specs.bound_forms.specs.Terms as plain;
ghost use Rattle.bound_members.specs.bound_calls.specs.Standing.{AllNamed, is_gathering};
ghost use Rattle.bound_members.specs.bound_calls.specs.Steps.{Goes};
ghost use Rattle.bound_operands.specs.Gathering.{EndsGathered, PassesGathered, gathers, with_gathered, with_value};

use bound_members::bound_calls::bound_declarations::NotYet;
use bound_members::bound_calls::{
    Ending, Item, Passed, Routine, Term, Tree, call_kind, count_of, nowhere, pass_rest,
    push_argument, push_node, put_item, sum, take_item,
};
use bound_project::{Declarations, DeclaredType, Draft, ElementType, NodeKind, Parameter};
use std::alloc::Global;
use vba_base::{NoMemory, OrMemory};

/// Is the first of these parameters a ParamArray?
fn is_gathering(left: &[Parameter]) -> bool
    ensures { result ≡ is_gathering (map parameter_view left.now) }
{
    match left {
        [] => false,
        [parameter, ..] => parameter.is_param_array,
    }
}

/// Is an argument behind this item a value for a ParamArray?
pub fn gathers<'a>(item: Item<'a>) -> bool
    ensures { result ≡ gathers item.entry }
{
    match item {
        Item::Gathered => true,
        Item::Call(call) => is_gathering(call.passed.left),
        Item::Listed(passed) => is_gathering(passed.left),
        _ => false,
    }
}

/// One more value for a ParamArray: an expression, behind an item.
pub fn gather<'a>(
    alloc: Global,
    draft: &mut Draft,
    stack: &mut Vec<Item<'a>>,
    item: Item<'a>,
    tree: Tree<'a>,
) -> Result<(), OrMemory<NotYet>>
    requires many { gathers item ≡ true }
    requires named { AllNamed (draft_view draft.old).tables (Item.Tree tree ∷ item ∷ reverse stack.old.items) }
    ensures { OnOk result ((env : plain.Env) (comma : Option Token) → Goes env (draft_view draft.old) (Item.Tree tree.entry ∷ item.entry ∷ reverse stack.old.items) (draft_view draft.new) (reverse stack.new.items) (behind_node (node.PlainArgument comma))) }
{
    let variant = DeclaredType::Plain(ElementType::Variant);
    push_argument(alloc, draft, variant, tree)?;
    put_item(stack, item)?;
    put_item(stack, Item::Gathered)?;
    Ok(())
}

/// One more value for a ParamArray, which isn't written, behind an item: Missing.
pub fn gather_missing<'a>(
    draft: &mut Draft,
    stack: &mut Vec<Item<'a>>,
    item: Item<'a>,
) -> Result<(), OrMemory<NotYet>>
    requires many { gathers item ≡ true }
    requires named { AllNamed (draft_view draft.old).tables (item ∷ reverse stack.old.items) }
    ensures { OnOk result ((env : plain.Env) (comma : Option Token) → Goes env (draft_view draft.old) (item.entry ∷ reverse stack.old.items) (draft_view draft.new) (reverse stack.new.items) (behind_node (node.MissingArgument comma))) }
{
    let variant = DeclaredType::Plain(ElementType::Variant);
    push_node(draft, NodeKind::NotGiven, variant, nowhere())?;
    put_item(stack, item)?;
    put_item(stack, Item::Gathered)?;
    Ok(())
}

/// Takes a value for a ParamArray off the top, if there is one.
fn take_value<'a>(stack: &mut Vec<Item<'a>>) -> Result<bool, NoMemory>
    ensures { IfOk result (λ was_there. reverse stack.old.items ≡ with_value was_there (reverse stack.new.items)) }
{
    match take_item(stack) {
        None => Ok(false),
        Some(Item::Gathered) => Ok(true),
        Some(item) => {
            put_item(stack, item)?;
            Ok(false)
        }
    }
}

/// Takes the values for a ParamArray off the top: how many there were.
pub fn take_gathered<'a>(stack: &mut Vec<Item<'a>>) -> Result<u32, NoMemory>
    ensures { IfOk result (λ values. reverse stack.old.items ≡ with_gathered values (reverse stack.new.items)) }
{
    let mut values = 0;
    while take_value(stack)? {
        values = sum(values, 1)?;
    }
    Ok(values)
}

/// Pushes the array of a ParamArray behind its values, and what the other parameters have; answers how many arguments
/// there are.
pub fn push_gathered<'a>(
    alloc: Global,
    draft: &mut Draft,
    passed: Passed<'a>,
    values: u32,
) -> Result<u32, OrMemory<NotYet>>
    ensures { IfOk result (λ arguments. PassesGathered passed.entry values (draft_view draft.old) (draft_view draft.new) arguments) }
{
    let Some((parameter, left)) = passed.left.split_first() else {
        return Err(OrMemory::Fault(NotYet));
    };
    let others = count_of(left)?;
    let given = sum(passed.count, 1)?;
    let arguments = sum(given, others)?;
    push_node(draft, NodeKind::ByList { values }, parameter.of, nowhere())?;
    pass_rest(alloc, draft, left)?;
    Ok(arguments)
}

/// A call whose last arguments are values for a ParamArray, which were pushed, but for its last node.
pub fn gathered_ending<'a>(
    alloc: Global,
    draft: &mut Draft,
    routine: Routine<'a>,
    passed: Passed<'a>,
    values: u32,
) -> Result<Ending, OrMemory<NotYet>>
    ensures { IfOk result (λ ending. EndsGathered routine.entry passed.entry values (draft_view draft.old) (draft_view draft.new) ending) }
{
    let arguments = push_gathered(alloc, draft, passed, values)?;
    Ok(Ending {
        kind: call_kind(routine.receiver, routine.procedure, arguments),
        of: routine.of,
    })
}

/// Arguments end of which the last ones are values for a ParamArray: a call.
pub fn index_gathered<'a>(
    alloc: Global,
    draft: &mut Draft,
    declared: &'a Declarations,
    stack: &mut Vec<Item<'a>>,
    values: u32,
) -> Result<(), OrMemory<NotYet>>
    requires named { AllNamed (draft_view draft.old).tables (reverse stack.old.items) }
    requires some { values ≢ 0 }
    ensures { OnOk result ((env : plain.Env) → declared_in env.scope ≡ declarations_view declared.now → (left right : Token) → Goes env (draft_view draft.old) (with_gathered values (reverse stack.old.items)) (draft_view draft.new) (reverse stack.new.items) (behind_node (node.Index left right))) }
{
    let Some(Item::Call(call)) = take_item(stack) else {
        return Err(OrMemory::Fault(NotYet));
    };
    let ending = gathered_ending(alloc, draft, call.routine, call.passed, values)?;
    put_item(
        stack,
        Item::Tree(Tree {
            place: call.place,
            name: None,
            dotted: None,
            term: Term::Value(ending),
            declared,
        }),
    )?;
    Ok(())
}

//! Arguments with names: each is pushed for its parameter as it is read, and the call keeps in which order parameters
//! take what was pushed.

ghost use Rattle.std.specs.Prelude.{◌≡◌, ◌≢◌, [], ◌∷◌, IfOk, OnOk, Option, map, option_map, reverse};
ghost use Rattle.vba_lexer.specs.declared.token.Token.{Token};
ghost use Rattle.vba_words.specs.declared.identifier.Identifier as identifier;
ghost use Rattle.vba_expression.specs.declared.node.ExpressionNode.TheVariants as node;
ghost use Rattle.vba_expression.specs.Nodes.{behind_node};
ghost use Rattle.bound_project.specs.DraftView.{draft_view};
ghost use Rattle.bound_project.specs.View.{declarations_view, parameter_view};
ghost use Rattle.bound_members.specs.bound_calls.specs.bound_forms.specs.ClassDefaults.{declared_in};
ghost use Rattle.bound_members.specs.bound_calls.specs.bound_forms.specs.Terms as plain;
ghost use Rattle.bound_members.specs.bound_calls.specs.InOrder.{found_view, is_named, with_named};
ghost use Rattle.bound_members.specs.bound_calls.specs.Standing.{AllNamed, passed_below};
ghost use Rattle.bound_members.specs.bound_calls.specs.Steps.{Goes};

use crate::call_steps;
use crate::functions::add_named_value;
use crate::gathering::{index_gathered, take_gathered};
use crate::untaken::{index_untaken, is_refused, refuse};
use bound_members::add_named;
use bound_members::bound_calls::bound_declarations::NotYet;
use bound_members::bound_calls::{
    FunctionCall, Item, MemberCall, Named, Passed, Term, Tree, named_ending, pass_tree, put_item,
    sum, take_item, take_numbers,
};
use bound_project::{Declarations, Draft, Parameter};
use std::alloc::Global;
use vba_base::{NoMemory, OrMemory};
use vba_words::Identifier;

/// Is it an argument with a name?
fn is_named<'a>(item: Item<'a>) -> bool
    ensures { result ≡ is_named item.entry }
{
    match item {
        Item::Named(_) => true,
        _ => false,
    }
}

/// The arguments before those with names.
fn passed_below<'a>(stack: &[Item<'a>]) -> Option<Passed<'a>>
    ensures { result ≡ passed_below (reverse stack.now) }
{
    let count = stack.len();
    for above in 0..count {
        let item = stack[count - 1 - above];
        if !is_named(item) {
            return call_steps::passed_in(item);
        }
    }
    None
}

/// The parameter with a name, and its number, from a number on; a ParamArray has none.
fn parameter_named<'a>(
    first: u32,
    parameters: &'a [Parameter],
    name: &Identifier,
) -> Result<Option<(u32, &'a Parameter)>, NoMemory>
    ensures { IfOk result (λ found. option_map (λ f. found_view (f.0, f.1.now)) found ≡ plain.parameter_named first (map parameter_view parameters.now) name.now.name) }
{
    let mut number = first;
    for parameter in parameters {
        if !parameter.is_param_array && parameter.name.fold == name.name {
            return Ok(Some((number, parameter)));
        }
        number = sum(number, 1)?;
    }
    Ok(None)
}

/// One more argument of a procedure: an expression behind arguments, for the parameter with this name.
fn pass_named<'a>(
    alloc: Global,
    draft: &mut Draft,
    stack: &mut Vec<Item<'a>>,
    tree: Tree<'a>,
    name: &Identifier,
) -> Result<(), OrMemory<NotYet>>
    requires { AllNamed (draft_view draft.old).tables (Item.Tree tree ∷ reverse stack.old.items) }
    ensures { OnOk result ((env : plain.Env) (comma : Option Token) (mark : Token) → Goes env (draft_view draft.old) (Item.Tree tree.entry ∷ reverse stack.old.items) (draft_view draft.new) (reverse stack.new.items) (behind_node (node.NamedArgument comma name.now mark))) }
{
    let Some(passed) = passed_below(stack) else {
        return Err(OrMemory::Fault(NotYet));
    };
    let Some((number, parameter)) = parameter_named(passed.count, passed.left, name)? else {
        return Err(OrMemory::Fault(NotYet));
    };
    pass_tree(alloc, draft, parameter, tree)?;
    put_item(stack, Item::Named(Named { number }))?;
    Ok(())
}

/// One more argument of a member: an expression behind the call, with this name.
fn give_named<'a>(
    alloc: Global,
    draft: &mut Draft,
    stack: &mut Vec<Item<'a>>,
    call: MemberCall,
    tree: Tree<'a>,
    name: &Identifier,
) -> Result<(), OrMemory<NotYet>>
    requires { AllNamed (draft_view draft.old).tables (Item.Tree tree ∷ Item.Member call ∷ reverse stack.old.items) }
    ensures { OnOk result ((env : plain.Env) (comma : Option Token) (mark : Token) → Goes env (draft_view draft.old) (Item.Tree tree.entry ∷ Item.Member call ∷ reverse stack.old.items) (draft_view draft.new) (reverse stack.new.items) (behind_node (node.NamedArgument comma name.now mark))) }
{
    let more = add_named(alloc, draft, call, tree, name)?;
    put_item(stack, Item::Member(more))?;
    Ok(())
}

/// One more argument of a function of the library: an expression behind the call, which has a name.
fn give_function<'a>(
    alloc: Global,
    draft: &mut Draft,
    stack: &mut Vec<Item<'a>>,
    call: FunctionCall,
    tree: Tree<'a>,
) -> Result<(), OrMemory<NotYet>>
    requires { AllNamed (draft_view draft.old).tables (Item.Tree tree ∷ Item.Function call ∷ reverse stack.old.items) }
    ensures { OnOk result ((env : plain.Env) (comma : Option Token) (name : identifier.Identifier) (mark : Token) → Goes env (draft_view draft.old) (Item.Tree tree.entry ∷ Item.Function call ∷ reverse stack.old.items) (draft_view draft.new) (reverse stack.new.items) (behind_node (node.NamedArgument comma name mark))) }
{
    let more = add_named_value(alloc, draft, call, tree)?;
    put_item(stack, Item::Function(more))?;
    Ok(())
}

/// One more argument: the expression on top, for the parameter with this name.
pub fn step_named_argument<'a>(
    alloc: Global,
    draft: &mut Draft,
    stack: &mut Vec<Item<'a>>,
    name: &'a Identifier,
) -> Result<(), OrMemory<NotYet>>
    requires { AllNamed (draft_view draft.old).tables (reverse stack.old.items) }
    ensures { OnOk result ((env : plain.Env) (comma : Option Token) (mark : Token) → Goes env (draft_view draft.old) (reverse stack.old.items) (draft_view draft.new) (reverse stack.new.items) (behind_node (node.NamedArgument comma name.now mark))) }
{
    let Some(Item::Tree(tree)) = take_item(stack) else {
        return Err(OrMemory::NoMemory);
    };
    match take_item(stack) {
        Some(Item::Member(call)) => give_named(alloc, draft, stack, call, tree, name),
        Some(Item::Function(call)) => give_function(alloc, draft, stack, call, tree),
        Some(item) => {
            if is_refused(item) {
                return refuse(alloc, draft, stack, item, tree, Some(name));
            }
            put_item(stack, item)?;
            pass_named(alloc, draft, stack, tree, name)
        }
        None => Err(OrMemory::Fault(NotYet)),
    }
}

/// Arguments end of which the last ones have names: a call.
fn index_named<'a>(
    alloc: Global,
    draft: &mut Draft,
    declared: &'a Declarations,
    stack: &mut Vec<Item<'a>>,
    named: Vec<u32>,
) -> Result<(), OrMemory<NotYet>>
    requires named { AllNamed (draft_view draft.old).tables (reverse stack.old.items) }
    requires some { named.items ≢ [] }
    ensures { OnOk result ((env : plain.Env) → declared_in env.scope ≡ declarations_view declared.now → (left right : Token) → Goes env (draft_view draft.old) (with_named named.items (reverse stack.old.items)) (draft_view draft.new) (reverse stack.new.items) (behind_node (node.Index left right))) }
{
    let Some(Item::Call(call)) = take_item(stack) else {
        return Err(OrMemory::Fault(NotYet));
    };
    let ending = named_ending(alloc, draft, call.routine, call.passed, named)?;
    put_item(
        stack,
        Item::Tree(Tree {
            place: call.place,
            name: None,
            dotted: None,
            term: Term::Value(ending),
            declared,
        }),
    )?;
    Ok(())
}

/// Arguments end, the last ones with names or none: a call, or an element.
fn end_index<'a>(
    alloc: Global,
    draft: &mut Draft,
    declared: &'a Declarations,
    stack: &mut Vec<Item<'a>>,
) -> Result<(), OrMemory<NotYet>>
    requires { AllNamed (draft_view draft.old).tables (reverse stack.old.items) }
    ensures { OnOk result ((env : plain.Env) → declared_in env.scope ≡ declarations_view declared.now → (left right : Token) → Goes env (draft_view draft.old) (reverse stack.old.items) (draft_view draft.new) (reverse stack.new.items) (behind_node (node.Index left right))) }
{
    let named = take_numbers(alloc, stack)?;
    if named.is_empty() {
        return call_steps::step_index(alloc, draft, declared, stack);
    }
    index_named(alloc, draft, declared, stack, named)
}

/// Arguments end: a call, or an element.
pub fn step_index<'a>(
    alloc: Global,
    draft: &mut Draft,
    declared: &'a Declarations,
    stack: &mut Vec<Item<'a>>,
) -> Result<(), OrMemory<NotYet>>
    requires { AllNamed (draft_view draft.old).tables (reverse stack.old.items) }
    ensures { OnOk result ((env : plain.Env) → declared_in env.scope ≡ declarations_view declared.now → (left right : Token) → Goes env (draft_view draft.old) (reverse stack.old.items) (draft_view draft.new) (reverse stack.new.items) (behind_node (node.Index left right))) }
{
    if index_untaken(alloc, draft, declared, stack)? {
        return Ok(());
    }
    let values = take_gathered(stack)?;
    if values == 0 {
        return end_index(alloc, draft, declared, stack);
    }
    index_gathered(alloc, draft, declared, stack, values)
}

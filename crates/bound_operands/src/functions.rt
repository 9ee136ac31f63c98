//! Functions of the library: what their names are, and calls of them.

ghost use Rattle.std.specs.Prelude.{◌≡◌, ◌==◌, ◌&&◌, ◌||◌, not, IfOk, OnOk};
ghost use Rattle.bound_project.specs.DraftView.{draft_view};
ghost use Rattle.bound_project.specs.Drafts.{Drafted};
ghost use Rattle.bound_members.specs.bound_calls.specs.bound_forms.specs.Operands as operands;
ghost use Rattle.bound_members.specs.bound_calls.specs.bound_forms.specs.ExpressionsBound as bound;
ghost use Rattle.bound_members.specs.bound_calls.specs.bound_forms.specs.Terms as plain;
ghost use Rattle.bound_members.specs.bound_calls.specs.declared.term.Item.TheVariants as item;
ghost use Rattle.bound_operands.specs.Functions.{AddsNamedValue, EndsFunction, PushesMarked, PushesTaken, call_takes, taking_view};
ghost use Rattle.vba_lib.specs.declared.function.LibraryFunction.TheVariants as function;
ghost use Rattle.bound_members.specs.bound_calls.specs.Indexing.{AddsArgument, AddsMissing, OpensTerm};
ghost use Rattle.bound_members.specs.bound_calls.specs.Standing.{TermNamed};

use bound_members::bound_calls::bound_declarations::NotYet;
use bound_members::bound_calls::{
    Ending, Function, FunctionCall, Term, Tree, answer_type, broken_ending, has_start, mark_given,
    nowhere, push_given, push_if_any, push_node, push_operand, sum, takes_count,
};
use bound_project::{DeclaredType, Draft, ElementType, NodeKind};
use std::alloc::Global;
use vba_base::OrMemory;
use vba_lib::{LibraryFunction, arity};

/// A function whose arguments are read from now on.
pub fn open_function<'a>(tree: Tree<'a>, function: Function) -> FunctionCall
    ensures { (env : plain.Env) (d : Drafted) → OpensTerm env tree.entry (Term.Function function) d d (item.Function result) }
{
    FunctionCall {
        place: tree.place,
        function,
        count: 0,
        is_wrong: false,
        is_started: true,
    }
}

/// How a function takes an argument: an object as it is; its default value where it has one; or its default value.
#[derive(Clone, Copy)]
pub enum Taking {
    AsItIs,
    DefaultIfAny,
    ByDefault,
}

/// Only the first argument as it is, by its number from 0.
fn first_as_it_is(number: u32) -> Taking
    ensures { taking_view result ≡ bound.first_as_it_is number }
{
    if number == 0 {
        Taking::AsItIs
    } else {
        Taking::ByDefault
    }
}

/// All arguments but the first as they are.
fn others_as_they_are(number: u32) -> Taking
    ensures { taking_view result ≡ bound.taking function.IIf number }
{
    if number == 0 {
        Taking::ByDefault
    } else {
        Taking::AsItIs
    }
}

/// How a function takes the argument with a number, from 0.
fn taking_of(function: LibraryFunction, number: u32) -> Taking
    ensures { taking_view result ≡ bound.taking function number }
{
    match function {
        LibraryFunction::IsEmpty => Taking::DefaultIfAny,
        LibraryFunction::IsNull => Taking::DefaultIfAny,
        LibraryFunction::IsArray => Taking::DefaultIfAny,
        LibraryFunction::VarType => Taking::DefaultIfAny,
        LibraryFunction::IsObject => Taking::AsItIs,
        LibraryFunction::IsMissing => Taking::AsItIs,
        LibraryFunction::TypeName => Taking::AsItIs,
        LibraryFunction::Array => Taking::AsItIs,
        LibraryFunction::CVar => Taking::AsItIs,
        LibraryFunction::Join => first_as_it_is(number),
        LibraryFunction::UBound => first_as_it_is(number),
        LibraryFunction::LBound => first_as_it_is(number),
        LibraryFunction::IIf => others_as_they_are(number),
        _ => Taking::ByDefault,
    }
}

/// Pushes an argument as a function takes it; answers its type.
fn push_taken<'a>(
    alloc: Global,
    draft: &mut Draft,
    taking: Taking,
    tree: Tree<'a>,
) -> Result<DeclaredType, OrMemory<NotYet>>
    requires { TermNamed (draft_view draft.old).tables tree.term }
    ensures { IfOk result (λ of. PushesTaken taking tree.entry (draft_view draft.old) (draft_view draft.new) of) }
{
    match taking {
        Taking::AsItIs => push_given(alloc, draft, tree),
        Taking::DefaultIfAny => push_if_any(alloc, draft, tree),
        Taking::ByDefault => {
            let Some(of) = push_operand(alloc, draft, tree)? else {
                return Err(OrMemory::Fault(NotYet));
            };
            Ok(of)
        }
    }
}

/// Pushes an argument as a function takes it; a value of a Type is marked as what breaks a static rule.
pub fn push_marked<'a>(
    alloc: Global,
    draft: &mut Draft,
    taking: Taking,
    tree: Tree<'a>,
) -> Result<(), OrMemory<NotYet>>
    requires { TermNamed (draft_view draft.old).tables tree.term }
    ensures { OnOk result (PushesMarked taking tree.entry (draft_view draft.old) (draft_view draft.new)) }
{
    let of = push_taken(alloc, draft, taking, tree)?;
    let variant = DeclaredType::Plain(ElementType::Variant);
    mark_given(draft, variant, false, of, tree.place)?;
    Ok(())
}

/// One more argument: the expression on top.
pub fn add_value<'a>(
    alloc: Global,
    draft: &mut Draft,
    call: FunctionCall,
    tree: Tree<'a>,
) -> Result<FunctionCall, OrMemory<NotYet>>
    requires { TermNamed (draft_view draft.old).tables tree.term }
    ensures { IfOk result (λ more. AddsArgument (item.Function call) tree.entry (draft_view draft.old) (draft_view draft.new) (item.Function more)) }
{
    let count = sum(call.count, 1)?;
    let taking = taking_of(call.function.function, call.count);
    push_marked(alloc, draft, taking, tree)?;
    Ok(FunctionCall { count, ..call })
}

/// One more argument, which has a name: the expression on top. No function takes one.
pub fn add_named_value<'a>(
    alloc: Global,
    draft: &mut Draft,
    call: FunctionCall,
    tree: Tree<'a>,
) -> Result<FunctionCall, OrMemory<NotYet>>
    requires { TermNamed (draft_view draft.old).tables tree.term }
    ensures { IfOk result (λ more. AddsNamedValue call tree.entry (draft_view draft.old) (draft_view draft.new) more) }
{
    let count = sum(call.count, 1)?;
    let taking = taking_of(call.function.function, call.count);
    push_marked(alloc, draft, taking, tree)?;
    Ok(FunctionCall {
        count,
        is_wrong: true,
        ..call
    })
}

/// Does a function need the argument with a number, from 0?
fn needs(function: LibraryFunction, number: u32) -> bool
    ensures { result ≡ operands.needs function number }
{
    match function {
        LibraryFunction::InStr => number == 1 || number == 2,
        _ => number < u32::from(arity(function).0),
    }
}

/// Is a call wrong whose next argument isn't written?
fn is_wrong_without(call: FunctionCall) -> bool
    ensures { result ≡ (call.is_wrong || operands.needs call.function.function call.count) }
{
    call.is_wrong || needs(call.function.function, call.count)
}

/// Is the first argument written of a call whose next one isn't?
fn is_started_without(call: FunctionCall) -> bool
    ensures { result ≡ (call.is_started && not (call.count == 0)) }
{
    call.is_started && call.count != 0
}

/// One more argument, which isn't written: Missing.
pub fn add_missing_value(
    draft: &mut Draft,
    call: FunctionCall,
) -> Result<FunctionCall, OrMemory<NotYet>>
    ensures { IfOk result (λ more. AddsMissing (item.Function call) (draft_view draft.old) (draft_view draft.new) (item.Function more)) }
{
    let count = sum(call.count, 1)?;
    let variant = DeclaredType::Plain(ElementType::Variant);
    push_node(draft, NodeKind::NotGiven, variant, nowhere())?;
    let is_wrong = is_wrong_without(call);
    let is_started = is_started_without(call);
    Ok(FunctionCall {
        count,
        is_wrong,
        is_started,
        ..call
    })
}

/// Does a function take the arguments that it is called with?
fn takes(call: FunctionCall) -> bool
    ensures { result ≡ call_takes call }
{
    let function = call.function.function;
    !call.is_wrong
        && (takes_count(function, call.count) && has_start(function, call.count, call.is_started))
}

/// What a function gives of its arguments; where it doesn't take them they are marked as what breaks a static rule.
pub fn close_function<'a>(alloc: Global, call: FunctionCall) -> Result<Term<'a>, OrMemory<NotYet>>
    ensures { IfOk result (λ term. EndsFunction call term) }
{
    let function = call.function;
    let of = answer_type(alloc, function.function, function.is_text_form)?;
    if !takes(call) {
        return Ok(Term::Value(broken_ending(25, call.place, of, call.count)));
    }
    Ok(Term::Value(Ending {
        kind: NodeKind::Library {
            function: function.function,
            is_text_form: function.is_text_form,
            values: call.count,
            compare: function.compare,
            is_base_one: function.is_base_one,
        },
        of,
    }))
}

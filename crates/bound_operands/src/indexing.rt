//! What stands before brackets, and what the numbers in them make of it: elements of places and of values, and what the run
//! says the arguments lead to.

ghost use Rattle.std.specs.Prelude.{◌≡◌, ◌<◌, Bool, false, true, IfOk, IfSome, option_map};
ghost use Rattle.bound_project.specs.DraftView.{draft_view};
ghost use Rattle.bound_project.specs.Drafts.{Drafted, NodeNamed};
ghost use Rattle.bound_project.specs.View.{declarations_view, declared_view};
ghost use Rattle.bound_members.specs.bound_calls.specs.bound_forms.specs.Operands.{element_type};
ghost use Rattle.bound_members.specs.bound_calls.specs.bound_forms.specs.Terms as plain;
ghost use Rattle.bound_members.specs.bound_calls.specs.bound_declarations.specs.constant_values.specs.declared_names.specs.binder.specs.Classes as classes;
ghost use Rattle.bound_members.specs.bound_calls.specs.Calls.{PushesReceiver};
ghost use Rattle.bound_members.specs.bound_calls.specs.Indexing.{AddsArgument, AddsMissing, Closes, EndsIndexed, OpensTerm, PushesTarget, is_part};
ghost use Rattle.bound_members.specs.bound_calls.specs.Standing.{ItemNamed, TermNamed};
ghost use Rattle.bound_members.specs.bound_calls.specs.References.{IsFoundLate};
ghost use Rattle.bound_operands.specs.Indexing.{HasElements, OpensBehind, PushesAlong, PushesAsPlace, PushesWhole, fits_count, is_along, is_led, place_element, place_term, read_ending};

use crate::call_steps::{passed_in, with_passed};
use crate::functions::{add_missing_value, add_value, close_function};
use crate::leading::{is_led, place_led, push_leading, value_led};
use bound_members::bound_calls::bound_declarations::NotYet;
use bound_members::bound_calls::{
    Call, Ending, Indexed, Item, Passed, Routine, Target, Term, Tree, call_ending, may_be_instance,
    nowhere, pass_missing, pass_plain, push_node, push_operand, read_kind, sum,
};
use bound_members::{add_given, add_missing, close_member, is_known_late};
use bound_project::{Declarations, DeclaredType, Draft, ElementType, NodeKind};
use std::alloc::Global;
use vba_base::{NoMemory, OrMemory, Place};

/// The type of what an index gives, where something can be indexed.
fn element_type(of: DeclaredType) -> Option<DeclaredType>
    ensures { option_map declared_view result ≡ element_type (declared_view of) }
{
    match of {
        DeclaredType::ArrayOf(element) => Some(DeclaredType::Plain(element)),
        DeclaredType::Plain(ElementType::Variant) => Some(DeclaredType::Plain(
            ElementType::Variant,
        )),
        DeclaredType::Plain(_) => None,
    }
}

/// The same before the run, of a value whose last node isn't pushed: none where it may be an object of a class.
fn indexed_type(has_class: bool, draft: &Draft, whole: Ending) -> Option<DeclaredType>
    ensures { IfSome result (λ of. HasElements has_class (draft_view draft.now).tables whole of) }
{
    if may_be_instance(has_class, draft, whole) {
        return None;
    }
    element_type(whole.of)
}

/// Is a node part of another place?
fn is_part(kind: NodeKind) -> bool
    ensures { result ≡ is_part kind }
{
    match kind {
        NodeKind::Item { .. } => true,
        NodeKind::Element { .. } => true,
        NodeKind::Field { .. } => true,
        NodeKind::KeptPlace { .. } => true,
        NodeKind::ObjectField { .. } => true,
        NodeKind::NewVariable { .. } => true,
        NodeKind::AsNew { .. } => true,
        _ => false,
    }
}

/// Pushes a part of another place, which is indexed.
fn push_part(
    draft: &mut Draft,
    kind: NodeKind,
    of: DeclaredType,
    place: Place,
) -> Result<Target, OrMemory<NotYet>>
    requires { NodeNamed (draft_view draft.old).tables kind }
    ensures { IfOk result (λ target. PushesTarget kind (draft_view draft.old) (draft_view draft.new) target) }
{
    if is_part(kind) {
        push_node(draft, kind, of, place)?;
        return Ok(Target::Place);
    }
    Err(OrMemory::Fault(NotYet))
}

/// A place that is indexed; it is pushed unless it is a plain variable.
fn push_target(
    draft: &mut Draft,
    kind: NodeKind,
    of: DeclaredType,
    place: Place,
) -> Result<Target, OrMemory<NotYet>>
    requires { NodeNamed (draft_view draft.old).tables kind }
    ensures { IfOk result (λ target. PushesTarget kind (draft_view draft.old) (draft_view draft.new) target) }
{
    match kind {
        NodeKind::Variable(variable) => Ok(Target::Variable(variable)),
        _ => push_part(draft, kind, of, place),
    }
}

/// A place before brackets: its last node, which isn't pushed, its type, with how many bounds it is declared as an array (0
/// without any), whether it is lent to a ByRef parameter, and whether an object is made there, or in an element of it.
#[derive(Clone, Copy)]
pub struct WholePlace {
    pub kind: NodeKind,
    pub of: DeclaredType,
    pub bounds: u32,
    pub lends: bool,
    pub makes: bool,
}

/// What a place has, but for the last node.
fn read_ending(at: WholePlace) -> Ending
    ensures { result ≡ read_ending at }
{
    Ending {
        kind: read_kind(at.makes),
        of: at.of,
    }
}

/// A place whose arguments in brackets, which lead on as the run says, are read from now on.
fn open_along<'a>(draft: &mut Draft, tree: Tree<'a>, at: WholePlace) -> Result<Indexed, NoMemory>
    requires { NodeNamed (draft_view draft.old).tables at.kind }
    ensures { IfOk result (λ indexed. (env : plain.Env) → IsFoundLate (classes.has_class env.scope.spaces) (draft_view draft.old).tables (read_ending at) true
        → OpensTerm env tree.entry (place_term at) (draft_view draft.old) (draft_view draft.new) (Item.Indexed indexed)) }
{
    push_node(draft, at.kind, at.of, tree.place)?;
    Ok(Indexed {
        place: tree.place,
        target: Target::PlaceAlong,
        of: DeclaredType::Plain(ElementType::Variant),
        lends: at.lends,
        makes: at.makes,
        bounds: 0,
        count: 0,
    })
}

/// A place whose numbers in brackets, which the run says nothing of, are read from now on.
fn open_element<'a>(
    draft: &mut Draft,
    tree: Tree<'a>,
    at: WholePlace,
    has_class: bool,
) -> Result<Indexed, OrMemory<NotYet>>
    requires { NodeNamed (draft_view draft.old).tables at.kind }
    ensures { IfOk result (λ indexed. (env : plain.Env) → classes.has_class env.scope.spaces ≡ has_class → OpensTerm env tree.entry (place_term at) (draft_view draft.old) (draft_view draft.new) (Item.Indexed indexed)) }
{
    let Some(element) = indexed_type(has_class, draft, read_ending(at)) else {
        return Err(OrMemory::Fault(NotYet));
    };
    let target = push_target(draft, at.kind, at.of, tree.place)?;
    Ok(Indexed {
        place: tree.place,
        target,
        of: element,
        lends: at.lends,
        makes: at.makes,
        bounds: at.bounds,
        count: 0,
    })
}

/// A place whose numbers or other arguments in brackets are read from now on.
pub fn open_place<'a>(
    draft: &mut Draft,
    tree: Tree<'a>,
    at: WholePlace,
    has_class: bool,
) -> Result<Indexed, OrMemory<NotYet>>
    requires { NodeNamed (draft_view draft.old).tables at.kind }
    ensures { IfOk result (λ indexed. (env : plain.Env) → classes.has_class env.scope.spaces ≡ has_class → OpensTerm env tree.entry (place_term at) (draft_view draft.old) (draft_view draft.new) (Item.Indexed indexed)) }
{
    if is_known_late(has_class, draft, read_ending(at)) {
        let indexed = open_along(draft, tree, at)?;
        return Ok(indexed);
    }
    open_element(draft, tree, at, has_class)
}

/// Pushes a value that begins at a place, and in which arguments lead on as the run says.
fn push_along(draft: &mut Draft, ending: Ending, place: Place) -> Result<Indexed, NoMemory>
    requires { NodeNamed (draft_view draft.old).tables ending.kind }
    ensures { IfOk result (λ indexed. PushesAlong ending place (draft_view draft.old) (draft_view draft.new) indexed) }
{
    push_node(draft, ending.kind, ending.of, place)?;
    Ok(Indexed {
        place,
        target: Target::ValueAlong,
        of: DeclaredType::Plain(ElementType::Variant),
        lends: false,
        makes: false,
        bounds: 0,
        count: 0,
    })
}

/// Pushes a value that begins at a place as a place, from which arguments lead on to what is assigned to.
pub fn push_as_place(draft: &mut Draft, ending: Ending, place: Place) -> Result<Indexed, NoMemory>
    requires { NodeNamed (draft_view draft.old).tables ending.kind }
    ensures { IfOk result (λ indexed. PushesAsPlace ending place (draft_view draft.old) (draft_view draft.new) indexed) }
{
    let variant = DeclaredType::Plain(ElementType::Variant);
    push_node(draft, ending.kind, ending.of, place)?;
    push_node(draft, NodeKind::PlaceOf, variant, place)?;
    Ok(Indexed {
        place,
        target: Target::ValueAsPlace,
        of: variant,
        lends: false,
        makes: false,
        bounds: 0,
        count: 0,
    })
}

/// Pushes a value that begins at a place, whose numbers in brackets, which the run says nothing of, are read from now on.
fn push_element(
    draft: &mut Draft,
    ending: Ending,
    place: Place,
    has_class: bool,
) -> Result<Indexed, OrMemory<NotYet>>
    requires { NodeNamed (draft_view draft.old).tables ending.kind }
    ensures { IfOk result (λ indexed. PushesWhole has_class ending place (draft_view draft.old) (draft_view draft.new) indexed) }
{
    let Some(element) = indexed_type(has_class, draft, ending) else {
        return Err(OrMemory::Fault(NotYet));
    };
    push_node(draft, ending.kind, ending.of, place)?;
    Ok(Indexed {
        place,
        target: Target::Value,
        of: element,
        lends: false,
        makes: false,
        bounds: 0,
        count: 0,
    })
}

/// Pushes a value that begins at a place, whose numbers or other arguments in brackets are read from now on.
pub fn push_whole(
    draft: &mut Draft,
    ending: Ending,
    place: Place,
    has_class: bool,
) -> Result<Indexed, OrMemory<NotYet>>
    requires { NodeNamed (draft_view draft.old).tables ending.kind }
    ensures { IfOk result (λ indexed. PushesWhole has_class ending place (draft_view draft.old) (draft_view draft.new) indexed) }
{
    if is_known_late(has_class, draft, ending) {
        let indexed = push_along(draft, ending, place)?;
        return Ok(indexed);
    }
    push_element(draft, ending, place, has_class)
}

/// A value whose numbers or other arguments in brackets are read from now on: behind it, or behind a property that gave it.
pub fn open_value<'a>(
    draft: &mut Draft,
    tree: Tree<'a>,
    ending: Ending,
    has_class: bool,
) -> Result<Indexed, OrMemory<NotYet>>
    requires { NodeNamed (draft_view draft.old).tables ending.kind }
    ensures { IfOk result (λ indexed. (of_property : Bool) (env : plain.Env) → classes.has_class env.scope.spaces ≡ has_class → OpensBehind of_property env tree.entry (Term.Value ending) (draft_view draft.old) (draft_view draft.new) (Item.Indexed indexed)) }
{
    push_whole(draft, ending, tree.place, has_class)
}

/// A call whose arguments are read from now on.
pub fn open_call<'a>(tree: Tree<'a>, routine: Routine<'a>) -> Call<'a>
    ensures { (env : plain.Env) (d e : Drafted) → PushesReceiver routine.entry.receiver d e → OpensTerm env tree.entry (Term.Routine routine.entry) d e (Item.Call result) }
{
    Call {
        place: tree.place,
        routine,
        passed: Passed {
            left: routine.parameters,
            count: 0,
        },
    }
}

/// Do arguments lead on from what is indexed, as the run says?
fn is_along(target: Target) -> bool
    ensures { result ≡ is_along target }
{
    match target {
        Target::PlaceAlong => true,
        Target::ValueAlong => true,
        Target::ValueAsPlace => true,
        _ => false,
    }
}

/// One more number: the expression on top.
fn add_number<'a>(
    alloc: Global,
    draft: &mut Draft,
    indexed: Indexed,
    tree: Tree<'a>,
) -> Result<Indexed, OrMemory<NotYet>>
    requires named { TermNamed (draft_view draft.old).tables tree.term }
    requires plain { is_along indexed.target ≡ false }
    requires unled { is_led indexed.target ≡ false }
    ensures { IfOk result (λ more. AddsArgument (Item.Indexed indexed) tree.entry (draft_view draft.old) (draft_view draft.new) (Item.Indexed more)) }
{
    let count = sum(indexed.count, 1)?;
    let Some(_found) = push_operand(alloc, draft, tree)? else {
        return Err(OrMemory::Fault(NotYet));
    };
    Ok(Indexed { count, ..indexed })
}

/// One more argument of what the run says: the expression on top, as a Variant takes it.
fn add_along<'a>(
    alloc: Global,
    draft: &mut Draft,
    indexed: Indexed,
    tree: Tree<'a>,
) -> Result<Indexed, OrMemory<NotYet>>
    requires named { TermNamed (draft_view draft.old).tables tree.term }
    requires along { is_along indexed.target ≡ true }
    ensures { IfOk result (λ more. AddsArgument (Item.Indexed indexed) tree.entry (draft_view draft.old) (draft_view draft.new) (Item.Indexed more)) }
{
    let count = sum(indexed.count, 1)?;
    push_leading(alloc, draft, tree)?;
    Ok(Indexed { count, ..indexed })
}

/// The same behind an object of a class.
fn add_led<'a>(
    alloc: Global,
    draft: &mut Draft,
    indexed: Indexed,
    tree: Tree<'a>,
) -> Result<Indexed, OrMemory<NotYet>>
    requires named { TermNamed (draft_view draft.old).tables tree.term }
    requires led { is_led indexed.target ≡ true }
    ensures { IfOk result (λ more. AddsArgument (Item.Indexed indexed) tree.entry (draft_view draft.old) (draft_view draft.new) (Item.Indexed more)) }
{
    let count = sum(indexed.count, 1)?;
    push_leading(alloc, draft, tree)?;
    Ok(Indexed { count, ..indexed })
}

/// One more argument of what is indexed: the expression on top.
fn add_index<'a>(
    alloc: Global,
    draft: &mut Draft,
    indexed: Indexed,
    tree: Tree<'a>,
) -> Result<Indexed, OrMemory<NotYet>>
    requires { TermNamed (draft_view draft.old).tables tree.term }
    ensures { IfOk result (λ more. AddsArgument (Item.Indexed indexed) tree.entry (draft_view draft.old) (draft_view draft.new) (Item.Indexed more)) }
{
    if is_along(indexed.target) {
        return add_along(alloc, draft, indexed, tree);
    }
    if is_led(indexed.target) {
        return add_led(alloc, draft, indexed, tree);
    }
    add_number(alloc, draft, indexed, tree)
}

/// One more argument of a procedure: the expression on top.
fn add_passed<'a>(
    alloc: Global,
    draft: &mut Draft,
    item: Item<'a>,
    tree: Tree<'a>,
) -> Result<Item<'a>, OrMemory<NotYet>>
    requires { TermNamed (draft_view draft.old).tables tree.term }
    ensures { IfOk result (λ more. AddsArgument item.entry tree.entry (draft_view draft.old) (draft_view draft.new) more) }
{
    let Some(passed) = passed_in(item) else {
        return Err(OrMemory::NoMemory);
    };
    let passed = pass_plain(alloc, draft, passed, tree)?;
    Ok(with_passed(item, passed))
}

/// One more argument: the expression on top.
pub fn add_argument<'a>(
    alloc: Global,
    draft: &mut Draft,
    item: Item<'a>,
    tree: Tree<'a>,
) -> Result<Item<'a>, OrMemory<NotYet>>
    requires named { TermNamed (draft_view draft.old).tables tree.term }
    requires item { ItemNamed (draft_view draft.old).tables item }
    ensures { IfOk result (λ more. AddsArgument item.entry tree.entry (draft_view draft.old) (draft_view draft.new) more) }
{
    match item {
        Item::Member(call) => {
            let more = add_given(alloc, draft, call, tree)?;
            Ok(Item::Member(more))
        }
        Item::Indexed(indexed) => {
            let more = add_index(alloc, draft, indexed, tree)?;
            Ok(Item::Indexed(more))
        }
        Item::Function(call) => {
            let more = add_value(alloc, draft, call, tree)?;
            Ok(Item::Function(more))
        }
        _ => add_passed(alloc, draft, item, tree),
    }
}

/// One more argument of a procedure, which isn't written.
fn skip_passed<'a>(
    alloc: Global,
    draft: &mut Draft,
    item: Item<'a>,
) -> Result<Item<'a>, OrMemory<NotYet>>
    requires { ItemNamed (draft_view draft.old).tables item }
    ensures { IfOk result (λ more. AddsMissing item.entry (draft_view draft.old) (draft_view draft.new) more) }
{
    let Some(passed) = passed_in(item) else {
        return Err(OrMemory::Fault(NotYet));
    };
    let passed = pass_missing(alloc, draft, passed)?;
    Ok(with_passed(item, passed))
}

/// One more argument of what is indexed, which isn't written: Missing where the run says what is indexed.
fn skip_along(draft: &mut Draft, indexed: Indexed) -> Result<Indexed, OrMemory<NotYet>>
    ensures { IfOk result (λ more. AddsMissing (Item.Indexed indexed) (draft_view draft.old) (draft_view draft.new) (Item.Indexed more)) }
{
    if !is_along(indexed.target) {
        return Err(OrMemory::Fault(NotYet));
    }
    let count = sum(indexed.count, 1)?;
    let variant = DeclaredType::Plain(ElementType::Variant);
    push_node(draft, NodeKind::NotGiven, variant, nowhere())?;
    Ok(Indexed { count, ..indexed })
}

/// One more argument, which isn't written.
pub fn skip_argument<'a>(
    alloc: Global,
    draft: &mut Draft,
    item: Item<'a>,
) -> Result<Item<'a>, OrMemory<NotYet>>
    requires { ItemNamed (draft_view draft.old).tables item }
    ensures { IfOk result (λ more. AddsMissing item.entry (draft_view draft.old) (draft_view draft.new) more) }
{
    match item {
        Item::Member(call) => {
            let more = add_missing(draft, call)?;
            Ok(Item::Member(more))
        }
        Item::Indexed(indexed) => {
            let more = skip_along(draft, indexed)?;
            Ok(Item::Indexed(more))
        }
        Item::Function(call) => {
            let more = add_missing_value(draft, call)?;
            Ok(Item::Function(more))
        }
        _ => skip_passed(alloc, draft, item),
    }
}

/// Are as many numbers as an array is declared with bounds, where it is declared with some?
fn fits_count(bounds: u32, count: u32) -> bool
    ensures { result ≡ fits_count bounds count }
{
    bounds == 0 || count == bounds
}

/// An element of a place, by its last node.
fn place_element<'a>(indexed: Indexed, kind: NodeKind) -> Term<'a>
    ensures { result ≡ place_element indexed kind }
{
    Term::Place {
        kind,
        of: indexed.of,
        bounds: 0,
        lends: indexed.lends,
        makes: indexed.makes,
    }
}

/// An element, by what is indexed, behind so many numbers or other arguments. One that is assigned to ends otherwise.
fn element<'a>(indexed: Indexed) -> Result<Term<'a>, OrMemory<NotYet>>
    requires some { 0 < indexed.count }
    requires fits { fits_count indexed.bounds indexed.count ≡ true }
    ensures { IfOk result (λ term. EndsIndexed indexed term) }
{
    let numbers = indexed.count;
    let of = indexed.of;
    match indexed.target {
        Target::Variable(variable) => Ok(place_element(
            indexed,
            NodeKind::Item { variable, numbers },
        )),
        Target::Place => Ok(place_element(indexed, NodeKind::Element { numbers })),
        Target::Value => Ok(Term::Value(Ending {
            kind: NodeKind::ElementValue { numbers },
            of,
        })),
        Target::PlaceAlong => Ok(place_element(
            indexed,
            NodeKind::ElementAlong { arguments: numbers },
        )),
        Target::ValueAlong => Ok(Term::Value(Ending {
            kind: NodeKind::ItemAlong { arguments: numbers },
            of,
        })),
        Target::PlaceLed(count) => place_led(indexed, count),
        Target::ValueLed(count) => value_led(indexed, count),
        Target::ValueAsPlace => Err(OrMemory::Fault(NotYet)),
        Target::LedAsPlace(_count) => Err(OrMemory::Fault(NotYet)),
    }
}

/// The element that numbers give, as many as an array is declared with bounds; without a number there is none.
fn close_indexed<'a>(indexed: Indexed) -> Result<Term<'a>, OrMemory<NotYet>>
    ensures { IfOk result (λ term. EndsIndexed indexed term) }
{
    if indexed.count == 0 || !fits_count(indexed.bounds, indexed.count) {
        return Err(OrMemory::Fault(NotYet));
    }
    element(indexed)
}

/// The end of arguments: a call.
fn close_call<'a>(
    alloc: Global,
    draft: &mut Draft,
    declared: &'a Declarations,
    call: Call<'a>,
) -> Result<Tree<'a>, OrMemory<NotYet>>
    ensures { IfOk result (λ tree. Closes (declarations_view declared.now) (Item.Call call.entry) (draft_view draft.old) (draft_view draft.new) tree) }
{
    let ending = call_ending(alloc, draft, call.routine, call.passed)?;
    Ok(Tree {
        place: call.place,
        name: None,
        dotted: None,
        term: Term::Value(ending),
        declared,
    })
}

/// The end of arguments: a call, an element, or what a function of the library gives.
pub fn end_arguments<'a>(
    alloc: Global,
    draft: &mut Draft,
    declared: &'a Declarations,
    item: Item<'a>,
) -> Result<Tree<'a>, OrMemory<NotYet>>
    requires { ItemNamed (draft_view draft.old).tables item }
    ensures { IfOk result (λ tree. Closes (declarations_view declared.now) item.entry (draft_view draft.old) (draft_view draft.new) tree) }
{
    match item {
        Item::Member(call) => {
            let term = close_member(draft, call)?;
            Ok(Tree {
                place: call.place,
                name: None,
                dotted: None,
                term,
                declared,
            })
        }
        Item::Call(call) => close_call(alloc, draft, declared, call),
        Item::Indexed(indexed) => {
            let term = close_indexed(indexed)?;
            Ok(Tree {
                place: indexed.place,
                name: None,
                dotted: None,
                term,
                declared,
            })
        }
        Item::Function(call) => {
            let term = close_function(alloc, call)?;
            Ok(Tree {
                place: call.place,
                name: None,
                dotted: None,
                term,
                declared,
            })
        }
        _ => Err(OrMemory::NoMemory),
    }
}

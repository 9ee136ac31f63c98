//! Objects: terms that are taken as references, operands that give way to their default member's value, and what may be
//! either.

ghost use Rattle.std.specs.Prelude.{◌≡◌, ◌≢◌, ◌||◌, IfOk, IfSome, Some, true};
ghost use Rattle.bound_project.specs.DraftView.{draft_view};
ghost use Rattle.bound_project.specs.Drafts.{NodeNamed};
ghost use Rattle.bound_project.specs.View.{declarations_view, declared_view};
ghost use Rattle.bound_declarations.specs.constant_values.specs.declared_names.specs.binder.specs.Types.{is_object};
ghost use Rattle.bound_forms.specs.Operands.{default_rule, is_host_type, is_item_name, kind_by_type, kind_of_object, may_give_object, plain_operand, is_of_class, is_reference_type};
ghost use Rattle.bound_forms.specs.ExpressionsBound.{if_any};
ghost use Rattle.class_defaults.specs.Known.{known_view};
ghost use Rattle.bound_calls.specs.References.{DefaultBreaks, DefaultIs, EndingGives, PushesAs, PushesGiven, PushesIfAny, PushesReference, PushesStanding, ReadsGiven, TakesGiven, TakesReference, by_rule, gives_way, default_ending, is_referring, is_typed_kind, kind_gives, may_refer, refers, instance_at, is_of_host_kind, IsFoundLate, IsInstance, ends_known, known_instance, known_object, may_be_instance_by, unknown_may};
ghost use Rattle.bound_calls.specs.Standing.{TermNamed};
ghost use Rattle.bound_calls.specs.Steps.{PushesOperand};

use crate::arguments::is_variant;
use crate::bare::alone;
use crate::take::{push_node, read_kind, read_value};
use crate::term::{Ending, Term, Tree};
use bound_declarations::constant_values::declared_names::{is_object, is_word};
use bound_declarations::{NotYet, class_in};
use bound_project::{Declarations, DeclaredType, Draft, ElementType, ErrMember, NodeKind};
use class_defaults::{Known, default_read, known_variant};
use std::alloc::Global;
use vba_base::{NoMemory, OrMemory, Place, Refusal};
use vba_lib::LibraryFunction;
use vba_values::HostRef;

/// Is a type one of those whose values are taken as references: Object, Collection, Worksheet, Range?
pub fn is_host_type(of: DeclaredType) -> bool
    ensures { result ≡ is_host_type (declared_view of) }
{
    match of {
        DeclaredType::Plain(ElementType::Object) => true,
        DeclaredType::Plain(ElementType::Collection) => true,
        DeclaredType::Plain(ElementType::Worksheet) => true,
        DeclaredType::Plain(ElementType::Range) => true,
        _ => false,
    }
}

/// The same, or that of a class?
pub fn is_reference_type(of: DeclaredType) -> bool
    ensures { result ≡ is_reference_type (declared_view of) }
{
    match of {
        DeclaredType::Plain(ElementType::Class(_)) => true,
        _ => is_host_type(of),
    }
}

/// The same, or a type whose values may be objects?
fn is_referring(of: DeclaredType) -> bool
    ensures { result ≡ is_referring of }
{
    is_reference_type(of) || is_variant(of)
}

/// Is a folded name that of Item?
pub fn is_item_name(name: &[u16]) -> bool
    ensures { result ≡ is_item_name name.now }
{
    is_word(name, b"item")
}

/// Is what a node gives an object of the host, or Nothing, or does it break a rule? An item may be one of a Collection.
fn is_of_host(draft: &Draft, kind: NodeKind) -> bool
    ensures { result ≡ is_of_host_kind (draft_view draft.now).tables kind }
{
    match kind {
        NodeKind::Constant { .. } => true,
        NodeKind::HostObject(_) => true,
        NodeKind::HostMember { name, .. } => !is_item_name(draft.name(name)),
        NodeKind::NamedMember { name, .. } => !is_item_name(draft.name(name)),
        NodeKind::Marked { .. } => true,
        _ => false,
    }
}

/// May a Variant be an object, by the last node of what gives it? Where that isn't known it may.
fn may_give(kind: NodeKind) -> bool
    ensures { result ≡ unknown_may (kind_gives kind) }
{
    match kind_gives(kind) {
        Some(gives) => gives,
        None => true,
    }
}

/// May a value be an object of a class, by its last node and its type?
fn instance_at(kind: NodeKind, of: DeclaredType) -> bool
    ensures { result ≡ instance_at kind of }
{
    match of {
        DeclaredType::Plain(ElementType::Object) => true,
        DeclaredType::Plain(ElementType::Class(_)) => true,
        DeclaredType::Plain(ElementType::Variant) => may_give(kind),
        _ => false,
    }
}

/// May there be an object of a class in the run, in a project with classes or without? The draft names the members.
pub fn may_be_instance(has_class: bool, draft: &Draft, ending: Ending) -> bool
    ensures { result ≡ may_be_instance_by has_class (draft_view draft.now).tables ending }
{
    has_class && (instance_at(ending.kind, ending.of) && !is_of_host(draft, ending.kind))
}

/// Does a node end a value, of which it is known whether that is an object of the host?
fn ends_known(kind: NodeKind) -> bool
    ensures { result ≡ ends_known kind }
{
    match kind {
        NodeKind::This => true,
        NodeKind::NewObject { .. } => true,
        _ => kind_gives(kind).is_some(),
    }
}

/// An object, by the last node of what gives it; none where such a node ends no value.
fn known_object(kind: NodeKind) -> Option<bool>
    ensures { result ≡ known_object kind }
{
    if ends_known(kind) { Some(true) } else { None }
}

/// May a value be an object that may be one of a class, by its last node and its type? None where such a node ends no value.
fn known_instance(kind: NodeKind, of: DeclaredType) -> Option<bool>
    ensures { result ≡ known_instance kind of }
{
    match of {
        DeclaredType::Plain(ElementType::Object) => known_object(kind),
        DeclaredType::Plain(ElementType::Class(_)) => known_object(kind),
        DeclaredType::Plain(ElementType::Variant) => kind_gives(kind),
        _ => Some(false),
    }
}

/// May there be an object of a class in the run, in a project with classes or without? None where that isn't known.
pub fn instance_of(has_class: bool, draft: &Draft, ending: Ending) -> Option<bool>
    ensures { IfSome result (λ may. IsInstance has_class (draft_view draft.now).tables ending may) }
{
    if !has_class {
        return Some(false);
    }
    let may = known_instance(ending.kind, ending.of)?;
    Some(may && !is_of_host(draft, ending.kind))
}

/// Is a type that of a class?
pub fn is_of_class(of: DeclaredType) -> bool
    ensures { result ≡ is_of_class (declared_view of) }
{
    match of {
        DeclaredType::Plain(ElementType::Class(_)) => true,
        _ => false,
    }
}

/// Does the run say what members a value has, since it may be an object of a class and isn't declared as of one, in a
/// project with classes or without? None where that isn't known.
pub fn is_found_late(has_class: bool, draft: &Draft, ending: Ending) -> Option<bool>
    ensures { IfSome result (λ late. IsFoundLate has_class (draft_view draft.now).tables ending late) }
{
    if is_of_class(ending.of) {
        return Some(false);
    }
    instance_of(has_class, draft, ending)
}

/// Is a term that stands alone taken as a reference, and no value?
fn refers<'a>(term: Term<'a>) -> bool
    ensures { result ≡ refers term.entry }
{
    match term {
        Term::Place { of, .. } => is_reference_type(of),
        Term::Value(ending) => is_reference_type(ending.of),
        Term::Err => true,
        _ => false,
    }
}

/// Is a term that stands alone one that may be taken as a reference?
fn may_refer<'a>(term: Term<'a>) -> bool
    ensures { result ≡ may_refer term.entry }
{
    match term {
        Term::Place { of, .. } => is_referring(of),
        Term::Value(ending) => is_referring(ending.of),
        Term::Err => true,
        _ => false,
    }
}

/// Does a term that stands alone give way to the value of its default member as an operand? Err is its number at once.
fn gives_way<'a>(term: Term<'a>) -> bool
    ensures { result ≡ gives_way term.entry }
{
    match term {
        Term::Err => false,
        _ => refers(term),
    }
}

/// The rule that an object breaks which is always there, where it gives way to the value of its default member.
fn object_rule(reference: HostRef) -> Option<u8>
    ensures { result ≡ default_rule (kind_of_object reference) }
{
    match reference {
        HostRef::Application => Some(34),
        HostRef::Workbook => Some(34),
        HostRef::Sheets => Some(25),
        _ => None,
    }
}

/// The same of an object of a type: a sheet has no default member, and that of a Collection needs an argument.
fn type_rule(of: DeclaredType) -> Option<u8>
    ensures { result ≡ default_rule (kind_by_type (declared_view of)) }
{
    match of {
        DeclaredType::Plain(ElementType::Worksheet) => Some(34),
        DeclaredType::Plain(ElementType::Collection) => Some(25),
        _ => None,
    }
}

/// Is a node the last one of a value, and none of an object that is always there?
pub fn is_typed_kind(kind: NodeKind) -> bool
    ensures { result ≡ is_typed_kind kind }
{
    match kind {
        NodeKind::Constant { .. } => true,
        NodeKind::Load => true,
        NodeKind::LoadMade => true,
        NodeKind::This => true,
        NodeKind::NewObject { .. } => true,
        NodeKind::ElementValue { .. } => true,
        NodeKind::FieldValue { .. } => true,
        NodeKind::Unary { .. } => true,
        NodeKind::Binary { .. } => true,
        NodeKind::Call { .. } => true,
        NodeKind::CallInOrder { .. } => true,
        NodeKind::Method { .. } => true,
        NodeKind::MethodInOrder { .. } => true,
        NodeKind::ErrValue(_) => true,
        NodeKind::Library { .. } => true,
        NodeKind::Marked { .. } => true,
        NodeKind::Same => true,
        NodeKind::IsType(_) => true,
        NodeKind::ActiveSheet => true,
        NodeKind::HostMember { .. } => true,
        NodeKind::NamedMember { .. } => true,
        NodeKind::LateMember(_) => true,
        NodeKind::ItemAlong { .. } => true,
        _ => false,
    }
}

/// The same of an object whose last node isn't pushed yet.
fn default_rule(ending: Ending) -> Result<Option<u8>, OrMemory<NotYet>>
    ensures { IfOk result (λ rule. DefaultBreaks ending rule) }
{
    if is_typed_kind(ending.kind) {
        return Ok(type_rule(ending.of));
    }
    match ending.kind {
        NodeKind::HostObject(reference) => Ok(object_rule(reference)),
        _ => Err(OrMemory::Fault(NotYet)),
    }
}

/// What is known by the rule that an object breaks: where it breaks none the run says of what type the value is.
fn known_by(rule: Option<u8>) -> Known
    ensures { known_view result ≡ by_rule rule }
{
    match rule {
        None => known_variant(),
        Some(rule) => Known::Breaks(rule),
    }
}

/// What is known of the value to which an object gives way whose last node isn't pushed yet.
fn default_known(declared: &Declarations, ending: Ending) -> Result<Known, OrMemory<NotYet>>
    ensures { IfOk result (λ found. DefaultIs (declarations_view declared.now) ending found) }
{
    match class_in(ending.of) {
        Some(class) => Ok(default_read(declared, class)),
        None => {
            let rule = default_rule(ending)?;
            Ok(known_by(rule))
        }
    }
}

/// The node with which an object gives way to the value of its default member, or is marked as what breaks a rule, and the
/// type that then stands there; none where nothing is said.
fn default_ending(found: Known, place: Place) -> Option<Ending>
    ensures { result ≡ default_ending found place }
{
    match found {
        Known::Type(of) => Some(Ending {
            kind: NodeKind::DefaultOf,
            of,
        }),
        Known::Breaks(rule) => Some(Ending {
            kind: NodeKind::Marked {
                broken: Refusal { rule, place },
                values: 1,
            },
            of: DeclaredType::Plain(ElementType::Variant),
        }),
        Known::NotSaid => None,
    }
}

/// May a function of the library give an object: one of its arguments?
fn may_give_object(function: LibraryFunction) -> bool
    ensures { result ≡ may_give_object function }
{
    match function {
        LibraryFunction::IIf => true,
        LibraryFunction::CVar => true,
        _ => false,
    }
}

/// Whether a Variant may be an object, by the last node of what gives it; none where such a node ends no value.
fn kind_gives(kind: NodeKind) -> Option<bool>
    ensures { result ≡ kind_gives kind }
{
    match kind {
        NodeKind::Load => Some(true),
        NodeKind::LoadMade => Some(true),
        NodeKind::Method { .. } => Some(true),
        NodeKind::MethodInOrder { .. } => Some(true),
        NodeKind::ElementValue { .. } => Some(true),
        NodeKind::FieldValue { .. } => Some(true),
        NodeKind::Call { .. } => Some(true),
        NodeKind::CallInOrder { .. } => Some(true),
        NodeKind::HostMember { .. } => Some(true),
        NodeKind::NamedMember { .. } => Some(true),
        NodeKind::LateMember(_) => Some(true),
        NodeKind::ItemAlong { .. } => Some(true),
        NodeKind::Library { function, .. } => Some(may_give_object(function)),
        NodeKind::Marked { .. } => Some(true),
        NodeKind::Constant { .. } => Some(false),
        NodeKind::Unary { .. } => Some(false),
        NodeKind::Binary { .. } => Some(false),
        NodeKind::ErrValue(_) => Some(false),
        NodeKind::Same => Some(false),
        NodeKind::HostObject(_) => Some(false),
        NodeKind::ActiveSheet => Some(false),
        _ => None,
    }
}

/// Whether a value whose last node isn't pushed yet is a Variant that may be an object; none where that isn't known.
pub fn has_object(ending: Ending) -> Option<bool>
    ensures { IfSome result (λ gives. EndingGives ending gives) }
{
    if !is_variant(ending.of) {
        return Some(false);
    }
    kind_gives(ending.kind)
}

/// A term that stands alone and is taken as a reference, but for its last node.
fn reference_ending<'a>(
    draft: &mut Draft,
    term: Term<'a>,
    place: Place,
) -> Result<Ending, OrMemory<NotYet>>
    requires named { TermNamed (draft_view draft.old).tables term }
    requires refers { may_refer term ≡ true }
    ensures { IfOk result (λ ending. TakesReference term.entry place (draft_view draft.old) (draft_view draft.new) ending) }
{
    match term {
        Term::Place {
            kind,
            of,
            makes,
            ..
        } => {
            push_node(draft, kind, of, place)?;
            Ok(Ending {
                kind: read_kind(makes),
                of,
            })
        }
        Term::Value(ending) => Ok(ending),
        Term::Err => Ok(Ending {
            kind: NodeKind::HostObject(HostRef::ErrObject),
            of: DeclaredType::Plain(ElementType::Object),
        }),
        _ => Err(OrMemory::Fault(NotYet)),
    }
}

/// Pushes an expression as a reference; answers its type.
pub fn push_reference<'a>(
    alloc: Global,
    draft: &mut Draft,
    tree: Tree<'a>,
) -> Result<DeclaredType, OrMemory<NotYet>>
    requires { TermNamed (draft_view draft.old).tables tree.term }
    ensures { IfOk result (λ of. PushesReference tree.entry (draft_view draft.old) (draft_view draft.new) of) }
{
    let made = alone(alloc, draft, tree.term, tree.place)?;
    if !may_refer(made) {
        return Err(OrMemory::Fault(NotYet));
    }
    let ending = reference_ending(draft, made, tree.place)?;
    push_node(draft, ending.kind, ending.of, tree.place)?;
    Ok(ending.of)
}

/// Pushes a term that stands alone as an object that gives way to the value of its default member; answers the type of
/// that.
fn push_default<'a>(
    draft: &mut Draft,
    declared: &Declarations,
    term: Term<'a>,
    place: Place,
) -> Result<DeclaredType, OrMemory<NotYet>>
    requires named { TermNamed (draft_view draft.old).tables term }
    requires gives { gives_way term ≡ true }
    ensures { IfOk result (λ of. PushesStanding (declarations_view declared.now) term.entry place (draft_view draft.old) (draft_view draft.new) of) }
{
    let ending = reference_ending(draft, term, place)?;
    let found = default_known(declared, ending)?;
    let Some(behind) = default_ending(found, place) else {
        return Err(OrMemory::Fault(NotYet));
    };
    push_node(draft, ending.kind, ending.of, place)?;
    push_node(draft, behind.kind, behind.of, place)?;
    Ok(behind.of)
}

/// Pushes the number of Err.
fn push_err<'a>(draft: &mut Draft, tree: Tree<'a>) -> Result<DeclaredType, NoMemory>
    requires { tree.term ≡ Term.Err }
    ensures { IfOk result (λ of. PushesOperand tree.entry (draft_view draft.old) (draft_view draft.new) (Some of)) }
{
    let long = DeclaredType::Plain(ElementType::Long);
    let number = NodeKind::ErrValue(ErrMember::Number);
    push_node(draft, number, long, tree.place)?;
    Ok(long)
}

/// Pushes the last node of a value, and behind it that of the value which an object gives way to, where the value may be
/// an object; answers the type that stands there.
fn push_plainly(
    draft: &mut Draft,
    ending: Ending,
    place: Place,
) -> Result<DeclaredType, OrMemory<NotYet>>
    requires { NodeNamed (draft_view draft.old).tables ending.kind }
    ensures { IfOk result (λ of. PushesAs plain_operand ending place (draft_view draft.old) (draft_view draft.new) of) }
{
    let Some(gives) = has_object(ending) else {
        return Err(OrMemory::Fault(NotYet));
    };
    push_node(draft, ending.kind, ending.of, place)?;
    if !gives {
        return Ok(ending.of);
    }
    let variant = DeclaredType::Plain(ElementType::Variant);
    push_node(draft, NodeKind::DefaultOf, variant, place)?;
    Ok(variant)
}

/// Is a value of a type, which may be an object or not where it is a Variant, one that may give way?
fn may_give_way(of: DeclaredType, gives: bool) -> bool
    ensures { result ≡ (is_object (declared_view of) || gives) }
{
    is_object(of) || gives
}

/// Pushes the last node of a value or a reference, and behind it that of the value of its default member where that needs
/// no argument; answers the type that stands there.
fn push_ending_if_any(
    draft: &mut Draft,
    ending: Ending,
    place: Place,
) -> Result<DeclaredType, OrMemory<NotYet>>
    requires { NodeNamed (draft_view draft.old).tables ending.kind }
    ensures { IfOk result (λ of. PushesAs if_any ending place (draft_view draft.old) (draft_view draft.new) of) }
{
    let Some(gives) = has_object(ending) else {
        return Err(OrMemory::Fault(NotYet));
    };
    push_node(draft, ending.kind, ending.of, place)?;
    if !may_give_way(ending.of, gives) {
        return Ok(ending.of);
    }
    let variant = DeclaredType::Plain(ElementType::Variant);
    push_node(draft, NodeKind::DefaultIfAny, variant, place)?;
    Ok(variant)
}

/// Pushes a term that stands alone as an operand, and is no Err; answers its type.
fn push_standing<'a>(
    draft: &mut Draft,
    declared: &Declarations,
    term: Term<'a>,
    place: Place,
) -> Result<DeclaredType, OrMemory<NotYet>>
    requires { TermNamed (draft_view draft.old).tables term }
    ensures { IfOk result (λ of. PushesStanding (declarations_view declared.now) term.entry place (draft_view draft.old) (draft_view draft.new) of) }
{
    if gives_way(term) {
        return push_default(draft, declared, term, place);
    }
    let Some(ending) = read_value(draft, term, place)? else {
        return Err(OrMemory::Fault(NotYet));
    };
    push_plainly(draft, ending, place)
}

/// Pushes an expression that isn't Err as an operand; answers its type.
fn push_other<'a>(
    alloc: Global,
    draft: &mut Draft,
    tree: Tree<'a>,
) -> Result<DeclaredType, OrMemory<NotYet>>
    requires named { TermNamed (draft_view draft.old).tables tree.term }
    requires other { tree.term ≢ Term.Err }
    ensures { IfOk result (λ of. PushesOperand tree.entry (draft_view draft.old) (draft_view draft.new) (Some of)) }
{
    let made = alone(alloc, draft, tree.term, tree.place)?;
    push_standing(draft, tree.declared, made, tree.place)
}

/// Pushes an expression as an operand; answers its type.
pub fn push_operand<'a>(
    alloc: Global,
    draft: &mut Draft,
    tree: Tree<'a>,
) -> Result<Option<DeclaredType>, OrMemory<NotYet>>
    requires { TermNamed (draft_view draft.old).tables tree.term }
    ensures { IfOk result (λ of. PushesOperand tree.entry (draft_view draft.old) (draft_view draft.new) of) }
{
    match tree.term {
        Term::Err => {
            let of = push_err(draft, tree)?;
            Ok(Some(of))
        }
        _ => {
            let of = push_other(alloc, draft, tree)?;
            Ok(Some(of))
        }
    }
}

/// A term that stands alone as it is, a value or a reference, but for its last node.
fn read_given<'a>(
    draft: &mut Draft,
    term: Term<'a>,
    place: Place,
) -> Result<Ending, OrMemory<NotYet>>
    requires { TermNamed (draft_view draft.old).tables term }
    ensures { IfOk result (λ ending. ReadsGiven term.entry place (draft_view draft.old) (draft_view draft.new) ending) }
{
    if refers(term) {
        return reference_ending(draft, term, place);
    }
    let Some(ending) = read_value(draft, term, place)? else {
        return Err(OrMemory::Fault(NotYet));
    };
    Ok(ending)
}

/// A term at a place as it is, a value or a reference, but for its last node.
pub fn given_ending<'a>(
    alloc: Global,
    draft: &mut Draft,
    term: Term<'a>,
    place: Place,
) -> Result<Ending, OrMemory<NotYet>>
    requires { TermNamed (draft_view draft.old).tables term }
    ensures { IfOk result (λ ending. TakesGiven term.entry place (draft_view draft.old) (draft_view draft.new) ending) }
{
    let made = alone(alloc, draft, term, place)?;
    read_given(draft, made, place)
}

/// Pushes an expression as it is, a value or a reference; answers its type.
pub fn push_given<'a>(
    alloc: Global,
    draft: &mut Draft,
    tree: Tree<'a>,
) -> Result<DeclaredType, OrMemory<NotYet>>
    requires { TermNamed (draft_view draft.old).tables tree.term }
    ensures { IfOk result (λ of. PushesGiven tree.entry (draft_view draft.old) (draft_view draft.new) of) }
{
    let ending = given_ending(alloc, draft, tree.term, tree.place)?;
    push_node(draft, ending.kind, ending.of, tree.place)?;
    Ok(ending.of)
}

/// Pushes an expression as it is, but an object whose default member needs no argument as the value of that; answers the
/// type.
pub fn push_if_any<'a>(
    alloc: Global,
    draft: &mut Draft,
    tree: Tree<'a>,
) -> Result<DeclaredType, OrMemory<NotYet>>
    requires { TermNamed (draft_view draft.old).tables tree.term }
    ensures { IfOk result (λ of. PushesIfAny tree.entry (draft_view draft.old) (draft_view draft.new) of) }
{
    let ending = given_ending(alloc, draft, tree.term, tree.place)?;
    push_ending_if_any(draft, ending, tree.place)
}

//! Members of objects that are assigned to, once their arguments were read.

ghost use Rattle.std.specs.Prelude.{◌≡◌, ◌≢◌, ◌<◌, ◌||◌, [], true, false, not, length, is_some, IfOk, MatchBool, Option, Some, None, Bool, bytes_eq};
ghost use Rattle.std.specs.List.{list_any};
ghost use Rattle.bound_project.specs.DraftView.{draft_view};
ghost use Rattle.bound_project.specs.Pieces.{name_in};
ghost use Rattle.bound_project.specs.View.{declared_view};
ghost use Rattle.bound_members.specs.bound_calls.specs.bound_declarations.specs.constant_values.specs.declared_names.specs.binder.specs.Types.{is_object};
ghost use Rattle.bound_members.specs.bound_calls.specs.bound_forms.specs.Operands.{is_item_name, is_value_name};
ghost use Rattle.bound_members.specs.bound_calls.specs.bound_forms.specs.Members.{mark_members};
ghost use Rattle.bound_members.specs.bound_calls.specs.bound_forms.specs.Targets as targets_bound;
ghost use Rattle.bound_members.specs.bound_calls.specs.bound_forms.specs.Terms as terms;
ghost use Rattle.bound_members.specs.bound_calls.specs.Shapes.{shapes_given};
ghost use Rattle.statement_terms.specs.Late.{is_written_late};
ghost use Rattle.statement_terms.specs.Members.{AssignsTerm, IsReadNamed, IsWritten, WritesBroken, WritesCall, is_written, taken_rule};
ghost use Rattle.bound_members.specs.bound_calls.specs.declared.term.Looked.TheVariants as looked;
ghost use Rattle.bound_members.specs.bound_calls.specs.declared.term.Term.TheVariants as term;
ghost use Rattle.bound_members.specs.bound_calls.specs.Standing.{MemberNamed, member_is};

use crate::late_targets::{is_written_late, write_given, write_late};
use crate::targets::has_written_default;
use bound_members::bound_calls::bound_declarations::NotYet;
use bound_members::bound_calls::bound_declarations::constant_values::declared_names::is_object;
use bound_members::bound_calls::{
    HostMember, Looked, MemberCall, Shape, is_item_name, push_broken, push_node, push_sheet, sum,
};
use bound_members::{
    arguments_rule, is_called_late, is_word, member_kind, member_takes, takes_arguments,
};
use bound_project::{ActionKind, DeclaredType, Draft, ElementType, LateUse, NodeKind};
use std::alloc::Global;
use vba_base::{NoMemory, OrMemory, Place};

/// Is it the name of a mark of Application?
fn is_mark(name: &[u16]) -> bool
    ensures { result ≡ list_any (λ (w : terms.HostMember). bytes_eq name.now w.name) mark_members }
{
    is_word(name, b"enableevents")
        || (is_word(name, b"screenupdating") || is_word(name, b"displayalerts"))
}

/// Is how many arguments a member takes told by the run alone?
pub fn is_late(greatest: Option<u32>) -> bool
    ensures { result ≡ not (is_some greatest) }
{
    match greatest {
        Some(_) => false,
        None => true,
    }
}

/// Is a folded name that of Value?
pub fn is_value_name(name: &[u16]) -> bool
    ensures { result ≡ is_value_name name.now }
{
    is_word(name, b"value")
}

/// Is a member written that has a name, gives what is of a type and takes so many arguments at most?
fn is_written(name: &[u16], of: DeclaredType, greatest: Option<u32>) -> bool
    ensures { result ≡ is_written name.now (declared_view of) greatest }
{
    let gives_default = is_object(of) && has_written_default(of);
    let is_default = (is_late(greatest) || is_value_name(name)) || gives_default;
    (is_default || is_item_name(name)) || is_mark(name)
}

/// The rule that an assignment breaks to what a member gives of a type, and can't be written; none where the run decides.
fn unwritten_rule(of: DeclaredType) -> Option<u8>
    ensures { result ≡ targets_bound.unwritten_rule (declared_view of) }
{
    match of {
        DeclaredType::Plain(ElementType::Worksheet) => Some(34),
        DeclaredType::Plain(ElementType::Object) => Some(34),
        _ => Some(27),
    }
}

/// The rule that an assignment to a member without arguments breaks.
fn bare_rule(draft: &Draft, member: HostMember) -> Option<u8>
    ensures { result ≡ targets_bound.written_rule (member_is (draft_view draft.now).tables member) [] }
{
    if member.least != 0 {
        return Some(25);
    }
    if is_written(draft.name(member.name), member.of, member.greatest) {
        return None;
    }
    unwritten_rule(member.of)
}

/// The rule that an assignment breaks to a member with arguments that it takes: the default member of what it gives is written.
fn taken_rule(draft: &Draft, member: HostMember) -> Option<u8>
    ensures { result ≡ taken_rule (member_is (draft_view draft.now).tables member) }
{
    let is_member = is_written(draft.name(member.name), member.of, member.greatest);
    let is_default = is_member && has_written_default(member.of);
    if is_default {
        None
    } else {
        unwritten_rule(member.of)
    }
}

/// The rule that an assignment to a member breaks with these arguments, of which there are some.
fn given_rule<'a>(
    draft: &Draft,
    member: HostMember,
    shapes: &[Shape<'a>],
) -> Result<Option<u8>, NoMemory>
    requires { shapes.now ≢ [] }
    ensures { IfOk result (λ rule. rule ≡ targets_bound.written_rule (member_is (draft_view draft.now).tables member) (shapes_given shapes.now)) }
{
    let takes = member_takes(draft, member, shapes)?;
    if takes {
        return Ok(taken_rule(draft, member));
    }
    Ok(arguments_rule(member))
}

/// The rule that an assignment to a member breaks with these arguments; none where it is written, or where the run decides.
pub fn written_rule<'a>(
    draft: &Draft,
    member: HostMember,
    shapes: &[Shape<'a>],
) -> Result<Option<u8>, NoMemory>
    ensures { IfOk result (λ rule. rule ≡ targets_bound.written_rule (member_is (draft_view draft.now).tables member) (shapes_given shapes.now)) }
{
    if shapes.is_empty() {
        return Ok(bare_rule(draft, member));
    }
    given_rule(draft, member, shapes)
}

/// `object.member = value`, behind the value, which is no object of a class, and the object, of a member of the host that is
/// written.
fn write_early(draft: &mut Draft, member: HostMember, place: Place) -> Result<ActionKind, NoMemory>
    requires named { member.name < length (draft_view draft.old).tables.constants }
    requires least { member.least ≡ 0 }
    requires written { is_written (name_in (draft_view draft.old).tables member.name) (declared_view member.of) member.greatest ≡ true }
    ensures { IfOk result (λ kind. (has : Bool) (may : Option Bool) → is_written_late member.is_late may ≡ Some false
        → AssignsTerm has may place (term.HostMember member) (draft_view draft.old) (draft_view draft.new) kind true) }
{
    let there = NodeKind::MemberThere {
        name: member.name,
        given: 0,
    };
    push_node(draft, there, member.of, place)?;
    Ok(ActionKind::AssignMember {
        name: member.name,
        arguments: 0,
    })
}

/// `object.member = value`, behind the value, which may be an object of a class or not, and the object, of a member that is
/// written.
fn write_member(
    alloc: Global,
    draft: &mut Draft,
    member: HostMember,
    place: Place,
    may_be: Option<bool>,
) -> Result<ActionKind, OrMemory<NotYet>>
    requires { member.name < length (draft_view draft.old).tables.constants }
    ensures { IfOk result (λ kind. (has : Bool) → AssignsTerm has may_be place (term.HostMember member) (draft_view draft.old) (draft_view draft.new) kind true) }
{
    if member.least != 0 || !is_written(draft.name(member.name), member.of, member.greatest) {
        return Err(OrMemory::Fault(NotYet));
    }
    let Some(is_late) = is_written_late(member, may_be) else {
        return Err(OrMemory::Fault(NotYet));
    };
    if is_late {
        return Ok(write_late(alloc, draft, member, place)?);
    }
    Ok(write_early(draft, member, place)?)
}

/// What breaks a rule as the target of an assignment: the value, the object and so many arguments were pushed.
pub fn write_broken(
    draft: &mut Draft,
    rule: u8,
    arguments: u32,
    place: Place,
) -> Result<ActionKind, OrMemory<NotYet>>
    ensures { IfOk result (λ kind. WritesBroken rule arguments place (draft_view draft.old) (draft_view draft.new) kind) }
{
    let values = sum(2, arguments)?;
    push_broken(draft, rule, place, values)?;
    Ok(ActionKind::Evaluate)
}

/// `object.member = value`, behind the value, which may be an object of a class or not, and the object.
pub fn assign_member(
    alloc: Global,
    draft: &mut Draft,
    member: HostMember,
    place: Place,
    may_be: Option<bool>,
) -> Result<ActionKind, OrMemory<NotYet>>
    requires { member.name < length (draft_view draft.old).tables.constants }
    ensures { IfOk result (λ kind. (has : Bool) → AssignsTerm has may_be place (term.HostMember member) (draft_view draft.old) (draft_view draft.new) kind true) }
{
    match bare_rule(draft, member) {
        Some(rule) => write_broken(draft, rule, 0, place),
        None => write_member(alloc, draft, member, place, may_be),
    }
}

/// The same of a member of the active sheet, behind the value.
pub fn assign_sheet(
    alloc: Global,
    draft: &mut Draft,
    member: HostMember,
    place: Place,
    may_be: Option<bool>,
) -> Result<ActionKind, OrMemory<NotYet>>
    requires { member.name < length (draft_view draft.old).tables.constants }
    ensures { IfOk result (λ kind. (has : Bool) → AssignsTerm has may_be place (term.SheetMember member) (draft_view draft.old) (draft_view draft.new) kind true) }
{
    push_sheet(draft)?;
    assign_member(alloc, draft, member, place, may_be)
}

/// Is what a member gives of arguments written by its default member: of a member that the run finds, an object, or an item?
fn gives_written(draft: &Draft, member: HostMember) -> bool
    ensures { result ≡ (not (is_some member.greatest) || is_object (declared_view member.of) || is_item_name (name_in (draft_view draft.now).tables member.name)) }
{
    (is_late(member.greatest) || is_object(member.of)) || is_item_name(draft.name(member.name))
}

/// Is the default member written of what a member gives of the arguments that were read?
fn is_written_call(draft: &Draft, call: MemberCall) -> bool
    ensures { MatchBool result (IsWritten (draft_view draft.now).tables call) (Unit {0}) }
{
    if call.count == 0 {
        return false;
    }
    let member = call.member;
    if !takes_arguments(member, call.count) || !has_written_default(member.of) {
        return false;
    }
    if !gives_written(draft, member) {
        return false;
    }
    true
}

/// The assignment to a member of the host whose arguments were read, and have no names: as many written ones as were counted.
fn write_plain(draft: &Draft, call: MemberCall, given: u32) -> Result<ActionKind, OrMemory<NotYet>>
    requires named { MemberNamed (draft_view draft.now).tables call }
    requires early { call.looked ≡ looked.Early None given }
    requires written { IsWritten (draft_view draft.now).tables call }
    ensures { IfOk result (λ kind. (may : Option Bool) → WritesCall may call (draft_view draft.now) (draft_view draft.now) kind) }
{
    if call.written != given {
        return Err(OrMemory::Fault(NotYet));
    }
    if is_called_late(call.member, call.has_class, call.count != 0) {
        return Err(OrMemory::Fault(NotYet));
    }
    Ok(ActionKind::AssignMember {
        name: call.member.name,
        arguments: call.count,
    })
}

/// Is a member read whose last arguments have names, to write the default member of what it gives? The run looks for other
/// members as they are written. Err.Raise gives nothing.
fn is_read_named(draft: &Draft, call: MemberCall) -> bool
    ensures { MatchBool result (IsReadNamed (draft_view draft.now).tables call) (Unit {0}) }
{
    if call.named == 0 || call.member.is_late {
        return false;
    }
    !is_word(draft.name(call.member.name), b"raise")
}

/// Is it known that a value is no object of a class?
fn is_no_instance(may_be: Option<bool>) -> bool
    ensures { MatchBool result (may_be ≡ Some false) (Unit {0}) }
{
    match may_be {
        Some(may) => !may,
        None => false,
    }
}

/// The assignment to a member whose last arguments have names, of a value that may be an object of a class or not: what it
/// gives is pushed.
fn write_named(
    draft: &mut Draft,
    call: MemberCall,
    may_be: Option<bool>,
) -> Result<ActionKind, OrMemory<NotYet>>
    requires named { MemberNamed (draft_view draft.old).tables call }
    requires written { IsWritten (draft_view draft.old).tables call }
    ensures { IfOk result (λ kind. WritesCall may_be call (draft_view draft.old) (draft_view draft.new) kind) }
{
    if !is_no_instance(may_be) {
        return Err(OrMemory::Fault(NotYet));
    }
    if !is_read_named(draft, call) {
        return Err(OrMemory::Fault(NotYet));
    }
    let kind = member_kind(draft, call)?;
    push_node(draft, kind, call.member.of, call.place)?;
    Ok(ActionKind::AssignDefault)
}

/// The assignment to a member whose arguments were read, of a value that may be an object of a class or not: to the default
/// member of what it gives, or to what the run finds.
pub fn write_call(
    draft: &mut Draft,
    call: MemberCall,
    may_be: Option<bool>,
) -> Result<ActionKind, OrMemory<NotYet>>
    requires { MemberNamed (draft_view draft.old).tables call }
    ensures { IfOk result (λ kind. WritesCall may_be call (draft_view draft.old) (draft_view draft.new) kind) }
{
    if !is_written_call(draft, call) {
        return Err(OrMemory::Fault(NotYet));
    }
    match call.looked {
        Looked::Early { names: None, given } => write_plain(draft, call, given),
        Looked::Late {
            aim: LateUse::Assigning,
            found,
        } => write_given(draft, call, found),
        _ => write_named(draft, call, may_be),
    }
}

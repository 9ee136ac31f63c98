//! Late-bound members that are assigned to and set, and members whose value or arguments may be objects of a class.

ghost use Rattle.std.specs.Prelude.{◌≡◌, ◌<◌, Bool, Option, Some, length, true, IfOk, MatchBool};
ghost use Rattle.bound_project.specs.DraftView.{draft_view};
ghost use Rattle.bound_project.specs.Pieces.{name_in};
ghost use Rattle.bound_project.specs.View.{declared_view};
ghost use Rattle.bound_project.specs.declared.node.LateUse.TheVariants.{Assigning, Setting};
ghost use Rattle.bound_members.specs.bound_calls.specs.declared.term.Looked.TheVariants as looked;
ghost use Rattle.bound_members.specs.bound_calls.specs.declared.term.Term.TheVariants as term;
ghost use Rattle.bound_members.specs.bound_calls.specs.Standing.{MemberNamed};
ghost use Rattle.statement_terms.specs.Late.{IsGivenLate, LooksLate, SetsCall, SetsLate, is_written_late};
ghost use Rattle.statement_terms.specs.Members.{AssignsTerm, IsWritten, WritesCall, is_written};

use bound_members::bound_calls::bound_declarations::NotYet;
use bound_members::bound_calls::{
    HostMember, Looked, MemberCall, late_without_arguments, push_node,
};
use bound_members::{is_called_late, late_came};
use bound_project::{ActionKind, Draft, LateName, LateUse, NodeKind};
use std::alloc::Global;
use vba_base::{NoMemory, OrMemory, Place};

/// Does the run look for a member that is assigned to without arguments: may its object, or the value, be one of a class? None
/// where that isn't known.
pub fn is_written_late(member: HostMember, may_be: Option<bool>) -> Option<bool>
    ensures { result ≡ is_written_late member.is_late may_be }
{
    if member.is_late {
        return Some(true);
    }
    may_be
}

/// A late-bound member of the object that was pushed, without arguments: what it is looked up by.
fn look_late(
    alloc: Global,
    draft: &mut Draft,
    member: HostMember,
    aim: LateUse,
    place: Place,
) -> Result<LateName, NoMemory>
    requires { member.name < length (draft_view draft.old).tables.constants }
    ensures { IfOk result (λ found. LooksLate member aim (draft_view draft.old) (draft_view draft.new) found) }
{
    let found = late_without_arguments(alloc, draft, member.name)?;
    let there = NodeKind::LateThere { aim, member: found };
    push_node(draft, there, member.of, place)?;
    Ok(found)
}

/// `object.member = value`, behind the value and the object, of a member that is written and that the run looks for.
pub fn write_late(
    alloc: Global,
    draft: &mut Draft,
    member: HostMember,
    place: Place,
) -> Result<ActionKind, NoMemory>
    requires named { member.name < length (draft_view draft.old).tables.constants }
    requires least { member.least ≡ 0 }
    requires written { is_written (name_in (draft_view draft.old).tables member.name) (declared_view member.of) member.greatest ≡ true }
    ensures { IfOk result (λ kind. (has : Bool) (may : Option Bool) → is_written_late member.is_late may ≡ Some true
        → AssignsTerm has may place (term.HostMember member) (draft_view draft.old) (draft_view draft.new) kind true) }
{
    let found = look_late(alloc, draft, member, LateUse::Assigning, place)?;
    Ok(ActionKind::AssignLate(found))
}

/// `Set object.member = value`, behind the reference and the object, of a member that the run finds.
pub fn set_late(
    alloc: Global,
    draft: &mut Draft,
    member: HostMember,
    place: Place,
) -> Result<ActionKind, NoMemory>
    requires named { member.name < length (draft_view draft.old).tables.constants }
    requires late { member.is_late ≡ true }
    ensures { IfOk result (λ kind. SetsLate member (draft_view draft.old) (draft_view draft.new) kind) }
{
    let found = look_late(alloc, draft, member, LateUse::Setting, place)?;
    Ok(ActionKind::SetLate(found))
}

/// Is a member given the value with the arguments that were read: does the run look for it, and does it find the member, or
/// has no argument a name?
fn is_given_late(call: MemberCall) -> bool
    ensures { MatchBool result (IsGivenLate call) (Unit {0}) }
{
    if !is_called_late(call.member, call.has_class, call.count != 0) {
        return false;
    }
    call.member.is_late || call.named == 0
}

/// The assignment to a late-bound member whose arguments were read.
pub fn write_given(
    draft: &Draft,
    call: MemberCall,
    found: LateName,
) -> Result<ActionKind, OrMemory<NotYet>>
    requires named { MemberNamed (draft_view draft.now).tables call }
    requires late { call.looked ≡ looked.Late Assigning found }
    requires written { IsWritten (draft_view draft.now).tables call }
    ensures { IfOk result (λ kind. (may : Option Bool) → WritesCall may call (draft_view draft.now) (draft_view draft.now) kind) }
{
    if !is_given_late(call) {
        return Err(OrMemory::Fault(NotYet));
    }
    if !late_came(draft, call, found) {
        return Err(OrMemory::Fault(NotYet));
    }
    Ok(ActionKind::AssignLate(found))
}

/// Set of a member whose arguments were read, which the run looks for by this.
fn set_given(
    draft: &Draft,
    call: MemberCall,
    found: LateName,
) -> Result<ActionKind, OrMemory<NotYet>>
    requires named { MemberNamed (draft_view draft.now).tables call }
    requires late { call.looked ≡ looked.Late Setting found }
    ensures { IfOk result (λ kind. SetsCall call (draft_view draft.now) kind) }
{
    if !call.member.is_late {
        return Err(OrMemory::Fault(NotYet));
    }
    if !late_came(draft, call, found) {
        return Err(OrMemory::Fault(NotYet));
    }
    Ok(ActionKind::SetLate(found))
}

/// Set of a member that the run finds, whose arguments were read.
pub fn set_call(draft: &Draft, call: MemberCall) -> Result<ActionKind, OrMemory<NotYet>>
    requires { MemberNamed (draft_view draft.now).tables call }
    ensures { IfOk result (λ kind. SetsCall call (draft_view draft.now) kind) }
{
    match call.looked {
        Looked::Late {
            aim: LateUse::Setting,
            found,
        } => set_given(draft, call, found),
        _ => Err(OrMemory::Fault(NotYet)),
    }
}

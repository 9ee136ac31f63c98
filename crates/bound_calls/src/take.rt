ghost use Rattle.std.specs.Prelude.{◌≡◌, ◌<◌, false, length, true, IfOk, OnOk};
ghost use Rattle.bound_project.specs.DraftView.{draft_view};
ghost use Rattle.bound_project.specs.Drafts.{NodeNamed};
ghost use Rattle.bound_project.specs.Pieces.{put};
ghost use Rattle.bound_calls.specs.Calls.{node_of};
ghost use Rattle.bound_calls.specs.Standing.{EndingNamed, TermNamed};
ghost use Rattle.bound_calls.specs.Taking.{Loads, LooksUpBare, Pushes, PushesSheet, ReadsBare, ReadsMember, ReadsValue, TakesValue, no_object, read_kind};

use crate::arguments::nowhere;
use crate::bare::alone;
use crate::orders::order_number;
use crate::term::{Ending, HostMember, Term};
use bound_declarations::NotYet;
use bound_declarations::constant_values::declared_names::is_object;
use bound_project::{
    ArgumentNames, DeclaredType, Draft, ElementType, LateName, LateUse, Node, NodeKind,
};
use std::alloc::Global;
use vba_base::{NoMemory, OrMemory, Place};

/// One more node, of a type that it has as an operand too.
pub fn push_node(
    draft: &mut Draft,
    kind: NodeKind,
    of: DeclaredType,
    place: Place,
) -> Result<(), NoMemory>
    requires { NodeNamed (draft_view draft.old).tables kind }
    ensures { OnOk result (draft_view draft.new ≡ record (draft_view draft.old) { pieces = put (draft_view draft.old).tables (node_of kind place of) (draft_view draft.old).pieces }) }
{
    draft.push(Node {
        kind,
        place,
        of,
        operand: of,
    })
}

/// What reads a place, where an object is made there first or isn't.
pub fn read_kind(makes: bool) -> NodeKind
    ensures { result ≡ read_kind makes }
{
    if makes {
        NodeKind::LoadMade
    } else {
        NodeKind::Load
    }
}

/// The value at a place.
fn load(
    draft: &mut Draft,
    kind: NodeKind,
    of: DeclaredType,
    makes: bool,
    place: Place,
) -> Result<Option<Ending>, NoMemory>
    requires { TermNamed (draft_view draft.old).tables (Term.Value (record { kind = kind; of = of })) }
    ensures { IfOk result (λ ending. Loads kind of makes (draft_view draft.old) (draft_view draft.new) ending) }
{
    if is_object(of) {
        return Ok(None);
    }
    draft.push(Node {
        kind,
        place,
        of,
        operand: of,
    })?;
    Ok(Some(Ending {
        kind: read_kind(makes),
        of,
    }))
}

/// A value of a type that is no object's.
pub fn no_object(ending: Ending) -> Option<Ending>
    ensures { result ≡ no_object ending }
{
    if is_object(ending.of) {
        None
    } else {
        Some(ending)
    }
}

/// What a late-bound member without arguments is looked up by, by the constant that is its name.
pub fn late_without_arguments(
    alloc: Global,
    draft: &mut Draft,
    name: u32,
) -> Result<LateName, NoMemory>
    requires { name < length (draft_view draft.old).tables.constants }
    ensures { IfOk result (λ found. LooksUpBare name (draft_view draft.old) (draft_view draft.new) found) }
{
    let order = order_number(draft, Vec::new(alloc))?;
    Ok(LateName {
        name,
        names: ArgumentNames { before: 0, order },
        arguments: 0,
        given: order,
    })
}

/// A late-bound member that is read without arguments, but for its last node, which is of this kind.
fn read_late(
    alloc: Global,
    draft: &mut Draft,
    member: HostMember,
    place: Place,
) -> Result<NodeKind, NoMemory>
    requires named { member.name < length (draft_view draft.old).tables.constants }
    requires late { member.is_late ≡ true }
    ensures { IfOk result (λ kind. ReadsBare member (draft_view draft.old) (draft_view draft.new) kind) }
{
    let found = late_without_arguments(alloc, draft, member.name)?;
    let there = NodeKind::LateThere {
        aim: LateUse::Reading,
        member: found,
    };
    push_node(draft, there, member.of, place)?;
    Ok(NodeKind::LateMember(found))
}

/// The same of a member of the host.
fn read_early(draft: &mut Draft, member: HostMember, place: Place) -> Result<NodeKind, NoMemory>
    requires named { member.name < length (draft_view draft.old).tables.constants }
    requires early { member.is_late ≡ false }
    ensures { IfOk result (λ kind. ReadsBare member (draft_view draft.old) (draft_view draft.new) kind) }
{
    let there = NodeKind::MemberThere {
        name: member.name,
        given: 0,
    };
    push_node(draft, there, member.of, place)?;
    Ok(NodeKind::HostMember {
        name: member.name,
        arguments: 0,
    })
}

/// The same of either.
fn read_bare(
    alloc: Global,
    draft: &mut Draft,
    member: HostMember,
    place: Place,
) -> Result<NodeKind, NoMemory>
    requires { member.name < length (draft_view draft.old).tables.constants }
    ensures { IfOk result (λ kind. ReadsBare member (draft_view draft.old) (draft_view draft.new) kind) }
{
    if member.is_late {
        read_late(alloc, draft, member, place)
    } else {
        read_early(draft, member, place)
    }
}

/// A member of an object that is read without arguments, but for its last node.
pub fn member_ending(
    alloc: Global,
    draft: &mut Draft,
    member: HostMember,
    place: Place,
) -> Result<Ending, OrMemory<NotYet>>
    requires { member.name < length (draft_view draft.old).tables.constants }
    ensures { IfOk result (λ ending. ReadsMember member (draft_view draft.old) (draft_view draft.new) ending) }
{
    if member.least != 0 {
        return Err(OrMemory::Fault(NotYet));
    }
    let kind = read_bare(alloc, draft, member, place)?;
    Ok(Ending {
        kind,
        of: member.of,
    })
}

/// The active sheet is pushed, for a member of it.
pub fn push_sheet(draft: &mut Draft) -> Result<(), NoMemory>
    ensures { OnOk result (PushesSheet (draft_view draft.old) (draft_view draft.new)) }
{
    let worksheet = DeclaredType::Plain(ElementType::Worksheet);
    push_node(draft, NodeKind::ActiveSheet, worksheet, nowhere())
}

/// A term that stands alone as a value, but for the last node of that.
pub fn read_value<'a>(
    draft: &mut Draft,
    term: Term<'a>,
    place: Place,
) -> Result<Option<Ending>, NoMemory>
    requires { TermNamed (draft_view draft.old).tables term }
    ensures { IfOk result (λ ending. ReadsValue term.entry place (draft_view draft.old) (draft_view draft.new) ending) }
{
    match term {
        Term::Place {
            kind,
            of,
            makes,
            ..
        } => load(draft, kind, of, makes, place),
        Term::Value(ending) => Ok(no_object(ending)),
        _ => Ok(None),
    }
}

/// A term as a value, but for the last node of that.
pub fn value_ending<'a>(
    alloc: Global,
    draft: &mut Draft,
    term: Term<'a>,
    place: Place,
) -> Result<Option<Ending>, OrMemory<NotYet>>
    requires { TermNamed (draft_view draft.old).tables term }
    ensures { IfOk result (λ ending. TakesValue term.entry place (draft_view draft.old) (draft_view draft.new) ending) }
{
    let made = alone(alloc, draft, term, place)?;
    let ending = read_value(draft, made, place)?;
    Ok(ending)
}

/// Pushes the last node of a value that begins at a place; answers its type.
pub fn push_ending(
    draft: &mut Draft,
    ending: Option<Ending>,
    place: Place,
) -> Result<Option<DeclaredType>, NoMemory>
    requires { EndingNamed (draft_view draft.old).tables ending }
    ensures { IfOk result (λ of. Pushes ending place (draft_view draft.old) (draft_view draft.new) of) }
{
    let Some(ending) = ending else {
        return Ok(None);
    };
    draft.push(Node {
        kind: ending.kind,
        place,
        of: ending.of,
        operand: ending.of,
    })?;
    Ok(Some(ending.of))
}

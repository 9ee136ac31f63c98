//! Late-bound members: what they are looked up by, and how their arguments are pushed.

ghost use Rattle.std.specs.Prelude.{◌≡◌, ◌==◌, ◌<◌, ◌&&◌, length, not, slice_get, IfOk, MatchBool, OnOk};
ghost use Rattle.bound_project.specs.DraftView.{draft_view};
ghost use Rattle.bound_project.specs.Drafts.{LateNamed, NodeNamed};
ghost use Rattle.bound_project.specs.Pieces.{by_name_in, order_in};
ghost use Rattle.bound_calls.specs.bound_forms.specs.ExpressionsBound.{takes_names};
ghost use Rattle.bound_project.specs.declared.node.LateUse.TheVariants.{Reading};
ghost use Rattle.bound_calls.specs.declared.term.Item.TheVariants as item;
ghost use Rattle.bound_calls.specs.declared.term.Looked.TheVariants as looked;
ghost use Rattle.bound_calls.specs.Indexing.{AddsMissing};
ghost use Rattle.bound_calls.specs.Standing.{MemberNamed, TermNamed, member_is};
ghost use Rattle.bound_members.specs.MemberCalls.{AddsValue, EndsCall};
ghost use Rattle.bound_members.specs.Late.{LateCame, LendsLate, LooksUpLate, PushesLate, PushesLateValue, flag_told, lent_late};

use crate::ahead::written_ahead;
use crate::calls::{is_called_late, names_came, push_missing, push_written};
use crate::names::{names_told, takes_names};
use bound_calls::bound_declarations::NotYet;
use bound_calls::{
    Ending, MemberCall, Shape, Term, Tree, is_user_type, lent_in, nowhere, order_number, push_node,
    sum,
};
use bound_project::{DeclaredType, Draft, ElementType, LateName, LateUse, NodeKind};
use std::alloc::Global;
use vba_base::{NoMemory, OrMemory, Place};

/// How many arguments there are.
fn count_ahead<'a>(shapes: &[Shape<'a>]) -> Result<u32, NoMemory> {
    match u32::try_from(shapes.len()) {
        Ok(count) => Ok(count),
        Err(_) => Err(NoMemory),
    }
}

/// What a late-bound member is looked up by whose arguments, these, are to come, by the constant that is its name.
pub fn late_ahead<'a>(
    alloc: Global,
    draft: &mut Draft,
    name: u32,
    shapes: &[Shape<'a>],
) -> Result<LateName, NoMemory>
    requires { name < length (draft_view draft.old).tables.constants }
    ensures { IfOk result (λ found. LooksUpLate name (draft_view draft.old) (draft_view draft.new) found) }
{
    let arguments = count_ahead(shapes)?;
    let written = written_ahead(alloc, shapes)?;
    let names = names_told(alloc, draft, shapes)?;
    let given = order_number(draft, written)?;
    Ok(LateName {
        name,
        names,
        arguments,
        given,
    })
}

/// Is the argument of this number to be written, as was told?
fn is_told(draft: &Draft, found: LateName, argument: u32) -> bool
    ensures { result ≡ flag_told (slice_get (order_in (draft_view draft.now).tables found.given) argument) }
{
    match draft.order(found.given).get(argument as usize) {
        Some(flag) => *flag != 0,
        None => true,
    }
}

/// The place that a term lends to a late-bound member, and its type: none of a Type, which no Variant takes.
fn lent_late<'a>(term: Term<'a>) -> Option<Ending>
    ensures { result ≡ lent_late term.entry }
{
    let lent = lent_in(term)?;
    if is_user_type(lent.of) {
        None
    } else {
        Some(lent)
    }
}

/// Pushes a place as the argument of this number of a late-bound member.
fn push_late_place(
    draft: &mut Draft,
    aim: LateUse,
    member: LateName,
    argument: u32,
    lent: Ending,
    place: Place,
) -> Result<(), NoMemory>
    requires lent { NodeNamed (draft_view draft.old).tables lent.kind }
    requires member { LateNamed (draft_view draft.old).tables member }
    ensures { OnOk result (LendsLate aim member argument lent.kind (draft_view draft.old) (draft_view draft.new)) }
{
    push_node(draft, lent.kind, lent.of, place)?;
    let there = NodeKind::LatePlace {
        aim,
        member,
        argument,
    };
    push_node(draft, there, lent.of, place)
}

/// The same of the value of an expression, as it is.
fn push_late_value<'a>(
    alloc: Global,
    draft: &mut Draft,
    aim: LateUse,
    member: LateName,
    argument: u32,
    tree: Tree<'a>,
) -> Result<(), OrMemory<NotYet>>
    requires tree { TermNamed (draft_view draft.old).tables tree.term }
    requires member { LateNamed (draft_view draft.old).tables member }
    ensures { OnOk result (PushesLateValue aim member argument tree.entry (draft_view draft.old) (draft_view draft.new)) }
{
    push_written(alloc, draft, tree)?;
    let there = NodeKind::LateValue {
        aim,
        member,
        argument,
    };
    let variant = DeclaredType::Plain(ElementType::Variant);
    push_node(draft, there, variant, tree.place)?;
    Ok(())
}

/// Pushes an expression as the argument of this number of a late-bound member: a variable by its place, and else as its
/// value.
fn push_late<'a>(
    alloc: Global,
    draft: &mut Draft,
    aim: LateUse,
    member: LateName,
    argument: u32,
    tree: Tree<'a>,
) -> Result<(), OrMemory<NotYet>>
    requires tree { TermNamed (draft_view draft.old).tables tree.term }
    requires member { LateNamed (draft_view draft.old).tables member }
    ensures { OnOk result (PushesLate aim member argument tree.entry (draft_view draft.old) (draft_view draft.new)) }
{
    match lent_late(tree.term) {
        Some(lent) => {
            push_late_place(draft, aim, member, argument, lent, tree.place)?;
            Ok(())
        }
        None => push_late_value(alloc, draft, aim, member, argument, tree),
    }
}

/// One more argument of a late-bound member: the expression on top; so many have names then.
pub fn add_late<'a>(
    alloc: Global,
    draft: &mut Draft,
    call: MemberCall,
    aim: LateUse,
    found: LateName,
    tree: Tree<'a>,
    named: u32,
) -> Result<MemberCall, OrMemory<NotYet>>
    requires tree { TermNamed (draft_view draft.old).tables tree.term }
    requires member { MemberNamed (draft_view draft.old).tables call }
    requires late { call.looked ≡ looked.Late aim found }
    ensures { IfOk result (λ more. AddsValue call tree.entry named (draft_view draft.old) (draft_view draft.new) more) }
{
    if !is_told(draft, found, call.count) {
        return Err(OrMemory::Fault(NotYet));
    }
    let count = sum(call.count, 1)?;
    push_late(alloc, draft, aim, found, call.count, tree)?;
    Ok(MemberCall {
        count,
        named,
        ..call
    })
}

/// One more argument of a late-bound member, which isn't written.
pub fn skip_late(
    draft: &mut Draft,
    call: MemberCall,
    aim: LateUse,
    found: LateName,
) -> Result<MemberCall, OrMemory<NotYet>>
    requires member { MemberNamed (draft_view draft.old).tables call }
    requires late { call.looked ≡ looked.Late aim found }
    requires unnamed { call.named ≡ 0 }
    ensures { IfOk result (λ more. AddsMissing (item.Member call) (draft_view draft.old) (draft_view draft.new) (item.Member more)) }
{
    if is_told(draft, found, call.count) {
        return Err(OrMemory::Fault(NotYet));
    }
    let count = sum(call.count, 1)?;
    push_missing(draft)?;
    let there = NodeKind::LateValue {
        aim,
        member: found,
        argument: call.count,
    };
    let variant = DeclaredType::Plain(ElementType::Variant);
    push_node(draft, there, variant, nowhere())?;
    Ok(MemberCall { count, ..call })
}

/// Did the arguments come by which a late-bound member was looked up: as many, and with all names?
pub fn late_came(draft: &Draft, call: MemberCall, found: LateName) -> bool
    ensures { MatchBool result (LateCame (draft_view draft.now).tables call found) (Unit {0}) }
{
    if !names_came(draft, call, found.names) {
        return false;
    }
    call.count == found.arguments
}

/// Have arguments names that no parameters of the member have, where these are known before the run?
fn is_misnamed(draft: &Draft, call: MemberCall, found: LateName) -> bool
    ensures { let t = (draft_view draft.now).tables in result ≡ (not (call.named == 0) && not (takes_names (member_is t call.member) (by_name_in t found.names))) }
{
    call.named != 0 && !takes_names(draft, call.member, found.names)
}

/// The last node of a late-bound member that is read, whose arguments were pushed; those with names have names of its
/// parameters, where these are known before the run.
pub fn late_kind(
    draft: &Draft,
    call: MemberCall,
    found: LateName,
) -> Result<NodeKind, OrMemory<NotYet>>
    requires { call.looked ≡ looked.Late Reading found }
    ensures { IfOk result (λ kind. EndsCall (draft_view draft.now).tables call kind) }
{
    if !is_called_late(call.member, call.has_class, call.count != 0) {
        return Err(OrMemory::Fault(NotYet));
    }
    if !late_came(draft, call, found) {
        return Err(OrMemory::Fault(NotYet));
    }
    if is_misnamed(draft, call, found) {
        return Err(OrMemory::Fault(NotYet));
    }
    Ok(NodeKind::LateMember(found))
}

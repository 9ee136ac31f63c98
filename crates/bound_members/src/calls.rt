//! Members that are called: their objects are looked at, and their arguments are pushed.

ghost use Rattle.std.specs.Prelude.{◌≡◌, ◌==◌, ◌<◌, ◌&&◌, ◌||◌, length, true, IfOk, MatchBool, OnOk};
ghost use Rattle.bound_project.specs.DraftView.{draft_view};
ghost use Rattle.bound_calls.specs.declared.term.Item.TheVariants as item;
ghost use Rattle.bound_calls.specs.declared.term.Looked.TheVariants as looked;
ghost use Rattle.bound_calls.specs.Indexing.{AddsArgument, AddsMissing};
ghost use Rattle.bound_calls.specs.Standing.{MemberNamed, TermNamed, names_looked};
ghost use Rattle.bound_members.specs.MemberCalls.{AddsNamed, AddsValue, AllCame, EndsCall, EndsMember, LooksUp, NamesFit, OpensMember, PushesWritten, is_early, is_value_kind, missing_pushed, there_kind};

use crate::ahead::given_ahead;
use crate::late::{add_late, late_ahead, late_kind, skip_late};
use crate::members::takes_arguments;
use crate::names::{is_next, names_ahead, takes_names};
use bound_calls::bound_declarations::NotYet;
use bound_calls::{
    Ending, HostMember, Looked, MemberCall, Shape, Term, Tree, given_ending, is_typed_kind,
    mark_given, nowhere, push_node, sum,
};
use bound_project::{ArgumentNames, DeclaredType, Draft, ElementType, LateUse, NodeKind};
use std::alloc::Global;
use vba_base::{NoMemory, OrMemory, Place};
use vba_words::Identifier;

/// The node that looks for a member.
fn there_kind(name: u32, looked: Looked) -> NodeKind
    ensures { result ≡ there_kind name looked }
{
    match looked {
        Looked::Early { names: None, given } => NodeKind::MemberThere { name, given },
        Looked::Early {
            names: Some(names),
            given,
        } => NodeKind::NamedThere { name, names, given },
        Looked::Late { aim, found } => NodeKind::LateThere { aim, member: found },
    }
}

/// Does the run look for a member, or at what it is given? Arguments may be objects of a class where the project has one.
pub fn is_called_late(member: HostMember, has_class: bool, has_arguments: bool) -> bool
    ensures { result ≡ (member.is_late || (has_class && has_arguments)) }
{
    member.is_late || (has_class && has_arguments)
}

/// How a member is looked up whose arguments, these, are to come.
fn look_up<'a>(
    alloc: Global,
    draft: &mut Draft,
    member: HostMember,
    shapes: &[Shape<'a>],
    aim: LateUse,
    has_class: bool,
) -> Result<Looked, NoMemory>
    requires { member.name < length (draft_view draft.old).tables.constants }
    ensures { IfOk result (λ looked. LooksUp member (draft_view draft.old) (draft_view draft.new) looked) }
{
    if is_called_late(member, has_class, !shapes.is_empty()) {
        let found = late_ahead(alloc, draft, member.name, shapes)?;
        return Ok(Looked::Late { aim, found });
    }
    let given = given_ahead(shapes);
    let names = names_ahead(alloc, draft, shapes)?;
    Ok(Looked::Early { names, given })
}

/// A member of the object that was pushed, whose arguments, these, are to come: what is done with it where it is a
/// late-bound one, in a project with a class or without. The object may be what a property without parameters gave: then
/// some arguments must come.
pub fn open_member<'a>(
    alloc: Global,
    draft: &mut Draft,
    place: Place,
    member: HostMember,
    shapes: &[Shape<'a>],
    aim: LateUse,
    has_class: bool,
    of_property: bool,
) -> Result<MemberCall, OrMemory<NotYet>>
    requires { member.name < length (draft_view draft.old).tables.constants }
    ensures { IfOk result (λ call. OpensMember has_class of_property place member (draft_view draft.old) (draft_view draft.new) call) }
{
    let looked = look_up(alloc, draft, member, shapes, aim, has_class)?;
    let there = there_kind(member.name, looked);
    push_node(draft, there, member.of, place)?;
    Ok(MemberCall {
        place,
        member,
        looked,
        has_class,
        of_property,
        count: 0,
        written: 0,
        named: 0,
    })
}

/// Is a node a value that counts as given?
fn is_value_kind(kind: NodeKind) -> bool
    ensures { result ≡ is_value_kind kind }
{
    match kind {
        NodeKind::HostObject(_) => true,
        _ => is_typed_kind(kind),
    }
}

/// Pushes an expression as an argument of a member: as it is, and marked where a Variant doesn't take it.
pub fn push_written<'a>(
    alloc: Global,
    draft: &mut Draft,
    tree: Tree<'a>,
) -> Result<(), OrMemory<NotYet>>
    requires { TermNamed (draft_view draft.old).tables tree.term }
    ensures { OnOk result (PushesWritten tree.entry (draft_view draft.old) (draft_view draft.new)) }
{
    let ending = given_ending(alloc, draft, tree.term, tree.place)?;
    if !is_value_kind(ending.kind) {
        return Err(OrMemory::Fault(NotYet));
    }
    push_node(draft, ending.kind, ending.of, tree.place)?;
    let variant = DeclaredType::Plain(ElementType::Variant);
    mark_given(draft, variant, false, ending.of, tree.place)?;
    Ok(())
}

/// One more argument of a member of the host: the expression on top; so many have names then.
fn add_early<'a>(
    alloc: Global,
    draft: &mut Draft,
    call: MemberCall,
    tree: Tree<'a>,
    named: u32,
) -> Result<MemberCall, OrMemory<NotYet>>
    requires tree { TermNamed (draft_view draft.old).tables tree.term }
    requires member { MemberNamed (draft_view draft.old).tables call }
    requires early { is_early call.looked ≡ true }
    ensures { IfOk result (λ more. AddsValue call tree.entry named (draft_view draft.old) (draft_view draft.new) more) }
{
    let count = sum(call.count, 1)?;
    let written = sum(call.written, 1)?;
    push_written(alloc, draft, tree)?;
    Ok(MemberCall {
        count,
        written,
        named,
        ..call
    })
}

/// One more argument, with a name or without one: the expression on top; so many have names then.
fn add_value<'a>(
    alloc: Global,
    draft: &mut Draft,
    call: MemberCall,
    tree: Tree<'a>,
    named: u32,
) -> Result<MemberCall, OrMemory<NotYet>>
    requires tree { TermNamed (draft_view draft.old).tables tree.term }
    requires member { MemberNamed (draft_view draft.old).tables call }
    ensures { IfOk result (λ more. AddsValue call tree.entry named (draft_view draft.old) (draft_view draft.new) more) }
{
    match call.looked {
        Looked::Early { .. } => add_early(alloc, draft, call, tree, named),
        Looked::Late { aim, found } => add_late(alloc, draft, call, aim, found, tree, named),
    }
}

/// One more argument without a name: the expression on top.
pub fn add_given<'a>(
    alloc: Global,
    draft: &mut Draft,
    call: MemberCall,
    tree: Tree<'a>,
) -> Result<MemberCall, OrMemory<NotYet>>
    requires named { TermNamed (draft_view draft.old).tables tree.term }
    requires member { MemberNamed (draft_view draft.old).tables call }
    ensures { IfOk result (λ more. AddsArgument (item.Member call) tree.entry (draft_view draft.old) (draft_view draft.new) (item.Member more)) }
{
    if call.named != 0 {
        return Err(OrMemory::Fault(NotYet));
    }
    add_value(alloc, draft, call, tree, 0)
}

/// How arguments are to be named of a member that was looked up, where some are.
fn names_looked(looked: Looked) -> Option<ArgumentNames>
    ensures { result ≡ names_looked looked }
{
    match looked {
        Looked::Early { names, .. } => names,
        Looked::Late { found, .. } => Some(found.names),
    }
}

/// One more argument, with a name, which is the next one of those that were told.
pub fn add_named<'a>(
    alloc: Global,
    draft: &mut Draft,
    call: MemberCall,
    tree: Tree<'a>,
    name: &Identifier,
) -> Result<MemberCall, OrMemory<NotYet>>
    requires named { TermNamed (draft_view draft.old).tables tree.term }
    requires member { MemberNamed (draft_view draft.old).tables call }
    ensures { IfOk result (λ more. AddsNamed call tree.entry name.now (draft_view draft.old) (draft_view draft.new) more) }
{
    let Some(names) = names_looked(call.looked) else {
        return Err(OrMemory::Fault(NotYet));
    };
    if !is_next(draft, names, call.named, name) {
        return Err(OrMemory::Fault(NotYet));
    }
    let named = sum(call.named, 1)?;
    add_value(alloc, draft, call, tree, named)
}

/// Pushes that an argument isn't written: Missing.
pub fn push_missing(draft: &mut Draft) -> Result<(), NoMemory>
    ensures { OnOk result (draft_view draft.new ≡ missing_pushed (draft_view draft.old)) }
{
    let variant = DeclaredType::Plain(ElementType::Variant);
    push_node(draft, NodeKind::NotGiven, variant, nowhere())
}

/// One more argument of a member of the host, which isn't written.
fn skip_early(draft: &mut Draft, call: MemberCall) -> Result<MemberCall, OrMemory<NotYet>>
    requires member { MemberNamed (draft_view draft.old).tables call }
    requires early { is_early call.looked ≡ true }
    requires unnamed { call.named ≡ 0 }
    ensures { IfOk result (λ more. AddsMissing (item.Member call) (draft_view draft.old) (draft_view draft.new) (item.Member more)) }
{
    let count = sum(call.count, 1)?;
    push_missing(draft)?;
    Ok(MemberCall { count, ..call })
}

/// One more argument, which isn't written.
pub fn add_missing(draft: &mut Draft, call: MemberCall) -> Result<MemberCall, OrMemory<NotYet>>
    requires { MemberNamed (draft_view draft.old).tables call }
    ensures { IfOk result (λ more. AddsMissing (item.Member call) (draft_view draft.old) (draft_view draft.new) (item.Member more)) }
{
    if call.named != 0 {
        return Err(OrMemory::Fault(NotYet));
    }
    match call.looked {
        Looked::Early { .. } => skip_early(draft, call),
        Looked::Late { aim, found } => skip_late(draft, call, aim, found),
    }
}

/// Have all names come that were told, and do as many arguments stand before them?
pub fn names_came(draft: &Draft, call: MemberCall, names: ArgumentNames) -> bool
    ensures { MatchBool result (AllCame (draft_view draft.now).tables call names) (Unit {0}) }
{
    let told = draft.order(names.order).len();
    if call.named as usize != told {
        return false;
    }
    if call.count < names.before || call.count - names.before != call.named {
        return false;
    }
    true
}

/// Are the arguments named as was told: have all names come, as many stand before them, and has the member such parameters?
pub fn names_fit(draft: &Draft, call: MemberCall, names: ArgumentNames) -> bool
    ensures { MatchBool result (NamesFit (draft_view draft.now).tables call names) (Unit {0}) }
{
    if call.named == 0 || !names_came(draft, call, names) {
        return false;
    }
    takes_names(draft, call.member, names)
}

/// The last node of a member of the host whose arguments were pushed: as many written ones as were counted.
fn early_kind(
    draft: &Draft,
    call: MemberCall,
    names: Option<ArgumentNames>,
    given: u32,
) -> Result<NodeKind, OrMemory<NotYet>>
    requires { call.looked ≡ looked.Early names given }
    ensures { IfOk result (λ kind. EndsCall (draft_view draft.now).tables call kind) }
{
    if call.written != given {
        return Err(OrMemory::Fault(NotYet));
    }
    if is_called_late(call.member, call.has_class, call.count != 0) {
        return Err(OrMemory::Fault(NotYet));
    }
    let name = call.member.name;
    let arguments = call.count;
    let Some(names) = names else {
        return Ok(NodeKind::HostMember { name, arguments });
    };
    if !names_fit(draft, call, names) {
        return Err(OrMemory::Fault(NotYet));
    }
    Ok(NodeKind::NamedMember {
        name,
        names,
        arguments,
    })
}

/// The last node of a member whose arguments were pushed.
pub fn member_kind(draft: &Draft, call: MemberCall) -> Result<NodeKind, OrMemory<NotYet>>
    ensures { IfOk result (λ kind. EndsCall (draft_view draft.now).tables call kind) }
{
    match call.looked {
        Looked::Early { names, given } => early_kind(draft, call, names, given),
        Looked::Late {
            aim: LateUse::Reading,
            found,
        } => late_kind(draft, call, found),
        Looked::Late { .. } => Err(OrMemory::Fault(NotYet)),
    }
}

/// Did no arguments come of a member whose object a property gave? Brackets with none in them are that property's.
fn lacks_arguments(call: MemberCall) -> bool
    ensures { result ≡ (call.of_property && (call.count == 0)) }
{
    call.of_property && call.count == 0
}

/// What a member gives of its arguments, where it takes so many: some, where a property gave its object.
pub fn close_member<'a>(draft: &Draft, call: MemberCall) -> Result<Term<'a>, OrMemory<NotYet>>
    ensures { IfOk result (λ term. EndsMember (draft_view draft.now).tables call term) }
{
    if lacks_arguments(call) {
        return Err(OrMemory::Fault(NotYet));
    }
    if !takes_arguments(call.member, call.count) {
        return Err(OrMemory::Fault(NotYet));
    }
    let kind = member_kind(draft, call)?;
    Ok(Term::Value(Ending {
        kind,
        of: call.member.of,
    }))
}

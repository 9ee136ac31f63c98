//! Objects behind a dot and before brackets: members of objects of the host.

ghost use Rattle.std.specs.Prelude.{◌≡◌, true, IfOk, MatchBool};
ghost use Rattle.bound_project.specs.DraftView.{draft_view};
ghost use Rattle.bound_project.specs.Drafts.{NodeNamed};
ghost use Rattle.bound_accesses.specs.Items.{FindsBehindPlace, FindsBehindValue, FindsLatePlace, FindsLateValue, FindsOfPlace, FindsOfValue, KeepsItem, KeepsTerm, LacksMembers, MakesItem, MakesPlaceItem, MakesValueItem, ValueLacks, found_term, is_bare, is_host_term, is_sheet, lacks_item};
ghost use Rattle.bound_names.specs.bound_members.specs.bound_calls.specs.Standing.{TermNamed};
ghost use Rattle.bound_names.specs.View.{env_view};

use bound_names::bound_members::bound_calls::bound_declarations::NotYet;
use bound_names::bound_members::bound_calls::bound_declarations::constant_values::declared_names::is_object;
use bound_names::bound_members::bound_calls::{
    Ending, HostMember, Term, is_found_late, is_host_type, is_typed_kind, push_node, push_sheet,
    read_kind,
};
use bound_names::bound_members::{
    find_member, found_late, is_known_early, is_known_late, kind_of_ending, kind_of_type,
};
use bound_names::{Env, unknown_term};
use bound_project::{DeclaredType, Draft, ElementType, NodeKind};
use std::alloc::Global;
use vba_base::{NoMemory, OrMemory, Place, Units};
use vba_values::HostRef;

/// An ASCII word.
fn word(alloc: Global, bytes: &[u8]) -> Result<Units, NoMemory>
    ensures { IfOk result (λ text. text ≡ bytes.now) }
{
    let mut text = Units::new(alloc);
    for byte in bytes {
        text.push(u16::from(*byte))?;
    }
    Ok(text)
}

/// A member of the object that was pushed, or what is told where there is none.
pub fn found_term<'a>(found: Option<HostMember>, dot: Place) -> Term<'a>
    ensures { result ≡ found_term found dot }
{
    match found {
        None => unknown_term(dot),
        Some(member) => Term::HostMember(member),
    }
}

/// A place of no object's type, which was pushed, has no members.
fn behind_other_place(of: DeclaredType) -> Result<Option<HostMember>, OrMemory<NotYet>>
    ensures { IfOk result (λ found. LacksMembers of found) }
{
    if is_object(of) {
        return Err(OrMemory::Fault(NotYet));
    }
    Ok(None)
}

/// A member of the object at a place, which is pushed; none where there is none. It is no object of a class.
fn member_of_place(
    draft: &mut Draft,
    place: Place,
    at: Ending,
    makes: bool,
    name: Units,
) -> Result<Option<HostMember>, OrMemory<NotYet>>
    requires { NodeNamed (draft_view draft.old).tables at.kind }
    ensures { IfOk result (λ found. FindsOfPlace place at makes name (draft_view draft.old) (draft_view draft.new) found) }
{
    push_node(draft, at.kind, at.of, place)?;
    push_node(draft, read_kind(makes), at.of, place)?;
    match kind_of_type(at.of) {
        None => behind_other_place(at.of),
        Some(kind) => find_member(draft, kind, name),
    }
}

/// A member that the run finds of the object at a place, which is pushed.
fn late_of_place(
    draft: &mut Draft,
    place: Place,
    at: Ending,
    makes: bool,
    name: Units,
) -> Result<Option<HostMember>, OrMemory<NotYet>>
    requires { NodeNamed (draft_view draft.old).tables at.kind }
    ensures { IfOk result (λ found. FindsLatePlace place at makes name (draft_view draft.old) (draft_view draft.new) found) }
{
    push_node(draft, at.kind, at.of, place)?;
    push_node(draft, read_kind(makes), at.of, place)?;
    let member = found_late(draft, name)?;
    Ok(Some(member))
}

/// A member of the object at a place, which is pushed; none where there is none. The run finds it where the object may be
/// one of a class.
pub fn behind_object_place<'a>(
    draft: &mut Draft,
    env: Env<'a>,
    place: Place,
    at: Ending,
    makes: bool,
    name: Units,
) -> Result<Option<HostMember>, OrMemory<NotYet>>
    requires { NodeNamed (draft_view draft.old).tables at.kind }
    ensures { IfOk result (λ found. FindsBehindPlace (env_view env.entry) place at makes name (draft_view draft.old) (draft_view draft.new) found) }
{
    let read = Ending {
        kind: read_kind(makes),
        of: at.of,
    };
    let Some(is_late) = is_found_late(env.has_class, draft, read) else {
        return Err(OrMemory::Fault(NotYet));
    };
    if is_late {
        return late_of_place(draft, place, at, makes, name);
    }
    member_of_place(draft, place, at, makes, name)
}

/// A value of no object's type has no members.
fn behind_other_value(ending: Ending) -> Result<Option<HostMember>, OrMemory<NotYet>>
    ensures { IfOk result (λ found. ValueLacks ending found) }
{
    if !is_typed_kind(ending.kind) {
        return Err(OrMemory::Fault(NotYet));
    }
    match kind_of_type(ending.of) {
        None => behind_other_place(ending.of),
        Some(_) => Err(OrMemory::Fault(NotYet)),
    }
}

/// A member of the object that a value gives, which is pushed; none where there is none. It is no object of a class.
fn member_of_value(
    draft: &mut Draft,
    place: Place,
    ending: Ending,
    name: Units,
) -> Result<Option<HostMember>, OrMemory<NotYet>>
    requires { NodeNamed (draft_view draft.old).tables ending.kind }
    ensures { IfOk result (λ found. FindsOfValue place ending name (draft_view draft.old) (draft_view draft.new) found) }
{
    push_node(draft, ending.kind, ending.of, place)?;
    match kind_of_ending(ending) {
        None => behind_other_value(ending),
        Some(kind) => find_member(draft, kind, name),
    }
}

/// A member that the run finds of the object that a value gives, which is pushed.
fn late_of_value(
    draft: &mut Draft,
    place: Place,
    ending: Ending,
    name: Units,
) -> Result<Option<HostMember>, OrMemory<NotYet>>
    requires { NodeNamed (draft_view draft.old).tables ending.kind }
    ensures { IfOk result (λ found. FindsLateValue place ending name (draft_view draft.old) (draft_view draft.new) found) }
{
    push_node(draft, ending.kind, ending.of, place)?;
    let member = found_late(draft, name)?;
    Ok(Some(member))
}

/// A member of the object that a value gives, which is pushed; none where there is none. The run finds it where the object
/// may be one of a class.
pub fn behind_object_value<'a>(
    draft: &mut Draft,
    env: Env<'a>,
    place: Place,
    ending: Ending,
    name: Units,
) -> Result<Option<HostMember>, OrMemory<NotYet>>
    requires { NodeNamed (draft_view draft.old).tables ending.kind }
    ensures { IfOk result (λ found. FindsBehindValue (env_view env.entry) place ending name (draft_view draft.old) (draft_view draft.new) found) }
{
    let Some(is_late) = is_found_late(env.has_class, draft, ending) else {
        return Err(OrMemory::Fault(NotYet));
    };
    if is_late {
        return late_of_value(draft, place, ending, name);
    }
    member_of_value(draft, place, ending, name)
}

/// Is a term of an object's type, or a member of one?
fn is_host_term<'a>(term: Term<'a>) -> bool
    ensures { result ≡ is_host_term term.entry }
{
    match term {
        Term::Place { of, .. } => is_host_type(of),
        Term::Value(ending) => is_host_type(ending.of),
        Term::HostMember(_) => true,
        Term::SheetMember(_) => true,
        _ => false,
    }
}

/// Does the run find the members of what a term is? Then brackets index it as it is. What isn't known is left open.
fn is_late_term<'a>(has_class: bool, draft: &Draft, term: Term<'a>) -> bool
    ensures { MatchBool result (KeepsTerm has_class (draft_view draft.now).tables term.entry) (Unit {0}) }
{
    match term {
        Term::Place { of, makes, .. } => {
            let read = Ending {
                kind: read_kind(makes),
                of,
            };
            is_known_late(has_class, draft, read)
        }
        Term::Value(ending) => is_known_late(has_class, draft, ending),
        _ => false,
    }
}

/// May brackets behind a term take a member of an object? Otherwise they index the term as it is.
fn may_take_item<'a>(has_class: bool, draft: &Draft, term: Term<'a>) -> bool
    ensures { MatchBool result (is_host_term term.entry ≡ true) (KeepsTerm has_class (draft_view draft.now).tables term.entry) }
{
    if !is_host_term(term) {
        return false;
    }
    !is_late_term(has_class, draft, term)
}

/// Is a type that of sheets?
fn is_sheet(of: DeclaredType) -> bool
    ensures { result ≡ is_sheet of }
{
    match of {
        DeclaredType::Plain(ElementType::Worksheet) => true,
        _ => false,
    }
}

/// Is a node the last one of Application, or of the workbook?
fn is_bare(kind: NodeKind) -> bool
    ensures { result ≡ is_bare kind }
{
    match kind {
        NodeKind::HostObject(HostRef::Application) => true,
        NodeKind::HostObject(HostRef::Workbook) => true,
        _ => false,
    }
}

/// Is a term an object without a default member with arguments: a sheet, the workbook, or Application?
pub fn lacks_item<'a>(term: Term<'a>) -> bool
    ensures { result ≡ lacks_item term.entry }
{
    match term {
        Term::Place { of, .. } => is_sheet(of),
        Term::Value(ending) => {
            if is_sheet(ending.of) {
                is_typed_kind(ending.kind)
            } else {
                is_host_type(ending.of) && is_bare(ending.kind)
            }
        }
        _ => false,
    }
}

/// May brackets behind a term take a member of an object? Otherwise they index the term as it is, or break a rule since it
/// has no default member with arguments.
pub fn takes_item<'a>(has_class: bool, draft: &Draft, term: Term<'a>) -> bool
    ensures { MatchBool result (Unit {0}) (KeepsItem has_class (draft_view draft.now).tables term.entry) }
{
    if lacks_item(term) {
        return false;
    }
    may_take_item(has_class, draft, term)
}

/// What brackets take of an object at a place: a member, or what is told where there is none.
fn place_item<'a>(
    alloc: Global,
    draft: &mut Draft,
    env: Env<'a>,
    place: Place,
    at: Ending,
    makes: bool,
) -> Result<Term<'a>, OrMemory<NotYet>>
    requires { NodeNamed (draft_view draft.old).tables at.kind }
    ensures { IfOk result (λ item. MakesPlaceItem (env_view env.entry) place at makes (draft_view draft.old) (draft_view draft.new) item) }
{
    let read = Ending {
        kind: read_kind(makes),
        of: at.of,
    };
    if !is_known_early(env.has_class, draft, read) {
        return Err(OrMemory::Fault(NotYet));
    }
    let item = word(alloc, b"item")?;
    let found = member_of_place(draft, place, at, makes, item)?;
    Ok(found_term(found, place))
}

/// The same of an object that a value gives.
fn value_item<'a>(
    alloc: Global,
    draft: &mut Draft,
    env: Env<'a>,
    place: Place,
    ending: Ending,
) -> Result<Term<'a>, OrMemory<NotYet>>
    requires { NodeNamed (draft_view draft.old).tables ending.kind }
    ensures { IfOk result (λ item. MakesValueItem (env_view env.entry) place ending (draft_view draft.old) (draft_view draft.new) item) }
{
    if !is_known_early(env.has_class, draft, ending) {
        return Err(OrMemory::Fault(NotYet));
    }
    let item = word(alloc, b"item")?;
    let found = member_of_value(draft, place, ending, item)?;
    Ok(found_term(found, place))
}

/// What brackets behind an object take, which is pushed: its default member with arguments, or what is told where it
/// has none.
fn host_item<'a>(
    alloc: Global,
    draft: &mut Draft,
    env: Env<'a>,
    place: Place,
    term: Term<'a>,
) -> Result<Term<'a>, OrMemory<NotYet>>
    requires named { TermNamed (draft_view draft.old).tables term }
    requires object { is_host_term term ≡ true }
    ensures { IfOk result (λ item. MakesItem (env_view env.entry) place term.entry (draft_view draft.old) (draft_view draft.new) item) }
{
    match term {
        Term::Place {
            kind,
            of,
            makes,
            ..
        } => place_item(alloc, draft, env, place, Ending { kind, of }, makes),
        Term::Value(ending) => value_item(alloc, draft, env, place, ending),
        Term::HostMember(_) => Ok(term),
        Term::SheetMember(member) => {
            push_sheet(draft)?;
            Ok(Term::HostMember(member))
        }
        _ => Err(OrMemory::Fault(NotYet)),
    }
}

/// What brackets behind a term take: of an object, which is pushed, its default member with arguments, or what is
/// told where it has none.
pub fn item_term<'a>(
    alloc: Global,
    draft: &mut Draft,
    env: Env<'a>,
    place: Place,
    term: Term<'a>,
) -> Result<Term<'a>, OrMemory<NotYet>>
    requires { TermNamed (draft_view draft.old).tables term }
    ensures { IfOk result (λ item. MakesItem (env_view env.entry) place term.entry (draft_view draft.old) (draft_view draft.new) item) }
{
    if may_take_item(env.has_class, draft, term) {
        return host_item(alloc, draft, env, place, term);
    }
    Ok(term)
}

/// The member that brackets behind a term take: of an object its default member with arguments. The object is pushed.
pub fn item_member<'a>(
    alloc: Global,
    draft: &mut Draft,
    env: Env<'a>,
    place: Place,
    term: Term<'a>,
) -> Result<HostMember, OrMemory<NotYet>>
    requires { TermNamed (draft_view draft.old).tables term }
    ensures { IfOk result (λ member. MakesItem (env_view env.entry) place term.entry (draft_view draft.old) (draft_view draft.new) (Term.HostMember member)) }
{
    match item_term(alloc, draft, env, place, term)? {
        Term::HostMember(member) => Ok(member),
        _ => Err(OrMemory::Fault(NotYet)),
    }
}

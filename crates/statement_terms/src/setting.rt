//! Set: terms that are given a reference to an object.

ghost use Rattle.std.specs.Prelude.{◌≡◌, ◌<◌, ℕ, Bool, true, false, length, IfOk, OnOk};
ghost use Rattle.vba_base.specs.declared.place.Place as told;
ghost use Rattle.bound_project.specs.DraftView.{draft_view};
ghost use Rattle.bound_project.specs.Drafts.{NodeNamed};
ghost use Rattle.statement_terms.specs.Members.{is_err_term};
ghost use Rattle.statement_terms.specs.Setting.{SetsAlone, SetsTerm, ends_unset, is_marked};
ghost use Rattle.statement_terms.specs.Terms.{may_be_object};
ghost use Rattle.bound_members.specs.bound_calls.specs.declared.term.Term.TheVariants as term;
ghost use Rattle.bound_members.specs.bound_calls.specs.Calls.{node_of};
ghost use Rattle.bound_members.specs.bound_calls.specs.Standing.{TermNamed};
ghost use Rattle.bound_project.specs.declared.declared_type.DeclaredType.TheVariants.{Plain};
ghost use Rattle.bound_project.specs.declared.declared_type.ElementType.TheVariants.{Variant};
ghost use Rattle.bound_project.specs.declared.node.NodeKind.TheVariants as node;
ghost use Rattle.bound_project.specs.Pieces.{put};

use crate::member_targets::{is_late, is_value_name};
use crate::targets::{is_unassignable, may_be_object, numbers_along};
use bound_members::bound_calls;
use bound_members::bound_calls::bound_declarations::NotYet;
use bound_members::bound_calls::{Ending, HostMember, Term, alone, push_node};
use bound_project::{ActionKind, DeclaredType, Draft, ElementType, NodeKind};
use std::alloc::Global;
use vba_base::{NoMemory, OrMemory, Place, Refusal};

/// What breaks a static rule: so many values that were pushed, at the word Set.
pub fn push_broken(draft: &mut Draft, set_word: Place, values: u32) -> Result<(), NoMemory>
    ensures { OnOk result (draft_view draft.new ≡ record (draft_view draft.old) { pieces = put (draft_view draft.old).tables (node_of (node.Marked (record { rule = 28; place = set_word }) values) set_word (Plain Variant)) (draft_view draft.old).pieces }) }
{
    let variant = DeclaredType::Plain(ElementType::Variant);
    let broken = NodeKind::Marked {
        broken: Refusal {
            rule: 28,
            place: set_word,
        },
        values,
    };
    push_node(draft, broken, variant, set_word)
}

/// What a place is given, behind the reference: where the run says what arguments lead to, these are given with it.
fn set_reference(draft: &mut Draft, at: Ending, place: Place) -> Result<ActionKind, NoMemory>
    requires named { NodeNamed (draft_view draft.old).tables at.kind }
    requires object { may_be_object at.of ≡ true }
    ensures { IfOk result (λ kind. (word : told.Place) (bounds : ℕ) (lends makes : Bool)
        → SetsTerm word place (term.Place at.kind at.of bounds lends makes) (draft_view draft.old) (draft_view draft.new) kind) }
{
    if let Some(numbers) = numbers_along(at.kind) {
        return Ok(ActionKind::SetElement { numbers });
    }
    push_node(draft, at.kind, at.of, place)?;
    Ok(ActionKind::Set)
}

/// A place, behind the reference that it is given: one that has no object breaks a static rule.
fn set_place(
    draft: &mut Draft,
    set_word: Place,
    at: Ending,
    place: Place,
) -> Result<ActionKind, OrMemory<NotYet>>
    requires { NodeNamed (draft_view draft.old).tables at.kind }
    ensures { IfOk result (λ kind. (bounds : ℕ) (lends makes : Bool)
        → SetsTerm set_word place (term.Place at.kind at.of bounds lends makes) (draft_view draft.old) (draft_view draft.new) kind) }
{
    if may_be_object(at.of) {
        return Ok(set_reference(draft, at, place)?);
    }
    push_node(draft, at.kind, at.of, place)?;
    push_node(draft, NodeKind::Load, at.of, set_word)?;
    push_broken(draft, set_word, 2)?;
    Ok(ActionKind::Evaluate)
}

/// Is a node that of what breaks a rule?
fn is_marked(kind: NodeKind) -> bool
    ensures { result ≡ is_marked kind }
{
    match kind {
        NodeKind::Marked { .. } => true,
        _ => false,
    }
}

/// Is a value with such a node never set: can't it be assigned to, is it Me or an object of the host, or a member's that isn't
/// Value?
fn is_unset(draft: &Draft, kind: NodeKind) -> bool
    ensures { result ≡ ends_unset (draft_view draft.now).tables kind }
{
    match kind {
        NodeKind::This => true,
        NodeKind::HostObject(_) => true,
        NodeKind::ActiveSheet => true,
        NodeKind::HostMember { name, .. } => !is_value_name(draft.name(name)),
        NodeKind::NamedMember { name, .. } => !is_value_name(draft.name(name)),
        NodeKind::LateMember(found) => !is_value_name(draft.name(found.name)),
        _ => is_unassignable(kind),
    }
}

/// What breaks a rule as a value, and may be an object, behind the reference that it is given.
fn set_marked(draft: &mut Draft, set_word: Place, ending: Ending) -> Result<ActionKind, NoMemory>
    requires named { NodeNamed (draft_view draft.old).tables ending.kind }
    requires object { may_be_object ending.of ≡ true }
    requires marked { is_marked ending.kind ≡ true }
    ensures { IfOk result (λ kind. (place : told.Place) → SetsTerm set_word place (term.Value ending) (draft_view draft.old) (draft_view draft.new) kind) }
{
    push_node(draft, ending.kind, ending.of, set_word)?;
    Ok(ActionKind::SetMember)
}

/// A value that is never set and may be an object, behind the reference that it is given.
fn set_unset(
    draft: &mut Draft,
    set_word: Place,
    ending: Ending,
    place: Place,
) -> Result<ActionKind, NoMemory>
    requires named { NodeNamed (draft_view draft.old).tables ending.kind }
    requires object { may_be_object ending.of ≡ true }
    requires other { is_marked ending.kind ≡ false }
    requires unset { ends_unset (draft_view draft.old).tables ending.kind ≡ true }
    ensures { IfOk result (λ kind. SetsTerm set_word place (term.Value ending) (draft_view draft.old) (draft_view draft.new) kind) }
{
    push_node(draft, ending.kind, ending.of, place)?;
    bound_members::bound_calls::push_broken(draft, 27, place, 2)?;
    Ok(ActionKind::Evaluate)
}

/// A value that can't be an object, behind the reference that it is given.
fn set_no_object(
    draft: &mut Draft,
    set_word: Place,
    ending: Ending,
    place: Place,
) -> Result<ActionKind, NoMemory>
    requires named { NodeNamed (draft_view draft.old).tables ending.kind }
    requires plain { may_be_object ending.of ≡ false }
    ensures { IfOk result (λ kind. SetsTerm set_word place (term.Value ending) (draft_view draft.old) (draft_view draft.new) kind) }
{
    push_node(draft, ending.kind, ending.of, place)?;
    push_broken(draft, set_word, 2)?;
    Ok(ActionKind::Evaluate)
}

/// A value, behind the reference that it is given.
pub fn set_value(
    draft: &mut Draft,
    set_word: Place,
    ending: Ending,
    place: Place,
) -> Result<ActionKind, OrMemory<NotYet>>
    requires { NodeNamed (draft_view draft.old).tables ending.kind }
    ensures { IfOk result (λ kind. SetsTerm set_word place (term.Value ending) (draft_view draft.old) (draft_view draft.new) kind) }
{
    if !may_be_object(ending.of) {
        return Ok(set_no_object(draft, set_word, ending, place)?);
    }
    if is_marked(ending.kind) {
        return Ok(set_marked(draft, set_word, ending)?);
    }
    if is_unset(draft, ending.kind) {
        return Ok(set_unset(draft, set_word, ending, place)?);
    }
    Err(OrMemory::Fault(NotYet))
}

/// What a term is where no arguments stand behind it, behind the reference that it is given.
fn set_alone<'a>(
    alloc: Global,
    draft: &mut Draft,
    set_word: Place,
    term: Term<'a>,
    place: Place,
) -> Result<ActionKind, OrMemory<NotYet>>
    requires { TermNamed (draft_view draft.old).tables term }
    ensures { IfOk result (λ kind. SetsAlone set_word place term.entry (draft_view draft.old) (draft_view draft.new) kind) }
{
    match alone(alloc, draft, term, place)? {
        Term::Value(ending) => set_value(draft, set_word, ending, place),
        _ => Err(OrMemory::Fault(NotYet)),
    }
}

/// A member of an object that was pushed, behind the reference that it is given: the run finds that Value isn't set, and of a
/// member that it finds it decides.
pub fn set_member(
    alloc: Global,
    draft: &mut Draft,
    set_word: Place,
    member: HostMember,
    place: Place,
) -> Result<ActionKind, OrMemory<NotYet>>
    requires { member.name < length (draft_view draft.old).tables.constants }
    ensures { IfOk result (λ kind. SetsTerm set_word place (term.HostMember member) (draft_view draft.old) (draft_view draft.new) kind) }
{
    if is_late(member.greatest) || is_value_name(draft.name(member.name)) {
        return Ok(ActionKind::SetMember);
    }
    set_alone(alloc, draft, set_word, Term::HostMember(member), place)
}

/// What nothing is set, Err and what it does, behind the reference that it is given.
fn set_err<'a>(draft: &mut Draft, term: Term<'a>, place: Place) -> Result<ActionKind, NoMemory>
    requires { is_err_term term ≡ true }
    ensures { IfOk result (λ kind. (word : told.Place) → SetsTerm word place term.entry (draft_view draft.old) (draft_view draft.new) kind) }
{
    bound_members::bound_calls::push_broken(draft, 27, place, 1)?;
    Ok(ActionKind::Evaluate)
}

/// A term that is no procedure, behind the reference that it is given.
pub fn set_term<'a>(
    alloc: Global,
    draft: &mut Draft,
    set_word: Place,
    term: Term<'a>,
    place: Place,
) -> Result<ActionKind, OrMemory<NotYet>>
    requires { TermNamed (draft_view draft.old).tables term }
    ensures { IfOk result (λ kind. SetsTerm set_word place term.entry (draft_view draft.old) (draft_view draft.new) kind) }
{
    match term {
        Term::Place { kind, of, .. } => set_place(draft, set_word, Ending { kind, of }, place),
        Term::HostMember(member) => set_member(alloc, draft, set_word, member, place),
        Term::Value(ending) => set_value(draft, set_word, ending, place),
        Term::Function(_) => set_alone(alloc, draft, set_word, term, place),
        Term::Err => Ok(set_err(draft, term, place)?),
        Term::ErrRaise => Ok(set_err(draft, term, place)?),
        Term::ErrClear => Ok(set_err(draft, term, place)?),
        _ => Err(OrMemory::Fault(NotYet)),
    }
}

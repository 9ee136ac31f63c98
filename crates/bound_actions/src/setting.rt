//! Set: what is given a reference to an object.

ghost use Rattle.std.specs.Prelude.{◌≡◌, ◌<◌, [], IfOk, length, option_and_then};
ghost use Rattle.vba_expression.specs.View.{view as expression_view};
ghost use Rattle.vba_expression.specs.Nodes.{tree_in};
ghost use Rattle.bound_project.specs.DraftView.{draft_view};
ghost use Rattle.bound_terms.specs.bound_accesses.specs.bound_names.specs.bound_members.specs.bound_calls.specs.bound_forms.specs.ExpressionsBound.{bound_as_given};
ghost use Rattle.bound_terms.specs.bound_accesses.specs.bound_names.specs.bound_members.specs.bound_calls.specs.bound_forms.specs.Targets as targets;
ghost use Rattle.statement_terms.specs.statement_nodes.specs.Pushed.{ActionStands};
ghost use Rattle.statement_terms.specs.Called.{IsBare, SplitAt};
ghost use Rattle.statement_terms.specs.Heights.{AddsOne};
ghost use Rattle.statement_terms.specs.Setting.{SetsTo};
ghost use Rattle.bound_actions.specs.Behind.{SetsBehind, SetsIndexedTerm};
ghost use Rattle.bound_terms.specs.bound_accesses.specs.Items.{KeepsItem};
ghost use Rattle.bound_actions.specs.NoTargets.{SetsProperty, SetsRoutine, TypesProperty};
ghost use Rattle.bound_actions.specs.Refused.{RefusesSet};
ghost use Rattle.bound_actions.specs.LateSets.{SetsGiven, SetsItem, SetsMember, SetsSheet, SetsTaken};
ghost use Rattle.bound_terms.specs.bound_accesses.specs.bound_names.specs.bound_members.specs.bound_calls.specs.Standing.{TermNamed};
ghost use Rattle.bound_terms.specs.bound_accesses.specs.bound_names.specs.View.{EnvStands, env_view};

use crate::assigning::{let_bare, let_given};
use crate::class_items::{give_led, term_class};
use crate::late_items::lead_from;
use crate::member_targets::read_member;
use crate::no_targets::{break_procedure, is_sub, refuse_target};
use crate::property_targets::{Before, target_before};
use crate::takers::property_takes;
use crate::trees::{continue_tree, nodes_tree};
use crate::untaken::read_untaken;
use bound_project::{ActionKind, DeclaredType, Draft, LateUse};
use bound_terms::bound_accesses::bound_names::bound_members::bound_calls::bound_declarations::{
    NotYet, is_property,
};
use bound_terms::bound_accesses::bound_names::bound_members::bound_calls::{
    HostMember, Receiver, Refuser, Routine, Shape, Term, broken_ending, called_ending, push_sheet,
    sum,
};
use bound_terms::bound_accesses::bound_names::bound_members::{
    close_member, member_takes, open_member, shapes_ahead,
};
use bound_terms::bound_accesses::bound_names::{Env, callee_term, setter_of};
use bound_terms::bound_accesses::{item_member, takes_item};
use bound_terms::bound_operands::{count_shapes, refused_rule};
use bound_terms::{bind_given, tree_of};
use statement_terms::{
    Split, adds_one, ends_bare, is_late, late_value, may_be_object, push_broken, set_call,
    set_late, set_member, set_term, set_value, split_call,
};
use std::alloc::Global;
use vba_base::{OrMemory, Place};
use vba_expression::{Expression, ExpressionNode};

/// What a property is called of, and the type that its Get gives or that its Let takes; none of what is no property.
fn property_type<'a>(
    env: Env<'a>,
    term: Term<'a>,
) -> Result<Option<(Receiver, DeclaredType)>, OrMemory<NotYet>>
    requires { EnvStands env }
    ensures { IfOk result (λ found. TypesProperty (env_view env.entry) term.entry found) }
{
    match term {
        Term::Routine(routine) => {
            if is_property(routine.written.header.words) {
                Ok(Some((routine.receiver, routine.of)))
            } else {
                Ok(None)
            }
        }
        Term::Property(property) => {
            let of = property_takes(env, property)?;
            Ok(Some((property.receiver, of)))
        }
        _ => Ok(None),
    }
}

/// A property of a type without a Set, behind the reference that it is set to.
fn set_property(
    draft: &mut Draft,
    set_word: Place,
    receiver: Receiver,
    of: DeclaredType,
    place: Place,
) -> Result<ActionKind, OrMemory<NotYet>>
    ensures { IfOk result (λ kind. SetsProperty set_word place receiver of (draft_view draft.old) (draft_view draft.new) kind) }
{
    if may_be_object(of) {
        return break_procedure(draft, receiver, 27, place);
    }
    break_procedure(draft, receiver, 28, set_word)
}

/// A procedure that is no property and is called without arguments, behind the reference that what it gives is set to.
fn set_routine<'a>(
    alloc: Global,
    draft: &mut Draft,
    set_word: Place,
    routine: Routine<'a>,
    place: Place,
) -> Result<ActionKind, OrMemory<NotYet>>
    ensures { IfOk result (λ kind. SetsRoutine set_word place routine.entry (draft_view draft.old) (draft_view draft.new) kind) }
{
    let ending = called_ending(alloc, draft, routine, place)?;
    set_value(draft, set_word, ending, place)
}

/// A member that is known before the run, of the object that was pushed, behind the reference that it is set to with
/// arguments that it doesn't take.
fn set_refused<'a>(
    alloc: Global,
    draft: &mut Draft,
    env: Env<'a>,
    set_word: Place,
    member: HostMember,
    place: Place,
    nodes: &'a [ExpressionNode],
) -> Result<ActionKind, OrMemory<NotYet>>
    requires env { EnvStands env }
    requires named { member.name < length (draft_view draft.old).tables.constants }
    ensures { IfOk result (λ kind. RefusesSet (env_view env.entry) set_word place member nodes.now (draft_view draft.old) (draft_view draft.new) kind) }
{
    let refuser = Refuser::Member(member);
    let shapes = read_untaken(alloc, draft, env, nodes)?;
    let Some(rule) = refused_rule(alloc, draft, refuser, &shapes)? else {
        return Err(OrMemory::Fault(NotYet));
    };
    let count = count_shapes(&shapes)?;
    let values = sum(count, 1)?;
    let ending = broken_ending(rule, place, member.of, values);
    set_value(draft, set_word, ending, place)
}

/// The same with arguments, these, that it takes.
fn set_taken<'a>(
    alloc: Global,
    draft: &mut Draft,
    env: Env<'a>,
    set_word: Place,
    member: HostMember,
    place: Place,
    nodes: &'a [ExpressionNode],
    shapes: &[Shape<'a>],
) -> Result<ActionKind, OrMemory<NotYet>>
    requires env { EnvStands env }
    requires named { member.name < length (draft_view draft.old).tables.constants }
    requires one { AddsOne nodes.now }
    ensures { IfOk result (λ kind. SetsTaken (env_view env.entry) set_word place member nodes.now (draft_view draft.old) (draft_view draft.new) kind) }
{
    let aim = LateUse::Reading;
    let opened = open_member(
        alloc,
        draft,
        place,
        member,
        shapes,
        aim,
        env.has_class,
        false,
    )?;
    let call = read_member(alloc, draft, env, opened, nodes)?;
    match close_member(draft, call)? {
        Term::Value(ending) => set_value(draft, set_word, ending, place),
        _ => Err(OrMemory::Fault(NotYet)),
    }
}

/// A member of the object that was pushed, without arguments, behind the reference that it is set to.
fn set_bare_member(
    alloc: Global,
    draft: &mut Draft,
    set_word: Place,
    member: HostMember,
    place: Place,
) -> Result<ActionKind, OrMemory<NotYet>>
    requires { member.name < length (draft_view draft.old).tables.constants }
    ensures { IfOk result (λ kind. SetsMember set_word place member (draft_view draft.old) (draft_view draft.new) kind) }
{
    if member.is_late {
        return Ok(set_late(alloc, draft, member, place)?);
    }
    set_member(alloc, draft, set_word, member, place)
}

/// A member of the active sheet, without arguments, behind the reference that it is set to.
fn set_sheet_member(
    alloc: Global,
    draft: &mut Draft,
    set_word: Place,
    member: HostMember,
    place: Place,
) -> Result<ActionKind, OrMemory<NotYet>>
    requires { member.name < length (draft_view draft.old).tables.constants }
    ensures { IfOk result (λ kind. SetsSheet set_word place member (draft_view draft.old) (draft_view draft.new) kind) }
{
    push_sheet(draft)?;
    set_bare_member(alloc, draft, set_word, member, place)
}

/// A member of the object that was pushed, which the run finds, behind the reference that it is set to with these arguments.
fn set_late_given<'a>(
    alloc: Global,
    draft: &mut Draft,
    env: Env<'a>,
    member: HostMember,
    place: Place,
    nodes: &'a [ExpressionNode],
) -> Result<ActionKind, OrMemory<NotYet>>
    requires env { EnvStands env }
    requires named { member.name < length (draft_view draft.old).tables.constants }
    ensures { IfOk result (λ kind. SetsGiven (env_view env.entry) place member nodes.now (draft_view draft.old) (draft_view draft.new) kind) }
{
    let shapes = shapes_ahead(alloc, nodes)?;
    let aim = LateUse::Setting;
    let opened = open_member(
        alloc,
        draft,
        place,
        member,
        &shapes,
        aim,
        env.has_class,
        false,
    )?;
    let call = read_member(alloc, draft, env, opened, nodes)?;
    set_call(draft, call)
}

/// An expression that doesn't end with arguments in brackets, behind the reference that it is given.
fn set_bare<'a>(
    alloc: Global,
    draft: &mut Draft,
    env: Env<'a>,
    set_word: Place,
    place: &'a Expression,
) -> Result<ActionKind, OrMemory<NotYet>>
    requires env { EnvStands env }
    requires bare { IsBare (expression_view place.now) }
    ensures { IfOk result (λ kind. SetsTo set_word (env_view env.entry) (expression_view place.now) (draft_view draft.old) (draft_view draft.new) kind) }
{
    let tree = tree_of(alloc, draft, env, place)?;
    if is_sub(tree.term) {
        return refuse_target(draft, tree.term, tree.place);
    }
    if let Some(setter) = setter_of(env.constants.scope, tree.term) {
        return let_bare(alloc, draft, env, setter, tree.place, true);
    }
    if let Some((receiver, of)) = property_type(env, tree.term)? {
        return set_property(draft, set_word, receiver, of, tree.place);
    }
    match tree.term {
        Term::Routine(routine) => set_routine(alloc, draft, set_word, routine, tree.place),
        Term::HostMember(member) => set_bare_member(alloc, draft, set_word, member, tree.place),
        Term::SheetMember(member) => set_sheet_member(alloc, draft, set_word, member, tree.place),
        _ => set_term(alloc, draft, set_word, tree.term, tree.place),
    }
}

/// A member of an object with arguments, behind the reference that it is given. The arguments of one of the host whose object
/// is known in the run alone aren't pushed.
fn set_item<'a>(
    alloc: Global,
    draft: &mut Draft,
    env: Env<'a>,
    set_word: Place,
    place: Place,
    term: Term<'a>,
    nodes: &'a [ExpressionNode],
) -> Result<ActionKind, OrMemory<NotYet>>
    requires env { EnvStands env }
    requires named { TermNamed (draft_view draft.old).tables term }
    requires one { AddsOne nodes.now }
    ensures { IfOk result (λ kind. SetsItem (env_view env.entry) set_word place term.entry nodes.now (draft_view draft.old) (draft_view draft.new) kind) }
{
    let member = item_member(alloc, draft, env, place, term)?;
    if member.is_late {
        return set_late_given(alloc, draft, env, member, place, nodes);
    }
    if is_late(member.greatest) {
        return set_member(alloc, draft, set_word, member, place);
    }
    let shapes = shapes_ahead(alloc, nodes)?;
    if member_takes(draft, member, &shapes)? {
        return set_taken(alloc, draft, env, set_word, member, place, nodes, &shapes);
    }
    set_refused(alloc, draft, env, set_word, member, place, nodes)
}

/// What arguments in brackets make of what stands before them, where that is no member, behind the reference that it is given;
/// but of a property itself, which has no Set.
fn set_indexed<'a>(
    alloc: Global,
    draft: &mut Draft,
    env: Env<'a>,
    set_word: Place,
    before: Before<'a>,
    split: Split<'a>,
) -> Result<ActionKind, OrMemory<NotYet>>
    requires env { EnvStands env }
    requires tree { TermNamed (draft_view draft.old).tables before.tree.term }
    requires keeps { KeepsItem env.has_class (draft_view draft.old).tables before.term }
    requires one { AddsOne split.arguments.now }
    ensures { IfOk result (λ kind. SetsIndexedTerm (env_view env.entry) set_word before.entry split.entry (draft_view draft.old) (draft_view draft.new) kind) }
{
    let Before { tree, term } = before;
    if let Some((receiver, of)) = property_type(env, term)? {
        return set_property(draft, set_word, receiver, of, tree.place);
    }
    let more = continue_tree(alloc, draft, env, tree, split.closed)?;
    set_term(alloc, draft, set_word, more.term, more.place)
}

/// What stands before arguments in brackets at the end of an expression, behind the reference that this is set to.
fn set_behind<'a>(
    alloc: Global,
    draft: &mut Draft,
    env: Env<'a>,
    set_word: Place,
    before: Before<'a>,
    split: Split<'a>,
) -> Result<ActionKind, OrMemory<NotYet>>
    requires env { EnvStands env }
    requires tree { TermNamed (draft_view draft.old).tables before.tree.term }
    requires named { TermNamed (draft_view draft.old).tables before.term }
    requires one { AddsOne split.arguments.now }
    ensures { IfOk result (λ kind. SetsBehind (env_view env.entry) set_word before.entry split.entry (draft_view draft.old) (draft_view draft.new) kind) }
{
    let Before { tree, term } = before;
    let nodes = split.arguments;
    if let Some(setter) = setter_of(env.constants.scope, term) {
        return let_given(alloc, draft, env, setter, tree.place, nodes, true);
    }
    if takes_item(env.has_class, draft, term) {
        return set_item(alloc, draft, env, set_word, tree.place, term, nodes);
    }
    if let Some(class) = term_class(term) {
        return give_led(alloc, draft, env, tree, term, class, true, nodes);
    }
    if let Some(ending) = late_value(env.has_class, draft, term) {
        let numbers = lead_from(alloc, draft, env, ending, tree.place, nodes)?;
        return Ok(ActionKind::SetElement { numbers });
    }
    set_indexed(alloc, draft, env, set_word, before, split)
}

/// An expression with arguments in brackets at its end, behind the reference that it is given.
fn set_split<'a>(
    alloc: Global,
    draft: &mut Draft,
    env: Env<'a>,
    set_word: Place,
    nodes: &'a [ExpressionNode],
    split: Split<'a>,
) -> Result<ActionKind, OrMemory<NotYet>>
    requires env { EnvStands env }
    requires split { SplitAt split nodes.now }
    ensures { IfOk result (λ kind. SetsTo set_word (env_view env.entry) (tree_in nodes.now) (draft_view draft.old) (draft_view draft.new) kind) }
{
    if !adds_one(split.arguments) {
        return Err(OrMemory::NoMemory);
    }
    let tree = nodes_tree(alloc, draft, env, split.target)?;
    let term = callee_term(alloc, draft, env, tree)?;
    if is_sub(term) {
        return refuse_target(draft, term, tree.place);
    }
    let before = target_before(alloc, draft, Before { tree, term }, split.arguments)?;
    set_behind(alloc, draft, env, set_word, before, split)
}

/// What is done with a reference that was pushed, where an expression is set to it.
fn set_to<'a>(
    alloc: Global,
    draft: &mut Draft,
    env: Env<'a>,
    set_word: Place,
    place: &'a Expression,
) -> Result<ActionKind, OrMemory<NotYet>>
    requires { EnvStands env }
    ensures { IfOk result (λ kind. SetsTo set_word (env_view env.entry) (expression_view place.now) (draft_view draft.old) (draft_view draft.new) kind) }
{
    let nodes = place.nodes();
    if ends_bare(nodes) {
        return set_bare(alloc, draft, env, set_word, place);
    }
    match split_call(nodes) {
        Some(split) => set_split(alloc, draft, env, set_word, nodes, split),
        None => Err(OrMemory::Fault(NotYet)),
    }
}

/// `Set place = value`
pub fn bind_set<'a>(
    alloc: Global,
    draft: &mut Draft,
    env: Env<'a>,
    set_word: Place,
    place: &'a Expression,
    value: &'a Expression,
) -> Result<Option<ActionKind>, OrMemory<NotYet>>
    requires env { EnvStands env }
    requires empty { (draft_view draft.old).pieces ≡ [] }
    ensures { IfOk result (λ kind. ActionStands kind
        (option_and_then (targets.set_given (env_view env.entry) set_word (expression_view place.now)) (bound_as_given (env_view env.entry) (expression_view value.now)))
        (draft_view draft.old) (draft_view draft.new)) }
{
    let of = bind_given(alloc, draft, env, value)?;
    if !may_be_object(of) {
        push_broken(draft, set_word, 1)?;
        return Ok(Some(ActionKind::Evaluate));
    }
    let kind = set_to(alloc, draft, env, set_word, place)?;
    Ok(Some(kind))
}

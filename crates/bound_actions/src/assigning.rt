//! What the value of an assignment goes to.

ghost use Rattle.std.specs.Prelude.{◌≡◌, ◌||◌, Bool, false, Option, [], IfOk, IfSome, map};
ghost use Rattle.vba_expression.specs.View.{view as expression_view};
ghost use Rattle.vba_expression.specs.Nodes.{tree_in};
ghost use Rattle.bound_project.specs.DraftView.{draft_view};
ghost use Rattle.bound_project.specs.View.{declared_view, parameter_view};
ghost use Rattle.statement_terms.specs.Called.{AssignsTo, IsBare, Lets, LetsOn, LetsTaken, LetsWith, SplitAt, is_method};
ghost use Rattle.declared_names.specs.binder.specs.Types as types;
ghost use Rattle.statement_terms.specs.Heights.{AddsOne};
ghost use Rattle.bound_actions.specs.Behind.{AssignsBehind};
ghost use Rattle.bound_actions.specs.Assigning.{AssignsItemOf, AssignsOther, GivesProperty, ItemGiven, part_for};
ghost use Rattle.bound_terms.specs.bound_accesses.specs.bound_names.specs.bound_members.specs.bound_calls.specs.Standing.{TermNamed};
ghost use Rattle.bound_terms.specs.bound_accesses.specs.bound_names.specs.Callee.{IsWriter};
ghost use Rattle.bound_terms.specs.bound_accesses.specs.bound_names.specs.View.{EnvStands, env_view};
ghost use Rattle.declared_names.specs.View.{scope_view};

use crate::class_items::{give_led, term_class};
use crate::late_items::lead_from;
use crate::member_targets::assign_item;
use crate::no_targets::{
    break_procedure, has_let, is_no_target, is_sub, is_sub_kind, refuse_target,
};
use crate::property_targets::{Before, target_before};
use crate::statement_calls::read_named;
use crate::trees::{continue_tree, nodes_tree};
use crate::untaken::refuse_arguments;
use bound_project::{ActionKind, DeclaredType, Draft, Parameter};
use bound_terms::bound_accesses::bound_names::bound_members::bound_calls::bound_declarations::{
    NotYet, procedure_number,
};
use bound_terms::bound_accesses::bound_names::bound_members::bound_calls::{
    Routine, Term, Tree, called_ending, count_of, pass_rest, push_in_order, push_object,
    push_receiver, sum, takes, takes_none, values_of,
};
use bound_terms::bound_accesses::bound_names::bound_members::shapes_ahead;
use bound_terms::bound_accesses::bound_names::{Env, Writer, callee_term, writer_of};
use bound_terms::bound_accesses::{lacks_item, takes_item};
use bound_terms::tree_of;
use declared_names::is_object;
use statement_terms::{
    Assignment, PropertyLet, Split, adds_one, as_given, as_operand, assign_indexed, assign_tree,
    assign_value, ends_bare, is_indexed_late, late_value, ordered_kind, property_kind, push_rest,
    split_call,
};
use std::alloc::Global;
use vba_base::{OrMemory, Place};
use vba_expression::{Expression, ExpressionNode};

/// An assignment to a property whose arguments, for these parameters, are pushed behind its object, where it has one.
fn let_taken<'a>(
    alloc: Global,
    draft: &mut Draft,
    env: Env<'a>,
    property: PropertyLet,
    front: &'a [Parameter],
    nodes: &'a [ExpressionNode],
) -> Result<ActionKind, OrMemory<NotYet>>
    requires { EnvStands env }
    ensures { IfOk result (λ kind. LetsTaken (env_view env.entry) (map parameter_view front.now) (is_method property.receiver) property.is_itself property.procedure property.of nodes.now (draft_view draft.old) (draft_view draft.new) kind) }
{
    let (passed, named) = read_named(alloc, draft, env, front, nodes)?;
    if named.is_empty() {
        let (_written, arguments) = push_rest(alloc, draft, passed)?;
        return Ok(property_kind(property, arguments));
    }
    let ordered = push_in_order(alloc, draft, front, passed, named)?;
    Ok(ordered_kind(property, ordered))
}

/// A property that doesn't take its arguments, behind the value that it is given.
fn let_refused<'a>(
    alloc: Global,
    draft: &mut Draft,
    env: Env<'a>,
    property: PropertyLet,
    front: &'a [Parameter],
    place: Place,
    nodes: &'a [ExpressionNode],
) -> Result<ActionKind, OrMemory<NotYet>>
    requires { EnvStands env }
    ensures { IfOk result (λ kind. LetsWith (env_view env.entry) place (map parameter_view front.now) property nodes.now (draft_view draft.old) (draft_view draft.new) kind) }
{
    push_object(draft, property.receiver)?;
    let before = sum(values_of(property.receiver), 1)?;
    refuse_arguments(alloc, draft, env, front, before, place, nodes)
}

/// An assignment to a property whose object, where it has one, and whose arguments, for these parameters, are pushed.
fn let_passed<'a>(
    alloc: Global,
    draft: &mut Draft,
    env: Env<'a>,
    property: PropertyLet,
    front: &'a [Parameter],
    place: Place,
    nodes: &'a [ExpressionNode],
) -> Result<ActionKind, OrMemory<NotYet>>
    requires { EnvStands env }
    ensures { IfOk result (λ kind. LetsWith (env_view env.entry) place (map parameter_view front.now) property nodes.now (draft_view draft.old) (draft_view draft.new) kind) }
{
    let shapes = shapes_ahead(alloc, nodes)?;
    let is_taken = takes(alloc, front, &shapes)?;
    if !is_taken {
        return let_refused(alloc, draft, env, property, front, place, nodes);
    }
    push_receiver(draft, property.receiver)?;
    let_taken(alloc, draft, env, property, front, nodes)
}

/// Is a property given the object itself?
fn is_itself(sets: bool, of: DeclaredType) -> bool
    ensures { result ≡ (sets || types.is_object (declared_view of)) }
{
    sets || is_object(of)
}

/// A property that is given a value, or by Set an object, and the parameters of its other arguments.
pub fn property_given<'a>(
    env: Env<'a>,
    writer: Writer<'a>,
    sets: bool,
) -> Result<(PropertyLet, &'a [Parameter]), OrMemory<NotYet>>
    requires env { EnvStands env }
    requires writer { IsWriter (part_for sets) (scope_view env.constants.scope) writer }
    ensures { IfOk result (λ given. GivesProperty (env_view env.entry) sets writer.entry given.0 given.1.now) }
{
    let scope = env.constants.scope;
    let procedure = procedure_number(scope, writer.property.space, writer.number)?;
    let parameters = env
        .signatures
        .parameters(scope, writer.property.space, writer.number)?;
    let Some((last, front)) = parameters.split_last() else {
        return Err(OrMemory::Fault(NotYet));
    };
    let property = PropertyLet {
        receiver: writer.property.receiver,
        procedure,
        of: last.of,
        is_itself: is_itself(sets, last.of),
    };
    Ok((property, front))
}

/// `property = value`, or Set of it
pub fn let_bare<'a>(
    alloc: Global,
    draft: &mut Draft,
    env: Env<'a>,
    writer: Writer<'a>,
    place: Place,
    sets: bool,
) -> Result<ActionKind, OrMemory<NotYet>>
    requires env { EnvStands env }
    requires writer { IsWriter (part_for sets) (scope_view env.constants.scope) writer }
    ensures { IfOk result (λ kind. Lets sets (env_view env.entry) writer.entry.property place [] (draft_view draft.old) (draft_view draft.new) kind) }
{
    let (property, front) = property_given(env, writer, sets)?;
    if !takes_none(front) {
        return break_procedure(draft, property.receiver, 25, place);
    }
    push_receiver(draft, property.receiver)?;
    let arguments = count_of(front)?;
    pass_rest(alloc, draft, front)?;
    Ok(property_kind(property, arguments))
}

/// `property(arguments) = value`, or Set of it
pub fn let_given<'a>(
    alloc: Global,
    draft: &mut Draft,
    env: Env<'a>,
    writer: Writer<'a>,
    place: Place,
    nodes: &'a [ExpressionNode],
    sets: bool,
) -> Result<ActionKind, OrMemory<NotYet>>
    requires env { EnvStands env }
    requires writer { IsWriter (part_for sets) (scope_view env.constants.scope) writer }
    ensures { IfOk result (λ kind. LetsOn sets (env_view env.entry) writer.entry.property place nodes.now (draft_view draft.old) (draft_view draft.new) kind) }
{
    let (property, front) = property_given(env, writer, sets)?;
    let_passed(alloc, draft, env, property, front, place, nodes)
}

/// A procedure that has no Let, behind the value that it is given: a Sub breaks a rule, and of another one it goes to what that
/// gives.
fn assign_routine<'a>(
    alloc: Global,
    draft: &mut Draft,
    tree: Tree<'a>,
    routine: Routine<'a>,
    has_class: bool,
) -> Result<ActionKind, OrMemory<NotYet>>
    requires { tree.term ≡ Term.Routine routine }
    ensures { IfOk result (λ kind. (may : Option Bool) → AssignsOther has_class may tree.entry (draft_view draft.old) (draft_view draft.new) kind false) }
{
    if is_sub_kind(routine.written.header.words) {
        return break_procedure(draft, routine.receiver, 27, tree.place);
    }
    let ending = called_ending(alloc, draft, routine, tree.place)?;
    assign_value(draft, ending, tree.place, has_class, tree.declared)
}

/// What has no Let and no arguments, behind the value that it is given, which may be an object of a class or not. A property
/// that gives nothing either can't be assigned to.
fn assign_other<'a>(
    alloc: Global,
    draft: &mut Draft,
    tree: Tree<'a>,
    has_class: bool,
    may_be: Option<bool>,
) -> Result<Assignment, OrMemory<NotYet>>
    requires { TermNamed (draft_view draft.old).tables tree.term }
    ensures { IfOk result (λ done. AssignsOther has_class may_be tree.entry (draft_view draft.old) (draft_view draft.new) done.kind done.is_given) }
{
    match tree.term {
        Term::Routine(routine) => {
            let kind = assign_routine(alloc, draft, tree, routine, has_class)?;
            Ok(as_operand(kind))
        }
        Term::Property(property) => {
            let kind = break_procedure(draft, property.receiver, 27, tree.place)?;
            Ok(as_operand(kind))
        }
        _ => assign_tree(alloc, draft, tree, has_class, may_be),
    }
}

/// A place that doesn't end with arguments in brackets, behind the value that it is given, which may be an object of a class
/// or not.
fn assign_bare<'a>(
    alloc: Global,
    draft: &mut Draft,
    env: Env<'a>,
    place: &'a Expression,
    may_be: Option<bool>,
) -> Result<Assignment, OrMemory<NotYet>>
    requires env { EnvStands env }
    requires bare { IsBare (expression_view place.now) }
    ensures { IfOk result (λ done. AssignsTo (env_view env.entry) may_be (expression_view place.now) (draft_view draft.old) (draft_view draft.new) done.kind done.is_given) }
{
    let tree = tree_of(alloc, draft, env, place)?;
    if is_no_target(env, tree) {
        let kind = refuse_target(draft, tree.term, tree.place)?;
        return Ok(Assignment {
            kind,
            is_given: has_let(env, tree.term),
        });
    }
    match writer_of(env.constants.scope, tree.term) {
        Some(writer) => {
            let kind = let_bare(alloc, draft, env, writer, tree.place, false)?;
            Ok(as_given(kind))
        }
        None => assign_other(alloc, draft, tree, env.has_class, may_be),
    }
}

/// Does the value come as it is that is assigned to what brackets make of a term? It does where the run says what they lead
/// to, and for an object that has no default member with arguments. None where that isn't known.
fn is_item_given<'a>(has_class: bool, draft: &Draft, term: Term<'a>) -> Option<bool>
    ensures { IfSome result (λ given. ItemGiven has_class (draft_view draft.now).tables term.entry given) }
{
    if lacks_item(term) {
        return Some(true);
    }
    is_indexed_late(has_class, draft, term)
}

/// What brackets make of a term that has no Let and is no member of an object, behind the value that it is given; the tree
/// goes on with these nodes.
fn assign_item_of<'a>(
    alloc: Global,
    draft: &mut Draft,
    env: Env<'a>,
    tree: Tree<'a>,
    term: Term<'a>,
    split: Split<'a>,
) -> Result<Assignment, OrMemory<NotYet>>
    requires env { EnvStands env }
    requires named { TermNamed (draft_view draft.old).tables tree.term }
    ensures { IfOk result (λ done. AssignsItemOf env.entry.has_class (env_view env.entry) tree.entry term.entry split.entry.closed.now (draft_view draft.old) (draft_view draft.new) done.kind done.is_given) }
{
    let Some(is_given) = is_item_given(env.has_class, draft, term) else {
        return Err(OrMemory::Fault(NotYet));
    };
    let more = continue_tree(alloc, draft, env, tree, split.closed)?;
    let kind = assign_indexed(draft, more.term, more.place, env.has_class, more.declared)?;
    Ok(Assignment { kind, is_given })
}

/// What stands before arguments in brackets at the end of a place, by its term as it is called, behind the value that it is
/// given, which may be an object of a class or not.
fn assign_behind<'a>(
    alloc: Global,
    draft: &mut Draft,
    env: Env<'a>,
    before: Before<'a>,
    split: Split<'a>,
    may_be: Option<bool>,
) -> Result<Assignment, OrMemory<NotYet>>
    requires env { EnvStands env }
    requires tree { TermNamed (draft_view draft.old).tables before.tree.term }
    requires named { TermNamed (draft_view draft.old).tables before.term }
    requires one { AddsOne split.arguments.now }
    ensures { IfOk result (λ done. AssignsBehind (env_view env.entry) may_be before.entry split.entry (draft_view draft.old) (draft_view draft.new) done.kind done.is_given) }
{
    let Before { tree, term } = before;
    if let Some(writer) = writer_of(env.constants.scope, term) {
        let kind = let_given(
            alloc,
            draft,
            env,
            writer,
            tree.place,
            split.arguments,
            false,
        )?;
        return Ok(as_given(kind));
    }
    if takes_item(env.has_class, draft, term) {
        let kind = assign_item(alloc, draft, env, tree.place, term, split.arguments, may_be)?;
        return Ok(as_given(kind));
    }
    if let Some(class) = term_class(term) {
        let led = give_led(alloc, draft, env, tree, term, class, false, split.arguments)?;
        return Ok(as_given(led));
    }
    if let Some(ending) = late_value(env.has_class, draft, term) {
        let numbers = lead_from(alloc, draft, env, ending, tree.place, split.arguments)?;
        return Ok(as_given(ActionKind::AssignElement { numbers }));
    }
    assign_item_of(alloc, draft, env, tree, term, split)
}

/// A place with arguments in brackets at its end, behind the value that it is given, which may be an object of a class or not.
fn assign_split<'a>(
    alloc: Global,
    draft: &mut Draft,
    env: Env<'a>,
    nodes: &'a [ExpressionNode],
    split: Split<'a>,
    may_be: Option<bool>,
) -> Result<Assignment, OrMemory<NotYet>>
    requires env { EnvStands env }
    requires split { SplitAt split nodes.now }
    ensures { IfOk result (λ done. AssignsTo (env_view env.entry) may_be (tree_in nodes.now) (draft_view draft.old) (draft_view draft.new) done.kind done.is_given) }
{
    if !adds_one(split.arguments) {
        return Err(OrMemory::NoMemory);
    }
    let tree = nodes_tree(alloc, draft, env, split.target)?;
    let term = callee_term(alloc, draft, env, tree)?;
    if is_sub(term) {
        let kind = refuse_target(draft, term, tree.place)?;
        return Ok(Assignment {
            kind,
            is_given: has_let(env, term),
        });
    }
    let before = target_before(alloc, draft, Before { tree, term }, split.arguments)?;
    assign_behind(alloc, draft, env, before, split, may_be)
}

/// What is done with a value that was pushed, which may be an object of a class or not, where it is assigned to an expression.
pub fn assign_to<'a>(
    alloc: Global,
    draft: &mut Draft,
    env: Env<'a>,
    place: &'a Expression,
    may_be: Option<bool>,
) -> Result<Assignment, OrMemory<NotYet>>
    requires { EnvStands env }
    ensures { IfOk result (λ done. AssignsTo (env_view env.entry) may_be (expression_view place.now) (draft_view draft.old) (draft_view draft.new) done.kind done.is_given) }
{
    let nodes = place.nodes();
    if ends_bare(nodes) {
        return assign_bare(alloc, draft, env, place, may_be);
    }
    match split_call(nodes) {
        Some(split) => assign_split(alloc, draft, env, nodes, split, may_be),
        None => Err(OrMemory::Fault(NotYet)),
    }
}

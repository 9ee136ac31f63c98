//! What arguments in brackets behind an object of a class lead to, where it is assigned to or set.

ghost use Rattle.std.specs.Prelude.{◌≡◌, ℕ, IfOk, List, Some};
ghost use Rattle.bound_project.specs.DraftView.{draft_view};
ghost use Rattle.bound_project.specs.View.{declarations_view};
ghost use Rattle.statement_terms.specs.Heights.{AddsOne};
ghost use Rattle.bound_actions.specs.ClassItems.{BeginsAt, GivesKnown, GivesLed, LeadsOn, RefusesLed, element_kind, led_count, led_known, term_class};
ghost use Rattle.bound_terms.specs.bound_accesses.specs.bound_names.specs.bound_members.specs.bound_calls.specs.bound_forms.specs.Terms.{Given};
ghost use Rattle.bound_terms.specs.bound_accesses.specs.bound_names.specs.bound_members.specs.bound_calls.specs.class_defaults.specs.Known.{known_view};
ghost use Rattle.bound_terms.specs.bound_accesses.specs.bound_names.specs.bound_members.specs.bound_calls.specs.class_defaults.specs.Items.{ArePlain};
ghost use Rattle.bound_terms.specs.bound_accesses.specs.bound_names.specs.bound_members.specs.bound_calls.specs.Standing.{TermNamed};
ghost use Rattle.bound_terms.specs.bound_accesses.specs.bound_names.specs.View.{EnvStands, env_view};

use crate::late_items::read_indexed;
use crate::untaken::read_untaken;
use bound_project::{ActionKind, Declarations, Draft};
use bound_terms::bound_accesses::bound_names::Env;
use bound_terms::bound_accesses::bound_names::bound_members::bound_calls::bound_declarations::{
    NotYet, class_in,
};
use bound_terms::bound_accesses::bound_names::bound_members::bound_calls::{
    Ending, Indexed, Item, Known, Target, Term, Tree, class_let, class_set, given_ending, push_node,
};
use bound_terms::bound_accesses::bound_names::bound_members::shapes_ahead;
use bound_terms::bound_operands::{are_places, count_shapes, led_as_place, open_led_place};
use statement_terms::write_broken;
use std::alloc::Global;
use vba_base::{OrMemory, Place};
use vba_expression::ExpressionNode;

/// The class that a term is declared as of.
pub fn term_class<'a>(term: Term<'a>) -> Option<u32>
    ensures { result ≡ term_class term.entry }
{
    match term {
        Term::Place { of, .. } => class_in(of),
        Term::Value(ending) => class_in(ending.of),
        _ => None,
    }
}

/// For how many arguments it is known what they lead to from a place.
fn led_count(target: Target) -> Option<u32>
    ensures { result ≡ led_count target }
{
    match target {
        Target::PlaceLed(count) => Some(count),
        Target::LedAsPlace(count) => Some(count),
        _ => None,
    }
}

/// A place of a class is pushed, from which so many arguments lead on.
fn begin_place<'a>(
    draft: &mut Draft,
    env: Env<'a>,
    tree: Tree<'a>,
    at: Ending,
    lends: bool,
    makes: bool,
    class: u32,
    count: u32,
) -> Result<Indexed, OrMemory<NotYet>>
    requires env { EnvStands env }
    requires named { TermNamed (draft_view draft.old).tables (Term.Value at) }
    requires class { term_class (Term.Value at) ≡ Some class }
    ensures { IfOk result (λ indexed. (bounds : ℕ) → BeginsAt (env_view env.entry) tree.entry.place (Term.Place at.kind at.of bounds lends makes) (draft_view draft.old) (draft_view draft.new) indexed) }
{
    let item = open_led_place(draft, env.declared, tree, at, lends, makes, class, count)?;
    let Item::Indexed(indexed) = item else {
        return Err(OrMemory::Fault(NotYet));
    };
    Ok(indexed)
}

/// An object of a class is pushed as a place, from which so many arguments lead on.
fn begin_led<'a>(
    draft: &mut Draft,
    env: Env<'a>,
    tree: Tree<'a>,
    term: Term<'a>,
    class: u32,
    count: u32,
) -> Result<Indexed, OrMemory<NotYet>>
    requires env { EnvStands env }
    requires named { TermNamed (draft_view draft.old).tables term }
    requires class { term_class term ≡ Some class }
    ensures { IfOk result (λ indexed. BeginsAt (env_view env.entry) tree.entry.place term.entry (draft_view draft.old) (draft_view draft.new) indexed) }
{
    match term {
        Term::Place {
            kind,
            of,
            lends,
            makes,
            ..
        } => begin_place(
            draft,
            env,
            tree,
            Ending { kind, of },
            lends,
            makes,
            class,
            count,
        ),
        Term::Value(ending) => led_as_place(draft, env.declared, ending, class, tree.place, count),
        _ => Err(OrMemory::Fault(NotYet)),
    }
}

/// The arguments are pushed, so many, that lead on from an object of a class, which is pushed as a place before them.
fn lead_on<'a>(
    alloc: Global,
    draft: &mut Draft,
    env: Env<'a>,
    tree: Tree<'a>,
    term: Term<'a>,
    class: u32,
    count: u32,
    nodes: &'a [ExpressionNode],
) -> Result<u32, OrMemory<NotYet>>
    requires env { EnvStands env }
    requires named { TermNamed (draft_view draft.old).tables term }
    requires class { term_class term ≡ Some class }
    requires one { AddsOne nodes.now }
    ensures { IfOk result (λ numbers. LeadsOn (env_view env.entry) tree.entry.place term.entry nodes.now (draft_view draft.old) (draft_view draft.new) numbers) }
{
    let indexed = begin_led(draft, env, tree, term, class, count)?;
    let more = read_indexed(alloc, draft, env, indexed, nodes)?;
    let Some(known) = led_count(more.target) else {
        return Err(OrMemory::Fault(NotYet));
    };
    let numbers = more.count;
    if numbers == 0 {
        return Err(OrMemory::Fault(NotYet));
    }
    if numbers != known {
        return Err(OrMemory::Fault(NotYet));
    }
    Ok(numbers)
}

/// An object of a class, behind the value or the reference that it is given, with so many arguments that break a rule.
fn refuse_led<'a>(
    alloc: Global,
    draft: &mut Draft,
    env: Env<'a>,
    place: Place,
    term: Term<'a>,
    rule: u8,
    count: u32,
    nodes: &'a [ExpressionNode],
) -> Result<ActionKind, OrMemory<NotYet>>
    requires env { EnvStands env }
    requires named { TermNamed (draft_view draft.old).tables term }
    ensures { IfOk result (λ kind. RefusesLed (env_view env.entry) place term.entry rule count nodes.now (draft_view draft.old) (draft_view draft.new) kind) }
{
    let ending = given_ending(alloc, draft, term, place)?;
    push_node(draft, ending.kind, ending.of, place)?;
    let shapes = read_untaken(alloc, draft, env, nodes)?;
    let long = count_shapes(&shapes)?;
    if !are_places(&shapes) {
        return Err(OrMemory::Fault(NotYet));
    }
    if long != count {
        return Err(OrMemory::Fault(NotYet));
    }
    write_broken(draft, rule, long, place)
}

/// What is known of so many arguments behind an object of a class: that what they lead to takes a value, or an object.
fn led_known(declared: &Declarations, class: u32, count: u32, sets: bool) -> Known
    ensures { (gs : List Given) → ArePlain count gs → led_known sets (declarations_view declared.now) class gs ≡ known_view result }
{
    if sets {
        return class_set(declared, class, count);
    }
    class_let(declared, class, count)
}

/// What is done with an element, or an item, that is assigned to or set.
fn element_kind(sets: bool, numbers: u32) -> ActionKind
    ensures { result ≡ element_kind sets numbers }
{
    if sets {
        ActionKind::SetElement { numbers }
    } else {
        ActionKind::AssignElement { numbers }
    }
}

/// What so many arguments behind an object of a class lead to, where that is known, behind the value or the reference that it
/// is given.
fn give_known<'a>(
    alloc: Global,
    draft: &mut Draft,
    env: Env<'a>,
    tree: Tree<'a>,
    term: Term<'a>,
    class: u32,
    count: u32,
    sets: bool,
    nodes: &'a [ExpressionNode],
) -> Result<ActionKind, OrMemory<NotYet>>
    requires env { EnvStands env }
    requires named { TermNamed (draft_view draft.old).tables term }
    requires class { term_class term ≡ Some class }
    requires one { AddsOne nodes.now }
    ensures { IfOk result (λ kind. GivesKnown sets (env_view env.entry) tree.entry.place term.entry count nodes.now (draft_view draft.old) (draft_view draft.new) kind) }
{
    let numbers = lead_on(alloc, draft, env, tree, term, class, count, nodes)?;
    if numbers != count {
        return Err(OrMemory::Fault(NotYet));
    }
    Ok(element_kind(sets, numbers))
}

/// What arguments behind an object of a class lead to, behind the value or the reference that it is given.
pub fn give_led<'a>(
    alloc: Global,
    draft: &mut Draft,
    env: Env<'a>,
    tree: Tree<'a>,
    term: Term<'a>,
    class: u32,
    sets: bool,
    nodes: &'a [ExpressionNode],
) -> Result<ActionKind, OrMemory<NotYet>>
    requires env { EnvStands env }
    requires named { TermNamed (draft_view draft.old).tables term }
    requires class { term_class term ≡ Some class }
    requires one { AddsOne nodes.now }
    ensures { IfOk result (λ kind. GivesLed sets (env_view env.entry) tree.entry.place term.entry class nodes.now (draft_view draft.old) (draft_view draft.new) kind) }
{
    let shapes = shapes_ahead(alloc, nodes)?;
    let count = count_shapes(&shapes)?;
    match led_known(env.declared, class, count, sets) {
        Known::Type(_of) => give_known(alloc, draft, env, tree, term, class, count, sets, nodes),
        Known::Breaks(rule) => refuse_led(alloc, draft, env, tree.place, term, rule, count, nodes),
        Known::NotSaid => Err(OrMemory::Fault(NotYet)),
    }
}

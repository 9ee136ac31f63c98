//! Arguments in brackets behind what is declared as of a class: they lead to what its default member says, or break a rule.

ghost use Rattle.std.specs.Prelude.{◌≡◌, ◌<◌, ℕ, Bool, IfOk, OnOk, Some};
ghost use Rattle.bound_project.specs.DraftView.{draft_view};
ghost use Rattle.bound_project.specs.Drafts.{NodeNamed};
ghost use Rattle.bound_project.specs.View.{declarations_view, declared_view};
ghost use Rattle.bound_members.specs.bound_calls.specs.bound_declarations.specs.constant_values.specs.declared_names.specs.binder.specs.Classes as classes;
ghost use Rattle.bound_members.specs.bound_calls.specs.bound_forms.specs.ClassDefaults.{declared_in};
ghost use Rattle.bound_members.specs.bound_calls.specs.bound_forms.specs.Terms as plain;
ghost use Rattle.bound_members.specs.bound_calls.specs.declared.term.Target.TheVariants as target_kind;
ghost use Rattle.bound_members.specs.bound_calls.specs.Indexing.{EndsIndexed, OpensTerm};
ghost use Rattle.bound_members.specs.bound_calls.specs.Standing.{TermNamed};
ghost use Rattle.bound_operands.specs.Indexing.{OpensBehind, is_led};
ghost use Rattle.bound_operands.specs.Leading.{BeginsLed, Leads, PushesLeading, PushesLed, PushesLedPlace, RefusesLed, gives_class};

use crate::functions::{Taking, push_marked};
use bound_members::bound_calls::bound_declarations::NotYet;
use bound_members::bound_calls::{
    Ending, Indexed, Item, Known, Refuser, Target, Term, Tree, Untaken, class_led, is_of_class,
    push_node, read_kind,
};
use bound_project::{Declarations, DeclaredType, Draft, ElementType, NodeKind};
use std::alloc::Global;
use vba_base::{OrMemory, Place};

/// May a term be declared as of a class, taken as it is?
fn gives_class<'a>(term: Term<'a>) -> bool
    ensures { result ≡ gives_class term.entry }
{
    match term {
        Term::Place { of, .. } => is_of_class(of),
        Term::Value(ending) => is_of_class(ending.of),
        Term::Routine(routine) => is_of_class(routine.of),
        Term::HostMember(member) => is_of_class(member.of),
        Term::SheetMember(member) => is_of_class(member.of),
        Term::Err => false,
        _ => true,
    }
}

/// Pushes an argument that leads on, as a Variant takes it. Of one that is declared as of a class nothing is built: a default
/// member may take that as it is.
pub fn push_leading<'a>(
    alloc: Global,
    draft: &mut Draft,
    tree: Tree<'a>,
) -> Result<(), OrMemory<NotYet>>
    requires { TermNamed (draft_view draft.old).tables tree.term }
    ensures { OnOk result (PushesLeading tree.entry (draft_view draft.old) (draft_view draft.new)) }
{
    if gives_class(tree.term) {
        return Err(OrMemory::Fault(NotYet));
    }
    push_marked(alloc, draft, Taking::ByDefault, tree)?;
    Ok(())
}

/// Do arguments lead on from what is indexed, by what the default member of a class says?
pub fn is_led(target: Target) -> bool
    ensures { result ≡ is_led target }
{
    match target {
        Target::PlaceLed(_) => true,
        Target::ValueLed(_) => true,
        Target::LedAsPlace(_) => true,
        _ => false,
    }
}

/// What so many arguments lead to from a place, where it is known of that many.
pub fn place_led<'a>(indexed: Indexed, count: u32) -> Result<Term<'a>, OrMemory<NotYet>>
    requires led { indexed.target ≡ target_kind.PlaceLed count }
    requires some { 0 < indexed.count }
    ensures { IfOk result (λ term. EndsIndexed indexed term) }
{
    let arguments = indexed.count;
    if arguments != count {
        return Err(OrMemory::Fault(NotYet));
    }
    Ok(Term::Place {
        kind: NodeKind::ElementAlong { arguments },
        of: indexed.of,
        bounds: 0,
        lends: indexed.lends,
        makes: indexed.makes,
    })
}

/// The same in a value.
pub fn value_led<'a>(indexed: Indexed, count: u32) -> Result<Term<'a>, OrMemory<NotYet>>
    requires led { indexed.target ≡ target_kind.ValueLed count }
    requires some { 0 < indexed.count }
    ensures { IfOk result (λ term. EndsIndexed indexed term) }
{
    let arguments = indexed.count;
    if arguments != count {
        return Err(OrMemory::Fault(NotYet));
    }
    Ok(Term::Value(Ending {
        kind: NodeKind::ItemAlong { arguments },
        of: indexed.of,
    }))
}

/// What so many arguments do behind an object of a class, which is or will be pushed: they are read for what they lead to,
/// or since they break a rule.
fn led_item<'a>(
    declared: &Declarations,
    class: u32,
    count: u32,
    place: Place,
) -> Result<Item<'a>, OrMemory<NotYet>>
    ensures { IfOk result (λ item. Leads (declarations_view declared.now) class count place item) }
{
    match class_led(declared, class, count) {
        Known::Type(of) => Ok(Item::Indexed(Indexed {
            place,
            target: Target::ValueLed(count),
            of,
            lends: false,
            makes: false,
            bounds: 0,
            count: 0,
        })),
        Known::Breaks(rule) => Ok(Item::Untaken(Untaken {
            place,
            refuser: Refuser::Led { rule, count },
        })),
        Known::NotSaid => Err(OrMemory::Fault(NotYet)),
    }
}

/// Pushes an object of a class that begins at a place, whose arguments in brackets, so many, are read from now on.
pub fn push_led<'a>(
    draft: &mut Draft,
    declared: &Declarations,
    ending: Ending,
    class: u32,
    place: Place,
    count: u32,
) -> Result<Item<'a>, OrMemory<NotYet>>
    requires named { NodeNamed (draft_view draft.old).tables ending.kind }
    requires class { classes.class_in (declared_view ending.of) ≡ Some class }
    ensures { IfOk result (λ item. PushesLed (declarations_view declared.now) class count ending place (draft_view draft.old) (draft_view draft.new) item) }
{
    let item = led_item(declared, class, count, place)?;
    push_node(draft, ending.kind, ending.of, place)?;
    Ok(item)
}

/// Pushes an object of a class that begins at a place as a place, from which so many arguments lead on to what is assigned to.
pub fn led_as_place(
    draft: &mut Draft,
    declared: &Declarations,
    ending: Ending,
    class: u32,
    place: Place,
    count: u32,
) -> Result<Indexed, OrMemory<NotYet>>
    requires named { NodeNamed (draft_view draft.old).tables ending.kind }
    requires class { classes.class_in (declared_view ending.of) ≡ Some class }
    ensures { IfOk result (λ indexed. PushesLedPlace (declarations_view declared.now) count ending place (draft_view draft.old) (draft_view draft.new) indexed) }
{
    let Known::Type(of) = class_led(declared, class, count) else {
        return Err(OrMemory::Fault(NotYet));
    };
    let variant = DeclaredType::Plain(ElementType::Variant);
    push_node(draft, ending.kind, ending.of, place)?;
    push_node(draft, NodeKind::PlaceOf, variant, place)?;
    Ok(Indexed {
        place,
        target: Target::LedAsPlace(count),
        of,
        lends: false,
        makes: false,
        bounds: 0,
        count: 0,
    })
}

/// A value of a class whose arguments in brackets, so many, are read from now on: behind it, or behind a property that gave
/// it.
pub fn open_led_value<'a>(
    draft: &mut Draft,
    declared: &Declarations,
    tree: Tree<'a>,
    ending: Ending,
    class: u32,
    count: u32,
) -> Result<Item<'a>, OrMemory<NotYet>>
    requires named { NodeNamed (draft_view draft.old).tables ending.kind }
    requires class { classes.class_in (declared_view ending.of) ≡ Some class }
    ensures { IfOk result (λ item. (of_property : Bool) (env : plain.Env) → declared_in env.scope ≡ declarations_view declared.now → OpensBehind of_property env tree.entry (Term.Value ending) (draft_view draft.old) (draft_view draft.new) item) }
{
    push_led(draft, declared, ending, class, tree.place, count)
}

/// A place of a class is pushed, from which so many arguments lead on.
fn begin_led(
    draft: &mut Draft,
    at: Ending,
    place: Place,
    lends: bool,
    makes: bool,
    count: u32,
    of: DeclaredType,
) -> Result<Indexed, OrMemory<NotYet>>
    requires { NodeNamed (draft_view draft.old).tables at.kind }
    ensures { IfOk result (λ indexed. BeginsLed at place lends makes count of (draft_view draft.old) (draft_view draft.new) indexed) }
{
    push_node(draft, at.kind, at.of, place)?;
    Ok(Indexed {
        place,
        target: Target::PlaceLed(count),
        of,
        lends,
        makes,
        bounds: 0,
        count: 0,
    })
}

/// A place of a class is pushed, and what reads it, behind which so many arguments break a rule.
fn refuse_led<'a>(
    draft: &mut Draft,
    at: Ending,
    makes: bool,
    place: Place,
    rule: u8,
    count: u32,
) -> Result<Untaken<'a>, OrMemory<NotYet>>
    requires { NodeNamed (draft_view draft.old).tables at.kind }
    ensures { IfOk result (λ untaken. RefusesLed at makes place rule count (draft_view draft.old) (draft_view draft.new) untaken) }
{
    push_node(draft, at.kind, at.of, place)?;
    push_node(draft, read_kind(makes), at.of, place)?;
    Ok(Untaken {
        place,
        refuser: Refuser::Led { rule, count },
    })
}

/// A place of a class whose arguments in brackets, so many, are read from now on.
pub fn open_led_place<'a>(
    draft: &mut Draft,
    declared: &Declarations,
    tree: Tree<'a>,
    at: Ending,
    lends: bool,
    makes: bool,
    class: u32,
    count: u32,
) -> Result<Item<'a>, OrMemory<NotYet>>
    requires named { NodeNamed (draft_view draft.old).tables at.kind }
    requires class { classes.class_in (declared_view at.of) ≡ Some class }
    ensures { IfOk result (λ item. (env : plain.Env) → declared_in env.scope ≡ declarations_view declared.now → (bounds : ℕ)
        → OpensTerm env tree.entry (Term.Place at.kind at.of bounds lends makes) (draft_view draft.old) (draft_view draft.new) item) }
{
    match class_led(declared, class, count) {
        Known::Type(of) => {
            let indexed = begin_led(draft, at, tree.place, lends, makes, count, of)?;
            Ok(Item::Indexed(indexed))
        }
        Known::Breaks(rule) => {
            let untaken = refuse_led(draft, at, makes, tree.place, rule, count)?;
            Ok(Item::Untaken(untaken))
        }
        Known::NotSaid => Err(OrMemory::Fault(NotYet)),
    }
}

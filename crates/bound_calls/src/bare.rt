//! What stands without arguments behind it: the value of a procedure, of a member or of a function of the library; or what
//! each of these breaks that needs some.

ghost use Rattle.std.specs.Prelude.{◌≡◌, ◌<◌, length, IfOk, OnOk, []};
ghost use Rattle.bound_project.specs.DraftView.{draft_view};
ghost use Rattle.bound_forms.specs.Operands.{function_takes};
ghost use Rattle.bound_calls.specs.Standing.{TermNamed};
ghost use Rattle.bound_calls.specs.Taking.{CallsAt, FunctionAlone, LacksArguments, MemberAlone, PushesObject, StandsAlone, SheetAlone, values_of};

use crate::arguments::nowhere;
use crate::calls::routine_ending;
use crate::functions::{answer_type, has_start, takes_count};
use crate::shapes::broken_ending;
use crate::take::{member_ending, push_node, push_sheet};
use crate::term::{Ending, Function, HostMember, Receiver, Routine, Term};
use bound_declarations::NotYet;
use bound_project::{Draft, NodeKind};
use class_defaults::takes_none;
use std::alloc::Global;
use vba_base::{NoMemory, OrMemory, Place};
use vba_lib::LibraryFunction;

/// Pushes the object whose procedure isn't called: the own one, since another one was pushed.
pub fn push_object(draft: &mut Draft, receiver: Receiver) -> Result<(), NoMemory>
    ensures { OnOk result (PushesObject receiver (draft_view draft.old) (draft_view draft.new)) }
{
    match receiver {
        Receiver::Module => Ok(()),
        Receiver::Own(of) => push_node(draft, NodeKind::This, of, nowhere()),
        Receiver::Pushed(_) => Ok(()),
    }
}

/// How many values stand there of what a procedure is called of.
pub fn values_of(receiver: Receiver) -> u32
    ensures { result ≡ values_of receiver }
{
    match receiver {
        Receiver::Module => 0,
        Receiver::Own(_) | Receiver::Pushed(_) => 1,
    }
}

/// What a call of a procedure breaks without the arguments that it needs.
fn lacking_ending<'a>(
    draft: &mut Draft,
    routine: Routine<'a>,
    place: Place,
) -> Result<Ending, NoMemory>
    ensures { IfOk result (λ ending. LacksArguments routine.entry place (draft_view draft.old) (draft_view draft.new) ending) }
{
    push_object(draft, routine.receiver)?;
    let values = values_of(routine.receiver);
    Ok(broken_ending(25, place, routine.of, values))
}

/// What a call without arguments gives, a value or an object, but for its last node; where it needs some it breaks a static
/// rule.
pub fn called_ending<'a>(
    alloc: Global,
    draft: &mut Draft,
    routine: Routine<'a>,
    place: Place,
) -> Result<Ending, OrMemory<NotYet>>
    ensures { IfOk result (λ ending. CallsAt routine.entry place (draft_view draft.old) (draft_view draft.new) ending) }
{
    if !takes_none(routine.parameters) {
        let ending = lacking_ending(draft, routine, place)?;
        return Ok(ending);
    }
    routine_ending(alloc, draft, routine)
}

/// The same of a member of an object that was pushed.
fn member_alone(
    alloc: Global,
    draft: &mut Draft,
    member: HostMember,
    place: Place,
) -> Result<Ending, OrMemory<NotYet>>
    requires { member.name < length (draft_view draft.old).tables.constants }
    ensures { IfOk result (λ ending. MemberAlone member place (draft_view draft.old) (draft_view draft.new) ending) }
{
    if member.least != 0 {
        return Ok(broken_ending(25, place, member.of, 1));
    }
    member_ending(alloc, draft, member, place)
}

/// The same of one of the active sheet, which is pushed.
fn sheet_alone(
    alloc: Global,
    draft: &mut Draft,
    member: HostMember,
    place: Place,
) -> Result<Ending, OrMemory<NotYet>>
    requires { member.name < length (draft_view draft.old).tables.constants }
    ensures { IfOk result (λ ending. SheetAlone member place (draft_view draft.old) (draft_view draft.new) ending) }
{
    push_sheet(draft)?;
    member_alone(alloc, draft, member, place)
}

/// Does a function of the library take no arguments?
fn takes_no_arguments(function: LibraryFunction) -> bool
    ensures { result ≡ function_takes function [] }
{
    takes_count(function, 0) && has_start(function, 0, true)
}

/// The same of a function of the library.
fn function_alone(alloc: Global, function: Function, place: Place) -> Result<Ending, NoMemory>
    ensures { IfOk result (λ ending. FunctionAlone function place ending) }
{
    let of = answer_type(alloc, function.function, function.is_text_form)?;
    if !takes_no_arguments(function.function) {
        return Ok(broken_ending(25, place, of, 0));
    }
    Ok(Ending {
        kind: NodeKind::Library {
            function: function.function,
            is_text_form: function.is_text_form,
            values: 0,
            compare: function.compare,
            is_base_one: function.is_base_one,
        },
        of,
    })
}

/// What a term is where no arguments stand behind it: what a procedure, a member or a function of the library gives, or
/// what it breaks that needs some; another term is as it is.
pub fn alone<'a>(
    alloc: Global,
    draft: &mut Draft,
    term: Term<'a>,
    place: Place,
) -> Result<Term<'a>, OrMemory<NotYet>>
    requires { TermNamed (draft_view draft.old).tables term }
    ensures { IfOk result (λ made. StandsAlone term.entry place (draft_view draft.old) (draft_view draft.new) made) }
{
    match term {
        Term::Routine(routine) => {
            let ending = called_ending(alloc, draft, routine, place)?;
            Ok(Term::Value(ending))
        }
        Term::HostMember(member) => {
            let ending = member_alone(alloc, draft, member, place)?;
            Ok(Term::Value(ending))
        }
        Term::SheetMember(member) => {
            let ending = sheet_alone(alloc, draft, member, place)?;
            Ok(Term::Value(ending))
        }
        Term::Function(function) => {
            let ending = function_alone(alloc, function, place)?;
            Ok(Term::Value(ending))
        }
        Term::Property(_) => Ok(Term::Nothing),
        _ => Ok(term),
    }
}

// Whether the events of classes and their handlers name what is there.
ghost use Rattle.std.specs.Prelude.{◌≡◌, ◌↔◌, ℕ, ◌<◌, IsTrue, length, map};
ghost use Rattle.vba_values.specs.Types as type;
ghost use Rattle.bound_project.specs.View.{class_view, declarations_view, declared_view, event_view, handler_view};
ghost use Rattle.bound_project.specs.Whole.{All, HandlesEvent, HasProcedure, WholeHandler};
ghost use Rattle.code_check.specs.Questions.{parameters_of_event};

use bound_project::{Class, DeclaredEvent, DeclaredType, ElementType, Handler, events_of};
use pcode::Code;

/// Whether a procedure is there, with so many parameters.
pub fn has_procedure(code: &Code, procedure: u32, parameters: usize) -> bool
    ensures { IsTrue result ↔ HasProcedure (declarations_view code.now.declared) procedure parameters }
{
    match code.declared.procedures.get(procedure as usize) {
        Some(procedure) => parameters == procedure.parameters.len(),
        None => false,
    }
}

// How many parameters an event has, where it is there.
fn parameters_of(events: &[DeclaredEvent], event: u32) -> Option<usize>
    ensures { result ≡ parameters_of_event (map event_view events.now) event }
{
    match events.get(event as usize) {
        Some(event) => Some(event.parameters.len()),
        None => None,
    }
}

// Whether a procedure handles an event of a class.
#[tactic(auto, using(crate::proofs::Parameters::handles_by, crate::proofs::Parameters::handles_none))]
fn handles_class(code: &Code, class: u32, handler: Handler) -> bool
    ensures { IsTrue result ↔ HandlesEvent (declarations_view code.now.declared) (type.class class) (handler_view handler) }
{
    match parameters_of(events_of(&code.declared, class), handler.event) {
        Some(parameters) => has_procedure(code, handler.procedure, parameters),
        None => false,
    }
}

// Whether a procedure handles an event of what a variable of a type has.
fn handles_event(code: &Code, of: DeclaredType, handler: Handler) -> bool
    ensures { IsTrue result ↔ HandlesEvent (declarations_view code.now.declared) (declared_view of) (handler_view handler) }
{
    match of {
        DeclaredType::Plain(ElementType::Worksheet) => {
            handler.event == 0 && has_procedure(code, handler.procedure, 1)
        }
        DeclaredType::Plain(ElementType::Class(class)) => handles_class(code, class, handler),
        _ => false,
    }
}

// Whether a handler of a class names its variable, and takes what its event gives.
fn is_whole_handler(code: &Code, class: &Class, handler: Handler) -> bool
    ensures { IsTrue result ↔ WholeHandler (declarations_view code.now.declared) (class_view class.now) (handler_view handler) }
{
    match class.fields.get(handler.field as usize) {
        Some(field) => handles_event(code, field.of, handler),
        None => false,
    }
}

/// Whether all handlers of a class do.
pub fn are_whole_handlers(code: &Code, class: &Class) -> bool
    ensures { IsTrue result ↔ All (WholeHandler (declarations_view code.now.declared) (class_view class.now)) (class_view class.now).handlers }
{
    for handler in &class.handlers {
        if !is_whole_handler(code, class, *handler) {
            return false;
        }
    }
    true
}

// Whether all of these fields are there.
fn are_fields(numbers: &[u32], fields: usize) -> bool
    ensures { IsTrue result ↔ All (λ i. i < fields) numbers.now }
{
    for number in numbers {
        if fields <= *number as usize {
            return false;
        }
    }
    true
}

/// Whether the WithEvents variables of a class are there.
pub fn has_sources(class: &Class) -> bool
    ensures { IsTrue result ↔ All (λ (i : ℕ). i < length (class_view class.now).fields) (class_view class.now).with_events }
{
    are_fields(class.with_events.as_slice(), class.fields.len())
}

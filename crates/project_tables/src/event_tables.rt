//! The events of a class: those that it declares, its WithEvents variables, and the procedures that handle the events of
//! what these have.

ghost use Rattle.std.specs.Prelude.{◌≡◌, ◌++◌, ◌∷◌, [], IfOk, OnOk, is_some, map, option_map};
ghost use Rattle.bound_declarations.specs.constant_values.specs.declared_names.specs.binder.specs.EventTables as plain;
ghost use Rattle.bound_declarations.specs.constant_values.specs.declared_names.specs.binder.specs.Scopes.{first_at};
ghost use Rattle.bound_project.specs.declared.declared_type.ElementType.TheVariants as element;
ghost use Rattle.bound_project.specs.View.{declared_view, element_view, event_view, handler_view};
ghost use Rattle.bound_declarations.specs.constant_values.specs.Tables.{AreConstants};
ghost use Rattle.bound_declarations.specs.constant_values.specs.declared_names.specs.Lookup.{found_view};
ghost use Rattle.bound_declarations.specs.constant_values.specs.declared_names.specs.View.{entry_view, scope_view, space_view, what_view};
ghost use Rattle.project_tables.specs.EventParts.{event_as, handlers_if, names_in};
ghost use Rattle.vba_module.specs.Headers.{parameters_of};
ghost use Rattle.vba_tree.specs.View.{parameters_view, variable_view};

use crate::class_tables::is_sub;
use crate::counting::sum;
use bound_declarations::constant_values::Constants;
use bound_declarations::constant_values::declared_names::{
    Entry, Scope, Space, What, class_space, field_number, spelled,
};
use bound_declarations::{
    CHANGE, NotYet, event_parameters, is_handler_name, procedure_number, variable_type,
};
use bound_project::{DeclaredEvent, DeclaredType, ElementType, Handler};
use std::alloc::Global;
use vba_base::{NoMemory, OrMemory};
use vba_tree::{EventLine, Variable};
use vba_words::Identifier;

/// Adds what was bound.
#[tactic(auto, using(crate::proofs::Events::events_push))]
fn push_bound(events: &mut Vec<DeclaredEvent>, event: DeclaredEvent) -> Result<(), NoMemory>
    ensures { OnOk result (map event_view events.new.items ≡ map event_view events.old.items ++ event_view event ∷ []) }
{
    Ok(events.push(event)?)
}

/// An event that a class declares.
fn declared_event(
    alloc: Global,
    constants: Constants,
    name: &Identifier,
    event: &EventLine,
) -> Result<DeclaredEvent, OrMemory<NotYet>>
    requires { AreConstants constants }
    ensures { IfOk result (λ made. event_view made
        ≡ event_as (scope_view constants.entry.scope) name.now (parameters_of (option_map parameters_view event.now.parameters))) }
{
    let parameters = event_parameters(alloc, constants, event)?;
    let here = constants.scope.here;
    let name = spelled(alloc, here.source.text, name)?;
    Ok(DeclaredEvent { name, parameters })
}

/// Adds an entry where it is an event.
fn push_event(
    alloc: Global,
    constants: Constants,
    entry: &Entry,
    events: &mut Vec<DeclaredEvent>,
) -> Result<(), OrMemory<NotYet>>
    requires { AreConstants constants }
    ensures { OnOk result (map event_view events.new.items
        ≡ map event_view events.old.items ++ plain.declared_events (scope_view constants.entry.scope) (entry_view entry.now ∷ [])) }
{
    match entry.what {
        What::Event(event) => {
            let made = declared_event(alloc, constants, entry.name, event)?;
            Ok(push_bound(events, made)?)
        }
        _ => Ok(()),
    }
}

/// Adds the events among entries.
#[tactic(auto, using(std::proofs::lemmas::List::drop_more, crate::proofs::Events::events_next))]
fn push_events(
    alloc: Global,
    constants: Constants,
    entries: &[Entry],
    events: &mut Vec<DeclaredEvent>,
) -> Result<(), OrMemory<NotYet>>
    requires { AreConstants constants }
    ensures { OnOk result (map event_view events.new.items
        ≡ map event_view events.old.items ++ plain.declared_events (scope_view constants.entry.scope) (map entry_view entries.now)) }
{
    for entry in entries {
        push_event(alloc, constants, entry, events)?;
    }
    Ok(())
}

/// The events that a class declares, in order.
pub(crate) fn declared_events(
    alloc: Global,
    constants: Constants,
) -> Result<Vec<DeclaredEvent>, OrMemory<NotYet>>
    requires { AreConstants constants }
    ensures { IfOk result (λ events. map event_view events.items ≡ plain.declared_events (scope_view constants.entry.scope) (scope_view constants.entry.scope).here.entries) }
{
    let mut events = Vec::new(alloc);
    push_events(
        alloc,
        constants,
        constants.scope.here.entries.as_slice(),
        &mut events,
    )?;
    Ok(events)
}

/// Is it a WithEvents variable?
fn has_source(what: What) -> bool
    ensures { result ≡ plain.has_source (what_view what.entry) }
{
    match what {
        What::Variable(variable) => variable.with_events_word.is_some(),
        _ => false,
    }
}

/// Adds the number of an entry among the variables of a class, where it is a WithEvents variable.
fn push_source(
    scope: Scope,
    number: usize,
    entry: &Entry,
    sources: &mut Vec<u32>,
) -> Result<(), NoMemory>
    ensures { OnOk result (sources.new.items ≡ sources.old.items ++ plain.sources_from (scope_view scope.entry) number (entry_view entry.now ∷ [])) }
{
    if !has_source(entry.what) {
        return Ok(());
    }
    sources.push(field_number(scope.here, number)?)?;
    Ok(())
}

/// The WithEvents variables of a class, by their numbers among its variables.
#[tactic(auto, using(std::proofs::lemmas::List::drop_more, crate::proofs::Events::sources_next))]
pub(crate) fn sources(alloc: Global, scope: Scope) -> Result<Vec<u32>, NoMemory>
    ensures { IfOk result (λ numbers. numbers.items ≡ plain.sources_from (scope_view scope.entry) 0 (scope_view scope.entry).here.entries) }
{
    let mut sources = Vec::new(alloc);
    for (number, entry) in scope.here.entries.iter().enumerate() {
        push_source(scope, number, entry, &mut sources)?;
    }
    Ok(sources)
}

/// Is an entry the Sub that handles an event of a variable?
fn handles(variable: &[u16], event: &[u16], entry: &Entry) -> bool
    ensures { result ≡ plain.handles variable.now event.now (entry_view entry.now) }
{
    match entry.what {
        What::Procedure(written) => {
            is_handler_name(entry.name.name.units(), variable, event)
                && is_sub(written.header.words)
        }
        _ => false,
    }
}

/// The Sub that handles an event of a variable, with the number of its entry.
#[tactic(auto, using(std::proofs::lemmas::List::drop_more))]
fn handler_named<'a>(
    scope: Scope<'a>,
    variable: &[u16],
    event: &[u16],
) -> Option<(usize, Entry<'a>)>
    ensures { option_map found_view result ≡ first_at (plain.handles variable.now event.now) 0 (scope_view scope.entry).here.entries }
{
    for (number, entry) in scope.here.entries.iter().enumerate() {
        if handles(variable, event, entry) {
            return Some((number, *entry));
        }
    }
    None
}

/// Adds the handler of an event of a variable, where there is one.
#[tactic(auto, using(crate::proofs::Events::handlers_push))]
fn push_handler(
    scope: Scope,
    field: u32,
    event: u32,
    variable: &[u16],
    name: &[u16],
    handlers: &mut Vec<Handler>,
) -> Result<(), NoMemory>
    ensures { OnOk result (map handler_view handlers.new.items ≡ map handler_view handlers.old.items
        ++ plain.handler_by (scope_view scope.entry) field event (first_at (plain.handles variable.now name.now) 0 (scope_view scope.entry).here.entries)) }
{
    match handler_named(scope, variable, name) {
        None => Ok(()),
        Some((number, _)) => {
            let procedure = procedure_number(scope, scope.here, number)?;
            handlers.push(Handler {
                field,
                event,
                procedure,
            })?;
            Ok(())
        }
    }
}

/// Adds the handlers of a variable for the events among entries.
#[tactic(auto, using(std::proofs::lemmas::List::drop_more))]
fn push_entry_handlers(
    scope: Scope,
    entries: &[Entry],
    field: u32,
    variable: &[u16],
    handlers: &mut Vec<Handler>,
) -> Result<(), NoMemory>
    ensures { OnOk result (map handler_view handlers.new.items ≡ map handler_view handlers.old.items
        ++ plain.handlers_of (scope_view scope.entry) field variable.now 0 (names_in (map entry_view entries.now))) }
{
    let mut event = 0;
    for entry in entries {
        if let What::Event(_) = entry.what {
            let name = entry.name.name.units();
            push_handler(scope, field, event, variable, name, handlers)?;
            event = sum(event, 1)?;
        }
    }
    Ok(())
}

/// Adds the handlers of a variable for the events of a class.
fn push_space_handlers(
    scope: Scope,
    space: &Space,
    field: u32,
    variable: &[u16],
    handlers: &mut Vec<Handler>,
) -> Result<(), NoMemory>
    ensures { OnOk result (map handler_view handlers.new.items ≡ map handler_view handlers.old.items
        ++ plain.handlers_of (scope_view scope.entry) field variable.now 0 (plain.events_of_space (scope_view scope.entry) (space_view space.now))) }
{
    push_entry_handlers(scope, space.entries.as_slice(), field, variable, handlers)?;
    Ok(())
}

/// Adds the handlers of a variable for the events of the class with a number.
fn push_class_handlers(
    scope: Scope,
    number: u32,
    field: u32,
    variable: &[u16],
    handlers: &mut Vec<Handler>,
) -> Result<(), NoMemory>
    ensures { OnOk result (map handler_view handlers.new.items ≡ map handler_view handlers.old.items
        ++ plain.handlers_of (scope_view scope.entry) field variable.now 0 (plain.event_names (scope_view scope.entry) (element_view (element.Class number)))) }
{
    match class_space(scope.spaces, number)? {
        Some(space) => push_space_handlers(scope, space, field, variable, handlers),
        None => Ok(()),
    }
}

/// Adds the handler of a variable for the Change of a sheet.
#[tactic(auto, using(crate::proofs::Events::change_handled))]
fn push_sheet_handler(
    scope: Scope,
    field: u32,
    variable: &[u16],
    handlers: &mut Vec<Handler>,
) -> Result<(), NoMemory>
    ensures { OnOk result (map handler_view handlers.new.items ≡ map handler_view handlers.old.items
        ++ plain.handlers_of (scope_view scope.entry) field variable.now 0 (plain.event_names (scope_view scope.entry) (element_view element.Worksheet))) }
{
    push_handler(scope, field, 0, variable, &CHANGE, handlers)?;
    Ok(())
}

/// Adds the handlers of a variable of a type for the events of what it has.
fn push_type_handlers(
    scope: Scope,
    of: DeclaredType,
    field: u32,
    variable: &[u16],
    handlers: &mut Vec<Handler>,
) -> Result<(), NoMemory>
    ensures { OnOk result (map handler_view handlers.new.items ≡ map handler_view handlers.old.items
        ++ plain.handlers_of (scope_view scope.entry) field variable.now 0 (plain.event_names (scope_view scope.entry) (declared_view of))) }
{
    match of {
        DeclaredType::Plain(ElementType::Worksheet) => {
            push_sheet_handler(scope, field, variable, handlers)
        }
        DeclaredType::Plain(ElementType::Class(number)) => {
            push_class_handlers(scope, number, field, variable, handlers)
        }
        _ => Ok(()),
    }
}

/// Adds the handlers of a variable, where it is declared WithEvents.
fn push_variable_handlers(
    alloc: Global,
    constants: Constants,
    number: usize,
    name: &Identifier,
    variable: &Variable,
    handlers: &mut Vec<Handler>,
) -> Result<(), OrMemory<NotYet>>
    requires { AreConstants constants }
    ensures { OnOk result (map handler_view handlers.new.items ≡ map handler_view handlers.old.items
        ++ handlers_if (is_some variable.now.with_events_word) (scope_view constants.entry.scope) number name.now (variable_view variable.now)) }
{
    if variable.with_events_word.is_none() {
        return Ok(());
    }
    let scope = constants.scope;
    let of = variable_type(alloc, constants, variable)?;
    let field = field_number(scope.here, number)?;
    push_type_handlers(scope, of, field, name.name.units(), handlers)?;
    Ok(())
}

/// Adds the handlers of an entry, where it is a WithEvents variable.
fn push_handlers(
    alloc: Global,
    constants: Constants,
    number: usize,
    entry: &Entry,
    handlers: &mut Vec<Handler>,
) -> Result<(), OrMemory<NotYet>>
    requires { AreConstants constants }
    ensures { OnOk result (map handler_view handlers.new.items ≡ map handler_view handlers.old.items
        ++ plain.handlers_from (scope_view constants.entry.scope) number (entry_view entry.now ∷ [])) }
{
    match entry.what {
        What::Variable(variable) => {
            push_variable_handlers(alloc, constants, number, entry.name, variable, handlers)?;
            Ok(())
        }
        _ => Ok(()),
    }
}

/// The procedures of a class that handle events of what its WithEvents variables have.
#[tactic(auto, using(std::proofs::lemmas::List::drop_more, crate::proofs::Events::handlers_next))]
pub(crate) fn class_handlers(
    alloc: Global,
    constants: Constants,
) -> Result<Vec<Handler>, OrMemory<NotYet>>
    requires { AreConstants constants }
    ensures { IfOk result (λ handlers. map handler_view handlers.items ≡ plain.handlers_from (scope_view constants.entry.scope) 0 (scope_view constants.entry.scope).here.entries) }
{
    let mut handlers = Vec::new(alloc);
    for (number, entry) in constants.scope.here.entries.iter().enumerate() {
        push_handlers(alloc, constants, number, entry, &mut handlers)?;
    }
    Ok(handlers)
}

//! S32: a handler has the parameters of its event.

ghost use Rattle.std.specs.Prelude.{◌≡◌, ◌==◌, ◌&&◌, [], ◌∷◌, false, map, flat_map, option_map, codes, IfOk, OnOk};
ghost use Rattle.std.specs.List.{list_any};
ghost use Rattle.bound_declarations.specs.constant_values.specs.declared_names.specs.binder.specs.Constants.{home};
ghost use Rattle.bound_declarations.specs.constant_values.specs.declared_names.specs.binder.specs.Types.{class_number, written_type};
ghost use Rattle.bound_project.specs.View.{declared_view};
ghost use Rattle.bound_declarations.specs.constant_values.specs.Rounds.{IsPlaced};
ghost use Rattle.bound_declarations.specs.constant_values.specs.Tables.{AreProjectValues};
ghost use Rattle.bound_declarations.specs.constant_values.specs.declared_names.specs.View.{entry_view, scope_view, space_view, what_view, written_view};
ghost use Rattle.signature_rules.specs.Signatures as plain;
ghost use Rattle.signature_rules.specs.View.{passed_view, signature_view};
ghost use Rattle.use_rules.specs.Found.{noted};
ghost use Rattle.vba_module.specs.Headers.{parameters_of};
ghost use Rattle.vba_tree.specs.View.{declared_type_view, parameters_view, variable_view};

use crate::handler_names::is_own_name;
use crate::inside::{event_passed, signature_inside};
use crate::passed::{Passed, is_same_signature};
use bound_declarations::constant_values::ProjectValues;
use bound_declarations::constant_values::declared_names::{
    Entry, Scope, Space, What, Written, class_number, named_type,
};
use bound_declarations::{CHANGE, is_handler_name};
use bound_project::{DeclaredType, ElementType};
use std::alloc::Global;
use use_rules::note_place;
use vba_base::{NoMemory, Refusal};
use vba_tree::{EventLine, ProcedureWords, Variable};
use vba_words::Identifier;

/// How the Target of a sheet's Change is passed: ByVal, as a Range.
fn change_passed() -> Passed
    ensures { passed_view result ∷ [] ≡ plain.change_passed }
{
    Passed {
        of: DeclaredType::Plain(ElementType::Range),
        is_array: false,
        is_by_value: true,
        is_optional: false,
        is_param_array: false,
    }
}

/// A Sub that may be a handler: its name, and how its arguments are passed.
#[derive(Clone, Copy)]
struct Handler<'a> {
    name: &'a [u16],
    given: &'a [Passed],
}

/// Is it a handler of an event of a class by its name, and has other parameters?
fn event_differs(
    alloc: Global,
    scope: Scope,
    project: &ProjectValues,
    handler: Handler,
    source: &[u16],
    name: &Identifier,
    event: &EventLine,
) -> Result<bool, NoMemory>
    requires placed { IsPlaced (scope_view scope) }
    requires values { AreProjectValues project.now (scope_view scope).spaces }
    ensures { IfOk result (λ r. r ≡ plain.is_other handler.entry.name.now source.now name.now.name (signature_view handler.entry.given.now)
        (plain.all_passed (scope_view scope.entry) false (parameters_of (option_map parameters_view event.now.parameters)))) }
{
    if !is_handler_name(handler.name, source, name.name.units()) {
        return Ok(false);
    }
    let wanted = event_passed(alloc, scope, project, event)?;
    Ok(!is_same_signature(handler.given, wanted.as_slice()))
}

/// The same of an entry of the class, if it is an event.
fn entry_differs(
    alloc: Global,
    scope: Scope,
    project: &ProjectValues,
    handler: Handler,
    source: &[u16],
    entry: Entry,
) -> Result<bool, NoMemory>
    requires placed { IsPlaced (scope_view scope) }
    requires values { AreProjectValues project.now (scope_view scope).spaces }
    ensures { IfOk result (λ r. r ≡ plain.event_differs (scope_view scope.entry) handler.entry.name.now source.now (signature_view handler.entry.given.now) (entry_view entry.entry)) }
{
    match entry.what {
        What::Event(event) => {
            event_differs(alloc, scope, project, handler, source, entry.name, event)
        }
        What::Variable(_)
        | What::Constant(_)
        | What::Enum
        | What::Member { .. }
        | What::Type(_)
        | What::Procedure(_) => Ok(false),
    }
}

/// The same of one of the events of a class.
fn events_differ(
    alloc: Global,
    scope: Scope,
    project: &ProjectValues,
    handler: Handler,
    source: &[u16],
    entries: &[Entry],
) -> Result<bool, NoMemory>
    requires placed { IsPlaced (scope_view scope) }
    requires values { AreProjectValues project.now (scope_view scope).spaces }
    ensures { IfOk result (λ r. r ≡ list_any (plain.event_differs (scope_view scope.entry) handler.entry.name.now source.now (signature_view handler.entry.given.now)) (map entry_view entries.now)) }
{
    for entry in entries {
        if entry_differs(alloc, scope, project, handler, source, *entry)? {
            return Ok(true);
        }
    }
    Ok(false)
}

/// The same of one of the events of a class of the project.
fn space_differs<'a>(
    alloc: Global,
    scope: Scope<'a>,
    here: &'a Space<'a>,
    project: &ProjectValues,
    handler: Handler,
    source: &[u16],
) -> Result<bool, NoMemory>
    requires placed { IsPlaced (home (scope_view scope) (space_view here.now)) }
    requires values { AreProjectValues project.now (scope_view scope).spaces }
    ensures { IfOk result (λ r. r ≡ list_any (plain.event_differs (home (scope_view scope.entry) (space_view here.now))
        handler.entry.name.now source.now (signature_view handler.entry.given.now)) (space_view here.now).entries) }
{
    let inner = Scope {
        spaces: scope.spaces,
        here: &*here,
        locals: &[],
    };
    let entries = here.entries.as_slice();
    events_differ(alloc, inner, project, handler, source, entries)
}

/// Is a module the class of a number?
fn is_class(spaces: &[Space], space: &Space, number: u32) -> Result<bool, NoMemory>
    ensures { IfOk result (λ r. r ≡ (space.now.source.is_class && (class_number (map space_view spaces.now) (space_view space.now) == number))) }
{
    if !space.source.is_class {
        return Ok(false);
    }
    Ok(class_number(spaces, space)? == number)
}

/// The same of one of the events of the class of a number.
fn class_differs<'a>(
    alloc: Global,
    scope: Scope<'a>,
    project: &ProjectValues,
    number: u32,
    handler: Handler,
    source: &[u16],
) -> Result<bool, NoMemory>
    requires placed { IsPlaced (scope_view scope) }
    requires values { AreProjectValues project.now (scope_view scope).spaces }
    ensures { IfOk result (λ r. r ≡ plain.class_differs (scope_view scope.entry) (map space_view scope.entry.spaces.now) number
        handler.entry.name.now source.now (signature_view handler.entry.given.now)) }
{
    for space in scope.spaces {
        if is_class(scope.spaces, space, number)? {
            return space_differs(alloc, scope, space, project, handler, source);
        }
    }
    Ok(false)
}

/// The same of the Change of a sheet.
fn change_differs(handler: Handler, source: &[u16]) -> bool
    ensures { result ≡ plain.is_other handler.entry.name.now source.now (codes "change") (signature_view handler.entry.given.now) plain.change_passed }
{
    is_handler_name(handler.name, source, &CHANGE)
        && !is_same_signature(handler.given, &[change_passed()])
}

/// The same of one of the events of a type.
fn type_differs<'a>(
    alloc: Global,
    scope: Scope<'a>,
    project: &ProjectValues,
    of: DeclaredType,
    handler: Handler,
    source: &[u16],
) -> Result<bool, NoMemory>
    requires placed { IsPlaced (scope_view scope) }
    requires values { AreProjectValues project.now (scope_view scope).spaces }
    ensures { IfOk result (λ r. r ≡ plain.type_differs (scope_view scope.entry) (declared_view of) handler.entry.name.now source.now (signature_view handler.entry.given.now)) }
{
    match of {
        DeclaredType::Plain(ElementType::Class(number)) => {
            class_differs(alloc, scope, project, number, handler, source)
        }
        DeclaredType::Plain(ElementType::Worksheet) => Ok(change_differs(handler, source)),
        _ => Ok(false),
    }
}

/// The same of what stands behind As.
fn declared_differs<'a>(
    alloc: Global,
    scope: Scope<'a>,
    project: &ProjectValues,
    declared: &vba_tree::DeclaredType,
    handler: Handler,
    source: &[u16],
) -> Result<bool, NoMemory>
    requires placed { IsPlaced (scope_view scope) }
    requires values { AreProjectValues project.now (scope_view scope).spaces }
    ensures { IfOk result (λ r. r ≡ plain.type_differs (scope_view scope.entry) (written_type (λ e. 0) (scope_view scope.entry) (declared_type_view declared.now))
        handler.entry.name.now source.now (signature_view handler.entry.given.now)) }
{
    match declared {
        vba_tree::DeclaredType::Named(name) => {
            let of = named_type(scope, name)?;
            type_differs(alloc, scope, project, of, handler, source)
        }
        vba_tree::DeclaredType::FixedText { .. } => Ok(false),
    }
}

/// The same of one of the events of a variable, if it is WithEvents.
fn source_differs<'a>(
    alloc: Global,
    scope: Scope<'a>,
    project: &ProjectValues,
    handler: Handler,
    variable: &Variable,
) -> Result<bool, NoMemory>
    requires placed { IsPlaced (scope_view scope) }
    requires values { AreProjectValues project.now (scope_view scope).spaces }
    ensures { IfOk result (λ r. r ≡ plain.source_differs (scope_view scope.entry) handler.entry.name.now (signature_view handler.entry.given.now) (variable_view variable.now)) }
{
    match (variable.with_events_word, &variable.type_clause) {
        (Some(_), Some(clause)) => {
            let source = variable.name.name.units();
            declared_differs(
                alloc,
                scope,
                project,
                &clause.declared_type,
                handler,
                source,
            )
        }
        _ => Ok(false),
    }
}

/// The same of an entry of the module, if it is a variable.
fn variable_differs<'a>(
    alloc: Global,
    scope: Scope<'a>,
    project: &ProjectValues,
    handler: Handler,
    entry: Entry<'a>,
) -> Result<bool, NoMemory>
    requires placed { IsPlaced (scope_view scope) }
    requires values { AreProjectValues project.now (scope_view scope).spaces }
    ensures { IfOk result (λ r. r ≡ plain.entry_differs (scope_view scope.entry) handler.entry.name.now (signature_view handler.entry.given.now) (entry_view entry.entry)) }
{
    match entry.what {
        What::Variable(variable) => source_differs(alloc, scope, project, handler, variable),
        What::Constant(_)
        | What::Enum
        | What::Member { .. }
        | What::Type(_)
        | What::Event(_)
        | What::Procedure(_) => Ok(false),
    }
}

/// The same of one of the variables among entries.
fn variables_differ<'a>(
    alloc: Global,
    scope: Scope<'a>,
    project: &ProjectValues,
    handler: Handler,
    entries: &[Entry<'a>],
) -> Result<bool, NoMemory>
    requires placed { IsPlaced (scope_view scope) }
    requires values { AreProjectValues project.now (scope_view scope).spaces }
    ensures { IfOk result (λ r. r ≡ list_any (plain.entry_differs (scope_view scope.entry) handler.entry.name.now (signature_view handler.entry.given.now)) (map entry_view entries.now)) }
{
    for entry in entries {
        if variable_differs(alloc, scope, project, handler, *entry)? {
            return Ok(true);
        }
    }
    Ok(false)
}

/// Is it a handler of an event of the class itself, and has parameters?
fn own_differs(handler: Handler) -> bool
    ensures { result ≡ plain.own_differs handler.entry.name.now (signature_view handler.entry.given.now) }
{
    is_own_name(handler.name) && !is_same_signature(handler.given, &[])
}

/// Is it a handler that has other parameters than its event?
fn handler_differs<'a>(
    alloc: Global,
    scope: Scope<'a>,
    project: &ProjectValues,
    handler: Handler,
) -> Result<bool, NoMemory>
    requires placed { IsPlaced (scope_view scope) }
    requires values { AreProjectValues project.now (scope_view scope).spaces }
    ensures { IfOk result (λ r. r ≡ plain.handler_differs (scope_view scope.entry) handler.entry.name.now (signature_view handler.entry.given.now)) }
{
    if own_differs(handler) {
        return Ok(true);
    }
    let entries = scope.here.entries.as_slice();
    variables_differ(alloc, scope, project, handler, entries)
}

/// Is it a Sub?
fn is_sub(words: ProcedureWords) -> bool
    ensures { result ≡ plain.is_sub words }
{
    matches!(words, ProcedureWords::Sub(_))
}

/// Is a procedure such a handler?
fn is_wrong<'a>(
    alloc: Global,
    scope: Scope<'a>,
    project: &ProjectValues,
    name: &Identifier,
    written: Written<'a>,
) -> Result<bool, NoMemory>
    requires placed { IsPlaced (scope_view scope) }
    requires values { AreProjectValues project.now (scope_view scope).spaces }
    ensures { IfOk result (λ r. r ≡ plain.is_wrong (scope_view scope.entry) name.now (written_view written.entry)) }
{
    if !is_sub(written.header.words) {
        return Ok(false);
    }
    let given = signature_inside(alloc, scope, project, written)?;
    let handler = Handler {
        name: name.name.units(),
        given: given.as_slice(),
    };
    let differs = handler_differs(alloc, scope, project, handler)?;
    Ok(differs)
}

/// Notes a handler that has other parameters than its event.
fn note_handler<'a>(
    alloc: Global,
    scope: Scope<'a>,
    project: &ProjectValues,
    entry: Entry<'a>,
    least: &mut Option<Refusal>,
) -> Result<(), NoMemory>
    requires placed { IsPlaced (scope_view scope) }
    requires values { AreProjectValues project.now (scope_view scope).spaces }
    ensures { OnOk result (least.new ≡ noted 32 least.old (plain.wrong_handler (scope_view scope.entry) (entry_view entry.entry))) }
{
    match entry.what {
        What::Procedure(written) => {
            let broken = is_wrong(alloc, scope, project, entry.name, written)?;
            note_place(least, broken, 32, entry.name.token.place);
            Ok(())
        }
        What::Variable(_)
        | What::Constant(_)
        | What::Enum
        | What::Member { .. }
        | What::Type(_)
        | What::Event(_) => Ok(()),
    }
}

/// Notes such handlers among entries.
fn note_handlers<'a>(
    alloc: Global,
    scope: Scope<'a>,
    project: &ProjectValues,
    entries: &[Entry<'a>],
    least: &mut Option<Refusal>,
) -> Result<(), NoMemory>
    requires placed { IsPlaced (scope_view scope) }
    requires values { AreProjectValues project.now (scope_view scope).spaces }
    ensures { OnOk result (least.new ≡ noted 32 least.old (flat_map (plain.wrong_handler (scope_view scope.entry)) (map entry_view entries.now))) }
{
    for entry in entries {
        note_handler(alloc, scope, project, *entry, least)?;
    }
    Ok(())
}

/// Notes such handlers of a module, if it is a class.
pub fn note_wrong_handlers<'a>(
    alloc: Global,
    scope: Scope<'a>,
    project: &ProjectValues,
    least: &mut Option<Refusal>,
) -> Result<(), NoMemory>
    requires placed { IsPlaced (scope_view scope) }
    requires values { AreProjectValues project.now (scope_view scope).spaces }
    ensures { OnOk result (least.new ≡ noted 32 least.old (plain.wrong_handlers (scope_view scope.entry))) }
{
    if !scope.here.source.is_class {
        return Ok(());
    }
    let entries = scope.here.entries.as_slice();
    note_handlers(alloc, scope, project, entries, least)
}

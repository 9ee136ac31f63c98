//! S22: variables WithEvents, whose type has to have events.

ghost use Rattle.std.specs.Prelude.{◌≡◌, ◌==◌, ◌&&◌, is_none, OnOk, IfOk, map, option_map, flat_map};
ghost use Rattle.std.specs.List.{list_any};
ghost use Rattle.constant_values.specs.declared_names.specs.binder.specs.Declarations.{Entry as PlainEntry};
ghost use Rattle.constant_values.specs.declared_names.specs.binder.specs.Types.{written_type, class_number};
ghost use Rattle.constant_values.specs.declared_names.specs.binder.specs.Violations as violations;
ghost use Rattle.bound_project.specs.View.{declared_view};
ghost use Rattle.constant_values.specs.declared_names.specs.View.{entry_view, scope_view, space_view, what_view};
ghost use Rattle.use_rules.specs.Found.{noted};
ghost use Rattle.vba_tree.specs.View.{declared_type_view, new_type_clause_view, variable_view};

use bound_project::{DeclaredType, ElementType};
use constant_values::declared_names::{Entry, Scope, Space, What, class_number, named_type};
use use_rules::note_place;
use vba_base::{NoMemory, Refusal};
use vba_tree::{NewTypeClause, Variable};

/// Is it an event?
fn is_event(what: What) -> bool
    ensures { result ≡ violations.is_event_entry (what_view what.entry) }
{
    match what {
        What::Event(_) => true,
        What::Variable(_)
        | What::Constant(_)
        | What::Enum
        | What::Member { .. }
        | What::Type(_)
        | What::Procedure(_) => false,
    }
}

/// Is an event among entries?
fn has_event(entries: &[Entry]) -> bool
    ensures { result ≡ list_any (λ (e : PlainEntry). violations.is_event_entry e.what) (map entry_view entries.now) }
{
    for entry in entries {
        if is_event(entry.what) {
            return true;
        }
    }
    false
}

/// Is a module the class of a number?
fn is_class(spaces: &[Space], space: &Space, number: u32) -> Result<bool, NoMemory>
    ensures { IfOk result (λ r. r ≡ (space.now.source.is_class && (class_number (map space_view spaces.now) (space_view space.now) == number))) }
{
    if !space.source.is_class {
        return Ok(false);
    }
    Ok(class_number(spaces, space)? == number)
}

/// Has a class an event, by its number?
fn class_has_events(spaces: &[Space], number: u32) -> Result<bool, NoMemory>
    ensures { IfOk result (λ r. r ≡ violations.class_has_events (map space_view spaces.now) (map space_view spaces.now) number) }
{
    for space in spaces {
        if is_class(spaces, space, number)? {
            return Ok(has_event(space.entries.as_slice()));
        }
    }
    Ok(false)
}

/// Has a type events: a class that has one, or a Worksheet?
fn has_events(scope: Scope, of: DeclaredType) -> Result<bool, NoMemory>
    ensures { IfOk result (λ r. r ≡ violations.has_events (scope_view scope.entry) (declared_view of)) }
{
    match of {
        DeclaredType::Plain(ElementType::Class(number)) => class_has_events(scope.spaces, number),
        DeclaredType::Plain(ElementType::Worksheet) => Ok(true),
        _ => Ok(false),
    }
}

/// Has a type behind As events?
fn is_source_type(scope: Scope, declared: &vba_tree::DeclaredType) -> Result<bool, NoMemory>
    ensures { IfOk result (λ r. r ≡ violations.has_events (scope_view scope.entry) (written_type (λ e. 0) (scope_view scope.entry) (declared_type_view declared.now))) }
{
    match declared {
        vba_tree::DeclaredType::Named(name) => has_events(scope, named_type(scope, name)?),
        vba_tree::DeclaredType::FixedText { .. } => Ok(false),
    }
}

/// Is what stands behind As, without New, a type that has events?
fn is_source_clause(scope: Scope, clause: &Option<NewTypeClause>) -> Result<bool, NoMemory>
    ensures { IfOk result (λ r. r ≡ violations.source_type (scope_view scope.entry) (option_map new_type_clause_view clause.now)) }
{
    match clause {
        None => Ok(false),
        Some(
            NewTypeClause {
                new_word: Some(_),
                ..
            },
        ) => Ok(false),
        Some(NewTypeClause { declared_type, .. }) => is_source_type(scope, declared_type),
    }
}

/// Is a variable no array, and of a type that has events?
fn is_source(scope: Scope, variable: &Variable) -> Result<bool, NoMemory>
    ensures { IfOk result (λ r. r ≡ (is_none (variable_view variable.now).dims && violations.source_type (scope_view scope.entry) (variable_view variable.now).type_clause)) }
{
    match &variable.dims {
        Some(_) => Ok(false),
        None => is_source_clause(scope, &variable.type_clause),
    }
}

/// Notes a variable WithEvents that is an array, or whose type has no events.
#[tactic(auto, using(use_rules::proofs::Noted::unless_if))]
fn note_source(
    scope: Scope,
    variable: &Variable,
    least: &mut Option<Refusal>,
) -> Result<(), NoMemory>
    ensures { OnOk result (least.new ≡ noted 22 least.old (violations.source_fault (scope_view scope.entry) (variable_view variable.now))) }
{
    match variable.with_events_word {
        None => Ok(()),
        Some(word) => {
            let is_well = is_source(scope, variable)?;
            note_place(least, !is_well, 22, word.place);
            Ok(())
        }
    }
}

/// Notes where an entry breaks S22.
fn note_entry(scope: Scope, entry: Entry, least: &mut Option<Refusal>) -> Result<(), NoMemory>
    ensures { OnOk result (least.new ≡ noted 22 least.old (violations.entry_sources (scope_view scope.entry) (entry_view entry.entry))) }
{
    match entry.what {
        What::Variable(variable) => note_source(scope, variable, least),
        What::Constant(_)
        | What::Enum
        | What::Member { .. }
        | What::Type(_)
        | What::Event(_)
        | What::Procedure(_) => Ok(()),
    }
}

/// Notes where the entries of a module break S22.
pub fn note_sources(
    scope: Scope,
    entries: &[Entry],
    least: &mut Option<Refusal>,
) -> Result<(), NoMemory>
    ensures { OnOk result (least.new ≡ noted 22 least.old (flat_map (violations.entry_sources (scope_view scope.entry)) (map entry_view entries.now))) }
{
    for entry in entries {
        note_entry(scope, *entry, least)?;
    }
    Ok(())
}

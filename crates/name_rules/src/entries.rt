//! S15, S16 and S17 at the entries of a module.

ghost use Rattle.std.specs.Prelude.{◌≡◌, [], ◌++◌, false, map, flat_map, option_map, OnOk};
ghost use Rattle.constant_values.specs.declared_names.specs.binder.specs.Declarations.{fields_in};
ghost use Rattle.constant_values.specs.declared_names.specs.binder.specs.Said.{entry_said};
ghost use Rattle.constant_values.specs.declared_names.specs.binder.specs.Violations.{later, names_said, place_of_name, same_name, twice_inside, types_said};
ghost use Rattle.constant_values.specs.declared_names.specs.Range.{range_items};
ghost use Rattle.constant_values.specs.declared_names.specs.View.{entry_view, scope_view, what_view};
ghost use Rattle.constant_values.specs.declared_names.specs.module_parts.specs.View.{parts_view};
ghost use Rattle.said_parts.specs.View.{all_said};
ghost use Rattle.use_rules.specs.Found.{noted};
ghost use Rattle.vba_module.specs.Headers.{parameters_of};
ghost use Rattle.vba_tree.specs.View.{parameters_view};

use crate::names_of::{names_of_fields, names_of_parameters};
use crate::twice::note_twice;
use constant_values::declared_names::{Entry, PartRange, Scope, What};
use said_parts::{
    Said, fields_of, push_constant, push_fields, push_parameters, push_said, push_variable,
};
use std::alloc::Global;
use use_rules::{Question, note_all_names, note_all_types};
use vba_base::{NoMemory, Refusal};
use vba_tree::Parameters;

/// The least refusals by S15, S16 and S17 that were found at entries.
#[derive(Clone, Copy)]
pub struct EntriesFound {
    pub twice: Option<Refusal>,
    pub types: Option<Refusal>,
    pub names: Option<Refusal>,
}

/// Adds what an entry says; what a procedure says stands in its own scope.
pub fn push_entry<'a>(
    alloc: Global,
    said: &mut Vec<Said<'a>>,
    what: What<'a>,
) -> Result<(), NoMemory>
    ensures { OnOk result (all_said said.new.items ≡ all_said said.old.items ++ entry_said (what_view what.entry)) }
{
    match what {
        What::Variable(variable) => push_variable(said, variable),
        What::Constant(constant) => push_constant(said, constant),
        What::Member {
            value: Some(value),
            ..
        } => push_said(said, Said::ConstantExpression(value)),
        What::Type(parts) => {
            let fields = fields_of(alloc, parts.slice())?;
            push_fields(said, fields.as_slice())
        }
        What::Event(event) => push_parameters(said, &event.parameters),
        What::Enum | What::Member { value: None, .. } | What::Procedure(_) => Ok(()),
    }
}

/// Notes fields of a Type that have one name.
fn note_fields(alloc: Global, parts: PartRange, least: &mut Option<Refusal>) -> Result<(), NoMemory>
    ensures { OnOk result (least.new ≡ noted 15 least.old (later same_name place_of_name [] (map (λ f. f.name) (fields_in (parts_view (range_items parts.entry)))))) }
{
    let fields = fields_of(alloc, parts.slice())?;
    let names = names_of_fields(alloc, fields.as_slice())?;
    note_twice(names.as_slice(), least);
    Ok(())
}

/// Notes parameters that have one name.
fn note_parameters(
    alloc: Global,
    parameters: &Option<Parameters>,
    least: &mut Option<Refusal>,
) -> Result<(), NoMemory>
    ensures { OnOk result (least.new ≡ noted 15 least.old (later same_name place_of_name [] (map (λ p. p.name) (parameters_of (option_map parameters_view parameters.now))))) }
{
    let names = names_of_parameters(alloc, parameters)?;
    note_twice(names.as_slice(), least);
    Ok(())
}

/// Notes the names that stand twice in an entry: fields of a Type, and parameters of an event.
fn note_twice_inside(
    alloc: Global,
    scope: Scope,
    entry: Entry,
    least: &mut Option<Refusal>,
) -> Result<(), NoMemory>
    ensures { OnOk result (least.new ≡ noted 15 least.old (twice_inside (scope_view scope.entry) (entry_view entry.entry))) }
{
    let _scope = scope;
    match entry.what {
        What::Type(parts) => note_fields(alloc, parts, least),
        What::Event(event) => note_parameters(alloc, &event.parameters, least),
        What::Variable(_)
        | What::Constant(_)
        | What::Enum
        | What::Member { .. }
        | What::Procedure(_) => Ok(()),
    }
}

/// Notes where an entry breaks the rules.
fn note_entry<'a>(
    alloc: Global,
    scope: Scope<'a>,
    entry: Entry<'a>,
    found: &mut EntriesFound,
) -> Result<(), NoMemory>
    ensures twice { OnOk result (found.new.twice ≡ noted 15 found.old.twice (twice_inside (scope_view scope.entry) (entry_view entry.entry))) }
    ensures types { OnOk result (found.new.types ≡ noted 16 found.old.types (flat_map (types_said (scope_view scope.entry)) (entry_said (entry_view entry.entry).what))) }
    ensures names { OnOk result (found.new.names ≡ noted 17 found.old.names (flat_map (names_said (scope_view scope.entry) false) (entry_said (entry_view entry.entry).what))) }
{
    let mut said = Vec::new(alloc);
    push_entry(alloc, &mut said, entry.what)?;
    note_twice_inside(alloc, scope, entry, &mut found.twice)?;
    note_all_types(alloc, scope, said.as_slice(), &mut found.types)?;
    let question = Question::IsUnknown { in_with: false };
    note_all_names(alloc, scope, question, said.as_slice(), &mut found.names)
}

/// Notes where entries of a module break the rules.
pub fn note_entries<'a>(
    alloc: Global,
    scope: Scope<'a>,
    entries: &[Entry<'a>],
    found: &mut EntriesFound,
) -> Result<(), NoMemory>
    ensures twice { OnOk result (found.new.twice ≡ noted 15 found.old.twice (flat_map (twice_inside (scope_view scope.entry)) (map entry_view entries.now))) }
    ensures types { OnOk result (found.new.types ≡ noted 16 found.old.types (flat_map (λ e. flat_map (types_said (scope_view scope.entry)) (entry_said e.what)) (map entry_view entries.now))) }
    ensures names { OnOk result (found.new.names ≡ noted 17 found.old.names (flat_map (λ e. flat_map (names_said (scope_view scope.entry) false) (entry_said e.what)) (map entry_view entries.now))) }
{
    for entry in entries {
        note_entry(alloc, scope, *entry, found)?;
    }
    Ok(())
}

//! S23: where a project has what the language leaves out.

ghost use Rattle.std.specs.Prelude.{◌≡◌, [], ◌∷◌, None, IfOk, OnOk, flat_map, map, option_map};
ghost use Rattle.constant_values.specs.declared_names.specs.binder.specs.LeftOut.{entry_left_out, event_left_out, first_left_out, left_out_in, parameters_left_out, procedure_left_out, suffix_left_out};
ghost use Rattle.constant_values.specs.declared_names.specs.binder.specs.Names.{scope_in, scope_of};
ghost use Rattle.constant_values.specs.declared_names.specs.binder.specs.Violations.{procedures_in};
ghost use Rattle.constant_values.specs.declared_names.specs.Outside.{the_outside};
ghost use Rattle.constant_values.specs.declared_names.specs.View.{entry_view, scope_view, space_view, what_view, written_view};
ghost use Rattle.refusal_order.specs.Least.{least_of};
ghost use Rattle.use_rules.specs.Found.{noted};
ghost use Rattle.vba_module.specs.Headers.{parameters_of};
ghost use Rattle.vba_module.specs.Verdict.{broken};
ghost use Rattle.vba_tree.specs.View.{parameters_view};

use crate::entries::push_entry;
use crate::names_of::names_of_parameters;
use crate::procedures::scope_inside;
use constant_values::declared_names::{Entry, Scope, Space, What, Written};
use procedure_names::locals_of;
use said_parts::push_header;
use std::alloc::Global;
use use_rules::{Question, note_all_names, note_left_out_body, note_suffix};
use vba_base::{NoMemory, Refusal};
use vba_tree::Parameters;
use vba_words::Identifier;

/// Notes names with the suffix of a Single or a Double.
fn note_suffixes(names: &[&Identifier], least: &mut Option<Refusal>)
    ensures { least.new ≡ noted 23 least.old (flat_map suffix_left_out (map (λ x. x.now) names.now)) }
{
    for name in names {
        note_suffix(name, least);
    }
}

/// Notes parameters with such a suffix.
#[tactic(auto, using(crate::proofs::LeftOut::suffixes_of))]
fn note_parameters(
    alloc: Global,
    parameters: &Option<Parameters>,
    least: &mut Option<Refusal>,
) -> Result<(), NoMemory>
    ensures { OnOk result (least.new ≡ noted 23 least.old (parameters_left_out (parameters_of (option_map parameters_view parameters.now)))) }
{
    let names = names_of_parameters(alloc, parameters)?;
    note_suffixes(names.as_slice(), least);
    Ok(())
}

/// Notes such parameters of an event.
fn note_event(alloc: Global, what: What, least: &mut Option<Refusal>) -> Result<(), NoMemory>
    ensures { OnOk result (least.new ≡ noted 23 least.old (event_left_out (what_view what.entry))) }
{
    match what {
        What::Event(event) => note_parameters(alloc, &event.parameters, least),
        What::Variable(_)
        | What::Constant(_)
        | What::Enum
        | What::Member { .. }
        | What::Type(_)
        | What::Procedure(_) => Ok(()),
    }
}

/// Notes where an entry breaks the rule: its name, and what it says.
#[tactic(auto, using(crate::proofs::LeftOut::entry_noted))]
fn note_entry<'a>(
    alloc: Global,
    scope: Scope<'a>,
    entry: Entry<'a>,
    least: &mut Option<Refusal>,
) -> Result<(), NoMemory>
    ensures { OnOk result (least.new ≡ noted 23 least.old (entry_left_out (scope_view scope.entry) (entry_view entry.entry))) }
{
    let mut said = Vec::new(alloc);
    push_entry(alloc, &mut said, entry.what)?;
    note_suffix(entry.name, least);
    note_event(alloc, entry.what, least)?;
    note_all_names(alloc, scope, Question::IsLeftOut, said.as_slice(), least)
}

/// Notes where entries of a module break it.
fn note_entries<'a>(
    alloc: Global,
    scope: Scope<'a>,
    entries: &[Entry<'a>],
    least: &mut Option<Refusal>,
) -> Result<(), NoMemory>
    ensures { OnOk result (least.new ≡ noted 23 least.old (flat_map (entry_left_out (scope_view scope.entry)) (map entry_view entries.now))) }
{
    for entry in entries {
        note_entry(alloc, scope, *entry, least)?;
    }
    Ok(())
}

/// Notes where the header and the body of a procedure break it, in its own scope.
fn note_inside<'a>(
    alloc: Global,
    scope: Scope<'a>,
    written: Written<'a>,
    least: &mut Option<Refusal>,
) -> Result<(), NoMemory>
    ensures { OnOk result (least.new ≡ noted 23 least.old (procedure_left_out (scope_view scope.entry) (written_view written.entry))) }
{
    let mut said = Vec::new(alloc);
    push_header(&mut said, written.header)?;
    note_parameters(alloc, &written.header.parameters, least)?;
    note_all_names(alloc, scope, Question::IsLeftOut, said.as_slice(), least)?;
    let is_static = written.header.static_word.is_some();
    note_left_out_body(alloc, scope, is_static, written.body.slice(), least)
}

/// Notes where a procedure breaks it.
fn note_procedure<'a>(
    alloc: Global,
    scope: Scope<'a>,
    written: Written<'a>,
    least: &mut Option<Refusal>,
) -> Result<(), NoMemory>
    ensures { OnOk result (least.new ≡ noted 23 least.old (procedure_left_out (scope_in (scope_view scope.entry) (written_view written.entry)) (written_view written.entry))) }
{
    let locals = locals_of(alloc, scope, written)?;
    let inner = scope_inside(scope, written, locals.as_slice());
    note_inside(alloc, inner, written, least)?;
    Ok(())
}

/// Notes where an entry breaks it, if it is a procedure.
#[tactic(auto, using(use_rules::proofs::Noted::noted_append))]
fn note_written<'a>(
    alloc: Global,
    scope: Scope<'a>,
    entry: Entry<'a>,
    least: &mut Option<Refusal>,
) -> Result<(), NoMemory>
    ensures { OnOk result (least.new ≡ noted 23 least.old (flat_map (λ p. procedure_left_out (scope_in (scope_view scope.entry) p) p) (procedures_in (entry_view entry.entry ∷ [])))) }
{
    match entry.what {
        What::Procedure(written) => note_procedure(alloc, scope, written, least),
        What::Variable(_)
        | What::Constant(_)
        | What::Enum
        | What::Member { .. }
        | What::Type(_)
        | What::Event(_) => Ok(()),
    }
}

/// Notes where the procedures among entries break it.
fn note_procedures<'a>(
    alloc: Global,
    scope: Scope<'a>,
    entries: &[Entry<'a>],
    least: &mut Option<Refusal>,
) -> Result<(), NoMemory>
    ensures { OnOk result (least.new ≡ noted 23 least.old (flat_map (λ p. procedure_left_out (scope_in (scope_view scope.entry) p) p) (procedures_in (map entry_view entries.now)))) }
{
    for entry in entries {
        note_written(alloc, scope, *entry, least)?;
    }
    Ok(())
}

/// Notes where a module breaks it.
#[tactic(auto, using(use_rules::proofs::Noted::noted_append))]
fn note_module<'a>(
    alloc: Global,
    scope: Scope<'a>,
    least: &mut Option<Refusal>,
) -> Result<(), NoMemory>
    ensures { OnOk result (least.new ≡ noted 23 least.old (left_out_in (scope_view scope.entry))) }
{
    let entries = scope.here.entries.as_slice();
    note_entries(alloc, scope, entries, least)?;
    note_procedures(alloc, scope, entries, least)
}

/// Notes where a module of a project breaks it.
fn note_space<'a>(
    alloc: Global,
    spaces: &'a [Space<'a>],
    here: &'a Space<'a>,
    least: &mut Option<Refusal>,
) -> Result<(), NoMemory>
    ensures { OnOk result (least.new ≡ noted 23 least.old (left_out_in (scope_of the_outside (map space_view spaces.now) (space_view here.now)))) }
{
    let scope = Scope {
        spaces: &*spaces,
        here: &*here,
        locals: &[],
    };
    note_module(alloc, scope, least)
}

/// The least place at which a module of a project breaks it.
#[tactic(auto, using(crate::proofs::LeftOut::module_found))]
fn module_left_out<'a>(
    alloc: Global,
    spaces: &'a [Space<'a>],
    here: &'a Space<'a>,
) -> Result<Option<Refusal>, NoMemory>
    ensures { IfOk result (λ least. least ≡ least_of None (broken 23 (left_out_in (scope_of the_outside (map space_view spaces.now) (space_view here.now))))) }
{
    let mut least = None;
    note_space(alloc, spaces, here, &mut least)?;
    Ok(least)
}

/// The least place of the first module of a project that breaks S23.
pub fn first_left_out<'a>(
    alloc: Global,
    spaces: &'a [Space<'a>],
) -> Result<Option<Refusal>, NoMemory>
    ensures { IfOk result (λ least. least ≡ first_left_out the_outside (map space_view spaces.now)) }
{
    for space in spaces {
        if let Some(least) = module_left_out(alloc, &*spaces, space)? {
            return Ok(Some(least));
        }
    }
    Ok(None)
}

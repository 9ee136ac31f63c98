//! Which of the rules S15 to S22 a project breaks first.

ghost use Rattle.std.specs.Prelude.{◌≡◌, ◌++◌, [], None, false, IfOk, OnOk, bytes_eq, flat_map, map};
ghost use Rattle.std.specs.List.{list_any};
ghost use Rattle.constant_values.specs.declared_names.specs.binder.specs.Names.{scope_of};
ghost use Rattle.constant_values.specs.declared_names.specs.binder.specs.Said.{entry_said};
ghost use Rattle.constant_values.specs.declared_names.specs.binder.specs.Scopes.{Space as PlainSpace};
ghost use Rattle.constant_values.specs.declared_names.specs.binder.specs.Violations as violations;
ghost use Rattle.constant_values.specs.declared_names.specs.binder.specs.Violations.{clashes, entry_faults, first_broken, later, module_named_twice, named_before, names_said, place_of_name, recursive_types, twice_declared, twice_inside, twice_labelled, types_said, unknown_labels, unknown_names, unknown_types, violations, wrong_constants, wrong_sources};
ghost use Rattle.constant_values.specs.Rounds.{AreNumbered, IsPlaced};
ghost use Rattle.constant_values.specs.Tables.{AreProjectValues};
ghost use Rattle.constant_values.specs.declared_names.specs.Outside.{the_outside};
ghost use Rattle.constant_values.specs.declared_names.specs.View.{scope_view, space_view};
ghost use Rattle.name_rules.specs.Judged.{least_of_eight};
ghost use Rattle.refusal_order.specs.Least.{least_of};
ghost use Rattle.use_rules.specs.Found.{noted};

use crate::constants::note_constants;
use crate::entries::{EntriesFound, note_entries};
use crate::procedures::{ProceduresFound, note_procedures};
use crate::recursive::{held_types, note_recursive};
use crate::sources::note_sources;
use crate::twice::note_clashes;
use constant_values::declared_names::{Scope, Space, is_same_space, type_number};
use constant_values::{ProjectValues, project_values};
use std::alloc::Global;
use use_rules::{BodyFound, lesser_of, note_place};
use vba_base::{NoMemory, Place, Refusal};

/// Has a module before this one its name?
fn is_named_before(spaces: &[Space], here: &Space) -> bool
    ensures { result ≡ list_any (λ (o : PlainSpace). bytes_eq o.name.fold (space_view here.now).name.fold) (named_before (map space_view spaces.now) (space_view here.now)) }
{
    for space in spaces {
        if is_same_space(space, here) {
            return false;
        }
        if space.name.fold == here.name.fold {
            return true;
        }
    }
    false
}

/// The front of a module.
fn front(space: &Space) -> Result<Place, NoMemory>
    ensures { IfOk result (λ place. place ≡ violations.front (space_view space.now)) }
{
    let number = u32::try_from(space.number).map_err(|_error| NoMemory)?;
    Ok(Place {
        module: number.checked_add(1).ok_or(NoMemory)?,
        line: 1,
        column: 1,
    })
}

/// Notes a module that has the name of one before it, at its front.
#[tactic(auto, using(crate::proofs::Judged::place_if_is))]
fn note_named_twice(scope: Scope, least: &mut Option<Refusal>) -> Result<(), NoMemory>
    ensures { OnOk result (least.new ≡ noted 15 least.old (module_named_twice (scope_view scope.entry))) }
{
    let broken = is_named_before(scope.spaces, scope.here);
    note_place(least, broken, 15, front(scope.here)?);
    Ok(())
}

/// What is found at the entries of a module.
#[tactic(auto, using(use_rules::proofs::Noted::noted_append))]
fn in_entries<'a>(alloc: Global, scope: Scope<'a>) -> Result<EntriesFound, NoMemory>
    ensures twice { IfOk result (λ found. found.twice ≡ noted 15 None (module_named_twice (scope_view scope.entry)
        ++ (later clashes (λ e. place_of_name e.name) [] (scope_view scope.entry).here.entries
        ++ flat_map (twice_inside (scope_view scope.entry)) (scope_view scope.entry).here.entries))) }
    ensures types { IfOk result (λ found. found.types ≡ noted 16 None (flat_map (λ e. flat_map (types_said (scope_view scope.entry)) (entry_said e.what)) (scope_view scope.entry).here.entries)) }
    ensures names { IfOk result (λ found. found.names ≡ noted 17 None (flat_map (λ e. flat_map (names_said (scope_view scope.entry) false) (entry_said e.what)) (scope_view scope.entry).here.entries)) }
{
    let entries = scope.here.entries.as_slice();
    let mut found = EntriesFound {
        twice: None,
        types: None,
        names: None,
    };
    note_named_twice(scope, &mut found.twice)?;
    note_clashes(entries, &mut found.twice);
    note_entries(alloc, scope, entries, &mut found)?;
    Ok(found)
}

/// What is found at the entries of a module and in its procedures.
#[tactic(auto, using(use_rules::proofs::Noted::noted_append))]
fn in_module<'a>(
    alloc: Global,
    scope: Scope<'a>,
    project: &ProjectValues,
) -> Result<ProceduresFound, NoMemory>
    requires placed { IsPlaced (scope_view scope) }
    requires values { AreProjectValues project.now (scope_view scope).spaces }
    ensures twice { IfOk result (λ found. found.twice ≡ noted 15 None (module_named_twice (scope_view scope.entry) ++ twice_declared (scope_view scope.entry))) }
    ensures types { IfOk result (λ found. found.body.types ≡ noted 16 None (unknown_types (scope_view scope.entry))) }
    ensures names { IfOk result (λ found. found.body.names ≡ noted 17 None (unknown_names (scope_view scope.entry))) }
    ensures labels { IfOk result (λ found. found.body.labels ≡ noted 18 None (unknown_labels (scope_view scope.entry))) }
    ensures labelled { IfOk result (λ found. found.labelled ≡ noted 19 None (twice_labelled (scope_view scope.entry))) }
    ensures constants { IfOk result (λ found. found.constants ≡ noted 20 None (wrong_constants (scope_view scope.entry))) }
{
    let entries = scope.here.entries.as_slice();
    let outside = in_entries(alloc, scope)?;
    let mut constants = None;
    note_constants(alloc, scope, project, entries, &mut constants)?;
    let mut found = ProceduresFound {
        twice: outside.twice,
        body: BodyFound {
            types: outside.types,
            names: outside.names,
            labels: None,
        },
        labelled: None,
        constants,
    };
    note_procedures(alloc, scope, project, entries, &mut found)?;
    Ok(found)
}

/// The least Type of a module that holds itself (S21).
fn recursive_refusal(
    alloc: Global,
    scope: Scope,
    types: &[Vec<u32>],
) -> Result<Option<Refusal>, NoMemory>
    requires { map (λ v. v.items) types.now ≡ violations.held_types the_outside (scope_view scope).spaces (scope_view scope).spaces }
    ensures { IfOk result (λ least. least ≡ noted 21 None (recursive_types (scope_view scope.entry))) }
{
    let first = type_number(scope, scope.here, 0)?;
    let mut least = None;
    note_recursive(
        alloc,
        types,
        first,
        scope.here.entries.as_slice(),
        &mut least,
    )?;
    Ok(least)
}

/// The least variable WithEvents of a module whose type has no events (S22).
fn source_refusal(scope: Scope) -> Result<Option<Refusal>, NoMemory>
    ensures { IfOk result (λ least. least ≡ noted 22 None (wrong_sources (scope_view scope.entry))) }
{
    let mut least = None;
    note_sources(scope, scope.here.entries.as_slice(), &mut least)?;
    Ok(least)
}

/// The least of what is found by each rule.
fn least_found(
    found: ProceduresFound,
    recursive: Option<Refusal>,
    sources: Option<Refusal>,
) -> Option<Refusal>
    ensures { result ≡ least_of_eight found.twice found.body.types found.body.names found.body.labels found.labelled found.constants recursive sources }
{
    let mut least = lesser_of(found.twice, found.body.types);
    least = lesser_of(least, found.body.names);
    least = lesser_of(least, found.body.labels);
    least = lesser_of(least, found.labelled);
    least = lesser_of(least, found.constants);
    least = lesser_of(least, recursive);
    lesser_of(least, sources)
}

/// The least of the rules that a module breaks.
#[tactic(auto, using(crate::proofs::Judged::all_broken))]
fn module_refusal<'a>(
    alloc: Global,
    scope: Scope<'a>,
    project: &ProjectValues,
    types: &[Vec<u32>],
) -> Result<Option<Refusal>, NoMemory>
    requires placed { IsPlaced (scope_view scope) }
    requires values { AreProjectValues project.now (scope_view scope).spaces }
    requires types { map (λ v. v.items) types.now ≡ violations.held_types the_outside (scope_view scope).spaces (scope_view scope).spaces }
    ensures { IfOk result (λ least. least ≡ least_of None (violations (scope_view scope.entry))) }
{
    let found = in_module(alloc, scope, project)?;
    let recursive = recursive_refusal(alloc, scope, types)?;
    let sources = source_refusal(scope)?;
    Ok(least_found(found, recursive, sources))
}

/// The least of the rules that a module of a project breaks.
fn refusal_at<'a>(
    alloc: Global,
    spaces: &'a [Space<'a>],
    here: &'a Space<'a>,
    project: &ProjectValues,
    types: &[Vec<u32>],
) -> Result<Option<Refusal>, NoMemory>
    requires placed { IsPlaced (scope_of the_outside (map space_view spaces.now) (space_view here.now)) }
    requires values { AreProjectValues project.now (map space_view spaces.now) }
    requires types { map (λ v. v.items) types.now ≡ violations.held_types the_outside (map space_view spaces.now) (map space_view spaces.now) }
    ensures { IfOk result (λ least. least ≡ least_of None (violations (scope_of the_outside (map space_view spaces.now) (space_view here.now)))) }
{
    let scope = Scope {
        spaces: &*spaces,
        here: &*here,
        locals: &[],
    };
    module_refusal(alloc, scope, project, types)
}

/// The first of the rules that a project breaks: of the first module that breaks one, the least.
pub fn verdict<'a>(alloc: Global, spaces: &'a [Space<'a>]) -> Result<Option<Refusal>, NoMemory>
    requires { AreNumbered (map space_view spaces.now) }
    ensures { IfOk result (λ least. least ≡ first_broken (map (λ space. violations (scope_of the_outside (map space_view spaces.now) space)) (map space_view spaces.now))) }
{
    let types = held_types(alloc, spaces)?;
    let project = project_values(alloc, spaces)?;
    for space in spaces {
        if let Some(least) = refusal_at(alloc, &*spaces, space, &project, types.as_slice())? {
            return Ok(Some(least));
        }
    }
    Ok(None)
}

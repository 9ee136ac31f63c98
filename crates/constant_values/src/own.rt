//! The values of the names of a procedure, and a scope with its values.

ghost use Rattle.std.specs.Prelude.{◌≡◌, ◌+◌, true, false, [], IfOk, length};
ghost use Rattle.declared_names.specs.Outside.{the_outside};
ghost use Rattle.declared_names.specs.View.{scope_view};
ghost use Rattle.constant_values.specs.Names as plain;
ghost use Rattle.constant_values.specs.Rounds.{IsPlaced, locals_round, longest};
ghost use Rattle.constant_values.specs.Tables.{AreConstants, AreOwnValues, AreProjectValues, own_tables, passed, repeated_locals, rounds_view, tables_of};
ghost use Rattle.constant_values.specs.View.{slots_view, tables_view};

use crate::known::Known;
use crate::names::Names;
use crate::project::{ProjectValues, all_entries, next_entries};
use crate::slots::are_same_slots;
use crate::tables::locals_by;
use declared_names::Scope;
use std::alloc::Global;
use vba_base::NoMemory;

/// The values of the names of one procedure, and those of the entries of all modules beside them, where they aren't the
/// ones of the project.
#[derive(Drop)]
pub struct OwnValues {
    pub(crate) slots: Vec<Option<Known>>,
    pub(crate) entries: Option<Vec<Vec<Option<Known>>>>,
}

/// A scope with the values of its constants.
#[derive(Clone, Copy)]
pub struct Constants<'a> {
    pub scope: Scope<'a>,
    pub(crate) entries: &'a [Vec<Option<Known>>],
    pub(crate) own: &'a [Option<Known>],
}

/// The values behind the rounds of the project that were kept.
fn passed(
    alloc: Global,
    scope: Scope,
    first: Vec<Option<Known>>,
    rounds: &[Vec<Vec<Option<Known>>>],
) -> Result<Vec<Option<Known>>, NoMemory>
    ensures { IfOk result (λ slots. slots_view slots.items ≡ passed (scope_view scope.entry) (slots_view first.items) (rounds_view rounds.now)) }
{
    let mut slots = first;
    let mut left = rounds;
    while let [entries, rest @ ..] = left {
        let names = Names::Values {
            entries: entries.as_slice(),
            own: slots.as_slice(),
        };
        slots = locals_by(alloc, names, scope)?;
        left = rest;
    }
    Ok(slots)
}

/// The values after so many more rounds, or fewer where one changes nothing.
#[tactic(auto, using(crate::proofs::Kept::repeated_one, crate::proofs::Kept::repeated_same))]
fn repeated(
    alloc: Global,
    scope: Scope,
    entries: &[Vec<Option<Known>>],
    first: Vec<Option<Known>>,
    rounds: usize,
) -> Result<Vec<Option<Known>>, NoMemory>
    ensures { IfOk result (λ slots. slots_view slots.items ≡ repeated_locals rounds (scope_view scope.entry) (tables_view entries.now) (slots_view first.items)) }
{
    let mut slots = first;
    let mut left = rounds;
    while left > 0 {
        let names = Names::Values {
            entries,
            own: slots.as_slice(),
        };
        let next = locals_by(alloc, names, scope)?;
        if are_same_slots(next.as_slice(), slots.as_slice()) {
            return Ok(slots);
        }
        slots = next;
        left -= 1;
    }
    Ok(slots)
}

/// The values of the entries that those of a procedure go by.
fn tables_of<'a>(
    project: &'a ProjectValues,
    own: &'a Option<Vec<Vec<Option<Known>>>>,
) -> &'a [Vec<Option<Known>>]
    ensures { tables_view result.now ≡ tables_of project.now own.now }
{
    match own {
        Some(tables) => tables.as_slice(),
        None => project.last.as_slice(),
    }
}

/// The values through as many constants as there are rounds before the last one of the project.
fn behind_project(
    alloc: Global,
    project: &ProjectValues,
    scope: Scope,
) -> Result<Vec<Option<Known>>, NoMemory>
    requires placed { IsPlaced (scope_view scope) }
    requires values { AreProjectValues project.now (scope_view scope).spaces }
    ensures { IfOk result (λ slots. slots_view slots.items ≡ locals_round (length project.now.earlier.items) (scope_view scope.entry)) }
{
    let first = locals_by(alloc, Names::Nothing, scope)?;
    passed(alloc, scope, first, project.earlier.as_slice())
}

/// How many rounds are left to the longest chain of constants.
fn rounds_left(project: &ProjectValues, scope: Scope) -> Result<usize, NoMemory>
    ensures { IfOk result (λ more. more + length project.now.earlier.items ≡ longest (scope_view scope.entry)) }
{
    let entries = all_entries(scope.spaces)?;
    let most = entries.checked_add(scope.locals.len()).ok_or(NoMemory)?;
    most.checked_sub(project.earlier.len()).ok_or(NoMemory)
}

/// The values of the names of a procedure, where those of the project have come to rest.
fn settled_values(
    alloc: Global,
    project: &ProjectValues,
    scope: Scope,
    behind: Vec<Option<Known>>,
) -> Result<OwnValues, NoMemory>
    requires placed { IsPlaced (scope_view scope) }
    requires values { AreProjectValues project.now (scope_view scope).spaces }
    requires slots { slots_view behind.items ≡ locals_round (length project.now.earlier.items) (scope_view scope) }
    requires settled { project.now.is_settled ≡ true }
    ensures { IfOk result (λ own. AreOwnValues own (scope_view scope.entry)) }
{
    let more = rounds_left(project, scope)?;
    let slots = repeated(alloc, scope, project.last.as_slice(), behind, more)?;
    Ok(OwnValues {
        slots,
        entries: None,
    })
}

/// The values through one constant more.
fn next_values(
    alloc: Global,
    project: &ProjectValues,
    scope: Scope,
    own: &OwnValues,
) -> Result<OwnValues, NoMemory>
    ensures slots { IfOk result (λ next. slots_view next.slots.items ≡ plain.locals_by (plain.values (tables_of project.now own.now.entries) (slots_view own.now.slots.items)) (scope_view scope.entry)) }
    ensures entries { IfOk result (λ next. own_tables next.entries (scope_view scope.entry) ≡ plain.entries_by (plain.values (tables_of project.now own.now.entries) []) the_outside (scope_view scope.entry).spaces) }
{
    let entries = tables_of(project, &own.entries);
    let names = Names::Values {
        entries,
        own: own.slots.as_slice(),
    };
    let slots = locals_by(alloc, names, scope)?;
    let next = next_entries(alloc, scope.spaces, entries)?;
    Ok(OwnValues {
        slots,
        entries: Some(next),
    })
}

/// The values of the names of a procedure, where those of the project don't come to rest: a round more for each name.
#[tactic(auto, using(crate::proofs::Kept::left_fit, crate::proofs::Kept::left_first, crate::proofs::Kept::left_next, crate::proofs::Kept::left_none))]
fn further_values(
    alloc: Global,
    project: &ProjectValues,
    scope: Scope,
    behind: Vec<Option<Known>>,
) -> Result<OwnValues, NoMemory>
    requires placed { IsPlaced (scope_view scope) }
    requires values { AreProjectValues project.now (scope_view scope).spaces }
    requires slots { slots_view behind.items ≡ locals_round (length project.now.earlier.items) (scope_view scope) }
    requires unsettled { project.now.is_settled ≡ false }
    ensures { IfOk result (λ own. AreOwnValues own (scope_view scope.entry)) }
{
    let mut own = OwnValues {
        slots: behind,
        entries: None,
    };
    let mut left = scope.locals.len();
    while left > 0 {
        own = next_values(alloc, project, scope, &own)?;
        left -= 1;
    }
    Ok(own)
}

/// The values of the names of a procedure: no more rounds than the longest chain of constants needs, and one that
/// changes nothing.
pub fn own_values(
    alloc: Global,
    project: &ProjectValues,
    scope: Scope,
) -> Result<OwnValues, NoMemory>
    requires placed { IsPlaced (scope_view scope) }
    requires values { AreProjectValues project.now (scope_view scope).spaces }
    ensures { IfOk result (λ own. AreOwnValues own (scope_view scope.entry)) }
{
    let behind = behind_project(alloc, project, scope)?;
    if project.is_settled {
        settled_values(alloc, project, scope, behind)
    } else {
        further_values(alloc, project, scope, behind)
    }
}

/// A scope with the values of its constants.
#[tactic(auto, using(crate::proofs::Kept::constants_settled))]
pub fn constants_in<'a>(
    scope: Scope<'a>,
    project: &'a ProjectValues,
    own: &'a OwnValues,
) -> Constants<'a>
    requires placed { IsPlaced (scope_view scope) }
    requires values { AreProjectValues project.now (scope_view scope).spaces }
    requires own { AreOwnValues own.now (scope_view scope) }
    ensures scope { result.scope ≡ scope.entry }
    ensures values { AreConstants result }
{
    Constants {
        scope,
        entries: tables_of(project, &own.entries),
        own: own.slots.as_slice(),
    }
}

//! S31: the procedures of one property have the same parameters and one type of value.

ghost use Rattle.std.specs.Prelude.{◌≡◌, [], map, IfOk, OnOk};
ghost use Rattle.std.specs.List.{list_any};
ghost use Rattle.bound_declarations.specs.constant_values.specs.declared_names.specs.binder.specs.Violations.{later, place_of_name};
ghost use Rattle.bound_declarations.specs.constant_values.specs.Rounds.{IsPlaced};
ghost use Rattle.bound_declarations.specs.constant_values.specs.Tables.{AreProjectValues};
ghost use Rattle.bound_declarations.specs.constant_values.specs.declared_names.specs.View.{entry_view, scope_view, what_view, written_view};
ghost use Rattle.bound_declarations.specs.constant_values.specs.declared_names.specs.binder.specs.Declarations.{a_procedure};
ghost use Rattle.signature_rules.specs.Signatures as plain;
ghost use Rattle.use_rules.specs.Found.{noted};

use crate::inside::signature_inside;
use crate::passed::is_same_signature;
use bound_declarations::constant_values::ProjectValues;
use bound_declarations::constant_values::declared_names::{Entry, Scope, What, Written};
use bound_declarations::is_property;
use std::alloc::Global;
use use_rules::note_place;
use vba_base::{NoMemory, Refusal};

/// Are they two procedures of properties whose signatures differ?
fn procedures_differ<'a>(
    alloc: Global,
    scope: Scope<'a>,
    project: &ProjectValues,
    one: Written<'a>,
    other: Written<'a>,
) -> Result<bool, NoMemory>
    requires placed { IsPlaced (scope_view scope) }
    requires values { AreProjectValues project.now (scope_view scope).spaces }
    ensures { IfOk result (λ r. r ≡ plain.procedures_differ (scope_view scope.entry) (a_procedure (written_view one.entry)) (a_procedure (written_view other.entry))) }
{
    if !(is_property(one.header.words) && is_property(other.header.words)) {
        return Ok(false);
    }
    let ones = signature_inside(alloc, scope, project, one)?;
    let others = signature_inside(alloc, scope, project, other)?;
    Ok(!is_same_signature(ones.as_slice(), others.as_slice()))
}

/// Are what two entries are two such procedures?
fn whats_differ<'a>(
    alloc: Global,
    scope: Scope<'a>,
    project: &ProjectValues,
    one: What<'a>,
    other: What<'a>,
) -> Result<bool, NoMemory>
    requires placed { IsPlaced (scope_view scope) }
    requires values { AreProjectValues project.now (scope_view scope).spaces }
    ensures { IfOk result (λ r. r ≡ plain.procedures_differ (scope_view scope.entry) (what_view one.entry) (what_view other.entry)) }
{
    match (one, other) {
        (What::Procedure(one), What::Procedure(other)) => {
            procedures_differ(alloc, scope, project, one, other)
        }
        _ => Ok(false),
    }
}

/// Are two entries procedures of one property whose signatures differ?
fn differ<'a>(
    alloc: Global,
    scope: Scope<'a>,
    project: &ProjectValues,
    one: Entry<'a>,
    other: Entry<'a>,
) -> Result<bool, NoMemory>
    requires placed { IsPlaced (scope_view scope) }
    requires values { AreProjectValues project.now (scope_view scope).spaces }
    ensures { IfOk result (λ r. r ≡ plain.differ (scope_view scope.entry) (entry_view one.entry) (entry_view other.entry)) }
{
    if !(one.name.name == other.name.name) {
        return Ok(false);
    }
    whats_differ(alloc, scope, project, one.what, other.what)
}

/// Does an entry differ from one of these?
fn differs_among<'a>(
    alloc: Global,
    scope: Scope<'a>,
    project: &ProjectValues,
    entry: Entry<'a>,
    others: &[Entry<'a>],
) -> Result<bool, NoMemory>
    requires placed { IsPlaced (scope_view scope) }
    requires values { AreProjectValues project.now (scope_view scope).spaces }
    ensures { IfOk result (λ r. r ≡ list_any (plain.differ (scope_view scope.entry) (entry_view entry.entry)) (map entry_view others.now)) }
{
    for other in others {
        if differ(alloc, scope, project, entry, *other)? {
            return Ok(true);
        }
    }
    Ok(false)
}

/// Notes each procedure of a property that differs from one before it.
pub fn note_properties<'a>(
    alloc: Global,
    scope: Scope<'a>,
    project: &ProjectValues,
    entries: &[Entry<'a>],
    least: &mut Option<Refusal>,
) -> Result<(), NoMemory>
    requires placed { IsPlaced (scope_view scope) }
    requires values { AreProjectValues project.now (scope_view scope).spaces }
    ensures { OnOk result (least.new ≡ noted 31 least.old (later (plain.differ (scope_view scope.entry)) (λ e. place_of_name e.name) [] (map entry_view entries.now))) }
{
    for (number, entry) in entries.iter().enumerate() {
        let broken = differs_among(alloc, scope, project, *entry, &entries[..number])?;
        note_place(least, broken, 31, entry.name.token.place);
    }
    Ok(())
}

//! The procedures of a project, each with its names and the values of its constants.

ghost use Rattle.std.specs.Prelude.{◌≡◌, ◌+◌, [], ◌∷◌, ◌++◌, List, IfOk, OnOk, length, map};
ghost use Rattle.bound_declarations.specs.constant_values.specs.declared_names.specs.binder.specs.Names.{locals_of};
ghost use Rattle.bound_declarations.specs.constant_values.specs.declared_names.specs.binder.specs.Scopes as scopes;
ghost use Rattle.bound_declarations.specs.constant_values.specs.declared_names.specs.binder.specs.Storage as storage;
ghost use Rattle.bound_declarations.specs.constant_values.specs.declared_names.specs.binder.specs.Types.{counted};
ghost use Rattle.bound_declarations.specs.constant_values.specs.declared_names.specs.View.{local_view, scope_view, space_view, written_view};
ghost use Rattle.bound_declarations.specs.constant_values.specs.Rounds.{AreNumbered, IsPlaced};
ghost use Rattle.bound_declarations.specs.constant_values.specs.Tables.{AreOwnValues, AreProjectValues};
ghost use Rattle.project_tables.specs.Rows.{AreRows, AreRowsFrom, AreRowsOf, row_view};
ghost use Rattle.project_tables.specs.Steps.{HasValues, HaveOwnValues, module_scope, row_at, row_lists, with_names};

use crate::counting::{shared_count, sum, variable_count};
use bound_declarations::constant_values::declared_names::{Local, Scope, Space, What, Written};
use bound_declarations::constant_values::{OwnValues, ProjectValues, own_values, project_values};
use bound_declarations::{Kept, count_kept};
use procedure_names::locals_of;
use std::alloc::Global;
use vba_base::NoMemory;

/// A procedure by the number of its entry, with its names, the values of its constants, and the number of its first
/// static among the shared variables.
#[derive(Drop)]
pub struct ProcedureRow<'a> {
    pub number: usize,
    pub written: Written<'a>,
    pub locals: Vec<Local<'a>>,
    pub values: OwnValues,
    pub first: u32,
}

/// The procedures of the modules of a project, and the values of its constants.
#[derive(Drop)]
pub struct Rows<'a> {
    pub values: ProjectValues,
    pub of: Vec<Vec<ProcedureRow<'a>>>,
}

/// The values of names of a procedure.
fn values_of(
    alloc: Global,
    project: &ProjectValues,
    scope: Scope,
    locals: &[Local],
) -> Result<OwnValues, NoMemory>
    requires placed { IsPlaced (scope_view scope) }
    requires values { AreProjectValues project.now (scope_view scope).spaces }
    ensures { IfOk result (λ own. AreOwnValues own (with_names (scope_view scope.entry) (map local_view locals.now))) }
{
    let inside = Scope {
        spaces: scope.spaces,
        here: scope.here,
        locals: &*locals,
    };
    own_values(alloc, project, inside)
}

/// A procedure by the number of its entry, with the number of its first static.
fn procedure_row<'a>(
    alloc: Global,
    project: &ProjectValues,
    scope: Scope<'a>,
    number: usize,
    written: Written<'a>,
    first: u32,
) -> Result<ProcedureRow<'a>, NoMemory>
    requires placed { IsPlaced (scope_view scope) }
    requires values { AreProjectValues project.now (scope_view scope).spaces }
    ensures row { IfOk result (λ row. row_view row ≡ row_at (scope_view scope.entry) first (number, written_view written.entry)) }
    ensures values { IfOk result (λ row. HasValues (scope_view scope.entry) row) }
{
    let locals = locals_of(alloc, scope, written)?;
    let values = values_of(alloc, project, scope, locals.as_slice())?;
    Ok(ProcedureRow {
        number,
        written,
        locals,
        values,
        first,
    })
}

/// Adds a procedure.
#[tactic(auto, using(crate::proofs::Steps::rows_push, crate::proofs::Steps::values_push))]
fn push_row<'a>(rows: &mut Vec<ProcedureRow<'a>>, row: ProcedureRow<'a>) -> Result<(), NoMemory>
    ensures rows { OnOk result (map row_view rows.new.items ≡ map row_view rows.old.items ++ row_view row.entry ∷ []) }
    ensures values { OnOk result ((s : scopes.Scope) → HaveOwnValues s rows.old.items → HasValues s row.entry → HaveOwnValues s rows.new.items) }
{
    Ok(rows.push(row)?)
}

/// Adds a procedure of a module, and goes on behind its statics.
fn push_procedure<'a>(
    alloc: Global,
    project: &ProjectValues,
    scope: Scope<'a>,
    number: usize,
    written: Written<'a>,
    first: &mut u32,
    rows: &mut Vec<ProcedureRow<'a>>,
) -> Result<(), NoMemory>
    requires placed { IsPlaced (scope_view scope) }
    requires values { AreProjectValues project.now (scope_view scope).spaces }
    ensures rows { OnOk result (map row_view rows.new.items
        ≡ map row_view rows.old.items ++ row_at (scope_view scope.entry) first.old (number, written_view written.entry) ∷ []) }
    ensures first { OnOk result (first.new ≡ first.old + counted storage.is_static (locals_of (scope_view scope.entry) (written_view written.entry))) }
    ensures values { OnOk result (HaveOwnValues (scope_view scope.entry) rows.old.items → HaveOwnValues (scope_view scope.entry) rows.new.items) }
{
    let row = procedure_row(alloc, project, scope, number, written, *first)?;
    *first = sum(*first, count_kept(Kept::Static, row.locals.as_slice())?)?;
    push_row(rows, row)?;
    Ok(())
}

/// The procedures of a module, where it is told how many variables are shared before the module.
#[tactic(auto, using(std::proofs::lemmas::List::drop_more))]
fn module_rows<'a>(
    alloc: Global,
    project: &ProjectValues,
    scope: Scope<'a>,
    before: u32,
) -> Result<Vec<ProcedureRow<'a>>, NoMemory>
    requires placed { IsPlaced (scope_view scope) }
    requires values { AreProjectValues project.now (scope_view scope).spaces }
    requires before { before ≡ storage.shared_before (scope_view scope) (scope_view scope).spaces (scope_view scope).here }
    ensures { IfOk result (λ rows. AreRowsOf (scope_view scope.entry) rows.items) }
{
    let mut rows = Vec::new(alloc);
    let mut first = sum(before, variable_count(scope.here)?)?;
    for (number, entry) in scope.here.entries.iter().enumerate() {
        if let What::Procedure(written) = entry.what {
            push_procedure(
                alloc, project, scope, number, written, &mut first, &mut rows,
            )?;
        }
    }
    Ok(rows)
}

/// Adds the procedures of a module.
#[tactic(auto, using(crate::proofs::Steps::row_lists_push))]
fn push_rows<'a>(
    of: &mut Vec<Vec<ProcedureRow<'a>>>,
    rows: Vec<ProcedureRow<'a>>,
) -> Result<(), NoMemory>
    ensures { OnOk result (row_lists of.new.items ≡ row_lists of.old.items ++ rows.entry.items ∷ []) }
{
    Ok(of.push(rows)?)
}

/// Adds the procedures of the next module, and goes on behind its shared variables.
fn push_module<'a>(
    alloc: Global,
    project: &ProjectValues,
    spaces: &'a [Space<'a>],
    space: &'a Space<'a>,
    before: &mut u32,
    of: &mut Vec<Vec<ProcedureRow<'a>>>,
) -> Result<(), NoMemory>
    requires placed { IsPlaced (module_scope spaces.now space.now) }
    requires values { AreProjectValues project.now (map space_view spaces.now) }
    requires before { before.old ≡ storage.shared_before (module_scope spaces.now space.now) (map space_view spaces.now) (space_view space.now) }
    ensures before { OnOk result (before.new ≡ before.old + length (storage.shared_of (module_scope spaces.now space.now))) }
    ensures of { OnOk result ((done : List scopes.Space) → AreRowsFrom (map space_view spaces.now) (row_lists of.old.items) done
        → AreRowsFrom (map space_view spaces.now) (row_lists of.new.items) (done ++ space_view space.now ∷ [])) }
{
    let scope = Scope {
        spaces,
        here: space,
        locals: &[],
    };
    let rows = module_rows(alloc, project, scope, *before)?;
    *before = sum(*before, shared_count(scope, rows.as_slice())?)?;
    push_rows(of, rows)?;
    Ok(())
}

/// The procedures of the modules of a project.
///
/// It fails only for want of memory.
pub fn project_rows<'a>(alloc: Global, spaces: &'a [Space<'a>]) -> Result<Rows<'a>, NoMemory>
    requires { AreNumbered (map space_view spaces.now) }
    ensures { IfOk result (λ rows. AreRows rows (map space_view spaces.now)) }
{
    let values = project_values(alloc, spaces)?;
    let mut of = Vec::new(alloc);
    let mut before = 0;
    for space in spaces {
        push_module(alloc, &values, spaces, space, &mut before, &mut of)?;
    }
    Ok(Rows { values, of })
}

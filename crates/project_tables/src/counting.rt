//! How many variables modules share.

ghost use Rattle.std.specs.Prelude.{◌≡◌, ◌+◌, IfOk, length, map};
ghost use Rattle.bound_declarations.specs.constant_values.specs.declared_names.specs.binder.specs.Storage as storage;
ghost use Rattle.bound_declarations.specs.constant_values.specs.declared_names.specs.View.{scope_view, space_view};
ghost use Rattle.project_tables.specs.Rows.{AreRowsOf, row_view};
ghost use Rattle.project_tables.specs.Steps.{own_variables, statics_of};

use crate::rows::ProcedureRow;
use bound_declarations::constant_values::declared_names::{Counted, Scope, Space, count_of};
use bound_declarations::{Kept, count_kept};
use vba_base::NoMemory;

/// The sum of two numbers.
pub(crate) fn sum(one: u32, other: u32) -> Result<u32, NoMemory>
    ensures { IfOk result (λ sum. sum ≡ one + other) }
{
    one.checked_add(other).ok_or(NoMemory)
}

/// How many variables a module declares itself that are shared. Those of a class are not.
pub(crate) fn variable_count(space: &Space) -> Result<u32, NoMemory>
    ensures { IfOk result (λ count. count ≡ own_variables (space_view space.now)) }
{
    if space.source.is_class {
        return Ok(0);
    }
    count_of(Counted::Variables, space.entries.as_slice())
}

/// How many statics procedures have.
#[tactic(auto, using(std::proofs::lemmas::List::drop_more))]
fn static_count(rows: &[ProcedureRow]) -> Result<u32, NoMemory>
    ensures { IfOk result (λ count. count ≡ statics_of (map row_view rows.now)) }
{
    let mut count = 0;
    for row in rows {
        count = sum(count, count_kept(Kept::Static, row.locals.as_slice())?)?;
    }
    Ok(count)
}

/// How many variables a module shares: its own, and the statics of its procedures.
pub(crate) fn shared_count(scope: Scope, rows: &[ProcedureRow]) -> Result<u32, NoMemory>
    requires { AreRowsOf (scope_view scope) rows.now }
    ensures { IfOk result (λ count. count ≡ length (storage.shared_of (scope_view scope.entry))) }
{
    let statics = static_count(rows)?;
    sum(variable_count(scope.here)?, statics)
}

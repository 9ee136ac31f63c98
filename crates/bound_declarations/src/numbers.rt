//! The numbers of procedures.

ghost use Rattle.std.specs.Prelude.{◌≡◌, IfOk};
ghost use Rattle.constant_values.specs.declared_names.specs.binder.specs.Storage as storage;
ghost use Rattle.constant_values.specs.declared_names.specs.View.{scope_view, space_view};

use constant_values::declared_names::{Counted, Scope, Space, entries_before};
use vba_base::NoMemory;

/// A procedure's number in the project, by its entry.
pub fn procedure_number(scope: Scope, space: &Space, number: usize) -> Result<u32, NoMemory>
    ensures { IfOk result (λ found. found ≡ storage.procedure_number (scope_view scope.entry) (space_view space.now) number) }
{
    entries_before(Counted::Procedures, scope.spaces, space, number)
}

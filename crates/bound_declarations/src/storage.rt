//! Where the names of a procedure are kept.

ghost use Rattle.std.specs.Prelude.{◌≡◌, suc, IfOk};
ghost use Rattle.constant_values.specs.declared_names.specs.binder.specs.Storage as storage;
ghost use Rattle.bound_project.specs.Expressions as expressions;
ghost use Rattle.bound_project.specs.View.{storage_view};
ghost use Rattle.constant_values.specs.declared_names.specs.View.{own_view, scope_view};

use crate::kept::{Kept, count_before, count_kept, sum};
use bound_project::Storage;
use constant_values::declared_names::{Own, Scope};
use vba_base::NoMemory;

/// A variable of the frame, behind the result and so many others.
fn behind_result(before: u32) -> Result<Storage, NoMemory>
    ensures { IfOk result (λ kept. storage_view kept ≡ expressions.local (suc before)) }
{
    Ok(Storage::Local(sum(before, 1)?))
}

/// Where a name of a procedure is kept, by its number, with the number of the first static of the procedure.
pub fn own_storage(scope: Scope, first: u32, number: usize, own: Own) -> Result<Storage, NoMemory>
    ensures { IfOk result (λ kept. storage_view kept ≡ storage.own_storage (scope_view scope.entry) first number (own_view own.entry)) }
{
    match own {
        Own::Result(_) => Ok(Storage::Local(0)),
        Own::Parameter(_) => {
            let framed = count_kept(Kept::Framed, scope.locals)?;
            behind_result(sum(
                framed,
                count_before(Kept::Parameters, scope.locals, number)?,
            )?)
        }
        Own::Variable {
            is_static: true,
            ..
        }
        | Own::Array {
            is_static: true,
            ..
        }
        | Own::Undeclared { is_static: true } => {
            let before = count_before(Kept::Static, scope.locals, number)?;
            Ok(Storage::Shared(sum(first, before)?))
        }
        Own::Variable { .. } | Own::Array { .. } | Own::Undeclared { .. } | Own::Constant(_) => {
            behind_result(count_before(Kept::Framed, scope.locals, number)?)
        }
    }
}

//! The scopes of procedures.

ghost use Rattle.std.specs.Prelude.{◌≡◌, map};
ghost use Rattle.bound_declarations.specs.constant_values.specs.Rounds.{IsPlaced};
ghost use Rattle.bound_declarations.specs.constant_values.specs.Tables.{AreConstants, AreProjectValues};
ghost use Rattle.bound_declarations.specs.constant_values.specs.declared_names.specs.View.{local_view, scope_view};
ghost use Rattle.project_tables.specs.Steps.{HasValues, with_names};

use crate::rows::ProcedureRow;
use bound_declarations::constant_values::declared_names::Scope;
use bound_declarations::constant_values::{Constants, ProjectValues, constants_in};

/// The scope in a procedure, with the values of its constants.
pub(crate) fn constants_of<'r, 'a>(
    scope: Scope<'a>,
    project: &'r ProjectValues,
    row: &'r ProcedureRow<'a>,
) -> Constants<'r>
    requires placed { IsPlaced (scope_view scope) }
    requires values { AreProjectValues project.now (scope_view scope).spaces }
    requires own { HasValues (scope_view scope) row.now }
    ensures scope { scope_view result.scope ≡ with_names (scope_view scope.entry) (map local_view row.now.locals.items) }
    ensures values { AreConstants result }
{
    let inside = Scope {
        spaces: scope.spaces,
        here: scope.here,
        locals: row.locals.as_slice(),
    };
    constants_in(inside, project, &row.values)
}

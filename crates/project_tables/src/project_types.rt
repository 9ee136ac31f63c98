//! The Types of a project.

ghost use Rattle.std.specs.Prelude.{◌≡◌, ◌++◌, IfOk, OnOk, map};
ghost use Rattle.bound_declarations.specs.constant_values.specs.declared_names.specs.binder.specs.Storage as storage;
ghost use Rattle.bound_project.specs.View.{user_type_view};
ghost use Rattle.bound_declarations.specs.constant_values.specs.Rounds.{AreNumbered, IsPlaced};
ghost use Rattle.bound_declarations.specs.constant_values.specs.Tables.{AreProjectValues};
ghost use Rattle.bound_declarations.specs.constant_values.specs.declared_names.specs.View.{space_view};
ghost use Rattle.project_tables.specs.Rows.{AreRows};
ghost use Rattle.project_tables.specs.Signed.{whole_scope};
ghost use Rattle.project_tables.specs.Steps.{module_scope};

use crate::rows::Rows;
use bound_declarations::constant_values::declared_names::{Scope, Space};
use bound_declarations::constant_values::{ProjectValues, constants_in, own_values};
use bound_declarations::{NotYet, module_types};
use bound_project::UserType;
use std::alloc::Global;
use vba_base::OrMemory;

/// Adds the Types of a module.
fn push_types<'a>(
    alloc: Global,
    spaces: &'a [Space<'a>],
    space: &'a Space<'a>,
    project: &ProjectValues,
    types: &mut Vec<UserType>,
) -> Result<(), OrMemory<NotYet>>
    requires placed { IsPlaced (module_scope spaces.now space.now) }
    requires values { AreProjectValues project.now (map space_view spaces.now) }
    ensures { OnOk result (map user_type_view types.new.items
        ≡ map user_type_view types.old.items ++ storage.types_of_space (module_scope spaces.now space.now) (space_view space.now).entries) }
{
    let scope = Scope {
        spaces,
        here: space,
        locals: &[],
    };
    let own = own_values(alloc, project, scope)?;
    let constants = constants_in(scope, project, &own);
    module_types(alloc, constants, space.entries.as_slice(), types)
}

/// The Types of a project in the order of their numbers.
#[tactic(auto, using(std::proofs::lemmas::List::drop_more))]
pub(crate) fn user_types<'a>(
    alloc: Global,
    spaces: &'a [Space<'a>],
    rows: &Rows<'a>,
) -> Result<Vec<UserType>, OrMemory<NotYet>>
    requires numbered { AreNumbered (map space_view spaces.now) }
    requires rows { AreRows rows.now (map space_view spaces.now) }
    ensures { IfOk result (λ types. map user_type_view types.items ≡ storage.user_types (whole_scope (map space_view spaces.now))) }
{
    let mut types = Vec::new(alloc);
    for space in spaces {
        push_types(alloc, spaces, space, &rows.values, &mut types)?;
    }
    Ok(types)
}

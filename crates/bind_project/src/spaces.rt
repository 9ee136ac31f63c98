//! The modules of a project, bound in order.

ghost use Rattle.std.specs.Prelude.{◌≡◌, OnOk, map};
ghost use Rattle.bind_project.specs.Homes.{HomeStands};
ghost use Rattle.bind_project.specs.Modules as modules;
ghost use Rattle.bind_project.specs.Modules.{IsFront, SpaceAdded, SpacesAdded};
ghost use Rattle.binder.specs.Projects as declaring;
ghost use Rattle.bound_project.specs.DraftView.{draft_view};
ghost use Rattle.bound_names.specs.bound_members.specs.bound_calls.specs.bound_declarations.specs.constant_values.specs.Rounds.{AreNumbered};
ghost use Rattle.bound_names.specs.bound_members.specs.bound_calls.specs.bound_declarations.specs.constant_values.specs.declared_names.specs.Outside.{the_outside};
ghost use Rattle.bound_names.specs.bound_members.specs.bound_calls.specs.bound_declarations.specs.constant_values.specs.declared_names.specs.View.{scope_view, space_view};
ghost use Rattle.bound_names.specs.project_tables.specs.Rows.{AreRows, AreRowsOf};
ghost use Rattle.bound_project.specs.View.{declarations_view};
ghost use Rattle.bound_names.specs.project_tables.specs.Signed.{AreSignatures, whole_scope};

use crate::home::Home;
use crate::modules::bind_parts;
use bound_names::bound_members::bound_calls::bound_declarations::constant_values::declared_names::{
    Scope, Space,
};
use bound_names::bound_members::bound_calls::bound_declarations::has_new;
use bound_names::project_tables::{ProcedureRow, Rows, Signatures};
use bound_project::{Declarations, Draft};
use std::alloc::Global;
use vba_base::{OrMemory, Place};

/// Where a project is told that isn't bound, if no part of it is.
pub(crate) fn front() -> Place
    ensures { result ≡ modules.front }
{
    Place {
        module: 1,
        line: 1,
        column: 1,
    }
}

/// Binds a module.
#[tactic(auto, using(crate::proofs::Rows::rows_numbered, crate::proofs::Rows::rows_fit, crate::proofs::ByModule::space_added))]
fn bind_space<'a>(
    alloc: Global,
    draft: &mut Draft,
    home: Home<'a>,
    rows: &'a [ProcedureRow<'a>],
) -> Result<(), OrMemory<Place>>
    requires home { HomeStands home }
    requires front { IsFront (draft_view draft.old) }
    requires rows { AreRowsOf (scope_view home.scope) rows.now }
    ensures { OnOk result (SpaceAdded (scope_view home.entry.scope) (draft_view draft.old) (draft_view draft.new)) }
{
    let source = home.scope.here.source;
    let parts = source.parts.as_slice();
    bind_parts(alloc, draft, home, rows, parts)
}

/// Binds the modules of a project.
#[tactic(auto, using(crate::proofs::ByModule::spaces_begin, crate::proofs::ByModule::space_walked, crate::proofs::ByModule::spaces_end, crate::proofs::Rows::all_placed))]
pub(crate) fn bind_spaces<'a>(
    alloc: Global,
    draft: &mut Draft,
    spaces: &'a [Space<'a>],
    rows: &'a Rows<'a>,
    signatures: &'a Signatures,
    declared: &'a Declarations,
) -> Result<(), OrMemory<Place>>
    requires front { IsFront (draft_view draft.old) }
    requires numbered { AreNumbered (map space_view spaces.now) }
    requires rows { AreRows rows.now (map space_view spaces.now) }
    requires signed { AreSignatures signatures.now (map space_view spaces.now) }
    requires declared { declarations_view declared.now ≡ declaring.declarations_of the_outside (whole_scope (map space_view spaces.now)) (map space_view spaces.now) }
    ensures { OnOk result (SpacesAdded the_outside (map space_view spaces.now) (draft_view draft.old) (draft_view draft.new)) }
{
    let values = &rows.values;
    let has_new = has_new(&*spaces);
    let mut waiting = rows.of.as_slice();
    let mut left = spaces;
    'spaces: while let [here, behind @ ..] = left {
        let [of_here, others @ ..] = waiting else {
            return Err(OrMemory::Fault(front()));
        };
        let scope = Scope {
            spaces: &*spaces,
            here,
            locals: &[],
        };
        let home = Home {
            scope,
            values,
            signatures: &*signatures,
            declared: &*declared,
            has_new,
        };
        bind_space(alloc, draft, home, of_here.as_slice())?;
        waiting = others;
        left = behind;
    }
    Ok(())
}

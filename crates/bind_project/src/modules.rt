//! Modules, bound part by part, with their procedures in order.

ghost use Rattle.std.specs.Prelude.{◌≡◌, ◌∷◌, ℕ, true, List, IfOk, OnOk, drop, map};
ghost use Rattle.bind_project.specs.Homes.{HomeStands};
ghost use Rattle.bind_project.specs.Modules as modules;
ghost use Rattle.bind_project.specs.Modules.{IsFront, PartsAdded, PartsWalked};
ghost use Rattle.bind_project.specs.Procedures.{RowsFit, numbered_view};
ghost use Rattle.bound_names.specs.bound_members.specs.bound_calls.specs.bound_forms.specs.Bind as bind;
ghost use Rattle.binder.specs.Declarations as plain;
ghost use Rattle.bound_project.specs.DraftView.{draft_view};
ghost use Rattle.bound_project.specs.Drafts.{Drafted};
ghost use Rattle.bound_names.specs.bound_members.specs.bound_calls.specs.bound_declarations.specs.constant_values.specs.declared_names.specs.View.{scope_view};
ghost use Rattle.module_parts.specs.View.{part_view, parts_view};
ghost use Rattle.vba_module.specs.Parts as parts;

use crate::built_parts::is_built_part;
use crate::home::Home;
use crate::procedures::bind_procedure;
use bound_names::project_tables::ProcedureRow;
use bound_project::Draft;
use module_parts::{Part, place_of};
use std::alloc::Global;
use vba_base::{OrMemory, Place};
use vba_tree::LineTree;

/// Does a part begin a procedure?
fn is_header(part: &Part) -> bool
    ensures { result ≡ modules.is_header (part_view part.now) }
{
    match part {
        Part::WholeLine(LineTree::ProcedureHeader(_)) => true,
        _ => false,
    }
}

/// Binds the procedure with this number in its module, which a part begins; answers the number of the next one.
fn bind_headed<'a>(
    alloc: Global,
    draft: &mut Draft,
    home: Home<'a>,
    rows: &'a [ProcedureRow<'a>],
    next: usize,
    part: &Part,
) -> Result<usize, OrMemory<Place>>
    requires home { HomeStands home }
    requires front { IsFront (draft_view draft.old) }
    requires fit { RowsFit (scope_view home.scope) rows.now }
    requires header { modules.is_header (part_view part.now) ≡ true }
    requires built { bind.is_built_part (scope_view home.scope) (part_view part.now) ≡ true }
    ensures { IfOk result (λ behind. (all : List (ℕ × plain.Written)) (every left : List parts.Part) (base : Drafted)
        → PartsWalked (scope_view home.entry.scope) all every base (map numbered_view (drop next rows.now)) (part_view part.now ∷ left) (draft_view draft.old)
        → PartsWalked (scope_view home.entry.scope) all every base (map numbered_view (drop behind rows.now)) left (draft_view draft.new)) }
{
    match rows.get(next) {
        Some(row) => {
            bind_procedure(alloc, draft, home, row)?;
            Ok(next + 1)
        }
        None => Err(OrMemory::Fault(place_of(part))),
    }
}

/// Binds a part that may begin the procedure with this number in its module; answers the number of the next one.
#[tactic(auto, using(crate::proofs::ByModule::part_walked))]
fn bind_next<'a>(
    alloc: Global,
    draft: &mut Draft,
    home: Home<'a>,
    rows: &'a [ProcedureRow<'a>],
    next: usize,
    part: &Part,
) -> Result<usize, OrMemory<Place>>
    requires home { HomeStands home }
    requires front { IsFront (draft_view draft.old) }
    requires fit { RowsFit (scope_view home.scope) rows.now }
    ensures { IfOk result (λ behind. (all : List (ℕ × plain.Written)) (every left : List parts.Part) (base : Drafted)
        → PartsWalked (scope_view home.entry.scope) all every base (map numbered_view (drop next rows.now)) (part_view part.now ∷ left) (draft_view draft.old)
        → PartsWalked (scope_view home.entry.scope) all every base (map numbered_view (drop behind rows.now)) left (draft_view draft.new)) }
{
    if !is_built_part(home.scope, part)? {
        return Err(OrMemory::Fault(place_of(part)));
    }
    if is_header(part) {
        bind_headed(alloc, draft, home, rows, next, part)
    } else {
        Ok(next)
    }
}

/// Binds the parts of a module.
#[tactic(auto, using(crate::proofs::ByModule::parts_begin, crate::proofs::ByModule::parts_end, crate::proofs::Rows::none_from))]
pub(crate) fn bind_parts<'a>(
    alloc: Global,
    draft: &mut Draft,
    home: Home<'a>,
    rows: &'a [ProcedureRow<'a>],
    parts: &[Part],
) -> Result<(), OrMemory<Place>>
    requires home { HomeStands home }
    requires front { IsFront (draft_view draft.old) }
    requires fit { RowsFit (scope_view home.scope) rows.now }
    ensures { OnOk result (PartsAdded (scope_view home.entry.scope) (map numbered_view rows.now) (parts_view parts.now) (draft_view draft.old) (draft_view draft.new)) }
{
    let mut next = 0;
    let mut left = parts;
    'parts: while let [part, behind @ ..] = left {
        next = bind_next(alloc, draft, home, rows, next, part)?;
        left = behind;
    }
    match rows.get(next) {
        Some(row) => Err(OrMemory::Fault(row.written.place)),
        None => Ok(()),
    }
}

//! The modules of a project, bound.

ghost use Rattle.std.specs.Prelude.{◌≡◌, Some, None, IfOk, map};
ghost use Rattle.bind_project.specs.Bound.{IsBound, Runs};
ghost use Rattle.binder.specs.Projects as declaring;
ghost use Rattle.bound_names.specs.bound_members.specs.bound_calls.specs.bound_forms.specs.Bind as plain;
ghost use Rattle.binder.specs.Names.{scope_of};
ghost use Rattle.bound_project.specs.Bodies.{Fits, project_view};
ghost use Rattle.bound_project.specs.DraftView.{draft_view};
ghost use Rattle.bound_project.specs.View.{declarations_view};
ghost use Rattle.bound_names.specs.bound_members.specs.bound_calls.specs.bound_declarations.specs.constant_values.specs.Rounds.{AreNumbered};
ghost use Rattle.bound_names.specs.bound_members.specs.bound_calls.specs.bound_declarations.specs.constant_values.specs.declared_names.specs.Outside.{the_outside};
ghost use Rattle.bound_names.specs.bound_members.specs.bound_calls.specs.bound_declarations.specs.constant_values.specs.declared_names.specs.View.{space_view};
ghost use Rattle.bound_names.specs.project_tables.specs.Rows.{AreRows};
ghost use Rattle.bound_names.specs.project_tables.specs.Signed.{AreSignatures};
ghost use Rattle.bound_names.specs.project_tables.specs.Startups.{startup_view};

use crate::bound::Bound;
use crate::spaces::{bind_spaces, front};
use bound_names::bound_members::bound_calls::bound_declarations::constant_values::declared_names::Space;
use bound_names::project_tables::{
    Rows, Signatures, Startup, declarations, project_rows, project_signatures, startup_number,
};
use bound_project::{Declarations, Draft, Project};
use std::alloc::Global;
use vba_base::{NoMemory, OrMemory, Place, Refusal};

/// What calls and module variables need of a project.
fn signatures_of<'a>(
    alloc: Global,
    spaces: &'a [Space<'a>],
    rows: &Rows<'a>,
) -> Result<Signatures, OrMemory<Place>>
    requires numbered { AreNumbered (map space_view spaces.now) }
    requires rows { AreRows rows.now (map space_view spaces.now) }
    ensures { IfOk result (λ signatures. AreSignatures signatures (map space_view spaces.now)) }
{
    match project_signatures(alloc, spaces, rows) {
        Ok(signatures) => Ok(signatures),
        Err(OrMemory::Fault(_)) => Err(OrMemory::Fault(front())),
        Err(OrMemory::NoMemory) => Err(OrMemory::NoMemory),
    }
}

/// All that a project declares.
fn declared_in<'a>(
    alloc: Global,
    spaces: &'a [Space<'a>],
    rows: &Rows<'a>,
) -> Result<Declarations, OrMemory<Place>>
    requires numbered { AreNumbered (map space_view spaces.now) }
    requires rows { AreRows rows.now (map space_view spaces.now) }
    ensures { IfOk result (λ declared. declarations_view declared
        ≡ declaring.declarations_of the_outside (scope_of the_outside (map space_view spaces.now) declaring.no_space) (map space_view spaces.now)) }
{
    match declarations(alloc, spaces, rows) {
        Ok(declared) => Ok(declared),
        Err(OrMemory::Fault(_)) => Err(OrMemory::Fault(front())),
        Err(OrMemory::NoMemory) => Err(OrMemory::NoMemory),
    }
}

/// The bodies of the procedures of a project.
#[tactic(auto, using(crate::proofs::WholeProject::from_nothing))]
fn bind_bodies<'a>(
    alloc: Global,
    spaces: &'a [Space<'a>],
    rows: &'a Rows<'a>,
    declared: &'a Declarations,
) -> Result<Draft, OrMemory<Place>>
    requires numbered { AreNumbered (map space_view spaces.now) }
    requires rows { AreRows rows.now (map space_view spaces.now) }
    requires declared { declarations_view declared.now ≡ declaring.declarations_of the_outside (scope_of the_outside (map space_view spaces.now) declaring.no_space) (map space_view spaces.now) }
    ensures { IfOk result (λ draft. (plain.left_in_spaces the_outside (map space_view spaces.now) (map space_view spaces.now) ≡ None)
        × (plain.all_bodies (scope_of the_outside (map space_view spaces.now) declaring.no_space) (map space_view spaces.now) ≡ Some (draft_view draft).bodies)) }
{
    let signatures = signatures_of(alloc, &*spaces, &*rows)?;
    let mut draft = Draft::new(alloc);
    bind_spaces(alloc, &mut draft, &*spaces, &*rows, &signatures, &*declared)?;
    Ok(draft)
}

/// The number of the macro to begin with.
fn startup_of<'a>(spaces: &'a [Space<'a>], startup: Startup) -> Result<u32, OrMemory<Place>>
    ensures { IfOk result (λ number.
        declaring.startup_number (scope_of the_outside (map space_view spaces.now) declaring.no_space) (startup_view startup.entry) (map space_view spaces.now) ≡ Some number) }
{
    match startup_number(spaces, startup)? {
        Some(number) => Ok(number),
        None => Err(OrMemory::Fault(front())),
    }
}

/// The project that modules mean, or where a part stands that isn't bound yet.
#[tactic(auto, using(crate::proofs::WholeProject::runs))]
fn project_of<'a>(
    alloc: Global,
    spaces: &'a [Space<'a>],
    startup: Startup,
) -> Result<Project, OrMemory<Place>>
    requires { AreNumbered (map space_view spaces.now) }
    ensures fits { IfOk result (λ project. Fits project) }
    ensures runs { IfOk result (λ project. Runs the_outside (map space_view spaces.now) (startup_view startup.entry) (project_view project)) }
{
    let rows = project_rows(alloc, &*spaces)?;
    let declared = declared_in(alloc, &*spaces, &rows)?;
    let draft = bind_bodies(alloc, &*spaces, &rows, &declared)?;
    let startup = startup_of(&*spaces, startup)?;
    Ok(draft.finish(declared, startup))
}

/// S33: the macro to begin with isn't there, which is told at the front of the project.
///
/// It fails only where numbers of procedures outgrow their type.
pub fn startup_fault<'a>(
    spaces: &'a [Space<'a>],
    startup: Startup,
) -> Result<Option<Refusal>, NoMemory>
    ensures { IfOk result (λ fault. fault ≡ declaring.startup_fault the_outside (map space_view spaces.now) (startup_view startup.entry)) }
{
    match startup_number(spaces, startup)? {
        Some(_) => Ok(None),
        None => Ok(Some(Refusal {
            rule: 33,
            place: front(),
        })),
    }
}

/// Binds the modules of a project, which break no rule.
pub fn bind<'a>(alloc: Global, spaces: &'a [Space<'a>], startup: Startup) -> Result<Bound, NoMemory>
    requires { AreNumbered (map space_view spaces.now) }
    ensures { IfOk result (λ bound. IsBound the_outside (map space_view spaces.now) (startup_view startup.entry) bound) }
{
    match project_of(alloc, spaces, startup) {
        Ok(project) => Ok(Bound::Runs(project)),
        Err(OrMemory::Fault(place)) => Ok(Bound::NotBuilt(place)),
        Err(OrMemory::NoMemory) => Err(NoMemory),
    }
}

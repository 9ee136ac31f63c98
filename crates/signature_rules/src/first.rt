//! Which of the two rules on signatures a project breaks first.

ghost use Rattle.std.specs.Prelude.{◌≡◌, None, IfOk, OnOk, map};
ghost use Rattle.bound_declarations.specs.constant_values.specs.declared_names.specs.binder.specs.Names.{scope_of};
ghost use Rattle.bound_declarations.specs.constant_values.specs.Rounds.{AreNumbered, IsPlaced};
ghost use Rattle.bound_declarations.specs.constant_values.specs.Tables.{AreProjectValues};
ghost use Rattle.bound_declarations.specs.constant_values.specs.declared_names.specs.Outside.{the_outside};
ghost use Rattle.bound_declarations.specs.constant_values.specs.declared_names.specs.View.{scope_view, space_view};
ghost use Rattle.refusal_order.specs.Least.{least_of};
ghost use Rattle.signature_rules.specs.Signatures as plain;
ghost use Rattle.use_rules.specs.Found.{noted};

use crate::handlers::note_wrong_handlers;
use crate::properties::note_properties;
use bound_declarations::constant_values::declared_names::{Scope, Space};
use bound_declarations::constant_values::{ProjectValues, project_values};
use std::alloc::Global;
use vba_base::{NoMemory, Refusal};

/// Notes where a module breaks S31.
fn note_module_properties<'a>(
    alloc: Global,
    scope: Scope<'a>,
    project: &ProjectValues,
    least: &mut Option<Refusal>,
) -> Result<(), NoMemory>
    requires placed { IsPlaced (scope_view scope) }
    requires values { AreProjectValues project.now (scope_view scope).spaces }
    ensures { OnOk result (least.new ≡ noted 31 least.old (plain.properties_differ (scope_view scope.entry))) }
{
    let entries = scope.here.entries.as_slice();
    note_properties(alloc, scope, project, entries, least)
}

/// The least place at which a module breaks one of them.
#[tactic(auto, using(crate::proofs::Found::module_found))]
fn module_signature<'a>(
    alloc: Global,
    scope: Scope<'a>,
    project: &ProjectValues,
) -> Result<Option<Refusal>, NoMemory>
    requires placed { IsPlaced (scope_view scope) }
    requires values { AreProjectValues project.now (scope_view scope).spaces }
    ensures { IfOk result (λ least. least ≡ least_of None (plain.signature_faults (scope_view scope.entry))) }
{
    let mut least = None;
    note_module_properties(alloc, scope, project, &mut least)?;
    note_wrong_handlers(alloc, scope, project, &mut least)?;
    Ok(least)
}

/// The same of a module of a project.
fn signature_at<'a>(
    alloc: Global,
    spaces: &'a [Space<'a>],
    here: &'a Space<'a>,
    project: &ProjectValues,
) -> Result<Option<Refusal>, NoMemory>
    requires placed { IsPlaced (scope_of the_outside (map space_view spaces.now) (space_view here.now)) }
    requires values { AreProjectValues project.now (map space_view spaces.now) }
    ensures { IfOk result (λ least. least ≡ least_of None (plain.signature_faults (scope_of the_outside (map space_view spaces.now) (space_view here.now)))) }
{
    let scope = Scope {
        spaces: &*spaces,
        here: &*here,
        locals: &[],
    };
    module_signature(alloc, scope, project)
}

/// The least place of the first module of a project that breaks S31 or S32.
pub fn first_signature<'a>(
    alloc: Global,
    spaces: &'a [Space<'a>],
) -> Result<Option<Refusal>, NoMemory>
    requires { AreNumbered (map space_view spaces.now) }
    ensures { IfOk result (λ least. least ≡ plain.first_signature the_outside (map space_view spaces.now)) }
{
    let project = project_values(alloc, spaces)?;
    for space in spaces {
        if let Some(least) = signature_at(alloc, &*spaces, space, &project)? {
            return Ok(Some(least));
        }
    }
    Ok(None)
}

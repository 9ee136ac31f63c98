//! Signatures by the names that stand in their scopes.

ghost use Rattle.std.specs.Prelude.{◌≡◌, false, option_map, IfOk, map};
ghost use Rattle.bound_declarations.specs.constant_values.specs.declared_names.specs.binder.specs.Names as names;
ghost use Rattle.bound_declarations.specs.constant_values.specs.declared_names.specs.binder.specs.Names.{scope_in};
ghost use Rattle.bound_declarations.specs.constant_values.specs.Rounds.{IsPlaced};
ghost use Rattle.bound_declarations.specs.constant_values.specs.Tables.{AreProjectValues};
ghost use Rattle.bound_declarations.specs.constant_values.specs.declared_names.specs.View.{local_view, scope_view, written_view};
ghost use Rattle.signature_rules.specs.Signatures as plain;
ghost use Rattle.signature_rules.specs.View.{signature_view};
ghost use Rattle.vba_module.specs.Headers.{parameters_of};
ghost use Rattle.vba_tree.specs.View.{parameters_view};

use crate::passed::Passed;
use crate::signature::{all_passed, signature};
use bound_declarations::constant_values::declared_names::{Local, Scope, Written};
use bound_declarations::constant_values::{ProjectValues, constants_in, own_values};
use procedure_names::locals_of;
use std::alloc::Global;
use vba_base::NoMemory;
use vba_tree::EventLine;

/// The signature of a procedure, in its own scope.
fn signature_here(
    alloc: Global,
    scope: Scope,
    project: &ProjectValues,
    written: Written,
) -> Result<Vec<Passed>, NoMemory>
    requires placed { IsPlaced (scope_view scope) }
    requires values { AreProjectValues project.now (scope_view scope).spaces }
    ensures { IfOk result (λ all. signature_view all.items ≡ plain.signature (scope_view scope.entry) (written_view written.entry)) }
{
    let own = own_values(alloc, project, scope)?;
    let constants = constants_in(scope, project, &own);
    signature(alloc, constants, written)
}

/// The scope of a procedure, with its names.
fn scope_inside<'a>(scope: Scope<'a>, written: Written<'a>, locals: &'a [Local<'a>]) -> Scope<'a>
    requires { map local_view locals.now ≡ names.locals_of (scope_view scope) (written_view written) }
    ensures { scope_view result ≡ scope_in (scope_view scope.entry) (written_view written.entry) }
{
    let _written = written;
    Scope {
        spaces: scope.spaces,
        here: scope.here,
        locals: &*locals,
    }
}

/// The signature of a procedure of a module.
pub fn signature_inside<'a>(
    alloc: Global,
    scope: Scope<'a>,
    project: &ProjectValues,
    written: Written<'a>,
) -> Result<Vec<Passed>, NoMemory>
    requires placed { IsPlaced (scope_view scope) }
    requires values { AreProjectValues project.now (scope_view scope).spaces }
    ensures { IfOk result (λ all. signature_view all.items
        ≡ plain.signature (scope_in (scope_view scope.entry) (written_view written.entry)) (written_view written.entry)) }
{
    let locals = locals_of(alloc, scope, written)?;
    let inner = scope_inside(scope, written, locals.as_slice());
    let all = signature_here(alloc, inner, project, written)?;
    Ok(all)
}

/// How the arguments of an event are passed, in the scope of its module.
pub fn event_passed(
    alloc: Global,
    scope: Scope,
    project: &ProjectValues,
    event: &EventLine,
) -> Result<Vec<Passed>, NoMemory>
    requires placed { IsPlaced (scope_view scope) }
    requires values { AreProjectValues project.now (scope_view scope).spaces }
    ensures { IfOk result (λ all. signature_view all.items
        ≡ plain.all_passed (scope_view scope.entry) false (parameters_of (option_map parameters_view event.now.parameters))) }
{
    let own = own_values(alloc, project, scope)?;
    let constants = constants_in(scope, project, &own);
    all_passed(alloc, constants, false, &event.parameters)
}

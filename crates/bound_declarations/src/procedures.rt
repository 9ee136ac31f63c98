//! Procedures and modules as they are bound.

ghost use Rattle.std.specs.Prelude.{◌≡◌, map, IfOk};
ghost use Rattle.constant_values.specs.declared_names.specs.binder.specs.Projects as projects;
ghost use Rattle.constant_values.specs.declared_names.specs.binder.specs.Storage as storage;
ghost use Rattle.bound_declarations.specs.Whole.{procedure_in};
ghost use Rattle.bound_project.specs.View.{declaration_view, module_view, procedure_view, spelled_view};
ghost use Rattle.constant_values.specs.Tables.{AreConstants};
ghost use Rattle.constant_values.specs.declared_names.specs.View.{scope_view, space_view, written_view};

use crate::declared::declared_result;
use crate::kept::Kept;
use crate::kinds::kind_of;
use crate::lists::kept_declarations;
use crate::not_yet::NotYet;
use crate::parameters::parameters_of;
use bound_project::{Declaration, Module, Procedure, Spelled};
use constant_values::Constants;
use constant_values::declared_names::{Scope, Space, Written, spelled};
use std::alloc::Global;
use vba_base::{NoMemory, OrMemory};

/// The number of the module of a scope.
fn module_number(scope: Scope) -> Result<u32, NoMemory>
    ensures { IfOk result (λ number. number ≡ (scope_view scope.entry).here.number) }
{
    match u32::try_from(scope.here.number) {
        Ok(number) => Ok(number),
        Err(_) => Err(NoMemory),
    }
}

/// The variables of the frame of a procedure.
fn framed(alloc: Global, constants: Constants) -> Result<Vec<Declaration>, OrMemory<NotYet>>
    requires { AreConstants constants }
    ensures { IfOk result (λ framed. map declaration_view framed.items
        ≡ storage.declarations_if storage.is_framed (scope_view constants.entry.scope) (scope_view constants.entry.scope).locals) }
{
    let mut framed = Vec::new(alloc);
    let locals = constants.scope.locals;
    kept_declarations(alloc, Kept::Framed, constants, locals, &mut framed)?;
    Ok(framed)
}

/// A procedure without its statements, by its own scope.
pub fn bound_procedure(
    alloc: Global,
    constants: Constants,
    written: Written,
) -> Result<Procedure, OrMemory<NotYet>>
    requires { AreConstants constants }
    ensures { IfOk result (λ procedure. procedure_view procedure ≡ procedure_in (scope_view constants.entry.scope) (written_view written.entry)) }
{
    let scope = constants.scope;
    let here = scope.here;
    let in_module = module_number(scope)?;
    let name = spelled(alloc, here.source.text, &written.header.name)?;
    let result = declared_result(alloc, scope, written)?;
    let locals = framed(alloc, constants)?;
    Ok(Procedure {
        name,
        kind: kind_of(written.header.words),
        in_module,
        place: written.place,
        result,
        locals,
        parameters: parameters_of(alloc, constants, written)?,
    })
}

/// A copy of a name.
pub fn copy_name(alloc: Global, name: &Spelled) -> Result<Spelled, NoMemory>
    ensures { IfOk result (λ copy. spelled_view copy ≡ spelled_view name.now) }
{
    Ok(Spelled {
        spelling: name.spelling.copy(alloc)?,
        fold: name.fold.copy(alloc)?,
    })
}

/// A module.
pub fn bound_module(alloc: Global, space: &Space) -> Result<Module, NoMemory>
    ensures { IfOk result (λ made. module_view made ≡ projects.bound_module (space_view space.now)) }
{
    Ok(Module {
        name: copy_name(alloc, &space.name)?,
        compare: space.source.compare(),
        base: space.source.base(),
    })
}

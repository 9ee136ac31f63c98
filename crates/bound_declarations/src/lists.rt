//! The variables of procedures and modules.

ghost use Rattle.std.specs.Prelude.{◌≡◌, [], ◌∷◌, ◌++◌, map, OnOk};
ghost use Rattle.constant_values.specs.declared_names.specs.binder.specs.Storage as storage;
ghost use Rattle.bound_declarations.specs.Kept.{is_kept};
ghost use Rattle.bound_project.specs.View.{declaration_view};
ghost use Rattle.constant_values.specs.Tables.{AreConstants};
ghost use Rattle.constant_values.specs.declared_names.specs.View.{entry_view, local_view, scope_view};

use crate::declared::{declared_variable, own_declaration};
use crate::kept::{Kept, is_kept};
use crate::not_yet::NotYet;
use bound_project::Declaration;
use constant_values::Constants;
use constant_values::declared_names::{Entry, Local, What};
use std::alloc::Global;
use vba_base::{NoMemory, OrMemory};

/// Adds a declaration.
#[tactic(auto, using(crate::proofs::Pushes::declarations_push))]
pub(crate) fn push_declaration(
    declarations: &mut Vec<Declaration>,
    declaration: Declaration,
) -> Result<(), NoMemory>
    ensures { OnOk result (map declaration_view declarations.new.items
        ≡ map declaration_view declarations.old.items ++ declaration_view declaration ∷ []) }
{
    Ok(declarations.push(declaration)?)
}

/// Adds the declaration of a name of a procedure, where it is one of these.
fn push_kept(
    alloc: Global,
    which: Kept,
    constants: Constants,
    local: &Local,
    declarations: &mut Vec<Declaration>,
) -> Result<(), OrMemory<NotYet>>
    requires { AreConstants constants }
    ensures { OnOk result (map declaration_view declarations.new.items
        ≡ map declaration_view declarations.old.items ++ storage.declarations_if (is_kept which) (scope_view constants.entry.scope) (local_view local.now ∷ [])) }
{
    if !is_kept(which, local) {
        return Ok(());
    }
    match own_declaration(alloc, constants, local)? {
        Some(declaration) => Ok(push_declaration(declarations, declaration)?),
        None => Ok(()),
    }
}

/// Adds the declarations of the names of a procedure that are these.
#[tactic(auto, using(std::proofs::lemmas::List::drop_more, crate::proofs::Pushes::declarations_next))]
pub fn kept_declarations(
    alloc: Global,
    which: Kept,
    constants: Constants,
    locals: &[Local],
    declarations: &mut Vec<Declaration>,
) -> Result<(), OrMemory<NotYet>>
    requires { AreConstants constants }
    ensures { OnOk result (map declaration_view declarations.new.items
        ≡ map declaration_view declarations.old.items ++ storage.declarations_if (is_kept which) (scope_view constants.entry.scope) (map local_view locals.now)) }
{
    for local in locals {
        push_kept(alloc, which, constants, local, declarations)?;
    }
    Ok(())
}

/// Adds the variable that an entry of a module is, where it is one.
fn push_variable(
    alloc: Global,
    constants: Constants,
    entry: &Entry,
    declarations: &mut Vec<Declaration>,
) -> Result<(), OrMemory<NotYet>>
    requires { AreConstants constants }
    ensures { OnOk result (map declaration_view declarations.new.items
        ≡ map declaration_view declarations.old.items ++ storage.module_declarations (scope_view constants.entry.scope) (entry_view entry.now ∷ [])) }
{
    match entry.what {
        What::Variable(variable) => {
            let declaration = declared_variable(alloc, constants, variable)?;
            Ok(push_declaration(declarations, declaration)?)
        }
        _ => Ok(()),
    }
}

/// Adds the variables among the entries of a module.
#[tactic(auto, using(std::proofs::lemmas::List::drop_more, crate::proofs::Pushes::variables_next))]
pub fn module_variables(
    alloc: Global,
    constants: Constants,
    entries: &[Entry],
    declarations: &mut Vec<Declaration>,
) -> Result<(), OrMemory<NotYet>>
    requires { AreConstants constants }
    ensures { OnOk result (map declaration_view declarations.new.items
        ≡ map declaration_view declarations.old.items ++ storage.module_declarations (scope_view constants.entry.scope) (map entry_view entries.now)) }
{
    for entry in entries {
        push_variable(alloc, constants, entry, declarations)?;
    }
    Ok(())
}

//! Tables of the values of all entries of a project, and of the names of a procedure, by what is known of names.

ghost use Rattle.std.specs.Prelude.{◌≡◌, IfOk, map};
ghost use Rattle.declared_names.specs.Outside.{the_outside};
ghost use Rattle.declared_names.specs.View.{scope_view, space_view};
ghost use Rattle.constant_values.specs.Names.{entries_by, locals_by, space_by};
ghost use Rattle.constant_values.specs.View.{names_view, slots_view, tables_view};

use crate::constant::{entry_in, own_in};
use crate::known::Known;
use crate::names::Names;
use declared_names::{Scope, Space};
use std::alloc::Global;
use vba_base::NoMemory;

/// The values of the entries of a module.
#[tactic(auto, using(crate::proofs::Pushes::slots_push))]
fn space_by<'a>(
    alloc: Global,
    names: Names,
    spaces: &'a [Space<'a>],
    space: &'a Space<'a>,
) -> Result<Vec<Option<Known>>, NoMemory>
    ensures { IfOk result (λ slots. slots_view slots.items ≡ space_by (names_view names.entry) the_outside (map space_view spaces.now) (space_view space.now)) }
{
    let scope = Scope {
        spaces,
        here: space,
        locals: &[],
    };
    let mut slots = Vec::new(alloc);
    let mut left = space.entries.as_slice();
    while let [entry, rest @ ..] = left {
        let value = entry_in(alloc, names, scope, entry.what)?;
        slots.push(value)?;
        left = rest;
    }
    Ok(slots)
}

/// The values of the entries of all modules.
#[tactic(auto, using(crate::proofs::Pushes::tables_push))]
pub fn entries_by<'a>(
    alloc: Global,
    names: Names,
    spaces: &'a [Space<'a>],
) -> Result<Vec<Vec<Option<Known>>>, NoMemory>
    ensures { IfOk result (λ tables. tables_view tables.items ≡ entries_by (names_view names.entry) the_outside (map space_view spaces.now)) }
{
    let mut tables = Vec::new(alloc);
    let mut left = spaces;
    while let [space, rest @ ..] = left {
        let slots = space_by(alloc, names, spaces, space)?;
        tables.push(slots)?;
        left = rest;
    }
    Ok(tables)
}

/// The values of the names of a procedure.
#[tactic(auto, using(crate::proofs::Pushes::slots_push))]
pub fn locals_by(alloc: Global, names: Names, scope: Scope) -> Result<Vec<Option<Known>>, NoMemory>
    ensures { IfOk result (λ slots. slots_view slots.items ≡ locals_by (names_view names.entry) (scope_view scope.entry)) }
{
    let mut slots = Vec::new(alloc);
    let mut left = scope.locals;
    while let [local, rest @ ..] = left {
        let value = own_in(alloc, names, scope, local.own)?;
        slots.push(value)?;
        left = rest;
    }
    Ok(slots)
}

//! The values of names, by tables of values.

ghost use Rattle.std.specs.Prelude.{◌≡◌, IfOk, option_map};
ghost use Rattle.declared_names.specs.View.{meant_view, scope_view};
ghost use Rattle.declared_names.specs.binder.specs.Constants.{typed};
ghost use Rattle.vba_lib.specs.Names.{constant_named};
ghost use Rattle.constant_values.specs.Names.{entry_at, slot_at, value_of};
ghost use Rattle.constant_values.specs.View.{names_view, slot_view, slots_view, tables_view};

use crate::known::{Known, copy_slot};
use declared_names::{Meant, Scope};
use std::alloc::Global;
use vba_base::NoMemory;
use vba_lib::library_constant;
use vba_words::Identifier;

/// What is known of names: nothing yet, or the values of the entries of modules and of the names of a procedure, by
/// their numbers.
#[derive(Clone, Copy)]
pub enum Names<'a> {
    Nothing,
    Values {
        entries: &'a [Vec<Option<Known>>],
        own: &'a [Option<Known>],
    },
}

/// The value at a number.
fn slot_at(alloc: Global, number: usize, slots: &[Option<Known>]) -> Result<Option<Known>, NoMemory>
    ensures { IfOk result (λ slot. slot_view slot ≡ slot_at number (slots_view slots.now)) }
{
    match slots.get(number) {
        Some(slot) => copy_slot(alloc, slot),
        None => Ok(None),
    }
}

/// The value of an entry of a module.
fn entry_at(
    alloc: Global,
    entries: &[Vec<Option<Known>>],
    space: usize,
    number: usize,
) -> Result<Option<Known>, NoMemory>
    ensures { IfOk result (λ slot. slot_view slot ≡ entry_at (tables_view entries.now) space number) }
{
    match entries.get(space) {
        Some(slots) => slot_at(alloc, number, slots),
        None => Ok(None),
    }
}

/// A constant of the library.
pub fn constant_of_library(alloc: Global, name: &Identifier) -> Result<Option<Known>, NoMemory>
    ensures { IfOk result (λ slot. slot_view slot ≡ option_map typed (constant_named name.now.name)) }
{
    match library_constant(alloc, &name.name)? {
        Some(value) => Ok(Some(Known::typed(value))),
        None => Ok(None),
    }
}

/// The value of what a name means.
pub fn value_of(
    alloc: Global,
    names: Names,
    scope: Scope,
    name: &Identifier,
    meant: Option<Meant>,
) -> Result<Option<Known>, NoMemory>
    ensures { IfOk result (λ slot. slot_view slot ≡ value_of (names_view names.entry) (scope_view scope.entry) name.now (option_map meant_view meant.entry)) }
{
    let Names::Values { entries, own } = names else {
        return Ok(None);
    };
    match meant {
        Some(Meant::OfProcedure { number, .. }) => slot_at(alloc, number, own),
        Some(Meant::OfModule { space, number, .. }) => {
            entry_at(alloc, entries, space.number, number)
        }
        Some(Meant::OfLibrary) => constant_of_library(alloc, name),
        _ => Ok(None),
    }
}

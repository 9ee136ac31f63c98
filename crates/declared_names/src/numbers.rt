// Counting entries, by which Types, classes and procedures have their numbers.
ghost use Rattle.std.specs.Prelude.{◌≡◌, ◌+◌, IfOk, map, take, if◌then◌else◌};
ghost use Rattle.binder.specs.Scopes.{is_same};
ghost use Rattle.binder.specs.Types.{class_number, counted, entries_before, type_number};
ghost use Rattle.declared_names.specs.Numbers.{is_counted};
ghost use Rattle.declared_names.specs.View.{entry_view, scope_view, space_view};

use crate::entry::{Entry, What};
use crate::lookup::is_same_space;
use crate::scope::Scope;
use crate::space::Space;
use vba_base::NoMemory;

/// Which entries are counted.
#[derive(Clone, Copy)]
pub enum Counted {
    Types,
    Procedures,
    Variables,
}

/// Is an entry counted?
fn is_counted(which: Counted, entry: &Entry) -> bool
    ensures { result ≡ is_counted which (entry_view entry.now) }
{
    match entry.what {
        What::Type(_) => matches!(which, Counted::Types),
        What::Procedure(_) => matches!(which, Counted::Procedures),
        What::Variable(_) => matches!(which, Counted::Variables),
        _ => false,
    }
}

/// The sum of two numbers.
pub fn sum(one: u32, other: u32) -> Result<u32, NoMemory>
    ensures { IfOk result (λ sum. sum ≡ one + other) }
{
    one.checked_add(other).ok_or(NoMemory)
}

/// How many entries are counted.
#[tactic(auto, using(std::proofs::lemmas::List::drop_more))]
pub fn count_of(which: Counted, entries: &[Entry]) -> Result<u32, NoMemory>
    ensures { IfOk result (λ count. count ≡ counted (is_counted which) (map entry_view entries.now)) }
{
    let mut count = 0;
    for entry in entries {
        if is_counted(which, entry) {
            count = sum(count, 1)?;
        }
    }
    Ok(count)
}

/// The entries before a number.
#[tactic(auto, using(std::proofs::lemmas::List::take_min))]
pub fn first_entries<'a>(entries: &'a [Entry<'a>], number: usize) -> &'a [Entry<'a>]
    ensures { result.now ≡ take number entries.now }
{
    &entries[..number.min(entries.len())]
}

/// How many entries of a module are counted before a number.
#[tactic(auto, using(crate::proofs::Walks::take_map))]
pub fn count_before(which: Counted, space: &Space, number: usize) -> Result<u32, NoMemory>
    ensures { IfOk result (λ count. count ≡ counted (is_counted which) (take number (space_view space.now).entries)) }
{
    let entries = space.entries.as_slice();
    count_of(which, first_entries(entries, number))
}

/// How many entries of a module are counted.
fn count_in(which: Counted, space: &Space) -> Result<u32, NoMemory>
    ensures { IfOk result (λ count. count ≡ counted (is_counted which) (space_view space.now).entries) }
{
    count_of(which, space.entries.as_slice())
}

/// How many entries are counted before an entry of a module, in the order of the project.
pub fn entries_before(
    which: Counted,
    spaces: &[Space],
    here: &Space,
    number: usize,
) -> Result<u32, NoMemory>
    ensures { IfOk result (λ count. count
        ≡ entries_before (is_counted which) (map space_view spaces.now) (space_view here.now) number) }
{
    let mut before = 0;
    for space in spaces {
        if is_same_space(space, here) {
            return sum(before, count_before(which, space, number)?);
        }
        before = sum(before, count_in(which, space)?)?;
    }
    Ok(before)
}

/// The number of a Type.
pub fn type_number(scope: Scope, space: &Space, number: usize) -> Result<u32, NoMemory>
    ensures { IfOk result (λ found. found ≡ type_number (scope_view scope.entry) (space_view space.now) number) }
{
    entries_before(Counted::Types, scope.spaces, space, number)
}

/// One for a class, and none for another module.
fn class_count(space: &Space) -> u32
    ensures { result ≡ (if (space_view space.now).source.is_class then 1 else 0) }
{
    if space.source.is_class { 1 } else { 0 }
}

/// The number of a class, which counts from 1.
pub fn class_number(spaces: &[Space], here: &Space) -> Result<u32, NoMemory>
    ensures { IfOk result (λ number. number ≡ class_number (map space_view spaces.now) (space_view here.now)) }
{
    let mut number = 0;
    for space in spaces {
        number = sum(number, class_count(space))?;
        if is_same_space(space, here) {
            return Ok(number);
        }
    }
    Ok(number)
}

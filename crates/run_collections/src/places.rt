// Where an item of a Collection is, counted from 0.
ghost use Rattle.std.specs.Prelude.{◌≡◌, length, position};
ghost use Rattle.vba_base.specs.Fold.{folded};
ghost use Rattle.vba_values.specs.View.{view};
ghost use Rattle.vba_meaning.specs.Arrays.{number_in};
ghost use Rattle.vba_meaning.specs.Collections.{found_or, items_of, key_place, keys_of, numbered_place, place_by, place_of_item};
ghost use Rattle.vba_meaning.specs.Effects.{slot_value};
ghost use Rattle.vba_meaning.specs.Memory.{Memory as PlainMemory};
ghost use Rattle.run_memory.specs.Acts.{Acts};
ghost use Rattle.run_memory.specs.Elements.{number_of};
ghost use Rattle.run_memory.specs.View.{memory_view, slot_view};
ghost use Rattle.run_collections.specs.Parts.{has_key, place_of_number};

use crate::items::{items_of, keys_of};
use run_memory::{Memory, Slot};
use std::alloc::Global;
use vba_base::{OrMemory, Units, name_of};
use vba_values::{Bad, VType, Value, coerce};

/// The place of the item with a folded key.
#[tactic(auto, using(crate::proofs::Keys::key_first))]
pub fn key_place(keys: &[Option<Units>], key: &[u16]) -> Option<usize>
    ensures { result ≡ key_place key.now keys.now }
{
    first_with_key(keys, key)
}

fn first_with_key(keys: &[Option<Units>], key: &[u16]) -> Option<usize>
    ensures { result ≡ position (has_key key.now) keys.now }
{
    keys.iter().position(|own| has_key(own, key))
}

/// Whether an item has a key: their lengths are compared first.
fn has_key(own: &Option<Units>, key: &[u16]) -> bool
    ensures { result ≡ has_key key.now own.now }
{
    match own {
        Some(own) => own.units() == key,
        None => false,
    }
}

/// The place of the item with a number: 9 for a number that no item has.
fn numbered_place(memory: &Memory, number: u32, wanted: i64) -> Result<usize, OrMemory<Bad>>
    ensures { Acts (λ place. place) result (memory_view memory.now) (numbered_place (length (items_of number (memory_view memory.now))) wanted (memory_view memory.now)) }
{
    let count = items_of(memory, number).len();
    match usize::try_from(wanted) {
        Ok(wanted) if 1 <= wanted && wanted <= count => Ok(wanted - 1),
        _ => Err(OrMemory::Fault(Bad::Raise(9))),
    }
}

/// The number that a value is.
fn number_in(value: &Value) -> i64
    ensures { result ≡ number_in (view value.now) }
{
    match value {
        Value::Byte(number) => i64::from(*number),
        Value::Integer(number) => i64::from(*number),
        Value::Long(number) => i64::from(*number),
        Value::LongLong(number) => *number,
        _ => 0,
    }
}

/// The place of the item with a text as its key: 5 where no item has it.
fn place_of_key(
    memory: &Memory,
    alloc: Global,
    number: u32,
    key: &[u16],
) -> Result<usize, OrMemory<Bad>>
    ensures { Acts (λ place. place) result (memory_view memory.now) (found_or 5 (key_place (folded key.now) (keys_of number (memory_view memory.now))) (memory_view memory.now)) }
{
    let key = name_of(alloc, key)?;
    match key_place(keys_of(memory, number), key.units()) {
        Some(place) => Ok(place),
        None => Err(OrMemory::Fault(Bad::Raise(5))),
    }
}

/// The number that a value becomes as a Long.
#[tactic(auto, using(run_memory::proofs::Refused::refused_then))]
fn number_of(alloc: Global, value: &Value) -> Result<i64, OrMemory<Bad>>
    ensures { (m : PlainMemory) → Acts (λ number. number) result m (number_of (view value.now) m) }
{
    let long = coerce(alloc, value, &VType::Long)?;
    Ok(number_in(&long))
}

/// The place of the item with this number.
#[tactic(auto, using(run_memory::proofs::Refused::refused_then, crate::proofs::Seen::by_number))]
fn place_of_number(
    memory: &Memory,
    alloc: Global,
    number: u32,
    index: &Value,
) -> Result<usize, OrMemory<Bad>>
    ensures { Acts (λ place. place) result (memory_view memory.now) (place_of_number number (view index.now) (memory_view memory.now)) }
{
    let wanted = number_of(alloc, index)?;
    numbered_place(memory, number, wanted)
}

/// The place of the item that a value names: a text is a key, anything else a number.
fn place_by(
    memory: &Memory,
    alloc: Global,
    number: u32,
    index: &Value,
) -> Result<usize, OrMemory<Bad>>
    ensures { Acts (λ place. place) result (memory_view memory.now) (place_by number (view index.now) (memory_view memory.now)) }
{
    match index {
        Value::Text(key) => place_of_key(memory, alloc, number, key.units()),
        _ => place_of_number(memory, alloc, number, index),
    }
}

/// The place of the item that an argument names, where an object gives way to its default value; a path stands for Empty.
#[tactic(auto, using(run_memory::proofs::Refused::refused_then))]
pub fn place_of_item(
    memory: &Memory,
    alloc: Global,
    number: u32,
    index: &Slot,
) -> Result<usize, OrMemory<Bad>>
    ensures { Acts (λ place. place) result (memory_view memory.now) (place_of_item number (slot_value (slot_view index.now)) (memory_view memory.now)) }
{
    match index {
        Slot::Value(Value::Object(reference)) => {
            let value = memory.plain_reference(alloc, *reference)?;
            place_by(memory, alloc, number, &value)
        }
        Slot::Value(value) => place_by(memory, alloc, number, value),
        Slot::Path(_) => place_by(memory, alloc, number, &Value::Empty),
    }
}

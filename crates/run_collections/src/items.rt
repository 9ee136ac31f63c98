// Items of Collections, by their numbers and keys.
ghost use Rattle.std.specs.Prelude.{◌≡◌, map, slice_get};
ghost use Rattle.vba_values.specs.View.{view};
ghost use Rattle.vba_meaning.specs.Collections.{item_found, items_of, keys_of};
ghost use Rattle.vba_meaning.specs.Effects.{read_value, slot_value, slot_values};
ghost use Rattle.run_memory.specs.Acts.{Acts};
ghost use Rattle.run_memory.specs.View.{memory_view, slot_view};
ghost use Rattle.run_collections.specs.Parts.{item_by_index};

use crate::places::place_of_item;
use run_memory::{Memory, Slot};
use std::alloc::Global;
use vba_base::{OrMemory, Units};
use vba_values::{Bad, Value, copy_value};

/// The items of a Collection.
pub fn items_of(memory: &Memory, number: u32) -> &[Value]
    ensures { map view result.now ≡ items_of number (memory_view memory.now) }
{
    match memory.objects.get(number as usize) {
        Some(Some(object)) => object.fields.as_slice(),
        _ => &[],
    }
}

/// Their folded keys.
pub fn keys_of(memory: &Memory, number: u32) -> &[Option<Units>]
    ensures { result.now ≡ keys_of number (memory_view memory.now) }
{
    match memory.objects.get(number as usize) {
        Some(Some(object)) => object.keys.as_slice(),
        _ => &[],
    }
}

/// An item of a Collection, which the running statement holds then.
#[tactic(auto, using(crate::proofs::Many::found_by_many))]
pub fn item_found(
    memory: &mut Memory,
    alloc: Global,
    number: u32,
    slots: &[Slot],
) -> Result<Value, OrMemory<Bad>>
    ensures { Acts view result (memory_view memory.new) (item_found number (slot_values (map slot_view slots.now)) (memory_view memory.old)) }
{
    match slots {
        [] => Err(OrMemory::Fault(Bad::Raise(449))),
        [index] => item_by_index(memory, alloc, number, index),
        [_, _, ..] => Err(OrMemory::Fault(Bad::Raise(450))),
    }
}

#[tactic(auto, using(run_memory::proofs::Refused::refused_then))]
fn item_by_index(
    memory: &mut Memory,
    alloc: Global,
    number: u32,
    index: &Slot,
) -> Result<Value, OrMemory<Bad>>
    ensures { Acts view result (memory_view memory.new) (item_by_index number (slot_value (slot_view index.now)) (memory_view memory.old)) }
{
    let place = place_of_item(memory, alloc, number, index)?;
    item_at(memory, alloc, number, place)
}

/// The item at a place.
fn item_at(
    memory: &mut Memory,
    alloc: Global,
    number: u32,
    place: usize,
) -> Result<Value, OrMemory<Bad>>
    ensures { Acts view result (memory_view memory.new) (read_value (slice_get (items_of number (memory_view memory.old)) place) (memory_view memory.old)) }
{
    let item = match items_of(memory, number).get(place) {
        Some(item) => copy_value(alloc, item)?,
        None => return Err(OrMemory::Fault(Bad::Raise(9))),
    };
    memory.hold(alloc, &item)?;
    Ok(item)
}

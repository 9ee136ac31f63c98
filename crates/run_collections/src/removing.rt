// Items of Collections are removed.
ghost use Rattle.std.specs.Prelude.{◌≡◌, IfOk, map};
ghost use Rattle.vba_values.specs.Val.{empty};
ghost use Rattle.vba_values.specs.View.{view};
ghost use Rattle.vba_meaning.specs.Collections.{item_removed, taken_out};
ghost use Rattle.vba_meaning.specs.Effects.{Fine, slot_value, slot_values};
ghost use Rattle.run_memory.specs.Acts.{Acts};
ghost use Rattle.run_memory.specs.View.{memory_view, slot_view};
ghost use Rattle.run_collections.specs.Parts.{objects_at, removed_by_index};

use crate::changing::remove_item;
use crate::items::items_of;
use crate::places::place_of_item;
use run_memory::{Memory, Slot, add_objects};
use std::alloc::Global;
use vba_base::{NoMemory, OrMemory};
use vba_values::{Bad, Value};

/// An item leaves its Collection, and what it refers to waits to be let go: so many references.
#[tactic(auto, using(crate::proofs::Many::removed_by_many))]
pub fn item_removed(
    memory: &mut Memory,
    alloc: Global,
    number: u32,
    slots: &[Slot],
) -> Result<usize, OrMemory<Bad>>
    ensures { Acts (λ count. (empty, count)) result (memory_view memory.new) (item_removed number (slot_values (map slot_view slots.now)) (memory_view memory.old)) }
{
    match slots {
        [] => Err(OrMemory::Fault(Bad::Raise(449))),
        [index] => remove_by_index(memory, alloc, number, index),
        [_, _, ..] => Err(OrMemory::Fault(Bad::Raise(450))),
    }
}

#[tactic(auto, using(run_memory::proofs::Refused::refused_then))]
fn remove_by_index(
    memory: &mut Memory,
    alloc: Global,
    number: u32,
    index: &Slot,
) -> Result<usize, OrMemory<Bad>>
    ensures { Acts (λ count. (empty, count)) result (memory_view memory.new) (removed_by_index number (slot_value (slot_view index.now)) (memory_view memory.old)) }
{
    let place = place_of_item(memory, alloc, number, index)?;
    let count = take_out(memory, alloc, number, place)?;
    Ok(count)
}

fn take_out(
    memory: &mut Memory,
    alloc: Global,
    number: u32,
    place: usize,
) -> Result<usize, NoMemory>
    ensures { IfOk result (λ count. taken_out number place (memory_view memory.old) ≡ Fine (empty, count) (memory_view memory.new)) }
{
    let objects = objects_at(alloc, items_of(memory, number), place)?;
    let count = objects.len();
    memory.waits(objects)?;
    remove_item(&mut memory.objects, number as usize, place)?;
    Ok(count)
}

/// What the item at a place refers to.
fn objects_at(alloc: Global, items: &[Value], place: usize) -> Result<Vec<u32>, NoMemory>
    ensures { IfOk result (λ objects. objects.items ≡ objects_at place (map view items.now)) }
{
    let mut objects = Vec::new(alloc);
    if let Some(item) = items.get(place) {
        add_objects(alloc, &mut objects, item)?;
    }
    Ok(objects)
}

// Members of Collections are used.
ghost use Rattle.std.specs.Prelude.{◌≡◌, IfOk, length, map, pos};
ghost use Rattle.vba_meaning.specs.Collections.{collection_used, items_of};
ghost use Rattle.vba_meaning.specs.Effects.{slot_values};
ghost use Rattle.run_memory.specs.Acts.{Acts};
ghost use Rattle.run_memory.specs.View.{memory_view, slot_view};
ghost use Rattle.run_collections.specs.View.{member_view, used_view};

use crate::adding::item_added;
use crate::items::{item_found, items_of};
use crate::members::CollectionMember;
use crate::removing::item_removed;
use run_memory::{Memory, Slot};
use std::alloc::Global;
use vba_base::{NoMemory, OrMemory};
use vba_values::{Bad, ObjId, ObjRef, Value};

/// How many items a Collection has. A number beyond a Long, which no run counts, counts as want of memory.
fn count_items(memory: &Memory, number: u32) -> Result<i32, NoMemory>
    ensures { IfOk result (λ count. count ≡ pos (length (items_of number (memory_view memory.now)))) }
{
    match i32::try_from(items_of(memory, number).len()) {
        Ok(count) => Ok(count),
        Err(_) => Err(NoMemory),
    }
}

/// A member of a Collection is used: its value, and how many references wait to be let go at once.
#[tactic(auto, using(run_memory::proofs::Refused::refused_then))]
pub fn collection_used(
    memory: &mut Memory,
    alloc: Global,
    number: u32,
    member: CollectionMember,
    slots: &[Slot],
) -> Result<(Value, usize), OrMemory<Bad>>
    ensures { Acts used_view result (memory_view memory.new) (collection_used number (member_view member) (slot_values (map slot_view slots.now)) (memory_view memory.old)) }
{
    match member {
        CollectionMember::Add => {
            item_added(memory, alloc, number, slots)?;
            Ok((Value::Empty, 0))
        }
        CollectionMember::Count => {
            let count = count_items(memory, number)?;
            Ok((Value::Long(count), 0))
        }
        CollectionMember::Item => {
            let item = item_found(memory, alloc, number, slots)?;
            Ok((item, 0))
        }
        CollectionMember::Remove => {
            let count = item_removed(memory, alloc, number, slots)?;
            Ok((Value::Empty, count))
        }
        CollectionMember::Enumerator => {
            let collection = Value::Object(ObjRef::Heap(ObjId(number)));
            memory.hold(alloc, &collection)?;
            Ok((collection, 0))
        }
    }
}

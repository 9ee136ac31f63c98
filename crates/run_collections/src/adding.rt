// Items are added to Collections.
ghost use Rattle.std.specs.Prelude.{◌≡◌, IfOk, map, slice_index_or};
ghost use Rattle.vba_values.specs.Val.{empty, missing as missing_value};
ghost use Rattle.vba_values.specs.View.{view};
ghost use Rattle.vba_meaning.specs.Collections.{is_given, item_added, key_in, new_key, new_place, put_in};
ghost use Rattle.vba_meaning.specs.Effects.{slot_value, slot_values};
ghost use Rattle.run_memory.specs.Acts.{Acts};
ghost use Rattle.run_memory.specs.View.{memory_view, slot_view};
ghost use Rattle.run_collections.specs.Parts.{added, folded_by, folded_key};

use crate::changing::put_item;
use crate::items::{items_of, keys_of};
use crate::places::{key_place, place_of_item};
use run_memory::{Memory, Slot};
use std::alloc::Global;
use vba_base::{Name, NoMemory, OrMemory, Units, name_of};
use vba_values::{Bad, OutKind, VType, Value, coerce, copy_value};

/// So many items a Collection has at most.
const MOST_ITEMS: usize = 1_048_576;

/// The argument with a number, or what counts as Missing.
#[tactic(auto, using(crate::proofs::Added::argument_there, crate::proofs::Added::argument_past))]
fn argument_or<'a>(slots: &'a [Slot], number: usize, missing: &'a Slot) -> &'a Slot
    requires { slot_value (slot_view missing.now) ≡ missing_value }
    ensures { slot_value (slot_view result.now) ≡ slice_index_or (slot_values (map slot_view slots.now)) number missing_value }
{
    if number < slots.len() {
        &slots[number]
    } else {
        missing
    }
}

/// Whether an argument is given.
fn is_given(slot: &Slot) -> bool
    ensures { result ≡ is_given (slot_value (slot_view slot.now)) }
{
    !matches!(slot, Slot::Value(Value::Missing))
}

/// A copy of an argument's value; a path stands for Empty here and below.
fn value_copy(alloc: Global, slot: &Slot) -> Result<Value, NoMemory>
    ensures { IfOk result (λ copy. view copy ≡ slot_value (slot_view slot.now)) }
{
    match slot {
        Slot::Value(value) => copy_value(alloc, value),
        Slot::Path(_) => Ok(Value::Empty),
    }
}

/// The folded key that a text is.
#[tactic(auto, unfolding(vba_base::specs::Fold::folded))]
fn key_in(alloc: Global, value: &Value) -> Result<Name, NoMemory>
    ensures { IfOk result (λ key. key ≡ key_in (view value.now)) }
{
    match value {
        Value::Text(text) => name_of(alloc, text.units()),
        _ => name_of(alloc, &[]),
    }
}

/// A value as a folded key: it becomes a text.
#[tactic(auto, using(run_memory::proofs::Refused::refused_then))]
fn folded_by(memory: &Memory, alloc: Global, value: &Value) -> Result<Name, OrMemory<Bad>>
    ensures { Acts (λ key. key) result (memory_view memory.now) (folded_by (view value.now) (memory_view memory.now)) }
{
    match value {
        Value::Text(text) => Ok(name_of(alloc, text.units())?),
        _ => {
            let text = coerce(alloc, value, &VType::Text)?;
            let key = key_in(alloc, &text)?;
            Ok(key)
        }
    }
}

/// The same of an argument, where an object gives way to its default value.
#[tactic(auto, using(run_memory::proofs::Refused::refused_then))]
fn folded_key(memory: &Memory, alloc: Global, slot: &Slot) -> Result<Name, OrMemory<Bad>>
    ensures { Acts (λ key. key) result (memory_view memory.now) (folded_key (slot_value (slot_view slot.now)) (memory_view memory.now)) }
{
    match slot {
        Slot::Value(Value::Object(reference)) => {
            let value = memory.plain_reference(alloc, *reference)?;
            folded_by(memory, alloc, &value)
        }
        Slot::Value(value) => folded_by(memory, alloc, value),
        Slot::Path(_) => folded_by(memory, alloc, &Value::Empty),
    }
}

/// The folded key of a new item, where it is given one: 457 for a key that an item has.
#[tactic(auto, using(run_memory::proofs::Refused::refused_then, crate::proofs::Added::key_given, crate::proofs::Added::no_key))]
fn new_key(
    memory: &Memory,
    alloc: Global,
    number: u32,
    key: &Slot,
) -> Result<Option<Units>, OrMemory<Bad>>
    ensures { Acts (λ key. key) result (memory_view memory.now) (new_key number (slot_value (slot_view key.now)) (memory_view memory.now)) }
{
    if !is_given(key) {
        return Ok(None);
    }
    let key = folded_key(memory, alloc, key)?;
    if key_place(keys_of(memory, number), key.units()).is_some() {
        return Err(OrMemory::Fault(Bad::Raise(457)));
    }
    let key = Units::from_units(alloc, key.units())?;
    Ok(Some(key))
}

/// The place of a new item: before one, behind one, or behind all.
#[tactic(auto, using(run_memory::proofs::Refused::refused_then, crate::proofs::Added::place_before, crate::proofs::Added::place_behind, crate::proofs::Added::place_last))]
fn new_place(
    memory: &Memory,
    alloc: Global,
    number: u32,
    before: &Slot,
    after: &Slot,
) -> Result<usize, OrMemory<Bad>>
    ensures { Acts (λ place. place) result (memory_view memory.now) (new_place number (slot_value (slot_view before.now)) (slot_value (slot_view after.now)) (memory_view memory.now)) }
{
    if is_given(before) {
        return place_of_item(memory, alloc, number, before);
    }
    if !is_given(after) {
        return Ok(items_of(memory, number).len());
    }
    let place = place_of_item(memory, alloc, number, after)?;
    match place.checked_add(1) {
        Some(behind) => Ok(behind),
        None => Err(OrMemory::NoMemory),
    }
}

/// An item with its key is put at a place: there may be too many already. Room is taken before anything changes.
fn put_in(
    memory: &mut Memory,
    alloc: Global,
    number: u32,
    place: usize,
    item: &Slot,
    key: Option<Units>,
) -> Result<(), OrMemory<Bad>>
    ensures { Acts (λ done. (empty, 0)) result (memory_view memory.new) (put_in number place (slot_value (slot_view item.now)) key (memory_view memory.old)) }
{
    if items_of(memory, number).len() >= MOST_ITEMS {
        return Err(OrMemory::Fault(Bad::Outside(OutKind::Elements)));
    }
    let item = value_copy(alloc, item)?;
    put_item(&mut memory.objects, number as usize, place, item, key)?;
    Ok(())
}

/// An item is added by its key and its place.
#[tactic(auto, using(run_memory::proofs::Refused::refused_then))]
fn added(
    memory: &mut Memory,
    alloc: Global,
    number: u32,
    item: &Slot,
    key: &Slot,
    before: &Slot,
    after: &Slot,
) -> Result<(), OrMemory<Bad>>
    ensures { Acts (λ done. (empty, 0)) result (memory_view memory.new) (added number (slot_value (slot_view item.now)) (slot_value (slot_view key.now)) (slot_value (slot_view before.now)) (slot_value (slot_view after.now)) (memory_view memory.old)) }
{
    let key = new_key(memory, alloc, number, key)?;
    let place = new_place(memory, alloc, number, before, after)?;
    put_in(memory, alloc, number, place, item, key)
}

/// An item is added: 449 where none is given, 5 where it would stand both before one and behind one.
#[tactic(auto, using(crate::proofs::Added::no_item, crate::proofs::Added::both_places, crate::proofs::Added::one_place))]
pub fn item_added(
    memory: &mut Memory,
    alloc: Global,
    number: u32,
    slots: &[Slot],
) -> Result<(), OrMemory<Bad>>
    ensures { let vs = slot_values (map slot_view slots.now) in Acts (λ done. (empty, 0)) result (memory_view memory.new)
        (item_added number (slice_index_or vs 0 missing_value) (slice_index_or vs 1 missing_value) (slice_index_or vs 2 missing_value) (slice_index_or vs 3 missing_value) (memory_view memory.old)) }
{
    let missing = Slot::Value(Value::Missing);
    let item = argument_or(slots, 0, &missing);
    if !is_given(item) {
        return Err(OrMemory::Fault(Bad::Raise(449)));
    }
    let key = argument_or(slots, 1, &missing);
    let before = argument_or(slots, 2, &missing);
    let after = argument_or(slots, 3, &missing);
    if is_given(before) && is_given(after) {
        return Err(OrMemory::Fault(Bad::Raise(5)));
    }
    added(memory, alloc, number, item, key, before, after)
}

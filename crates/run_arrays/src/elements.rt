// Elements of values ([MS-VBAL] 5.6.13).
ghost use Rattle.std.specs.Prelude.{◌≡◌, Err, IfOk, map};
ghost use Rattle.arrays_udt.specs.Resize.{item_at};
ghost use Rattle.vba_values.specs.Val.{Val};
ghost use Rattle.vba_values.specs.View.{array_view, view, views};
ghost use Rattle.vba_meaning.specs.Memory.{Memory as PlainMemory};
ghost use Rattle.vba_meaning.specs.Effects.{answered, slot_values};
ghost use Rattle.vba_meaning.specs.Arrays.{indexed, indexed_object};
ghost use Rattle.run_memory.specs.Acts.{Acts};
ghost use Rattle.run_memory.specs.View.{memory_view, slot_view};
ghost use Rattle.run_arrays.specs.Elements.{element_read};

use crate::numbers::{count_elements, numbers, widened};
use arrays_udt::offset_in;
use run_memory::{Memory, Slot};
use std::alloc::Global;
use vba_base::{NoMemory, OrMemory};
use vba_values::{ArrayValue, Bad, HostRef, ObjRef, Value, copy_value};

/// An element of a value, which the running statement holds then: 450 where the value is neither an array nor an object.
#[tactic(auto, using(run_memory::proofs::Refused::refused_then, crate::proofs::Found::indexed_read))]
pub fn indexed(
    memory: &mut Memory,
    alloc: Global,
    value: &Value,
    slots: &[Slot],
) -> Result<Value, OrMemory<Bad>>
    ensures { Acts view result (memory_view memory.new) (indexed (view value.now) (slot_values (map slot_view slots.now)) (memory_view memory.old)) }
{
    let element = element_copied(alloc, value, slots)?;
    memory.hold(alloc, &element)?;
    Ok(element)
}

#[tactic(auto, using(run_memory::proofs::Refused::refused_then))]
fn element_copied(alloc: Global, value: &Value, slots: &[Slot]) -> Result<Value, OrMemory<Bad>>
    ensures { (m : PlainMemory) → Acts view result m (element_read (view value.now) (slot_values (map slot_view slots.now)) m) }
{
    match value {
        Value::Array(array) => array_element(alloc, array, slots),
        Value::Object(reference) => Err(OrMemory::Fault(indexed_object(*reference))),
        Value::Empty
        | Value::Null
        | Value::Missing
        | Value::Boolean(_)
        | Value::Byte(_)
        | Value::Integer(_)
        | Value::Long(_)
        | Value::LongLong(_)
        | Value::Currency(_)
        | Value::Text(_)
        | Value::Udt(_) => Err(OrMemory::Fault(Bad::Raise(450))),
    }
}

#[tactic(auto, using(run_memory::proofs::Refused::refused_then))]
fn array_element(alloc: Global, array: &ArrayValue, slots: &[Slot]) -> Result<Value, OrMemory<Bad>>
    ensures { (m : PlainMemory) → Acts view result m (element_read (array_view array.now) (slot_values (map slot_view slots.now)) m) }
{
    if count_elements(array.bounds.as_slice()).is_none() {
        return Err(OrMemory::NoMemory);
    }
    let numbers = numbers(alloc, slots)?;
    let numbers = widened(alloc, numbers.as_slice())?;
    let offset = offset_in(array.bounds.as_slice(), numbers.as_slice())?;
    let item = item_copy(alloc, &array.items, offset)?;
    Ok(item)
}

#[tactic(auto, using(crate::proofs::Found::item_there, crate::proofs::Found::item_past))]
fn item_copy(alloc: Global, items: &Vec<Value>, offset: usize) -> Result<Value, NoMemory>
    ensures { IfOk result (λ item. view item ≡ item_at (views items.now.items) offset) }
{
    if offset < items.len() {
        copy_value(alloc, &items[offset])
    } else {
        Ok(Value::Empty)
    }
}

/// An object is indexed by its default member: Nothing has none, Number of Err takes no arguments.
fn indexed_object(reference: ObjRef) -> Bad
    ensures { (m : PlainMemory) → indexed_object {A = Val} reference m ≡ answered (Err result) m }
{
    match reference {
        ObjRef::Nothing => Bad::Raise(91),
        ObjRef::Host(HostRef::ErrObject) => Bad::Raise(450),
        _ => Bad::Raise(438),
    }
}

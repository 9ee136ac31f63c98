// Sheets, by their names and numbers.
ghost use Rattle.std.specs.Prelude.{◌≡◌, IfOk, map};
ghost use Rattle.vba_values.specs.View.{view};
ghost use Rattle.vba_meaning.specs.Effects.{slot_value, slot_values};
ghost use Rattle.vba_meaning.specs.Host.{first_sheet, long_value, sheet_by, sheet_found, sheet_numbered, sheet_value};
ghost use Rattle.run_memory.specs.Acts.{Acts};
ghost use Rattle.run_memory.specs.View.{memory_view, slot_view};
ghost use Rattle.run_host.specs.Members.{sheet_at};

use crate::arguments::{long_of_value, object_in};
use run_memory::{Memory, Slot};
use std::alloc::Global;
use vba_base::{NoMemory, OrMemory, name_of};
use vba_values::{Bad, HostRef, ObjRef, Value};

/// The active sheet is the first: 91 where there is none.
pub fn first_sheet(memory: &Memory) -> Result<Value, OrMemory<Bad>>
    ensures { Acts view result (memory_view memory.now) (first_sheet (memory_view memory.now)) }
{
    if memory.book.sheets() == 0 {
        return Err(OrMemory::Fault(Bad::Raise(91)));
    }
    Ok(sheet_value(1))
}

pub fn sheet_value(sheet: u32) -> Value
    ensures { view result ≡ sheet_value sheet }
{
    Value::Object(ObjRef::Host(HostRef::Sheet { sheet }))
}

/// A number as a Long. One beyond a Long, which no run counts here, counts as want of memory.
pub fn long_value(number: u32) -> Result<Value, NoMemory>
    ensures { IfOk result (λ value. view value ≡ long_value number) }
{
    match i32::try_from(number) {
        Ok(number) => Ok(Value::Long(number)),
        Err(_) => Err(NoMemory),
    }
}

/// A sheet by its name or its number: 9 where there is none.
pub fn sheet_found(memory: &Memory, alloc: Global, slots: &[Slot]) -> Result<Value, OrMemory<Bad>>
    ensures { Acts view result (memory_view memory.now) (sheet_found (slot_values (map slot_view slots.now)) (memory_view memory.now)) }
{
    match slots {
        [] => Err(OrMemory::Fault(Bad::Raise(449))),
        [only] => sheet_at(memory, alloc, only),
        [_, _, ..] => Err(OrMemory::Fault(Bad::Raise(450))),
    }
}

fn sheet_at(memory: &Memory, alloc: Global, slot: &Slot) -> Result<Value, OrMemory<Bad>>
    ensures { Acts view result (memory_view memory.now) (sheet_at (slot_value (slot_view slot.now)) (memory_view memory.now)) }
{
    match slot {
        Slot::Value(value) => sheet_at_value(memory, alloc, value),
        Slot::Path(_) => sheet_at_value(memory, alloc, &Value::Empty),
    }
}

/// The same by a value: an object gives way to its default value.
#[tactic(auto, using(run_memory::proofs::Refused::refused_then, crate::proofs::Parts::plain_object, crate::proofs::Parts::plain_other))]
fn sheet_at_value(memory: &Memory, alloc: Global, value: &Value) -> Result<Value, OrMemory<Bad>>
    ensures { Acts view result (memory_view memory.now) (sheet_at (view value.now) (memory_view memory.now)) }
{
    match object_in(value) {
        Some(reference) => {
            let value = memory.plain_reference(alloc, reference)?;
            sheet_by(memory, alloc, &value)
        }
        None => sheet_by(memory, alloc, value),
    }
}

#[tactic(auto, using(run_memory::proofs::Refused::refused_then))]
fn sheet_by(memory: &Memory, alloc: Global, value: &Value) -> Result<Value, OrMemory<Bad>>
    ensures { Acts view result (memory_view memory.now) (sheet_by (view value.now) (memory_view memory.now)) }
{
    match value {
        Value::Text(text) => {
            let name = name_of(alloc, text.units())?;
            let sheet = memory.book.sheet_named(&name)?;
            Ok(sheet_value(sheet.0))
        }
        _ => {
            let number = long_of_value(memory, alloc, value)?;
            sheet_numbered(memory, number)
        }
    }
}

fn sheet_numbered(memory: &Memory, number: i32) -> Result<Value, OrMemory<Bad>>
    ensures { Acts view result (memory_view memory.now) (sheet_numbered number (memory_view memory.now)) }
{
    match u32::try_from(number) {
        Ok(sheet) if 1 <= sheet && sheet <= memory.book.sheets() => Ok(sheet_value(sheet)),
        _ => Err(OrMemory::Fault(Bad::Raise(9))),
    }
}

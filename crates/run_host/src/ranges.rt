// Range of a sheet: by an address, or between two ranges.
ghost use Rattle.std.specs.Prelude.{◌≡◌, ◌∷◌, false, map};
ghost use Rattle.vba_values.specs.View.{view};
ghost use Rattle.vba_meaning.specs.Memory.{Memory as PlainMemory};
ghost use Rattle.vba_meaning.specs.Effects.{slot_value, slot_values};
ghost use Rattle.vba_meaning.specs.Host.{area_of, range_between, range_found};
ghost use Rattle.run_memory.specs.Acts.{Acts};
ghost use Rattle.run_memory.specs.View.{memory_view, slot_view};
ghost use Rattle.run_host.specs.Members.{around, is_missing, range_at};

use crate::areas::area_found;
use crate::arguments::{is_missing, text_of};
use run_memory::{Memory, Slot, area_in, is_area_inside};
use sheet_host::{Area, SheetId, area_around, area_of_text};
use std::alloc::Global;
use vba_base::OrMemory;
use vba_values::{Bad, HostRef, ObjRef, Value};

/// The range of an address, or the smallest one that holds two ranges.
pub fn range_found(
    memory: &Memory,
    alloc: Global,
    sheet: u32,
    slots: &[Slot],
) -> Result<Value, OrMemory<Bad>>
    ensures { Acts view result (memory_view memory.now) (range_found sheet (slot_values (map slot_view slots.now)) (memory_view memory.now)) }
{
    match slots {
        [] => Err(OrMemory::Fault(Bad::Raise(449))),
        [first, others @ ..] => {
            if is_missing(first) {
                return Err(OrMemory::Fault(Bad::Raise(449)));
            }
            range_from(memory, alloc, sheet, first, others)
        }
    }
}

/// The same, from a first argument that is given and those behind it.
fn range_from(
    memory: &Memory,
    alloc: Global,
    sheet: u32,
    first: &Slot,
    others: &[Slot],
) -> Result<Value, OrMemory<Bad>>
    requires { is_missing (slot_value (slot_view first.now)) ≡ false }
    ensures { Acts view result (memory_view memory.now) (range_found sheet (slot_value (slot_view first.now) ∷ slot_values (map slot_view others.now)) (memory_view memory.now)) }
{
    match others {
        [] => range_at(memory, alloc, sheet, first),
        [last] => range_between(sheet, first, last),
        [_, _, ..] => Err(OrMemory::Fault(Bad::Raise(450))),
    }
}

/// The range of an address.
#[tactic(auto, using(run_memory::proofs::Refused::refused_then))]
fn range_at(
    memory: &Memory,
    alloc: Global,
    sheet: u32,
    address: &Slot,
) -> Result<Value, OrMemory<Bad>>
    ensures { Acts view result (memory_view memory.now) (range_at sheet (slot_value (slot_view address.now)) (memory_view memory.now)) }
{
    let address = text_of(memory, alloc, address)?;
    area_found(area_of_text(SheetId(sheet), address.units()))
}

/// The smallest range that holds two ranges of a sheet.
#[tactic(auto, using(run_memory::proofs::Refused::refused_then))]
fn range_between(sheet: u32, first: &Slot, last: &Slot) -> Result<Value, OrMemory<Bad>>
    ensures { (m : PlainMemory) → Acts view result m (range_between sheet (slot_value (slot_view first.now)) (slot_value (slot_view last.now)) m) }
{
    let first = area_of(first)?;
    let last = area_of(last)?;
    range_around(sheet, first, last)
}

/// The area of a range: 91 for Nothing, 13 for what is no range.
fn area_of(slot: &Slot) -> Result<Area, OrMemory<Bad>>
    ensures { (m : PlainMemory) → Acts (λ area. area) result m (area_of (slot_value (slot_view slot.now)) m) }
{
    match slot {
        Slot::Value(Value::Object(ObjRef::Nothing)) => Err(OrMemory::Fault(Bad::Raise(91))),
        Slot::Value(
            Value::Object(
                ObjRef::Host(
                    HostRef::Area {
                        sheet,
                        top,
                        left,
                        rows,
                        columns,
                    },
                ),
            ),
        ) => Ok(area_in(*sheet, *top, *left, *rows, *columns)),
        _ => Err(OrMemory::Fault(Bad::Raise(13))),
    }
}

/// The smallest range that holds two areas of a sheet: 1004 where one is of another. Areas outside of a sheet, which no
/// run makes, count as want of memory.
fn range_around(sheet: u32, first: Area, last: Area) -> Result<Value, OrMemory<Bad>>
    ensures { (m : PlainMemory) → Acts view result m (around sheet first last m) }
{
    if first.sheet.0 != sheet || last.sheet.0 != sheet {
        return Err(OrMemory::Fault(Bad::Raise(1004)));
    }
    if !is_area_inside(first) || !is_area_inside(last) {
        return Err(OrMemory::NoMemory);
    }
    area_found(area_around(first, last))
}

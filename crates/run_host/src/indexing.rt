// Values of members that arguments index.
ghost use Rattle.std.specs.Prelude.{map};
ghost use Rattle.vba_values.specs.Val.{object};
ghost use Rattle.vba_values.specs.View.{view};
ghost use Rattle.vba_values.specs.declared.object.ObjRef.TheVariants.{Heap};
ghost use Rattle.vba_meaning.specs.Memory.{Memory as PlainMemory};
ghost use Rattle.vba_meaning.specs.Effects.{slot_values};
ghost use Rattle.vba_meaning.specs.Host.{can_index, item_by};
ghost use Rattle.run_memory.specs.Acts.{Acts};
ghost use Rattle.run_memory.specs.View.{memory_view, slot_view};

use crate::areas::cell_found;
use crate::arguments::plains;
use crate::counts::fits_in;
use crate::sheets::sheet_found;
use run_arrays::indexed;
use run_collections::item_found;
use run_memory::{Memory, Slot, area_in};
use std::alloc::Global;
use vba_base::OrMemory;
use vba_values::{Bad, HostRef, ObjId, ObjRef, Value};

/// A value, where so many arguments can index it: an array, the sheets by one, a range by two.
#[tactic(auto, using(run_memory::proofs::Refused::refused_then))]
pub fn can_index(value: Value, given: u32) -> Result<Value, OrMemory<Bad>>
    ensures { (m : PlainMemory) → Acts view result m (can_index (view value) given m) }
{
    match &value {
        Value::Array(_) => {}
        Value::Object(ObjRef::Host(HostRef::Sheets)) => fits_in(&[1], given)?,
        Value::Object(ObjRef::Host(HostRef::Area { .. })) => fits_in(&[2], given)?,
        Value::Object(_) => return Err(OrMemory::Fault(Bad::Raise(438))),
        _ => return Err(OrMemory::Fault(Bad::Raise(450))),
    }
    Ok(value)
}

/// What arguments give of a value: a sheet of the sheets, a cell of a range, or an item of a Collection or an element,
/// which the running statement holds then.
#[tactic(auto, using(run_memory::proofs::Refused::refused_then))]
pub fn item_by(
    memory: &mut Memory,
    alloc: Global,
    value: &Value,
    slots: &[Slot],
) -> Result<Value, OrMemory<Bad>>
    ensures { Acts view result (memory_view memory.new) (item_by (view value.now) (slot_values (map slot_view slots.now)) (memory_view memory.old)) }
{
    match value {
        Value::Object(ObjRef::Host(HostRef::Sheets)) => sheet_found(memory, alloc, slots),
        Value::Object(
            ObjRef::Host(
                HostRef::Area {
                    sheet,
                    top,
                    left,
                    rows,
                    columns,
                },
            ),
        ) => {
            let area = area_in(*sheet, *top, *left, *rows, *columns);
            cell_found(memory, alloc, area, slots)
        }
        Value::Object(ObjRef::Heap(id)) => counted_item(memory, alloc, *id, slots),
        _ => {
            let slots = plains(memory, alloc, slots)?;
            indexed(memory, alloc, value, slots.as_slice())
        }
    }
}

/// The same of a counted object: one of a class has no items.
#[tactic(auto, using(run_memory::proofs::Refused::refused_then))]
fn counted_item(
    memory: &mut Memory,
    alloc: Global,
    id: ObjId,
    slots: &[Slot],
) -> Result<Value, OrMemory<Bad>>
    ensures { Acts view result (memory_view memory.new) (item_by (object (Heap id)) (slot_values (map slot_view slots.now)) (memory_view memory.old)) }
{
    let reference = ObjRef::Heap(id);
    if memory.is_collection(reference) {
        return item_found(memory, alloc, id.0, slots);
    }
    let slots = plains(memory, alloc, slots)?;
    indexed(memory, alloc, &Value::Object(reference), slots.as_slice())
}

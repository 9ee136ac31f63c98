// Arguments of a call.
ghost use Rattle.std.specs.Prelude.{◌≡◌, IfOk, map, slice_index_or};
ghost use Rattle.vba_values.specs.Val.{missing};
ghost use Rattle.vba_meaning.specs.Memory.{value};
ghost use Rattle.bound_project.specs.View.{declarations_view};
ghost use Rattle.vba_meaning.specs.Effects.{reordered, startup_slots};
ghost use Rattle.run_memory.specs.View.{slot_view};

use bound_project::Declarations;
use run_defaults::all_left_out;
use run_memory::Slot;
use std::alloc::Global;
use vba_base::NoMemory;
use vba_values::Value;

/// The parameters' slots, each by the number of its argument.
#[tactic(auto, using(crate::proofs::Given::reordered_more))]
pub fn reordered(alloc: Global, order: &[u32], slots: &[Slot]) -> Result<Vec<Slot>, NoMemory>
    ensures { IfOk result (λ ordered. map slot_view ordered.items ≡ reordered order.now (map slot_view slots.now)) }
{
    let mut ordered = Vec::with_capacity(alloc, order.len())?;
    for number in order {
        ordered.push(argument(alloc, slots, *number)?)?;
    }
    Ok(ordered)
}

fn argument(alloc: Global, slots: &[Slot], number: u32) -> Result<Slot, NoMemory>
    ensures { IfOk result (λ slot. slot_view slot ≡ slice_index_or (map slot_view slots.now) number (value missing)) }
{
    match slots.get(number as usize) {
        Some(slot) => slot.copy(alloc),
        None => Ok(Slot::Value(Value::Missing)),
    }
}

/// What the parameters of the macro that a run begins with have ([MS-VBAL] 5.3.1.11).
pub fn startup_slots(
    alloc: Global,
    declared: &Declarations,
    procedure: u32,
) -> Result<Vec<Slot>, NoMemory>
    ensures { IfOk result (λ slots. map slot_view slots.items ≡ startup_slots (declarations_view declared.now) procedure) }
{
    match declared.procedures.get(procedure as usize) {
        Some(procedure) => all_left_out(alloc, procedure.parameters.as_slice()),
        None => Ok(Vec::new(alloc)),
    }
}

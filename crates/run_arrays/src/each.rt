// For Each ([MS-VBAL] 5.4.2.4).
ghost use Rattle.std.specs.Prelude.{◌≡◌, OnOk, IfOk, true};
ghost use Rattle.vba_values.specs.Val.{object};
ghost use Rattle.vba_values.specs.View.{view};
ghost use Rattle.bound_project.specs.View.{variable_view};
ghost use Rattle.vba_meaning.specs.References.{objects_in};
ghost use Rattle.vba_meaning.specs.Effects.{done, kept_at};
ghost use Rattle.vba_meaning.specs.Arrays.{each_begun, each_next, each_off, item_stored, walkable};
ghost use Rattle.run_memory.specs.Acts.{Acts};
ghost use Rattle.run_memory.specs.View.{memory_view};
ghost use Rattle.run_arrays.specs.Walks.{item_taken};

use crate::walks::{item_walked, keep_at_top, set_walk, walk_at};
use bound_project::Variable;
use run_memory::{Kept, Memory, add_objects};
use std::alloc::Global;
use vba_base::{NoMemory, OrMemory};
use vba_values::{Bad, HostRef, ObjRef, Value};

/// The header of a For Each begins: the loop counts as not begun.
pub fn each_off(memory: &mut Memory, alloc: Global, header: u32) -> Result<(), NoMemory>
    ensures { OnOk result (each_off header (memory_view memory.old) ≡ done (memory_view memory.new)) }
{
    match walk_at(memory, header) {
        Some((_, next)) => set_walk(memory, alloc, header, false, next),
        None => Ok(()),
    }
}

/// A loop over a value is begun: how many references to what it walked before wait to be let go then.
#[tactic(auto, using(run_memory::proofs::Refused::refused_then))]
pub fn each_begun(
    memory: &mut Memory,
    alloc: Global,
    header: u32,
    value: Value,
) -> Result<usize, OrMemory<Bad>>
    ensures { Acts (λ count. count) result (memory_view memory.new) (each_begun header (view value) (memory_view memory.old)) }
{
    walkable(memory, &value)?;
    let objects = kept_objects(memory, alloc, header)?;
    let count = objects.len();
    let walk = Kept::Walk {
        is_begun: true,
        value,
        next: 0,
    };
    keep_at_top(memory, alloc, header, walk)?;
    memory.waits(objects)?;
    Ok(count)
}

/// What can be walked: an array, the sheets, the cells of a range, a Collection.
fn walkable(memory: &Memory, value: &Value) -> Result<(), OrMemory<Bad>>
    ensures { Acts (λ done. done) result (memory_view memory.now) (walkable (view value.now) (memory_view memory.now)) }
{
    match value {
        Value::Array(_) => Ok(()),
        Value::Object(reference) => walkable_object(memory, *reference),
        Value::Empty
        | Value::Null
        | Value::Missing
        | Value::Boolean(_)
        | Value::Byte(_)
        | Value::Integer(_)
        | Value::Long(_)
        | Value::LongLong(_)
        | Value::Currency(_)
        | Value::Text(_)
        | Value::Udt(_) => Err(OrMemory::Fault(Bad::Raise(13))),
    }
}

/// The same of an object.
fn walkable_object(memory: &Memory, reference: ObjRef) -> Result<(), OrMemory<Bad>>
    ensures { Acts (λ done. done) result (memory_view memory.now) (walkable (object reference) (memory_view memory.now)) }
{
    match reference {
        ObjRef::Nothing => Err(OrMemory::Fault(Bad::Raise(91))),
        ObjRef::Host(HostRef::Sheets | HostRef::Area { .. }) => Ok(()),
        ObjRef::Heap(_) if memory.is_collection(reference) => Ok(()),
        _ => Err(OrMemory::Fault(Bad::Raise(438))),
    }
}

/// The objects of what a block keeps.
fn kept_objects(memory: &Memory, alloc: Global, header: u32) -> Result<Vec<u32>, NoMemory>
    ensures { IfOk result (λ objects. objects.items ≡ objects_in (kept_at header (memory_view memory.now))) }
{
    let mut objects = Vec::new(alloc);
    if !memory.stands {
        return Ok(objects);
    }
    match memory.top.kept(header) {
        Some(Kept::Only(value)) => add_objects(alloc, &mut objects, value)?,
        Some(Kept::Walk { value, .. }) => add_objects(alloc, &mut objects, value)?,
        _ => {}
    }
    Ok(objects)
}

/// The control variable takes the next item, where there is a further one.
pub fn each_next(
    memory: &mut Memory,
    alloc: Global,
    control: Variable,
    header: u32,
) -> Result<bool, OrMemory<Bad>>
    ensures { Acts (λ further. further) result (memory_view memory.new) (each_next (variable_view control) header (memory_view memory.old)) }
{
    let Some((true, next)) = walk_at(memory, header) else {
        return Err(OrMemory::Fault(Bad::Raise(92)));
    };
    let Some(item) = item_walked(memory, alloc, header)? else {
        memory.block_over(alloc, header)?;
        return Ok(false);
    };
    let Some(behind) = next.checked_add(1) else {
        return Err(OrMemory::NoMemory);
    };
    item_taken(memory, alloc, control, header, behind, item)
}

/// An item is walked, and then the control variable takes it: one that can't be stored counts as walked.
#[tactic(auto, using(run_memory::proofs::Refused::refused_then))]
fn item_taken(
    memory: &mut Memory,
    alloc: Global,
    control: Variable,
    header: u32,
    next: usize,
    item: Value,
) -> Result<bool, OrMemory<Bad>>
    requires { memory.old.stands ≡ true }
    ensures { Acts (λ further. further) result (memory_view memory.new) (item_taken (variable_view control) header next (view item) (memory_view memory.old)) }
{
    set_walk(memory, alloc, header, true, next)?;
    item_stored(memory, alloc, control, item)?;
    Ok(true)
}

/// A control variable takes an item, one of an object type by the test of Set.
#[tactic(auto, using(run_memory::proofs::Refused::refused_then))]
fn item_stored(
    memory: &mut Memory,
    alloc: Global,
    control: Variable,
    item: Value,
) -> Result<(), OrMemory<Bad>>
    ensures { Acts (λ done. done) result (memory_view memory.new) (item_stored (variable_view control) (view item) (memory_view memory.old)) }
{
    let path = memory.path_of(alloc, control)?;
    let value = memory.fitted(alloc, &path.of, item)?;
    memory.stored(alloc, &path, value)
}

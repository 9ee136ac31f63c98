// ReDim and Erase ([MS-VBAL] 5.4.3.3, 5.4.3.4).
ghost use Rattle.std.specs.Prelude.{Some, map, option_map};
ghost use Rattle.bound_project.specs.View.{declarations_view, declared_view};
ghost use Rattle.vba_values.specs.Types.{declared as type_view};
ghost use Rattle.vba_values.specs.View.{array_view, view};
ghost use Rattle.vba_meaning.specs.Memory.{Memory as PlainMemory, value_at, value_or_empty};
ghost use Rattle.vba_meaning.specs.Effects.{slot_values};
ghost use Rattle.vba_meaning.specs.Arrays.{element_type, erased, erased_value, redim_value, redimmed};
ghost use Rattle.run_memory.specs.Acts.{Acts};
ghost use Rattle.run_memory.specs.View.{memory_view, path_view, slot_view};

use crate::exchange::{exchanged, inner_value};
use crate::fresh::{new_array, without_storage};
use crate::numbers::{bounds_of, numbers};
use crate::preserve::{element_of_array, preserved};
use arrays_udt::shape_of;
use bound_project::{Declarations, DeclaredType};
use run_memory::{Memory, Path, Slot};
use std::alloc::Global;
use vba_base::OrMemory;
use vba_values::{ArrayValue, Bad, Bound, VType, Value};

/// ReDim of the array at a path: how many references wait to be let go then.
#[tactic(auto, using(run_memory::proofs::Refused::refused_then))]
pub fn redimmed(
    memory: &mut Memory,
    alloc: Global,
    declared: &Declarations,
    preserve: bool,
    of: Option<DeclaredType>,
    path: &Path,
    bounds: &[Slot],
) -> Result<usize, OrMemory<Bad>>
    ensures { Acts (λ count. count) result (memory_view memory.new)
        (redimmed (declarations_view declared.now) preserve (option_map declared_view of) (path_view path.now)
        (slot_values (map slot_view bounds.now)) (memory_view memory.old)) }
{
    let numbers = numbers(alloc, bounds)?;
    memory.assignable(alloc, path)?;
    let bounds = bounds_of(alloc, numbers.as_slice())?;
    let shape = shape_of(alloc, bounds.as_slice())?;
    let value = redim_value(memory, alloc, declared, preserve, of, shape.bounds(), path)?;
    let count = exchanged(memory, alloc, path, value)?;
    Ok(count)
}

/// The array with new bounds.
#[tactic(auto, using(run_memory::proofs::Refused::refused_then))]
fn redim_value(
    memory: &Memory,
    alloc: Global,
    declared: &Declarations,
    preserve: bool,
    of: Option<DeclaredType>,
    bounds: &[Bound],
    path: &Path,
) -> Result<Value, OrMemory<Bad>>
    ensures { Acts view result (memory_view memory.now)
        (redim_value (declarations_view declared.now) preserve (option_map declared_view of) bounds.now (path_view path.now)
        (value_or_empty (value_at (memory_view memory.now) (path_view path.now))) (memory_view memory.now)) }
{
    if !preserve {
        let element = element_type(alloc, &path.of, of)?;
        return Ok(new_array(alloc, declared, bounds, &element)?);
    }
    let steps = path.plain_steps(alloc)?;
    let object = path.root.object_value();
    let Some(root) = memory.root_value(&path.root, &object) else {
        return Err(OrMemory::Fault(Bad::Raise(13)));
    };
    match inner_value(root, steps.as_slice()) {
        Some(value) => preserved(alloc, declared, of, bounds, value),
        None => Err(OrMemory::Fault(Bad::Raise(13))),
    }
}

/// The type of the elements: that of the array; a Variant takes an array of any.
fn element_type(
    alloc: Global,
    of: &VType,
    written: Option<DeclaredType>,
) -> Result<VType, OrMemory<Bad>>
    ensures { (m : PlainMemory) → Acts type_view result m (element_type (type_view of.now) (option_map declared_view written) m) }
{
    match of {
        VType::ArrayOf(element) => element_of_array(alloc, element, written),
        VType::Variant => match written {
            Some(written) => Ok(written.value_type(alloc)?),
            None => Ok(VType::Variant),
        },
        VType::Boolean
        | VType::Byte
        | VType::Integer
        | VType::Long
        | VType::LongLong
        | VType::Currency
        | VType::Text
        | VType::FixedText(_)
        | VType::Object
        | VType::Class(_)
        | VType::Collection
        | VType::Worksheet
        | VType::Range
        | VType::Udt(_) => Err(OrMemory::Fault(Bad::Raise(13))),
    }
}

/// Erase of the array at a path: how many references wait to be let go then.
#[tactic(auto, using(run_memory::proofs::Refused::refused_then))]
pub fn erased(
    memory: &mut Memory,
    alloc: Global,
    declared: &Declarations,
    path: &Path,
) -> Result<usize, OrMemory<Bad>>
    ensures { Acts (λ count. count) result (memory_view memory.new) (erased (declarations_view declared.now) (path_view path.now) (memory_view memory.old)) }
{
    let value = erased_at(memory, alloc, declared, path)?;
    memory.replaceable(alloc, path)?;
    let count = exchanged(memory, alloc, path, value)?;
    Ok(count)
}

/// The array at a path as Erase leaves it.
fn erased_at(
    memory: &Memory,
    alloc: Global,
    declared: &Declarations,
    path: &Path,
) -> Result<Value, OrMemory<Bad>>
    ensures { (m : PlainMemory) → Acts view result m
        (erased_value (declarations_view declared.now) path.now.is_bounded (value_at (memory_view memory.now) (path_view path.now)) m) }
{
    let steps = path.plain_steps(alloc)?;
    let object = path.root.object_value();
    let Some(root) = memory.root_value(&path.root, &object) else {
        return Err(OrMemory::Fault(Bad::Raise(9)));
    };
    match inner_value(root, steps.as_slice()) {
        Some(value) => erased_value(alloc, declared, path.is_bounded, value),
        None => Err(OrMemory::Fault(Bad::Raise(9))),
    }
}

fn erased_value(
    alloc: Global,
    declared: &Declarations,
    is_bounded: bool,
    value: &Value,
) -> Result<Value, OrMemory<Bad>>
    ensures { (m : PlainMemory) → Acts view result m (erased_value (declarations_view declared.now) is_bounded (Some (view value.now)) m) }
{
    match value {
        Value::Array(array) => erased_array(alloc, declared, is_bounded, array),
        Value::Empty
        | Value::Null
        | Value::Missing
        | Value::Boolean(_)
        | Value::Byte(_)
        | Value::Integer(_)
        | Value::Long(_)
        | Value::LongLong(_)
        | Value::Currency(_)
        | Value::Text(_)
        | Value::Object(_)
        | Value::Udt(_) => Err(OrMemory::Fault(Bad::Raise(13))),
    }
}

/// An array that is declared with bounds gets new elements, any other is without storage then.
fn erased_array(
    alloc: Global,
    declared: &Declarations,
    is_bounded: bool,
    array: &ArrayValue,
) -> Result<Value, OrMemory<Bad>>
    ensures { (m : PlainMemory) → Acts view result m (erased_value (declarations_view declared.now) is_bounded (Some (array_view array.now)) m) }
{
    let value = if is_bounded {
        new_array(alloc, declared, array.bounds.as_slice(), &array.element)?
    } else {
        without_storage(alloc, &array.element)?
    };
    Ok(value)
}

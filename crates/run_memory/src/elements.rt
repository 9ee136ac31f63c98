// Elements and fields ([MS-VBAL] 5.6.12, 5.6.13).
ghost use Rattle.std.specs.Prelude.{◌≡◌, ℕ, [], ◌∷◌, Err, IfOk, None, Some, map, option_map};
ghost use Rattle.arrays_udt.specs.Paths.{path_value};
ghost use Rattle.arrays_udt.specs.declared.paths.PathStep.TheVariants as step;
ghost use Rattle.vba_values.specs.View.{array_view, view};
ghost use Rattle.vba_values.specs.Types.{Declared, declared};
ghost use Rattle.vba_meaning.specs.Memory.{Memory as PlainMemory, value_at};
ghost use Rattle.vba_meaning.specs.Effects.{answered, slot_value, slot_values};
ghost use Rattle.vba_meaning.specs.Arrays.{element_at, indexed_object, number_in, numbers, part_of};
ghost use Rattle.run_memory.specs.Acts.{Acts};
ghost use Rattle.run_memory.specs.Elements.{element_found, number_of};
ghost use Rattle.run_memory.specs.View.{memory_view, path_view, slot_view};

use crate::frame::Slot;
use crate::initial::count_elements;
use crate::looking::inner_value;
use crate::memory::Memory;
use crate::path::Path;
use crate::variables::copy_inner;
use arrays_udt::{PathStep, offset_in};
use std::alloc::Global;
use vba_base::{NoMemory, OrMemory};
use vba_values::{ArrayValue, Bad, HostRef, ObjRef, VType, Value, coerce, copy_type};

/// The numbers of a place: each value becomes a Long.
#[tactic(auto, using(crate::proofs::Refused::refused_then))]
fn numbers(alloc: Global, slots: &[Slot]) -> Result<Vec<i64>, OrMemory<Bad>>
    ensures { (m : PlainMemory) → Acts (λ numbers. numbers.items) result m (numbers (slot_values (map slot_view slots.now)) m) }
{
    match slots {
        [] => Ok(Vec::new(alloc)),
        [first, slots @ ..] => {
            let number = number_of(alloc, first)?;
            let mut behind = numbers(alloc, slots)?;
            behind.insert(0, number)?;
            Ok(behind)
        }
    }
}

#[tactic(auto, using(crate::proofs::Refused::refused_then))]
fn number_of(alloc: Global, slot: &Slot) -> Result<i64, OrMemory<Bad>>
    ensures { (m : PlainMemory) → Acts (λ number. number) result m (number_of (slot_value (slot_view slot.now)) m) }
{
    let value = match slot {
        Slot::Value(value) => coerce(alloc, value, &VType::Long)?,
        Slot::Path(_) => coerce(alloc, &Value::Empty, &VType::Long)?,
    };
    Ok(number_in(&value))
}

fn number_in(value: &Value) -> i64
    ensures { result ≡ number_in (view value.now) }
{
    match value {
        Value::Byte(number) => i64::from(*number),
        Value::Integer(number) => i64::from(*number),
        Value::Long(number) => i64::from(*number),
        Value::LongLong(number) => *number,
        _ => 0,
    }
}

/// An object is indexed by its default member: Nothing has none, Number of Err takes no arguments.
fn indexed_object(reference: ObjRef) -> Bad
    ensures { (m : PlainMemory) → indexed_object {A = ℕ × Declared} reference m ≡ answered (Err result) m }
{
    match reference {
        ObjRef::Nothing => Bad::Raise(91),
        ObjRef::Host(HostRef::ErrObject) => Bad::Raise(450),
        _ => Bad::Raise(438),
    }
}

#[tactic(auto, using(crate::proofs::Refused::refused_then))]
fn element_of_array(
    alloc: Global,
    array: &ArrayValue,
    slots: &[Slot],
) -> Result<(usize, VType), OrMemory<Bad>>
    ensures { (m : PlainMemory) → Acts (λ found. (found.0, declared found.1)) result m (element_found (Some (array_view array.now)) (slot_values (map slot_view slots.now)) m) }
{
    if count_elements(array.bounds.as_slice()).is_none() {
        return Err(OrMemory::NoMemory);
    }
    let numbers = numbers(alloc, slots)?;
    let offset = offset_in(array.bounds.as_slice(), numbers.as_slice())?;
    let of = copy_type(alloc, &array.element)?;
    Ok((offset, of))
}

#[tactic(auto, using(crate::proofs::Refused::refused_then))]
fn element_of_value(
    alloc: Global,
    value: &Value,
    slots: &[Slot],
) -> Result<(usize, VType), OrMemory<Bad>>
    ensures { (m : PlainMemory) → Acts (λ found. (found.0, declared found.1)) result m (element_found (Some (view value.now)) (slot_values (map slot_view slots.now)) m) }
{
    match value {
        Value::Array(array) => element_of_array(alloc, array, slots),
        Value::Object(reference) => Err(OrMemory::Fault(indexed_object(*reference))),
        Value::Empty
        | Value::Null
        | Value::Missing
        | Value::Boolean(_)
        | Value::Byte(_)
        | Value::Integer(_)
        | Value::Long(_)
        | Value::LongLong(_)
        | Value::Currency(_)
        | Value::Text(_)
        | Value::Udt(_) => Err(OrMemory::Fault(Bad::Raise(450))),
    }
}

/// A place that is gone has no element, but its numbers are looked at first.
#[tactic(auto, using(crate::proofs::Refused::refused_then))]
fn nowhere(alloc: Global, slots: &[Slot]) -> Result<(usize, VType), OrMemory<Bad>>
    ensures { (m : PlainMemory) → Acts (λ found. (found.0, declared found.1)) result m (element_found None (slot_values (map slot_view slots.now)) m) }
{
    let _numbers = numbers(alloc, slots)?;
    Err(OrMemory::Fault(Bad::Raise(9)))
}

impl Memory {
    /// The path of the element with these numbers, of the array that is now at a path: 9 where there is no such place any
    /// more, 450 where there is neither an array nor an object.
    #[tactic(auto, using(crate::proofs::Refused::refused_then, crate::proofs::Found::element_in_found))]
    pub fn element_at(
        &self,
        alloc: Global,
        path: &Path,
        slots: &[Slot],
    ) -> Result<Path, OrMemory<Bad>>
        ensures { Acts path_view result (memory_view self.now) (element_at (path_view path.now) (slot_values (map slot_view slots.now)) (memory_view self.now)) }
    {
        let (offset, of) = self.element_found(alloc, path, slots)?;
        let mut element = path.copy(alloc)?;
        element.into_element(offset, of)?;
        Ok(element)
    }

    fn element_found(
        &self,
        alloc: Global,
        path: &Path,
        slots: &[Slot],
    ) -> Result<(usize, VType), OrMemory<Bad>>
        ensures { (m : PlainMemory) → Acts (λ found. (found.0, declared found.1)) result m
            (element_found (value_at (memory_view self.now) (path_view path.now)) (slot_values (map slot_view slots.now)) m) }
    {
        let steps = path.plain_steps(alloc)?;
        let object = path.root.object_value();
        let Some(root) = self.root_value(&path.root, &object) else {
            return nowhere(alloc, slots);
        };
        match inner_value(root, steps.as_slice()) {
            Some(value) => element_of_value(alloc, value, slots),
            None => nowhere(alloc, slots),
        }
    }

    /// A field of a value, which the running statement holds then; 9 where there is none.
    pub fn part_of(
        &mut self,
        alloc: Global,
        field: u32,
        value: &Value,
    ) -> Result<Value, OrMemory<Bad>>
        ensures { Acts view result (memory_view self.new) (part_of field (view value.now) (memory_view self.old)) }
    {
        let Some(part) = field_copy(alloc, value, field)? else {
            return Err(OrMemory::Fault(Bad::Raise(9)));
        };
        self.hold(alloc, &part)?;
        Ok(part)
    }
}

fn field_copy(alloc: Global, value: &Value, field: u32) -> Result<Option<Value>, NoMemory>
    ensures { IfOk result (λ part. option_map view part ≡ path_value (view value.now) (step.Field field ∷ [])) }
{
    let steps = [PathStep::Field(field)];
    copy_inner(alloc, value, &steps)
}

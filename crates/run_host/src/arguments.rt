// Arguments as numbers and texts: an object gives way to its default value.
ghost use Rattle.std.specs.Prelude.{◌≡◌, IfSome, map};
ghost use Rattle.vba_values.specs.Val.{whole};
ghost use Rattle.vba_values.specs.View.{view};
ghost use Rattle.vba_values.specs.declared.types.WholeKind.TheVariants as kind;
ghost use Rattle.vba_meaning.specs.Memory.{Memory as PlainMemory};
ghost use Rattle.vba_meaning.specs.Effects.{Fine, plain, slot_value, slot_values};
ghost use Rattle.vba_meaning.specs.Host.{as_given, long_of, plains, text_of};
ghost use Rattle.run_memory.specs.Acts.{Acts};
ghost use Rattle.run_memory.specs.View.{memory_view, slot_view};
ghost use Rattle.run_host.specs.Members.{is_missing, object_in, text_by};

use run_arrays::long_of as number_of;
use run_memory::{Memory, Slot};
use std::alloc::Global;
use vba_base::{OrMemory, Units};
use vba_values::{Bad, ObjRef, VType, Value, coerce, copy_value};

/// An argument as a number; a path stands for Empty here and below.
pub fn long_of(memory: &Memory, alloc: Global, slot: &Slot) -> Result<i32, OrMemory<Bad>>
    ensures { Acts (λ number. number) result (memory_view memory.now) (long_of (slot_value (slot_view slot.now)) (memory_view memory.now)) }
{
    match slot {
        Slot::Value(value) => long_of_value(memory, alloc, value),
        Slot::Path(_) => long_of_value(memory, alloc, &Value::Empty),
    }
}

/// A value as a number.
#[tactic(auto, using(run_memory::proofs::Refused::refused_then, crate::proofs::Parts::plain_object, crate::proofs::Parts::plain_other))]
pub fn long_of_value(memory: &Memory, alloc: Global, value: &Value) -> Result<i32, OrMemory<Bad>>
    ensures { Acts (λ number. number) result (memory_view memory.now) (long_of (view value.now) (memory_view memory.now)) }
{
    if let Some(number) = number_at_once(value) {
        return Ok(number);
    }
    match object_in(value) {
        Some(reference) => {
            let value = memory.plain_reference(alloc, reference)?;
            number_of(alloc, &value)
        }
        None => number_of(alloc, value),
    }
}

/// The number of a Long or an Integer, which wants no coercion.
fn number_at_once(value: &Value) -> Option<i32>
    ensures { (m : PlainMemory) → IfSome result (λ number. long_of (view value.now) m ≡ Fine number m) }
{
    match value {
        Value::Long(number) => Some(of_long(*number)),
        Value::Integer(number) => Some(of_integer(*number)),
        _ => None,
    }
}

fn of_long(number: i32) -> i32
    ensures { (m : PlainMemory) → long_of (whole kind.Long number) m ≡ Fine result m }
{
    number
}

fn of_integer(number: i16) -> i32
    ensures { (m : PlainMemory) → long_of (whole kind.Integer number) m ≡ Fine result m }
{
    i32::from(number)
}

/// An argument as a text.
pub fn text_of(memory: &Memory, alloc: Global, slot: &Slot) -> Result<Units, OrMemory<Bad>>
    ensures { Acts (λ text. text) result (memory_view memory.now) (text_of (slot_value (slot_view slot.now)) (memory_view memory.now)) }
{
    match slot {
        Slot::Value(value) => text_of_value(memory, alloc, value),
        Slot::Path(_) => text_of_value(memory, alloc, &Value::Empty),
    }
}

/// A value as a text.
#[tactic(auto, using(run_memory::proofs::Refused::refused_then, crate::proofs::Parts::plain_object, crate::proofs::Parts::plain_other))]
fn text_of_value(memory: &Memory, alloc: Global, value: &Value) -> Result<Units, OrMemory<Bad>>
    ensures { Acts (λ text. text) result (memory_view memory.now) (text_of (view value.now) (memory_view memory.now)) }
{
    match object_in(value) {
        Some(reference) => {
            let value = memory.plain_reference(alloc, reference)?;
            text_by(alloc, &value)
        }
        None => text_by(alloc, value),
    }
}

/// A value that is no object, as a text.
#[tactic(auto, using(run_memory::proofs::Refused::refused_then))]
fn text_by(alloc: Global, value: &Value) -> Result<Units, OrMemory<Bad>>
    ensures { (m : PlainMemory) → Acts (λ text. text) result m (text_by (view value.now) m) }
{
    match coerce(alloc, value, &VType::Text)? {
        Value::Text(text) => Ok(text),
        _ => Ok(Units::new(alloc)),
    }
}

/// The object that a value is, where it is one.
pub fn object_in(value: &Value) -> Option<ObjRef>
    ensures { result ≡ object_in (view value.now) }
{
    match value {
        Value::Object(reference) => Some(*reference),
        _ => None,
    }
}

/// The value of an argument, where an object gives way to its default value.
fn plain_copy(memory: &Memory, alloc: Global, slot: &Slot) -> Result<Value, OrMemory<Bad>>
    ensures { Acts view result (memory_view memory.now) (plain (slot_value (slot_view slot.now)) (memory_view memory.now)) }
{
    match slot {
        Slot::Value(Value::Object(reference)) => memory.plain_reference(alloc, *reference),
        Slot::Value(value) => Ok(copy_value(alloc, value)?),
        Slot::Path(_) => Ok(Value::Empty),
    }
}

/// Such values of arguments.
#[tactic(auto, using(run_memory::proofs::Refused::refused_then))]
pub fn plains(memory: &Memory, alloc: Global, slots: &[Slot]) -> Result<Vec<Slot>, OrMemory<Bad>>
    ensures { Acts (λ plains. slot_values (map slot_view plains.items)) result (memory_view memory.now) (plains (slot_values (map slot_view slots.now)) (memory_view memory.now)) }
{
    match slots {
        [] => Ok(Vec::new(alloc)),
        [first, slots @ ..] => {
            let first = plain_copy(memory, alloc, first)?;
            let mut behind = plains(memory, alloc, slots)?;
            behind.insert(0, Slot::Value(first))?;
            Ok(behind)
        }
    }
}

/// Missing arguments behind the last one that is given count as not given.
pub fn as_given(slots: &[Slot]) -> &[Slot]
    ensures { slot_values (map slot_view result.now) ≡ as_given (slot_values (map slot_view slots.now)) }
{
    match slots {
        [] => slots,
        [before @ .., last] => if is_missing(last) {
            as_given(before)
        } else {
            slots
        },
    }
}

/// Whether an argument is Missing.
pub fn is_missing(slot: &Slot) -> bool
    ensures { result ≡ is_missing (slot_value (slot_view slot.now)) }
{
    matches!(slot, Slot::Value(Value::Missing))
}

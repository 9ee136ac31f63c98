// Err.Raise, where Err was found in the run ([MS-VBAL] 6.1.3.2).
ghost use Rattle.std.specs.Prelude.{◌≡◌, bytes_eq, map, slice_index_or};
ghost use Rattle.vba_values.specs.Types.{declared};
ghost use Rattle.vba_values.specs.Val.{missing};
ghost use Rattle.vba_values.specs.View.{view};
ghost use Rattle.vba_meaning.specs.Memory.{value};
ghost use Rattle.vba_meaning.specs.Effects.{slot_value, slot_values};
ghost use Rattle.vba_meaning.specs.Host.{error_given, is_raise, number_given, text_given};
ghost use Rattle.run_memory.specs.Acts.{Acts};
ghost use Rattle.run_memory.specs.View.{error_view, memory_view, slot_view};
ghost use Rattle.run_host.specs.Members.{is_missing, plain_as};

use crate::arguments::object_in;
use run_memory::{Memory, RunError, Slot};
use std::alloc::Global;
use vba_base::OrMemory;
use vba_values::{Bad, HostRef, ObjRef, VType, Value, coerce};

/// Whether a member is Err.Raise, by its folded name.
pub fn is_raise(name: &[u16], base: &Value) -> bool
    ensures { result ≡ is_raise name.now (view base.now) }
{
    match base {
        Value::Object(ObjRef::Host(HostRef::ErrObject)) => is_word(name, b"raise"),
        _ => false,
    }
}

/// Whether these are the units of an ASCII word.
fn is_word(name: &[u16], word: &[u8]) -> bool
    ensures { result ≡ bytes_eq name.now word.now }
{
    match (name, word) {
        ([], []) => true,
        ([unit, units @ ..], [byte, bytes @ ..]) => *unit == u16::from(*byte)
            && is_word(units, bytes),
        _ => false,
    }
}

/// The error that the arguments of Err.Raise raise: 449 without a number, which becomes a Long; a source and a description
/// become texts.
#[tactic(auto, using(run_memory::proofs::Refused::refused_then, crate::proofs::Raised::argument_at))]
pub fn error_given(
    memory: &Memory,
    alloc: Global,
    slots: &[Slot],
) -> Result<RunError, OrMemory<Bad>>
    ensures { Acts error_view result (memory_view memory.now) (error_given (slot_values (map slot_view slots.now)) (memory_view memory.now)) }
{
    let number = number_in(memory, alloc, slots)?;
    let source = text_in(memory, alloc, slots, 1)?;
    let description = text_in(memory, alloc, slots, 2)?;
    let given = [
        Slot::Value(number),
        Slot::Value(source),
        Slot::Value(description),
    ];
    Ok(memory.raised_by(alloc, &given)?)
}

/// The number among the arguments.
fn number_in(memory: &Memory, alloc: Global, slots: &[Slot]) -> Result<Value, OrMemory<Bad>>
    ensures { Acts view result (memory_view memory.now) (number_given (slot_value (slice_index_or (map slot_view slots.now) 0 (value missing))) (memory_view memory.now)) }
{
    match slots.get(0) {
        Some(Slot::Value(value)) => number_given(memory, alloc, value),
        Some(Slot::Path(_)) => number_given(memory, alloc, &Value::Empty),
        None => Err(OrMemory::Fault(Bad::Raise(449))),
    }
}

/// A text among the arguments, and Missing where it isn't given.
fn text_in(
    memory: &Memory,
    alloc: Global,
    slots: &[Slot],
    place: usize,
) -> Result<Value, OrMemory<Bad>>
    ensures { Acts view result (memory_view memory.now) (text_given (slot_value (slice_index_or (map slot_view slots.now) place (value missing))) (memory_view memory.now)) }
{
    match slots.get(place) {
        Some(Slot::Value(value)) => text_given(memory, alloc, value),
        Some(Slot::Path(_)) => text_given(memory, alloc, &Value::Empty),
        None => Ok(Value::Missing),
    }
}

/// A number that is given.
#[tactic(auto, using(crate::proofs::Raised::number_missing, crate::proofs::Raised::number_coerced))]
fn number_given(memory: &Memory, alloc: Global, value: &Value) -> Result<Value, OrMemory<Bad>>
    ensures { Acts view result (memory_view memory.now) (number_given (view value.now) (memory_view memory.now)) }
{
    if is_missing(value) {
        return Err(OrMemory::Fault(Bad::Raise(449)));
    }
    coerced(memory, alloc, value, &VType::Long)
}

/// A text, where one is given.
#[tactic(auto, using(crate::proofs::Raised::text_missing, crate::proofs::Raised::text_coerced))]
fn text_given(memory: &Memory, alloc: Global, value: &Value) -> Result<Value, OrMemory<Bad>>
    ensures { Acts view result (memory_view memory.now) (text_given (view value.now) (memory_view memory.now)) }
{
    if is_missing(value) {
        return Ok(Value::Missing);
    }
    coerced(memory, alloc, value, &VType::Text)
}

fn is_missing(value: &Value) -> bool
    ensures { result ≡ is_missing (view value.now) }
{
    matches!(value, Value::Missing)
}

/// A value as one of a type: an object gives way to its default value.
#[tactic(auto, using(run_memory::proofs::Refused::refused_then, crate::proofs::Parts::plain_object, crate::proofs::Parts::plain_other))]
fn coerced(
    memory: &Memory,
    alloc: Global,
    value: &Value,
    of: &VType,
) -> Result<Value, OrMemory<Bad>>
    ensures { Acts view result (memory_view memory.now) (plain_as (declared of.now) (view value.now) (memory_view memory.now)) }
{
    match object_in(value) {
        Some(reference) => {
            let value = memory.plain_reference(alloc, reference)?;
            coerce(alloc, &value, of)
        }
        None => coerce(alloc, value, of),
    }
}

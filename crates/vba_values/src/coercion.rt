// Let-coercion, by the type that a value becomes.
ghost use Rattle.std.specs.Prelude.{◌≡◌, ◌≢◌, ◌*ℤ◌, pos, false};
ghost use Rattle.vba_base.specs.Answer.{Gives};
ghost use Rattle.vba_values.specs.Coerce.{coerce_of, is_same_type, is_text, takes_memory, to_array, to_boolean, to_currency, to_fixed_text, to_object, to_text, to_udt, to_whole};
ghost use Rattle.vba_values.specs.Errors.{Answers};
ghost use Rattle.vba_values.specs.Texts.{amount};
ghost use Rattle.vba_values.specs.Types.{declared};
ghost use Rattle.vba_values.specs.View.{view};

use crate::copy::copy_value;
use crate::fault::Bad;
use crate::number_text::{currency_of_text, whole_of_text};
use crate::texts::{of_length, text_of};
use crate::types::{VType, WholeKind};
use crate::value::Value;
use crate::whole::{boolean_in, ranged};
use crate::words::boolean_of_text;
use currency::{Overflow, count, from_whole, round_to_whole};
use std::alloc::Global;
use vba_base::OrMemory;

/// Let-coercion: the value that a declared type gets where it is assigned this value. What is answered is a copy. The
/// test of Set, and the value of an object's default member, are the caller's task.
///
/// A number outside the target's range raises 6, Null for another target than Variant 94, and a value that the target
/// doesn't take 13. A text that may be a number to VBA but isn't a number text here stops the run.
pub fn coerce(alloc: Global, value: &Value, to: &VType) -> Result<Value, OrMemory<Bad>>
    ensures value { Gives view result (coerce_of (view value.now) (declared to.now)) }
    ensures memory { takes_memory (view value.now) (declared to.now) ≡ false → result ≢ Err OrMemory.NoMemory }
{
    match to {
        VType::Boolean => to_boolean(alloc, value),
        VType::Byte => Ok(to_whole(WholeKind::Byte, value)?),
        VType::Integer => Ok(to_whole(WholeKind::Integer, value)?),
        VType::Long => Ok(to_whole(WholeKind::Long, value)?),
        VType::LongLong => Ok(to_whole(WholeKind::LongLong, value)?),
        VType::Currency => Ok(to_currency(value)?),
        VType::Text => to_text(alloc, value),
        VType::FixedText(size) => to_fixed_text(alloc, usize::from(*size), value),
        VType::Object | VType::Class(_) | VType::Collection | VType::Worksheet | VType::Range => Ok(
            to_object(value)?,
        ),
        VType::Variant => Ok(copy_value(alloc, value)?),
        VType::Udt(place) => to_udt(alloc, *place, value),
        VType::ArrayOf(element) => to_array(alloc, element, value),
    }
}

/// True exactly where a number isn't 0.
fn to_boolean(alloc: Global, value: &Value) -> Result<Value, OrMemory<Bad>>
    ensures value { Gives view result (to_boolean (view value.now)) }
    ensures memory { is_text (view value.now) ≡ false → result ≢ Err OrMemory.NoMemory }
{
    match value {
        Value::Empty => Ok(Value::Boolean(false)),
        Value::Null => Err(OrMemory::Fault(Bad::INVALID_NULL)),
        Value::Boolean(truth) => Ok(Value::Boolean(*truth)),
        Value::Byte(number) => Ok(Value::Boolean(*number != 0)),
        Value::Integer(number) => Ok(Value::Boolean(*number != 0)),
        Value::Long(number) => Ok(Value::Boolean(*number != 0)),
        Value::LongLong(number) => Ok(Value::Boolean(*number != 0)),
        Value::Currency(amount) => Ok(Value::Boolean(count(*amount) != 0)),
        Value::Text(text) => boolean_of_text(alloc, text.units()),
        Value::Missing | Value::Object(_) | Value::Array(_) | Value::Udt(_) => {
            Err(OrMemory::Fault(Bad::TYPE_MISMATCH))
        }
    }
}

/// A whole number of a kind. Fractions are rounded half to even.
fn to_whole(kind: WholeKind, value: &Value) -> Result<Value, Bad>
    ensures { Answers view result (to_whole kind (view value.now)) }
{
    match value {
        Value::Empty => ranged(kind, 0),
        Value::Null => Err(Bad::INVALID_NULL),
        Value::Boolean(truth) => ranged(kind, boolean_in(kind, *truth)),
        Value::Byte(number) => ranged(kind, i64::from(*number)),
        Value::Integer(number) => ranged(kind, i64::from(*number)),
        Value::Long(number) => ranged(kind, i64::from(*number)),
        Value::LongLong(number) => ranged(kind, *number),
        Value::Currency(amount) => ranged(kind, round_to_whole(*amount)),
        Value::Text(text) => whole_of_text(kind, text.units()),
        Value::Missing | Value::Object(_) | Value::Array(_) | Value::Udt(_) => {
            Err(Bad::TYPE_MISMATCH)
        }
    }
}

/// The same amount, with True as -1.
fn to_currency(value: &Value) -> Result<Value, Bad>
    ensures { Answers view result (to_currency (view value.now)) }
{
    match value {
        Value::Empty => amount(0),
        Value::Null => Err(Bad::INVALID_NULL),
        Value::Boolean(truth) => amount(boolean_in(WholeKind::Integer, *truth)),
        Value::Byte(number) => amount(i64::from(*number)),
        Value::Integer(number) => amount(i64::from(*number)),
        Value::Long(number) => amount(i64::from(*number)),
        Value::LongLong(number) => amount(*number),
        Value::Currency(amount) => Ok(Value::Currency(*amount)),
        Value::Text(text) => currency_of_text(text.units()),
        Value::Missing | Value::Object(_) | Value::Array(_) | Value::Udt(_) => {
            Err(Bad::TYPE_MISMATCH)
        }
    }
}

/// A whole number as a Currency.
fn amount(whole: i64) -> Result<Value, Bad>
    ensures { Answers view result (amount (whole *ℤ pos 10000)) }
{
    match from_whole(whole) {
        Ok(amount) => Ok(Value::Currency(amount)),
        Err(Overflow) => Err(Bad::OVERFLOW),
    }
}

fn to_text(alloc: Global, value: &Value) -> Result<Value, OrMemory<Bad>>
    ensures { Gives view result (to_text (view value.now)) }
{
    let text = text_of(alloc, value)?;
    Ok(Value::Text(text))
}

/// The text as `String * size` has it.
fn to_fixed_text(alloc: Global, size: usize, value: &Value) -> Result<Value, OrMemory<Bad>>
    ensures { Gives view result (to_fixed_text size (view value.now)) }
{
    match value {
        Value::Text(text) => Ok(Value::Text(of_length(alloc, size, text.units())?)),
        _ => {
            let text = text_of(alloc, value)?;
            Ok(Value::Text(of_length(alloc, size, text.units())?))
        }
    }
}

/// An object of any kind, unchanged.
fn to_object(value: &Value) -> Result<Value, Bad>
    ensures { Answers view result (to_object (view value.now)) }
{
    match value {
        Value::Null => Err(Bad::INVALID_NULL),
        Value::Object(reference) => Ok(Value::Object(*reference)),
        Value::Empty
        | Value::Missing
        | Value::Boolean(_)
        | Value::Byte(_)
        | Value::Integer(_)
        | Value::Long(_)
        | Value::LongLong(_)
        | Value::Currency(_)
        | Value::Text(_)
        | Value::Array(_)
        | Value::Udt(_) => Err(Bad::TYPE_MISMATCH),
    }
}

/// A value of that user-defined type.
fn to_udt(alloc: Global, wanted: u32, value: &Value) -> Result<Value, OrMemory<Bad>>
    ensures { Gives view result (to_udt wanted (view value.now)) }
{
    match value {
        Value::Null => Err(OrMemory::Fault(Bad::INVALID_NULL)),
        Value::Udt(udt) if udt.udt == wanted => Ok(copy_value(alloc, value)?),
        _ => Err(OrMemory::Fault(Bad::TYPE_MISMATCH)),
    }
}

/// An array with elements of that type.
fn to_array(alloc: Global, wanted: &VType, value: &Value) -> Result<Value, OrMemory<Bad>>
    ensures { Gives view result (to_array (declared wanted.now) (view value.now)) }
{
    match value {
        Value::Null => Err(OrMemory::Fault(Bad::INVALID_NULL)),
        Value::Array(array) if is_same_type(&array.element, wanted) => {
            Ok(copy_value(alloc, value)?)
        }
        _ => Err(OrMemory::Fault(Bad::TYPE_MISMATCH)),
    }
}

/// Whether two declared types are the same.
pub fn is_same_type(left: &VType, right: &VType) -> bool
    ensures { result ≡ is_same_type (declared left.now) (declared right.now) }
{
    match (left, right) {
        (VType::Boolean, VType::Boolean) => true,
        (VType::Byte, VType::Byte) => true,
        (VType::Integer, VType::Integer) => true,
        (VType::Long, VType::Long) => true,
        (VType::LongLong, VType::LongLong) => true,
        (VType::Currency, VType::Currency) => true,
        (VType::Text, VType::Text) => true,
        (VType::FixedText(left), VType::FixedText(right)) => left == right,
        (VType::Object, VType::Object) => true,
        (VType::Class(left), VType::Class(right)) => left == right,
        (VType::Collection, VType::Collection) => true,
        (VType::Worksheet, VType::Worksheet) => true,
        (VType::Range, VType::Range) => true,
        (VType::Variant, VType::Variant) => true,
        (VType::Udt(left), VType::Udt(right)) => left == right,
        (VType::ArrayOf(left), VType::ArrayOf(right)) => is_same_type(left, right),
        _ => false,
    }
}

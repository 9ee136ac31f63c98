// What a variable of a declared type holds.
ghost use Rattle.std.specs.Prelude.{◌≡◌, true, IsOk};
ghost use Rattle.vba_base.specs.Answer.{Gives};
ghost use Rattle.vba_values.specs.Coerce.{coerce_of};
ghost use Rattle.vba_values.specs.Held.{can_hold};
ghost use Rattle.vba_values.specs.Types as type;
ghost use Rattle.vba_values.specs.Types.{declared};
ghost use Rattle.vba_values.specs.View.{view};

use crate::coercion::{coerce, is_same_type};
use crate::fault::Bad;
use crate::operands::number_of;
use crate::types::VType;
use crate::value::Value;
use std::alloc::Global;
use vba_base::OrMemory;

/// Whether a variable of a declared type can hold a value as it is. Which objects it can hold is the test of Set.
pub fn can_hold(to: &VType, value: &Value) -> bool
    ensures { result ≡ can_hold (declared to.now) (view value.now) }
{
    match to {
        VType::Boolean => matches!(value, Value::Boolean(_)),
        VType::Byte => is_byte(value),
        VType::Integer => is_integer(value),
        VType::Long => is_long(value),
        VType::LongLong => is_long_long(value),
        VType::Currency => matches!(value, Value::Currency(_)),
        VType::Text => matches!(value, Value::Text(_)),
        VType::FixedText(size) => has_length(value, usize::from(*size)),
        VType::Object => is_object(value),
        VType::Class(_) => is_object(value),
        VType::Collection => is_object(value),
        VType::Worksheet => is_object(value),
        VType::Range => is_object(value),
        VType::Variant => true,
        VType::Udt(place) => is_udt(value, *place),
        VType::ArrayOf(element) => is_array(value, element),
    }
}

fn is_byte(value: &Value) -> bool
    ensures { result ≡ can_hold type.byte (view value.now) }
{
    // The number says that it fits its kind.
    let _number = number_of(value);
    matches!(value, Value::Byte(_))
}

fn is_integer(value: &Value) -> bool
    ensures { result ≡ can_hold type.integer (view value.now) }
{
    // The number says that it fits its kind.
    let _number = number_of(value);
    matches!(value, Value::Integer(_))
}

fn is_long(value: &Value) -> bool
    ensures { result ≡ can_hold type.long (view value.now) }
{
    // The number says that it fits its kind.
    let _number = number_of(value);
    matches!(value, Value::Long(_))
}

fn is_long_long(value: &Value) -> bool
    ensures { result ≡ can_hold type.long_long (view value.now) }
{
    // The number says that it fits its kind.
    let _number = number_of(value);
    matches!(value, Value::LongLong(_))
}

fn has_length(value: &Value, size: usize) -> bool
    ensures { result ≡ can_hold (type.fixed_text size) (view value.now) }
{
    match value {
        Value::Text(text) => text.units().len() == size,
        _ => false,
    }
}

fn is_object(value: &Value) -> bool
    ensures { result ≡ can_hold type.object (view value.now) }
{
    matches!(value, Value::Object(_))
}

fn is_udt(value: &Value, place: u32) -> bool
    ensures { result ≡ can_hold (type.udt place) (view value.now) }
{
    match value {
        Value::Udt(udt) => udt.udt == place,
        _ => false,
    }
}

fn is_array(value: &Value, element: &VType) -> bool
    ensures { result ≡ can_hold (type.array_of (declared element.now)) (view value.now) }
{
    match value {
        Value::Array(array) => is_same_type(&array.element, element),
        _ => false,
    }
}

/// Let-coercion of a value that isn't needed any more: what the declared type can hold isn't copied.
#[tactic(auto, using(crate::proofs::Coerced::held_is_kept))]
pub fn coerce_owned(alloc: Global, value: Value, to: &VType) -> Result<Value, OrMemory<Bad>>
    ensures value { Gives view result (coerce_of (view value) (declared to.now)) }
    ensures memory { can_hold (declared to.now) (view value) ≡ true → IsOk result }
{
    if can_hold(to, &value) {
        return Ok(value);
    }
    coerce(alloc, &value, to)
}

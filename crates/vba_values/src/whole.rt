// Whole numbers of the four kinds.
ghost use Rattle.std.specs.Prelude.{◌≡◌};
ghost use Rattle.vba_values.specs.Errors.{Answers};
ghost use Rattle.vba_values.specs.View.{view};
ghost use Rattle.vba_values.specs.Whole.{ranged, boolean_in};

use crate::fault::Bad;
use crate::types::WholeKind;
use crate::value::Value;

/// A number as a value of a kind. Overflow where it is outside the range.
pub fn ranged(kind: WholeKind, number: i64) -> Result<Value, Bad>
    ensures { Answers view result (ranged kind number) }
{
    match kind {
        WholeKind::Byte => match u8::try_from(number) {
            Ok(number) => Ok(Value::Byte(number)),
            Err(_) => Err(Bad::OVERFLOW),
        },
        WholeKind::Integer => match i16::try_from(number) {
            Ok(number) => Ok(Value::Integer(number)),
            Err(_) => Err(Bad::OVERFLOW),
        },
        WholeKind::Long => match i32::try_from(number) {
            Ok(number) => Ok(Value::Long(number)),
            Err(_) => Err(Bad::OVERFLOW),
        },
        WholeKind::LongLong => Ok(Value::LongLong(number)),
    }
}

/// A Boolean as a number of a kind: True is 255 as a Byte and else -1, False is 0.
pub fn boolean_in(kind: WholeKind, truth: bool) -> i64
    ensures { result ≡ boolean_in kind truth }
{
    match (truth, kind) {
        (false, _) => 0,
        (true, WholeKind::Byte) => 255,
        (true, WholeKind::Integer | WholeKind::Long | WholeKind::LongLong) => -1,
    }
}

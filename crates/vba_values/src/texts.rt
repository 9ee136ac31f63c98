// Values as texts.
ghost use Rattle.std.specs.Prelude.{◌≡◌, ◌++◌, replicate, IfOk, OnOk};
ghost use Rattle.currency.specs.NumberText.{blank};
ghost use Rattle.std.specs.Fmt.{signed_decimal};
ghost use Rattle.vba_base.specs.Answer.{Gives};
ghost use Rattle.vba_values.specs.Coerce.{text_of};
ghost use Rattle.vba_values.specs.Texts.{of_length, word_of};
ghost use Rattle.vba_values.specs.View.{view};

use crate::fault::Bad;
use crate::value::Value;
use currency::print;
use std::alloc::Global;
use vba_base::{NoMemory, OrMemory, Units};

const BLANK: u16 = 0x20;

/// The text of a value, as CStr gives it. Null raises 94; Missing, an object, an array and a user-defined value raise 13.
pub fn text_of(alloc: Global, value: &Value) -> Result<Units, OrMemory<Bad>>
    ensures { Gives (λ text. text) result (text_of (view value.now)) }
{
    match value {
        Value::Empty => Ok(Units::new(alloc)),
        Value::Null => Err(OrMemory::Fault(Bad::INVALID_NULL)),
        Value::Boolean(truth) => Ok(Units::from_units(alloc, word_of(*truth))?),
        Value::Byte(number) => Ok(decimal_text(alloc, i64::from(*number))?),
        Value::Integer(number) => Ok(decimal_text(alloc, i64::from(*number))?),
        Value::Long(number) => Ok(decimal_text(alloc, i64::from(*number))?),
        Value::LongLong(number) => Ok(decimal_text(alloc, *number)?),
        Value::Currency(amount) => Ok(print(alloc, *amount)?),
        Value::Text(text) => Ok(Units::from_units(alloc, text.units())?),
        Value::Missing | Value::Object(_) | Value::Array(_) | Value::Udt(_) => Err(OrMemory::Fault(
            Bad::TYPE_MISMATCH,
        )),
    }
}

/// `True` or `False`.
pub fn word_of(truth: bool) -> &'static [u16]
    ensures { result.now ≡ word_of truth }
{
    if truth {
        &[0x54, 0x72, 0x75, 0x65]
    } else {
        &[0x46, 0x61, 0x6c, 0x73, 0x65]
    }
}

/// The decimal digits of a number, with `-` before negatives.
fn decimal_text(alloc: Global, number: i64) -> Result<Units, NoMemory>
    ensures { IfOk result (λ text. text ≡ signed_decimal number) }
{
    let digits = format!(in alloc; "{number}")?;
    from_ascii(alloc, digits.as_bytes())
}

/// A text of these ASCII characters.
pub fn from_ascii(alloc: Global, bytes: &[u8]) -> Result<Units, NoMemory>
    ensures { IfOk result (λ text. text ≡ bytes.now) }
{
    let mut text = Units::new(alloc);
    for byte in bytes {
        text.push(u16::from(*byte))?;
    }
    Ok(text)
}

/// The text cut to this many units, or with blanks behind it.
pub fn of_length(alloc: Global, size: usize, text: &[u16]) -> Result<Units, NoMemory>
    ensures { IfOk result (λ fixed. fixed ≡ of_length size text.now) }
{
    if size <= text.len() {
        return Units::from_units(alloc, &text[..size]);
    }
    let mut padded = Units::from_units(alloc, text)?;
    push_blanks(&mut padded, size - text.len())?;
    Ok(padded)
}

fn push_blanks(text: &mut Units, count: usize) -> Result<(), NoMemory>
    ensures { OnOk result (text.new ≡ text.old ++ replicate count blank) }
{
    for _ in 0..count {
        text.push(BLANK)?;
    }
    Ok(())
}

// Numbers without their signs or fractions, and in other notations.
ghost use Rattle.std.specs.Prelude.{◌≡◌, true, IfOk};
ghost use Rattle.std.specs.Fmt.{radix_digits};
ghost use Rattle.vba_base.specs.Answer.{Gives};
ghost use Rattle.vba_lib.specs.Numbers.{abs, absolute, fix, hex, int, numeric, oct, rounded_down, sgn, sign_of, truncated, written_bits};
ghost use Rattle.library_calls.specs.View.{number_view};
ghost use Rattle.vba_values.specs.Coerce.{is_text};
ghost use Rattle.vba_values.specs.Errors.{Answers};
ghost use Rattle.vba_values.specs.View.{view};

use crate::arguments::{Answer, ascii_text, long_argument};
use currency::{Currency, Overflow, count, from_count, from_whole};
use std::alloc::Global;
use vba_base::OrMemory;
use vba_values::{Bad, OpKind, VType, Value, unary};

/// A whole number of a kind, or a Currency.
#[derive(Clone, Copy)]
pub enum Number {
    Byte(u8),
    Integer(i16),
    Long(i32),
    LongLong(i64),
    Currency(Currency),
}

/// An argument as a number, with Boolean and Empty as Integer. A number text would be a Double.
fn number_argument(alloc: Global, value: &Value) -> Result<Number, OrMemory<Bad>>
    ensures { Gives number_view result (numeric (view value.now)) }
{
    match value {
        Value::Empty => Ok(Number::Integer(0)),
        Value::Boolean(truth) => Ok(Number::Integer(if *truth { -1 } else { 0 })),
        Value::Byte(number) => Ok(Number::Byte(*number)),
        Value::Integer(number) => Ok(Number::Integer(*number)),
        Value::Long(number) => Ok(Number::Long(*number)),
        Value::LongLong(number) => Ok(Number::LongLong(*number)),
        Value::Currency(amount) => Ok(Number::Currency(*amount)),
        Value::Text(_) => double_of(alloc, value),
        Value::Null | Value::Missing | Value::Object(_) | Value::Array(_) | Value::Udt(_) => {
            Err(OrMemory::Fault(Bad::TYPE_MISMATCH))
        }
    }
}

/// What comes of a text that would be a Double: what comes of its minus.
fn double_of(alloc: Global, text: &Value) -> Result<Number, OrMemory<Bad>>
    requires { is_text (view text.now) ≡ true }
    ensures { Gives number_view result (numeric (view text.now)) }
{
    match unary(alloc, OpKind::Neg, text, &VType::Variant) {
        Err(bad) => Err(bad),
        Ok(_) => unreachable!(),
    }
}

/// The size of a number. Where its kind doesn't have it, 6 is raised.
pub fn abs(alloc: Global, value: &Value) -> Answer
    ensures { Gives view result (abs (view value.now)) }
{
    Ok(absolute(number_argument(alloc, value)?)?)
}

fn absolute(number: Number) -> Result<Value, Bad>
    ensures { Answers view result (absolute (number_view number)) }
{
    match number {
        Number::Byte(number) => Ok(Value::Byte(number)),
        Number::Integer(number) => match i16::try_from(number.unsigned_abs()) {
            Ok(size) => Ok(Value::Integer(size)),
            Err(_) => Err(Bad::OVERFLOW),
        },
        Number::Long(number) => match i32::try_from(number.unsigned_abs()) {
            Ok(size) => Ok(Value::Long(size)),
            Err(_) => Err(Bad::OVERFLOW),
        },
        Number::LongLong(number) => match i64::try_from(number.unsigned_abs()) {
            Ok(size) => Ok(Value::LongLong(size)),
            Err(_) => Err(Bad::OVERFLOW),
        },
        Number::Currency(amount) => match i64::try_from(count(amount).unsigned_abs()) {
            Ok(size) => Ok(Value::Currency(from_count(size))),
            Err(_) => Err(Bad::OVERFLOW),
        },
    }
}

/// A number rounded down. Where Currency doesn't have it, 6 is raised.
pub fn int(alloc: Global, value: &Value) -> Answer
    ensures { Gives view result (int (view value.now)) }
{
    Ok(rounded_down(number_argument(alloc, value)?)?)
}

fn rounded_down(number: Number) -> Result<Value, Bad>
    ensures { Answers view result (rounded_down (number_view number)) }
{
    match number {
        Number::Currency(amount) => match from_whole(count(amount).div_euclid(10000)) {
            Ok(amount) => Ok(Value::Currency(amount)),
            Err(Overflow) => Err(Bad::OVERFLOW),
        },
        _ => Ok(whole_value(number)),
    }
}

/// A number rounded toward zero.
pub fn fix(alloc: Global, value: &Value) -> Answer
    ensures { Gives view result (fix (view value.now)) }
{
    Ok(truncated(number_argument(alloc, value)?)?)
}

fn truncated(number: Number) -> Result<Value, Bad>
    ensures { Answers view result (truncated (number_view number)) }
{
    match number {
        Number::Currency(amount) => match from_whole(count(amount) / 10000) {
            Ok(amount) => Ok(Value::Currency(amount)),
            Err(Overflow) => Err(Bad::OVERFLOW),
        },
        _ => Ok(whole_value(number)),
    }
}

/// A number as a value.
fn whole_value(number: Number) -> Value
    ensures { view result ≡ number_view number }
{
    match number {
        Number::Byte(number) => Value::Byte(number),
        Number::Integer(number) => Value::Integer(number),
        Number::Long(number) => Value::Long(number),
        Number::LongLong(number) => Value::LongLong(number),
        Number::Currency(amount) => Value::Currency(amount),
    }
}

/// -1, 0 or 1, as an Integer.
pub fn sgn(alloc: Global, value: &Value) -> Answer
    ensures { Gives view result (sgn (view value.now)) }
{
    let number = number_argument(alloc, value)?;
    Ok(Value::Integer(sign_of(number)))
}

fn sign_of(number: Number) -> i16
    ensures { result ≡ sign_of (number_view number) }
{
    match number {
        Number::Byte(number) => i16::from(number).signum(),
        Number::Integer(number) => number.signum(),
        Number::Long(number) => number.signum() as i16,
        Number::LongLong(number) => number.signum() as i16,
        Number::Currency(amount) => count(amount).signum() as i16,
    }
}

/// The bits that Hex and Oct write: 16 for Integer and below, 32 for Long and 64 for LongLong. Currency and text are
/// written as Long.
fn written_bits(alloc: Global, value: &Value) -> Result<u64, OrMemory<Bad>>
    ensures { Gives (λ bits. bits) result (written_bits (view value.now)) }
{
    match value {
        Value::Empty => Ok(0),
        Value::Boolean(truth) => Ok(if *truth { 0xFFFF } else { 0 }),
        Value::Byte(number) => Ok(u64::from(*number)),
        Value::Integer(number) => Ok(u64::from(number.cast_unsigned())),
        Value::Long(number) => Ok(u64::from(number.cast_unsigned())),
        Value::LongLong(number) => Ok(number.cast_unsigned()),
        _ => {
            let number = long_argument(alloc, value)?;
            Ok(u64::from(number.cast_unsigned()))
        }
    }
}

/// The bits of a number in hexadecimal digits.
pub fn hex(alloc: Global, value: &Value) -> Answer
    ensures { Gives view result (hex (view value.now)) }
{
    let bits = written_bits(alloc, value)?;
    let digits = format!(in alloc; "{bits:X}")?;
    Ok(Value::Text(ascii_text(alloc, digits.as_bytes())?))
}

/// The bits of a number in octal digits.
pub fn oct(alloc: Global, value: &Value) -> Answer
    ensures { Gives view result (oct (view value.now)) }
{
    let bits = written_bits(alloc, value)?;
    let digits = format!(in alloc; "{bits:o}")?;
    Ok(Value::Text(ascii_text(alloc, digits.as_bytes())?))
}

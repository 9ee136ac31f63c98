// Operands as numbers: the kinds in which the work of an operator is done.
ghost use Rattle.std.specs.Prelude.{◌≡◌, ◌≤◌, ◌^◌, IfSome, IsTrue, MatchOption, false, unsigned_abs};
ghost use Rattle.vba_values.specs.Coerce.{is_text};
ghost use Rattle.vba_values.specs.Operands.{count_of, is_amount, is_empty, is_no_operand, is_null, kind_beside, narrowest, number_of, wider, wider_whole, work_of};
ghost use Rattle.vba_values.specs.Val.{currency, whole};
ghost use Rattle.vba_values.specs.Whole.{fits};
ghost use Rattle.vba_values.specs.View.{view};

use crate::types::WholeKind;
use crate::value::Value;
use currency::{Currency, count};

/// Where the work of an operator is done: in a kind of whole numbers, or in Currency.
#[derive(Clone, Copy, Debug, PartialEq, Eq)]
pub enum Work {
    Whole(WholeKind),
    Currency,
}

/// A whole number and its kind.
#[derive(Clone, Copy)]
pub struct Whole {
    pub kind: WholeKind,
    pub number: i64,
}

/// Whether no operator but Is takes it: Missing, an object, an array or a user-defined value.
pub fn is_no_operand(value: &Value) -> bool
    ensures { result ≡ is_no_operand (view value.now) }
{
    matches!(
        value,
        Value::Missing | Value::Object(_) | Value::Array(_) | Value::Udt(_)
    )
}

pub fn is_null(value: &Value) -> bool
    ensures { result ≡ is_null (view value.now) }
{
    matches!(value, Value::Null)
}

pub fn is_empty(value: &Value) -> bool
    ensures { result ≡ is_empty (view value.now) }
{
    matches!(value, Value::Empty)
}

pub fn is_text(value: &Value) -> bool
    ensures { result ≡ is_text (view value.now) }
{
    matches!(value, Value::Text(_))
}

/// The value as a whole number, where it is one.
pub fn whole_of(value: &Value) -> Option<Whole>
    ensures { IfSome result (λ w. view value.now ≡ whole w.kind w.number) }
{
    let (kind, number) = match value {
        Value::Byte(number) => (WholeKind::Byte, i64::from(*number)),
        Value::Integer(number) => (WholeKind::Integer, i64::from(*number)),
        Value::Long(number) => (WholeKind::Long, i64::from(*number)),
        Value::LongLong(number) => (WholeKind::LongLong, *number),
        _ => return None,
    };
    Some(Whole { kind, number })
}

/// The value as a Currency, where it is one.
pub fn amount_of(value: &Value) -> Option<Currency>
    ensures { MatchOption result (is_amount (view value.now) ≡ false) (λ a. view value.now ≡ currency a) }
{
    match value {
        Value::Currency(amount) => Some(*amount),
        _ => None,
    }
}

/// The kind of an operand beside another. A Boolean counts as Integer, and so does Empty, but beside a Byte as Byte.
fn kind_beside(value: &Value, other: &Value) -> Work
    ensures { result ≡ kind_beside (view value.now) (view other.now) }
{
    match value {
        Value::Byte(_) => Work::Whole(WholeKind::Byte),
        Value::Long(_) => Work::Whole(WholeKind::Long),
        Value::LongLong(_) => Work::Whole(WholeKind::LongLong),
        Value::Currency(_) => Work::Currency,
        Value::Empty if matches!(other, Value::Byte(_)) => Work::Whole(WholeKind::Byte),
        _ => Work::Whole(WholeKind::Integer),
    }
}

/// The wider of two kinds of whole numbers: Byte, Integer, Long, LongLong.
pub fn wider_whole(left: WholeKind, right: WholeKind) -> WholeKind
    ensures { result ≡ wider_whole left right }
{
    match (left, right) {
        (WholeKind::LongLong, _) | (_, WholeKind::LongLong) => WholeKind::LongLong,
        (WholeKind::Long, _) | (_, WholeKind::Long) => WholeKind::Long,
        (WholeKind::Integer, _) | (_, WholeKind::Integer) => WholeKind::Integer,
        (WholeKind::Byte, WholeKind::Byte) => WholeKind::Byte,
    }
}

/// The wider of two kinds. Currency is the widest.
pub fn wider(left: Work, right: Work) -> Work
    ensures { result ≡ wider left right }
{
    match (left, right) {
        (Work::Currency, _) | (_, Work::Currency) => Work::Currency,
        (Work::Whole(left), Work::Whole(right)) => Work::Whole(wider_whole(left, right)),
    }
}

/// The kind in which two operands are worked.
pub fn work_of(left: &Value, right: &Value) -> Work
    ensures { result ≡ work_of (view left.now) (view right.now) }
{
    wider(kind_beside(left, right), kind_beside(right, left))
}

/// A number as a whole number: True is -1, Empty is 0.
pub fn number_of(value: &Value) -> i64
    ensures value { result ≡ number_of (view value.now) }
    ensures fits { IsTrue (fits (narrowest (view value.now)) result) }
{
    match value {
        Value::Boolean(true) => -1,
        Value::Byte(number) => i64::from(*number),
        Value::Integer(number) => i64::from(*number),
        Value::Long(number) => i64::from(*number),
        Value::LongLong(number) => *number,
        _ => 0,
    }
}

/// A number as a count of ten-thousandths.
pub fn count_of(value: &Value) -> i128
    ensures value { result ≡ count_of (view value.now) }
    ensures small { unsigned_abs result ≤ 10 ^ 23 }
{
    match value {
        Value::Currency(amount) => i128::from(count(*amount)),
        Value::Boolean(true) => -10000,
        Value::Byte(number) => i128::from(*number) * 10000,
        Value::Integer(number) => i128::from(*number) * 10000,
        Value::Long(number) => i128::from(*number) * 10000,
        Value::LongLong(number) => i128::from(*number) * 10000,
        _ => 0,
    }
}

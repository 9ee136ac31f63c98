// The operators \ and Mod.
ghost use Rattle.vba_values.specs.Arithmetic.{as_whole, divided, division, whole_kind_beside, whole_work};
ghost use Rattle.std.specs.Prelude.{◌≡◌, ◌≢◌, pos, int_div, int_rem};
ghost use Rattle.vba_values.specs.Errors.{Answers};
ghost use Rattle.vba_values.specs.Whole.{ranged};
ghost use Rattle.vba_values.specs.View.{view};

use crate::fault::Bad;
use crate::number_text::whole_of_text;
use crate::operands::{Work, is_no_operand, is_null, number_of, work_of};
use crate::types::{OpKind, WholeKind};
use crate::value::Value;
use crate::whole::ranged;
use currency::round_to_whole;

/// `\` and Mod. A zero divisor raises 11, a result outside its kind 6, and what no operator takes 13.
#[tactic(auto, unfolding(crate::specs::Arithmetic::division))]
pub fn division(op: OpKind, left: &Value, right: &Value) -> Result<Value, Bad>
    ensures { Answers view result (division op (view left.now) (view right.now)) }
{
    if is_no_operand(left) || is_no_operand(right) {
        return Err(Bad::TYPE_MISMATCH);
    }
    if is_null(left) || is_null(right) {
        return Ok(Value::Null);
    }
    let dividend = as_whole(left, right)?;
    let divisor = as_whole(right, left)?;
    let kind = whole_work(work_of(&dividend, &divisor));
    divided(op, kind, number_of(&dividend), number_of(&divisor))
}

/// An operand of the operators on whole numbers, beside another: Currency and text are coerced to Long, or to LongLong
/// beside a LongLong.
pub fn as_whole(value: &Value, other: &Value) -> Result<Value, Bad>
    ensures { Answers view result (as_whole (view value.now) (view other.now)) }
{
    match value {
        Value::Empty => Ok(Value::Empty),
        Value::Null => Ok(Value::Null),
        Value::Boolean(truth) => Ok(Value::Boolean(*truth)),
        Value::Byte(number) => Ok(Value::Byte(*number)),
        Value::Integer(number) => Ok(Value::Integer(*number)),
        Value::Long(number) => Ok(Value::Long(*number)),
        Value::LongLong(number) => Ok(Value::LongLong(*number)),
        Value::Currency(amount) => ranged(whole_kind_beside(other), round_to_whole(*amount)),
        Value::Text(text) => whole_of_text(whole_kind_beside(other), text.units()),
        Value::Missing | Value::Object(_) | Value::Array(_) | Value::Udt(_) => {
            Err(Bad::TYPE_MISMATCH)
        }
    }
}

/// The kind that Currency and text are coerced to.
fn whole_kind_beside(value: &Value) -> WholeKind
    ensures { result ≡ whole_kind_beside (view value.now) }
{
    match value {
        Value::LongLong(_) => WholeKind::LongLong,
        _ => WholeKind::Long,
    }
}

/// The kind of the work of whole numbers.
pub fn whole_work(work: Work) -> WholeKind
    ensures { result ≡ whole_work work }
{
    match work {
        Work::Whole(kind) => kind,
        Work::Currency => WholeKind::LongLong,
    }
}

/// The quotient, or the remainder, in a kind.
fn divided(op: OpKind, kind: WholeKind, left: i64, right: i64) -> Result<Value, Bad>
    ensures { Answers view result (divided op kind left right) }
{
    if right == 0 {
        return Err(Bad::DIVISION_BY_ZERO);
    }
    match op {
        OpKind::Mod => remainder(kind, left, right),
        _ => quotient(kind, left, right),
    }
}

/// The quotient, truncated toward zero.
fn quotient(kind: WholeKind, left: i64, right: i64) -> Result<Value, Bad>
    requires { right ≢ pos 0 }
    ensures { Answers view result (ranged kind (int_div left right)) }
{
    match left.checked_div(right) {
        Some(quotient) => ranged(kind, quotient),
        None => Err(Bad::OVERFLOW),
    }
}

/// What is left of the dividend, with its sign.
fn remainder(kind: WholeKind, left: i64, right: i64) -> Result<Value, Bad>
    requires { right ≢ pos 0 }
    ensures { Answers view result (ranged kind (int_rem left right)) }
{
    if right == -1 {
        return ranged(kind, 0);
    }
    ranged(kind, left % right)
}

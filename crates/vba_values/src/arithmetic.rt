// The operators + - *.
ghost use Rattle.std.specs.Prelude.{◌≡◌, ◌≢◌, false, ◌<◌, ◌^◌, ◌*ℤ◌, neg_ℤ, MatchOption, IsFalse, IsTrue, ◌||◌, pos, unsigned_abs};
ghost use Rattle.currency.specs.HalfEven.{half_even};
ghost use Rattle.vba_base.specs.Answer.{Gives};
ghost use Rattle.vba_values.specs.Arithmetic.{arithmetic, exact, exact_count, negated, of_numbers, whole_result, widened};
ghost use Rattle.vba_values.specs.Coerce.{is_text};
ghost use Rattle.vba_values.specs.Operands.{count_of, is_amount};
ghost use Rattle.vba_values.specs.Errors.{Answers};
ghost use Rattle.vba_values.specs.Texts.{amount};
ghost use Rattle.vba_values.specs.View.{view};
ghost use Rattle.vba_values.specs.Whole.{fits};
ghost use Rattle.vba_values.specs.declared.types.WholeKind.TheVariants as kind;

use crate::fault::Bad;
use crate::operands::{
    Work, amount_of, count_of, is_no_operand, is_null, is_text, number_of, whole_of, wider_whole,
    work_of,
};
use crate::text_sums::{double_of, with_text};
use crate::types::{OpKind, WholeKind};
use crate::value::Value;
use crate::whole::ranged;
use currency::{Currency, Overflow, count, from_count, mul, neg};
use std::alloc::Global;
use vba_base::OrMemory;

/// The exact result of + - *, where 64 bits hold it.
fn exact(op: OpKind, left: i64, right: i64) -> Option<i64>
    ensures { MatchOption result (IsFalse (fits kind.LongLong (exact op left right))) (λ number. number ≡ exact op left right) }
{
    match op {
        OpKind::Add => left.checked_add(right),
        OpKind::Sub => left.checked_sub(right),
        _ => left.checked_mul(right),
    }
}

/// A whole result where an operand is a Variant: a Byte that doesn't fit becomes Integer, an Integer becomes Long.
fn widened(kind: WholeKind, number: i64) -> Result<Value, Bad>
    ensures { Answers view result (widened kind number) }
{
    match (kind, ranged(kind, number)) {
        (_, Ok(value)) => Ok(value),
        (WholeKind::Byte, Err(_)) => widened_integer(number),
        (WholeKind::Integer, Err(_)) => widened_long(number),
        (WholeKind::Long | WholeKind::LongLong, Err(_)) => Err(Bad::DOUBLE_RESULT),
    }
}

fn widened_integer(number: i64) -> Result<Value, Bad>
    ensures { Answers view result (widened kind.Integer number) }
{
    match i16::try_from(number) {
        Ok(number) => Ok(Value::Integer(number)),
        Err(_) => widened_long(number),
    }
}

fn widened_long(number: i64) -> Result<Value, Bad>
    ensures { Answers view result (widened kind.Long number) }
{
    match i32::try_from(number) {
        Ok(number) => Ok(Value::Long(number)),
        Err(_) => Err(Bad::DOUBLE_RESULT),
    }
}

/// A result in its kind: Overflow where it doesn't fit, but beside a Variant it is widened.
pub fn whole_result(variant: bool, kind: WholeKind, number: i64) -> Result<Value, Bad>
    ensures { Answers view result (whole_result variant kind number) }
{
    if variant {
        widened(kind, number)
    } else {
        ranged(kind, number)
    }
}

/// + - * of two whole numbers in a kind.
pub fn whole_arithmetic(
    op: OpKind,
    variant: bool,
    kind: WholeKind,
    left: i64,
    right: i64,
) -> Result<Value, Bad>
    ensures { Answers view result (whole_result variant kind (exact op left right)) }
{
    match exact(op, left, right) {
        Some(number) => whole_result(variant, kind, number),
        None if variant => Err(Bad::DOUBLE_RESULT),
        None => Err(Bad::OVERFLOW),
    }
}

/// So many ten-thousandths as a Currency.
fn amount(count: i128) -> Result<Value, Bad>
    ensures { Answers view result (amount count) }
{
    match i64::try_from(count) {
        Ok(count) => Ok(Value::Currency(from_count(count))),
        Err(_) => Err(Bad::OVERFLOW),
    }
}

/// The product of two amounts.
fn amount_product(left: Currency, right: Currency) -> Result<Value, Bad>
    ensures { Answers view result (amount (half_even (left *ℤ right) 10000)) }
{
    match mul(left, right) {
        Ok(amount) => Ok(Value::Currency(amount)),
        Err(Overflow) => Err(Bad::OVERFLOW),
    }
}

/// So many ten-thousandths, so many times.
fn amount_times(count: i64, times: i64) -> Result<Value, Bad>
    ensures { Answers view result (amount (count *ℤ times)) }
{
    match count.checked_mul(times) {
        Some(count) => Ok(Value::Currency(from_count(count))),
        None => Err(Bad::OVERFLOW),
    }
}

/// The product of an amount and another number.
fn amount_by_number(left: Currency, right: &Value) -> Result<Value, Bad>
    ensures { Answers view result (amount (half_even (left *ℤ count_of (view right.now)) 10000)) }
{
    match amount_of(right) {
        Some(right) => amount_product(left, right),
        None => amount_times(count(left), number_of(right)),
    }
}

/// The product of two numbers of which one at least is an amount.
fn currency_product(left: &Value, right: &Value) -> Result<Value, Bad>
    requires { IsTrue (is_amount (view left.now) || is_amount (view right.now)) }
    ensures { Answers view result (amount (half_even (count_of (view left.now) *ℤ count_of (view right.now)) 10000)) }
{
    match amount_of(left) {
        Some(left) => amount_by_number(left, right),
        None => match amount_of(right) {
            Some(right) => amount_times(count(right), number_of(left)),
            None => unreachable!(),
        },
    }
}

/// + - * of an amount and another number.
fn currency_arithmetic(op: OpKind, left: &Value, right: &Value) -> Result<Value, Bad>
    requires { IsTrue (is_amount (view left.now) || is_amount (view right.now)) }
    ensures { Answers view result (amount (exact_count op (count_of (view left.now)) (count_of (view right.now)))) }
{
    match op {
        OpKind::Add => amount(count_of(left) + count_of(right)),
        OpKind::Sub => amount(count_of(left) - count_of(right)),
        _ => currency_product(left, right),
    }
}

/// + - * of two numbers in the kind of their work.
#[tactic(auto, using(crate::proofs::Products::in_currency))]
pub fn of_numbers(op: OpKind, variant: bool, left: &Value, right: &Value) -> Result<Value, Bad>
    ensures { Answers view result (of_numbers op variant (view left.now) (view right.now)) }
{
    match work_of(left, right) {
        Work::Whole(kind) => {
            whole_arithmetic(op, variant, kind, number_of(left), number_of(right))
        }
        Work::Currency => currency_arithmetic(op, left, right),
    }
}

/// + - * of two operands. What no operator takes raises 13, Null gives Null, a result that doesn't fit raises 6, and the
/// run stops where the result would be a Double.
pub fn arithmetic(
    alloc: Global,
    op: OpKind,
    variant: bool,
    left: &Value,
    right: &Value,
) -> Result<Value, OrMemory<Bad>>
    ensures value { Gives view result (arithmetic op variant (view left.now) (view right.now)) }
    ensures memory { (is_text (view left.now) || is_text (view right.now)) ≡ false → result ≢ Err OrMemory.NoMemory }
{
    if let (Some(left), Some(right)) = (whole_of(left), whole_of(right)) {
        let kind = wider_whole(left.kind, right.kind);
        return Ok(whole_arithmetic(op, variant, kind, left.number, right.number)?);
    }
    if is_no_operand(left) || is_no_operand(right) {
        return Err(OrMemory::Fault(Bad::TYPE_MISMATCH));
    }
    if is_null(left) || is_null(right) {
        return Ok(Value::Null);
    }
    if is_text(left) || is_text(right) {
        return with_text(alloc, op, left, right);
    }
    Ok(of_numbers(op, variant, left, right)?)
}

/// Unary minus: Byte, Boolean and Empty give Integer, all others their own kind.
pub fn negated(variant: bool, value: &Value) -> Result<Value, Bad>
    ensures { Answers view result (negated variant (view value.now)) }
{
    match value {
        Value::Empty => Ok(Value::Integer(0)),
        Value::Null => Ok(Value::Null),
        Value::Boolean(truth) => Ok(Value::Integer(i16::from(*truth))),
        Value::Byte(number) => Ok(Value::Integer(-i16::from(*number))),
        Value::Integer(number) => whole_result(variant, WholeKind::Integer, -i64::from(*number)),
        Value::Long(number) => whole_result(variant, WholeKind::Long, -i64::from(*number)),
        Value::LongLong(number) => whole_arithmetic(
            OpKind::Sub,
            variant,
            WholeKind::LongLong,
            0,
            *number,
        ),
        Value::Currency(amount) => negated_amount(*amount),
        Value::Text(text) => Err(double_of(text.units())),
        Value::Missing | Value::Object(_) | Value::Array(_) | Value::Udt(_) => {
            Err(Bad::TYPE_MISMATCH)
        }
    }
}

fn negated_amount(value: Currency) -> Result<Value, Bad>
    ensures { Answers view result (amount (neg_ℤ value)) }
{
    match neg(value) {
        Ok(amount) => Ok(Value::Currency(amount)),
        Err(Overflow) => Err(Bad::OVERFLOW),
    }
}

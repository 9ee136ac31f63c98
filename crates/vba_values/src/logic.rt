// The operators And Or Xor Eqv Imp Not.
ghost use Rattle.std.specs.Prelude.{◌≡◌, IsTrue, pos};
ghost use Rattle.vba_values.specs.Errors.{Answers};
ghost use Rattle.vba_values.specs.Logic.{all_of, before_null, behind_null, beside_null, bitwise, bitwise_in, bits_of, complement, is_zero, logic, logic_before_null, logic_behind_null, logic_null, logic_of, logic_of_numbers, logic_whole, logical, logical_not, of_bits};
ghost use Rattle.vba_values.specs.Whole.{fits};
ghost use Rattle.vba_values.specs.View.{view};
ghost use Rattle.vba_values.specs.declared.types.WholeKind.TheVariants as kind;

use crate::division::{as_whole, whole_work};
use crate::fault::Bad;
use crate::operands::{is_no_operand, is_null, number_of, work_of};
use crate::types::{OpKind, WholeKind};
use crate::value::Value;

/// The operator on Booleans.
pub fn logic(op: OpKind, left: bool, right: bool) -> bool
    ensures { result ≡ logic op left right }
{
    match op {
        OpKind::And => left && right,
        OpKind::Or => left || right,
        OpKind::Xor => left != right,
        OpKind::Eqv => left == right,
        _ => !left || right,
    }
}

/// The operator on the bits of a Byte.
fn byte_bits(op: OpKind, left: u8, right: u8) -> u8
    ensures { pos result ≡ of_bits kind.Byte (bitwise op kind.Byte (bits_of kind.Byte (pos left)) (bits_of kind.Byte (pos right))) }
{
    match op {
        OpKind::And => left & right,
        OpKind::Or => left | right,
        OpKind::Xor => left ^ right,
        OpKind::Eqv => u8::MAX ^ (left ^ right),
        _ => (u8::MAX ^ left) | right,
    }
}

/// The operator on the bits of an Integer.
pub fn integer_bits(op: OpKind, left: i16, right: i16) -> i16
    ensures { result ≡ of_bits kind.Integer (bitwise op kind.Integer (bits_of kind.Integer left) (bits_of kind.Integer right)) }
{
    match op {
        OpKind::And => left & right,
        OpKind::Or => left | right,
        OpKind::Xor => left ^ right,
        OpKind::Eqv => -1 ^ (left ^ right),
        _ => (-1 ^ left) | right,
    }
}

/// The operator on the bits of a Long.
pub fn long_bits(op: OpKind, left: i32, right: i32) -> i32
    ensures { result ≡ of_bits kind.Long (bitwise op kind.Long (bits_of kind.Long left) (bits_of kind.Long right)) }
{
    match op {
        OpKind::And => left & right,
        OpKind::Or => left | right,
        OpKind::Xor => left ^ right,
        OpKind::Eqv => -1 ^ (left ^ right),
        _ => (-1 ^ left) | right,
    }
}

/// The operator on the bits of a LongLong.
fn long_long_bits(op: OpKind, left: i64, right: i64) -> i64
    ensures { result ≡ of_bits kind.LongLong (bitwise op kind.LongLong (bits_of kind.LongLong left) (bits_of kind.LongLong right)) }
{
    match op {
        OpKind::And => left & right,
        OpKind::Or => left | right,
        OpKind::Xor => left ^ right,
        OpKind::Eqv => -1 ^ (left ^ right),
        _ => (-1 ^ left) | right,
    }
}

/// A number that an Integer holds.
fn to_integer(number: i64) -> i16
    requires { IsTrue (fits kind.Integer number) }
    ensures { result ≡ number }
{
    number as i16
}

/// A number that a Long holds.
fn to_long(number: i64) -> i32
    requires { IsTrue (fits kind.Long number) }
    ensures { result ≡ number }
{
    number as i32
}

/// The operator on the bits of two numbers of a kind.
fn bitwise_in(op: OpKind, kind: WholeKind, left: i64, right: i64) -> Value
    requires left_fits { IsTrue (fits kind left) }
    requires right_fits { IsTrue (fits kind right) }
    ensures { view result ≡ bitwise_in op kind left right }
{
    match kind {
        WholeKind::Byte => Value::Byte(byte_bits(op, left as u8, right as u8)),
        WholeKind::Integer => Value::Integer(integer_bits(op, to_integer(left), to_integer(right))),
        WholeKind::Long => Value::Long(long_bits(op, to_long(left), to_long(right))),
        WholeKind::LongLong => Value::LongLong(long_long_bits(op, left, right)),
    }
}

/// The operator bit by bit in the kind of the work.
#[tactic(auto, using(crate::proofs::KindRanges::in_work), unfolding(crate::specs::Logic::logic_of_numbers))]
fn logic_of_numbers(op: OpKind, left: &Value, right: &Value) -> Value
    ensures { view result ≡ logic_of_numbers op (view left.now) (view right.now) }
{
    let kind = whole_work(work_of(left, right));
    bitwise_in(op, kind, number_of(left), number_of(right))
}

/// The operator on two numbers or Booleans. Two Booleans stay Boolean.
fn logic_of(op: OpKind, left: &Value, right: &Value) -> Value
    ensures { view result ≡ logic_of op (view left.now) (view right.now) }
{
    match (left, right) {
        (Value::Boolean(left), Value::Boolean(right)) => Value::Boolean(logic(op, *left, *right)),
        _ => logic_of_numbers(op, left, right),
    }
}

/// False, or 0.
fn is_zero(value: &Value) -> bool
    ensures { result ≡ is_zero (view value.now) }
{
    number_of(value) == 0
}

/// Beside Null, Empty counts as an Integer 0.
fn beside_null(value: Value) -> Value
    ensures { view result ≡ beside_null (view value) }
{
    match value {
        Value::Empty => Value::Integer(0),
        value => value,
    }
}

/// All bits of a value's kind: True, -1, or 255 for a Byte.
fn all_of(value: &Value) -> Value
    ensures { view result ≡ all_of (view value.now) }
{
    match value {
        Value::Byte(_) => Value::Byte(255),
        Value::Integer(_) => Value::Integer(-1),
        Value::Long(_) => Value::Long(-1),
        Value::LongLong(_) => Value::LongLong(-1),
        _ => Value::Boolean(true),
    }
}

/// A value before Null.
fn before_null(op: OpKind, value: Value) -> Value
    ensures { view result ≡ before_null op (view value) }
{
    match (op, is_zero(&value)) {
        (OpKind::And, true) | (OpKind::Or, false) => value,
        (OpKind::Imp, true) => all_of(&value),
        _ => Value::Null,
    }
}

/// A value behind Null.
fn behind_null(op: OpKind, value: Value) -> Value
    ensures { view result ≡ behind_null op (view value) }
{
    match (op, is_zero(&value)) {
        (OpKind::And, true) | (OpKind::Or | OpKind::Imp, false) => value,
        _ => Value::Null,
    }
}

/// An operand before Null.
#[tactic(auto, unfolding(crate::specs::Logic::logic_before_null))]
fn logic_before_null(op: OpKind, left: &Value) -> Result<Value, Bad>
    ensures { Answers view result (logic_before_null op (view left.now)) }
{
    let value = as_whole(left, &Value::Null)?;
    Ok(before_null(op, beside_null(value)))
}

/// An operand behind Null.
#[tactic(auto, unfolding(crate::specs::Logic::logic_behind_null))]
fn logic_behind_null(op: OpKind, right: &Value) -> Result<Value, Bad>
    ensures { Answers view result (logic_behind_null op (view right.now)) }
{
    let value = as_whole(right, &Value::Null)?;
    Ok(behind_null(op, beside_null(value)))
}

/// Two operands of which one at least is Null.
fn logic_null(op: OpKind, left: &Value, right: &Value) -> Result<Value, Bad>
    ensures { Answers view result (logic_null op (view left.now) (view right.now)) }
{
    if is_null(left) {
        logic_behind_null(op, right)
    } else {
        logic_before_null(op, left)
    }
}

/// Two operands of which none is Null.
#[tactic(auto, unfolding(crate::specs::Logic::logic_whole))]
fn logic_whole(op: OpKind, left: &Value, right: &Value) -> Result<Value, Bad>
    ensures { Answers view result (logic_whole op (view left.now) (view right.now)) }
{
    let whole_left = as_whole(left, right)?;
    let whole_right = as_whole(right, left)?;
    Ok(logic_of(op, &whole_left, &whole_right))
}

/// And Or Xor Eqv Imp. What no operator takes raises 13, and Currency and text raise what coercion raises.
pub fn logical(op: OpKind, left: &Value, right: &Value) -> Result<Value, Bad>
    ensures { Answers view result (logical op (view left.now) (view right.now)) }
{
    if is_no_operand(left) || is_no_operand(right) {
        return Err(Bad::TYPE_MISMATCH);
    }
    if is_null(left) || is_null(right) {
        return logic_null(op, left, right);
    }
    logic_whole(op, left, right)
}

/// Each bit turned. A Boolean stays Boolean, and Empty is an Integer 0.
fn complement(value: &Value) -> Value
    ensures { view result ≡ complement (view value.now) }
{
    match value {
        Value::Null => Value::Null,
        Value::Boolean(truth) => Value::Boolean(!*truth),
        Value::Byte(number) => Value::Byte(u8::MAX ^ *number),
        Value::Integer(number) => Value::Integer(-1 ^ *number),
        Value::Long(number) => Value::Long(-1 ^ *number),
        Value::LongLong(number) => Value::LongLong(-1 ^ *number),
        _ => Value::Integer(-1),
    }
}

/// Not. What no operator takes raises 13.
pub fn logical_not(value: &Value) -> Result<Value, Bad>
    ensures { Answers view result (logical_not (view value.now)) }
{
    if is_no_operand(value) {
        return Err(Bad::TYPE_MISMATCH);
    }
    let whole = as_whole(value, &Value::Null)?;
    Ok(complement(&whole))
}

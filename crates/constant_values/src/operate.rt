//! Operators and conversions in constant expressions: what raises or stops has no value.

ghost use Rattle.std.specs.Prelude.{◌≡◌, IfOk, IsTrue, Option, option_map, Result};
ghost use Rattle.vba_base.specs.Answer.{Gives};
ghost use Rattle.vba_values.specs.Operators.{has_two_operands};
ghost use Rattle.vba_values.specs.Val.{Val};
ghost use Rattle.vba_values.specs.View.{view};
ghost use Rattle.vba_values.specs.declared.fault.Bad.{Bad};
ghost use Rattle.bound_project.specs.View.{declared_view};
ghost use Rattle.declared_names.specs.binder.specs.Constants as plain;
ghost use Rattle.constant_values.specs.View.{known_view, slot_view};

use crate::known::{Known, value_type};
use crate::literals::{operator_kind, unary_kind};
use bound_project::{DeclaredType, ElementType};
use std::alloc::Global;
use vba_base::{NoMemory, OrMemory};
use vba_expression::{BinaryOperator, UnaryOperator};
use vba_values::{Bad, Compare, OpKind, Value, binary, coerce, unary};

/// The value that was answered, where one was.
fn answered(answer: Result<Value, OrMemory<Bad>>) -> Result<Option<Value>, NoMemory>
    ensures { IfOk result (λ value. (meant : Result Val Bad) → Gives view answer meant → option_map view value ≡ plain.answered meant) }
{
    match answer {
        Ok(value) => Ok(Some(value)),
        Err(OrMemory::Fault(_)) => Ok(None),
        Err(OrMemory::NoMemory) => Err(NoMemory),
    }
}

/// Is it a Variant?
pub fn is_variant(of: DeclaredType) -> bool
    ensures { result ≡ plain.is_variant (declared_view of) }
{
    matches!(of, DeclaredType::Plain(ElementType::Variant))
}

/// A result with its own type, but beside a Variant it is one.
fn result_of(is_beside_variant: bool, value: Option<Value>) -> Option<Known>
    ensures { slot_view result ≡ plain.result_of is_beside_variant (option_map view value) }
{
    match value {
        Some(value) => {
            let of = if is_beside_variant {
                DeclaredType::Plain(ElementType::Variant)
            } else {
                value_type(&value)
            };
            Some(Known { value, of })
        }
        None => None,
    }
}

/// Is: Nothing is the only object of a constant expression.
fn same_object(left: &Value, right: &Value) -> Option<Value>
    ensures { option_map view result ≡ plain.same_object (view left.now) (view right.now) }
{
    match (left, right) {
        (Value::Object(_), Value::Object(_)) => Some(Value::Boolean(true)),
        _ => None,
    }
}

/// An operator of the tables.
fn by_kind(
    alloc: Global,
    kind: OpKind,
    compare: Compare,
    left: &Known,
    right: &Known,
) -> Result<Option<Value>, NoMemory>
    requires { IsTrue (has_two_operands kind) }
    ensures { IfOk result (λ value. option_map view value ≡ plain.by_table (Some kind) compare (known_view left.now) (known_view right.now)) }
{
    let left_type = left.of.value_type(alloc)?;
    let right_type = right.of.value_type(alloc)?;
    answered(binary(
        alloc,
        kind,
        &left.value,
        &left_type,
        &right.value,
        &right_type,
        compare,
    ))
}

/// An operator of two values.
fn operated(
    alloc: Global,
    operator: BinaryOperator,
    compare: Compare,
    left: &Known,
    right: &Known,
) -> Result<Option<Value>, NoMemory>
    ensures { IfOk result (λ value. option_map view value ≡ plain.operated operator compare (known_view left.now) (known_view right.now)) }
{
    if operator == BinaryOperator::Is {
        return Ok(same_object(&left.value, &right.value));
    }
    match operator_kind(operator) {
        Some(kind) => by_kind(alloc, kind, compare, left, right),
        None => Ok(None),
    }
}

/// An operator of one value, where that is one.
pub fn with_one(
    alloc: Global,
    operator: UnaryOperator,
    operand: &Option<Known>,
) -> Result<Option<Known>, NoMemory>
    ensures { IfOk result (λ found. slot_view found ≡ plain.with_one operator (slot_view operand.now)) }
{
    let Some(operand) = operand else {
        return Ok(None);
    };
    let of = operand.of.value_type(alloc)?;
    let value = answered(unary(alloc, unary_kind(operator), &operand.value, &of))?;
    Ok(result_of(is_variant(operand.of), value))
}

/// An operator of two values, where both are.
pub fn with_two(
    alloc: Global,
    operator: BinaryOperator,
    compare: Compare,
    left: &Option<Known>,
    right: &Option<Known>,
) -> Result<Option<Known>, NoMemory>
    ensures { IfOk result (λ found. slot_view found ≡ plain.with_two operator compare (slot_view left.now) (slot_view right.now)) }
{
    match (left, right) {
        (Some(left), Some(right)) => {
            let value = operated(alloc, operator, compare, left, right)?;
            let is_beside_variant = is_variant(left.of) || is_variant(right.of);
            Ok(result_of(is_beside_variant, value))
        }
        _ => Ok(None),
    }
}

/// A value as one of a type.
pub fn coerced(
    alloc: Global,
    of: DeclaredType,
    known: &Option<Known>,
) -> Result<Option<Known>, NoMemory>
    ensures { IfOk result (λ found. slot_view found ≡ plain.coerced (declared_view of) (slot_view known.now)) }
{
    let Some(known) = known else {
        return Ok(None);
    };
    let to = of.value_type(alloc)?;
    match answered(coerce(alloc, &known.value, &to))? {
        Some(value) => Ok(Some(Known { value, of })),
        None => Ok(None),
    }
}

/// The number that a value is.
fn long_in(value: &Value) -> Option<i64>
    ensures { result ≡ plain.long_in (view value.now) }
{
    match value {
        Value::Byte(number) => Some(i64::from(*number)),
        Value::Integer(number) => Some(i64::from(*number)),
        Value::Long(number) => Some(i64::from(*number)),
        Value::LongLong(number) => Some(*number),
        _ => None,
    }
}

/// A value as a Long.
pub fn long_of(alloc: Global, known: &Option<Known>) -> Result<Option<i64>, NoMemory>
    ensures { IfOk result (λ number. number ≡ plain.long_of (slot_view known.now)) }
{
    match coerced(alloc, DeclaredType::Plain(ElementType::Long), known)? {
        Some(known) => Ok(long_in(&known.value)),
        None => Ok(None),
    }
}

/// The length of a String * n: 1 to 65526.
pub fn as_length(number: Option<i64>) -> Option<u16>
    ensures { result ≡ plain.as_length number }
{
    match number {
        Some(number) if number >= 1 && number <= 65526 => u16::try_from(number).ok(),
        _ => None,
    }
}

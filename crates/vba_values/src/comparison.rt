// The comparisons = <> < > <= >=.
ghost use Rattle.std.specs.Prelude.{◌≡◌, ◌≢◌, ◌||◌, false, IfOk};
ghost use Rattle.vba_base.specs.Answer.{Gives};
ghost use Rattle.vba_values.specs.Comparison.{are_texts, comparison, compare_as_texts, compare_number_text, compare_text_before, compare_text_behind, compare_texts, compare_values, compare_with_text, compare_with_text_of, holds, is_number, is_string, is_variant, order_of, reversed};
ghost use Rattle.vba_values.specs.Coerce.{is_text};
ghost use Rattle.vba_values.specs.Types.{declared};
ghost use Rattle.vba_values.specs.View.{view};

use crate::fault::Bad;
use crate::number_text::not_number;
use crate::operands::{count_of, is_empty, is_no_operand, is_null, whole_of};
use crate::texts::text_of;
use crate::types::{Compare, OpKind, VType};
use crate::value::Value;
use currency::compare_text;
use std::alloc::Global;
use std::cmp::Ordering;
use vba_base::{NoMemory, OrMemory, name_of};

/// Whether an order is one that the comparison asks for.
#[inline(always)]
pub fn holds(op: OpKind, order: Ordering) -> bool
    ensures { result ≡ holds op order }
{
    match op {
        OpKind::Eq => order.is_eq(),
        OpKind::Ne => order.is_ne(),
        OpKind::Lt => order.is_lt(),
        OpKind::Le => order.is_le(),
        OpKind::Gt => order.is_gt(),
        OpKind::Ge => order.is_ge(),
        _ => false,
    }
}

pub fn is_variant(of: &VType) -> bool
    ensures { result ≡ is_variant (declared of.now) }
{
    matches!(of, VType::Variant)
}

/// String, with or without a length.
pub fn is_string(of: &VType) -> bool
    ensures { result ≡ is_string (declared of.now) }
{
    match of {
        VType::Text | VType::FixedText(_) => true,
        VType::Boolean
        | VType::Byte
        | VType::Integer
        | VType::Long
        | VType::LongLong
        | VType::Currency
        | VType::Object
        | VType::Class(_)
        | VType::Collection
        | VType::Worksheet
        | VType::Range
        | VType::Variant
        | VType::Udt(_)
        | VType::ArrayOf(_) => false,
    }
}

/// A type of numbers. Boolean counts as one.
pub fn is_number(of: &VType) -> bool
    ensures { result ≡ is_number (declared of.now) }
{
    matches!(
        of,
        VType::Boolean
            | VType::Byte
            | VType::Integer
            | VType::Long
            | VType::LongLong
            | VType::Currency
    )
}

/// Whether both are compared as texts: a declared String beside a Variant.
pub fn are_texts(left: &VType, right: &VType) -> bool
    ensures { result ≡ are_texts (declared left.now) (declared right.now) }
{
    (is_string(left) && is_variant(right)) || (is_variant(left) && is_string(right))
}

/// How two texts compare, by their units or by the units of their case folds.
fn compare_texts(
    alloc: Global,
    compare: Compare,
    left: &[u16],
    right: &[u16],
) -> Result<Ordering, NoMemory>
    ensures { IfOk result (λ order. order ≡ compare_texts compare left.now right.now) }
{
    match compare {
        Compare::Binary => Ok(left.cmp(&right)),
        Compare::Folded => {
            let left = name_of(alloc, left)?;
            let right = name_of(alloc, right)?;
            Ok(left.units().cmp(&right.units()))
        }
    }
}

/// How a number compares with the number that a text writes.
fn compare_with_text(number: &Value, text: &[u16]) -> Result<Ordering, Bad>
    ensures { result ≡ compare_with_text (view number.now) text.now }
{
    match compare_text(count_of(number), text) {
        Some(order) => Ok(order),
        None => Err(not_number(text)),
    }
}

/// How a number and a text compare, by their declared types.
fn compare_number_text(
    number: &Value,
    number_declared: &VType,
    text: &[u16],
    text_declared: &VType,
) -> Result<Ordering, OrMemory<Bad>>
    ensures { Gives (λ order. order) result (compare_number_text (view number.now) (declared number_declared.now) text.now (declared text_declared.now)) }
{
    if is_number(number_declared) && is_variant(text_declared) {
        Ok(compare_with_text(number, text)?)
    } else if is_variant(number_declared) && is_variant(text_declared) {
        Ok(Ordering::Less)
    } else {
        Err(OrMemory::Fault(Bad::DOUBLE_RESULT))
    }
}

/// How a text and a number compare, by their declared types.
fn compare_text_number(
    text: &[u16],
    text_declared: &VType,
    number: &Value,
    number_declared: &VType,
) -> Result<Ordering, OrMemory<Bad>>
    ensures { Gives (λ order. order) result (reversed (compare_number_text (view number.now) (declared number_declared.now) text.now (declared text_declared.now))) }
{
    let order = compare_number_text(number, number_declared, text, text_declared)?;
    Ok(order.reverse())
}

/// How a text and what is behind it compare.
fn compare_text_before(
    alloc: Global,
    compare: Compare,
    left: &[u16],
    left_declared: &VType,
    right: &Value,
    right_declared: &VType,
) -> Result<Ordering, OrMemory<Bad>>
    ensures { Gives (λ order. order) result (compare_text_before compare left.now (declared left_declared.now) (view right.now) (declared right_declared.now)) }
{
    match right {
        Value::Text(right) => Ok(compare_texts(alloc, compare, left, right.units())?),
        Value::Empty => Ok(compare_texts(alloc, compare, left, &[])?),
        _ => compare_text_number(left, left_declared, right, right_declared),
    }
}

/// How what is no text and a text behind it compare.
fn compare_text_behind(
    alloc: Global,
    compare: Compare,
    left: &Value,
    left_declared: &VType,
    right: &[u16],
    right_declared: &VType,
) -> Result<Ordering, OrMemory<Bad>>
    ensures { Gives (λ order. order) result (compare_text_behind compare (view left.now) (declared left_declared.now) right.now (declared right_declared.now)) }
{
    if is_empty(left) {
        Ok(compare_texts(alloc, compare, &[], right)?)
    } else {
        compare_number_text(left, left_declared, right, right_declared)
    }
}

/// How two operands compare, by their values and declared types.
fn compare_values(
    alloc: Global,
    compare: Compare,
    left: &Value,
    left_declared: &VType,
    right: &Value,
    right_declared: &VType,
) -> Result<Ordering, OrMemory<Bad>>
    ensures memory { (is_text (view left.now) || is_text (view right.now)) ≡ false → result ≢ Err OrMemory.NoMemory }
    ensures value { Gives (λ order. order) result (compare_values compare (view left.now) (declared left_declared.now) (view right.now) (declared right_declared.now)) }
{
    match (left, right) {
        (Value::Text(left), _) => {
            compare_text_before(
                alloc,
                compare,
                left.units(),
                left_declared,
                right,
                right_declared,
            )
        }
        (_, Value::Text(right)) => {
            compare_text_behind(
                alloc,
                compare,
                left,
                left_declared,
                right.units(),
                right_declared,
            )
        }
        _ => Ok(count_of(left).cmp(&count_of(right))),
    }
}

/// How two operands compare as texts.
#[tactic(auto, unfolding(crate::specs::Comparison::compare_as_texts))]
fn compare_as_texts(
    alloc: Global,
    compare: Compare,
    left: &Value,
    right: &Value,
) -> Result<Ordering, OrMemory<Bad>>
    ensures { Gives (λ order. order) result (compare_as_texts compare (view left.now) (view right.now)) }
{
    match left {
        Value::Text(left) => compare_with_text_of(alloc, compare, left.units(), right),
        _ => {
            let left = text_of(alloc, left)?;
            compare_with_text_of(alloc, compare, left.units(), right)
        }
    }
}

/// How a text compares with the text of an operand. A text isn't copied.
fn compare_with_text_of(
    alloc: Global,
    compare: Compare,
    left: &[u16],
    right: &Value,
) -> Result<Ordering, OrMemory<Bad>>
    ensures { Gives (λ order. order) result (compare_with_text_of compare left.now (view right.now)) }
{
    match right {
        Value::Text(right) => Ok(compare_texts(alloc, compare, left, right.units())?),
        _ => {
            let right = text_of(alloc, right)?;
            Ok(compare_texts(alloc, compare, left, right.units())?)
        }
    }
}

/// How two operands compare: as texts where one is a declared String beside a Variant, else by their values.
fn order_of(
    alloc: Global,
    compare: Compare,
    left: &Value,
    left_declared: &VType,
    right: &Value,
    right_declared: &VType,
) -> Result<Ordering, OrMemory<Bad>>
    ensures memory { (is_text (view left.now) || is_text (view right.now) || are_texts (declared left_declared.now) (declared right_declared.now)) ≡ false → result ≢ Err OrMemory.NoMemory }
    ensures value { Gives (λ order. order) result (order_of compare (view left.now) (declared left_declared.now) (view right.now) (declared right_declared.now)) }
{
    if are_texts(left_declared, right_declared) {
        compare_as_texts(alloc, compare, left, right)
    } else {
        compare_values(alloc, compare, left, left_declared, right, right_declared)
    }
}

/// A comparison. What no operator takes raises 13, Null gives Null, and the run stops where a text beside a number would be
/// compared as a Double.
#[tactic(auto, using(crate::proofs::Products::compare_scaled))]
pub fn comparison(
    alloc: Global,
    op: OpKind,
    compare: Compare,
    left: &Value,
    left_declared: &VType,
    right: &Value,
    right_declared: &VType,
) -> Result<Value, OrMemory<Bad>>
    ensures memory { (is_text (view left.now) || is_text (view right.now) || are_texts (declared left_declared.now) (declared right_declared.now)) ≡ false → result ≢ Err OrMemory.NoMemory }
    ensures value { Gives view result (comparison op compare (view left.now) (declared left_declared.now) (view right.now) (declared right_declared.now)) }
{
    if let (Some(left), Some(right)) = (whole_of(left), whole_of(right))
        && !are_texts(left_declared, right_declared)
    {
        return Ok(Value::Boolean(holds(op, left.number.cmp(&right.number))));
    }
    if is_no_operand(left) || is_no_operand(right) {
        return Err(OrMemory::Fault(Bad::TYPE_MISMATCH));
    }
    if is_null(left) || is_null(right) {
        return Ok(Value::Null);
    }
    let order = order_of(alloc, compare, left, left_declared, right, right_declared)?;
    Ok(Value::Boolean(holds(op, order)))
}

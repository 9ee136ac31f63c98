// The operators + - * with texts, and the operator &.
ghost use Rattle.std.specs.Prelude.{◌≡◌, false, ◌++◌, OnOk};
ghost use Rattle.vba_base.specs.Answer.{Gives};
ghost use Rattle.vba_values.specs.Arithmetic.{double_of, double_of_texts, joined, of_numbers, text_before, text_behind, text_beside_currency, with_text};
ghost use Rattle.currency.specs.NumberText.{read};
ghost use Rattle.vba_values.specs.Operators.{Appends, AppendsUnits, join, join_behind, join_text};
ghost use Rattle.vba_values.specs.Errors.{Answers};
ghost use Rattle.vba_values.specs.Val.{text};
ghost use Rattle.vba_values.specs.View.{view};

use crate::arithmetic::of_numbers;
use crate::fault::{Bad, OutKind};
use crate::number_text::{currency_of_text, not_number};
use crate::operands::{is_no_operand, is_null};
use crate::texts::text_of;
use crate::types::OpKind;
use crate::value::Value;
use currency::{ParseFault, parse_whole};
use std::alloc::Global;
use vba_base::{NoMemory, OrMemory, Units};

/// The most units that a text has.
const LONGEST_TEXT: usize = 16777216;

/// Two texts joined. A text that would be too long is outside, and takes no memory.
fn joined(alloc: Global, left: &[u16], right: &[u16]) -> Result<Value, OrMemory<Bad>>
    ensures { Gives view result (joined left.now right.now) }
{
    if left.len() + right.len() > LONGEST_TEXT {
        return Err(OrMemory::Fault(Bad::Outside(OutKind::TextLength)));
    }
    let mut text = Units::from_units(alloc, left)?;
    push_all(&mut text, right)?;
    Ok(Value::Text(text))
}

fn push_all(text: &mut Units, units: &[u16]) -> Result<(), NoMemory>
    ensures { OnOk result (text.new ≡ text.old ++ units.now) }
{
    for unit in units {
        text.push(*unit)?;
    }
    Ok(())
}

/// A text beside a number: it has to be a number text, and the result would be a Double.
pub fn double_of(text: &[u16]) -> Bad
    ensures { result ≡ double_of text.now }
{
    match parse_whole(text) {
        Ok(_) | Err(ParseFault::OutOfRange) => Bad::DOUBLE_RESULT,
        Err(ParseFault::NotNumber) => not_number(text),
    }
}

/// Two texts that aren't joined: both have to be number texts, the left one first.
fn double_of_texts(left: &[u16], right: &[u16]) -> Bad
    ensures { result ≡ double_of_texts left.now right.now (read left.now) }
{
    match parse_whole(left) {
        Ok(_) | Err(ParseFault::OutOfRange) => double_of(right),
        Err(ParseFault::NotNumber) => not_number(left),
    }
}

/// + - * of two texts.
fn of_texts(alloc: Global, op: OpKind, left: &[u16], right: &[u16]) -> Result<Value, OrMemory<Bad>>
    ensures { Gives view result (text_before op left.now (text right.now)) }
{
    match op {
        OpKind::Add => joined(alloc, left, right),
        _ => Err(OrMemory::Fault(double_of_texts(left, right))),
    }
}

/// + - * of a text and an amount behind it.
fn text_before_amount(op: OpKind, left: &[u16], right: &Value) -> Result<Value, Bad>
    ensures { Answers view result (text_beside_currency op left.now (λ amount. of_numbers op false amount (view right.now))) }
{
    match op {
        OpKind::Mul => Err(double_of(left)),
        _ => {
            let amount = currency_of_text(left)?;
            of_numbers(op, false, &amount, right)
        }
    }
}

/// + - * of an amount and a text behind it.
fn text_behind_amount(op: OpKind, left: &Value, right: &[u16]) -> Result<Value, Bad>
    ensures { Answers view result (text_beside_currency op right.now (λ amount. of_numbers op false (view left.now) amount)) }
{
    match op {
        OpKind::Mul => Err(double_of(right)),
        _ => {
            let amount = currency_of_text(right)?;
            of_numbers(op, false, left, &amount)
        }
    }
}

/// + - * of a text and what is behind it.
fn text_before(
    alloc: Global,
    op: OpKind,
    left: &[u16],
    right: &Value,
) -> Result<Value, OrMemory<Bad>>
    ensures { Gives view result (text_before op left.now (view right.now)) }
{
    match right {
        Value::Text(right) => of_texts(alloc, op, left, right.units()),
        Value::Empty if matches!(op, OpKind::Add) => joined(alloc, left, &[]),
        Value::Currency(_) => Ok(text_before_amount(op, left, right)?),
        _ => Err(OrMemory::Fault(double_of(left))),
    }
}

/// + - * of what is no text, and a text behind it.
fn text_behind(
    alloc: Global,
    op: OpKind,
    left: &Value,
    right: &[u16],
) -> Result<Value, OrMemory<Bad>>
    ensures { Gives view result (text_behind op (view left.now) right.now) }
{
    match left {
        Value::Empty if matches!(op, OpKind::Add) => joined(alloc, &[], right),
        Value::Currency(_) => Ok(text_behind_amount(op, left, right)?),
        _ => Err(OrMemory::Fault(double_of(right))),
    }
}

/// + - * with a text.
pub fn with_text(
    alloc: Global,
    op: OpKind,
    left: &Value,
    right: &Value,
) -> Result<Value, OrMemory<Bad>>
    ensures { Gives view result (with_text op (view left.now) (view right.now)) }
{
    match (left, right) {
        (Value::Text(left), _) => text_before(alloc, op, left.units(), right),
        (_, Value::Text(right)) => text_behind(alloc, op, left, right.units()),
        _ => Err(OrMemory::Fault(Bad::TYPE_MISMATCH)),
    }
}

/// The text of an operand of `&`: that of Null is empty.
fn join_text(alloc: Global, value: &Value) -> Result<Units, OrMemory<Bad>>
    ensures { Gives (λ text. text) result (join_text (view value.now)) }
{
    match value {
        Value::Null => Ok(Units::new(alloc)),
        _ => text_of(alloc, value),
    }
}

/// `&`: both as texts, joined. Null and Null give Null, and what no operator takes raises 13. A text isn't copied before it
/// is joined.
#[tactic(auto, unfolding(crate::specs::Operators::join))]
pub fn join(alloc: Global, left: &Value, right: &Value) -> Result<Value, OrMemory<Bad>>
    ensures { Gives view result (join (view left.now) (view right.now)) }
{
    if is_no_operand(left) || is_no_operand(right) {
        return Err(OrMemory::Fault(Bad::TYPE_MISMATCH));
    }
    if is_null(left) && is_null(right) {
        return Ok(Value::Null);
    }
    match left {
        Value::Text(left) => join_behind(alloc, left.units(), right),
        _ => {
            let left = join_text(alloc, left)?;
            join_behind(alloc, left.units(), right)
        }
    }
}

/// A text, and the text of an operand behind it.
fn join_behind(alloc: Global, left: &[u16], right: &Value) -> Result<Value, OrMemory<Bad>>
    ensures { Gives view result (join_behind left.now (view right.now)) }
{
    match right {
        Value::Text(right) => joined(alloc, left, right.units()),
        _ => {
            let right = join_text(alloc, right)?;
            joined(alloc, left, right.units())
        }
    }
}

/// `&` of a text and an operand, in the text's own room. Where the operator gives no text the text stays as it was.
#[tactic(auto, unfolding(crate::specs::Operators::join))]
pub fn append(alloc: Global, text: &mut Units, right: &Value) -> Result<(), OrMemory<Bad>>
    ensures { Appends result text.old (view right.now) text.new }
{
    if is_no_operand(right) {
        return Err(OrMemory::Fault(Bad::TYPE_MISMATCH));
    }
    match right {
        Value::Text(right) => append_units(text, right.units()),
        _ => {
            let right = join_text(alloc, right)?;
            append_units(text, right.units())
        }
    }
}

/// Adds units to a text that doesn't get too long by them.
fn append_units(text: &mut Units, units: &[u16]) -> Result<(), OrMemory<Bad>>
    ensures { AppendsUnits result text.old units.now text.new }
{
    if text.units().len() + units.len() > LONGEST_TEXT {
        return Err(OrMemory::Fault(Bad::Outside(OutKind::TextLength)));
    }
    push_all(text, units)?;
    Ok(())
}

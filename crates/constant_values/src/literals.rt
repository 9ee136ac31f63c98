//! What literals and operators mean in constant expressions.

ghost use Rattle.std.specs.Prelude.{◌≡◌, IfOk};
ghost use Rattle.vba_values.specs.View.{view};
ghost use Rattle.declared_names.specs.binder.specs.Constants as plain;

use currency::from_count;
use std::alloc::Global;
use vba_base::NoMemory;
use vba_expression::{BinaryOperator, LiteralValue, UnaryOperator};
use vba_lexer::{Number, NumberKind};
use vba_values::{ObjRef, OpKind, Value};

/// The value of a number.
fn number_value(number: Number) -> Result<Value, NoMemory>
    ensures { IfOk result (λ value. view value ≡ plain.number_value number) }
{
    match number.kind {
        NumberKind::Integer => match i16::try_from(number.value) {
            Ok(value) => Ok(Value::Integer(value)),
            Err(_) => Err(NoMemory),
        },
        NumberKind::Long => match i32::try_from(number.value) {
            Ok(value) => Ok(Value::Long(value)),
            Err(_) => Err(NoMemory),
        },
        NumberKind::LongLong => Ok(Value::LongLong(number.value)),
        NumberKind::Currency => Ok(Value::Currency(from_count(number.value))),
    }
}

/// The value of a literal.
pub fn literal_meant(alloc: Global, literal: &LiteralValue) -> Result<Value, NoMemory>
    ensures { IfOk result (λ value. view value ≡ plain.literal_meant literal.now) }
{
    match literal {
        LiteralValue::Number { number, .. } => number_value(*number),
        LiteralValue::Text(text) => Ok(Value::Text(text.copy(alloc)?)),
        LiteralValue::True => Ok(Value::Boolean(true)),
        LiteralValue::False => Ok(Value::Boolean(false)),
        LiteralValue::Nothing => Ok(Value::Object(ObjRef::Nothing)),
        LiteralValue::Null => Ok(Value::Null),
        LiteralValue::Empty => Ok(Value::Empty),
    }
}

/// The operator of the tables that an operator is. Is goes by none.
pub fn operator_kind(operator: BinaryOperator) -> Option<OpKind>
    ensures { result ≡ plain.operator_kind operator }
{
    match operator {
        BinaryOperator::Power => Some(OpKind::Power),
        BinaryOperator::Divide => Some(OpKind::Divide),
        BinaryOperator::Multiply => Some(OpKind::Mul),
        BinaryOperator::IntegerDivide => Some(OpKind::IntDiv),
        BinaryOperator::Modulo => Some(OpKind::Mod),
        BinaryOperator::Add => Some(OpKind::Add),
        BinaryOperator::Subtract => Some(OpKind::Sub),
        BinaryOperator::Join => Some(OpKind::Join),
        BinaryOperator::Equal => Some(OpKind::Eq),
        BinaryOperator::NotEqual => Some(OpKind::Ne),
        BinaryOperator::Less => Some(OpKind::Lt),
        BinaryOperator::Greater => Some(OpKind::Gt),
        BinaryOperator::LessEqual => Some(OpKind::Le),
        BinaryOperator::GreaterEqual => Some(OpKind::Ge),
        BinaryOperator::And => Some(OpKind::And),
        BinaryOperator::Or => Some(OpKind::Or),
        BinaryOperator::Xor => Some(OpKind::Xor),
        BinaryOperator::Eqv => Some(OpKind::Eqv),
        BinaryOperator::Imp => Some(OpKind::Imp),
        BinaryOperator::Is => None,
    }
}

/// The operator of the tables that an operator of one operand is.
pub fn unary_kind(operator: UnaryOperator) -> OpKind
    ensures { result ≡ plain.unary_kind operator }
{
    match operator {
        UnaryOperator::Minus => OpKind::Neg,
        UnaryOperator::Not => OpKind::Not,
    }
}

//! The values of the parts of constant expressions.

ghost use Rattle.std.specs.Prelude.{◌≡◌, IfOk, Some, option_map};
ghost use Rattle.vba_values.specs.Types.{declared};
ghost use Rattle.vba_values.specs.View.{view};
ghost use Rattle.cond_compile.specs.Evaluation as evaluation;
ghost use Rattle.cond_compile.specs.Seen.{constant_view, constants_view, operand_view, outcome_view};

use crate::operator::{Operator, Prefix};
use std::alloc::Global;
use vba_base::{Name, NoMemory, OrMemory};
use vba_values::{Compare, ObjRef, OpKind, VType, Value, binary, coerce, unary};

/// The name of a `#Const` line and its value.
#[derive(Drop)]
pub struct Constant {
    pub name: Name,
    pub value: Value,
}

/// A value, and whether its declared type is Variant.
#[derive(Drop)]
pub struct Operand {
    pub value: Value,
    pub variant: bool,
}

/// The type of a value; Variant of Empty and Null.
fn type_of(value: &Value) -> VType
    ensures { declared result ≡ evaluation.type_of (view value.now) }
{
    match value {
        Value::Boolean(_) => VType::Boolean,
        Value::Byte(_) => VType::Byte,
        Value::Integer(_) => VType::Integer,
        Value::Long(_) => VType::Long,
        Value::LongLong(_) => VType::LongLong,
        Value::Currency(_) => VType::Currency,
        Value::Text(_) => VType::Text,
        Value::Object(_) => VType::Object,
        Value::Empty | Value::Null | Value::Missing | Value::Array(_) | Value::Udt(_) => {
            VType::Variant
        }
    }
}

/// The declared type of an operand.
fn declared_type(operand: &Operand) -> VType
    ensures { declared result ≡ evaluation.declared_type (operand_view operand.now) }
{
    if operand.variant {
        VType::Variant
    } else {
        type_of(&operand.value)
    }
}

/// A value with its own type as the declared one.
pub fn typed(value: Value) -> Operand
    ensures { operand_view result ≡ evaluation.typed (view value) }
{
    let variant = match &value {
        Value::Empty | Value::Null => true,
        _ => false,
    };
    Operand { value, variant }
}

/// The value of a name: that of its latest `#Const`, or else Empty.
#[tactic(auto, using(crate::proofs::Stacks::no_constants))]
pub fn value_of_name(
    alloc: Global,
    constants: &[Constant],
    name: &Name,
) -> Result<Operand, NoMemory>
    ensures { IfOk result (λ operand. operand_view operand ≡ evaluation.value_of_name (constants_view constants.now) name.now) }
{
    let mut left = constants;
    while let Some((constant, earlier)) = left.split_last() {
        if constant.name == *name {
            let value = copy_of(alloc, &constant.value)?;
            return Ok(typed(value));
        }
        left = earlier;
    }
    Ok(typed(Value::Empty))
}

/// A copy of a value.
fn copy_of(alloc: Global, value: &Value) -> Result<Value, NoMemory>
    ensures { IfOk result (λ copy. view copy ≡ view value.now) }
{
    match coerce(alloc, value, &VType::Variant) {
        Ok(copy) => Ok(copy),
        Err(_) => Err(NoMemory),
    }
}

/// The operator of the tables; `/` and `^` give a Double and have none.
fn kind_of(operator: Operator) -> Option<OpKind>
    ensures { result ≡ evaluation.kind_of operator }
{
    match operator {
        Operator::Times => Some(OpKind::Mul),
        Operator::IntDivide => Some(OpKind::IntDiv),
        Operator::Mod => Some(OpKind::Mod),
        Operator::Plus => Some(OpKind::Add),
        Operator::Minus => Some(OpKind::Sub),
        Operator::Join => Some(OpKind::Join),
        Operator::Equal => Some(OpKind::Eq),
        Operator::Unequal => Some(OpKind::Ne),
        Operator::Less => Some(OpKind::Lt),
        Operator::LessEqual => Some(OpKind::Le),
        Operator::Greater => Some(OpKind::Gt),
        Operator::GreaterEqual => Some(OpKind::Ge),
        Operator::And => Some(OpKind::And),
        Operator::Or => Some(OpKind::Or),
        Operator::Xor => Some(OpKind::Xor),
        Operator::Eqv => Some(OpKind::Eqv),
        Operator::Imp => Some(OpKind::Imp),
        Operator::Power | Operator::Divide | Operator::Is => None,
    }
}

fn is_nothing(value: &Value) -> bool
    ensures { result ≡ evaluation.is_nothing (view value.now) }
{
    match value {
        Value::Object(ObjRef::Nothing) => true,
        _ => false,
    }
}

/// What `Is` gives: Nothing is the only object of a constant.
fn same_object(left: &Value, right: &Value) -> Option<Value>
    ensures { option_map view result ≡ evaluation.same_object (view left.now) (view right.now) }
{
    if is_nothing(left) && is_nothing(right) {
        Some(Value::Boolean(true))
    } else {
        None
    }
}

/// What the tables of operators give, where it is a value.
fn by_table(
    alloc: Global,
    operator: Operator,
    left: &Operand,
    right: &Operand,
) -> Result<Option<Value>, NoMemory>
    ensures { IfOk result (λ value. option_map view value ≡ evaluation.by_table (evaluation.kind_of operator) (operand_view left.now) (operand_view right.now)) }
{
    let Some(kind) = kind_of(operator) else {
        return Ok(None);
    };
    let left_declared = declared_type(left);
    let right_declared = declared_type(right);
    match binary(
        alloc,
        kind,
        &left.value,
        &left_declared,
        &right.value,
        &right_declared,
        Compare::Binary,
    ) {
        Ok(value) => Ok(Some(value)),
        Err(OrMemory::Fault(_)) => Ok(None),
        Err(OrMemory::NoMemory) => Err(NoMemory),
    }
}

/// What an operator gives, where it is a value.
fn operation(
    alloc: Global,
    operator: Operator,
    left: &Operand,
    right: &Operand,
) -> Result<Option<Value>, NoMemory>
    ensures { IfOk result (λ value. option_map view value ≡ evaluation.operation operator (operand_view left.now) (operand_view right.now)) }
{
    match operator {
        Operator::Is => Ok(same_object(&left.value, &right.value)),
        _ => by_table(alloc, operator, left, right),
    }
}

/// A result, which is a Variant beside one.
fn result_beside(variant: bool, value: Option<Value>) -> Option<Operand>
    ensures { outcome_view result ≡ evaluation.result_beside variant (option_map view value) }
{
    match value {
        Some(value) => Some(Operand { value, variant }),
        None => None,
    }
}

/// The value of an operator on two operands.
pub fn of_operands(
    alloc: Global,
    operator: Operator,
    left: Option<Operand>,
    right: Option<Operand>,
) -> Result<Option<Operand>, NoMemory>
    ensures { IfOk result (λ outcome. outcome_view outcome ≡ evaluation.of_operands operator (outcome_view left) (outcome_view right)) }
{
    let (Some(left), Some(right)) = (left, right) else {
        return Ok(None);
    };
    let value = operation(alloc, operator, &left, &right)?;
    Ok(result_beside(left.variant || right.variant, value))
}

fn prefix_kind(prefix: Prefix) -> OpKind
    ensures { result ≡ evaluation.prefix_kind prefix }
{
    match prefix {
        Prefix::Minus => OpKind::Neg,
        Prefix::Not => OpKind::Not,
    }
}

/// The value of unary minus or Not on an operand.
pub fn of_operand(
    alloc: Global,
    prefix: Prefix,
    operand: Option<Operand>,
) -> Result<Option<Operand>, NoMemory>
    ensures { IfOk result (λ outcome. outcome_view outcome ≡ evaluation.of_operand prefix (outcome_view operand)) }
{
    let Some(operand) = operand else {
        return Ok(None);
    };
    let declared = declared_type(&operand);
    match unary(alloc, prefix_kind(prefix), &operand.value, &declared) {
        Ok(value) => Ok(result_beside(operand.variant, Some(value))),
        Err(OrMemory::Fault(_)) => Ok(None),
        Err(OrMemory::NoMemory) => Err(NoMemory),
    }
}

/// Whether a condition holds, where it has a value. Null does not hold.
pub fn truth(alloc: Global, outcome: &Option<Operand>) -> Result<Option<bool>, NoMemory>
    ensures { IfOk result (λ truth. truth ≡ evaluation.truth (outcome_view outcome.now)) }
{
    match outcome {
        None => Ok(None),
        Some(operand) => truth_of(alloc, &operand.value),
    }
}

fn truth_of(alloc: Global, value: &Value) -> Result<Option<bool>, NoMemory>
    ensures { IfOk result (λ truth. truth ≡ evaluation.truth_of (view value.now)) }
{
    if let Value::Null = value {
        return Ok(Some(false));
    }
    match coerce(alloc, value, &VType::Boolean) {
        Ok(Value::Boolean(holds)) => Ok(Some(holds)),
        Ok(_) | Err(OrMemory::Fault(_)) => Ok(None),
        Err(OrMemory::NoMemory) => Err(NoMemory),
    }
}

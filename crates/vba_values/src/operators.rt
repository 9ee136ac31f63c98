// The operators: which table an operator's operands go by.
ghost use Rattle.std.specs.Prelude.{◌≡◌, ◌≢◌, IsTrue, IsFalse, false};
ghost use Rattle.vba_base.specs.Answer.{Gives};
ghost use Rattle.vba_values.specs.Operators.{binary_of, has_two_operands, may_take_memory, unary_of};
ghost use Rattle.vba_values.specs.Types.{declared, declared as declared_type};
ghost use Rattle.vba_values.specs.View.{view};

use crate::arithmetic::{arithmetic, negated};
use crate::comparison::{are_texts, comparison, is_variant};
use crate::division::division;
use crate::fault::Bad;
use crate::logic::{logical, logical_not};
use crate::numbers::of_two_numbers;
use crate::text_sums::join;
use crate::types::{Compare, OpKind, VType};
use crate::value::Value;
use std::alloc::Global;
use vba_base::OrMemory;

/// An operator of two operands, by their values and declared types. Without a text and without a declared String every
/// operator but `&` takes no memory.
pub fn binary(
    alloc: Global,
    op: OpKind,
    left: &Value,
    left_declared: &VType,
    right: &Value,
    right_declared: &VType,
    compare: Compare,
) -> Result<Value, OrMemory<Bad>>
    requires { IsTrue (has_two_operands op) }
    ensures value { Gives view result (binary_of op (view left.now) (declared left_declared.now) (view right.now) (declared right_declared.now) compare) }
    ensures memory { may_take_memory op (view left.now) (declared left_declared.now) (view right.now) (declared right_declared.now) ≡ false
        → result ≢ Err OrMemory.NoMemory }
{
    if !are_texts(left_declared, right_declared)
        && let Some(value) = of_two_numbers(op, left, right)
    {
        return Ok(value);
    }
    by_tables(
        alloc,
        op,
        left,
        left_declared,
        right,
        right_declared,
        compare,
    )
}

/// An operator by the table of its operands.
#[inline(never)]
fn by_tables(
    alloc: Global,
    op: OpKind,
    left: &Value,
    left_declared: &VType,
    right: &Value,
    right_declared: &VType,
    compare: Compare,
) -> Result<Value, OrMemory<Bad>>
    requires { IsTrue (has_two_operands op) }
    ensures value { Gives view result (binary_of op (view left.now) (declared left_declared.now) (view right.now) (declared right_declared.now) compare) }
    ensures memory { may_take_memory op (view left.now) (declared left_declared.now) (view right.now) (declared right_declared.now) ≡ false
        → result ≢ Err OrMemory.NoMemory }
{
    match op {
        OpKind::Add | OpKind::Sub | OpKind::Mul => {
            let variant = is_variant(left_declared) || is_variant(right_declared);
            arithmetic(alloc, op, variant, left, right)
        }
        OpKind::IntDiv | OpKind::Mod => Ok(division(op, left, right)?),
        OpKind::Divide | OpKind::Power => Err(OrMemory::Fault(Bad::DOUBLE_RESULT)),
        OpKind::Join => join(alloc, left, right),
        OpKind::Eq | OpKind::Ne | OpKind::Lt | OpKind::Le | OpKind::Gt | OpKind::Ge => {
            comparison(
                alloc,
                op,
                compare,
                left,
                left_declared,
                right,
                right_declared,
            )
        }
        OpKind::And | OpKind::Or | OpKind::Xor | OpKind::Eqv | OpKind::Imp => {
            Ok(logical(op, left, right)?)
        }
        OpKind::Neg | OpKind::Not => unreachable!(),
    }
}

/// Unary minus and Not, by the operand's value and declared type. They take no memory.
pub fn unary(
    _alloc: Global,
    op: OpKind,
    value: &Value,
    declared: &VType,
) -> Result<Value, OrMemory<Bad>>
    requires { IsFalse (has_two_operands op) }
    ensures value { Gives view result (unary_of op (view value.now) (declared_type declared.now)) }
    ensures memory { result ≢ Err OrMemory.NoMemory }
{
    match op {
        OpKind::Not => Ok(logical_not(value)?),
        _ => Ok(negated(is_variant(declared), value)?),
    }
}

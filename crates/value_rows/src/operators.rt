//! Coercion and operators.
ghost use Rattle.std.specs.Prelude.{IsTrue, IsFalse, IfOk};
ghost use Rattle.vba_values.specs.Operators.{has_two_operands};

use crate::values::{Operand, push_answer, push_type, read_operand, type_of, value_of};
use crate::words::{Answer, BadLine, push_fault, push_text};
use std::alloc::Global;
use vba_base::OrMemory;
use vba_values::{Compare, OpKind, binary, coerce, static_type, text_of, unary};

/// `VALUE As TYPE`
pub fn coerced(alloc: Global, out: &mut String, words: &[&str]) -> Answer<()> {
    let [value, "As", of] = words else {
        return Err(OrMemory::Fault(BadLine));
    };
    let from = read_operand(alloc, value, of)?;
    let got = coerce(alloc, &from.value, &from.of);
    push_answer(out, &got)
}

/// `VALUE`
pub fn text_of_value(alloc: Global, out: &mut String, words: &[&str]) -> Answer<()> {
    let [value] = words else {
        return Err(OrMemory::Fault(BadLine));
    };
    let value = value_of(alloc, value)?;
    match text_of(alloc, &value) {
        Ok(text) => push_text(out, text.units()),
        Err(fault) => push_fault(out, fault),
    }
}

/// `VALUE As TYPE OPERATOR VALUE As TYPE`
pub fn binary_of(alloc: Global, out: &mut String, words: &[&str]) -> Answer<()> {
    let (operands, compare) = match words {
        [operands @ .., "Folded"] => (operands, Compare::Folded),
        operands => (operands, Compare::Binary),
    };
    let [left, "As", left_type, op, right, "As", right_type] = operands else {
        return Err(OrMemory::Fault(BadLine));
    };
    let op = operator(op)?;
    let left = read_operand(alloc, left, left_type)?;
    let right = read_operand(alloc, right, right_type)?;
    push_binary(alloc, out, op, &left, &right, compare)
}

fn push_binary(
    alloc: Global,
    out: &mut String,
    op: OpKind,
    left: &Operand,
    right: &Operand,
    compare: Compare,
) -> Answer<()>
    requires { IsTrue (has_two_operands op) }
{
    let got = binary(
        alloc,
        op,
        &left.value,
        &left.of,
        &right.value,
        &right.of,
        compare,
    );
    push_answer(out, &got)
}

/// `OPERATOR VALUE As TYPE`
pub fn unary_of(alloc: Global, out: &mut String, words: &[&str]) -> Answer<()> {
    let [op, value, "As", of] = words else {
        return Err(OrMemory::Fault(BadLine));
    };
    let op = operator_of_one(op)?;
    let from = read_operand(alloc, value, of)?;
    let got = unary(alloc, op, &from.value, &from.of);
    push_answer(out, &got)
}

/// `TYPE OPERATOR TYPE`, or `OPERATOR TYPE`
pub fn static_of(alloc: Global, out: &mut String, words: &[&str]) -> Answer<()> {
    let (op, left, right) = match words {
        [left, op, right] => (operator(op)?, left, right),
        [op, of] => (operator_of_one(op)?, of, of),
        _ => return Err(OrMemory::Fault(BadLine)),
    };
    let left = type_of(alloc, left)?;
    let right = type_of(alloc, right)?;
    match static_type(op, &left, &right) {
        Some(of) => push_type(out, &of)?,
        None => out.push_str("none")?,
    }
    Ok(())
}

/// An operator of two operands.
fn operator(word: &str) -> Answer<OpKind>
    ensures { IfOk result (λ op. IsTrue (has_two_operands op)) }
{
    match word {
        "+" => Ok(OpKind::Add),
        "-" => Ok(OpKind::Sub),
        "*" => Ok(OpKind::Mul),
        "\\" => Ok(OpKind::IntDiv),
        "Mod" => Ok(OpKind::Mod),
        "/" => Ok(OpKind::Divide),
        "^" => Ok(OpKind::Power),
        "&" => Ok(OpKind::Join),
        "=" => Ok(OpKind::Eq),
        "<>" => Ok(OpKind::Ne),
        "<" => Ok(OpKind::Lt),
        "<=" => Ok(OpKind::Le),
        ">" => Ok(OpKind::Gt),
        ">=" => Ok(OpKind::Ge),
        "And" => Ok(OpKind::And),
        "Or" => Ok(OpKind::Or),
        "Xor" => Ok(OpKind::Xor),
        "Eqv" => Ok(OpKind::Eqv),
        "Imp" => Ok(OpKind::Imp),
        _ => Err(OrMemory::Fault(BadLine)),
    }
}

fn operator_of_one(word: &str) -> Answer<OpKind>
    ensures { IfOk result (λ op. IsFalse (has_two_operands op)) }
{
    match word {
        "-" => Ok(OpKind::Neg),
        "Not" => Ok(OpKind::Not),
        _ => Err(OrMemory::Fault(BadLine)),
    }
}

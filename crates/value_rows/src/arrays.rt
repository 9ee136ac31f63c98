//! Bounds, places and initial values.

use crate::values::{plain_type, push_value};
use crate::words::{Answer, BadLine, number, push_bad, push_fault};
use arrays_udt::{fresh, offset, shape_of};
use std::alloc::Global;
use vba_base::OrMemory;
use vba_values::Bound;

/// Bounds as `1..4`.
fn bounds_of(alloc: Global, words: &str) -> Answer<Vec<Bound>> {
    let mut bounds = Vec::new(alloc);
    for word in words.split(' ') {
        let (low, high) = word.split_once("..").ok_or(OrMemory::Fault(BadLine))?;
        let low = number(low)?;
        let high = number(high)?;
        bounds.push(Bound { low, high })?;
    }
    Ok(bounds)
}

fn numbers_of(alloc: Global, words: &str) -> Answer<Vec<i64>> {
    let mut numbers = Vec::new(alloc);
    for word in words.split(' ') {
        numbers.push(number(word)?)?;
    }
    Ok(numbers)
}

/// How many bounds the shape of these bounds has.
pub fn shape(alloc: Global, out: &mut String, words: &str) -> Answer<()> {
    let bounds = bounds_of(alloc, words)?;
    match shape_of(alloc, &bounds) {
        Ok(shape) => {
            let count = shape.bounds().len();
            write!(out, "{count}")?;
            Ok(())
        }
        Err(fault) => push_fault(out, fault),
    }
}

/// `BOUNDS at NUMBERS`: the offset of that place.
pub fn place(alloc: Global, out: &mut String, words: &str) -> Answer<()> {
    let (bounds, numbers) = words.split_once(" at ").ok_or(OrMemory::Fault(BadLine))?;
    let numbers = numbers_of(alloc, numbers)?;
    let bounds = bounds_of(alloc, bounds)?;
    let shape = match shape_of(alloc, &bounds) {
        Ok(shape) => shape,
        Err(fault) => return push_fault(out, fault),
    };
    match offset(&shape, &numbers) {
        Ok(offset) => write!(out, "{offset}")?,
        Err(bad) => push_bad(out, bad)?,
    }
    Ok(())
}

/// The initial value of a declared type without brackets.
pub fn initial(alloc: Global, out: &mut String, word: &str) -> Answer<()> {
    let of = plain_type(word).ok_or(OrMemory::Fault(BadLine))?;
    let types = Vec::new(alloc);
    let value = fresh(alloc, &of, &types)?;
    push_value(out, &value)
}

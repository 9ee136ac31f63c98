//! Functions, constants and names of the library.
ghost use Rattle.std.specs.Prelude.{◌≤ℤ◌, pos};

use crate::values::{push_value, value_of};
use crate::words::{Answer, BadLine, push_fault, push_plain};
use library_calls::library;
use std::alloc::Global;
use vba_base::{Name, OrMemory, Units, name_of};
use vba_lib::{arity, is_outside_name, is_outside_type, library_constant, library_named};
use vba_values::{ArrayValue, Bad, Compare, Value};

/// `NAME VALUE ..`
pub fn library_of(alloc: Global, out: &mut String, words: &[&str]) -> Answer<()> {
    let (words, compare) = match words {
        [words @ .., "Folded"] => (words, Compare::Folded),
        words => (words, Compare::Binary),
    };
    let (words, from_one) = match words {
        [words @ .., "Base1"] => (words, true),
        words => (words, false),
    };
    let [name, arguments @ ..] = words else {
        return Err(OrMemory::Fault(BadLine));
    };
    let values = values_of(alloc, arguments)?;
    call(alloc, out, name, values.as_slice(), compare, from_one)
}

fn values_of(alloc: Global, words: &[&str]) -> Answer<Vec<Value>> {
    let mut values = Vec::new(alloc);
    for word in words {
        values.push(value_of(alloc, word)?)?;
    }
    Ok(values)
}

fn call(
    alloc: Global,
    out: &mut String,
    name: &str,
    arguments: &[Value],
    compare: Compare,
    from_one: bool,
) -> Answer<()> {
    let (plain, text_form) = match name.strip_suffix('$') {
        Some(plain) => (plain, true),
        None => (name, false),
    };
    let Some(function) = library_named(&name_of_word(alloc, plain)?) else {
        return Err(OrMemory::Fault(BadLine));
    };
    let got = library(
        alloc,
        function,
        text_form,
        arguments,
        compare,
        base(from_one),
    );
    push_result(out, &got)
}

fn base(from_one: bool) -> i32
    ensures least { pos 0 ≤ℤ result }
    ensures greatest { result ≤ℤ pos 1 }
{
    if from_one { 1 } else { 0 }
}

fn name_of_word(alloc: Global, word: &str) -> Answer<Name> {
    let mut text = Units::new(alloc);
    push_plain(&mut text, word.as_bytes())?;
    Ok(name_of(alloc, text.units())?)
}

/// Writes what a function gave, an array with its bounds and elements.
fn push_result(out: &mut String, got: &Result<Value, OrMemory<Bad>>) -> Answer<()> {
    match got {
        Ok(Value::Array(array)) => push_elements(out, array),
        Ok(value) => push_value(out, value),
        Err(fault) => push_fault(out, *fault),
    }
}

fn push_elements(out: &mut String, array: &ArrayValue) -> Answer<()> {
    for bound in &array.bounds {
        write!(out, "{}..{}", bound.low, bound.high)?;
    }
    for item in &array.items {
        out.push_str(";")?;
        push_value(out, item)?;
    }
    Ok(())
}

/// `function NAME`, `constant NAME` and `outside NAME`
pub fn named(alloc: Global, out: &mut String, kind: &str, word: &str) -> Answer<()> {
    let name = name_of_word(alloc, word)?;
    match kind {
        "function" => push_arity(out, &name),
        "constant" => push_constant(alloc, out, &name),
        _ => push_outside(out, &name),
    }
}

fn push_arity(out: &mut String, name: &Name) -> Answer<()> {
    match library_named(name) {
        Some(function) => {
            let (least, greatest) = arity(function);
            write!(out, "{least}..{greatest}")?;
        }
        None => out.push_str("none")?,
    }
    Ok(())
}

fn push_constant(alloc: Global, out: &mut String, name: &Name) -> Answer<()> {
    match library_constant(alloc, name)? {
        Some(value) => push_value(out, &value),
        None => Ok(out.push_str("none")?),
    }
}

fn push_outside(out: &mut String, name: &Name) -> Answer<()> {
    if is_outside_name(name) {
        out.push_str("function")?;
    } else if is_outside_type(name) {
        out.push_str("type")?;
    } else {
        out.push_str("none")?;
    }
    Ok(())
}

//! Values and declared types, as the words of cases.
ghost use Rattle.std.specs.Prelude.{◌≡◌, [], true, IfSome};
ghost use Rattle.vba_values.specs.Types.{declared};
ghost use Rattle.arrays_udt.specs.Fields.{is_known};

use crate::words::{Answer, BadLine, number, parts, push_fault, push_text, text_of_word};
use currency::{count, from_count};
use std::alloc::{AllocError, Global};
use vba_base::OrMemory;
use vba_values::{ArrayValue, Bad, Bound, HostRef, ObjId, ObjRef, UdtValue, VType, Value};

/// The value that a word is.
pub fn value_of(alloc: Global, word: &str) -> Answer<Value> {
    let (kind, inside) = parts(word);
    match kind {
        "Empty" => Ok(Value::Empty),
        "Null" => Ok(Value::Null),
        "Missing" => Ok(Value::Missing),
        "Nothing" => Ok(Value::Object(ObjRef::Nothing)),
        "Text" => Ok(Value::Text(text_of_word(alloc, inside)?)),
        "Longs" => longs(alloc),
        "Numbers" => numbers_array(alloc, inside),
        "Udt" => udt_of(alloc, number(inside)?),
        _ => scalar_of(kind, inside),
    }
}

fn scalar_of(kind: &str, inside: &str) -> Answer<Value> {
    Ok(match kind {
        "Boolean" => Value::Boolean(inside == "True"),
        "Byte" => Value::Byte(number(inside)?),
        "Integer" => Value::Integer(number(inside)?),
        "Long" => Value::Long(number(inside)?),
        "LongLong" => Value::LongLong(number(inside)?),
        "Currency" => Value::Currency(from_count(number(inside)?)),
        "Object" => Value::Object(ObjRef::Heap(ObjId(number(inside)?))),
        "Sheet" => Value::Object(ObjRef::Host(HostRef::Sheet {
            sheet: number(inside)?,
        })),
        _ => return Err(OrMemory::Fault(BadLine)),
    })
}

/// An array of Long without elements.
fn longs(alloc: Global) -> Answer<Value> {
    let array = ArrayValue {
        bounds: Vec::new(alloc),
        element: VType::Long,
        items: Vec::new(alloc),
    };
    Ok(Value::Array(Box::new(alloc, array)?))
}

/// An array of Variant with lower bounds 0 and these upper bounds, whose elements are the Integers from 0 on.
fn numbers_array(alloc: Global, highs: &str) -> Answer<Value> {
    let mut bounds = Vec::new(alloc);
    let mut count: i16 = 1;
    for high in highs.split(',') {
        let high: i16 = number(high)?;
        count = count.saturating_mul(high.saturating_add(1));
        bounds.push(Bound {
            low: 0,
            high: i32::from(high),
        })?;
    }
    let mut items = Vec::new(alloc);
    for number in 0..count {
        items.push(Value::Integer(number))?;
    }
    let array = ArrayValue {
        bounds,
        element: VType::Variant,
        items,
    };
    Ok(Value::Array(Box::new(alloc, array)?))
}

/// A value without fields of a user-defined type.
fn udt_of(alloc: Global, udt: u32) -> Answer<Value> {
    let udt = UdtValue {
        udt,
        fields: Vec::new(alloc),
    };
    Ok(Value::Udt(Box::new(alloc, udt)?))
}

/// Writes a value as its word. Of an array it writes how many elements it has.
pub fn push_value(out: &mut String, value: &Value) -> Answer<()> {
    match value {
        Value::Empty => out.push_str("Empty")?,
        Value::Null => out.push_str("Null")?,
        Value::Missing => out.push_str("Missing")?,
        Value::Boolean(true) => out.push_str("Boolean(True)")?,
        Value::Boolean(false) => out.push_str("Boolean(False)")?,
        Value::Byte(number) => push_number(out, "Byte", i64::from(*number))?,
        Value::Integer(number) => push_number(out, "Integer", i64::from(*number))?,
        Value::Long(number) => push_number(out, "Long", i64::from(*number))?,
        Value::LongLong(number) => push_number(out, "LongLong", *number)?,
        Value::Currency(amount) => push_number(out, "Currency", count(*amount))?,
        Value::Text(text) => push_in_brackets(out, text.units())?,
        Value::Object(reference) => push_object(out, *reference)?,
        Value::Array(array) => push_array(out, array)?,
        Value::Udt(udt) => push_number(out, "Udt", i64::from(udt.udt))?,
    }
    Ok(())
}

/// Writes a word with a number in brackets.
pub fn push_number(out: &mut String, word: &str, number: i64) -> Result<(), AllocError> {
    write!(out, "{word}({number})")
}

fn push_in_brackets(out: &mut String, text: &[u16]) -> Answer<()> {
    out.push_str("Text(")?;
    push_text(out, text)?;
    out.push(')')?;
    Ok(())
}

fn push_object(out: &mut String, reference: ObjRef) -> Result<(), AllocError> {
    match reference {
        ObjRef::Nothing => out.push_str("Nothing"),
        ObjRef::Heap(ObjId(number)) => push_number(out, "Object", i64::from(number)),
        ObjRef::Host(HostRef::Sheet { sheet }) => push_number(out, "Sheet", i64::from(sheet)),
        ObjRef::Host(_) => out.push_str("Host"),
    }
}

fn push_array(out: &mut String, array: &ArrayValue) -> Result<(), AllocError> {
    let count = array.items.len();
    match array.element {
        VType::Long if array.bounds.is_empty() && count == 0 => out.push_str("Longs"),
        _ => write!(out, "Array({count})"),
    }
}

/// An operand: its value, and its declared type.
pub struct Operand {
    pub value: Value,
    pub of: VType,
}

impl Drop for Operand {
    fn drop(self) {
        let Operand {
            value: _value,
            of: _of,
        } = self;
    }
}

/// `VALUE As TYPE`
pub fn read_operand(alloc: Global, value: &str, of: &str) -> Answer<Operand> {
    let of = type_of(alloc, of)?;
    let value = value_of(alloc, value)?;
    Ok(Operand { value, of })
}

/// Writes what a call gave.
pub fn push_answer(out: &mut String, got: &Result<Value, OrMemory<Bad>>) -> Answer<()> {
    match got {
        Ok(value) => push_value(out, value),
        Err(fault) => push_fault(out, *fault),
    }
}

/// The declared type that a word is.
pub fn type_of(alloc: Global, word: &str) -> Answer<VType> {
    let (kind, inside) = parts(word);
    match kind {
        "Class" => Ok(VType::Class(number(inside)?)),
        "Udt" => Ok(VType::Udt(number(inside)?)),
        "ArrayOf" => {
            let element = plain_type(inside).ok_or(OrMemory::Fault(BadLine))?;
            Ok(VType::ArrayOf(Box::new(alloc, element)?))
        }
        "String" if !inside.is_empty() => Ok(VType::FixedText(number(inside)?)),
        _ => plain_type(word).ok_or(OrMemory::Fault(BadLine)),
    }
}

/// The declared type that a word without brackets is.
pub fn plain_type(word: &str) -> Option<VType>
    ensures { IfSome result (λ of. is_known [] (declared of) ≡ true) }
{
    match word {
        "Boolean" => Some(VType::Boolean),
        "Byte" => Some(VType::Byte),
        "Integer" => Some(VType::Integer),
        "Long" => Some(VType::Long),
        "LongLong" => Some(VType::LongLong),
        "Currency" => Some(VType::Currency),
        "String" => Some(VType::Text),
        "Object" => Some(VType::Object),
        "Collection" => Some(VType::Collection),
        "Worksheet" => Some(VType::Worksheet),
        "Range" => Some(VType::Range),
        "Variant" => Some(VType::Variant),
        _ => None,
    }
}

/// Writes the word of a type that an operator may give.
pub fn push_type(out: &mut String, of: &VType) -> Result<(), AllocError> {
    out.push_str(match of {
        VType::Boolean => "Boolean",
        VType::Byte => "Byte",
        VType::Integer => "Integer",
        VType::Long => "Long",
        VType::LongLong => "LongLong",
        VType::Currency => "Currency",
        VType::Text => "String",
        VType::Variant => "Variant",
        _ => "another",
    })
}

// Kinds of values, by name and by number.
ghost use Rattle.std.specs.Prelude.{◌≡◌, pos, false, IfOk};
ghost use Rattle.vba_lib.specs.Kinds.{declared_name, declared_number, host_name, is_array, object_name, type_name, var_type};
ghost use Rattle.vba_values.specs.Types.{declared};
ghost use Rattle.vba_values.specs.View.{view};

use crate::arguments::ascii_text;
use std::alloc::Global;
use vba_base::{NoMemory, Units};
use vba_values::{HostRef, ObjRef, VType, Value};

/// The name of a value's kind. Of an array it is the name of its element type with `()` behind it. The names of classes
/// and of user-defined types are the caller's to tell.
pub fn type_name(alloc: Global, value: &Value) -> Result<Units, NoMemory>
    ensures { IfOk result (λ name. name ≡ type_name (view value.now)) }
{
    match value {
        Value::Array(array) => {
            let mut name = ascii_text(alloc, declared_name(&array.element))?;
            name.extend(&[0x28, 0x29])?;
            Ok(name)
        }
        _ => ascii_text(alloc, plain_name(value)),
    }
}

/// The name of the kind of a value that is no array.
fn plain_name(value: &Value) -> &'static [u8]
    ensures { is_array (view value.now) ≡ false → result.now ≡ type_name (view value.now) }
{
    match value {
        Value::Empty => b"Empty",
        Value::Null => b"Null",
        Value::Missing => b"Error",
        Value::Boolean(_) => b"Boolean",
        Value::Byte(_) => b"Byte",
        Value::Integer(_) => b"Integer",
        Value::Long(_) => b"Long",
        Value::LongLong(_) => b"LongLong",
        Value::Currency(_) => b"Currency",
        Value::Text(_) => b"String",
        Value::Object(reference) => object_name(*reference),
        Value::Array(_) | Value::Udt(_) => b"Object",
    }
}

fn object_name(reference: ObjRef) -> &'static [u8]
    ensures { result.now ≡ object_name reference }
{
    match reference {
        ObjRef::Nothing => b"Nothing",
        ObjRef::Heap(_) => b"Object",
        ObjRef::Host(host) => host_name(host),
    }
}

fn host_name(host: HostRef) -> &'static [u8]
    ensures { result.now ≡ host_name host }
{
    match host {
        HostRef::Application => b"Application",
        HostRef::Workbook => b"Workbook",
        HostRef::Sheets => b"Sheets",
        HostRef::ErrObject => b"ErrObject",
        HostRef::Sheet { .. } => b"Worksheet",
        HostRef::Area { .. } | HostRef::RowsOf { .. } | HostRef::ColumnsOf { .. } => b"Range",
    }
}

fn declared_name(of: &VType) -> &'static [u8]
    ensures { result.now ≡ declared_name (declared of.now) }
{
    match of {
        VType::Boolean => b"Boolean",
        VType::Byte => b"Byte",
        VType::Integer => b"Integer",
        VType::Long => b"Long",
        VType::LongLong => b"LongLong",
        VType::Currency => b"Currency",
        VType::Text | VType::FixedText(_) => b"String",
        VType::Collection => b"Collection",
        VType::Worksheet => b"Worksheet",
        VType::Range => b"Range",
        VType::Variant => b"Variant",
        VType::Object | VType::Class(_) | VType::Udt(_) | VType::ArrayOf(_) => b"Object",
    }
}

/// The number of a value's kind. Of an array it is that of its element type, with 8192 added.
pub fn var_type(value: &Value) -> i32
    ensures { result ≡ pos (var_type (view value.now)) }
{
    match value {
        Value::Empty => 0,
        Value::Null => 1,
        Value::Missing => 10,
        Value::Boolean(_) => 11,
        Value::Byte(_) => 17,
        Value::Integer(_) => 2,
        Value::Long(_) => 3,
        Value::LongLong(_) => 20,
        Value::Currency(_) => 6,
        Value::Text(_) => 8,
        Value::Object(_) => 9,
        Value::Array(array) => 8192 + i32::from(declared_number(&array.element)),
        Value::Udt(_) => 36,
    }
}

fn declared_number(of: &VType) -> u8
    ensures { result ≡ declared_number (declared of.now) }
{
    match of {
        VType::Boolean => 11,
        VType::Byte => 17,
        VType::Integer => 2,
        VType::Long => 3,
        VType::LongLong => 20,
        VType::Currency => 6,
        VType::Text | VType::FixedText(_) => 8,
        VType::Variant => 12,
        VType::Udt(_) => 36,
        VType::Object
        | VType::Class(_)
        | VType::Collection
        | VType::Worksheet
        | VType::Range
        | VType::ArrayOf(_) => 9,
    }
}

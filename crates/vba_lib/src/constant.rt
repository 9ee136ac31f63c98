ghost use Rattle.std.specs.Prelude.{◌≡◌, option_map, IfOk};
ghost use Rattle.vba_lib.specs.Names.{constant_named, constant_value};
ghost use Rattle.vba_values.specs.Val.{text};
ghost use Rattle.vba_values.specs.View.{view};

use crate::table::sought;
use std::alloc::Global;
use vba_base::{Name, NoMemory, Units};
use vba_values::Value;

/// A constant of the library.
#[derive(Clone, Copy)]
pub enum Constant {
    /// CR LF.
    LineBreak,
    /// CR.
    Return,
    /// LF.
    LineFeed,
    /// The tab.
    Tab,
    /// The text without units.
    NoText,
    Number(i32),
}

/// The constants in alphabetical order, each by its case fold.
const CONSTANTS: [(&[u8], Constant); 24] = [
    (b"vbarray", Constant::Number(8192)),
    (b"vbbinarycompare", Constant::Number(0)),
    (b"vbboolean", Constant::Number(11)),
    (b"vbbyte", Constant::Number(17)),
    (b"vbcr", Constant::Return),
    (b"vbcrlf", Constant::LineBreak),
    (b"vbcurrency", Constant::Number(6)),
    (b"vbempty", Constant::Number(0)),
    (b"vberror", Constant::Number(10)),
    (b"vbfalse", Constant::Number(0)),
    (b"vbinteger", Constant::Number(2)),
    (b"vblf", Constant::LineFeed),
    (b"vblong", Constant::Number(3)),
    (b"vblonglong", Constant::Number(20)),
    (b"vbnewline", Constant::LineBreak),
    (b"vbnull", Constant::Number(1)),
    (b"vbnullstring", Constant::NoText),
    (b"vbobject", Constant::Number(9)),
    (b"vbobjecterror", Constant::Number(-2147221504)),
    (b"vbstring", Constant::Number(8)),
    (b"vbtab", Constant::Tab),
    (b"vbtextcompare", Constant::Number(1)),
    (b"vbtrue", Constant::Number(-1)),
    (b"vbvariant", Constant::Number(12)),
];

/// The value of the constant with this name.
pub fn library_constant(alloc: Global, name: &Name) -> Result<Option<Value>, NoMemory>
    ensures { IfOk result (λ found. option_map view found ≡ constant_named name.now) }
{
    match sought(&CONSTANTS, name.units()) {
        Some(constant) => Ok(Some(value_of(alloc, constant)?)),
        None => Ok(None),
    }
}

fn value_of(alloc: Global, constant: Constant) -> Result<Value, NoMemory>
    ensures { IfOk result (λ value. view value ≡ constant_value constant) }
{
    match constant {
        Constant::LineBreak => text_of(alloc, &[13, 10]),
        Constant::Return => text_of(alloc, &[13]),
        Constant::LineFeed => text_of(alloc, &[10]),
        Constant::Tab => text_of(alloc, &[9]),
        Constant::NoText => text_of(alloc, &[]),
        Constant::Number(number) => Ok(Value::Long(number)),
    }
}

fn text_of(alloc: Global, units: &[u16]) -> Result<Value, NoMemory>
    ensures { IfOk result (λ value. view value ≡ text units.now) }
{
    Ok(Value::Text(Units::from_units(alloc, units)?))
}

//! The values of number literals.

ghost use Rattle.std.specs.Prelude.{◌≡◌, IfOk, option_map};
ghost use Rattle.vba_lexer.specs.Numbers.{number_of};
ghost use Rattle.vba_values.specs.View.{view};
ghost use Rattle.cond_compile.specs.Literals as literals;

use currency::from_count;
use std::alloc::Global;
use vba_base::{NoMemory, OrMemory};
use vba_lexer::{Number, NumberKind, number_value};
use vba_values::{VType, Value, coerce};

/// A whole number as a value of a type.
fn whole_value(alloc: Global, value: i64, kind: NumberKind) -> Result<Option<Value>, NoMemory>
    ensures { IfOk result (λ found. option_map view found ≡ literals.number_value (record { kind = kind; value = value })) }
{
    let whole = Value::LongLong(value);
    let declared = match kind {
        NumberKind::Integer => VType::Integer,
        NumberKind::Long => VType::Long,
        NumberKind::LongLong => return Ok(Some(whole)),
        NumberKind::Currency => return Ok(Some(Value::Currency(from_count(value)))),
    };
    match coerce(alloc, &whole, &declared) {
        Ok(value) => Ok(Some(value)),
        Err(OrMemory::Fault(_)) => Ok(None),
        Err(OrMemory::NoMemory) => Err(NoMemory),
    }
}

/// The value of a number literal, where it breaks no rule.
pub fn value_of_number(alloc: Global, literal: &[u16]) -> Result<Option<Value>, NoMemory>
    ensures { IfOk result (λ found. option_map view found ≡ literals.value_of_number (number_of literal.now)) }
{
    match number_value(literal) {
        Ok(Number { kind, value }) => whole_value(alloc, value, kind),
        Err(_) => Ok(None),
    }
}

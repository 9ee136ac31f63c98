// What the functions of the library take, and what they answer.
ghost use Rattle.std.specs.Prelude.{◌≡◌, IfOk};
ghost use Rattle.vba_base.specs.Answer.{Gives};
ghost use Rattle.vba_lib.specs.Arguments.{long_answer, long_of, text_answer};
ghost use Rattle.library_calls.specs.View.{units_of};
ghost use Rattle.vba_values.specs.Coerce.{text_of};
ghost use Rattle.vba_values.specs.View.{view};

use std::alloc::Global;
use vba_base::{NoMemory, OrMemory, Units};
use vba_values::{Bad, OutKind, VType, Value, coerce, text_of};

/// The value that a function gives, or why it gives none.
pub type Answer = Result<Value, OrMemory<Bad>>;

/// The most units of a text that a function gives.
pub const LONGEST_TEXT: usize = 16_777_216;

/// A text that a function would give is too long.
pub const TEXT_TOO_LONG: OrMemory<Bad> = OrMemory::Fault(Bad::Outside(OutKind::TextLength));

/// Invalid procedure call or argument.
pub const INVALID_CALL: OrMemory<Bad> = OrMemory::Fault(Bad::Raise(5));

/// Wrong number of arguments.
pub const WRONG_NUMBER: OrMemory<Bad> = OrMemory::Fault(Bad::Raise(450));

/// An argument that is coerced to String. A text isn't copied.
#[derive(Drop)]
pub enum TextArgument<'a> {
    Lent(&'a [u16]),
    Made(Units),
}

impl TextArgument<'_> {
    /// Its units, in order.
    pub fn units(&self) -> &[u16]
        ensures { result.now ≡ units_of self.now }
    {
        match self {
            TextArgument::Lent(units) => units,
            TextArgument::Made(text) => text.units(),
        }
    }
}

/// An argument as a String.
pub fn text_argument(alloc: Global, value: &Value) -> Result<TextArgument<'_>, OrMemory<Bad>>
    ensures { Gives units_of result (text_of (view value.now)) }
{
    match value {
        Value::Text(text) => Ok(TextArgument::Lent(text.units())),
        _ => Ok(TextArgument::Made(text_of(alloc, value)?)),
    }
}

/// An argument as the number of a Long.
pub fn long_argument(alloc: Global, value: &Value) -> Result<i32, OrMemory<Bad>>
    ensures { Gives (λ number. number) result (long_of (view value.now)) }
{
    match coerce(alloc, value, &VType::Long)? {
        Value::Long(number) => Ok(number),
        _ => unreachable!(),
    }
}

/// A copy of these units, unless they are too many.
pub fn text_answer(alloc: Global, units: &[u16]) -> Answer
    ensures { Gives view result (text_answer units.now) }
{
    if units.len() > LONGEST_TEXT {
        return Err(TEXT_TOO_LONG);
    }
    Ok(Value::Text(Units::from_units(alloc, units)?))
}

/// A text of these ASCII characters.
pub fn ascii_text(alloc: Global, characters: &[u8]) -> Result<Units, NoMemory>
    ensures { IfOk result (λ text. text ≡ characters.now) }
{
    let mut text = Units::with_capacity(alloc, characters.len())?;
    for character in characters {
        text.push(u16::from(*character))?;
    }
    Ok(text)
}

/// A number of units or a place, as a Long.
pub fn long_answer(number: usize) -> Answer
    ensures { Gives view result (long_answer number) }
{
    match i32::try_from(number) {
        Ok(number) => Ok(Value::Long(number)),
        Err(_) => Err(OrMemory::Fault(Bad::OVERFLOW)),
    }
}

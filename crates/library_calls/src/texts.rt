// Parts of texts, and texts in other forms.
ghost use Rattle.std.specs.Prelude.{◌≡◌, ◌++◌, replicate, reverse, map, IfOk, OnOk};
ghost use Rattle.std.specs.Char.{to_ascii_lowercase, to_ascii_uppercase};
ghost use Rattle.currency.specs.NumberText.{behind_blanks};
ghost use Rattle.vba_base.specs.Answer.{Gives};
ghost use Rattle.vba_lib.specs.Texts.{before_blanks, blanks, first_units, from_place, l_case, l_trim, last_units, left, len, mid, mid_of_length, r_trim, repeated, right, space, str_reverse, trim, u_case};
ghost use Rattle.vba_values.specs.View.{view};

use crate::arguments::{
    Answer, INVALID_CALL, LONGEST_TEXT, TEXT_TOO_LONG, long_answer, long_argument, text_answer,
    text_argument,
};
use std::alloc::Global;
use vba_base::{NoMemory, OrMemory, Units};
use vba_values::{Bad, Value};

/// U+0020.
const BLANK: u16 = 0x20;

/// How many units a text has.
pub fn len(alloc: Global, value: &Value) -> Answer
    ensures { Gives view result (len (view value.now)) }
{
    let text = text_argument(alloc, value)?;
    long_answer(text.units().len())
}

/// The first units of a text. A number below 0 raises 5.
pub fn left(alloc: Global, value: &Value, count: &Value) -> Answer
    ensures { Gives view result (left (view value.now) (view count.now)) }
{
    let text = text_argument(alloc, value)?;
    let count = long_argument(alloc, count)?;
    first_units(alloc, text.units(), count)
}

fn first_units(alloc: Global, units: &[u16], count: i32) -> Answer
    ensures { Gives view result (first_units units.now count) }
{
    let Ok(count) = usize::try_from(count) else {
        return Err(INVALID_CALL);
    };
    if count < units.len() {
        text_answer(alloc, &units[..count])
    } else {
        text_answer(alloc, units)
    }
}

/// The last units of a text. A number below 0 raises 5.
pub fn right(alloc: Global, value: &Value, count: &Value) -> Answer
    ensures { Gives view result (right (view value.now) (view count.now)) }
{
    let text = text_argument(alloc, value)?;
    let count = long_argument(alloc, count)?;
    last_units(alloc, text.units(), count)
}

fn last_units(alloc: Global, units: &[u16], count: i32) -> Answer
    ensures { Gives view result (last_units units.now count) }
{
    let Ok(count) = usize::try_from(count) else {
        return Err(INVALID_CALL);
    };
    text_answer(alloc, &units[units.len().saturating_sub(count)..])
}

/// The units of a text from a place on, counted from 1. A place below 1 raises 5.
pub fn mid(alloc: Global, value: &Value, place: &Value) -> Answer
    ensures { Gives view result (mid (view value.now) (view place.now)) }
{
    let text = text_argument(alloc, value)?;
    let place = long_argument(alloc, place)?;
    text_answer(alloc, from_place(text.units(), place)?)
}

/// So many units of a text from a place on. A place below 1 and a number below 0 raise 5.
pub fn mid_of_length(alloc: Global, value: &Value, place: &Value, count: &Value) -> Answer
    ensures { Gives view result (mid_of_length (view value.now) (view place.now) (view count.now)) }
{
    let text = text_argument(alloc, value)?;
    let place = long_argument(alloc, place)?;
    let count = long_argument(alloc, count)?;
    first_units(alloc, from_place(text.units(), place)?, count)
}

/// What stands from a place on, counted from 1. A place below 1 raises 5.
pub fn from_place(units: &[u16], place: i32) -> Result<&[u16], OrMemory<Bad>>
    ensures { Gives (λ rest. rest.now) result (from_place units.now place) }
{
    let before = usize::try_from(i64::from(place) - 1).map_err(|_| INVALID_CALL)?;
    Ok(units.get(before..).unwrap_or(&[]))
}

/// A text with the letters of ASCII as capitals.
pub fn u_case(alloc: Global, value: &Value) -> Answer
    ensures { Gives view result (u_case (view value.now)) }
{
    let text = text_argument(alloc, value)?;
    let units = text.units();
    if units.len() > LONGEST_TEXT {
        return Err(TEXT_TOO_LONG);
    }
    Ok(Value::Text(uppercase(alloc, units)?))
}

fn uppercase(alloc: Global, units: &[u16]) -> Result<Units, NoMemory>
    ensures { IfOk result (λ text. text ≡ map to_ascii_uppercase units.now) }
{
    let mut text = Units::with_capacity(alloc, units.len())?;
    for unit in units {
        text.push(match *unit {
            0x61..=0x7a => *unit - 0x20,
            other => other,
        })?;
    }
    Ok(text)
}

/// A text with the letters of ASCII as small letters.
pub fn l_case(alloc: Global, value: &Value) -> Answer
    ensures { Gives view result (l_case (view value.now)) }
{
    let text = text_argument(alloc, value)?;
    let units = text.units();
    if units.len() > LONGEST_TEXT {
        return Err(TEXT_TOO_LONG);
    }
    Ok(Value::Text(lowercase(alloc, units)?))
}

fn lowercase(alloc: Global, units: &[u16]) -> Result<Units, NoMemory>
    ensures { IfOk result (λ text. text ≡ map to_ascii_lowercase units.now) }
{
    let mut text = Units::with_capacity(alloc, units.len())?;
    for unit in units {
        text.push(match *unit {
            0x41..=0x5a => *unit + 0x20,
            other => other,
        })?;
    }
    Ok(text)
}

/// A text without the blanks at its ends.
pub fn trim(alloc: Global, value: &Value) -> Answer
    ensures { Gives view result (trim (view value.now)) }
{
    let text = text_argument(alloc, value)?;
    text_answer(alloc, before_blanks(behind_blanks(text.units())))
}

/// A text without the blanks before it.
pub fn l_trim(alloc: Global, value: &Value) -> Answer
    ensures { Gives view result (l_trim (view value.now)) }
{
    let text = text_argument(alloc, value)?;
    text_answer(alloc, behind_blanks(text.units()))
}

/// A text without the blanks behind it.
pub fn r_trim(alloc: Global, value: &Value) -> Answer
    ensures { Gives view result (r_trim (view value.now)) }
{
    let text = text_argument(alloc, value)?;
    text_answer(alloc, before_blanks(text.units()))
}

fn behind_blanks(units: &[u16]) -> &[u16]
    ensures { result.now ≡ behind_blanks units.now }
{
    let mut rest = units;
    while let [BLANK, behind @ ..] = rest {
        rest = behind;
    }
    rest
}

fn before_blanks(units: &[u16]) -> &[u16]
    ensures { result.now ≡ before_blanks units.now }
{
    let mut count = units.len();
    while count > 0 && units[count - 1] == BLANK {
        count -= 1;
    }
    &units[..count]
}

/// So many blanks. A number below 0 raises 5.
pub fn space(alloc: Global, count: &Value) -> Answer
    ensures { Gives view result (space (view count.now)) }
{
    blanks(alloc, long_argument(alloc, count)?)
}

fn blanks(alloc: Global, count: i32) -> Answer
    ensures { Gives view result (blanks count) }
{
    match usize::try_from(count) {
        Ok(count) => repeated(alloc, count, BLANK),
        Err(_) => Err(INVALID_CALL),
    }
}

/// So many times one unit.
pub fn repeated(alloc: Global, count: usize, unit: u16) -> Answer
    ensures { Gives view result (repeated count unit) }
{
    if count > LONGEST_TEXT {
        return Err(TEXT_TOO_LONG);
    }
    let mut text = Units::with_capacity(alloc, count)?;
    push_repeated(&mut text, count, unit)?;
    Ok(Value::Text(text))
}

fn push_repeated(text: &mut Units, count: usize, unit: u16) -> Result<(), NoMemory>
    ensures { OnOk result (text.new ≡ text.old ++ replicate count unit) }
{
    for _ in 0..count {
        text.push(unit)?;
    }
    Ok(())
}

/// The units of a text from the last to the first.
pub fn str_reverse(alloc: Global, value: &Value) -> Answer
    ensures { Gives view result (str_reverse (view value.now)) }
{
    let text = text_argument(alloc, value)?;
    let units = text.units();
    if units.len() > LONGEST_TEXT {
        return Err(TEXT_TOO_LONG);
    }
    Ok(Value::Text(reversed(alloc, units)?))
}

fn reversed(alloc: Global, units: &[u16]) -> Result<Units, NoMemory>
    ensures { IfOk result (λ text. text ≡ reverse units.now) }
{
    let reversed: Vec<u16> = units.iter().rev().copied().collect(alloc)?;
    Units::from_units(alloc, reversed.as_slice())
}

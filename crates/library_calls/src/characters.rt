// Characters and their codes: 16-bit units, and Windows-1252.
ghost use Rattle.std.specs.Prelude.{◌≡◌, ◌<◌, ◌==◌, length, position, Ok, IfSome};
ghost use Rattle.vba_base.specs.Answer.{Gives};
ghost use Rattle.vba_base.specs.Decode.{windows_1252};
ghost use Rattle.vba_lib.specs.Characters.{asc, asc_w, character_of, chr, chr_w, code_of, first_unit, one_unit, place_from_80, repeated_unit, string, unit_of, unit_of_code};
ghost use Rattle.vba_values.specs.View.{view};

use crate::arguments::{Answer, INVALID_CALL, long_argument, text_argument};
use crate::texts::repeated;
use std::alloc::Global;
use vba_base::{OrMemory, Units};
use vba_values::{Bad, Value};

/// The unit of a number from -32768 to 65535, where the negative ones are the units from 32768 on. Another number
/// raises 5.
pub fn chr_w(alloc: Global, value: &Value) -> Answer
    ensures { Gives view result (chr_w (view value.now)) }
{
    let number = long_argument(alloc, value)?;
    if let Ok(unit) = u16::try_from(number) {
        return one_unit(alloc, unit);
    }
    match i16::try_from(number) {
        Ok(number) => one_unit(alloc, number.cast_unsigned()),
        Err(_) => Err(INVALID_CALL),
    }
}

/// A text of one unit.
fn one_unit(alloc: Global, unit: u16) -> Answer
    ensures { Gives view result (Ok (one_unit unit)) }
{
    Ok(Value::Text(Units::from_units(alloc, &[unit])?))
}

/// The number of the first unit, where the units from 32768 on are negative. An empty text raises 5.
pub fn asc_w(alloc: Global, value: &Value) -> Answer
    ensures { Gives view result (asc_w (view value.now)) }
{
    let text = text_argument(alloc, value)?;
    let unit = first_unit(text.units())?;
    Ok(Value::Integer(unit.cast_signed()))
}

fn first_unit(units: &[u16]) -> Result<u16, OrMemory<Bad>>
    ensures { Gives (λ unit. unit) result (first_unit units.now) }
{
    match units {
        [unit, ..] => Ok(*unit),
        [] => Err(INVALID_CALL),
    }
}

/// The character of a code in Windows-1252. A number outside 0 to 255 raises 5.
pub fn chr(alloc: Global, value: &Value) -> Answer
    ensures { Gives view result (chr (view value.now)) }
{
    character_of(alloc, long_argument(alloc, value)?)
}

fn character_of(alloc: Global, code: i32) -> Answer
    ensures { Gives view result (character_of code) }
{
    match u8::try_from(code) {
        Ok(code) => one_unit(alloc, windows_1252(code)),
        Err(_) => Err(INVALID_CALL),
    }
}

/// The code of the first unit in Windows-1252, and 63 where it has none. An empty text raises 5.
pub fn asc(alloc: Global, value: &Value) -> Answer
    ensures { Gives view result (asc (view value.now)) }
{
    let text = text_argument(alloc, value)?;
    let unit = first_unit(text.units())?;
    Ok(Value::Integer(i16::from(code_of(unit))))
}

/// The characters of the codes 80 to 9F in Windows-1252.
static FROM_80: [u16; 32] = [
    0x20AC, 0x81, 0x201A, 0x192, 0x201E, 0x2026, 0x2020, 0x2021, 0x2C6, 0x2030, 0x160, 0x2039,
    0x152, 0x8D, 0x17D, 0x8F, 0x90, 0x2018, 0x2019, 0x201C, 0x201D, 0x2022, 0x2013, 0x2014, 0x2DC,
    0x2122, 0x161, 0x203A, 0x153, 0x9D, 0x17E, 0x178,
];

fn windows_1252(code: u8) -> u16
    ensures { result ≡ windows_1252 code }
{
    match code {
        0x80..=0x9F => FROM_80[(code - 0x80) as usize],
        _ => u16::from(code),
    }
}

/// The code of a question mark, which stands for characters without a code.
const QUESTION_MARK: u8 = 63;

fn code_of(unit: u16) -> u8
    ensures { result ≡ code_of unit }
{
    match unit {
        0..=0x7F | 0xA0..=0xFF => unit as u8,
        _ => match place_from_80(unit) {
            Some(place) => 0x80 + place as u8,
            None => QUESTION_MARK,
        },
    }
}

/// The place of a character among those of the codes 80 to 9F.
#[tactic(auto, unfolding(vba_lib::specs::Characters::place_from_80))]
fn place_from_80(unit: u16) -> Option<usize>
    ensures value { result ≡ place_from_80 unit }
    ensures within { IfSome result (λ place. place < 32) }
{
    place_among(&FROM_80, unit)
}

fn place_among(characters: &[u16], unit: u16) -> Option<usize>
    ensures value { result ≡ position (λ character. character == unit) characters.now }
    ensures within { IfSome result (λ place. place < length characters.now) }
{
    characters.iter().position(|character| *character == unit)
}

/// So many times one unit: the first one of a text, or the character of a number's last eight bits. A number below 0, an
/// empty text and Empty raise 5.
pub fn string(alloc: Global, count: &Value, value: &Value) -> Answer
    ensures { Gives view result (string (view count.now) (view value.now)) }
{
    repeated_unit(alloc, long_argument(alloc, count)?, value)
}

fn repeated_unit(alloc: Global, count: i32, value: &Value) -> Answer
    ensures { Gives view result (repeated_unit count (view value.now)) }
{
    let Ok(count) = usize::try_from(count) else {
        return Err(INVALID_CALL);
    };
    let unit = unit_of(alloc, value)?;
    repeated(alloc, count, unit)
}

fn unit_of(alloc: Global, value: &Value) -> Result<u16, OrMemory<Bad>>
    ensures { Gives (λ unit. unit) result (unit_of (view value.now)) }
{
    match value {
        Value::Empty => Err(INVALID_CALL),
        Value::Text(text) => first_unit(text.units()),
        _ => unit_of_code(long_argument(alloc, value)?),
    }
}

fn unit_of_code(code: i32) -> Result<u16, OrMemory<Bad>>
    ensures { Gives (λ unit. unit) result (unit_of_code code) }
{
    match u32::try_from(code) {
        Ok(code) => Ok(windows_1252((code % 256) as u8)),
        Err(_) => Err(INVALID_CALL),
    }
}

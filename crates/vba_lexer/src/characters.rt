//! The characters of a text.

ghost use Rattle.std.specs.Prelude.{◌≡◌, ◌<◌, ◌≤◌, ◌∷◌, length, drop, IfOk};
ghost use Rattle.vba_lexer.specs.Characters.{characters_of, units_of};
ghost use Rattle.std.specs.Char.Utf16 as utf16;

use std::alloc::Global;
use vba_base::NoMemory;

/// Is the unit the first one of a pair?
fn is_high_surrogate(unit: u16) -> bool
    ensures { result ≡ utf16.is_high_surrogate unit }
{
    0xD800 <= unit && unit < 0xDC00
}

/// Is the unit the second one of a pair?
fn is_low_surrogate(unit: u16) -> bool
    ensures { result ≡ utf16.is_low_surrogate unit }
{
    0xDC00 <= unit && unit < 0xE000
}

/// The character of a pair.
fn pair_character(high: u16, low: u16) -> u32
    ensures { result ≡ utf16.surrogate_pair_char high low }
{
    0x1_0000
        + u32::from(high).saturating_sub(0xD800) * 0x400
        + u32::from(low).saturating_sub(0xDC00)
}

/// The first character that units spell, and how many units it takes.
pub fn first_character(units: &[u16]) -> (u32, usize)
    requires { 0 < length units.now }
    ensures first { characters_of units.now ≡ result.0 ∷ characters_of (drop result.1 units.now) }
    ensures some { 0 < result.1 }
    ensures within { result.1 ≤ length units.now }
{
    if units.len() > 1 && is_high_surrogate(units[0]) && is_low_surrogate(units[1]) {
        return (pair_character(units[0], units[1]), 2);
    }
    (u32::from(units[0]), 1)
}

/// The characters that units spell.
pub fn characters(alloc: Global, units: &[u16]) -> Result<Vec<u32>, NoMemory>
    ensures value { IfOk result (λ found. found.items ≡ characters_of units.now) }
    ensures size { IfOk result (λ found. units_of found.items ≡ length units.now) }
{
    let mut found = Vec::new(alloc);
    let mut place = 0;
    while place < units.len() {
        let (character, size) = first_character(&units[place..]);
        found.push(character)?;
        place += size;
    }
    Ok(found)
}

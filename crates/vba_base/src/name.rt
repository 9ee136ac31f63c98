ghost use Rattle.std.specs.Prelude.{◌≡◌, ◌↔◌, IsTrue, ◌<◌, ◌≤◌, ◌&&◌, ◌∷◌, [], ◌++◌, length, slice_index, bytes_eq, IfOk, OnOk, OnSome, Some, None, if◌then◌else◌};
ghost use Rattle.std.specs.Char.{to_ascii_lowercase};
ghost use Rattle.std.specs.Cmp.{partial_equiv_from_equiv};
ghost use Rattle.std.specs.Cmp.Lexicographic.{nat_list_eq_equiv};
ghost use Rattle.std.specs.Char.Utf16.{is_high_surrogate, is_low_surrogate, surrogate_pair_char};
ghost use Rattle.vba_base.specs.Fold.{folded, folded_char, folded_unit};

use crate::fault::NoMemory;
use crate::units::Units;
use caseless::Caseless;
use std::alloc::Global;
use std::iter;
use std::marker::Model;

/// A name, by default full case folding: names match where their units are equal.
#[derive(Debug, Drop)]
pub struct Name {
    folded: Units,
}

impl Model for Name {
    ghost use Rattle.std.specs.Prelude.{List, ℕ};

    ghost Value = { List ℕ };

    ghost view = { λ name. name.folded };
}

impl Name {
    /// Its folded units, in order.
    pub fn units(&self) -> &[u16]
        ensures { result.now ≡ self.now }
    {
        self.folded.units()
    }

    /// A copy of the name.
    pub fn copy(&self, alloc: Global) -> Result<Name, NoMemory>
        ensures { IfOk result (λ copy. copy ≡ self.now) }
    {
        let folded = Units::from_units(alloc, self.units())?;
        Ok(Name { folded })
    }
}

impl PartialEq for Name {
    ghost eq = { bytes_eq };

    ghost laws = { partial_equiv_from_equiv nat_list_eq_equiv };

    fn eq(&self, other: &Name) -> bool
        ensures value { result ≡ bytes_eq self.now other.now }
        ensures same { IsTrue result ↔ (self.now ≡ other.now) }
    {
        self.units() == other.units()
    }
}

impl Eq for Name {
    ghost laws = { nat_list_eq_equiv };
}

/// The name that a text is. A lone surrogate stays as it is.
pub fn name_of(alloc: Global, text: &[u16]) -> Result<Name, NoMemory>
    ensures { IfOk result (λ name. name ≡ folded text.now) }
{
    let mut units = Units::with_capacity(alloc, text.len())?;
    let mut rest = text;
    while !rest.is_empty() {
        rest = fold_first(&mut units, rest)?;
    }
    Ok(Name { folded: units })
}

/// Adds the fold of the first character, or the first unit where that is a lone surrogate. Gives
/// what stands after it.
fn fold_first<'a>(units: &mut Units, text: &'a [u16]) -> Result<&'a [u16], NoMemory>
    requires { 0 < length text.now }
    ensures shorter { IfOk result (λ rest. length rest.now < length text.now) }
    ensures folds { IfOk result (λ rest. units.new ++ folded rest.now ≡ units.old ++ folded text.now) }
{
    if text[0] < 0x80 {
        units.push(lowered(text[0]))?;
        return Ok(&text[1..]);
    }
    fold_beyond(units, text)
}

/// The fold of a character of ASCII.
fn lowered(unit: u16) -> u16
    requires { unit < 128 }
    ensures { result ≡ to_ascii_lowercase unit }
{
    match unit {
        0x41..=0x5a => unit + 0x20,
        _ => unit,
    }
}

/// The same of any character.
fn fold_beyond<'a>(units: &mut Units, text: &'a [u16]) -> Result<&'a [u16], NoMemory>
    requires { 0 < length text.now }
    ensures shorter { IfOk result (λ rest. length rest.now < length text.now) }
    ensures folds { IfOk result (λ rest. units.new ++ folded rest.now ≡ units.old ++ folded text.now) }
{
    if let Some(character) = leading_pair(text) {
        fold_character(units, character)?;
        return Ok(&text[2..]);
    }
    fold_unit(units, text[0])?;
    Ok(&text[1..])
}

/// The character of the pair of surrogates that a text begins with.
fn leading_pair(text: &[u16]) -> Option<char>
    ensures character { let high = slice_index text.now 0 in
        let low = slice_index text.now 1 in
        result ≡ (if is_high_surrogate high && is_low_surrogate low then Some (surrogate_pair_char high low) else None) }
    ensures long { OnSome result (2 ≤ length text.now) }
{
    match text {
        [high, low, ..] => paired(*high, *low),
        _ => None,
    }
}

/// The character of a pair of surrogates.
fn paired(high: u16, low: u16) -> Option<char>
    ensures { result ≡ (if is_high_surrogate high && is_low_surrogate low then Some (surrogate_pair_char high low) else None) }
{
    if 0xD800 <= high && high < 0xDC00 && 0xDC00 <= low && low < 0xE000 {
        let above = (u32::from(high) - 0xD800) * 0x400 + (u32::from(low) - 0xDC00);
        char::from_u32(0x1_0000 + above)
    } else {
        None
    }
}

fn fold_unit(units: &mut Units, unit: u16) -> Result<(), NoMemory>
    ensures { OnOk result (units.new ≡ units.old ++ folded_unit unit) }
{
    match char::from_u32(u32::from(unit)) {
        Some(character) => fold_character(units, character),
        None => units.push(unit),
    }
}

fn fold_character(units: &mut Units, character: char) -> Result<(), NoMemory>
    ensures { OnOk result (units.new ≡ units.old ++ folded_char character) }
{
    for part in iter::once(character).default_case_fold() {
        units.push_character(part)?;
    }
    Ok(())
}

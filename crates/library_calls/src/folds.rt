// Texts that begin with a slice that folds to a case fold.
ghost use Rattle.std.specs.Prelude.{◌≡◌, ◌<◌, ◌≤◌, length, IfOk};
ghost use Rattle.std.specs.Option.{option_copied};
ghost use Rattle.vba_base.specs.Fold.{folded};
ghost use Rattle.vba_lib.specs.Searching.{begins_with_fold};
ghost use Rattle.library_calls.specs.View.{behind_fold, ends_inside, first_size};

use std::alloc::Global;
use vba_base::{NoMemory, name_of};

/// Whether some slice that the units begin with folds to the fold. A slice may end inside of a pair of surrogates.
pub fn begins_with_fold(alloc: Global, fold: &[u16], units: &[u16]) -> Result<bool, NoMemory>
    ensures { IfOk result (λ begins. begins ≡ begins_with_fold fold.now units.now) }
{
    let mut left = fold;
    let mut rest = units;
    while !left.is_empty() && !rest.is_empty() {
        let (character, behind) = rest.split_at(first_size(rest));
        if ends_inside(left, character) {
            return Ok(true);
        }
        match behind_fold(alloc, left, character)? {
            Some(fold) => left = fold,
            None => return Ok(false),
        }
        rest = behind;
    }
    Ok(left.is_empty())
}

/// How many units the first character has.
fn first_size(units: &[u16]) -> usize
    requires { 0 < length units.now }
    ensures value { result ≡ first_size units.now }
    ensures within { result ≤ length units.now }
{
    match units {
        [0xD800..=0xDBFF, 0xDC00..=0xDFFF, ..] => 2,
        _ => 1,
    }
}

/// Whether the fold is that of the first half of a pair of surrogates.
fn ends_inside(fold: &[u16], character: &[u16]) -> bool
    ensures { result ≡ ends_inside fold.now character.now }
{
    match (fold, character) {
        ([unit], [high, _]) => unit == high,
        _ => false,
    }
}

/// What is left of a fold behind that of a character, where it begins with it.
fn behind_fold<'a>(
    alloc: Global,
    fold: &'a [u16],
    character: &[u16],
) -> Result<Option<&'a [u16]>, NoMemory>
    ensures { IfOk result (λ left. option_copied left ≡ behind_fold fold.now (folded character.now)) }
{
    let first = name_of(alloc, character)?;
    let first = first.units();
    if fold.starts_with(first) {
        Ok(Some(&fold[first.len()..]))
    } else {
        Ok(None)
    }
}

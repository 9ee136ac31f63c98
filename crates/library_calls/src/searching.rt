// Texts inside of texts.
ghost use Rattle.std.specs.Prelude.{◌≡◌, ◌<◌, ◌≤◌, ◌+◌, length, IfOk, Ok};
ghost use Rattle.vba_base.specs.Answer.{Gives};
ghost use Rattle.vba_lib.specs.Searching.{begins_with_fold, chosen, compared, first_place, in_str, in_str_by, in_str_from, place_of, stands, str_comp, str_comp_by};
ghost use Rattle.vba_values.specs.Comparison.{compare_texts};
ghost use Rattle.vba_values.specs.View.{view};

use crate::arguments::{Answer, INVALID_CALL, long_answer, long_argument, text_argument};
use crate::folds::begins_with_fold;
use std::alloc::Global;
use std::cmp::Ordering;
use vba_base::{NoMemory, name_of};
use vba_values::{Compare, Value};

/// The first place at which a text stands in another one, and 0 where it stands nowhere. Places count from 1.
pub fn in_str(alloc: Global, compare: Compare, value: &Value, sought: &Value) -> Answer
    ensures { Gives view result (in_str compare (view value.now) (view sought.now)) }
{
    let units = text_argument(alloc, value)?;
    let text = text_argument(alloc, sought)?;
    place_of(alloc, compare, 1, units.units(), text.units())
}

/// The same from a place on. A start below 1 raises 5.
pub fn in_str_from(
    alloc: Global,
    compare: Compare,
    start: &Value,
    value: &Value,
    sought: &Value,
) -> Answer
    ensures { Gives view result (in_str_from compare (view start.now) (view value.now) (view sought.now)) }
{
    let place = long_argument(alloc, start)?;
    let units = text_argument(alloc, value)?;
    let text = text_argument(alloc, sought)?;
    place_of(alloc, compare, place, units.units(), text.units())
}

/// The same, by units where `by` is 0, by case folds where it is 1, and else as the module says.
pub fn in_str_by(
    alloc: Global,
    compare: Compare,
    start: &Value,
    value: &Value,
    sought: &Value,
    by: &Value,
) -> Answer
    ensures { Gives view result (in_str_by compare (view start.now) (view value.now) (view sought.now) (view by.now)) }
{
    let place = long_argument(alloc, start)?;
    let units = text_argument(alloc, value)?;
    let text = text_argument(alloc, sought)?;
    let number = long_argument(alloc, by)?;
    place_of(
        alloc,
        chosen(compare, number),
        place,
        units.units(),
        text.units(),
    )
}

/// How texts compare by a compare argument.
fn chosen(compare: Compare, number: i32) -> Compare
    ensures { result ≡ chosen compare number }
{
    match number {
        0 => Compare::Binary,
        1 => Compare::Folded,
        _ => compare,
    }
}

fn place_of(alloc: Global, compare: Compare, start: i32, units: &[u16], sought: &[u16]) -> Answer
    ensures { Gives view result (place_of compare start units.now sought.now) }
{
    let Ok(before) = u32::try_from(i64::from(start) - 1) else {
        return Err(INVALID_CALL);
    };
    let rest = units.get(before as usize..).unwrap_or(&[]);
    let place = before as usize + 1;
    match compare {
        Compare::Binary => long_answer(first_place(sought, place, rest)),
        Compare::Folded => long_answer(first_folded_place(alloc, sought, place, rest)?),
    }
}

/// The first place at which the sought units stand, where the first unit has the place that is given.
pub fn first_place(sought: &[u16], place: usize, units: &[u16]) -> usize
    requires { place ≤ 4294967296 }
    ensures value { result ≡ first_place (stands Compare.Binary sought.now) place units.now }
    ensures within { 0 < result → (place ≤ result) × (result + length sought.now ≤ place + length units.now) }
{
    let mut rest = units;
    let mut place = place;
    while let [_, behind @ ..] = rest {
        if rest.starts_with(sought) {
            return place;
        }
        rest = behind;
        place += 1;
    }
    0
}

/// The same by case folds.
fn first_folded_place(
    alloc: Global,
    sought: &[u16],
    place: usize,
    units: &[u16],
) -> Result<usize, NoMemory>
    requires { place ≤ 4294967296 }
    ensures { IfOk result (λ found. found ≡ first_place (stands Compare.Folded sought.now) place units.now) }
{
    let fold = name_of(alloc, sought)?;
    let mut rest = units;
    let mut place = place;
    while let [_, behind @ ..] = rest {
        if begins_with_fold(alloc, fold.units(), rest)? {
            return Ok(place);
        }
        rest = behind;
        place += 1;
    }
    Ok(0)
}

/// -1, 0 or 1 as one text is less than another, equal or greater.
pub fn str_comp(alloc: Global, compare: Compare, left: &Value, right: &Value) -> Answer
    ensures { Gives view result (str_comp compare (view left.now) (view right.now)) }
{
    let left = text_argument(alloc, left)?;
    let right = text_argument(alloc, right)?;
    compared(alloc, compare, left.units(), right.units())
}

/// The same, by units where `by` is 0, by case folds where it is 1, and else as the module says.
pub fn str_comp_by(
    alloc: Global,
    compare: Compare,
    left: &Value,
    right: &Value,
    by: &Value,
) -> Answer
    ensures { Gives view result (str_comp_by compare (view left.now) (view right.now) (view by.now)) }
{
    let left = text_argument(alloc, left)?;
    let right = text_argument(alloc, right)?;
    let number = long_argument(alloc, by)?;
    compared(alloc, chosen(compare, number), left.units(), right.units())
}

fn compared(alloc: Global, compare: Compare, left: &[u16], right: &[u16]) -> Answer
    ensures { Gives view result (Ok (compared compare left.now right.now)) }
{
    let order = match compare {
        Compare::Binary => left.cmp(&right),
        Compare::Folded => compare_folded(alloc, left, right)?,
    };
    Ok(Value::Integer(match order {
        Ordering::Less => -1,
        Ordering::Equal => 0,
        Ordering::Greater => 1,
    }))
}

fn compare_folded(alloc: Global, left: &[u16], right: &[u16]) -> Result<Ordering, NoMemory>
    ensures { IfOk result (λ order. order ≡ compare_texts Compare.Folded left.now right.now) }
{
    let left = name_of(alloc, left)?;
    let right = name_of(alloc, right)?;
    Ok(left.units().cmp(&right.units()))
}

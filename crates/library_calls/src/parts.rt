// Texts cut at separators.
ghost use Rattle.std.specs.Prelude.{◌≡◌, ◌<◌, ◌≤◌, ◌∷◌, ◌++◌, [], length, MatchOption, IfSome};
ghost use Rattle.vba_base.specs.Answer.{Gives};
ghost use Rattle.vba_lib.specs.Arguments.{text_answer};
ghost use Rattle.vba_lib.specs.Searching.{joined_by, parts, replace, replaced};
ghost use Rattle.library_calls.specs.View.{Extends};
ghost use Rattle.vba_values.specs.View.{view};

use crate::arguments::{Answer, LONGEST_TEXT, TEXT_TOO_LONG, text_answer, text_argument};
use crate::searching::first_place;
use std::alloc::Global;
use vba_base::{OrMemory, Units};
use vba_values::{Bad, Value};

/// What stands before the first separator in a text, and what stands behind it. None where there is none.
pub fn cut<'a>(separator: &[u16], units: &'a [u16]) -> Option<(&'a [u16], &'a [u16])>
    requires { 0 < length separator.now }
    ensures parts { MatchOption result (parts separator.now units.now ≡ units.now ∷ []) (λ found. parts separator.now units.now ≡ found.0.now ∷ parts separator.now found.1.now) }
    ensures shorter { IfSome result (λ found. length found.1.now < length units.now) }
{
    let place = first_place(separator, 1, units);
    if place == 0 {
        return None;
    }
    let before = place - 1;
    Some((&units[..before], &units[before + separator.len()..]))
}

/// A text with each find from the left replaced by the new text. An empty find changes nothing.
pub fn replace(alloc: Global, value: &Value, find: &Value, new: &Value) -> Answer
    ensures { Gives view result (replace (view value.now) (view find.now) (view new.now)) }
{
    let units = text_argument(alloc, value)?;
    let find = text_argument(alloc, find)?;
    let new = text_argument(alloc, new)?;
    replaced(alloc, units.units(), find.units(), new.units())
}

fn replaced(alloc: Global, units: &[u16], find: &[u16], new: &[u16]) -> Answer
    ensures { Gives view result (text_answer (replaced find.now new.now units.now)) }
{
    if find.is_empty() {
        return text_answer(alloc, units);
    }
    joined_parts(alloc, units, find, new)
}

#[tactic(auto, using(crate::proofs::PartsLaws::joined_cut))]
fn joined_parts(alloc: Global, units: &[u16], find: &[u16], new: &[u16]) -> Answer
    requires { 0 < length find.now }
    ensures { Gives view result (text_answer (joined_by new.now (parts find.now units.now))) }
{
    let mut text = Units::new(alloc);
    let mut rest = units;
    while let Some((part, behind)) = cut(find, rest) {
        extend_by_both(&mut text, part, new)?;
        rest = behind;
    }
    extend(&mut text, rest)?;
    Ok(Value::Text(text))
}

/// Adds units, and then other ones, to a text that doesn't get too long by them.
pub fn extend_by_both(text: &mut Units, first: &[u16], second: &[u16]) -> Result<(), OrMemory<Bad>>
    requires { length text.old ≤ 16777216 }
    ensures { Extends result text.old (first.now ++ second.now) text.new }
{
    extend(text, first)?;
    extend(text, second)
}

/// Adds units to a text that doesn't get too long by them.
pub fn extend(text: &mut Units, units: &[u16]) -> Result<(), OrMemory<Bad>>
    requires { length text.old ≤ 16777216 }
    ensures { Extends result text.old units.now text.new }
{
    if text.units().len() + units.len() > LONGEST_TEXT {
        return Err(TEXT_TOO_LONG);
    }
    text.extend(units)?;
    Ok(())
}

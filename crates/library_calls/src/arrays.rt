// Arrays and their bounds, and the functions that make arrays and texts of one another.
ghost use Rattle.std.specs.Prelude.{◌≡◌, ◌<◌, ◌≤◌, ◌≤ℤ◌, ◌++◌, [], pos, length, map, flat_map, IfOk, IsOk};
ghost use Rattle.vba_base.specs.Answer.{Gives};
ghost use Rattle.vba_lib.specs.Arrays.{array_from, bound_of, join, join_by, join_elements, join_with, l_bound, numbered_bound, split, split_at, split_by, split_parts, texts_of, u_bound};
ghost use Rattle.vba_lib.specs.Searching.{joined_by, parts};
ghost use Rattle.library_calls.specs.View.{Checks, Extends, Pushes, few_values, texts_in};
ghost use Rattle.vba_values.specs.Types as type;
ghost use Rattle.vba_values.specs.Types.{declared};
ghost use Rattle.vba_values.specs.Val.{text};
ghost use Rattle.vba_values.specs.View.{view, views};

use crate::arguments::{Answer, text_argument};
use crate::parts::{cut, extend, extend_by_both};
use std::alloc::Global;
use vba_base::{NoMemory, OrMemory, Units};
use vba_values::{ArrayValue, Bad, Bound, OutKind, VType, Value, copy_value};

/// The most elements of an array.
const MOST_ELEMENTS: usize = 1_048_576;

/// An array would have too many elements.
const TOO_MANY_ELEMENTS: OrMemory<Bad> = OrMemory::Fault(Bad::Outside(OutKind::Elements));

/// Subscript out of range.
const OUT_OF_RANGE: OrMemory<Bad> = OrMemory::Fault(Bad::Raise(9));

/// U+0020, as a separator.
const BLANK: &[u16] = &[0x20];

/// The upper bound of a bound of an array, counted from 1. Without such a bound 9 is raised, without an array 13.
pub fn u_bound(value: &Value, number: i32) -> Answer
    ensures { Gives view result (u_bound (view value.now) number) }
{
    let bound = bound_of(value, number)?;
    Ok(Value::Long(bound.high))
}

/// The lower bound of a bound of an array, counted from 1. Without such a bound 9 is raised, without an array 13.
pub fn l_bound(value: &Value, number: i32) -> Answer
    ensures { Gives view result (l_bound (view value.now) number) }
{
    let bound = bound_of(value, number)?;
    Ok(Value::Long(bound.low))
}

fn bound_of(value: &Value, number: i32) -> Result<Bound, OrMemory<Bad>>
    ensures { Gives (λ bound. bound) result (bound_of (view value.now) number) }
{
    match value {
        Value::Array(array) => numbered_bound(array.bounds.as_slice(), number),
        _ => Err(OrMemory::Fault(Bad::TYPE_MISMATCH)),
    }
}

fn numbered_bound(bounds: &[Bound], number: i32) -> Result<Bound, OrMemory<Bad>>
    ensures { Gives (λ bound. bound) result (numbered_bound bounds.now number) }
{
    let Ok(before) = usize::try_from(i64::from(number) - 1) else {
        return Err(OUT_OF_RANGE);
    };
    match bounds.get(before) {
        Some(bound) => Ok(*bound),
        None => Err(OUT_OF_RANGE),
    }
}

/// An array of copies of these values, from a lower bound of 0 or 1 on.
pub fn array(alloc: Global, base: i32, values: &[Value]) -> Answer
    requires least { pos 0 ≤ℤ base }
    requires greatest { base ≤ℤ pos 1 }
    ensures { Gives view result (array_from base type.variant (map view values.now)) }
{
    if values.len() > MOST_ELEMENTS {
        return Err(TOO_MANY_ELEMENTS);
    }
    let values = copies(alloc, values)?;
    array_from(alloc, base, VType::Variant, values)
}

fn copies(alloc: Global, values: &[Value]) -> Result<Vec<Value>, NoMemory>
    ensures { IfOk result (λ copies. map view copies.items ≡ map view values.now) }
{
    let mut copies = Vec::with_capacity(alloc, values.len())?;
    for value in values {
        copies.push(copy_value(alloc, value)?)?;
    }
    Ok(copies)
}

/// An array that has these values.
fn array_from(alloc: Global, low: i32, element: VType, values: Vec<Value>) -> Answer
    requires least { pos 0 ≤ℤ low }
    requires greatest { low ≤ℤ pos 1 }
    ensures { Gives view result (array_from low (declared element) (map view values.items)) }
{
    if values.len() > MOST_ELEMENTS {
        return Err(TOO_MANY_ELEMENTS);
    }
    let high = low + values.len() as i32 - 1;
    let bounds = Vec::from_slice(alloc, &[Bound { low, high }])?;
    let array = ArrayValue {
        bounds,
        element,
        items: values,
    };
    Ok(Value::Array(Box::new(alloc, array)?))
}

/// The parts of a text between blanks.
pub fn split(alloc: Global, value: &Value) -> Answer
    ensures { Gives view result (split (view value.now)) }
{
    let text = text_argument(alloc, value)?;
    split_by(alloc, BLANK, text.units())
}

/// The parts of a text between separators.
pub fn split_at(alloc: Global, value: &Value, separator: &Value) -> Answer
    ensures { Gives view result (split_at (view value.now) (view separator.now)) }
{
    let text = text_argument(alloc, value)?;
    let by = text_argument(alloc, separator)?;
    split_by(alloc, by.units(), text.units())
}

fn split_by(alloc: Global, separator: &[u16], units: &[u16]) -> Answer
    ensures { Gives view result (split_by separator.now units.now) }
{
    let texts = split_texts(alloc, separator, units)?;
    array_from(alloc, 0, VType::Text, texts)
}

fn split_texts(alloc: Global, separator: &[u16], units: &[u16]) -> Result<Vec<Value>, OrMemory<Bad>>
    ensures { Gives (λ texts. map view texts.items) result (few_values (map text (split_parts separator.now units.now))) }
{
    if units.is_empty() {
        return Ok(Vec::new(alloc));
    }
    let mut texts = Vec::new(alloc);
    if separator.is_empty() {
        texts.push(text_value(alloc, units)?)?;
        return Ok(texts);
    }
    push_parts(alloc, &mut texts, separator, units)?;
    Ok(texts)
}

fn text_value(alloc: Global, units: &[u16]) -> Result<Value, NoMemory>
    ensures { IfOk result (λ value. view value ≡ text units.now) }
{
    Ok(Value::Text(Units::from_units(alloc, units)?))
}

/// Adds the parts of a text as values, unless they are too many.
fn push_parts(
    alloc: Global,
    texts: &mut Vec<Value>,
    separator: &[u16],
    units: &[u16],
) -> Result<(), OrMemory<Bad>>
    requires separator { 0 < length separator.now }
    requires empty { length texts.old.items ≡ 0 }
    ensures { Pushes result (map text (parts separator.now units.now)) (map view texts.new.items) }
{
    let mut rest = units;
    while let Some((part, behind)) = cut(separator, rest) {
        if texts.len() + 1 >= MOST_ELEMENTS {
            return Err(TOO_MANY_ELEMENTS);
        }
        texts.push(text_value(alloc, part)?)?;
        rest = behind;
    }
    texts.push(text_value(alloc, rest)?)?;
    Ok(())
}

/// The elements of an array with one bound, as texts, with blanks between them.
pub fn join(alloc: Global, value: &Value) -> Answer
    ensures { Gives view result (join (view value.now)) }
{
    join_by(alloc, BLANK, value)
}

/// The elements of an array with one bound, as texts, with a separator between them.
pub fn join_with(alloc: Global, value: &Value, separator: &Value) -> Answer
    ensures { Gives view result (join_with (view value.now) (view separator.now)) }
{
    let by = text_argument(alloc, separator)?;
    join_by(alloc, by.units(), value)
}

fn join_by(alloc: Global, separator: &[u16], value: &Value) -> Answer
    ensures { Gives view result (join_by separator.now (view value.now)) }
{
    let Value::Array(array) = value else {
        return Err(OrMemory::Fault(Bad::TYPE_MISMATCH));
    };
    match array.bounds.as_slice() {
        [_] => joined_texts(alloc, separator, array.items.as_slice()),
        _ => Err(OrMemory::Fault(Bad::TYPE_MISMATCH)),
    }
}

#[tactic(auto, using(crate::proofs::JoinLaws::joined_elements))]
fn joined_texts(alloc: Global, separator: &[u16], items: &[Value]) -> Answer
    ensures { Gives view result (join_elements separator.now (views items.now)) }
{
    check_texts(alloc, items)?;
    let mut text = Units::new(alloc);
    append_joined(alloc, &mut text, separator, items)?;
    Ok(Value::Text(text))
}

/// Adds the texts of items to a text without units, with separators between them.
fn append_joined(
    alloc: Global,
    text: &mut Units,
    separator: &[u16],
    items: &[Value],
) -> Result<(), OrMemory<Bad>>
    requires empty { text.old ≡ [] }
    requires texts { IsOk (texts_of (views items.now)) }
    ensures { Extends result [] (joined_by separator.now (texts_in (views items.now))) text.new }
{
    let [first, rest @ ..] = items else {
        return Ok(());
    };
    let first = text_argument(alloc, first)?;
    extend(text, first.units())?;
    append_texts(alloc, text, separator, rest)
}

/// Whether each item has a text. What the first one that has none raises is raised.
fn check_texts(alloc: Global, items: &[Value]) -> Result<(), OrMemory<Bad>>
    ensures { Checks result (texts_of (views items.now)) }
{
    let mut rest = items;
    while let [item, behind @ ..] = rest {
        text_argument(alloc, item)?;
        rest = behind;
    }
    Ok(())
}

/// Adds the texts of items to a text, each with the separator before it.
fn append_texts(
    alloc: Global,
    text: &mut Units,
    separator: &[u16],
    items: &[Value],
) -> Result<(), OrMemory<Bad>>
    requires short { length text.old ≤ 16777216 }
    requires texts { IsOk (texts_of (views items.now)) }
    ensures { Extends result text.old (flat_map (λ next. separator.now ++ next) (texts_in (views items.now))) text.new }
{
    let mut rest = items;
    while let [item, behind @ ..] = rest {
        let next = text_argument(alloc, item)?;
        extend_by_both(text, separator, next.units())?;
        rest = behind;
    }
    Ok(())
}

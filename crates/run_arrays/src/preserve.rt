// ReDim Preserve.
ghost use Rattle.std.specs.Prelude.{◌≡◌, IfOk, OnOk, map, option_map, true};
ghost use Rattle.arrays_udt.specs.Fresh.{initial};
ghost use Rattle.arrays_udt.specs.Shapes.{elements};
ghost use Rattle.arrays_udt.specs.Resize.{are_last, cut_or_filled, is_resize, resized};
ghost use Rattle.bound_project.specs.Project.{types_of};
ghost use Rattle.bound_project.specs.View.{declarations_view, declared_view};
ghost use Rattle.vba_values.specs.Types as type;
ghost use Rattle.vba_values.specs.Types.{declared as type_view};
ghost use Rattle.vba_values.specs.Val.{array as array_val, empty};
ghost use Rattle.vba_values.specs.View.{array_view, view, views};
ghost use Rattle.vba_meaning.specs.Memory.{Memory as PlainMemory};
ghost use Rattle.vba_meaning.specs.Arrays.{element_type, preserved, resized_array};
ghost use Rattle.run_memory.specs.Acts.{Acts};

use crate::fresh::{add_copies, array_of, initial, new_array};
use crate::numbers::count_elements;
use bound_project::{Declarations, DeclaredType};
use std::alloc::Global;
use vba_base::{NoMemory, OrMemory};
use vba_values::{ArrayValue, Bad, Bound, VType, Value, copy_type, copy_value, is_same_type};

/// The array that is there keeps its elements.
pub fn preserved(
    alloc: Global,
    declared: &Declarations,
    written: Option<DeclaredType>,
    bounds: &[Bound],
    value: &Value,
) -> Result<Value, OrMemory<Bad>>
    ensures { (m : PlainMemory) → Acts view result m
        (preserved (declarations_view declared.now) (option_map declared_view written) bounds.now (view value.now) m) }
{
    match value {
        Value::Array(array) => preserved_array(alloc, declared, written, bounds, array),
        Value::Empty
        | Value::Null
        | Value::Missing
        | Value::Boolean(_)
        | Value::Byte(_)
        | Value::Integer(_)
        | Value::Long(_)
        | Value::LongLong(_)
        | Value::Currency(_)
        | Value::Text(_)
        | Value::Object(_)
        | Value::Udt(_) => Err(OrMemory::Fault(Bad::Raise(13))),
    }
}

#[tactic(auto, using(run_memory::proofs::Refused::refused_then))]
fn preserved_array(
    alloc: Global,
    declared: &Declarations,
    written: Option<DeclaredType>,
    bounds: &[Bound],
    array: &ArrayValue,
) -> Result<Value, OrMemory<Bad>>
    ensures { (m : PlainMemory) → Acts view result m
        (preserved (declarations_view declared.now) (option_map declared_view written) bounds.now (array_view array.now) m) }
{
    is_of_type(alloc, &array.element, written)?;
    let bounds_there = array.bounds.as_slice();
    let items = array.items.as_slice();
    let value = resized_array(alloc, declared, bounds, bounds_there, &array.element, items)?;
    Ok(value)
}

/// The type of an array's elements, which another one that is written doesn't change.
#[tactic(auto, using(run_memory::proofs::Refused::refused_then))]
pub fn element_of_array(
    alloc: Global,
    element: &VType,
    written: Option<DeclaredType>,
) -> Result<VType, OrMemory<Bad>>
    ensures { (m : PlainMemory) → Acts type_view result m (element_type (type.array_of (type_view element.now)) (option_map declared_view written) m) }
{
    is_of_type(alloc, element, written)?;
    Ok(copy_type(alloc, element)?)
}

/// A type that is written for the elements of an array is theirs.
fn is_of_type(
    alloc: Global,
    element: &VType,
    written: Option<DeclaredType>,
) -> Result<(), OrMemory<Bad>>
    ensures { (m : PlainMemory) → Acts (λ done. type_view element.now) result m
        (element_type (type.array_of (type_view element.now)) (option_map declared_view written) m) }
{
    if let Some(written) = written {
        let written = written.value_type(alloc)?;
        if !is_same_type(element, &written) {
            return Err(OrMemory::Fault(Bad::Raise(13)));
        }
    }
    Ok(())
}

/// An array with new bounds: 9 where more than the last upper bound would differ; one without storage gets new
/// elements.
fn resized_array(
    alloc: Global,
    declared: &Declarations,
    bounds: &[Bound],
    old: &[Bound],
    element: &VType,
    items: &[Value],
) -> Result<Value, OrMemory<Bad>>
    ensures { (m : PlainMemory) → Acts view result m
        (resized_array (declarations_view declared.now) bounds.now old.now (type_view element.now) (views items.now) m) }
{
    match old {
        [] => Ok(new_array(alloc, declared, bounds, element)?),
        [_, ..] => {
            if !is_resize(old, bounds) {
                return Err(OrMemory::Fault(Bad::Raise(9)));
            }
            Ok(resized(alloc, declared, bounds, old, element, items)?)
        }
    }
}

/// What stood at a place stays there; a place that is new has the first value of the element type.
fn resized(
    alloc: Global,
    declared: &Declarations,
    bounds: &[Bound],
    old: &[Bound],
    element: &VType,
    items: &[Value],
) -> Result<Value, NoMemory>
    requires { is_resize old.now bounds.now ≡ true }
    ensures { IfOk result (λ value. view value ≡ resized bounds.now (initial (types_of (declarations_view declared.now)) (type_view element.now))
        (array_val old.now (type_view element.now) (views items.now))) }
{
    let first = initial(alloc, declared, element)?;
    let kept = kept_items(alloc, bounds, old, &first, items)?;
    let array = array_of(alloc, bounds, element, kept)?;
    Ok(array)
}

/// The items of the old places, Empty where there are too few, cut off or filled up to those of the new places.
fn kept_items(
    alloc: Global,
    bounds: &[Bound],
    old: &[Bound],
    first: &Value,
    items: &[Value],
) -> Result<Vec<Value>, NoMemory>
    ensures { IfOk result (λ kept. map view kept.items
        ≡ cut_or_filled (elements bounds.now) (cut_or_filled (elements old.now) (map view items.now) empty) (view first.now)) }
{
    let Some(before) = count_elements(old) else {
        return Err(NoMemory);
    };
    let Some(count) = count_elements(bounds) else {
        return Err(NoMemory);
    };
    let mut kept = copies(alloc, items)?;
    cut_or_fill(alloc, &mut kept, before, &Value::Empty)?;
    cut_or_fill(alloc, &mut kept, count, first)?;
    Ok(kept)
}

fn copies(alloc: Global, items: &[Value]) -> Result<Vec<Value>, NoMemory>
    ensures { IfOk result (λ copies. map view copies.items ≡ map view items.now) }
{
    let mut copies = Vec::with_capacity(alloc, items.len())?;
    for item in items {
        copies.push(copy_value(alloc, item)?)?;
    }
    Ok(copies)
}

/// Items become so many: some are cut off, or copies of another item are added.
fn cut_or_fill(
    alloc: Global,
    items: &mut Vec<Value>,
    count: usize,
    item: &Value,
) -> Result<(), NoMemory>
    ensures { OnOk result (map view items.new.items ≡ cut_or_filled count (map view items.old.items) (view item.now)) }
{
    let before = items.len();
    if count < before {
        items.truncate(count);
        return Ok(());
    }
    add_copies(alloc, items, count - before, item)
}

/// Whether bounds differ at most in the last upper bound.
fn is_resize(old: &[Bound], new: &[Bound]) -> bool
    ensures { result ≡ is_resize old.now new.now }
{
    match old {
        [] => false,
        [first, olds @ ..] => match new {
            [] => false,
            [other, news @ ..] => {
                if first.low != other.low {
                    return false;
                }
                if are_last(olds, news) {
                    return true;
                }
                first.high == other.high && is_resize(olds, news)
            }
        },
    }
}

fn are_last(olds: &[Bound], news: &[Bound]) -> bool
    ensures { result ≡ are_last olds.now news.now }
{
    match olds {
        [] => match news {
            [] => true,
            [_, ..] => false,
        },
        [_, ..] => false,
    }
}

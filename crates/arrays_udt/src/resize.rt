ghost use Rattle.std.specs.Prelude.{◌≡◌, true, map, OnOk, OnErr};
ghost use Rattle.vba_values.specs.Types.{declared};
ghost use Rattle.vba_values.specs.View.{array_view, view};
ghost use Rattle.arrays_udt.specs.Fields.{AreTypes, is_known, types_of};
ghost use Rattle.arrays_udt.specs.Fresh.{initial};
ghost use Rattle.arrays_udt.specs.Resize.{IsWhole, Resizes, cut_or_filled, are_last, element_type, is_resize};
ghost use Rattle.arrays_udt.specs.Shapes.{elements};

use crate::initial::add_fresh;
use crate::shape::{Shape, count_elements};
use crate::udt::UdtType;
use std::alloc::Global;
use vba_base::{NoMemory, OrMemory};
use vba_values::{ArrayValue, Bad, Bound, VType, Value};

/// ReDim Preserve: gives an array new bounds. What stood at a place stays there; a place that is new has the initial value
/// of the element type. Subscript out of range (9) where the bounds differ in more than the last upper bound; then, and
/// without memory, nothing changes.
pub fn resize_kept(
    alloc: Global,
    array: &mut ArrayValue,
    shape: &Shape,
    types: &Vec<UdtType>,
) -> Result<(), OrMemory<Bad>>
    requires whole { IsWhole (array_view array.old) }
    requires types { AreTypes (types_of types.now.items) }
    requires known { is_known (types_of types.now.items) (element_type (array_view array.old)) ≡ true }
    ensures { Resizes result shape.now (initial (types_of types.now.items) (element_type (array_view array.old))) (array_view array.old) (array_view array.new) }
{
    if !is_resize(array.bounds.as_slice(), shape.bounds()) {
        return Err(OrMemory::Fault(Bad::Raise(9)));
    }
    let bounds = Vec::from_slice(alloc, shape.bounds())?;
    let Some(count) = count_elements(shape.bounds()) else {
        unreachable!();
    };
    resize_items(
        alloc,
        &mut array.items,
        count as usize,
        &array.element,
        types,
    )?;
    array.bounds = bounds;
    Ok(())
}

/// Cuts items off, or adds initial values. Without memory the items stay as they were.
fn resize_items(
    alloc: Global,
    items: &mut Vec<Value>,
    count: usize,
    element: &VType,
    types: &Vec<UdtType>,
) -> Result<(), NoMemory>
    requires types { AreTypes (types_of types.now.items) }
    requires known { is_known (types_of types.now.items) (declared element.now) ≡ true }
    ensures sized { OnOk result (map view items.new.items ≡ cut_or_filled count (map view items.old.items) (initial (types_of types.now.items) (declared element.now))) }
    ensures same { OnErr result (items.new.items ≡ items.old.items) }
{
    let before = items.len();
    if count < before {
        items.truncate(count);
        return Ok(());
    }
    add_fresh(alloc, items, count - before, element, types)
}

fn is_resize(old: &[Bound], new: &[Bound]) -> bool
    ensures { result ≡ is_resize old.now new.now }
{
    match old {
        [] => false,
        [first, olds @ ..] => match new {
            [] => false,
            [other, news @ ..] => {
                if first.low != other.low {
                    return false;
                }
                if are_last(olds, news) {
                    return true;
                }
                first.high == other.high && is_resize(olds, news)
            }
        },
    }
}

fn are_last(olds: &[Bound], news: &[Bound]) -> bool
    ensures { result ≡ are_last olds.now news.now }
{
    match olds {
        [] => match news {
            [] => true,
            [_, ..] => false,
        },
        [_, ..] => false,
    }
}

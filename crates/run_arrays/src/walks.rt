// What the For Each of a header walks.
ghost use Rattle.std.specs.Prelude.{◌≡◌, ◌<◌, ◌≤◌, [], ◌∷◌, IfOk, OnOk, length, map, option_map, slice_get, true};
ghost use Rattle.vba_values.specs.declared.object.HostRef.TheVariants.{Sheets};
ghost use Rattle.vba_values.specs.declared.object.ObjRef.TheVariants.{Host};
ghost use Rattle.vba_values.specs.Val.{object};
ghost use Rattle.vba_values.specs.View.{view};
ghost use Rattle.arrays_udt.specs.declared.paths.PathStep.TheVariants.{Element};
ghost use Rattle.arrays_udt.specs.Paths.{path_value};
ghost use Rattle.vba_meaning.specs.Arrays.{item_of};
ghost use Rattle.vba_meaning.specs.Memory.{found, object_at, put, top, with_top};
ghost use Rattle.run_memory.specs.Keeps.{is_kept, place_in};
ghost use Rattle.run_memory.specs.View.{kept_at_view, kept_view, memory_view};
ghost use Rattle.run_arrays.specs.Walks.{cell_at, item_walked, rewalked, walk_of, walk_set, walks_set};

use crate::exchange::inner_value;
use arrays_udt::PathStep;
use run_memory::{Kept, Memory};
use std::alloc::Global;
use vba_base::NoMemory;
use vba_values::{HostRef, ObjRef, Value, copy_value};

/// Whether the loop of a header counts as begun, and the number of its next item, where it walks something.
pub fn walk_at(memory: &Memory, header: u32) -> Option<(bool, usize)>
    ensures walk { result ≡ walk_of (found (top (memory_view memory.now)).keeps header) }
{
    if !memory.stands {
        return None;
    }
    match memory.top.kept(header) {
        Some(
            Kept::Walk {
                is_begun,
                value: _,
                next,
            },
        ) => Some((*is_begun, *next)),
        _ => None,
    }
}

/// The next item of the loop of a header, where there is a further one.
pub fn item_walked(memory: &Memory, alloc: Global, header: u32) -> Result<Option<Value>, NoMemory>
    ensures { IfOk result (λ item. option_map view item ≡ item_walked (found (top (memory_view memory.now)).keeps header) (memory_view memory.now)) }
{
    if !memory.stands {
        return Ok(None);
    }
    match memory.top.kept(header) {
        Some(
            Kept::Walk {
                is_begun: _,
                value,
                next,
            },
        ) => item_of(memory, alloc, value, *next),
        _ => Ok(None),
    }
}

/// An item of what is walked, where there is one: of the sheets a sheet, of a range a cell by rows, of an array an
/// element, of a Collection that which it has now.
fn item_of(
    memory: &Memory,
    alloc: Global,
    value: &Value,
    number: usize,
) -> Result<Option<Value>, NoMemory>
    ensures { IfOk result (λ item. option_map view item ≡ item_of (view value.now) number (memory_view memory.now)) }
{
    match value {
        Value::Object(ObjRef::Host(HostRef::Sheets)) => Ok(sheet_item(memory, number)),
        Value::Object(
            ObjRef::Host(
                HostRef::Area {
                    sheet,
                    top,
                    left,
                    rows,
                    columns,
                },
            ),
        ) => cell_item(*sheet, *top, *left, *rows, *columns, number),
        Value::Object(ObjRef::Heap(id)) => collection_item(memory, alloc, id.0, number),
        _ => element_item(alloc, value, number),
    }
}

/// A sheet of the book, counted from 0.
fn sheet_item(memory: &Memory, number: usize) -> Option<Value>
    ensures { option_map view result ≡ item_of (object (Host Sheets)) number (memory_view memory.now) }
{
    if memory.book.sheets() as usize <= number {
        return None;
    }
    let sheet = number as u32 + 1;
    Some(Value::Object(ObjRef::Host(HostRef::Sheet { sheet })))
}

/// A cell of an area, counted by rows from 0.
fn cell_item(
    sheet: u32,
    top: u32,
    left: u32,
    rows: u32,
    columns: u32,
    number: usize,
) -> Result<Option<Value>, NoMemory>
    ensures { IfOk result (λ item. option_map view item ≡ cell_at sheet top left rows columns number) }
{
    let number = number as u64;
    let columns = u64::from(columns);
    if u64::from(rows) * columns <= number {
        return Ok(None);
    }
    let (Ok(top), Ok(left)) = (
        u32::try_from(u64::from(top) + number / columns),
        u32::try_from(u64::from(left) + number % columns),
    ) else {
        return Err(NoMemory);
    };
    Ok(Some(Value::Object(ObjRef::Host(HostRef::Area {
        sheet,
        top,
        left,
        rows: 1,
        columns: 1,
    }))))
}

/// An item of a Collection, counted from 0.
fn collection_item(
    memory: &Memory,
    alloc: Global,
    object: u32,
    number: usize,
) -> Result<Option<Value>, NoMemory>
    ensures { IfOk result (λ item. option_map view item ≡ slice_get (object_at (memory_view memory.now) object).fields number) }
{
    match memory.instance_value(object, number) {
        Some(item) => Ok(Some(copy_value(alloc, item)?)),
        None => Ok(None),
    }
}

/// An element of an array, counted from 0.
fn element_item(alloc: Global, value: &Value, number: usize) -> Result<Option<Value>, NoMemory>
    ensures { IfOk result (λ item. option_map view item ≡ path_value (view value.now) (Element number ∷ [])) }
{
    let steps = [PathStep::Element(number)];
    match inner_value(value, &steps) {
        Some(item) => Ok(Some(copy_value(alloc, item)?)),
        None => Ok(None),
    }
}

/// A block of the frame that runs keeps something else.
#[tactic(auto, using(run_memory::proofs::Exchanged::with_top))]
pub fn keep_at_top(
    memory: &mut Memory,
    alloc: Global,
    header: u32,
    kept: Kept,
) -> Result<(), NoMemory>
    ensures { OnOk result (memory_view memory.new ≡ with_top (memory_view memory.old) (record (top (memory_view memory.old)) {
      keeps = put header (kept_view kept) (top (memory_view memory.old)).keeps;
    })) }
{
    memory.stand(alloc);
    let below = memory.below();
    memory.put_kept_at(below, header, kept)
}

/// The loop of a header counts as begun or not, and has another next item; what it walks stays.
pub fn set_walk(
    memory: &mut Memory,
    alloc: Global,
    header: u32,
    is_begun: bool,
    next: usize,
) -> Result<(), NoMemory>
    requires { memory.old.stands ≡ true }
    ensures { OnOk result (memory_view memory.new
        ≡ walk_set header is_begun next (found (top (memory_view memory.old)).keeps header) (memory_view memory.old)) }
{
    if is_kept(memory.top.keeps.as_slice(), header) {
        rewalk_at(&mut memory.top.keeps, header, is_begun, next);
        return Ok(());
    }
    copy_walk(memory, alloc, header, is_begun, next)
}

/// The same where the headers' numbers don't rise.
fn copy_walk(
    memory: &mut Memory,
    alloc: Global,
    header: u32,
    is_begun: bool,
    next: usize,
) -> Result<(), NoMemory>
    requires { memory.old.stands ≡ true }
    ensures { OnOk result (memory_view memory.new
        ≡ walk_set header is_begun next (found (top (memory_view memory.old)).keeps header) (memory_view memory.old)) }
{
    let value = match memory.top.kept(header) {
        Some(Kept::Walk { value, .. }) => copy_value(alloc, value)?,
        _ => return Ok(()),
    };
    let walk = Kept::Walk {
        is_begun,
        value,
        next,
    };
    keep_at_top(memory, alloc, header, walk)
}

#[tactic(auto, using(crate::proofs::Walked::walks_at))]
fn rewalk_at(keeps: &mut Vec<(u32, Kept)>, header: u32, is_begun: bool, next: usize)
    requires { is_kept header keeps.old.items ≡ true }
    ensures { map kept_at_view keeps.new.items
        ≡ walks_set header is_begun next (found (map kept_at_view keeps.old.items) header) (map kept_at_view keeps.old.items) }
{
    let place = place_in(keeps.as_slice(), header);
    rewalk(&mut keeps[place].1, is_begun, next);
}

fn rewalk(kept: &mut Kept, is_begun: bool, next: usize)
    ensures { kept_view kept.new ≡ rewalked is_begun next (kept_view kept.old) }
{
    if let Kept::Walk {
        is_begun: begun,
        value: _,
        next: number,
    } = kept
    {
        *begun = is_begun;
        *number = next;
    }
}

/// How many blocks stand before a header.
fn place_in(keeps: &[(u32, Kept)], header: u32) -> usize
    ensures place { result ≡ place_in header keeps.now }
    ensures inside { result ≤ length keeps.now }
    ensures kept { is_kept header keeps.now ≡ true → result < length keeps.now }
{
    match keeps {
        [] => 0,
        [first, keeps @ ..] => if first.0 < header {
            place_in(keeps, header) + 1
        } else {
            0
        },
    }
}

/// Whether a block of a header stands at its place.
fn is_kept(keeps: &[(u32, Kept)], header: u32) -> bool
    ensures { result ≡ is_kept header keeps.now }
{
    match keeps {
        [] => false,
        [first, keeps @ ..] => if first.0 < header {
            is_kept(keeps, header)
        } else {
            first.0 == header
        },
    }
}

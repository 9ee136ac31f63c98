// What values write to areas.
ghost use Rattle.std.specs.Prelude.{◌≡◌, ◌≤◌, ◌<◌, ◌*◌, ◌^◌, ◌-ℤ◌, ◌≤ℤ◌, pos, replicate, IfOk, Ok};
ghost use Rattle.vba_base.specs.Answer.{Gives};
ghost use Rattle.vba_values.specs.View.{view, array_view, views};
ghost use Rattle.sheet_host.specs.Gathered.{gathered};
ghost use Rattle.sheet_host.specs.Writing.{cell_of, cell_at, extent, or_zero, is_large_enough, place_in, given, cells_of};

use crate::area::Area;
use crate::cell::CellValue;
use crate::field::whole_cell;
use crate::moving::HOST_ERROR;
use std::alloc::Global;
use vba_base::{NoMemory, OrMemory, Units};
use vba_values::{ArrayValue, Bad, Bound, Value};

/// The cells by rows that a value writes to an area of at most 4000000 cells. A value fills each cell; a two-dimensional
/// array gives each cell its element from the first of each bound; a one-dimensional one gives each row its elements.
/// Elements that don't fit are ignored. 1004 exactly for an array that is smaller than the area or has other bounds, and
/// where a value or a written element is Missing, an object, an array or a user-defined value.
pub fn cells_of(alloc: Global, value: &Value, area: Area) -> Result<Vec<CellValue>, OrMemory<Bad>>
    requires { area.rows * area.columns ≤ 4000000 }
    ensures { Gives (λ cells. cells.items) result (cells_of (view value.now) area.rows area.columns) }
{
    match value {
        Value::Array(array) => cells_of_array(alloc, array, area),
        _ => {
            let filling = cell_of(alloc, value)?;
            Ok(filled(alloc, &filling, area.rows * area.columns)?)
        }
    }
}

/// What one value writes to a cell. 1004 exactly for Missing, an object, an array and a user-defined value.
pub fn cell_of(alloc: Global, value: &Value) -> Result<CellValue, OrMemory<Bad>>
    ensures { Gives (λ cell. cell) result (cell_of (view value.now)) }
{
    match value {
        Value::Empty | Value::Null => Ok(CellValue::Empty),
        Value::Boolean(truth) => Ok(CellValue::Boolean(*truth)),
        Value::Byte(number) => Ok(whole_cell(i64::from(*number))),
        Value::Integer(number) => Ok(whole_cell(i64::from(*number))),
        Value::Long(number) => Ok(whole_cell(i64::from(*number))),
        Value::LongLong(number) => Ok(whole_cell(*number)),
        Value::Currency(amount) => Ok(CellValue::Currency(*amount)),
        Value::Text(text) => Ok(CellValue::Text(Units::from_units(alloc, text.units())?)),
        Value::Missing | Value::Object(_) | Value::Array(_) | Value::Udt(_) => Err(OrMemory::Fault(
            HOST_ERROR,
        )),
    }
}

fn filled(alloc: Global, filling: &CellValue, count: u32) -> Result<Vec<CellValue>, NoMemory>
    ensures { IfOk result (λ cells. cells.items ≡ replicate count filling.now) }
{
    let mut cells = Vec::with_capacity(alloc, count as usize)?;
    for _ in 0..count {
        cells.push(filling.copy(alloc)?)?;
    }
    Ok(cells)
}

#[tactic(auto, using(crate::proofs::Gathers::some_column))]
fn cells_of_array(
    alloc: Global,
    array: &ArrayValue,
    area: Area,
) -> Result<Vec<CellValue>, OrMemory<Bad>>
    requires { area.rows * area.columns ≤ 4000000 }
    ensures { Gives (λ cells. cells.items) result (cells_of (array_view array.now) area.rows area.columns) }
{
    if !is_large_enough(array.bounds.as_slice(), area.rows, area.columns) {
        return Err(OrMemory::Fault(HOST_ERROR));
    }
    gathered(alloc, array, area.columns, area.rows * area.columns)
}

#[tactic(auto, using(crate::proofs::Gathers::gathered_more, crate::proofs::Gathers::gathered_faults))]
fn gathered(
    alloc: Global,
    array: &ArrayValue,
    columns: u32,
    count: u32,
) -> Result<Vec<CellValue>, OrMemory<Bad>>
    requires few { count ≤ 4000000 }
    requires columns { 0 < count → 0 < columns }
    ensures { Gives (λ cells. cells.items) result (gathered (given array.now.bounds.items (views array.now.items.items) columns) count) }
{
    let mut cells = Vec::with_capacity(alloc, count as usize)?;
    for i in 0..count {
        let place = place_in(array.bounds.as_slice(), i / columns, i % columns);
        let cell = cell_at(alloc, array.items.as_slice(), place)?;
        cells.push(cell)?;
    }
    Ok(cells)
}

/// What the element at a place writes.
#[tactic(auto, using(crate::proofs::Gathers::element_at, crate::proofs::Gathers::no_element))]
fn cell_at(alloc: Global, items: &[Value], place: usize) -> Result<CellValue, OrMemory<Bad>>
    ensures { Gives (λ cell. cell) result (cell_at (views items.now) place) }
{
    match items.get(place) {
        Some(item) => cell_of(alloc, item),
        None => Err(OrMemory::Fault(HOST_ERROR)),
    }
}

/// Whether an array has an element for each cell of so many rows and columns.
fn is_large_enough(bounds: &[Bound], rows: u32, columns: u32) -> bool
    ensures { result ≡ is_large_enough bounds.now rows columns }
{
    match bounds {
        [across] => u64::from(columns) <= extent(*across),
        [down, across] => u64::from(rows) <= extent(*down) && u64::from(columns) <= extent(*across),
        _ => false,
    }
}

/// The place of the element for a row and a column.
fn place_in(bounds: &[Bound], row: u32, column: u32) -> usize
    requires row { row < 4000000 }
    requires column { column < 4000000 }
    ensures { result ≡ place_in bounds.now row column }
{
    match bounds {
        [down, _, ..] => row as usize + column as usize * extent(*down) as usize,
        _ => column as usize,
    }
}

/// How many places a bound has.
fn extent(bound: Bound) -> u64
    ensures extent { result ≡ extent bound }
    ensures small { result ≤ 2 ^ 32 }
{
    or_zero(difference(bound.high, bound.low) + 1)
}

fn difference(high: i32, low: i32) -> i64
    ensures { result ≡ high -ℤ low }
{
    i64::from(high) - i64::from(low)
}

/// A number, or 0 for a negative one.
fn or_zero(number: i64) -> u64
    requires { number ≤ℤ pos (2 ^ 32) }
    ensures number { result ≡ or_zero number }
    ensures small { result ≤ 2 ^ 32 }
{
    match u64::try_from(number) {
        Ok(number) => number,
        Err(_) => 0,
    }
}

// The values of areas.
ghost use Rattle.std.specs.Prelude.{◌≡◌, ◌≤◌, ◌<◌, ◌*◌, map, IfOk, Ok};
ghost use Rattle.vba_base.specs.Answer.{Gives};
ghost use Rattle.vba_values.specs.View.{view};
ghost use Rattle.sheet_host.specs.Books.{IsSheetOf};
ghost use Rattle.sheet_host.specs.Gathered.{firsts};
ghost use Rattle.sheet_host.specs.Reading.{area_value, array_of, cell_value, element_of, from_one, value_of_cell};
ghost use Rattle.sheet_host.specs.Size.{IsAreaInside, IsInside};

use crate::area::{Area, SheetId};
use crate::book::Book;
use crate::cell::CellValue;
use std::alloc::Global;
use vba_base::{NoMemory, OrMemory};
use vba_values::{ArrayValue, Bad, Bound, OutKind, VType, Value};

/// The most elements that an array may have.
const ELEMENTS: u64 = 1_048_576;

/// The value of an area of the book: of one cell its value, of more a Variant array with bounds 1 to rows and 1 to
/// columns. Outside(Elements) exactly for more than 1048576 cells.
pub fn area_value(alloc: Global, book: &Book, area: Area) -> Result<Value, OrMemory<Bad>>
    requires sheet { IsSheetOf book.now area.sheet }
    requires inside { IsAreaInside area }
    ensures { Gives view result (area_value book.now area) }
{
    if area.rows == 1 && area.columns == 1 {
        return Ok(cell_value(book, area.sheet, area.top, area.left)?);
    }
    if u64::from(area.rows) * u64::from(area.columns) > ELEMENTS {
        return Err(OrMemory::Fault(Bad::Outside(OutKind::Elements)));
    }
    Ok(array_of(alloc, book, area)?)
}

fn array_of(alloc: Global, book: &Book, area: Area) -> Result<Value, NoMemory>
    requires sheet { IsSheetOf book.now area.sheet }
    requires inside { IsAreaInside area }
    requires few { area.rows * area.columns ≤ 1048576 }
    ensures { IfOk result (λ value. view value ≡ array_of book.now area) }
{
    let mut bounds = Vec::with_capacity(alloc, 2)?;
    bounds.push(from_one(area.rows))?;
    bounds.push(from_one(area.columns))?;
    let items = elements_of(alloc, book, area)?;
    let array = ArrayValue {
        bounds,
        element: VType::Variant,
        items,
    };
    Ok(Value::Array(Box::new(alloc, array)?))
}

fn from_one(high: u32) -> Bound
    requires { high ≤ 1048576 }
    ensures { result ≡ from_one high }
{
    Bound {
        low: 1,
        high: high as i32,
    }
}

/// The values of an area's cells, column by column.
#[tactic(auto, using(crate::proofs::Gathers::firsts_more, crate::proofs::Gathers::seen_more, crate::proofs::Gathers::cell_inside))]
fn elements_of(alloc: Global, book: &Book, area: Area) -> Result<Vec<Value>, NoMemory>
    requires sheet { IsSheetOf book.now area.sheet }
    requires inside { IsAreaInside area }
    requires few { area.rows * area.columns ≤ 1048576 }
    ensures { IfOk result (λ items. map view items.items ≡ firsts (element_of book.now area) (area.rows * area.columns)) }
{
    let count = area.rows * area.columns;
    let mut items = Vec::with_capacity(alloc, count as usize)?;
    for i in 0..count {
        let row = area.top + i % area.rows;
        let column = area.left + i / area.rows;
        items.push(cell_value(book, area.sheet, row, column)?)?;
    }
    Ok(items)
}

fn cell_value(book: &Book, sheet: SheetId, row: u32, column: u32) -> Result<Value, NoMemory>
    requires sheet { IsSheetOf book.now sheet }
    requires inside { IsInside row column }
    ensures { IfOk result (λ value. view value ≡ cell_value book.now sheet row column) }
{
    match book.get(sheet, row, column) {
        Ok(cell) => Ok(value_of_cell(cell)),
        Err(_) => Err(NoMemory),
    }
}

/// What a cell holds, as a value.
fn value_of_cell(cell: CellValue) -> Value
    ensures { view result ≡ value_of_cell cell }
{
    match cell {
        CellValue::Empty => Value::Empty,
        CellValue::Boolean(truth) => Value::Boolean(truth),
        CellValue::Long(number) => Value::Long(number),
        CellValue::LongLong(number) => Value::LongLong(number),
        CellValue::Currency(amount) => Value::Currency(amount),
        CellValue::Text(text) => Value::Text(text),
    }
}

// What writes cells.
ghost use Rattle.std.specs.Prelude.{◌≡◌, ◌≤◌, ◌*◌, ◌∷◌, [], length};
ghost use Rattle.vba_values.specs.View.{view};
ghost use Rattle.sheet_host.specs.Books.{IsSheetOf};
ghost use Rattle.sheet_host.specs.Size.{IsAreaInside, IsInside};
ghost use Rattle.vba_meaning.specs.Effects.{area_in};
ghost use Rattle.vba_meaning.specs.Host.{area_written, cells_put, value_put};
ghost use Rattle.run_memory.specs.View.{memory_view};
ghost use Rattle.run_host.specs.Members.{is_array, one_put, put_noted};
ghost use Rattle.run_host.specs.Tells.{Tells};
ghost use Rattle.run_host.specs.View.{told_view};

use crate::cell_events::tell_cells;
use crate::events::{Event, Told};
use run_events::noted;
use run_memory::{Memory, has_area};
use sheet_host::{Area, CellValue, SheetId, cell_of, cells_of};
use std::alloc::Global;
use vba_base::OrMemory;
use vba_values::{Bad, OutKind, Value};

/// The most cells that are written in one go.
const CELLS: u64 = 4_000_000;

/// A value is written to the cells of an area. Outside(Cells) for an area of more than 4000000 cells, before the value is
/// looked at, and where the book would have more written ones; an object gives way to its default value. An area that
/// no sheet of the book has, which no run makes, counts as want of memory.
pub fn area_written(
    memory: &mut Memory,
    alloc: Global,
    area: Area,
    value: Value,
    told: &mut Told,
) -> Result<(), OrMemory<Bad>>
    ensures { Tells (λ done. done) result (told_view told.old) (told_view told.new) (memory_view memory.new) (area_written area (view value) (memory_view memory.old)) }
{
    if !has_area(&memory.book, area) {
        return Err(OrMemory::NoMemory);
    }
    if u64::from(area.rows) * u64::from(area.columns) > CELLS {
        return Err(OrMemory::Fault(Bad::Outside(OutKind::Cells)));
    }
    let value = memory.plain(alloc, value)?;
    put_noted(memory, alloc, area, &value, told)
}

/// The cells that a value writes to an area are put there; where all have theirs, Change is to be told.
fn put_noted(
    memory: &mut Memory,
    alloc: Global,
    area: Area,
    value: &Value,
    told: &mut Told,
) -> Result<(), OrMemory<Bad>>
    requires sheet { IsSheetOf (memory_view memory.old).book area.sheet }
    requires inside { IsAreaInside area }
    requires few { area.rows * area.columns ≤ 4000000 }
    ensures { Tells (λ done. done) result (told_view told.old) (told_view told.new) (memory_view memory.new) (put_noted area (view value.now) (memory_view memory.old)) }
{
    value_put(memory, alloc, area, value, told)?;
    noted(memory, area);
    Ok(())
}

/// The cells that a value writes to an area are put there: one cell without a list of them.
fn value_put(
    memory: &mut Memory,
    alloc: Global,
    area: Area,
    value: &Value,
    told: &mut Told,
) -> Result<(), OrMemory<Bad>>
    requires sheet { IsSheetOf (memory_view memory.old).book area.sheet }
    requires inside { IsAreaInside area }
    requires few { area.rows * area.columns ≤ 4000000 }
    ensures { Tells (λ done. done) result (told_view told.old) (told_view told.new) (memory_view memory.new) (value_put area (view value.now) (memory_view memory.old)) }
{
    if area.rows == 1 && area.columns == 1 && !is_array(value) {
        return one_put(memory, alloc, area.sheet, area.top, area.left, value, told);
    }
    let cells = cells_of(alloc, value, area)?;
    cells_put(memory, alloc, area, cells, told)
}

fn is_array(value: &Value) -> bool
    ensures { result ≡ is_array (view value.now) }
{
    matches!(value, Value::Array(_))
}

/// What a value that is no array writes to a cell is put there.
fn one_put(
    memory: &mut Memory,
    alloc: Global,
    sheet: SheetId,
    row: u32,
    column: u32,
    value: &Value,
    told: &mut Told,
) -> Result<(), OrMemory<Bad>>
    requires sheet { IsSheetOf (memory_view memory.old).book sheet }
    requires inside { IsInside row column }
    ensures { Tells (λ done. done) result (told_view told.old) (told_view told.new) (memory_view memory.new) (one_put (area_in sheet.0 row column 1 1) (view value.now) (memory_view memory.old)) }
{
    let cell = cell_of(alloc, value)?;
    cell_put(memory, alloc, sheet, row, column, cell, told)
}

/// One writing of an area: an event for each cell.
fn cells_put(
    memory: &mut Memory,
    alloc: Global,
    area: Area,
    cells: Vec<CellValue>,
    told: &mut Told,
) -> Result<(), OrMemory<Bad>>
    requires sheet { IsSheetOf (memory_view memory.old).book area.sheet }
    requires inside { IsAreaInside area }
    requires count { length cells.items ≡ area.rows * area.columns }
    ensures { Tells (λ done. done) result (told_view told.old) (told_view told.new) (memory_view memory.new) (cells_put area cells.items (memory_view memory.old)) }
{
    let before = told.events.len();
    tell_cells(told, alloc, area, cells.as_slice())?;
    match memory.book.put(area, cells) {
        Ok(()) => Ok(()),
        Err(fault) => {
            told.keep_first(before);
            Err(fault)
        }
    }
}

/// One cell is written, and its event told.
pub fn cell_put(
    memory: &mut Memory,
    alloc: Global,
    sheet: SheetId,
    row: u32,
    column: u32,
    cell: CellValue,
    told: &mut Told,
) -> Result<(), OrMemory<Bad>>
    requires sheet { IsSheetOf (memory_view memory.old).book sheet }
    requires inside { IsInside row column }
    ensures { Tells (λ done. done) result (told_view told.old) (told_view told.new) (memory_view memory.new) (cells_put (area_in sheet.0 row column 1 1) (cell ∷ []) (memory_view memory.old)) }
{
    let value = cell.copy(alloc)?;
    memory.book.put_cell(sheet, row, column, cell)?;
    told.push(Event::Cell {
        sheet: sheet.0,
        row,
        column,
        value,
    })?;
    Ok(())
}

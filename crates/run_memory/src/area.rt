// Areas of the book.
ghost use Rattle.std.specs.Prelude.{◌≡◌, ◌≤◌, ◌+◌, IsTrue};
ghost use Rattle.sheet_host.specs.Books.{IsSheetOf};
ghost use Rattle.sheet_host.specs.Reading.{area_value};
ghost use Rattle.sheet_host.specs.Size.{IsAreaInside};
ghost use Rattle.vba_values.specs.View.{view};
ghost use Rattle.vba_meaning.specs.Effects.{answered, area_in};
ghost use Rattle.run_memory.specs.Acts.{Acts};
ghost use Rattle.run_memory.specs.View.{memory_view};

use crate::memory::Memory;
use sheet_host::{Area, Book, SheetId, area_value};
use std::alloc::Global;
use vba_base::OrMemory;
use vba_values::{Bad, Value};

/// The rows and the columns of a sheet.
const SHEET_ROWS: u32 = 1_048_576;

const SHEET_COLUMNS: u32 = 16_384;

/// The area that a reference names.
pub fn area_in(sheet: u32, top: u32, left: u32, rows: u32, columns: u32) -> Area
    ensures { result ≡ area_in sheet top left rows columns }
{
    Area {
        sheet: SheetId(sheet),
        top,
        left,
        rows,
        columns,
    }
}

/// Whether a sheet of the book has the whole area, which has a cell. So it is with each range of a run.
pub fn has_area(book: &Book, area: Area) -> bool
    ensures sheet { IsTrue result → IsSheetOf book.now area.sheet }
    ensures inside { IsTrue result → IsAreaInside area }
{
    has_sheet(book, area.sheet) && is_area_inside(area)
}

/// Whether a sheet has the whole area, which has a cell.
pub fn is_area_inside(area: Area) -> bool
    ensures { IsTrue result → IsAreaInside area }
{
    is_within(area.top, area.rows, SHEET_ROWS) && is_within(area.left, area.columns, SHEET_COLUMNS)
}

/// Whether the book has a sheet with this number. So it is with each sheet of a run.
pub fn has_sheet(book: &Book, sheet: SheetId) -> bool
    ensures { IsTrue result → IsSheetOf book.now sheet }
{
    1 <= sheet.0 && sheet.0 <= book.sheets()
}

/// Whether so many rows or columns from a first one on all stand between 1 and a last one.
fn is_within(first: u32, count: u32, last: u32) -> bool
    ensures { IsTrue result → (1 ≤ first) × (1 ≤ count) × (first + count ≤ last + 1) }
{
    1 <= first && 1 <= count && first <= last && count <= last - first + 1
}

impl Memory {
    /// The value of an area. An area that no sheet of the book has, which no run makes, counts as want of memory.
    pub fn value_in_area(&self, alloc: Global, area: Area) -> Result<Value, OrMemory<Bad>>
        ensures { Acts view result (memory_view self.now) (answered (area_value (memory_view self.now).book area) (memory_view self.now)) }
    {
        if !has_area(&self.book, area) {
            return Err(OrMemory::NoMemory);
        }
        area_value(alloc, &self.book, area)
    }
}

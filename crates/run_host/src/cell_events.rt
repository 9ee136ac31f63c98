// What is told of cells that are written.
ghost use Rattle.std.specs.Prelude.{◌≡◌, ◌≤◌, ◌<◌, ◌+◌, ◌*◌, ◌++◌, OnOk, length};
ghost use Rattle.sheet_host.specs.Size.{IsAreaInside};
ghost use Rattle.vba_meaning.specs.Host.{cell_events};
ghost use Rattle.run_host.specs.View.{told_view};

use crate::events::{Event, Told};
use sheet_host::{Area, CellValue, nth_cell_of_area};
use std::alloc::Global;
use vba_base::NoMemory;

/// An event for each cell of an area, by rows.
pub fn tell_cells(
    told: &mut Told,
    alloc: Global,
    area: Area,
    cells: &[CellValue],
) -> Result<(), NoMemory>
    requires inside { IsAreaInside area }
    requires count { length cells.now ≤ area.rows * area.columns }
    ensures { OnOk result (told_view told.new ≡ told_view told.old ++ cell_events area 0 cells.now) }
{
    for (i, cell) in cells.iter().enumerate() {
        let place = nth_cell_of_area(area, i as u64);
        let value = cell.copy(alloc)?;
        told.push(Event::Cell {
            sheet: place.sheet.0,
            row: place.top,
            column: place.left,
            value,
        })?;
    }
    Ok(())
}

// ClearContents.
ghost use Rattle.std.specs.Prelude.{◌≡◌, ◌*◌};
ghost use Rattle.sheet_host.specs.Books.{IsSheetOf};
ghost use Rattle.sheet_host.specs.Size.{IsAreaInside};
ghost use Rattle.vba_meaning.specs.Host.{cleared};
ghost use Rattle.run_memory.specs.View.{memory_view};
ghost use Rattle.run_host.specs.Tells.{Tells};
ghost use Rattle.run_host.specs.View.{told_view};

use crate::events::Told;
use crate::writing::cell_put;
use run_memory::Memory;
use sheet_host::{Area, CellValue};
use std::alloc::Global;
use vba_base::OrMemory;
use vba_values::Bad;

/// Each cell of an area that isn't Empty becomes Empty, one by one. Its time goes with the rows of fields and the written
/// cells, not with the size of the area.
pub fn cleared(
    memory: &mut Memory,
    alloc: Global,
    area: Area,
    told: &mut Told,
) -> Result<(), OrMemory<Bad>>
    requires sheet { IsSheetOf (memory_view memory.old).book area.sheet }
    requires inside { IsAreaInside area }
    ensures { Tells (λ done. done) result (told_view told.old) (told_view told.new) (memory_view memory.new) (cleared area (area.rows * area.columns) (memory_view memory.old)) }
{
    let mut after: Option<(u32, u32)> = None;
    while let Some((row, column)) = memory.book.next_filled(area, after) {
        cell_put(
            memory,
            alloc,
            area.sheet,
            row,
            column,
            CellValue::Empty,
            told,
        )?;
        after = Some((row, column));
    }
    Ok(())
}

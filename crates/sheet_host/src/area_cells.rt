// The cells of areas as areas, and the areas that hold two others.
ghost use Rattle.std.specs.Prelude.{◌≡◌, ◌*◌, ◌<◌, pos, ◌+ℤ◌, ◌-ℤ◌, IfOk};
ghost use Rattle.sheet_host.specs.AreaCells.{area_around, cell_of_area, one_cell};
ghost use Rattle.sheet_host.specs.Sheets.{nth_cell};
ghost use Rattle.sheet_host.specs.Size.{IsAreaInside};
ghost use Rattle.sheet_host.specs.Smallest.{IsPartOf};
ghost use Rattle.sheet_host.specs.declared.area.Area.{Area};

use crate::area::{Area, SHEET_COLUMNS, SHEET_ROWS, Span};
use crate::moving::{HOST_ERROR, area_of_spans};
use vba_values::Bad;

/// The cell in a row and a column of an area, both counted from 1 at its first cell. It may lie outside of the area; 1004
/// exactly where the sheet hasn't it.
pub fn cell_of_area(area: Area, row: i64, column: i64) -> Result<Area, Bad>
    ensures cell { result ≡ cell_of_area area row column }
    ensures inside { IfOk result (λ cell. IsAreaInside cell) }
{
    area_of_spans(
        area.sheet,
        Span::within(counted(area.top, row), 1, SHEET_ROWS),
        Span::within(counted(area.left, column), 1, SHEET_COLUMNS),
    )
}

/// The row or column with a number, counted from 1 at a first one.
fn counted(first: u32, number: i64) -> i128
    ensures { result ≡ pos first +ℤ number -ℤ pos 1 }
{
    i128::from(first) + i128::from(number) - 1
}

/// The i-th cell of an area by rows, counted from 0.
pub fn nth_cell_of_area(area: Area, i: u64) -> Area
    requires inside { IsAreaInside area }
    requires small { i < area.rows * area.columns }
    ensures cell { result ≡ one_cell area.sheet (nth_cell area i) }
    ensures inside { IsAreaInside result }
{
    let (top, left) = crate::sheet::nth_cell(&area, i);
    Area {
        sheet: area.sheet,
        top,
        left,
        rows: 1,
        columns: 1,
    }
}

/// The smallest area that holds two areas of one sheet. 1004 exactly where their sheets differ.
pub fn area_around(first: Area, last: Area) -> Result<Area, Bad>
    requires first { IsAreaInside first }
    requires last { IsAreaInside last }
    ensures area { result ≡ area_around first last }
    ensures inside { IfOk result (λ area. IsAreaInside area) }
    ensures holds { IfOk result (λ area. IsPartOf first area × IsPartOf last area) }
    ensures smallest { IfOk result (λ area. (other : Area) → IsPartOf first other → IsPartOf last other → IsPartOf area other) }
{
    if first.sheet.0 != last.sheet.0 {
        return Err(HOST_ERROR);
    }
    let top = first.top.min(last.top);
    let left = first.left.min(last.left);
    let end_row = (first.top + first.rows).max(last.top + last.rows);
    let end_column = (first.left + first.columns).max(last.left + last.columns);
    Ok(Area {
        sheet: first.sheet,
        top,
        left,
        rows: end_row - top,
        columns: end_column - left,
    })
}

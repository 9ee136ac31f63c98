// The used area of a sheet.
ghost use Rattle.std.specs.Prelude.{◌≡◌, ◌≤◌, ◌+◌, Some};
ghost use Rattle.sheet_host.specs.Sheets.{widened, area_of_corners, AreInside};
ghost use Rattle.sheet_host.specs.Size.{IsAreaInside};

use crate::area::{Area, SheetId};

/// The first and last row and column of an area.
#[derive(Clone, Copy)]
pub struct Corners {
    pub top: u32,
    pub left: u32,
    pub bottom: u32,
    pub right: u32,
}

/// The corners, moved as little as a cell more wants.
pub fn widened(corners: Option<Corners>, row: u32, column: u32) -> Option<Corners>
    ensures { result ≡ widened corners (row, column) }
{
    Some(match corners {
        None => Corners {
            top: row,
            left: column,
            bottom: row,
            right: column,
        },
        Some(corners) => Corners {
            top: corners.top.min(row),
            left: corners.left.min(column),
            bottom: corners.bottom.max(row),
            right: corners.right.max(column),
        },
    })
}

/// The area with these corners, or A1.
pub fn area_of_corners(sheet: SheetId, corners: Option<Corners>) -> Area
    requires { AreInside corners }
    ensures value { result ≡ area_of_corners sheet corners }
    ensures inside { IsAreaInside result }
{
    match corners {
        None => Area {
            sheet,
            top: 1,
            left: 1,
            rows: 1,
            columns: 1,
        },
        Some(corners) => Area {
            sheet,
            top: corners.top,
            left: corners.left,
            rows: corners.bottom + 1 - corners.top,
            columns: corners.right + 1 - corners.left,
        },
    }
}

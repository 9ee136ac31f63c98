// Areas moved and resized.
ghost use Rattle.std.specs.Prelude.{◌≡◌, pos, ◌+ℤ◌, IfSome, IfOk};
ghost use Rattle.sheet_host.specs.Area.{offset_of, resized, area_of_spans};
ghost use Rattle.sheet_host.specs.Size.{IsAreaInside, IsSpanWithin, sheet_columns, sheet_rows};

use crate::area::{Area, SHEET_COLUMNS, SHEET_ROWS, SheetId, Span};
use vba_values::Bad;

/// What the host raises: Application-defined or object-defined error.
pub const HOST_ERROR: Bad = Bad::Raise(1004);

/// The area moved down by `rows` and to the right by `columns`. 1004 exactly where it would leave the sheet.
pub fn offset(area: Area, rows: i64, columns: i64) -> Result<Area, Bad>
    ensures area { result ≡ offset_of area rows columns }
    ensures inside { IfOk result (λ area. IsAreaInside area) }
{
    area_of_spans(
        area.sheet,
        Span::within(moved(area.top, rows), i128::from(area.rows), SHEET_ROWS),
        Span::within(
            moved(area.left, columns),
            i128::from(area.columns),
            SHEET_COLUMNS,
        ),
    )
}

/// The area with the same first cell, and so many rows and columns. 1004 exactly where that is less than one row or
/// column, or leaves the sheet.
pub fn resize(area: Area, rows: i64, columns: i64) -> Result<Area, Bad>
    ensures area { result ≡ resized area rows columns }
    ensures inside { IfOk result (λ area. IsAreaInside area) }
{
    area_of_spans(
        area.sheet,
        Span::within(i128::from(area.top), i128::from(rows), SHEET_ROWS),
        Span::within(i128::from(area.left), i128::from(columns), SHEET_COLUMNS),
    )
}

fn moved(place: u32, by: i64) -> i128
    ensures { result ≡ pos place +ℤ by }
{
    i128::from(place) + i128::from(by)
}

/// The area of these rows and columns. 1004 exactly where some aren't in the sheet.
pub fn area_of_spans(sheet: SheetId, rows: Option<Span>, columns: Option<Span>) -> Result<Area, Bad>
    requires rows { IfSome rows (λ span. IsSpanWithin sheet_rows span) }
    requires columns { IfSome columns (λ span. IsSpanWithin sheet_columns span) }
    ensures area { result ≡ area_of_spans sheet rows columns }
    ensures inside { IfOk result (λ area. IsAreaInside area) }
{
    match (rows, columns) {
        (Some(rows), Some(columns)) => Ok(Area {
            sheet,
            top: rows.first,
            left: columns.first,
            rows: rows.count,
            columns: columns.count,
        }),
        _ => Err(HOST_ERROR),
    }
}

ghost use Rattle.std.specs.Prelude.{◌≡◌, IfSome};
ghost use Rattle.sheet_host.specs.Area.{span_of};
ghost use Rattle.sheet_host.specs.Size.{IsSpanWithin};

/// The number of a sheet in its book, from 1.
#[derive(Clone, Copy, Debug, PartialEq, Eq)]
pub struct SheetId(pub u32);

/// A rectangle of cells: its sheet, its first row and column, and how many rows and columns it has. Rows and columns
/// count from 1.
#[derive(Clone, Copy, Debug, PartialEq, Eq)]
pub struct Area {
    pub sheet: SheetId,
    pub top: u32,
    pub left: u32,
    pub rows: u32,
    pub columns: u32,
}

/// The rows of a sheet.
pub const SHEET_ROWS: u32 = 1_048_576;

/// The columns of a sheet.
pub const SHEET_COLUMNS: u32 = 16_384;

/// Rows or columns that stand together: the first one, and how many they are.
#[derive(Clone, Copy)]
pub struct Span {
    pub first: u32,
    pub count: u32,
}

impl Span {
    /// So many rows or columns from the first on, where they all stand between 1 and `last`.
    pub fn within(first: i128, count: i128, last: u32) -> Option<Span>
        ensures span { result ≡ span_of first count last }
        ensures inside { IfSome result (λ span. IsSpanWithin last span) }
    {
        let last = i128::from(last);
        if first < 1 || last < first || count < 1 || last - first + 1 < count {
            return None;
        }
        Some(Span {
            first: first as u32,
            count: count as u32,
        })
    }
}

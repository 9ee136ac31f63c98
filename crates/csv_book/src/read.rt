ghost use Rattle.std.specs.Prelude.{◌≡◌, ◌≤◌, drop, length};
ghost use Rattle.csv.specs.Reading.{strip_bom};
ghost use Rattle.vba_base.specs.Answer.{Gives};
ghost use Rattle.csv_book.specs.Reading.{sheet_of};

use crate::fault::BookFault;
use crate::row::{MOST_ROWS, Row, read_row};
use crate::sizes::sizes_of;
use sheet_host::Sheet;
use std::alloc::Global;
use vba_base::OrMemory;

/// The sheet of a file. A byte order mark before it is dropped, and empty lines are no rows. The first row that has a fault
/// is named, counted from 1: one row too many, else a field that isn't UTF-8, else one column too many.
pub fn read_sheet(alloc: Global, bytes: &[u8]) -> Result<Sheet, OrMemory<BookFault>>
    ensures { Gives (λ sheet. sheet) result (sheet_of bytes.now) }
{
    let mut rest = without_mark(bytes);
    let sizes = sizes_of(rest);
    let rows = sizes.rows.min(MOST_ROWS as usize);
    let mut row = Row::with_room(alloc, sizes.longest)?;
    let mut sheet = Sheet::with_room(alloc, sizes.bytes, sizes.fields, rows)?;
    while let Some(taken) = read_row(&mut row, &mut sheet, rest)? {
        if let Some(fault) = row.fault() {
            return Err(OrMemory::Fault(fault));
        }
        rest = behind(rest, taken);
    }
    Ok(sheet)
}

/// The bytes behind so many.
fn behind(bytes: &[u8], count: usize) -> &[u8]
    requires { count ≤ length bytes.now }
    ensures { result.now ≡ drop count bytes.now }
{
    &bytes[count..]
}

/// The bytes without a byte order mark before them.
#[tactic(auto, unfolding(csv::specs::Reading::strip_bom))]
fn without_mark(bytes: &[u8]) -> &[u8]
    ensures { result.now ≡ strip_bom bytes.now }
{
    bytes.strip_prefix(b"\xEF\xBB\xBF").unwrap_or(bytes)
}

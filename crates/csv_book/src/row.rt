// Reading one row of a file into a sheet.
ghost use Rattle.std.specs.Prelude.{◌≡◌, ◌+◌, ◌++◌, ◌∷◌, ◌&&◌, [], min, true, IfOk, OnOk};
ghost use Rattle.std.specs.Str.{is_utf8};
ghost use Rattle.csv.specs.Machine.{ends_at_end, field_after, fields_after, is_end, next_record, step};
ghost use Rattle.csv.specs.Reading.{default_config};
ghost use Rattle.csv.specs.declared.parser.State.TheVariants as states;
ghost use Rattle.sheet_host.specs.Sheets.{IsUnwritten, SheetContent};
ghost use Rattle.sheet_host.specs.Size.{sheet_columns};
ghost use Rattle.csv_book.specs.Reading.{Fields, Rows, fault_by};
ghost use Rattle.csv_book.specs.Row.{IsReading, IsUnread, ReadsRow};
ghost use Rattle.csv_book.specs.Scan.{csv_state, without_return};

use crate::fault::BookFault;
use crate::scan::{Action, State, step};
use sheet_host::Sheet;
use std::alloc::Global;
use vba_base::NoMemory;

/// How many rows a sheet has.
pub const MOST_ROWS: u32 = 1_048_576;

/// How many columns a sheet has.
const MOST_COLUMNS: u32 = 16_384;

/// A row that is being read.
#[derive(Drop)]
pub struct Row {
    /// Its number, from 1.
    number: u32,
    state: State,
    /// The bytes of the field that is being read.
    field: Vec<u8>,
    /// How many fields were read, but at most one more than a sheet has columns.
    columns: u32,
    /// Whether all of them are UTF-8.
    is_utf8: bool,
}

impl Row {
    /// A row before any, with room for a field of so many bytes.
    pub fn with_room(alloc: Global, bytes: usize) -> Result<Row, NoMemory>
        ensures { IfOk result (λ row. IsUnread row) }
    {
        let field = Vec::with_capacity(alloc, bytes)?;
        Ok(Row {
            number: 0,
            state: State::BeforeRow,
            field,
            columns: 0,
            is_utf8: true,
        })
    }

    /// Whether more than line ends was read of it.
    fn has_begun(&self) -> bool
        ensures { result ≡ ends_at_end (csv_state self.now.state) }
    {
        match self.state {
            State::BeforeRow => false,
            State::BeforeField | State::InField | State::InQuotes | State::AfterQuote => true,
        }
    }

    /// The fault that it has.
    pub fn fault(&self) -> Option<BookFault>
        ensures { result ≡ fault_by self.now.number self.now.is_utf8 self.now.columns }
    {
        if self.number > MOST_ROWS {
            Some(BookFault::TooManyRows)
        } else if !self.is_utf8 {
            Some(BookFault::NotUtf8(self.number))
        } else if self.columns > MOST_COLUMNS {
            Some(BookFault::TooManyColumns(self.number))
        } else {
            None
        }
    }
}

/// Reads the next row, and adds its texts to the sheet as long as it has no fault. Tells how many bytes were taken; None
/// where there is no row.
pub fn read_row(row: &mut Row, sheet: &mut Sheet, bytes: &[u8]) -> Result<Option<usize>, NoMemory>
    requires { IsUnwritten sheet.old }
    ensures { IfOk result (λ taken. ReadsRow sheet.old.rows bytes.now (next_record default_config states.StartRecord [] [] bytes.now) taken row.new sheet.new) }
{
    begin(row, sheet.row_count() + 1);
    for (place, byte) in bytes.iter().enumerate() {
        if take(row, sheet, *byte)? {
            return Ok(Some(place + 1));
        }
    }
    if !row.has_begun() {
        return Ok(None);
    }
    end_field(row, sheet)?;
    Ok(Some(bytes.len()))
}

/// Begins the row of this number.
fn begin(row: &mut Row, number: u32)
    ensures number { row.new.number ≡ number }
    ensures unread { IsUnread row.new }
{
    row.number = number;
    row.state = State::BeforeRow;
    row.field.clear();
    row.columns = 0;
    row.is_utf8 = true;
}

/// Takes a byte, and tells whether it ended the row.
fn take(row: &mut Row, sheet: &mut Sheet, byte: u8) -> Result<bool, NoMemory>
    requires { (rows : Rows) × (fields : Fields) × IsReading rows fields row.old sheet.old }
    ensures state { OnOk result (csv_state row.new.state ≡ without_return (step default_config (csv_state row.old.state) byte).0) }
    ensures field { OnOk result (row.new.field.items ≡ field_after (step default_config (csv_state row.old.state) byte).1 byte row.old.field.items) }
    ensures fields { (rows : Rows) (fields : Fields) → IsReading rows fields row.old sheet.old
        → OnOk result (IsReading rows (fields_after (step default_config (csv_state row.old.state) byte).1 fields row.old.field.items) row.new sheet.new) }
    ensures ended { IfOk result (λ ended. ended ≡ is_end (step default_config (csv_state row.old.state) byte).1) }
{
    let (state, action) = step(row.state, byte);
    row.state = state;
    match action {
        Action::Skip => Ok(false),
        Action::Copy => {
            row.field.push(byte)?;
            Ok(false)
        }
        Action::EndField => {
            end_field(row, sheet)?;
            Ok(false)
        }
        Action::EndRow => {
            end_field(row, sheet)?;
            Ok(true)
        }
    }
}

/// Ends the field that is being read, and adds its text to the sheet as long as the row has no fault.
fn end_field(row: &mut Row, sheet: &mut Sheet) -> Result<(), NoMemory>
    requires { (rows : Rows) × (fields : Fields) × IsReading rows fields row.old sheet.old }
    ensures state { row.new.state ≡ row.old.state }
    ensures field { OnOk result (row.new.field.items ≡ []) }
    ensures fields { (rows : Rows) (fields : Fields) → IsReading rows fields row.old sheet.old
        → OnOk result (IsReading rows (fields ++ row.old.field.items ∷ []) row.new sheet.new) }
{
    count_field(row);
    if row.fault().is_none() {
        if row.columns == 1 {
            sheet.push_row()?;
        }
        sheet.push_text(text_of_field(&row.field))?;
    }
    row.field.clear();
    Ok(())
}

/// Counts the field that was read, and notes whether it is UTF-8.
fn count_field(row: &mut Row)
    ensures number { row.new.number ≡ row.old.number }
    ensures state { row.new.state ≡ row.old.state }
    ensures field { row.new.field.items ≡ row.old.field.items }
    ensures columns { row.new.columns ≡ min (row.old.columns + 1) (sheet_columns + 1) }
    ensures utf8 { row.new.is_utf8 ≡ (row.old.is_utf8 && is_utf8 row.old.field.items) }
{
    row.columns = row.columns.saturating_add(1).min(MOST_COLUMNS + 1);
    row.is_utf8 = row.is_utf8 && is_utf8(&row.field);
}

/// Whether a field is UTF-8.
fn is_utf8(field: &[u8]) -> bool
    ensures { result ≡ is_utf8 field.now }
{
    str::from_utf8(field).is_ok()
}

/// A field that is UTF-8.
fn text_of_field(field: &[u8]) -> &str
    requires { is_utf8 field.now ≡ true }
    ensures { result.now ≡ field.now }
{
    match str::from_utf8(field) {
        Ok(text) => text,
        Err(_) => unreachable!(),
    }
}

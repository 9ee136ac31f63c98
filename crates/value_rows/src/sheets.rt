//! Fields, sheet files, books of one sheet, addresses, and the members of host objects.
ghost use Rattle.std.specs.Prelude.{◌≡◌, length, IfOk, OnOk};
ghost use Rattle.sheet_host.specs.Size.{IsAreaInside};

use crate::values::{push_number, push_value, value_of};
use crate::words::{
    Answer, BadLine, bytes_of_word, number, push_bad, push_bytes, push_fault, push_plain,
    push_text, text_of_word,
};
use csv_book::{read_sheet, write_sheet};
use currency::count;
use sheet_host::{
    Area, Book, CellValue, Sheet, SheetId, address, area_around, area_of_text, area_value,
    cell_of_area, cells_of, field_of_cell, member, nth_cell_of_area, offset, resize,
    value_of_field,
};
use std::alloc::{AllocError, Global};
use vba_base::{OrMemory, Units, encode_text, name_of};
use vba_values::{Bad, HostRef};

/// The value of a field, and the text that a copy of it is saved as.
pub fn field(alloc: Global, out: &mut String, word: &str) -> Answer<()> {
    let text = text_of_word(alloc, word)?;
    let cell = value_of_field(alloc, text.units())?.copy(alloc)?;
    push_kind(out, &cell)?;
    out.push(' ')?;
    let saved = field_of_cell(alloc, &cell)?;
    push_text(out, saved.units())
}

/// Writes the value of a cell, and of a text its kind alone.
fn push_kind(out: &mut String, cell: &CellValue) -> Result<(), AllocError> {
    match cell {
        CellValue::Empty => out.push_str("Empty"),
        CellValue::Boolean(true) => out.push_str("Boolean(True)"),
        CellValue::Boolean(false) => out.push_str("Boolean(False)"),
        CellValue::Long(number) => push_number(out, "Long", i64::from(*number)),
        CellValue::LongLong(number) => push_number(out, "LongLong", *number),
        CellValue::Currency(amount) => push_number(out, "Currency", count(*amount)),
        CellValue::Text(_) => out.push_str("Text"),
    }
}

/// The rows of a sheet file, and the file that its sheet is saved as.
pub fn read_and_saved(alloc: Global, out: &mut String, word: &str) -> Answer<()> {
    let bytes = bytes_of_word(alloc, word)?;
    match read_sheet(alloc, &bytes) {
        Ok(sheet) => {
            push_rows(alloc, out, &sheet)?;
            out.push(' ')?;
            let saved = write_sheet(alloc, &sheet)?;
            push_bytes(out, &saved)
        }
        Err(OrMemory::Fault(fault)) => {
            write!(out, "{fault}")?;
            Ok(())
        }
        Err(OrMemory::NoMemory) => Err(OrMemory::NoMemory),
    }
}

/// Writes the fields of a sheet with `|` behind each, and `/` behind each row.
fn push_rows(alloc: Global, out: &mut String, sheet: &Sheet) -> Answer<()> {
    let mut rows = Vec::new(alloc);
    for row in 0..sheet.row_count() {
        for column in 0..sheet.field_count(row + 1) {
            let field = encode_text(alloc, sheet.field_text(row + 1, column + 1))?;
            rows.extend_from_slice(&field)?;
            rows.push(b'|')?;
        }
        rows.push(b'/')?;
    }
    push_bytes(out, &rows)
}

/// The number of the only sheet.
const ONLY: SheetId = SheetId(1);

/// A book whose only sheet is that of a file.
fn book_of(alloc: Global, file: &str) -> Answer<Book>
    ensures { IfOk result (λ book. length book ≡ 1) }
{
    let bytes = bytes_of_word(alloc, file)?;
    let name = text_of_word(alloc, "\"S\"")?;
    let Ok(sheet) = read_sheet(alloc, &bytes) else {
        return Err(OrMemory::Fault(BadLine));
    };
    let mut book = Book::new(alloc);
    book.add(name, sheet)?;
    Ok(book)
}

/// `FILE ROW COLUMN`: the value of a cell.
pub fn cell(alloc: Global, out: &mut String, words: &[&str]) -> Answer<()> {
    let [file, row, column] = words else {
        return Err(OrMemory::Fault(BadLine));
    };
    let row = number(row)?;
    let column = number(column)?;
    let book = book_of(alloc, file)?;
    match book.get(ONLY, row, column) {
        Ok(cell) => push_kind(out, &cell)?,
        Err(fault) => push_fault(out, fault)?,
    }
    Ok(())
}

/// `FILE ADDRESS VALUE ..`: the used area after these values were written, its value, and the saved file.
pub fn written(alloc: Global, out: &mut String, words: &[&str]) -> Answer<()> {
    let [file, writes @ ..] = words else {
        return Err(OrMemory::Fault(BadLine));
    };
    let mut book = book_of(alloc, file)?;
    for write in writes.chunks(2) {
        let [address, value] = write else {
            return Err(OrMemory::Fault(BadLine));
        };
        if !is_written(alloc, out, &mut book, address, value)? {
            return Ok(());
        }
    }
    push_book(alloc, out, &book)
}

/// Writes a value to an area of the only sheet. False where that gives an error, which is told.
fn is_written(
    alloc: Global,
    out: &mut String,
    book: &mut Book,
    address: &str,
    value: &str,
) -> Answer<bool>
    ensures { OnOk result (length book.new ≡ length book.old) }
{
    let text = text_of_word(alloc, address)?;
    let Ok(area) = area_of_text(ONLY, text.units()) else {
        return Err(OrMemory::Fault(BadLine));
    };
    let count = u64::from(area.rows) * u64::from(area.columns);
    if count > 4_000_000 || book.sheets() < 1 {
        return Err(OrMemory::Fault(BadLine));
    }
    let value = value_of(alloc, value)?;
    let wrote = match cells_of(alloc, &value, area) {
        Ok(cells) if cells.len() as u64 == count => book.put(area, cells),
        Ok(_) => return Err(OrMemory::Fault(BadLine)),
        Err(fault) => Err(fault),
    };
    match wrote {
        Ok(()) => Ok(true),
        Err(fault) => {
            push_fault(out, fault)?;
            Ok(false)
        }
    }
}

/// Writes the used area, its value, and the saved file.
fn push_book(alloc: Global, out: &mut String, book: &Book) -> Answer<()> {
    if book.sheets() < 1 {
        return Err(OrMemory::Fault(BadLine));
    }
    let used = book.used(ONLY);
    let text = address(alloc, used)?;
    push_text(out, text.units())?;
    out.push(' ')?;
    match area_value(alloc, book, used) {
        Ok(value) => push_value(out, &value)?,
        Err(fault) => push_fault(out, fault)?,
    }
    out.push(' ')?;
    let saved = write_sheet(alloc, book.sheet(ONLY))?;
    push_bytes(out, &saved)
}

/// The area that a text is the address of.
fn area_of_word(alloc: Global, word: &str) -> Answer<Result<Area, Bad>> {
    let text = text_of_word(alloc, word)?;
    Ok(area_of_text(ONLY, text.units()))
}

pub fn found_address(alloc: Global, out: &mut String, word: &str) -> Answer<()> {
    let text = text_of_word(alloc, word)?;
    match area_of_text(ONLY, text.units()) {
        Ok(area) => {
            let Area {
                top,
                left,
                rows,
                columns,
                ..
            } = area;
            let text = address(alloc, area)?;
            push_text(out, text.units())?;
            write!(out, " {top} {left} {rows} {columns}")?;
            Ok(())
        }
        Err(bad) => push_bad(out, bad),
    }
}

/// `ADDRESS ROWS COLUMNS`: the area moved, or with so many rows and columns; or its cell in that row and column.
pub fn moved(alloc: Global, out: &mut String, kind: &str, words: &[&str]) -> Answer<()> {
    let [word, rows, columns] = words else {
        return Err(OrMemory::Fault(BadLine));
    };
    let rows = number(rows)?;
    let columns = number(columns)?;
    let Ok(area) = area_of_word(alloc, word)? else {
        return Err(OrMemory::Fault(BadLine));
    };
    let area = match kind {
        "offset" => offset(area, rows, columns),
        "resize" => resize(area, rows, columns),
        _ => cell_of_area(area, rows, columns),
    };
    push_area(alloc, out, area)
}

/// Writes the address of an area, or the error.
fn push_area(alloc: Global, out: &mut String, area: Result<Area, Bad>) -> Answer<()>
    requires { IfOk area (λ area. IsAreaInside area) }
{
    match area {
        Ok(area) => {
            let text = address(alloc, area)?;
            push_text(out, text.units())
        }
        Err(bad) => push_bad(out, bad),
    }
}

/// `ADDRESS NUMBER`: the cell of that number of an area by rows, counted from 0.
pub fn nth(alloc: Global, out: &mut String, words: &[&str]) -> Answer<()> {
    let [word, place] = words else {
        return Err(OrMemory::Fault(BadLine));
    };
    let place: u64 = number(place)?;
    let area = area_inside(alloc, word)?;
    if u64::from(area.rows) * u64::from(area.columns) <= place {
        return Err(OrMemory::Fault(BadLine));
    }
    push_area(alloc, out, Ok(nth_cell_of_area(area, place)))
}

/// The area of the only sheet that a text is the address of. Another text makes no case.
fn area_inside(alloc: Global, word: &str) -> Answer<Area>
    ensures { IfOk result (λ area. IsAreaInside area) }
{
    let text = text_of_word(alloc, word)?;
    match area_of_text(ONLY, text.units()) {
        Ok(area) => Ok(area),
        Err(_) => Err(OrMemory::Fault(BadLine)),
    }
}

/// `SHEET ADDRESS SHEET ADDRESS`: the smallest area that holds both.
pub fn around(alloc: Global, out: &mut String, words: &[&str]) -> Answer<()> {
    let [first_sheet, first, last_sheet, last] = words else {
        return Err(OrMemory::Fault(BadLine));
    };
    let first_text = text_of_word(alloc, first)?;
    let last_text = text_of_word(alloc, last)?;
    let first = area_of_text(SheetId(number(first_sheet)?), first_text.units());
    let last = area_of_text(SheetId(number(last_sheet)?), last_text.units());
    match (first, last) {
        (Ok(first), Ok(last)) => push_area(alloc, out, area_around(first, last)),
        _ => Err(OrMemory::Fault(BadLine)),
    }
}

/// The most cells that are told of an area.
const TOLD: u32 = 1000;

/// `FILE AREA ADDRESS VALUE ..`: the cells of the area that aren't Empty after these values were written, by rows.
pub fn filled(alloc: Global, out: &mut String, words: &[&str]) -> Answer<()> {
    let [file, area, writes @ ..] = words else {
        return Err(OrMemory::Fault(BadLine));
    };
    let mut book = book_of(alloc, file)?;
    for write in writes.chunks(2) {
        let [address, value] = write else {
            return Err(OrMemory::Fault(BadLine));
        };
        if !is_written(alloc, out, &mut book, address, value)? {
            return Ok(());
        }
    }
    let area = area_inside(alloc, area)?;
    push_filled(out, &book, area)
}

/// Writes the row and the column of each cell of an area that isn't Empty, and `end` behind the last.
fn push_filled(out: &mut String, book: &Book, area: Area) -> Answer<()>
    requires { IsAreaInside area }
{
    if area.sheet.0 < 1 || book.sheets() < area.sheet.0 {
        return Err(OrMemory::Fault(BadLine));
    }
    let mut after = None;
    for _ in 0..TOLD {
        after = book.next_filled(area, after);
        match after {
            Some((row, column)) => write!(out, "{row},{column};")?,
            None => break,
        }
    }
    out.push_str(if after.is_some() { ".." } else { "end" })?;
    Ok(())
}

/// `FILE ROW COLUMN FIELD ..`: the used area after the values of these fields were written cell by cell, its value, and
/// the saved file.
pub fn put_one_by_one(alloc: Global, out: &mut String, words: &[&str]) -> Answer<()> {
    let [file, writes @ ..] = words else {
        return Err(OrMemory::Fault(BadLine));
    };
    let mut book = book_of(alloc, file)?;
    for write in writes.chunks(3) {
        let [row, column, field] = write else {
            return Err(OrMemory::Fault(BadLine));
        };
        put_field(alloc, &mut book, number(row)?, number(column)?, field)?;
    }
    push_book(alloc, out, &book)
}

/// Writes the value of a field to a cell of the only sheet.
fn put_field(alloc: Global, book: &mut Book, row: u32, column: u32, field: &str) -> Answer<()> {
    let is_inside = 1 <= row && row <= 1_048_576 && 1 <= column && column <= 16_384;
    if !is_inside || book.sheets() < 1 {
        return Err(OrMemory::Fault(BadLine));
    }
    let text = text_of_word(alloc, field)?;
    let cell = value_of_field(alloc, text.units())?;
    match book.put_cell(ONLY, row, column, cell) {
        Ok(()) => Ok(()),
        Err(OrMemory::Fault(_)) => Err(OrMemory::Fault(BadLine)),
        Err(OrMemory::NoMemory) => Err(OrMemory::NoMemory),
    }
}

/// `OBJECT NAME`: how that member is used.
pub fn host_member(alloc: Global, out: &mut String, words: &[&str]) -> Answer<()> {
    let [object, name] = words else {
        return Err(OrMemory::Fault(BadLine));
    };
    let object = host_object(object).ok_or(OrMemory::Fault(BadLine))?;
    let mut text = Units::new(alloc);
    push_plain(&mut text, name.as_bytes())?;
    let name = name_of(alloc, text.units())?;
    match member(&object, &name) {
        Ok(member) => write!(out, "{member:?}")?,
        Err(bad) => push_bad(out, bad)?,
    }
    Ok(())
}

fn host_object(word: &str) -> Option<HostRef> {
    match word {
        "Application" => Some(HostRef::Application),
        "Workbook" => Some(HostRef::Workbook),
        "Sheets" => Some(HostRef::Sheets),
        "Err" => Some(HostRef::ErrObject),
        "Worksheet" => Some(HostRef::Sheet { sheet: 1 }),
        "Range" => Some(HostRef::Area {
            sheet: 1,
            top: 1,
            left: 1,
            rows: 1,
            columns: 1,
        }),
        "Rows" => Some(HostRef::RowsOf { count: 1 }),
        "Columns" => Some(HostRef::ColumnsOf { count: 1 }),
        _ => None,
    }
}

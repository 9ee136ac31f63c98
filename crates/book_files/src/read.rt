//! Reading the sheets of a call.

ghost use Rattle.std.specs.Prelude.{◌≡◌, ◌≤◌, ◌<◌, ◌+◌, ◌^◌, [], IfOk, length};
ghost use Rattle.list_file.specs.Files.{FilesAt, call_limit, room};
ghost use Rattle.list_file.specs.Lists.{HaveNewNames};
ghost use Rattle.list_file.specs.Sources.{sheets_view};
ghost use Rattle.book_files.specs.Book.{ReadsBook};
ghost use Rattle.book_files.specs.One.{IsSheetIn, ReadsOne, one_view};

use crate::stop::BookStop;
use csv_book::read_sheet;
use list_file::{FileBytes, ReadStop, SheetPath, read_file};
use sheet_host::{Book, Sheet};
use std::alloc::Global;
use vba_base::{Files, OrMemory};

/// A sheet that was read, and how many bytes its file has.
#[derive(Drop)]
pub struct ReadSheet {
    pub sheet: Sheet,
    pub size: u64,
}

/// Reads sheets in order into a book, under the names that their list gives them. Their files are numbered from
/// `number` on, and those before them have so many bytes together. A file isn't read behind one that can't be, that is
/// too long, or that is no sheet.
pub fn read_book<F: Files>(
    alloc: Global,
    files: &mut F,
    sheets: &[SheetPath],
    number: u32,
    taken: u64,
) -> Result<Book, BookStop>
    requires count { number + length sheets.now < 2 ^ 32 }
    requires within { taken ≤ call_limit }
    requires names { HaveNewNames [] (sheets_view sheets.now) }
    ensures { let old : FilesAt = record { told = F.told files.old; counts = F.counts files.old } in
        let new : FilesAt = record { told = F.told files.new; counts = F.counts files.new } in
        ReadsBook (sheets_view sheets.now) number taken result old new }
{
    let mut book = Book::new(alloc);
    let mut left = sheets;
    let mut number = number;
    let mut taken = taken;
    while let Some((sheet, rest)) = left.split_first() {
        let place = book.sheets() + 1;
        let ReadSheet {
            sheet: content,
            size,
        } = read_one(alloc, files, sheet.path.as_str(), number, place, taken)?;
        book.add(sheet.name.copy(alloc)?, content)?;
        number += 1;
        taken += size;
        left = rest;
    }
    Ok(book)
}

// Reads the sheet at a path, which is the sheet at this place of its list; its file has this number, and those before
// it have so many bytes together.
fn read_one<F: Files>(
    alloc: Global,
    files: &mut F,
    path: &str,
    number: u32,
    place: u32,
    taken: u64,
) -> Result<ReadSheet, BookStop>
    ensures read { let old : FilesAt = record { told = F.told files.old; counts = F.counts files.old } in
        let new : FilesAt = record { told = F.told files.new; counts = F.counts files.new } in
        ReadsOne path.now number place taken (one_view result) old new }
    ensures within { IfOk result (λ read. read.size ≤ room taken) }
{
    let file = read_file(alloc, files, path, number, taken)?;
    sheet_in(alloc, &file, place)
}

// The sheet that a file is.
fn sheet_in(alloc: Global, file: &FileBytes, place: u32) -> Result<ReadSheet, BookStop>
    ensures sheet { IsSheetIn file.now.bytes.items place (one_view result) }
    ensures size { IfOk result (λ read. read.size ≡ length file.now.bytes.items) }
{
    match read_sheet(alloc, file.bytes.as_slice()) {
        Ok(sheet) => Ok(ReadSheet {
            sheet,
            size: file.bytes.len() as u64,
        }),
        Err(OrMemory::Fault(fault)) => Err(BookStop::BadSheet(place, fault)),
        Err(OrMemory::NoMemory) => Err(BookStop::Unread(ReadStop::NoMemory)),
    }
}

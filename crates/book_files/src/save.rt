//! Saving the sheets of a book.

ghost use Rattle.std.specs.Prelude.{◌≡◌, ◌++◌, [], ◌∷◌, IfOk, string_bytes};
ghost use Rattle.list_file.specs.Files.{FilesAt};
ghost use Rattle.list_file.specs.Sources.{sheets_view};
ghost use Rattle.book_files.specs.Saves.{WritesSaves, save_of, saves_of};
ghost use Rattle.book_files.specs.Made.{made_view};

use csv_book::write_sheet;
use list_file::SheetPath;
use sheet_host::{Book, Sheet, SheetId};
use std::alloc::{AllocError, Global};
use vba_base::{Files, NoMemory, WriteAnswer};

/// What is written for a sheet.
#[derive(Drop)]
pub struct Made {
    pub name: String,
    pub bytes: Vec<u8>,
}

/// Saves the sheets of a book in order, each to its path in the list with the suffix behind it. Saving ends at the first
/// write that fails, and where memory runs out. A list and a book of different lengths are taken together up to the
/// shorter's end.
pub fn save_book<F: Files>(
    alloc: Global,
    files: &mut F,
    sheets: &[SheetPath],
    suffix: &str,
    book: &Book,
) -> Result<(), WriteAnswer>
    ensures { let old : FilesAt = record { told = F.told files.old; counts = F.counts files.old } in
        let new : FilesAt = record { told = F.told files.new; counts = F.counts files.new } in
        WritesSaves (saves_of suffix.now (sheets_view sheets.now) book.now) result old new }
{
    for place in 0..book.sheets() {
        let Some(sheet) = sheets.get(place as usize) else {
            return Ok(());
        };
        let content = book.sheet(SheetId(place + 1));
        save_sheet(alloc, files, sheet.path.as_str(), suffix, content)?;
    }
    Ok(())
}

// Saves a sheet.
fn save_sheet<F: Files>(
    alloc: Global,
    files: &mut F,
    path: &str,
    suffix: &str,
    sheet: &Sheet,
) -> Result<(), WriteAnswer>
    ensures { let old : FilesAt = record { told = F.told files.old; counts = F.counts files.old } in
        let new : FilesAt = record { told = F.told files.new; counts = F.counts files.new } in
        WritesSaves (save_of path.now suffix.now sheet.now ∷ []) result old new }
{
    match made_of(alloc, path, suffix, sheet) {
        Ok(made) => files.write(made.name.as_str(), made.bytes.as_slice()),
        Err(_) => Err(WriteAnswer::NoMemory),
    }
}

// What is written for a sheet.
fn made_of(alloc: Global, path: &str, suffix: &str, sheet: &Sheet) -> Result<Made, NoMemory>
    ensures { IfOk result (λ made. made_view made ≡ save_of path.now suffix.now sheet.now) }
{
    let name = with_suffix(alloc, path, suffix)?;
    let bytes = write_sheet(alloc, sheet)?;
    Ok(Made { name, bytes })
}

// A path with a suffix behind it.
fn with_suffix(alloc: Global, path: &str, suffix: &str) -> Result<String, AllocError>
    ensures { IfOk result (λ name. string_bytes name ≡ path.now ++ suffix.now) }
{
    format!(in alloc; "{path}{suffix}")
}

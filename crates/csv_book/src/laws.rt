//! Laws of the definitions that sheet files are read and written by. The functions do nothing: their contracts are the laws.
ghost use Rattle.std.specs.Prelude.{◌≡◌, ℕ, ◌+◌, List, ◌∷◌, ◌++◌, length, map, Some, false};
ghost use Rattle.csv.specs.Reading.{default_config, records, strip_bom};
ghost use Rattle.csv_book.specs.Faults.{AllFaultless};
ghost use Rattle.csv_book.specs.Reading.{Fields, Rows, fault_of, sheet_of, sheet_of_rows, text_of_bytes};
ghost use Rattle.csv_book.specs.Writing.{begins_with_mark, saved, text_of_sheet};
ghost use Rattle.csv_book.specs.declared.fault.BookFault.{BookFault};
ghost use Rattle.sheet_host.specs.Sheets.{SheetContent};

/// The fault of a file is that of its first row that has one, and a file without faults gives the texts of its records.
pub fn first_fault_is_named()
    ensures fault { (bytes : List ℕ) (before more : Rows) (fields : Fields) (fault : BookFault)
        → records default_config (strip_bom bytes) ≡ before ++ fields ∷ more → AllFaultless 1 before → fault_of (1 + length before) fields ≡ Some fault
        → sheet_of bytes ≡ Err fault }
    ensures none { (bytes : List ℕ) → AllFaultless 1 (records default_config (strip_bom bytes))
        → sheet_of bytes ≡ Ok (sheet_of_rows (map (map text_of_bytes) (records default_config (strip_bom bytes)))) }
{}

/// A sheet to which nothing was written is saved with the rows that it was read with.
pub fn unwritten_rows_are_saved()
    ensures { (rows : Rows) → saved (sheet_of_rows rows) ≡ rows }
{}

/// A sheet that was read from a file and not changed is read again from what is saved of it, unless its first field begins
/// with the unit of a byte order mark.
pub fn saved_sheets_read_back()
    ensures { (bytes : List ℕ) (sheet : SheetContent) → sheet_of bytes ≡ Ok sheet → begins_with_mark sheet.rows ≡ false
        → sheet_of (text_of_sheet sheet) ≡ Ok sheet }
{}

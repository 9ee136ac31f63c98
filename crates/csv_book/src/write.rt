ghost use Rattle.std.specs.Prelude.{◌≡◌, ◌≤◌, ◌++◌, ◌∷◌, [], IfOk, OnOk, if◌then◌else◌};
ghost use Rattle.csv.specs.Writing.{default_writer, field_text, next_sep};
ghost use Rattle.vba_base.specs.Text.{encoded};
ghost use Rattle.sheet_host.specs.Sheets.{saved_rows, text_at};
ghost use Rattle.sheet_host.specs.Size.{IsInside, sheet_rows};
ghost use Rattle.csv_book.specs.Writing.{line_of, saved_row, text_of_sheet};

use crate::field::write_field;
use crate::room::size_of_file;
use crate::saved_text::saved_text;
use sheet_host::Sheet;
use std::alloc::Global;
use vba_base::NoMemory;

/// The file of a sheet: its rows up to the last that was read or has a cell with a text, each up to the last such column.
/// A cell that nothing was written to keeps its field's text. A lone surrogate becomes U+FFFD. Each line ends in LF, and
/// that of a row without fields, or with one field without units, is `""`.
pub fn write_sheet(alloc: Global, sheet: &Sheet) -> Result<Vec<u8>, NoMemory>
    ensures { IfOk result (λ bytes. bytes.items ≡ text_of_sheet sheet.now) }
{
    let mut file = Vec::with_capacity(alloc, size_of_file(alloc, sheet)?)?;
    for row in 0..sheet.saved_rows() {
        write_row(alloc, &mut file, sheet, row + 1)?;
    }
    Ok(file)
}

/// Writes the line of a saved row.
fn write_row(alloc: Global, file: &mut Vec<u8>, sheet: &Sheet, row: u32) -> Result<(), NoMemory>
    requires first { 1 ≤ row }
    requires last { row ≤ saved_rows sheet.now }
    requires inside { row ≤ sheet_rows }
    ensures { OnOk result (file.new.items ≡ file.old.items ++ line_of (saved_row sheet.now row)) }
{
    let start = file.len();
    for column in 0..sheet.saved_fields(row) {
        write_comma(file, column)?;
        write_cell(alloc, file, sheet, row, column + 1)?;
    }
    let is_blank = file.len() == start;
    end_row(file, is_blank)?;
    Ok(())
}

/// Writes what stands before the field of a column, counted from 0: a comma, and nothing before the first.
fn write_comma(file: &mut Vec<u8>, column: u32) -> Result<(), NoMemory>
    ensures { OnOk result (file.new.items ≡ file.old.items ++ next_sep default_writer column) }
{
    if column > 0 {
        file.push(b',')?;
    }
    Ok(())
}

/// Writes the field of a cell.
fn write_cell(
    alloc: Global,
    file: &mut Vec<u8>,
    sheet: &Sheet,
    row: u32,
    column: u32,
) -> Result<(), NoMemory>
    requires { IsInside row column }
    ensures { OnOk result (file.new.items ≡ file.old.items ++ field_text default_writer (encoded (text_at sheet.now (row, column)))) }
{
    let text = saved_text(alloc, sheet, row, column)?;
    write_field(file, text.units())
}

/// Ends the line of a row, which is `""` where it shows nothing.
fn end_row(file: &mut Vec<u8>, is_blank: bool) -> Result<(), NoMemory>
    ensures { OnOk result (file.new.items ≡ file.old.items ++ ((if is_blank then 34 ∷ 34 ∷ [] else []) ++ 10 ∷ [])) }
{
    if is_blank {
        file.extend_from_slice(b"\"\"")?;
    }
    file.push(b'\n')?;
    Ok(())
}

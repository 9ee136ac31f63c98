// How many bytes the file of a sheet has. By it room is taken, so that nothing grows while the file is written.
ghost use Rattle.std.specs.Prelude.{◌≤◌};
ghost use Rattle.sheet_host.specs.Sheets.{saved_rows};
ghost use Rattle.sheet_host.specs.Size.{sheet_rows};

use crate::field::{first_character, needs_quotes};
use crate::saved_text::saved_text;
use sheet_host::Sheet;
use std::alloc::Global;
use vba_base::NoMemory;

/// How many bytes the file of a sheet has.
pub fn size_of_file(alloc: Global, sheet: &Sheet) -> Result<usize, NoMemory> {
    let mut size: usize = 0;
    for row in 0..sheet.saved_rows() {
        size = size.saturating_add(size_of_row(alloc, sheet, row + 1)?);
    }
    Ok(size)
}

/// How many bytes the line of a saved row has.
fn size_of_row(alloc: Global, sheet: &Sheet, row: u32) -> Result<usize, NoMemory>
    requires first { 1 ≤ row }
    requires last { row ≤ saved_rows sheet.now }
    requires inside { row ≤ sheet_rows }
{
    let mut size: usize = 0;
    for column in 0..sheet.saved_fields(row) {
        let text = saved_text(alloc, sheet, row, column + 1)?;
        // With the comma or the end of the line behind it.
        size = size
            .saturating_add(size_of_field(text.units()))
            .saturating_add(1);
    }
    // A row that shows nothing is two quotes.
    Ok(if size > 1 { size } else { 3 })
}

/// How many bytes a field has.
fn size_of_field(text: &[u16]) -> usize {
    let mut size: usize = if needs_quotes(text) { 2 } else { 0 };
    let mut rest = text;
    while let Some((character, behind)) = first_character(rest) {
        size = size.saturating_add(size_of_character(character));
        rest = behind;
    }
    size
}

/// How many bytes a character has, where a quote is written twice.
fn size_of_character(character: char) -> usize {
    if character == '"' {
        2
    } else {
        character.len_utf8()
    }
}

// The texts that cells are saved as.
ghost use Rattle.std.specs.Prelude.{◌≡◌, IfOk};
ghost use Rattle.sheet_host.specs.Sheets.{field_at, text_at};
ghost use Rattle.sheet_host.specs.Size.{IsInside};
ghost use Rattle.csv_book.specs.SavedText.{units_of};

use sheet_host::{CellValue, Sheet, field_of_cell};
use std::alloc::Global;
use vba_base::{NoMemory, Units};

/// The text that a cell is saved as: one that the sheet keeps, or one made of the cell's value.
#[derive(Drop)]
pub enum SavedText<'a> {
    Kept(&'a [u16]),
    Made(Units),
}

impl<'a> SavedText<'a> {
    pub fn units(&self) -> &[u16]
        ensures { result.now ≡ units_of self.now }
    {
        match self {
            SavedText::Kept(units) => *units,
            SavedText::Made(text) => text.units(),
        }
    }
}

/// The text of a cell. A text that the sheet keeps isn't copied.
pub fn saved_text(
    alloc: Global,
    sheet: &Sheet,
    row: u32,
    column: u32,
) -> Result<SavedText<'_>, NoMemory>
    requires { IsInside row column }
    ensures { IfOk result (λ text. units_of text ≡ text_at sheet.now (row, column)) }
{
    match sheet.written(row, column) {
        Some(CellValue::Text(text)) => Ok(SavedText::Kept(text.units())),
        Some(cell) => Ok(SavedText::Made(field_of_cell(alloc, cell)?)),
        None => Ok(SavedText::Kept(field_at(sheet, row, column))),
    }
}

/// The units of a field; a cell without a field has none.
fn field_at(sheet: &Sheet, row: u32, column: u32) -> &[u16]
    requires { IsInside row column }
    ensures { result.now ≡ field_at sheet.now (row, column) }
{
    if row <= sheet.row_count() && column <= sheet.field_count(row) {
        sheet.field_text(row, column)
    } else {
        &[]
    }
}

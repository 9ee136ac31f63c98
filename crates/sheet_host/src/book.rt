ghost use Rattle.std.specs.Prelude.{◌≡◌, ◌≤◌, ◌<◌, ◌+◌, ◌*◌, ◌∷◌, ◌++◌, [], length, position, bytes_eq, IfOk, OnErr, IsTrue, Err};
ghost use Rattle.vba_base.specs.Answer.{Gives};
ghost use Rattle.vba_base.specs.declared.fault.OrMemory.TheVariants as answers;
ghost use Rattle.sheet_host.specs.Books.{IsSheetOf, sheet_at, content_at, sheet_named, IsNewName, value_in, Puts};
ghost use Rattle.sheet_host.specs.Field.{is_text};
ghost use Rattle.sheet_host.specs.Filled.{IsFilledBehind, IsFirst};
ghost use Rattle.sheet_host.specs.AreaCells.{one_cell};
ghost use Rattle.sheet_host.specs.OneCell.{is_full_for};
ghost use Rattle.sheet_host.specs.Sheets.{Position, used_area, value_at};
ghost use Rattle.sheet_host.specs.Size.{IsAreaInside, IsInside};
ghost use Rattle.sheet_host.specs.Smallest.{HoldsAllFilled, IsFilled, IsPartOf, first_cell};
ghost use Rattle.sheet_host.specs.declared.area.Area.{Area};

use crate::area::{Area, SHEET_COLUMNS, SHEET_ROWS, SheetId};
use crate::cell::CellValue;
use crate::sheet::Sheet;
use crate::used::area_of_corners;
use std::alloc::Global;
use std::marker::Model;
use vba_base::{Name, NoMemory, OrMemory, Units, name_of};
use vba_values::{Bad, OutKind};

/// The most cells that may be written in a book.
const CELLS: u64 = 4_000_000;

/// A sheet and its name.
#[derive(Drop)]
struct Named {
    text: Units,
    name: Name,
    sheet: Sheet,
}

/// Sheets with their names, numbered from 1 in the order in which they were added.
#[derive(Drop)]
pub struct Book {
    sheets: Vec<Named>,
    written: u64,
    alloc: Global,
}

impl Model for Book {
    ghost use Rattle.sheet_host.specs.Books.{Sheets};
    ghost use Rattle.sheet_host.specs.Codes.{sheets_code};

    ghost Value = { Sheets };

    ghost coded = { sheets_code };

    ghost use Rattle.sheet_host.specs.Shelf.{named_sheets, IsShelf};

    ghost view = { λ b. named_sheets b.sheets.items };

    ghost invariant = { λ b. IsShelf b.sheets.items b.written };
}

impl Book {
    /// A book without sheets. It takes no memory.
    pub fn new(alloc: Global) -> Book
        ensures { result ≡ [] }
    {
        Book {
            sheets: Vec::new(alloc),
            written: 0,
            alloc,
        }
    }

    /// Adds a sheet behind the others, under a name that no other has without regard to case, and gives its number.
    /// Without memory nothing changes.
    pub fn add(&mut self, name: Units, sheet: Sheet) -> Result<SheetId, NoMemory>
        requires { IsNewName self.old name }
        ensures number { IfOk result (λ id. id.0 ≡ length self.old + 1) }
        ensures ok { IfOk result (λ _. self.new ≡ self.old ++ record { name = name; content = sheet } ∷ []) }
        ensures err { OnErr result (self.new ≡ self.old) }
    {
        let written = self.written.checked_add(sheet.written_count());
        let (Ok(number), Some(written)) = (u32::try_from(self.sheets.len() + 1), written) else {
            return Err(NoMemory);
        };
        let folded = name_of(self.alloc, name.units())?;
        self.sheets.push(Named {
            text: name,
            name: folded,
            sheet,
        })?;
        self.written = written;
        Ok(SheetId(number))
    }

    /// The sheet with a name. Raises 9 exactly where there is none.
    pub fn sheet_named(&self, name: &Name) -> Result<SheetId, Bad>
        ensures { result ≡ sheet_named self.now name.now }
    {
        match place_of(&self.sheets, name) {
            Some(place) => Ok(SheetId(place as u32 + 1)),
            None => Err(Bad::Raise(9)),
        }
    }

    /// The sheet with a number.
    pub fn sheet(&self, id: SheetId) -> &Sheet
        requires { IsSheetOf self.now id }
        ensures { result.now ≡ content_at self.now id }
    {
        &self.sheets[id.0 as usize - 1].sheet
    }

    /// How many sheets there are.
    pub fn sheets(&self) -> u32
        ensures { result ≡ length self.now }
    {
        self.sheets.len() as u32
    }

    /// The name of a sheet, as it was added.
    pub fn name(&self, id: SheetId) -> &Units
        requires { IsSheetOf self.now id }
        ensures { result.now ≡ (sheet_at self.now id).name }
    {
        &self.sheets[id.0 as usize - 1].text
    }

    /// The value of a cell: what was written there, and else its field's. Raises 1004 exactly outside of the sheet.
    /// Only a text takes memory.
    pub fn get(&self, sheet: SheetId, row: u32, column: u32) -> Result<CellValue, OrMemory<Bad>>
        requires { IsSheetOf self.now sheet }
        ensures value { Gives (λ value. value) result (value_in self.now sheet row column) }
        ensures memory { result ≡ Err answers.NoMemory → IsTrue (is_text (value_at (content_at self.now sheet) (row, column))) }
    {
        if row < 1 || SHEET_ROWS < row || column < 1 || SHEET_COLUMNS < column {
            return Err(OrMemory::Fault(Bad::Raise(1004)));
        }
        Ok(self.sheet(sheet).value(row, column)?)
    }

    /// Writes as many values as an area has cells to it by rows, and changes no other cell. Outside(Cells) exactly
    /// where the book would hold more than 4000000 written cells. Where it fails nothing changes.
    pub fn put(&mut self, area: Area, cells: Vec<CellValue>) -> Result<(), OrMemory<Bad>>
        requires sheet { IsSheetOf self.old area.sheet }
        requires inside { IsAreaInside area }
        requires count { length cells.items ≡ area.rows * area.columns }
        ensures { Puts result self.old area cells.items self.new }
    {
        let place = area.sheet.0 as usize - 1;
        let added = self.sheets[place].sheet.unwritten_in(&area);
        let written = self.written.saturating_add(added);
        if written > CELLS {
            return Err(OrMemory::Fault(Bad::Outside(OutKind::Cells)));
        }
        self.sheets[place].sheet.put_values(&area, cells, added)?;
        self.written = written;
        Ok(())
    }

    /// Writes a value to a cell of the sheet, and changes no other cell, as `put` does to an area of that cell.
    pub fn put_cell(
        &mut self,
        sheet: SheetId,
        row: u32,
        column: u32,
        cell: CellValue,
    ) -> Result<(), OrMemory<Bad>>
        requires sheet { IsSheetOf self.old sheet }
        requires inside { IsInside row column }
        ensures { Puts result self.old (one_cell sheet (row, column)) (cell ∷ []) self.new }
    {
        if self.is_full_for(sheet, row, column) {
            return Err(OrMemory::Fault(Bad::Outside(OutKind::Cells)));
        }
        let place = sheet.0 as usize - 1;
        let added = self.sheets[place].sheet.put_value(row, column, cell)?;
        self.written += u64::from(added);
        Ok(())
    }

    /// Whether the book would hold too many written cells with this one.
    fn is_full_for(&self, sheet: SheetId, row: u32, column: u32) -> bool
        requires sheet { IsSheetOf self.now sheet }
        requires inside { IsInside row column }
        ensures { result ≡ is_full_for self.now sheet (row, column) }
    {
        if self.written < CELLS {
            return false;
        }
        self.written > CELLS || self.sheet(sheet).written(row, column).is_none()
    }

    /// The first cell of an area by rows, behind a given one where one is given, that isn't Empty: its row and its column.
    /// Its time goes with the rows of fields and the written cells that it passes, not with the size of the area.
    pub fn next_filled(&self, area: Area, after: Option<(u32, u32)>) -> Option<(u32, u32)>
        requires sheet { IsSheetOf self.now area.sheet }
        requires inside { IsAreaInside area }
        ensures { IsFirst (IsFilledBehind (content_at self.now area.sheet) area after) result }
    {
        self.sheet(area.sheet).next_filled(&area, after)
    }

    /// The smallest area of a sheet that holds all its cells that aren't Empty. Where there are none it is A1.
    pub fn used(&self, sheet: SheetId) -> Area
        requires { IsSheetOf self.now sheet }
        ensures value { result ≡ used_area sheet (content_at self.now sheet) }
        ensures holds { HoldsAllFilled (content_at self.now sheet) result }
        ensures smallest { (area : Area) (first : Position) → let content = content_at self.now sheet in IsFilled content first → HoldsAllFilled content area → IsPartOf result area }
        ensures none { ((p : Position) → ¬ (IsFilled (content_at self.now sheet) p)) → result ≡ first_cell sheet }
        ensures inside { IsAreaInside result }
    {
        area_of_corners(sheet, self.sheet(sheet).used_corners())
    }
}

/// The place of the sheet with a name.
fn place_of(sheets: &[Named], name: &Name) -> Option<usize>
    ensures { result ≡ position (λ sheet. bytes_eq sheet.name name.now) sheets.now }
{
    sheets.iter().position(|sheet| sheet.name == *name)
}

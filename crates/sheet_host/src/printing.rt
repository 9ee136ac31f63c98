// Areas as addresses.
ghost use Rattle.std.specs.Prelude.{◌≡◌, ◌+◌, [], ◌∷◌, ◌++◌, IfOk, OnOk};
ghost use Rattle.std.specs.Fmt.{decimal};
ghost use Rattle.sheet_host.specs.Size.{IsAreaInside};
ghost use Rattle.sheet_host.specs.Address.{address_of, cell_text, column_letters, letter};

use crate::addresses::COLON;
use crate::area::Area;
use crate::corner::DOLLAR;
use std::alloc::Global;
use vba_base::{NoMemory, Units};

const CAPITAL_A: u16 = 0x41;

const ZERO: u16 = 0x30;

/// The address of an area: `$A$1`, or `$A$1:$B$2` for more than one cell.
pub fn address(alloc: Global, area: Area) -> Result<Units, NoMemory>
    requires { IsAreaInside area }
    ensures { IfOk result (λ text. text ≡ address_of area) }
{
    let mut text = Units::new(alloc);
    push_cell(&mut text, area.top, area.left)?;
    if area.rows > 1 || area.columns > 1 {
        text.push(COLON)?;
        push_cell(
            &mut text,
            area.top + area.rows - 1,
            area.left + area.columns - 1,
        )?;
    }
    Ok(text)
}

/// The address of a cell, by its row and its column from 1: `$A$1`.
pub fn cell_address(alloc: Global, row: u32, column: u32) -> Result<Units, NoMemory>
    ensures { IfOk result (λ text. text ≡ cell_text row column) }
{
    let mut text = Units::new(alloc);
    push_cell(&mut text, row, column)?;
    Ok(text)
}

fn push_cell(text: &mut Units, row: u32, column: u32) -> Result<(), NoMemory>
    ensures { OnOk result (text.new ≡ text.old ++ cell_text row column) }
{
    text.push(DOLLAR)?;
    push_column(text, column)?;
    text.push(DOLLAR)?;
    push_row(text, row)
}

/// One letter for the first 26 columns, two for the next 26 * 26, three for the rest.
fn push_column(text: &mut Units, column: u32) -> Result<(), NoMemory>
    ensures { OnOk result (text.new ≡ text.old ++ column_letters column) }
{
    if column > 702 {
        push_letter(text, (column - 703) / 676)?;
    }
    if column > 26 {
        push_letter(text, (column - 27) / 26)?;
    }
    push_letter(text, column.saturating_sub(1))
}

fn push_letter(text: &mut Units, place: u32) -> Result<(), NoMemory>
    ensures { OnOk result (text.new ≡ text.old ++ letter place ∷ []) }
{
    text.push(CAPITAL_A + (place % 26) as u16)
}

fn push_row(text: &mut Units, row: u32) -> Result<(), NoMemory>
    ensures { OnOk result (text.new ≡ text.old ++ decimal row) }
{
    if row >= 10 {
        push_row(text, row / 10)?;
    }
    text.push(ZERO + (row % 10) as u16)
}

// The written cells of a sheet, in pages of 256 rows.
ghost use Rattle.std.specs.Prelude.{◌≡◌, ℕ, ◌≤◌, ◌-◌, ◌^◌, fold, IfOk, OnOk, OnErr, Some, IsTrue, is_none, is_some};
ghost use Rattle.std.specs.FinMap.{get, insert};
ghost use Rattle.std.specs.Option.{option_copied};
ghost use Rattle.std.specs.BTreeMap.Range.{entries_between};
ghost use Rattle.std.specs.declared.ops.Bound.TheVariants.{Included, Excluded};
ghost use Rattle.sheet_host.specs.OneCell.{WritesSlot, is_slot_unwritten};
ghost use Rattle.sheet_host.specs.Pages.{ArePages, IsPage, cells_of_pages, cells_of_slots, page_of, kept, slot_in, HasSlot, KeepsSlots, HasSlotIn, KeepsSlotsIn, slots_with, later, later_row, later_row_of_page, later_column, widened_by_slot, widened_by_page};
ghost use Rattle.sheet_host.specs.Sheets.{greatest, columns_in, saved_among, position_cmp};
ghost use Rattle.sheet_host.specs.Size.{IsInside};

use crate::cell::CellValue;
use crate::field::has_text;
use crate::used::{Corners, widened};
use std::alloc::Global;
use std::collections::BTreeMap;
use vba_base::NoMemory;

/// Slots by row and column. A slot holds its cell once that is written.
pub type Page = BTreeMap<(u32, u32), Option<CellValue>>;

/// Pages by number.
pub type Pages = BTreeMap<u32, Page>;

/// The rows of a page.
const ROWS: u32 = 256;

/// The number of the page that has a row.
pub fn page_of(row: u32) -> u32
    requires { 1 ≤ row }
    ensures { result ≡ page_of row }
{
    (row - 1) / ROWS
}

/// What was written at a cell.
pub fn written(pages: &Pages, row: u32, column: u32) -> Option<&CellValue>
    requires pages { ArePages pages.now.entries }
    requires inside { IsInside row column }
    ensures { option_copied result ≡ get (kept pages.now.entries) (row, column) }
{
    let page = pages.get(&page_of(row))?;
    let slot = page.get(&(row, column))?;
    slot.as_ref()
}

/// Takes room for a cell. No cell changes, also where there is no memory.
pub fn take_room(alloc: Global, pages: &mut Pages, row: u32, column: u32) -> Result<(), NoMemory>
    requires pages { ArePages pages.old.entries }
    requires inside { IsInside row column }
    ensures pages { ArePages pages.new.entries }
    ensures same { kept pages.new.entries ≡ kept pages.old.entries }
    ensures room { OnOk result (HasSlot pages.new.entries (row, column)) }
    ensures keeps { KeepsSlots pages.old.entries pages.new.entries }
{
    let number = page_of(row);
    if let Some(page) = pages.get_mut(&number) {
        return take_slot(page, row, column);
    }
    let mut page = BTreeMap::new(alloc);
    take_slot(&mut page, row, column)?;
    let _ = pages.insert(number, page)?;
    Ok(())
}

/// Takes room for a cell of a page.
fn take_slot(page: &mut Page, row: u32, column: u32) -> Result<(), NoMemory>
    requires { IsInside row column }
    ensures page { (number : ℕ) → number ≡ page_of row → IsPage number page.old.entries → IsPage number page.new.entries }
    ensures same { cells_of_slots page.new.entries ≡ cells_of_slots page.old.entries }
    ensures room { OnOk result (HasSlotIn page.new.entries (row, column)) }
    ensures keeps { KeepsSlotsIn page.old.entries page.new.entries }
{
    if !page.contains_key(&(row, column)) {
        let _ = page.insert((row, column), None)?;
    }
    Ok(())
}

/// Writes a cell that has room.
pub fn fill(pages: &mut Pages, row: u32, column: u32, value: CellValue)
    requires pages { ArePages pages.old.entries }
    requires inside { IsInside row column }
    requires room { HasSlot pages.old.entries (row, column) }
    ensures pages { ArePages pages.new.entries }
    ensures cell { kept pages.new.entries ≡ insert (kept pages.old.entries) (row, column) value }
    ensures keeps { KeepsSlots pages.old.entries pages.new.entries }
{
    if let Some(page) = pages.get_mut(&page_of(row)) {
        fill_slot(page, row, column, value);
    }
}

/// Writes a cell of a page that has room for it.
fn fill_slot(page: &mut Page, row: u32, column: u32, value: CellValue)
    ensures { page.new.entries ≡ slots_with (row, column) value page.old.entries }
{
    if let Some(slot) = page.get_mut(&(row, column)) {
        *slot = Some(value);
    }
}

/// Writes a cell, and tells whether nothing was written there before. Without memory no cell changes.
pub fn put(
    alloc: Global,
    pages: &mut Pages,
    row: u32,
    column: u32,
    value: CellValue,
) -> Result<bool, NoMemory>
    requires pages { ArePages pages.old.entries }
    requires inside { IsInside row column }
    ensures pages { ArePages pages.new.entries }
    ensures cell { OnOk result (kept pages.new.entries ≡ insert (kept pages.old.entries) (row, column) value) }
    ensures added { IfOk result (λ added. added ≡ is_none (get (kept pages.old.entries) (row, column))) }
    ensures err { OnErr result (kept pages.new.entries ≡ kept pages.old.entries) }
{
    let number = page_of(row);
    if let Some(page) = pages.get_mut(&number) {
        return put_slot(page, row, column, value);
    }
    let mut page = BTreeMap::new(alloc);
    let added = put_slot(&mut page, row, column, value)?;
    let _ = pages.insert(number, page)?;
    Ok(added)
}

/// Writes a cell of a page, and tells whether nothing was written there before. Without memory nothing changes.
fn put_slot(page: &mut Page, row: u32, column: u32, value: CellValue) -> Result<bool, NoMemory>
    requires { IsInside row column }
    ensures page { (number : ℕ) → number ≡ page_of row → IsPage number page.old.entries → IsPage number page.new.entries }
    ensures cell { OnOk result (WritesSlot page.old.entries page.new.entries (row, column) value) }
    ensures added { IfOk result (λ added. added ≡ is_slot_unwritten (slot_in page.old.entries (row, column))) }
    ensures err { OnErr result (page.new.entries ≡ page.old.entries) }
{
    match page.insert((row, column), Some(value))? {
        Some(Some(_)) => Ok(false),
        _ => Ok(true),
    }
}

/// The last row, from `least` on, that has a cell which is saved as a text with units.
pub fn last_row(pages: &Pages, least: u32) -> u32
    ensures { result ≡ fold later_row_of_page least pages.now.entries }
{
    let mut last = least;
    for (_, page) in pages {
        last = last_row_of_page(page, last);
    }
    last
}

fn last_row_of_page(page: &Page, least: u32) -> u32
    ensures { result ≡ fold later_row least page.now.entries }
{
    let mut last = least;
    for (position, slot) in page {
        last = later(last, position.0, slot);
    }
    last
}

/// The later of two rows or columns, if the slot at the second has a cell which is saved as a text with units.
fn later(last: u32, number: u32, slot: &Option<CellValue>) -> u32
    ensures { result ≡ later last number slot.now }
{
    match slot {
        Some(cell) if has_text(cell) => last.max(number),
        _ => last,
    }
}

/// The last column of a row, from `least` on, that has a cell which is saved as a text with units.
pub fn last_column(pages: &Pages, row: u32, least: u32) -> u32
    requires pages { ArePages pages.now.entries }
    requires row { 1 ≤ row }
    ensures { result ≡ greatest least (columns_in row (saved_among (cells_of_pages pages.now.entries))) }
{
    match pages.get(&page_of(row)) {
        Some(page) => last_column_of_page(page, row, least),
        None => least,
    }
}

fn last_column_of_page(page: &Page, row: u32, least: u32) -> u32
    ensures { result ≡ fold later_column least (entries_between position_cmp (Included (row, 0)) (Excluded (row, 2 ^ 32 - 1)) page.now.entries) }
{
    let mut last = least;
    for (position, slot) in page.range((row, 0)..(row, u32::MAX)) {
        last = later(last, position.1, slot);
    }
    last
}

/// The corners, moved as little as all written cells want that aren't Empty.
pub fn widened_by_pages(pages: &Pages, corners: Option<Corners>) -> Option<Corners>
    ensures { result ≡ fold widened_by_page corners pages.now.entries }
{
    let mut corners = corners;
    for (_, page) in pages {
        corners = widened_by_page(page, corners);
    }
    corners
}

fn widened_by_page(page: &Page, corners: Option<Corners>) -> Option<Corners>
    ensures { result ≡ fold widened_by_slot corners page.now.entries }
{
    let mut corners = corners;
    for (position, slot) in page {
        corners = widened_by_slot(corners, position.0, position.1, slot);
    }
    corners
}

/// The corners, moved as little as the cell of a slot wants that isn't Empty.
fn widened_by_slot(
    corners: Option<Corners>,
    row: u32,
    column: u32,
    slot: &Option<CellValue>,
) -> Option<Corners>
    ensures { result ≡ widened_by_slot corners ((row, column), slot.now) }
{
    match slot {
        Some(cell) if !cell.is_empty() => widened(corners, row, column),
        _ => corners,
    }
}

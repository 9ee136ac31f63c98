ghost use Rattle.std.specs.Prelude.{◌≡◌, ◌≤◌, ◌<◌, ◌*◌, ◌+◌, ◌^◌, ℕ, ◌-◌, [], None, length, chars, flat_map, slice_index_or, fold, IfOk, OnOk, OnErr, Some, IsTrue, is_none};
ghost use Rattle.std.specs.Char.Escape.{encode_utf16};
ghost use Rattle.std.specs.FinMap.{get, len};
ghost use Rattle.std.specs.Option.{option_copied};
ghost use Rattle.sheet_host.specs.Field.{is_text};
ghost use Rattle.sheet_host.specs.Filled.{IsFilledBehind, IsFirst};
ghost use Rattle.sheet_host.specs.OneCell.{with_value};
ghost use Rattle.sheet_host.specs.Pages.{ArePages, kept, HasSlot, AllShort};
ghost use Rattle.sheet_host.specs.Sheets.{no_content, with_row, with_field, IsUnwritten, fields_of, field_at, value_at, saved_rows, saved_fields, AreInside, used_corners, placed_fields, placed_rows, widened_by_field, nth_cell, unwritten, stored, with_values};
ghost use Rattle.sheet_host.specs.Size.{sheet_rows, sheet_columns, IsInside, IsAreaInside};
ghost use Rattle.sheet_host.specs.Smallest.{CountFromOne};

use crate::area::Area;
use crate::cell::CellValue;
use crate::field::value_of_field;
use crate::filled::{first_filled, search_of};
use crate::pages::{Pages, fill, last_column, last_row, put, take_room, widened_by_pages, written};
use crate::used::{Corners, widened};
use field_table::FieldTable;
use std::alloc::Global;
use std::collections::BTreeMap;
use std::marker::Model;
use vba_base::NoMemory;

/// A sheet: its rows of fields as read, and the cells that were written since. Rows and columns count from 1; a sheet
/// has 1048576 rows and 16384 columns.
#[derive(Drop)]
pub struct Sheet {
    rows: FieldTable,
    pages: Pages,
    written: u64,
    alloc: Global,
}

impl Model for Sheet {
    ghost use Rattle.sheet_host.specs.Codes.{content_code};
    ghost use Rattle.sheet_host.specs.Sheets.{SheetContent};
    ghost use Rattle.sheet_host.specs.Pages.{IsKept, kept};

    ghost Value = { SheetContent };

    ghost coded = { content_code };

    ghost view = { λ s. record { rows = s.rows; cells = kept s.pages.entries } };

    ghost invariant = { λ s. IsKept s.rows s.pages.entries s.written };
}

impl Sheet {
    /// A sheet without rows. It takes no memory.
    pub fn new(alloc: Global) -> Sheet
        ensures { result ≡ no_content }
    {
        Sheet {
            rows: FieldTable::new(alloc),
            pages: BTreeMap::new(alloc),
            written: 0,
            alloc,
        }
    }

    /// A sheet without rows that has room for so many units, fields and rows to be read.
    pub fn with_room(
        alloc: Global,
        units: usize,
        fields: usize,
        rows: usize,
    ) -> Result<Sheet, NoMemory>
        ensures { IfOk result (λ sheet. sheet ≡ no_content) }
    {
        Ok(Sheet {
            rows: FieldTable::with_room(alloc, units, fields, rows)?,
            pages: BTreeMap::new(alloc),
            written: 0,
            alloc,
        })
    }

    /// Adds a row without fields, to a sheet that nothing was written to. Without memory nothing changes.
    pub fn push_row(&mut self) -> Result<(), NoMemory>
        requires unwritten { IsUnwritten self.old }
        requires room { length self.old.rows < sheet_rows }
        ensures ok { OnOk result (self.new ≡ with_row self.old) }
        ensures err { OnErr result (self.new ≡ self.old) }
    {
        self.rows.push_row()
    }

    /// Adds a field to the last row of a sheet that nothing was written to. Without memory, and where the fields would
    /// have more than 4294967295 units, with one or three for the length of each, nothing changes.
    pub fn push_field(&mut self, text: &[u16]) -> Result<(), NoMemory>
        requires unwritten { IsUnwritten self.old }
        requires row { 0 < length self.old.rows }
        requires room { length (fields_of self.old (length self.old.rows)) < sheet_columns }
        ensures ok { OnOk result (self.new ≡ with_field self.old text.now) }
        ensures err { OnErr result (self.new ≡ self.old) }
    {
        self.rows.push_field(text)
    }

    /// Adds a field with the UTF-16 units of a text, as `push_field` does.
    pub fn push_text(&mut self, text: &str) -> Result<(), NoMemory>
        requires unwritten { IsUnwritten self.old }
        requires row { 0 < length self.old.rows }
        requires room { length (fields_of self.old (length self.old.rows)) < sheet_columns }
        ensures ok { OnOk result (self.new ≡ with_field self.old (flat_map encode_utf16 (chars text.now))) }
        ensures err { OnErr result (self.new ≡ self.old) }
    {
        self.rows.push_text(text)
    }

    /// How many rows were read.
    pub fn row_count(&self) -> u32
        ensures rows { result ≡ length self.now.rows }
        ensures inside { result ≤ sheet_rows }
    {
        self.rows.row_count() as u32
    }

    /// How many fields of a row were read. The row must be one that was read.
    pub fn field_count(&self, row: u32) -> u32
        requires first { 1 ≤ row }
        requires last { row ≤ length self.now.rows }
        ensures fields { result ≡ length (fields_of self.now row) }
        ensures inside { result ≤ sheet_columns }
    {
        self.rows.field_count(row as usize - 1) as u32
    }

    /// The text of a field that was read.
    pub fn field_text(&self, row: u32, column: u32) -> &[u16]
        requires first_row { 1 ≤ row }
        requires last_row { row ≤ length self.now.rows }
        requires first_column { 1 ≤ column }
        requires last_column { column ≤ length (fields_of self.now row) }
        ensures { result.now ≡ field_at self.now (row, column) }
    {
        self.rows.text(row as usize - 1, column as usize - 1)
    }

    /// What was written at a cell of the sheet. None exactly where nothing was.
    pub fn written(&self, row: u32, column: u32) -> Option<&CellValue>
        requires { IsInside row column }
        ensures { option_copied result ≡ get self.now.cells (row, column) }
    {
        written(&self.pages, row, column)
    }

    /// How many rows a saved sheet has: up to the last that was read or has a cell with a text.
    pub fn saved_rows(&self) -> u32
        ensures rows { result ≡ saved_rows self.now }
        ensures inside { result ≤ sheet_rows }
    {
        last_row(&self.pages, self.rows.row_count() as u32)
    }

    /// How many fields a row of a saved sheet has: up to the last that was read or has a cell with a text.
    pub fn saved_fields(&self, row: u32) -> u32
        requires first { 1 ≤ row }
        requires last { row ≤ saved_rows self.now }
        ensures fields { result ≡ saved_fields self.now row }
        ensures inside { result ≤ sheet_columns }
    {
        let read = self.rows.field_count(row as usize - 1) as u32;
        last_column(&self.pages, row, read)
    }

    /// The value of a cell of the sheet. Only a text takes memory.
    pub(crate) fn value(&self, row: u32, column: u32) -> Result<CellValue, NoMemory>
        requires { IsInside row column }
        ensures value { IfOk result (λ value. value ≡ value_at self.now (row, column)) }
        ensures memory { OnErr result (IsTrue (is_text (value_at self.now (row, column)))) }
    {
        if let Some(value) = written(&self.pages, row, column) {
            return value.copy(self.alloc);
        }
        let field = self.rows.text(row as usize - 1, column as usize - 1);
        value_of_field(self.alloc, field)
    }

    /// How many cells of an area nothing was written to.
    pub(crate) fn unwritten_in(&self, area: &Area) -> u64
        requires { IsAreaInside area.now }
        ensures { result ≡ unwritten self.now.cells area.now (area.now.rows * area.now.columns) }
    {
        unwritten_in(&self.pages, area)
    }

    /// How many cells were written.
    pub(crate) fn written_count(&self) -> u64
        ensures { result ≡ len self.now.cells }
    {
        self.written
    }

    /// Writes these values to an area by rows, of whose cells `added` weren't written. Without memory nothing changes.
    pub(crate) fn put_values(
        &mut self,
        area: &Area,
        values: Vec<CellValue>,
        added: u64,
    ) -> Result<(), NoMemory>
        requires inside { IsAreaInside area.now }
        requires count { length values.items ≡ area.now.rows * area.now.columns }
        requires added { added ≡ unwritten self.old.cells area.now (length values.items) }
        requires fits { len self.old.cells + added < 2 ^ 64 }
        ensures ok { OnOk result (self.new ≡ with_values self.old area.now values.items) }
        ensures err { OnErr result (self.new ≡ self.old) }
    {
        take_area(self.alloc, &mut self.pages, area)?;
        fill_area(&mut self.pages, area, values);
        self.written += added;
        Ok(())
    }

    /// Writes a cell, and tells whether nothing was written there before. Without memory nothing changes.
    pub(crate) fn put_value(
        &mut self,
        row: u32,
        column: u32,
        value: CellValue,
    ) -> Result<bool, NoMemory>
        requires inside { IsInside row column }
        requires fits { len self.old.cells + 1 < 2 ^ 64 }
        ensures ok { OnOk result (self.new ≡ with_value self.old (row, column) value) }
        ensures added { IfOk result (λ added. added ≡ is_none (get self.old.cells (row, column))) }
        ensures err { OnErr result (self.new ≡ self.old) }
    {
        let added = put(self.alloc, &mut self.pages, row, column, value)?;
        self.written += u64::from(added);
        Ok(added)
    }

    /// The first cell of an area by rows, behind a given one, that isn't Empty.
    pub(crate) fn next_filled(&self, area: &Area, after: Option<(u32, u32)>) -> Option<(u32, u32)>
        requires { IsAreaInside area.now }
        ensures { IsFirst (IsFilledBehind self.now area.now after) result }
    {
        first_filled(&self.rows, &self.pages, search_of(area, after))
    }

    /// The corners of the smallest area that holds all cells that aren't Empty.
    pub(crate) fn used_corners(&self) -> Option<Corners>
        ensures places { CountFromOne self.now }
        ensures corners { result ≡ used_corners self.now }
        ensures inside { AreInside result }
    {
        widened_by_pages(&self.pages, widened_by_rows(&self.rows, &self.pages))
    }
}

/// The i-th cell of an area by rows, counted from 0.
pub fn nth_cell(area: &Area, i: u64) -> (u32, u32)
    requires inside { IsAreaInside area.now }
    requires small { i < area.now.rows * area.now.columns }
    ensures cell { result ≡ nth_cell area.now i }
    ensures inside { IsInside result.0 result.1 }
{
    let columns = u64::from(area.columns);
    (
        area.top + (i / columns) as u32,
        area.left + (i % columns) as u32,
    )
}

/// How many cells of an area nothing was written to.
fn unwritten_in(pages: &Pages, area: &Area) -> u64
    requires pages { ArePages pages.now.entries }
    requires inside { IsAreaInside area.now }
    ensures { result ≡ unwritten (kept pages.now.entries) area.now (area.now.rows * area.now.columns) }
{
    let mut count = 0;
    for i in 0..u64::from(area.rows) * u64::from(area.columns) {
        let (row, column) = nth_cell(area, i);
        if written(pages, row, column).is_none() {
            count += 1;
        }
    }
    count
}

/// Takes room for the cells of an area. No cell changes, also where there is no memory.
fn take_area(alloc: Global, pages: &mut Pages, area: &Area) -> Result<(), NoMemory>
    requires pages { ArePages pages.old.entries }
    requires inside { IsAreaInside area.now }
    ensures pages { ArePages pages.new.entries }
    ensures same { kept pages.new.entries ≡ kept pages.old.entries }
    ensures room { OnOk result ((i : ℕ) → i < area.now.rows * area.now.columns → HasSlot pages.new.entries (nth_cell area.now i)) }
{
    for i in 0..u64::from(area.rows) * u64::from(area.columns) {
        let (row, column) = nth_cell(area, i);
        take_room(alloc, pages, row, column)?;
    }
    Ok(())
}

/// Writes an area whose cells have room.
fn fill_area(pages: &mut Pages, area: &Area, values: Vec<CellValue>)
    requires pages { ArePages pages.old.entries }
    requires inside { IsAreaInside area.now }
    requires count { length values.items ≡ area.now.rows * area.now.columns }
    requires room { (i : ℕ) → i < area.now.rows * area.now.columns → HasSlot pages.old.entries (nth_cell area.now i) }
    ensures pages { ArePages pages.new.entries }
    ensures cells { kept pages.new.entries ≡ stored (kept pages.old.entries) area.now 0 values.items }
{
    let mut i = 0;
    for value in values {
        let (row, column) = nth_cell(area, i);
        fill(pages, row, column, value);
        i += 1;
    }
}

/// The corners of the fields with units over which nothing was written.
fn widened_by_rows(rows: &FieldTable, pages: &Pages) -> Option<Corners>
    requires pages { ArePages pages.now.entries }
    requires rows { length rows.now ≤ sheet_rows }
    requires short { AllShort rows.now }
    ensures corners { result ≡ fold (widened_by_field (kept pages.now.entries)) None (placed_rows 1 rows.now) }
    ensures inside { AreInside result }
{
    let mut corners = None;
    for place in 0..rows.row_count() {
        corners = widened_by_fields(rows, place, pages, corners);
    }
    corners
}

/// The corners, moved as little as the fields of the row at a place want.
fn widened_by_fields(
    rows: &FieldTable,
    place: usize,
    pages: &Pages,
    corners: Option<Corners>,
) -> Option<Corners>
    requires pages { ArePages pages.now.entries }
    requires last { place < sheet_rows }
    requires short { length (slice_index_or rows.now place []) ≤ sheet_columns }
    ensures corners { result ≡ fold (widened_by_field (kept pages.now.entries)) corners (placed_fields (place + 1) 1 (slice_index_or rows.now place [])) }
    ensures inside { AreInside corners → AreInside result }
{
    let mut corners = corners;
    let row = place as u32 + 1;
    for field in 0..rows.field_count(place) {
        let text = rows.text(place, field);
        corners = widened_by_field(text, row, field as u32 + 1, pages, corners);
    }
    corners
}

/// The corners, moved as little as a field wants that has units and over which nothing was written.
fn widened_by_field(
    text: &[u16],
    row: u32,
    column: u32,
    pages: &Pages,
    corners: Option<Corners>,
) -> Option<Corners>
    requires pages { ArePages pages.now.entries }
    requires inside { IsInside row column }
    ensures corners { result ≡ widened_by_field (kept pages.now.entries) corners ((row, column), text.now) }
    ensures inside { AreInside corners → AreInside result }
{
    if !text.is_empty() && written(pages, row, column).is_none() {
        widened(corners, row, column)
    } else {
        corners
    }
}

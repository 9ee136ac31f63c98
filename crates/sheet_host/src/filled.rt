// The search for the first cell by rows that isn't Empty. It goes over the rows of fields and the written cells alone.
ghost use Rattle.std.specs.Prelude.{◌≡◌, ◌+◌, ◌≤◌, ◌<◌, [], max, not};
ghost use Rattle.std.specs.BTreeMap.Range.{entries_between};
ghost use Rattle.std.specs.Ordering.{nat_cmp};
ghost use Rattle.std.specs.declared.ops.Bound.TheVariants.{Included, Excluded};
ghost use Rattle.sheet_host.specs.Field.{is_empty};
ghost use Rattle.sheet_host.specs.Filled.{IsFilledBehind, IsFirst};
ghost use Rattle.sheet_host.specs.Pages.{ArePages};
ghost use Rattle.sheet_host.specs.Search.{IsFirstColumn, IsFound, IsSearch, before_row, first_among_pages, first_in_page, is_wanted, kept_content};
ghost use Rattle.sheet_host.specs.Sheets.{Position, SheetContent, value_at};
ghost use Rattle.sheet_host.specs.Size.{IsAreaInside, IsInside, sheet_columns, sheet_rows};

use crate::area::{Area, SHEET_COLUMNS, SHEET_ROWS};
use crate::cell::CellValue;
use crate::pages::{Page, Pages, page_of, written};
use field_table::FieldTable;

/// What is gone over: the cells from a place on, by rows, that stand above the row `end_row`, and in the columns from
/// `left` on that stand before `end_column`.
#[derive(Clone, Copy)]
pub struct Search {
    pub row: u32,
    pub column: u32,
    pub end_row: u32,
    pub left: u32,
    pub end_column: u32,
}

/// The search for a cell of an area behind a given one.
pub fn search_of(area: &Area, after: Option<(u32, u32)>) -> Search
    requires { IsAreaInside area.now }
    ensures search { IsSearch result }
    ensures same { (s : SheetContent) (p : Position) → (IsFilledBehind s area.now after p → IsFound s result p) × (IsFound s result p → IsFilledBehind s area.now after p) }
{
    let (row, column) = match after {
        Some((row, column)) if area.top <= row => (row, column.saturating_add(1)),
        _ => (area.top, area.left),
    };
    Search {
        row,
        column,
        end_row: area.top + area.rows,
        left: area.left,
        end_column: area.left + area.columns,
    }
}

/// The first cell of a search that isn't Empty.
pub fn first_filled(rows: &FieldTable, pages: &Pages, search: Search) -> Option<(u32, u32)>
    requires pages { ArePages pages.now.entries }
    requires search { IsSearch search }
    ensures { IsFirst (IsFound (kept_content rows.now pages.now.entries) search) result }
{
    let read = rows.row_count().min(SHEET_ROWS as usize) as u32 + 1;
    let end = read.min(search.end_row);
    if let Some(place) = first_in_rows(rows, pages, search, end) {
        return Some(place);
    }
    first_written(pages, from_row(search, end))
}

/// The part of a search from a row on.
fn from_row(search: Search, row: u32) -> Search
    requires search { IsSearch search }
    ensures search { IsSearch result }
    ensures same { (s : SheetContent) (p : Position) → row ≤ p.0 → (IsFound s search p → IsFound s result p) }
    ensures part { (s : SheetContent) (p : Position) → IsFound s result p → IsFound s search p }
    ensures row { result.row ≡ max row search.row }
    ensures end { result.end_row ≡ search.end_row }
{
    if row <= search.row {
        search
    } else {
        Search {
            row,
            column: search.left,
            ..search
        }
    }
}

/// The first cell of a search in the rows before `end` that isn't Empty.
fn first_in_rows(rows: &FieldTable, pages: &Pages, search: Search, end: u32) -> Option<(u32, u32)>
    requires pages { ArePages pages.now.entries }
    requires search { IsSearch search }
    requires end { end ≤ search.end_row }
    ensures { IsFirst (IsFound (kept_content rows.now pages.now.entries) (before_row search end)) result }
{
    for row in search.row..end {
        let part = from_row(search, row);
        if let Some(place) = first_in_row(rows, pages, part) {
            return Some(place);
        }
    }
    None
}

/// The first cell of a search in its first row that isn't Empty.
fn first_in_row(rows: &FieldTable, pages: &Pages, search: Search) -> Option<(u32, u32)>
    requires pages { ArePages pages.now.entries }
    requires search { IsSearch search }
    requires row { search.row < search.end_row }
    ensures { IsFirst (IsFound (kept_content rows.now pages.now.entries) (before_row search (search.row + 1))) result }
{
    let from = search.left.max(search.column);
    let fields = rows
        .field_count(search.row as usize - 1)
        .min(SHEET_COLUMNS as usize) as u32
        + 1;
    let end = fields.min(search.end_column);
    if let Some(column) = first_in_fields(rows, pages, search.row, from, end) {
        return Some((search.row, column));
    }
    first_written(
        pages,
        Search {
            column: from.max(fields),
            end_row: search.row + 1,
            ..search
        },
    )
}

/// The first column of a row, from one on and before another, whose cell isn't Empty.
fn first_in_fields(rows: &FieldTable, pages: &Pages, row: u32, from: u32, end: u32) -> Option<u32>
    requires pages { ArePages pages.now.entries }
    requires first_row { 1 ≤ row }
    requires last_row { row ≤ sheet_rows }
    requires first_column { 1 ≤ from }
    requires last_column { end ≤ sheet_columns + 1 }
    ensures { IsFirstColumn (kept_content rows.now pages.now.entries) row from end result }
{
    for column in from..end {
        if is_filled(rows, pages, row, column) {
            return Some(column);
        }
    }
    None
}

/// Whether a cell of the sheet isn't Empty.
fn is_filled(rows: &FieldTable, pages: &Pages, row: u32, column: u32) -> bool
    requires pages { ArePages pages.now.entries }
    requires inside { IsInside row column }
    ensures { result ≡ not (is_empty (value_at (kept_content rows.now pages.now.entries) (row, column))) }
{
    match written(pages, row, column) {
        Some(cell) => !cell.is_empty(),
        None => !rows.text(row as usize - 1, column as usize - 1).is_empty(),
    }
}

/// The first written cell of a search that isn't Empty.
fn first_written(pages: &Pages, search: Search) -> Option<(u32, u32)>
    requires pages { ArePages pages.now.entries }
    requires search { IsSearch search }
    ensures { IsFirst (IsFound (kept_content [] pages.now.entries) search) result }
{
    if search.row < search.end_row {
        let first = page_of(search.row);
        let end = page_of(search.end_row) + 1;
        first_in_pages(pages, search, first, end)
    } else {
        None
    }
}

/// The first cell of a search in the pages from one number on and before another that isn't Empty.
fn first_in_pages(pages: &Pages, search: Search, first: u32, end: u32) -> Option<(u32, u32)>
    requires row { search.row < search.end_row }
    requires pages { first ≤ end }
    ensures { result ≡ first_among_pages search (entries_between nat_cmp (Included first) (Excluded end) pages.now.entries) }
{
    for (_, page) in pages.range(first..end) {
        if let Some(place) = first_in_page(page, search) {
            return Some(place);
        }
    }
    None
}

/// The first cell of a search in a page that isn't Empty.
fn first_in_page(page: &Page, search: Search) -> Option<(u32, u32)>
    requires row { search.row < search.end_row }
    ensures { result ≡ first_in_page search page.now.entries }
{
    for (position, slot) in page.range((search.row, search.column)..(search.end_row, 0)) {
        if is_wanted(search, *position, slot) {
            return Some(*position);
        }
    }
    None
}

/// Whether a slot holds a cell that isn't Empty, in a column of the search.
fn is_wanted(search: Search, position: (u32, u32), slot: &Option<CellValue>) -> bool
    ensures { result ≡ is_wanted search position slot.now }
{
    match slot {
        Some(cell) => {
            !cell.is_empty() && search.left <= position.1 && position.1 < search.end_column
        }
        None => false,
    }
}

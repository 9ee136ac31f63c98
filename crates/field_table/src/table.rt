ghost use Rattle.std.specs.Prelude.{◌≡◌, ◌≤◌, ◌<◌, ◌-◌, ◌+◌, ◌++◌, ◌∷◌, [], length, flat_map, chars, slice_index_or, slice_set, IfOk, OnOk, OnErr};
ghost use Rattle.std.specs.Char.Escape.{encode_utf16};
ghost use Rattle.field_table.specs.Table.{RiseTo};

use crate::text_list::TextList;
use std::alloc::Global;
use std::marker::Model;
use vba_base::NoMemory;

/// Rows of field texts: the texts of all fields, and which of them is the first of each row. Places count from 0.
#[derive(Drop)]
pub struct FieldTable {
    fields: TextList,
    rows: Vec<u32>,
}

impl Model for FieldTable {
    ghost use Rattle.std.specs.Prelude.{ℕ, List, length};
    ghost use Rattle.field_table.specs.Table.{RiseTo, pieces};

    ghost Value = { List (List (List ℕ)) };

    ghost view = { λ t. pieces t.fields t.rows.items };

    ghost invariant = { λ t. RiseTo (length t.fields) t.rows.items };
}

impl FieldTable {
    /// A table without rows. It takes no memory.
    pub fn new(alloc: Global) -> FieldTable
        ensures { result ≡ [] }
    {
        FieldTable {
            fields: TextList::new(alloc),
            rows: Vec::new(alloc),
        }
    }

    /// A table without rows that has room for so many units, fields and rows.
    pub fn with_room(
        alloc: Global,
        units: usize,
        fields: usize,
        rows: usize,
    ) -> Result<FieldTable, NoMemory>
        ensures { IfOk result (λ table. table ≡ []) }
    {
        let fields = TextList::with_room(alloc, units, fields)?;
        let rows = Vec::with_capacity(alloc, rows)?;
        Ok(FieldTable { fields, rows })
    }

    /// How many rows there are.
    pub fn row_count(&self) -> usize
        ensures { result ≡ length self.now }
    {
        self.rows.len()
    }

    /// How many fields a row has. A row that isn't there has none.
    pub fn field_count(&self, row: usize) -> usize
        ensures { result ≡ length (slice_index_or self.now row []) }
    {
        if row >= self.rows.len() {
            return 0;
        }
        let (first, end) = piece(&self.rows, row, self.fields.len());
        (end - first) as usize
    }

    /// The text of a field. A field that isn't there has no units.
    pub fn text(&self, row: usize, column: usize) -> &[u16]
        ensures { result.now ≡ slice_index_or (slice_index_or self.now row []) column [] }
    {
        if row >= self.rows.len() {
            return &[];
        }
        let (first, end) = piece(&self.rows, row, self.fields.len());
        if column >= (end - first) as usize {
            return &[];
        }
        self.fields.text(first + column as u32)
    }

    /// Adds a row without fields. Without memory nothing changes.
    pub fn push_row(&mut self) -> Result<(), NoMemory>
        ensures ok { OnOk result (self.new ≡ self.old ++ [] ∷ []) }
        ensures err { OnErr result (self.new ≡ self.old) }
    {
        self.rows.push(self.fields.len())?;
        Ok(())
    }

    /// Adds a field to the last row. Without memory, and where the fields would have more than 4294967295 units, with one
    /// or three for the length of each, nothing changes.
    pub fn push_field(&mut self, text: &[u16]) -> Result<(), NoMemory>
        requires { 0 < length self.old }
        ensures ok { OnOk result (let last = length self.old - 1 in self.new ≡ slice_set self.old last (slice_index_or self.old last [] ++ text.now ∷ [])) }
        ensures err { OnErr result (self.new ≡ self.old) }
    {
        self.fields.push(text)?;
        Ok(())
    }

    /// Adds a field with the UTF-16 units of a text, as `push_field` does.
    pub fn push_text(&mut self, text: &str) -> Result<(), NoMemory>
        requires { 0 < length self.old }
        ensures ok { OnOk result (let last = length self.old - 1 in self.new ≡ slice_set self.old last (slice_index_or self.old last [] ++ flat_map encode_utf16 (chars text.now) ∷ [])) }
        ensures err { OnErr result (self.new ≡ self.old) }
    {
        self.fields.push_text(text)?;
        Ok(())
    }
}

/// Where a piece begins and where it ends: the last one ends at the end of all.
fn piece(starts: &[u32], place: usize, end: u32) -> (u32, u32)
    requires inside { place < length starts.now }
    requires rise { RiseTo end starts.now }
    ensures start { result.0 ≡ slice_index_or starts.now place 0 }
    ensures end { result.1 ≡ slice_index_or starts.now (place + 1) end }
    ensures order { result.0 ≤ result.1 }
    ensures below { result.1 ≤ end }
{
    (starts[place], start_or(starts, place + 1, end))
}

/// Where a piece begins. One that isn't there begins at the end of all.
fn start_or(starts: &[u32], place: usize, end: u32) -> u32
    ensures { result ≡ slice_index_or starts.now place end }
{
    starts.get(place).copied().unwrap_or(end)
}

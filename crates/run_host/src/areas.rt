// Ranges that ranges give, by numbers.
ghost use Rattle.std.specs.Prelude.{◌≡◌, ℤ, map};
ghost use Rattle.vba_values.specs.View.{view};
ghost use Rattle.sheet_host.specs.Area.{offset_of, resized};
ghost use Rattle.vba_meaning.specs.Memory.{Memory as PlainMemory};
ghost use Rattle.vba_meaning.specs.Effects.{range_value, slot_values};
ghost use Rattle.vba_meaning.specs.Host.{area_by, area_found, cell_found, cells_found, whole_sheet};
ghost use Rattle.run_memory.specs.Acts.{Acts};
ghost use Rattle.run_memory.specs.View.{memory_view, slot_view};
ghost use Rattle.run_host.specs.Members.{two_numbers};

use crate::arguments::long_of;
use run_memory::{Memory, Slot, area_in};
use sheet_host::{Area, offset, resize};
use std::alloc::Global;
use vba_base::OrMemory;
use vba_values::{Bad, HostRef, ObjRef, Value};

/// The rows and the columns of a sheet.
const SHEET_ROWS: u32 = 1_048_576;

const SHEET_COLUMNS: u32 = 16_384;

/// The reference to an area.
pub fn range_value(area: Area) -> Value
    ensures { view result ≡ range_value area }
{
    Value::Object(ObjRef::Host(HostRef::Area {
        sheet: area.sheet.0,
        top: area.top,
        left: area.left,
        rows: area.rows,
        columns: area.columns,
    }))
}

/// An area that was found, as a range.
pub fn area_found(area: Result<Area, Bad>) -> Result<Value, OrMemory<Bad>>
    ensures { (m : PlainMemory) → Acts view result m (area_found area m) }
{
    match area {
        Ok(area) => Ok(range_value(area)),
        Err(bad) => Err(OrMemory::Fault(bad)),
    }
}

/// All cells of a sheet.
pub fn whole_sheet(sheet: u32) -> Area
    ensures { result ≡ whole_sheet sheet }
{
    area_in(sheet, 1, 1, SHEET_ROWS, SHEET_COLUMNS)
}

/// The cells of an area, or the one in a row and a column.
pub fn cells_found(
    memory: &Memory,
    alloc: Global,
    area: Area,
    slots: &[Slot],
) -> Result<Value, OrMemory<Bad>>
    ensures { Acts view result (memory_view memory.now) (cells_found area (slot_values (map slot_view slots.now)) (memory_view memory.now)) }
{
    match slots {
        [] => Ok(range_value(area)),
        [_, ..] => cell_found(memory, alloc, area, slots),
    }
}

/// The cell in a row and a column, both counted from an area's first cell.
#[tactic(auto, using(run_memory::proofs::Refused::refused_then, crate::proofs::Parts::by_two))]
pub fn cell_found(
    memory: &Memory,
    alloc: Global,
    area: Area,
    slots: &[Slot],
) -> Result<Value, OrMemory<Bad>>
    ensures { Acts view result (memory_view memory.now) (cell_found area (slot_values (map slot_view slots.now)) (memory_view memory.now)) }
{
    let (row, column) = two_numbers(memory, alloc, slots)?;
    let first = Area {
        rows: 1,
        columns: 1,
        ..area
    };
    area_found(offset(first, i64::from(row) - 1, i64::from(column) - 1))
}

/// The area moved down by rows and to the right by columns.
#[tactic(auto, using(run_memory::proofs::Refused::refused_then, crate::proofs::Parts::by_two))]
pub fn moved(
    memory: &Memory,
    alloc: Global,
    area: Area,
    slots: &[Slot],
) -> Result<Value, OrMemory<Bad>>
    ensures { Acts view result (memory_view memory.now) (area_by (offset_of area) (slot_values (map slot_view slots.now)) (memory_view memory.now)) }
{
    let (rows, columns) = two_numbers(memory, alloc, slots)?;
    area_found(offset(area, i64::from(rows), i64::from(columns)))
}

/// The area with other numbers of rows and columns.
#[tactic(auto, using(run_memory::proofs::Refused::refused_then, crate::proofs::Parts::by_two))]
pub fn sized(
    memory: &Memory,
    alloc: Global,
    area: Area,
    slots: &[Slot],
) -> Result<Value, OrMemory<Bad>>
    ensures { Acts view result (memory_view memory.now) (area_by (resized area) (slot_values (map slot_view slots.now)) (memory_view memory.now)) }
{
    let (rows, columns) = two_numbers(memory, alloc, slots)?;
    area_found(resize(area, i64::from(rows), i64::from(columns)))
}

/// The numbers that two arguments are: 449 for fewer of them, 450 for more.
#[tactic(auto, using(run_memory::proofs::Refused::refused_then))]
fn two_numbers(memory: &Memory, alloc: Global, slots: &[Slot]) -> Result<(i32, i32), OrMemory<Bad>>
    ensures { Acts (λ numbers. numbers) result (memory_view memory.now) (two_numbers (slot_values (map slot_view slots.now)) (memory_view memory.now)) }
{
    match slots {
        [first, second] => {
            let first = long_of(memory, alloc, first)?;
            let second = long_of(memory, alloc, second)?;
            Ok((first, second))
        }
        [] | [_] => Err(OrMemory::Fault(Bad::Raise(449))),
        _ => Err(OrMemory::Fault(Bad::Raise(450))),
    }
}

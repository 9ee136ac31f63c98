// What members of host objects are, by their numbers.
ghost use Rattle.std.specs.Prelude.{◌≡◌, ◌≢◌, ◌*◌, IfOk, List, map, pos};
ghost use Rattle.vba_values.specs.Val.{Val, text};
ghost use Rattle.vba_values.specs.Whole.{ranged};
ghost use Rattle.vba_values.specs.declared.object.HostRef.TheVariants as host;
ghost use Rattle.vba_values.specs.declared.types.WholeKind.TheVariants as kind;
ghost use Rattle.vba_values.specs.View.{view};
ghost use Rattle.sheet_host.specs.Address.{address_of};
ghost use Rattle.bound_project.specs.Project.{Declarations as PlainDeclarations};
ghost use Rattle.bound_project.specs.View.{declarations_view};
ghost use Rattle.vba_meaning.specs.Memory.{Memory as PlainMemory};
ghost use Rattle.vba_meaning.specs.Effects.{Fine, answered, slot_values};
ghost use Rattle.vba_meaning.specs.Host.{member_value};
ghost use Rattle.run_memory.specs.Acts.{Acts};
ghost use Rattle.run_memory.specs.View.{memory_view, slot_view};
ghost use Rattle.run_host.specs.Tells.{Tells};
ghost use Rattle.run_host.specs.View.{told_view};

use crate::areas::{cell_found, cells_found, moved, range_value, sized, whole_sheet};
use crate::clearing::cleared;
use crate::events::Told;
use crate::ranges::range_found;
use crate::sheets::{long_value, sheet_found, sheet_value};
use bound_project::{Declarations, ErrMember};
use run_events::noted;
use run_memory::{Memory, Slot, area_in, has_area, has_sheet};
use sheet_host::{Area, SheetId, address};
use std::alloc::Global;
use vba_base::OrMemory;
use vba_values::{Bad, HostRef, ObjRef, Value};

/// What a member with a number is, or what a call of it does and gives.
#[tactic(auto, using(crate::proofs::Telling::acts_tell))]
pub fn member_value(
    memory: &mut Memory,
    alloc: Global,
    declared: &Declarations,
    of: HostRef,
    number: u16,
    slots: &[Slot],
    told: &mut Told,
) -> Result<Value, OrMemory<Bad>>
    ensures { Tells view result (told_view told.old) (told_view told.new) (memory_view memory.new) (member_value (declarations_view declared.now) of number (slot_values (map slot_view slots.now)) (memory_view memory.old)) }
{
    match of {
        HostRef::Application => mark_of(memory, number),
        HostRef::Workbook => Ok(Value::Object(ObjRef::Host(HostRef::Sheets))),
        HostRef::Sheets => of_sheets(memory, alloc, number, slots),
        HostRef::ErrObject => of_err(memory, alloc, declared, number),
        HostRef::Sheet { sheet } => of_sheet(memory, alloc, sheet, number, slots),
        HostRef::Area {
            sheet,
            top,
            left,
            rows,
            columns,
        } => {
            let area = area_in(sheet, top, left, rows, columns);
            of_area(memory, alloc, area, number, slots, told)
        }
        HostRef::RowsOf { count } | HostRef::ColumnsOf { count } => Ok(long_value(count)?),
    }
}

/// A mark of Application.
fn mark_of(memory: &Memory, number: u16) -> Result<Value, OrMemory<Bad>>
    ensures { (d : PlainDeclarations) (vs : List Val) → Acts view result (memory_view memory.now) (member_value d host.Application number vs (memory_view memory.now)) }
{
    match number {
        0 => Ok(Value::Boolean(memory.events_on)),
        1 => Ok(Value::Boolean(memory.updates_screen)),
        2 => Ok(Value::Boolean(memory.shows_alerts)),
        _ => Err(OrMemory::Fault(Bad::Raise(438))),
    }
}

/// A member of the sheets of the book.
fn of_sheets(
    memory: &Memory,
    alloc: Global,
    number: u16,
    slots: &[Slot],
) -> Result<Value, OrMemory<Bad>>
    ensures { (d : PlainDeclarations) → Acts view result (memory_view memory.now) (member_value d host.Sheets number (slot_values (map slot_view slots.now)) (memory_view memory.now)) }
{
    match number {
        0 => Ok(long_value(memory.book.sheets())?),
        1 => sheet_found(memory, alloc, slots),
        _ => Err(OrMemory::Fault(Bad::Raise(438))),
    }
}

/// A member of Err.
fn of_err(
    memory: &mut Memory,
    alloc: Global,
    declared: &Declarations,
    number: u16,
) -> Result<Value, OrMemory<Bad>>
    ensures { (vs : List Val) → Acts view result (memory_view memory.new) (member_value (declarations_view declared.now) host.ErrObject number vs (memory_view memory.old)) }
{
    match number {
        0 => Ok(memory.err_of(alloc, declared, ErrMember::Number)?),
        1 => Ok(memory.err_of(alloc, declared, ErrMember::Source)?),
        2 => Ok(memory.err_of(alloc, declared, ErrMember::Description)?),
        3 => {
            memory.err_off();
            Ok(Value::Empty)
        }
        _ => Err(OrMemory::Fault(Bad::Raise(438))),
    }
}

/// A member of a sheet.
fn of_sheet(
    memory: &Memory,
    alloc: Global,
    sheet: u32,
    number: u16,
    slots: &[Slot],
) -> Result<Value, OrMemory<Bad>>
    ensures { (d : PlainDeclarations) → Acts view result (memory_view memory.now) (member_value d (host.Sheet sheet) number (slot_values (map slot_view slots.now)) (memory_view memory.now)) }
{
    match number {
        0 => name_of_sheet(memory, alloc, sheet),
        1 => Ok(long_value(sheet)?),
        2 => cells_found(memory, alloc, whole_sheet(sheet), slots),
        3 => range_found(memory, alloc, sheet, slots),
        4 => used_of_sheet(memory, sheet),
        _ => Err(OrMemory::Fault(Bad::Raise(438))),
    }
}

/// The name of a sheet. A sheet that the book has not, which no run names, counts as want of memory.
fn name_of_sheet(memory: &Memory, alloc: Global, sheet: u32) -> Result<Value, OrMemory<Bad>>
    ensures { (d : PlainDeclarations) (vs : List Val) → Acts view result (memory_view memory.now) (member_value d (host.Sheet sheet) 0 vs (memory_view memory.now)) }
{
    let sheet = SheetId(sheet);
    if !has_sheet(&memory.book, sheet) {
        return Err(OrMemory::NoMemory);
    }
    let name = memory.book.name(sheet).copy(alloc)?;
    Ok(Value::Text(name))
}

/// The used range of a sheet. A sheet that the book has not counts as want of memory here too.
fn used_of_sheet(memory: &Memory, sheet: u32) -> Result<Value, OrMemory<Bad>>
    ensures { (d : PlainDeclarations) (vs : List Val) → Acts view result (memory_view memory.now) (member_value d (host.Sheet sheet) 4 vs (memory_view memory.now)) }
{
    let sheet = SheetId(sheet);
    if !has_sheet(&memory.book, sheet) {
        return Err(OrMemory::NoMemory);
    }
    Ok(range_value(memory.book.used(sheet)))
}

/// A member of a range.
#[tactic(auto, using(crate::proofs::Telling::acts_tell))]
fn of_area(
    memory: &mut Memory,
    alloc: Global,
    area: Area,
    number: u16,
    slots: &[Slot],
    told: &mut Told,
) -> Result<Value, OrMemory<Bad>>
    ensures { (d : PlainDeclarations) → Tells view result (told_view told.old) (told_view told.new) (memory_view memory.new) (member_value d (host.Area area.sheet.0 area.top area.left area.rows area.columns) number (slot_values (map slot_view slots.now)) (memory_view memory.old)) }
{
    if number != 11 {
        return read_of_area(memory, alloc, area, number, slots);
    }
    if !has_area(&memory.book, area) {
        return Err(OrMemory::NoMemory);
    }
    cleared(memory, alloc, area, told)?;
    noted(memory, area);
    Ok(Value::Empty)
}

/// A member of a range that is only read.
fn read_of_area(
    memory: &Memory,
    alloc: Global,
    area: Area,
    number: u16,
    slots: &[Slot],
) -> Result<Value, OrMemory<Bad>>
    requires { number ≢ 11 }
    ensures { (d : PlainDeclarations) → Acts view result (memory_view memory.now) (member_value d (host.Area area.sheet.0 area.top area.left area.rows area.columns) number (slot_values (map slot_view slots.now)) (memory_view memory.now)) }
{
    match number {
        0 => memory.value_in_area(alloc, area),
        1 => address_of(memory, alloc, area),
        2 => Ok(long_value(area.top)?),
        3 => Ok(long_value(area.left)?),
        4 => count_of(area),
        5 => Ok(Value::Object(ObjRef::Host(HostRef::RowsOf { count: area.rows }))),
        6 => Ok(Value::Object(ObjRef::Host(HostRef::ColumnsOf {
            count: area.columns,
        }))),
        7 => cells_found(memory, alloc, area, slots),
        8 => cell_found(memory, alloc, area, slots),
        9 => moved(memory, alloc, area, slots),
        10 => sized(memory, alloc, area, slots),
        12 | 13 => Ok(sheet_value(area.sheet.0)),
        _ => Err(OrMemory::Fault(Bad::Raise(438))),
    }
}

/// The address of an area. One that no sheet of the book has, which no run makes, counts as want of memory.
fn address_of(memory: &Memory, alloc: Global, area: Area) -> Result<Value, OrMemory<Bad>>
    ensures { (m : PlainMemory) → Acts view result m (Fine (text (address_of area)) m) }
{
    if !has_area(&memory.book, area) {
        return Err(OrMemory::NoMemory);
    }
    Ok(Value::Text(address(alloc, area)?))
}

/// How many cells an area has: 6 where a Long doesn't count them.
fn count_of(area: Area) -> Result<Value, OrMemory<Bad>>
    ensures { (m : PlainMemory) → Acts view result m (answered (ranged kind.Long (pos (area.rows * area.columns))) m) }
{
    let count = u64::from(area.rows) * u64::from(area.columns);
    match i32::try_from(count) {
        Ok(count) => Ok(Value::Long(count)),
        Err(_) => Err(OrMemory::Fault(Bad::OVERFLOW)),
    }
}

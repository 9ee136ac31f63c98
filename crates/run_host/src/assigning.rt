// Members that are assigned to ([MS-VBAL] 5.4.3.8).
ghost use Rattle.std.specs.Prelude.{◌≡◌, map};
ghost use Rattle.vba_values.specs.Val.{object};
ghost use Rattle.vba_values.specs.View.{view};
ghost use Rattle.vba_values.specs.declared.object.ObjRef.TheVariants.{Heap};
ghost use Rattle.bound_project.specs.View.{declarations_view};
ghost use Rattle.vba_meaning.specs.Effects.{slot_values};
ghost use Rattle.vba_meaning.specs.Memory.{Memory as PlainMemory};
ghost use Rattle.vba_meaning.specs.Host.{assigned_through, item_assigned, mark_set, member_assigned, member_not_set, member_set, through_item, with_mark, written_default};
ghost use Rattle.run_memory.specs.Acts.{Acts};
ghost use Rattle.run_memory.specs.View.{memory_view, slot_view};
ghost use Rattle.run_collections.specs.View.{member_view};
ghost use Rattle.run_host.specs.Members.{for_nothing, no_item_assigned, object_assigned, object_item_assigned, way_of, without_default, written_at_once};
ghost use Rattle.run_host.specs.Tells.{Tells};
ghost use Rattle.run_host.specs.View.{told_view};

use crate::arguments::as_given;
use crate::counts::are_places;
use crate::events::Told;
use crate::indexing::item_by;
use crate::members::member_by;
use crate::writing::area_written;
use bound_project::Declarations;
use run_collections::{CollectionMember, collection_member, item_found};
use run_memory::{Memory, Slot, area_in, is_true};
use sheet_host::{Area, HostMember, member_named};
use std::alloc::Global;
use vba_base::OrMemory;
use vba_values::{Bad, HostRef, ObjId, ObjRef, VType, Value, coerce};

/// How a member is assigned to: it can't be, or it is a mark of Application by its number, the cells of a range, or what it
/// gives is written to.
#[derive(Clone, Copy)]
pub enum Writes {
    Nothing,
    Mark(u16),
    Cells(Area),
    Through,
}

/// The default member of an object is written: Value of a range, and no other. 91 for Nothing, 449 for the sheets and
/// Collections, 438 for other objects, 424 for what is no object.
pub fn written_default(
    memory: &mut Memory,
    alloc: Global,
    target: &Value,
    value: Value,
    told: &mut Told,
) -> Result<(), OrMemory<Bad>>
    ensures { Tells (λ done. done) result (told_view told.old) (told_view told.new) (memory_view memory.new) (written_default (view target.now) (view value) (memory_view memory.old)) }
{
    match target {
        Value::Object(reference) => object_default(memory, alloc, *reference, value, told),
        _ => Err(OrMemory::Fault(Bad::Raise(424))),
    }
}

/// The same of an object.
#[tactic(auto, using(crate::proofs::Telling::acts_tell))]
fn object_default(
    memory: &mut Memory,
    alloc: Global,
    reference: ObjRef,
    value: Value,
    told: &mut Told,
) -> Result<(), OrMemory<Bad>>
    ensures { Tells (λ done. done) result (told_view told.old) (told_view told.new) (memory_view memory.new) (written_default (object reference) (view value) (memory_view memory.old)) }
{
    match reference {
        ObjRef::Nothing => Err(OrMemory::Fault(Bad::Raise(91))),
        ObjRef::Host(
            HostRef::Area {
                sheet,
                top,
                left,
                rows,
                columns,
            },
        ) => {
            let area = area_in(sheet, top, left, rows, columns);
            area_written(memory, alloc, area, value, told)
        }
        ObjRef::Host(HostRef::Sheets) => Err(OrMemory::Fault(Bad::Raise(449))),
        ObjRef::Host(_) => Err(OrMemory::Fault(Bad::Raise(438))),
        ObjRef::Heap(id) => counted_default(memory, id),
    }
}

/// No counted object has a default member that is written like this: that of a Collection must have an argument.
fn counted_default(memory: &Memory, id: ObjId) -> Result<(), OrMemory<Bad>>
    ensures { Acts (λ done. done) result (memory_view memory.now) (without_default (Heap id) (memory_view memory.now)) }
{
    if memory.is_collection(ObjRef::Heap(id)) {
        return Err(OrMemory::Fault(Bad::Raise(449)));
    }
    Err(OrMemory::Fault(Bad::Raise(438)))
}

/// An item of a value that no variable has is assigned to: of an object that an index gives the default member is
/// written, an element of an array takes the value for nothing.
#[tactic(auto, using(crate::proofs::Telling::acts_tell))]
pub fn item_assigned(
    memory: &mut Memory,
    alloc: Global,
    base: &Value,
    slots: &[Slot],
    value: Value,
    told: &mut Told,
) -> Result<(), OrMemory<Bad>>
    ensures { Tells (λ done. done) result (told_view told.old) (told_view told.new) (memory_view memory.new) (item_assigned (view base.now) (slot_values (map slot_view slots.now)) (view value) (memory_view memory.old)) }
{
    match base {
        Value::Object(_) => object_item_assigned(memory, alloc, base, slots, value, told),
        _ => no_item_assigned(memory, alloc, base, slots, value),
    }
}

/// What an index gives of an object is assigned to.
fn object_item_assigned(
    memory: &mut Memory,
    alloc: Global,
    base: &Value,
    slots: &[Slot],
    value: Value,
    told: &mut Told,
) -> Result<(), OrMemory<Bad>>
    ensures { Tells (λ done. done) result (told_view told.old) (told_view told.new) (memory_view memory.new) (object_item_assigned (view base.now) (slot_values (map slot_view slots.now)) (view value) (memory_view memory.old)) }
{
    let target = item_by(memory, alloc, base, slots)?;
    written_default(memory, alloc, &target, value, told)
}

/// An element of an array that nothing keeps is found, and the value gives way to its default value, for nothing.
#[tactic(auto, using(run_memory::proofs::Refused::refused_then))]
fn no_item_assigned(
    memory: &mut Memory,
    alloc: Global,
    base: &Value,
    slots: &[Slot],
    value: Value,
) -> Result<(), OrMemory<Bad>>
    ensures { Acts (λ done. done) result (memory_view memory.new) (no_item_assigned (view base.now) (slot_values (map slot_view slots.now)) (view value) (memory_view memory.old)) }
{
    item_by(memory, alloc, base, slots)?;
    for_nothing(memory, alloc, value)
}

/// A value gives way to its default value, for nothing.
#[tactic(auto, using(run_memory::proofs::Refused::refused_then))]
pub fn for_nothing(memory: &Memory, alloc: Global, value: Value) -> Result<(), OrMemory<Bad>>
    ensures { Acts (λ done. done) result (memory_view memory.now) (for_nothing (view value) (memory_view memory.now)) }
{
    memory.plain(alloc, value)?;
    Ok(())
}

/// Set of a member: 91 of Nothing, 438 of any other object, since none has one that takes it, and 424 of what is no object.
pub fn member_not_set(base: &Value) -> Result<(), OrMemory<Bad>>
    ensures { (m : PlainMemory) → Acts (λ done. done) result m (member_not_set (view base.now) m) }
{
    match base {
        Value::Object(ObjRef::Nothing) => Err(OrMemory::Fault(Bad::Raise(91))),
        Value::Object(_) => Err(OrMemory::Fault(Bad::Raise(438))),
        _ => Err(OrMemory::Fault(Bad::Raise(424))),
    }
}

/// A member of an object is assigned to, by its folded name, with its arguments and with what was given when that began:
/// 438 where there is no such one or it can't be written, 424 for what is no object.
pub fn member_assigned(
    memory: &mut Memory,
    alloc: Global,
    declared: &Declarations,
    name: &[u16],
    slots: &[Slot],
    base: &Value,
    begun: &Value,
    value: Value,
    told: &mut Told,
) -> Result<(), OrMemory<Bad>>
    ensures { Tells (λ done. done) result (told_view told.old) (told_view told.new) (memory_view memory.new) (member_assigned (declarations_view declared.now) name.now (slot_values (map slot_view slots.now)) (view base.now) (view begun.now) (view value) (memory_view memory.old)) }
{
    match base {
        Value::Object(ObjRef::Host(of)) => {
            let how = member_named(of, name)?;
            member_set(
                memory,
                alloc,
                declared,
                *of,
                how,
                as_given(slots),
                begun,
                value,
                told,
            )
        }
        Value::Object(ObjRef::Heap(id)) => object_assigned(
            memory,
            alloc,
            id.0,
            name,
            as_given(slots),
            value,
            told,
        ),
        _ => Err(OrMemory::Fault(Bad::Raise(424))),
    }
}

/// A member of the counted object with a number is assigned to.
fn object_assigned(
    memory: &mut Memory,
    alloc: Global,
    number: u32,
    name: &[u16],
    slots: &[Slot],
    value: Value,
    told: &mut Told,
) -> Result<(), OrMemory<Bad>>
    ensures { Tells (λ done. done) result (told_view told.old) (told_view told.new) (memory_view memory.new) (object_assigned number name.now (slot_values (map slot_view slots.now)) (view value) (memory_view memory.old)) }
{
    let how = collection_member(memory, number, name)?;
    through_item(memory, alloc, number, how, slots, value, told)
}

/// Of a Collection an item's default member is written, and nothing else.
fn through_item(
    memory: &mut Memory,
    alloc: Global,
    number: u32,
    how: CollectionMember,
    slots: &[Slot],
    value: Value,
    told: &mut Told,
) -> Result<(), OrMemory<Bad>>
    ensures { Tells (λ done. done) result (told_view told.old) (told_view told.new) (memory_view memory.new) (through_item number (member_view how) (slot_values (map slot_view slots.now)) (view value) (memory_view memory.old)) }
{
    match how {
        CollectionMember::Item => {
            let target = item_found(memory, alloc, number, slots)?;
            written_default(memory, alloc, &target, value, told)
        }
        CollectionMember::Add
        | CollectionMember::Count
        | CollectionMember::Remove
        | CollectionMember::Enumerator => Err(OrMemory::Fault(Bad::Raise(438))),
    }
}

/// A member is assigned to, or what it gives is written to.
fn member_set(
    memory: &mut Memory,
    alloc: Global,
    declared: &Declarations,
    of: HostRef,
    how: HostMember,
    slots: &[Slot],
    begun: &Value,
    value: Value,
    told: &mut Told,
) -> Result<(), OrMemory<Bad>>
    ensures { Tells (λ done. done) result (told_view told.old) (told_view told.new) (memory_view memory.new) (member_set (declarations_view declared.now) of how (slot_values (map slot_view slots.now)) (view begun.now) (view value) (memory_view memory.old)) }
{
    match way_of(of, how, slots) {
        Writes::Nothing => Err(OrMemory::Fault(Bad::Raise(438))),
        Writes::Mark(number) => mark_set(memory, alloc, number, value),
        Writes::Cells(area) => area_written(memory, alloc, area, value, told),
        Writes::Through => {
            let target = member_by(memory, alloc, declared, of, how, slots, begun, told)?;
            let is_place = are_places(&of, how, slots.len());
            assigned_through(memory, alloc, is_place, &target, value, told)
        }
    }
}

fn way_of(of: HostRef, how: HostMember, slots: &[Slot]) -> Writes
    ensures { result ≡ way_of of how (slot_values (map slot_view slots.now)) }
{
    let number = match how {
        HostMember::Call(_) => return Writes::Nothing,
        HostMember::Read(_) => return Writes::Through,
        HostMember::Write(number) => number,
    };
    match slots {
        [] => written_at_once(of, number),
        [_, ..] => Writes::Through,
    }
}

/// How a member that can be written is assigned to, without arguments.
fn written_at_once(of: HostRef, number: u16) -> Writes
    ensures { result ≡ written_at_once of number }
{
    match of {
        HostRef::Application => Writes::Mark(number),
        HostRef::Area {
            sheet,
            top,
            left,
            rows,
            columns,
        } => Writes::Cells(area_in(sheet, top, left, rows, columns)),
        HostRef::Workbook
        | HostRef::Sheets
        | HostRef::ErrObject
        | HostRef::Sheet { .. }
        | HostRef::RowsOf { .. }
        | HostRef::ColumnsOf { .. } => Writes::Through,
    }
}

/// Of an object the default member is written; an element of an array that nothing keeps takes the value for nothing, and
/// any other value can't be written.
fn assigned_through(
    memory: &mut Memory,
    alloc: Global,
    is_place: bool,
    target: &Value,
    value: Value,
    told: &mut Told,
) -> Result<(), OrMemory<Bad>>
    ensures { Tells (λ done. done) result (told_view told.old) (told_view told.new) (memory_view memory.new) (assigned_through is_place (view target.now) (view value) (memory_view memory.old)) }
{
    match target {
        Value::Object(_) => written_default(memory, alloc, target, value, told),
        _ => {
            if is_place {
                Ok(())
            } else {
                Err(OrMemory::Fault(Bad::Raise(438)))
            }
        }
    }
}

/// A mark of Application becomes what a value is as a Boolean.
#[tactic(auto, using(run_memory::proofs::Refused::refused_then))]
fn mark_set(
    memory: &mut Memory,
    alloc: Global,
    number: u16,
    value: Value,
) -> Result<(), OrMemory<Bad>>
    ensures { Acts (λ done. done) result (memory_view memory.new) (mark_set number (view value) (memory_view memory.old)) }
{
    let value = memory.plain(alloc, value)?;
    let truth = coerce(alloc, &value, &VType::Boolean)?;
    set_mark(memory, number, is_true(&truth));
    Ok(())
}

fn set_mark(memory: &mut Memory, number: u16, truth: bool)
    ensures { memory_view memory.new ≡ with_mark number truth (memory_view memory.old) }
{
    match number {
        0 => memory.events_on = truth,
        1 => memory.updates_screen = truth,
        _ => memory.shows_alerts = truth,
    }
}

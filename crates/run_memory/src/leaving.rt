// Frames that are left, and objects that end.
ghost use Rattle.std.specs.Prelude.{◌≡◌, ◌++◌, [], IfOk, OnOk, length, map};
ghost use Rattle.vba_values.specs.Val.{empty};
ghost use Rattle.vba_values.specs.View.{view};
ghost use Rattle.vba_meaning.specs.Memory.{rest, top};
ghost use Rattle.vba_meaning.specs.References.{but_result, emptied, held_by, let_frame, objects_in_slots, objects_in_values, objects_kept, without_values};
ghost use Rattle.run_memory.specs.Slots.{emptied_from, emptied_slot};
ghost use Rattle.run_memory.specs.View.{frame_view, kept_at_view, memory_view, slot_view};

use crate::frame::{Frame, Kept, Slot};
use crate::memory::Memory;
use crate::objects::add_objects;
use std::alloc::Global;
use vba_base::NoMemory;
use vba_values::Value;

/// Adds the objects of values.
pub fn add_objects_in(
    alloc: Global,
    objects: &mut Vec<u32>,
    values: &[Value],
) -> Result<(), NoMemory>
    ensures { OnOk result (objects.new.items ≡ objects.old.items ++ objects_in_values (map view values.now)) }
{
    match values {
        [] => Ok(()),
        [first, values @ ..] => {
            add_objects(alloc, objects, first)?;
            add_objects_in(alloc, objects, values)
        }
    }
}

fn add_objects_in_slots(
    alloc: Global,
    objects: &mut Vec<u32>,
    slots: &[Slot],
) -> Result<(), NoMemory>
    ensures { OnOk result (objects.new.items ≡ objects.old.items ++ objects_in_slots (map slot_view slots.now)) }
{
    match slots {
        [] => Ok(()),
        [first, slots @ ..] => {
            if let Slot::Value(value) = first {
                add_objects(alloc, objects, value)?;
            }
            add_objects_in_slots(alloc, objects, slots)
        }
    }
}

fn add_objects_kept(
    alloc: Global,
    objects: &mut Vec<u32>,
    keeps: &[(u32, Kept)],
) -> Result<(), NoMemory>
    ensures { OnOk result (objects.new.items ≡ objects.old.items ++ objects_kept (map kept_at_view keeps.now)) }
{
    match keeps {
        [] => Ok(()),
        [first, keeps @ ..] => {
            match &first.1 {
                Kept::Only(value) => add_objects(alloc, objects, value)?,
                Kept::Walk { value, .. } => add_objects(alloc, objects, value)?,
                Kept::AtPath(_) => {}
            }
            add_objects_kept(alloc, objects, keeps)
        }
    }
}

/// What a frame that is left lets go: its temporaries, what its blocks keep, its variables and parameters in order, Me.
/// A result is handed on, and the Me of a Class_Terminate goes with the frame.
fn held_by(alloc: Global, frame: &Frame) -> Result<Vec<u32>, NoMemory>
    ensures { IfOk result (λ objects. objects.items ≡ held_by (frame_view frame.now)) }
{
    let mut objects = Vec::from_slice(alloc, frame.held.as_slice())?;
    add_objects_kept(alloc, &mut objects, frame.keeps.as_slice())?;
    if !frame.is_called {
        add_objects_in_slots(alloc, &mut objects, frame.slots.as_slice())?;
        return Ok(objects);
    }
    add_but_result(alloc, &mut objects, frame.slots.as_slice())?;
    add_objects(alloc, &mut objects, &frame.me)?;
    Ok(objects)
}

fn add_but_result(alloc: Global, objects: &mut Vec<u32>, slots: &[Slot]) -> Result<(), NoMemory>
    ensures { OnOk result (objects.new.items ≡ objects.old.items ++ objects_in_slots (rest (map slot_view slots.now))) }
{
    match slots {
        [] => Ok(()),
        [_, slots @ ..] => add_objects_in_slots(alloc, objects, slots),
    }
}

/// ByRef parameters lead where they led until the frame is gone.
#[tactic(auto, using(crate::proofs::Emptied::emptied_next, crate::proofs::Emptied::emptied_past))]
fn empty_slots(slots: &mut Vec<Slot>, from: usize)
    ensures { map slot_view slots.new.items ≡ emptied_from from (map slot_view slots.old.items) }
{
    if from < slots.len() {
        empty_slot(&mut slots[from]);
        empty_slots(slots, from + 1);
    }
}

fn empty_slot(slot: &mut Slot)
    ensures { slot_view slot.new ≡ emptied_slot (slot_view slot.old) }
{
    if let Slot::Value(value) = slot {
        *value = Value::Empty;
    }
}

fn empty_called(frame: &mut Frame)
    ensures { frame_view frame.new ≡ record (frame_view frame.old) { slots = but_result (frame_view frame.old).slots; me = empty } }
{
    empty_but_result(frame);
    forget_me(frame);
}

#[tactic(auto, using(crate::proofs::Emptied::emptied_behind))]
fn empty_but_result(frame: &mut Frame)
    ensures { frame_view frame.new ≡ record (frame_view frame.old) { slots = but_result (frame_view frame.old).slots } }
{
    empty_slots(&mut frame.slots, 1);
}

fn forget_me(frame: &mut Frame)
    ensures { frame_view frame.new ≡ record (frame_view frame.old) { me = empty } }
{
    frame.me = Value::Empty;
}

#[tactic(auto, using(crate::proofs::Emptied::emptied_all))]
fn empty_ended(frame: &mut Frame)
    ensures { frame_view frame.new ≡ record (frame_view frame.old) { slots = without_values (frame_view frame.old).slots } }
{
    empty_slots(&mut frame.slots, 0);
}

fn empty_kept(alloc: Global, frame: &mut Frame)
    ensures { frame_view frame.new ≡ record (frame_view frame.old) { keeps = []; held = [] } }
{
    frame.keeps = Vec::new(alloc);
    frame.held = Vec::new(alloc);
}

fn empty_frame(alloc: Global, frame: &mut Frame)
    ensures { frame_view frame.new ≡ emptied (frame_view frame.old) }
{
    empty_kept(alloc, frame);
    if frame.is_called {
        empty_called(frame);
        return;
    }
    empty_ended(frame);
}

impl Memory {
    /// What the frame that is left holds waits: so many references.
    pub fn let_frame(&mut self, alloc: Global) -> Result<usize, NoMemory>
        ensures count { IfOk result (λ count. count ≡ length (held_by (top (memory_view self.old)))) }
        ensures waits { OnOk result (memory_view self.new ≡ let_frame (memory_view self.old)) }
    {
        self.stand(alloc);
        let held = held_by(alloc, &self.top)?;
        let count = held.len();
        empty_frame(alloc, &mut self.top);
        self.waits(held)?;
        Ok(count)
    }
}

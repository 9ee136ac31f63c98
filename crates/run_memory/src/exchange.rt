// Values that take the place of others in variables.
ghost use Rattle.std.specs.Prelude.{◌≡◌, IfOk, None, map, option_map, reverse, slice_get, slice_index_or, Some};
ghost use Rattle.vba_values.specs.View.{view};
ghost use Rattle.vba_meaning.specs.Memory.{frame_at, object_or, root_value, value_in};
ghost use Rattle.vba_meaning.specs.Paths.{in_block};
ghost use Rattle.run_memory.specs.Exchanges.{frame_exchanged, frames_with, object_exchanged, objects_exchanged, root_exchanged, slot_exchanged, slots_exchanged, values_exchanged};
ghost use Rattle.run_memory.specs.Looks.{frame_or};
ghost use Rattle.run_memory.specs.View.{frame_view, memory_view, object_view, root_view, slot_view};

use crate::frame::{Frame, Kept, Slot};
use crate::memory::{Memory, Object};
use crate::path::Root;
use std::alloc::Global;
use std::mem;
use vba_base::NoMemory;
use vba_values::{Value, copy_value};

impl Memory {
    /// A value takes the place of that of a variable of a frame.
    #[tactic(auto, using(crate::proofs::Exchanged::top_changed, crate::proofs::Exchanged::with_caller, crate::proofs::Frames::frame_caller))]
    pub fn exchange_local(&mut self, frame: usize, variable: u32, new: Value) -> Option<Value>
        ensures old { option_map view result ≡ value_in (slice_get (frame_at (memory_view self.old).frames frame).slots variable) }
        ensures new { memory_view self.new ≡ record (memory_view self.old) {
          frames = frames_with (frame_exchanged variable (option_map view result) (view new)) (memory_view self.old).frames frame;
        } }
    {
        if !self.stands {
            return None;
        }
        if frame == self.callers.len() {
            return exchange_in_frame(&mut self.top, variable, new);
        }
        exchange_below(&mut self.callers, frame, variable, new)
    }

    /// A value takes the place of that of a variable; of a block's it takes a copy. An object and an item are no
    /// variables.
    #[tactic(auto, using(crate::proofs::Exchanged::local_exchanged, crate::proofs::Exchanged::shared_exchanged, crate::proofs::Instances::instance_exchanged))]
    pub fn exchange(
        &mut self,
        alloc: Global,
        root: &Root,
        new: Value,
    ) -> Result<Option<Value>, NoMemory>
        ensures old { IfOk result (λ old. option_map view old ≡ root_value (memory_view self.old) (root_view root.now)) }
        ensures new { IfOk result (λ old. memory_view self.new
            ≡ root_exchanged (memory_view self.old) (root_view root.now) (option_map view old) (view new)) }
    {
        match root {
            Root::Frame { frame, variable } => Ok(self.exchange_local(*frame, *variable, new)),
            Root::Project { variable } => {
                Ok(exchange_in_values(&mut self.shared, *variable as usize, new))
            }
            Root::Instance { object, field } => Ok(exchange_in_objects(
                &mut self.objects,
                *object as usize,
                *field as usize,
                new,
            )),
            Root::Block { frame, header } => self.exchange_block(alloc, *frame, *header, new),
            Root::Object { reference } => Ok(Some(Value::Object(*reference))),
            Root::Item { value } => Ok(Some(copy_value(alloc, value)?)),
        }
    }

    /// A value takes the place of that which a block keeps, of which the answer is a copy.
    #[tactic(auto, using(crate::proofs::Exchanged::kept_changed))]
    fn exchange_block(
        &mut self,
        alloc: Global,
        frame: usize,
        header: u32,
        new: Value,
    ) -> Result<Option<Value>, NoMemory>
        ensures old { IfOk result (λ old. option_map view old ≡ root_value (memory_view self.old) (in_block frame header)) }
        ensures new { IfOk result (λ old. memory_view self.new
            ≡ root_exchanged (memory_view self.old) (in_block frame header) (option_map view old) (view new)) }
    {
        let old = match self.block_value(frame, header) {
            Some(value) => copy_value(alloc, value)?,
            None => return Ok(None),
        };
        self.put_kept_at(frame, header, Kept::Only(new))?;
        Ok(Some(old))
    }
}

#[tactic(auto, using(crate::proofs::Exchanged::value_set, crate::proofs::Exchanged::value_past, crate::proofs::Exchanged::value_read))]
pub fn exchange_in_values(values: &mut Vec<Value>, variable: usize, new: Value) -> Option<Value>
    ensures old { option_map view result ≡ slice_get (map view values.old.items) variable }
    ensures new { map view values.new.items ≡ values_exchanged (map view values.old.items) variable (option_map view result) (view new) }
{
    if variable < values.len() {
        Some(mem::replace(&mut values[variable], new))
    } else {
        None
    }
}

#[tactic(auto, using(crate::proofs::Instances::field_set, crate::proofs::Instances::field_past, crate::proofs::Numbered::object_read))]
fn exchange_in_objects(
    objects: &mut Vec<Option<Object>>,
    object: usize,
    field: usize,
    new: Value,
) -> Option<Value>
    ensures old { option_map view result ≡ slice_get (object_or (slice_index_or (map (option_map object_view) objects.old.items) object None)).fields field }
    ensures new { map (option_map object_view) objects.new.items
        ≡ objects_exchanged (map (option_map object_view) objects.old.items) object field (option_map view result) (view new) }
{
    if object < objects.len() {
        exchange_in_object(&mut objects[object], field, new)
    } else {
        None
    }
}

fn exchange_in_object(object: &mut Option<Object>, field: usize, new: Value) -> Option<Value>
    ensures old { option_map view result ≡ slice_get (object_or (option_map object_view object.old)).fields field }
    ensures new { option_map object_view object.new ≡ object_exchanged (option_map object_view object.old) field (option_map view result) (view new) }
{
    match object {
        Some(object) => exchange_in_values(&mut object.fields, field, new),
        None => None,
    }
}

#[tactic(auto, using(crate::proofs::Exchanged::below_set, crate::proofs::Exchanged::past_callers))]
fn exchange_below(
    callers: &mut Vec<Frame>,
    frame: usize,
    variable: u32,
    new: Value,
) -> Option<Value>
    ensures old { option_map view result ≡ value_in (slice_get (frame_or (option_map frame_view (slice_get callers.old.items frame))).slots variable) }
    ensures new { map frame_view (reverse callers.new.items)
        ≡ frames_with (frame_exchanged variable (option_map view result) (view new)) (map frame_view (reverse callers.old.items)) frame }
{
    if frame < callers.len() {
        exchange_in_frame(&mut callers[frame], variable, new)
    } else {
        None
    }
}

fn exchange_in_frame(frame: &mut Frame, variable: u32, new: Value) -> Option<Value>
    ensures old { option_map view result ≡ value_in (slice_get (frame_view frame.old).slots variable) }
    ensures new { frame_view frame.new ≡ frame_exchanged variable (option_map view result) (view new) (frame_view frame.old) }
{
    exchange_in_slots(&mut frame.slots, variable as usize, new)
}

#[tactic(auto, using(crate::proofs::Exchanged::slot_set, crate::proofs::Exchanged::slot_read, crate::proofs::Exchanged::slot_past))]
pub fn exchange_in_slots(slots: &mut Vec<Slot>, variable: usize, new: Value) -> Option<Value>
    ensures old { option_map view result ≡ value_in (slice_get (map slot_view slots.old.items) variable) }
    ensures new { map slot_view slots.new.items ≡ slots_exchanged (map slot_view slots.old.items) variable (option_map view result) (view new) }
{
    if variable < slots.len() {
        exchange_in_slot(&mut slots[variable], new)
    } else {
        None
    }
}

fn exchange_in_slot(slot: &mut Slot, new: Value) -> Option<Value>
    ensures old { option_map view result ≡ value_in (Some (slot_view slot.old)) }
    ensures new { slot_view slot.new ≡ slot_exchanged (slot_view slot.old) (view new) }
{
    match slot {
        Slot::Value(value) => Some(mem::replace(value, new)),
        Slot::Path(_) => None,
    }
}

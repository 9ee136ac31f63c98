// Whether an object is referred to: by looking over the memory up to the first reference.
ghost use Rattle.std.specs.Prelude.{◌≡◌, ◌∷◌, [], map, option_map, reverse};
ghost use Rattle.vba_values.specs.View.{array_view, udt_view, view, views};
ghost use Rattle.vba_meaning.specs.References.{is_last, objects_in, objects_in_slot, objects_in_slots, objects_in_vals, objects_in_values, objects_kept, kept_value};
ghost use Rattle.run_memory.specs.Referred.{any_frame_refers, any_object_refers, frame_refers, is_referred, occurs};
ghost use Rattle.run_memory.specs.View.{frame_view, kept_at_view, kept_view, memory_view, object_view, slot_view};

use crate::frame::{Frame, Kept, Slot};
use crate::memory::{Memory, Object};
use vba_values::{ArrayValue, ObjRef, UdtValue, Value};

impl Memory {
    /// Whether no reference to the object is left.
    pub fn is_last(&self, object: u32) -> bool
        ensures { result ≡ is_last (memory_view self.now) object }
    {
        !self.is_referred(object)
    }

    /// Whether a reference to the object is left. The newest are looked at first: the running frame's, and of an object
    /// its last fields.
    #[tactic(auto, using(crate::proofs::Referred::occurs_reverse))]
    fn is_referred(&self, object: u32) -> bool
        ensures { result ≡ is_referred (memory_view self.now) object }
    {
        self.any_frame_refers(object)
            || occurs(self.waiting.as_slice(), object)
            || any_refers(self.shared.as_slice(), object)
            || any_object_refers(self.objects.as_slice(), object)
    }

    /// Whether a frame refers to the object.
    fn any_frame_refers(&self, object: u32) -> bool
        ensures { result ≡ any_frame_refers object (memory_view self.now).frames }
    {
        self.stands
            && (frame_refers(&self.top, object)
                || any_caller_refers(self.callers.as_slice(), object))
    }
}

/// Whether a frame that called refers to an object, from the innermost on.
#[tactic(auto, using(crate::proofs::Referred::frames_last))]
fn any_caller_refers(callers: &[Frame], object: u32) -> bool
    ensures { result ≡ any_frame_refers object (map frame_view (reverse callers.now)) }
{
    match callers {
        [] => false,
        [callers @ .., last] => frame_refers(last, object) || any_caller_refers(callers, object),
    }
}

/// Whether a frame refers to an object.
fn frame_refers(frame: &Frame, object: u32) -> bool
    ensures { result ≡ frame_refers object (frame_view frame.now) }
{
    any_slot_refers(frame.slots.as_slice(), object)
        || any_kept_refers(frame.keeps.as_slice(), object)
        || refers(&frame.me, object)
        || occurs(frame.held.as_slice(), object)
}

/// Whether a variable or parameter refers to an object.
fn any_slot_refers(slots: &[Slot], object: u32) -> bool
    ensures { result ≡ occurs object (objects_in_slots (map slot_view slots.now)) }
{
    match slots {
        [] => false,
        [first, slots @ ..] => slot_refers(first, object) || any_slot_refers(slots, object),
    }
}

/// Whether a slot refers to an object: a path doesn't.
fn slot_refers(slot: &Slot, object: u32) -> bool
    ensures { result ≡ occurs object (objects_in_slot (slot_view slot.now)) }
{
    match slot {
        Slot::Value(value) => refers(value, object),
        Slot::Path(_) => false,
    }
}

/// Whether what a block keeps refers to an object.
fn any_kept_refers(keeps: &[(u32, Kept)], object: u32) -> bool
    ensures { result ≡ occurs object (objects_kept (map kept_at_view keeps.now)) }
{
    match keeps {
        [] => false,
        [first, keeps @ ..] => kept_refers(&first.1, object) || any_kept_refers(keeps, object),
    }
}

/// Whether what one block keeps refers to an object: a path doesn't.
fn kept_refers(kept: &Kept, object: u32) -> bool
    ensures { result ≡ occurs object (objects_in (kept_value (kept_view kept.now))) }
{
    match kept {
        Kept::Only(value) => refers(value, object),
        Kept::Walk { value, .. } => refers(value, object),
        Kept::AtPath(_) => false,
    }
}

/// Whether a field of an object refers to one, from the first object on.
fn any_object_refers(objects: &[Option<Object>], object: u32) -> bool
    ensures { result ≡ any_object_refers object (map (option_map object_view) objects.now) }
{
    match objects {
        [] => false,
        [first, objects @ ..] => {
            fields_refer(first, object) || any_object_refers(objects, object)
        }
    }
}

/// Whether a field of what may be an object refers to one.
fn fields_refer(from: &Option<Object>, object: u32) -> bool
    ensures { result ≡ any_object_refers object (option_map object_view from.now ∷ []) }
{
    match from {
        None => false,
        Some(from) => any_refers(from.fields.as_slice(), object),
    }
}

/// Whether one of some values refers to an object, from the last on.
fn any_refers(values: &[Value], object: u32) -> bool
    ensures { result ≡ occurs object (objects_in_values (map view values.now)) }
{
    match values {
        [] => false,
        [values @ .., last] => refers(last, object) || any_refers(values, object),
    }
}

/// Whether a value refers to an object, also inside arrays and values of Types.
#[cycle(refers)]
fn refers(value: &Value, object: u32) -> bool
    ensures { result ≡ occurs object (objects_in (view value.now)) }
{
    match value {
        Value::Object(ObjRef::Heap(id)) => object == id.0,
        Value::Array(array) => array_refers(array, object),
        Value::Udt(udt) => udt_refers(udt, object),
        _ => false,
    }
}

#[cycle(refers)]
fn array_refers(array: &ArrayValue, object: u32) -> bool
    ensures { result ≡ occurs object (objects_in (array_view array.now)) }
{
    any_inside_refers(&array.items, object)
}

#[cycle(refers)]
fn udt_refers(udt: &UdtValue, object: u32) -> bool
    ensures { result ≡ occurs object (objects_in (udt_view udt.now)) }
{
    any_inside_refers(&udt.fields, object)
}

#[cycle(refers)]
fn any_inside_refers(items: &Vec<Value>, object: u32) -> bool
    ensures { result ≡ occurs object (objects_in_vals (views items.now.items)) }
{
    for item in items {
        if refers(item, object) {
            return true;
        }
    }
    false
}

/// Whether an object is among others.
fn occurs(objects: &[u32], object: u32) -> bool
    ensures { result ≡ occurs object objects.now }
{
    match objects {
        [] => false,
        [first, objects @ ..] => object == *first || occurs(objects, object),
    }
}

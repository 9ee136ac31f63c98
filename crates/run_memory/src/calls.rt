// Calls ([MS-VBAL] 5.3.1).
ghost use Rattle.std.specs.Prelude.{◌≡◌, ◌∷◌, OnOk, map, reverse, slice_get};
ghost use Rattle.vba_values.specs.View.{view};
ghost use Rattle.bound_project.specs.Project.{Declarations, procedure_at};
ghost use Rattle.vba_meaning.specs.Memory.{calling, entered, frame_left, no_frame, own_slots, received, result as call_result, value_in, value_or_empty, without_paths};
ghost use Rattle.vba_meaning.specs.Meaning.{left};
ghost use Rattle.run_memory.specs.Calls.{received_from, stands_with};
ghost use Rattle.run_memory.specs.View.{frame_view, memory_view, path_view, slot_view};

use crate::exchange::exchange_in_slots;
use crate::frame::{Frame, Slot};
use crate::looking::value_in_item;
use crate::memory::Memory;
use crate::path::{Path, Root};
use std::alloc::Global;
use std::mem;
use vba_base::NoMemory;
use vba_values::Value;

impl Memory {
    /// A call of a procedure stands, with its own variables before its arguments. The paths of its ByRef parameters are
    /// no longer pending.
    pub fn entered(
        &mut self,
        alloc: Global,
        is_called: bool,
        procedure: u32,
        me: Value,
        own: Vec<Slot>,
        arguments: Vec<Slot>,
    ) -> Result<(), NoMemory>
        ensures { (d : Declarations) → map slot_view own.items ≡ own_slots d (procedure_at d procedure)
            → OnOk result (memory_view self.new ≡ entered d is_called procedure (view me) (map slot_view arguments.items) (memory_view self.old)) }
    {
        self.stands_with(alloc, is_called, procedure, me, own, arguments)
    }

    fn stands_with(
        &mut self,
        alloc: Global,
        is_called: bool,
        procedure: u32,
        me: Value,
        own: Vec<Slot>,
        arguments: Vec<Slot>,
    ) -> Result<(), NoMemory>
        ensures { OnOk result (memory_view self.new ≡ stands_with is_called procedure (view me) (map slot_view own.items) (map slot_view arguments.items) (memory_view self.old)) }
    {
        self.release_paths(arguments.as_slice());
        let mut slots = own;
        let mut arguments = arguments;
        receive(alloc, &mut arguments)?;
        slots.append(&mut arguments)?;
        self.push_frame(alloc, called_frame(alloc, is_called, procedure, me, slots))
    }

    /// The paths that arguments lend are pending no longer.
    fn release_paths(&mut self, arguments: &[Slot])
        ensures { memory_view self.new ≡ record (memory_view self.old) { frames = calling (map slot_view arguments.now) (memory_view self.old).frames } }
    {
        if self.stands {
            release(&mut self.top.pending, arguments);
        }
    }

    /// A frame stands above the others.
    fn push_frame(&mut self, alloc: Global, frame: Frame) -> Result<(), NoMemory>
        ensures { OnOk result (memory_view self.new ≡ record (memory_view self.old) { frames = frame_view frame ∷ (memory_view self.old).frames }) }
    {
        if self.stands {
            let caller = mem::replace(&mut self.top, frame);
            self.callers.push(caller)?;
        } else {
            self.top = frame;
            self.callers = Vec::new(alloc);
            self.stands = true;
        }
        Ok(())
    }

    /// The value that the call gives, and its frame is left.
    pub fn result_taken(&mut self) -> Value
        ensures value { view result ≡ call_result (memory_view self.old) }
        ensures left { memory_view self.new ≡ frame_left (memory_view self.old) }
    {
        let value = if self.stands {
            take_result(&mut self.top.slots)
        } else {
            Value::Empty
        };
        self.frame_left();
        value
    }
}

impl Memory {
    /// An error leaves the frame: it is left, and the one below holds what it would have given.
    pub fn left(&mut self, alloc: Global) -> Result<(), NoMemory>
        ensures { OnOk result (memory_view self.new ≡ left (memory_view self.old)) }
    {
        let value = self.result_taken();
        self.hold(alloc, &value)
    }
}

fn called_frame(
    alloc: Global,
    is_called: bool,
    procedure: u32,
    me: Value,
    slots: Vec<Slot>,
) -> Frame
    ensures { frame_view result ≡ record no_frame { called = is_called; procedure = procedure; me = view me; slots = map slot_view slots.items } }
{
    let mut frame = Frame::new(alloc);
    frame.is_called = is_called;
    frame.procedure = procedure;
    frame.me = me;
    frame.slots = slots;
    frame
}

fn take_result(slots: &mut Vec<Slot>) -> Value
    ensures { view result ≡ value_or_empty (value_in (slice_get (map slot_view slots.old.items) 0)) }
{
    match exchange_in_slots(slots, 0, Value::Empty) {
        Some(value) => value,
        None => Value::Empty,
    }
}

/// The paths that arguments lend are pending no longer.
pub fn release(pending: &mut Vec<Path>, arguments: &[Slot])
    ensures { map path_view (reverse pending.new.items) ≡ without_paths (map slot_view arguments.now) (map path_view (reverse pending.old.items)) }
{
    match arguments {
        [] => {}
        [first, arguments @ ..] => {
            if let Slot::Path(_) = first {
                let _path = pending.pop();
            }
            release(pending, arguments);
        }
    }
}

/// What parameters have: an object or an item that an index gave is no variable, so it is copied.
#[tactic(auto, using(crate::proofs::Received::received_all))]
pub fn receive(alloc: Global, arguments: &mut Vec<Slot>) -> Result<(), NoMemory>
    ensures { OnOk result (map slot_view arguments.new.items ≡ map received (map slot_view arguments.old.items)) }
{
    receive_from(alloc, arguments, 0)
}

/// The same from a number on.
#[tactic(auto, using(crate::proofs::Received::received_next, crate::proofs::Received::received_past))]
fn receive_from(alloc: Global, arguments: &mut Vec<Slot>, from: usize) -> Result<(), NoMemory>
    ensures { OnOk result (map slot_view arguments.new.items ≡ received_from from (map slot_view arguments.old.items)) }
{
    if from < arguments.len() {
        receive_one(alloc, &mut arguments[from])?;
        receive_from(alloc, arguments, from + 1)?;
    }
    Ok(())
}

fn receive_one(alloc: Global, argument: &mut Slot) -> Result<(), NoMemory>
    ensures { OnOk result (slot_view argument.new ≡ received (slot_view argument.old)) }
{
    let Slot::Path(path) = argument else {
        return Ok(());
    };
    let value = match &path.root {
        Root::Object { reference } => Value::Object(*reference),
        Root::Item { value } => value_in_item(alloc, value, path)?,
        Root::Frame { .. } | Root::Project { .. } | Root::Instance { .. } | Root::Block { .. } =>
            return Ok(()),
    };
    *argument = Slot::Value(value);
    Ok(())
}

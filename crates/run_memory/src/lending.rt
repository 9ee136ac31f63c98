// Paths that a raise of an event lends to the handlers, one after another.
ghost use Rattle.std.specs.Prelude.{◌≡◌, ◌++◌, IfOk, OnOk, map, reverse};
ghost use Rattle.vba_meaning.specs.Events.{lent_again, raise_over};
ghost use Rattle.vba_meaning.specs.Memory.{paths_in_slots};
ghost use Rattle.run_memory.specs.View.{memory_view, path_view, slot_view};

use crate::calls::release;
use crate::frame::Slot;
use crate::memory::Memory;
use crate::path::Path;
use std::alloc::Global;
use vba_base::NoMemory;

impl Memory {
    /// While a raise isn't over its ByRef paths are pending in the frame that raises, beside those that a handler has.
    pub fn lent_again(&mut self, alloc: Global, slots: &[Slot]) -> Result<(), NoMemory>
        ensures { OnOk result (memory_view self.new ≡ lent_again (map slot_view slots.now) (memory_view self.old)) }
    {
        self.stand(alloc);
        add_paths(alloc, &mut self.top.pending, slots)
    }

    /// A raise is over: its ByRef paths are pending no longer.
    pub fn raise_over(&mut self, alloc: Global, slots: &[Slot])
        ensures { memory_view self.new ≡ raise_over (map slot_view slots.now) (memory_view self.old) }
    {
        self.stand(alloc);
        release(&mut self.top.pending, slots);
    }
}

/// The paths of slots are pending, that of the first one as the last.
fn add_paths(alloc: Global, pending: &mut Vec<Path>, slots: &[Slot]) -> Result<(), NoMemory>
    ensures { OnOk result (map path_view (reverse pending.new.items) ≡ paths_in_slots (map slot_view slots.now) ++ map path_view (reverse pending.old.items)) }
{
    match slots {
        [] => Ok(()),
        [first, slots @ ..] => {
            add_paths(alloc, pending, slots)?;
            let Slot::Path(path) = first else {
                return Ok(());
            };
            pending.push(path.copy(alloc)?)?;
            Ok(())
        }
    }
}

/// Copies of slots.
#[tactic(auto, using(std::proofs::lemmas::List::map_more, std::proofs::lemmas::List::map_push))]
pub fn copy_slots(alloc: Global, slots: &[Slot]) -> Result<Vec<Slot>, NoMemory>
    ensures { IfOk result (λ copies. map slot_view copies.items ≡ map slot_view slots.now) }
{
    let mut copies = Vec::with_capacity(alloc, slots.len())?;
    for slot in slots {
        copies.push(slot.copy(alloc)?)?;
    }
    Ok(copies)
}

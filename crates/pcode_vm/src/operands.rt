// The operands of the statement that runs.
ghost use Rattle.std.specs.Prelude.{◌≡◌, ◌∷◌, [], IfOk, OnOk, map};
ghost use Rattle.vba_values.specs.View.{view};
ghost use Rattle.vba_meaning.specs.Memory as plain;
ghost use Rattle.run_memory.specs.View.{slot_view, path_view};
ghost use Rattle.pcode.specs.Machine.{pushed};
ghost use Rattle.pcode_vm.specs.View.{operands_view};
ghost use Rattle.pcode_vm.specs.Operands.{PopsValue, PopsPath, Takes};

use run_memory::{Path, Slot};
use std::alloc::Global;
use vba_base::NoMemory;
use vba_values::Value;

/// Values and paths, the last one on top.
pub struct Operands {
    pub slots: Vec<Slot>,
}

impl Drop for Operands {
    fn drop(self) {
        let Operands { slots: _slots } = self;
    }
}

impl Operands {
    pub fn new(alloc: Global) -> Operands
        ensures { operands_view result ≡ [] }
    {
        Operands {
            slots: Vec::new(alloc),
        }
    }

    pub fn push_value(&mut self, value: Value) -> Result<(), NoMemory>
        ensures { OnOk result (operands_view self.new ≡ plain.value (view value) ∷ operands_view self.old) }
    {
        self.slots.push(Slot::Value(value))?;
        Ok(())
    }

    pub fn push_path(&mut self, path: Path) -> Result<(), NoMemory>
        ensures { OnOk result (operands_view self.new ≡ plain.path (path_view path) ∷ operands_view self.old) }
    {
        self.slots.push(Slot::Path(path))?;
        Ok(())
    }

    #[tactic(auto, using(crate::proofs::Popped::value_popped))]
    pub fn pop_value(&mut self) -> Option<Value>
        ensures { PopsValue (operands_view self.old) result (operands_view self.new) }
    {
        self.slots.pop()?.into_value()
    }

    #[tactic(auto, using(crate::proofs::Popped::path_popped))]
    pub fn pop_path(&mut self) -> Option<Path>
        ensures { PopsPath (operands_view self.old) result (operands_view self.new) }
    {
        self.slots.pop()?.into_path()
    }

    pub fn clear(&mut self)
        ensures { operands_view self.new ≡ [] }
    {
        self.slots.clear();
    }

    /// The last operands, so many, or none where there are too few.
    pub fn take(&mut self, alloc: Global, count: u32) -> Result<Option<Vec<Slot>>, NoMemory>
        ensures { IfOk result (λ taken. Takes count (operands_view self.old) taken (operands_view self.new)) }
    {
        if count == 0 {
            return Ok(Some(Vec::new(alloc)));
        }
        let count = count as usize;
        if self.slots.len() < count {
            return Ok(None);
        }
        let taken = self.slots.split_off(self.slots.len() - count)?;
        Ok(Some(taken))
    }

    /// More operands, the first one first.
    #[tactic(auto, using(crate::proofs::Takings::pushed_views))]
    pub fn push_all(&mut self, slots: Vec<Slot>) -> Result<(), NoMemory>
        ensures { OnOk result (operands_view self.new ≡ pushed (map slot_view slots.items) (operands_view self.old)) }
    {
        let mut slots = slots;
        self.slots.append(&mut slots)?;
        Ok(())
    }
}

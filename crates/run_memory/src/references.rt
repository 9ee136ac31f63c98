// References that are held and let go.
ghost use Rattle.std.specs.Prelude.{◌≡◌, IfOk, OnOk, length};
ghost use Rattle.vba_values.specs.View.{view};
ghost use Rattle.vba_meaning.specs.Memory.{top};
ghost use Rattle.vba_meaning.specs.References.{displaced, hold, let_held, next_waiting, taken_off, waits};
ghost use Rattle.run_memory.specs.View.{memory_view};

use crate::memory::Memory;
use crate::objects::{add_objects, may_refer};
use std::alloc::Global;
use std::mem;
use vba_base::NoMemory;
use vba_values::Value;

impl Memory {
    /// The running statement holds what a value refers to.
    pub fn hold(&mut self, alloc: Global, value: &Value) -> Result<(), NoMemory>
        ensures { OnOk result (memory_view self.new ≡ hold (view value.now) (memory_view self.old)) }
    {
        self.stand(alloc);
        add_objects(alloc, &mut self.top.held, value)
    }

    /// A value gives way to another; what it referred to is let go at the statement's end, before its temporaries.
    pub fn displaced(&mut self, alloc: Global, value: &Value) -> Result<(), NoMemory>
        ensures { OnOk result (memory_view self.new ≡ displaced (view value.now) (memory_view self.old)) }
    {
        self.stand(alloc);
        if !may_refer(value) {
            return Ok(());
        }
        let mut held = Vec::new(alloc);
        add_objects(alloc, &mut held, value)?;
        held.extend_from_slice(self.top.held.as_slice())?;
        self.top.held = held;
        Ok(())
    }

    /// References wait to be let go.
    pub fn waits(&mut self, objects: Vec<u32>) -> Result<(), NoMemory>
        ensures { OnOk result (memory_view self.new ≡ waits objects.items (memory_view self.old)) }
    {
        let mut objects = objects;
        objects.as_mut_slice().reverse();
        self.waiting.extend_from_slice(objects.as_slice())?;
        Ok(())
    }

    /// The next waiting reference is live no longer.
    pub fn take_waiting(&mut self) -> u32
        ensures next { result ≡ next_waiting (memory_view self.old).waiting }
        ensures taken { memory_view self.new ≡ taken_off (memory_view self.old) }
    {
        match self.waiting.pop() {
            Some(object) => object,
            None => 0,
        }
    }

    /// What the statement held waits: so many references.
    pub fn let_held(&mut self, alloc: Global) -> Result<usize, NoMemory>
        ensures count { IfOk result (λ count. count ≡ length (top (memory_view self.old)).held) }
        ensures waits { OnOk result (memory_view self.new ≡ let_held (memory_view self.old)) }
    {
        self.stand(alloc);
        let held = mem::replace(&mut self.top.held, Vec::new(alloc));
        let count = held.len();
        self.waits(held)?;
        Ok(count)
    }
}

// Events: a raise calls the handlers of the variables that have the source, one after another.
ghost use Rattle.std.specs.Prelude.{◌≡◌, IfOk, Some, ◌<◌, ◌+◌, ◌^◌, map, reverse};
ghost use Rattle.vba_meaning.specs.Events.{sinks, source_of, target_of};
ghost use Rattle.vba_meaning.specs.Memory.{top};
ghost use Rattle.run_memory.specs.View.{memory_view, slot_view};
ghost use Rattle.run_host.specs.View.{told_view};
ghost use Rattle.pcode.specs.Instructions as plain;
ghost use Rattle.pcode.specs.Machine.{Delivering, delivers, tells_change};
ghost use Rattle.pcode.specs.View.{code_view};
ghost use Rattle.pcode_vm.specs.Does.{Acted, Does};
ghost use Rattle.pcode_vm.specs.Events.{handles};
ghost use Rattle.pcode_vm.specs.View.{back_view, backs_view, operands_view, state_view};

use crate::backs::Back;
use crate::machine::Machine;
use crate::operands::Operands;
use crate::step::Step;
use pcode::Code;
use run_events::{CHANGE, area_value, next_due, sheet_of, sinks, source_of};
use run_memory::{Memory, Slot, copy_slots};
use sheet_host::Area;
use std::alloc::Global;
use std::mem;
use vba_base::NoMemory;
use vba_events::Linked;
use vba_values::{ObjId, ObjRef, Value};

// The object whose procedure runs, as a source of events.
fn own_source(memory: &Memory) -> ObjRef
    ensures { result ≡ source_of (top (memory_view memory.now)).me }
{
    if memory.stands {
        source_of(&memory.top.me)
    } else {
        ObjRef::Nothing
    }
}

// The links of a source, by rising set number, the first one last.
#[tactic(auto, using(crate::proofs::Delivering::turned_round))]
fn sinks_last_first(memory: &Memory, alloc: Global, source: ObjRef) -> Result<Vec<Linked>, NoMemory>
    ensures { IfOk result (λ links. reverse links.items ≡ sinks source (memory_view memory.now)) }
{
    let mut links = sinks(memory, alloc, source)?;
    links.as_mut_slice().reverse();
    Ok(links)
}

// What Change of a sheet gives to its handlers: the area that was written.
fn target_of(alloc: Global, area: Area) -> Result<Vec<Slot>, NoMemory>
    ensures { IfOk result (λ slots. map slot_view slots.items ≡ target_of area) }
{
    let mut slots = Vec::new(alloc);
    slots.push(Slot::Value(area_value(area)))?;
    Ok(slots)
}

impl Machine {
    // An event of the object whose procedure runs, with so many arguments.
    pub fn raise_event(
        &mut self,
        alloc: Global,
        code: &Code,
        turns: u64,
        pc: usize,
        event: u32,
        arguments: u32,
    ) -> Result<Step, NoMemory>
        requires { pc + 1 < 2 ^ 64 }
        ensures { IfOk result (λ step. Acted turns (code_view code.now) (plain.RaiseEvent event arguments) pc self.old self.new step) }
    {
        let Some(slots) = self.operands.take(alloc, arguments)? else {
            return Ok(Step::Stuck);
        };
        let source = own_source(&self.memory);
        let links = sinks_last_first(&self.memory, alloc, source)?;
        self.deliver(alloc, code, turns, event, slots, links, pc + 1)
    }

    // The handler of the next link that has one is called; where none is left the raise is over.
    pub fn deliver(
        &mut self,
        alloc: Global,
        code: &Code,
        turns: u64,
        event: u32,
        slots: Vec<Slot>,
        links: Vec<Linked>,
        next: usize,
    ) -> Result<Step, NoMemory>
        ensures { IfOk result (λ step. Does turns (delivers (code_view code.now) event (map slot_view slots.items) (reverse links.items) next
            (operands_view self.old.operands) (backs_view self.old.backs) (state_view self.old)) self.old self.new step) }
    {
        let mut links = links;
        match next_due(&code.declared, event, &mut links, &self.memory) {
            Some((sink, procedure)) => self.call_handler(
                alloc, code, turns, event, slots, sink, procedure, links, next,
            ),
            None => {
                self.memory.raise_over(alloc, slots.as_slice());
                self.go_on(next);
                Ok(Step::On)
            }
        }
    }

    // A handler is called with the object of its variable, before the links that are still to be asked.
    fn call_handler(
        &mut self,
        alloc: Global,
        code: &Code,
        turns: u64,
        event: u32,
        slots: Vec<Slot>,
        sink: ObjId,
        procedure: u32,
        links: Vec<Linked>,
        next: usize,
    ) -> Result<Step, NoMemory>
        ensures { IfOk result (λ step. Does turns (handles (code_view code.now) event (map slot_view slots.items) sink (reverse links.items) procedure next
            (operands_view self.old.operands) (backs_view self.old.backs) (state_view self.old)) self.old self.new step) }
    {
        self.memory.lent_again(alloc, slots.as_slice())?;
        if !self.has_room() {
            return self.raise_number(alloc, turns, 28);
        }
        let arguments = copy_slots(alloc, slots.as_slice())?;
        let back = self.wait_delivering(alloc, event, slots, links, next);
        let me = Value::Object(ObjRef::Heap(sink));
        self.enter_before(alloc, code, turns, back, true, procedure, me, arguments)
    }

    // The operands wait until a raise is over.
    fn wait_delivering(
        &mut self,
        alloc: Global,
        event: u32,
        slots: Vec<Slot>,
        links: Vec<Linked>,
        next: usize,
    ) -> Back
        ensures back { back_view result ≡ Delivering event (map slot_view slots.items) (reverse links.items) next (operands_view self.old.operands) }
        ensures backs { backs_view self.new.backs ≡ backs_view self.old.backs }
        ensures state { state_view self.new ≡ state_view self.old }
        ensures told { told_view self.new.told ≡ told_view self.old.told }
    {
        let operands = mem::replace(&mut self.operands, Operands::new(alloc));
        Back::Delivering {
            event,
            slots,
            links,
            pc: next,
            operands,
        }
    }

    /// Where an area was written the handlers of Change are called, and then the statement goes on at an address.
    #[inline(always)]
    pub fn tell_change(
        &mut self,
        alloc: Global,
        code: &Code,
        turns: u64,
        next: usize,
    ) -> Result<Step, NoMemory>
        ensures { IfOk result (λ step. Does turns (tells_change (code_view code.now) (memory_view self.old.memory).changed next
            (operands_view self.old.operands) (backs_view self.old.backs) (state_view self.old)) self.old self.new step) }
    {
        let Some(area) = self.memory.changed else {
            self.go_on(next);
            return Ok(Step::On);
        };
        self.change_told(alloc, code, turns, next, area)
    }

    // The handlers of Change are called with an area.
    #[cold]
    fn change_told(
        &mut self,
        alloc: Global,
        code: &Code,
        turns: u64,
        next: usize,
        area: Area,
    ) -> Result<Step, NoMemory>
        ensures { IfOk result (λ step. Does turns (tells_change (code_view code.now) (Some area) next
            (operands_view self.old.operands) (backs_view self.old.backs) (state_view self.old)) self.old self.new step) }
    {
        self.memory.changed = None;
        let links = sinks_last_first(&self.memory, alloc, sheet_of(area))?;
        let slots = target_of(alloc, area)?;
        self.deliver(alloc, code, turns, CHANGE, slots, links, next)
    }
}

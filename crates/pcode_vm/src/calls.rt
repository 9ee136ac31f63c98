// Calls.
ghost use Rattle.std.specs.Prelude.{◌≡◌, ◌∷◌, nat_lt, length, ◌<◌, ◌+◌, ◌^◌, IfOk, OnOk, map};
ghost use Rattle.vba_values.specs.View.{view};
ghost use Rattle.bound_project.specs.View.{declarations_view};
ghost use Rattle.vba_meaning.specs.Memory.{entered};
ghost use Rattle.run_memory.specs.View.{slot_view, memory_view};
ghost use Rattle.pcode.specs.Instructions as plain;
ghost use Rattle.pcode.specs.Machine.{Caller, calls, enters};
ghost use Rattle.pcode.specs.View.{code_view};
ghost use Rattle.pcode_vm.specs.View.{operands_view, back_view, backs_view, state_view};
ghost use Rattle.run_host.specs.View.{told_view};
ghost use Rattle.pcode_vm.specs.Does.{Does, Acted};

use crate::backs::Back;
use crate::machine::Machine;
use crate::operands::Operands;
use crate::step::{Step, StepEnd};
use bound_project::Declarations;
use pcode::Code;
use run_memory::{Memory, Slot, own_slots};
use std::alloc::Global;
use std::mem;
use vba_base::NoMemory;
use vba_values::Value;

impl Machine {
    // So many arguments, and a call with them.
    pub fn call(
        &mut self,
        alloc: Global,
        code: &Code,
        turns: u64,
        pc: usize,
        procedure: u32,
        arguments: u32,
    ) -> Result<Step, NoMemory>
        requires { pc + 1 < 2 ^ 64 }
        ensures { IfOk result (λ step. Acted turns (code_view code.now) (plain.Call procedure arguments) pc self.old self.new step) }
    {
        let Some(taken) = self.operands.take(alloc, arguments)? else {
            return Ok(Step::Stuck);
        };
        let me = Value::Empty;
        self.call_with(alloc, code, turns, pc + 1, procedure, me, taken)
    }

    // A call of an object, or of none, with these arguments, which goes on at an address.
    pub fn call_with(
        &mut self,
        alloc: Global,
        code: &Code,
        turns: u64,
        next: usize,
        procedure: u32,
        me: Value,
        arguments: Vec<Slot>,
    ) -> Result<Step, NoMemory>
        ensures { IfOk result (λ step. Does turns (calls (code_view code.now) procedure (view me) (map slot_view arguments.items) next (operands_view self.old.operands) (backs_view self.old.backs) (state_view self.old)) self.old self.new step) }
    {
        if !self.has_room() {
            return self.raise_number(alloc, turns, 28);
        }
        let back = self.wait_at(alloc, next);
        self.enter_before(alloc, code, turns, back, true, procedure, me, arguments)
    }

    // The operands wait for what a call gives at an address.
    fn wait_at(&mut self, alloc: Global, next: usize) -> Back
        ensures back { back_view result ≡ Caller next (operands_view self.old.operands) }
        ensures backs { backs_view self.new.backs ≡ backs_view self.old.backs }
        ensures state { state_view self.new ≡ state_view self.old }
        ensures told { told_view self.new.told ≡ told_view self.old.told }
    {
        let operands = mem::replace(&mut self.operands, Operands::new(alloc));
        Back::Caller { pc: next, operands }
    }

    // Whether fewer than 2000 calls stand.
    #[tactic(auto, using(crate::proofs::Waiting::room_below))]
    pub fn has_room(&self) -> bool
        ensures { result ≡ nat_lt (length (memory_view self.now.memory).frames) 2000 }
    {
        self.memory.below() < 1999
    }

    // A procedure is entered, before what waits for it.
    pub fn enter_before(
        &mut self,
        alloc: Global,
        code: &Code,
        turns: u64,
        back: Back,
        called: bool,
        procedure: u32,
        me: Value,
        arguments: Vec<Slot>,
    ) -> Result<Step, NoMemory>
        ensures { IfOk result (λ step. Does turns (enters (code_view code.now) called procedure (view me) (map slot_view arguments.items) (back_view back ∷ backs_view self.old.backs) (state_view self.old)) self.old self.new step) }
    {
        self.backs.push(back)?;
        self.enter(alloc, code, turns, called, procedure, me, arguments)
    }

    // A procedure is entered with its Me and its arguments.
    pub fn enter(
        &mut self,
        alloc: Global,
        code: &Code,
        turns: u64,
        called: bool,
        procedure: u32,
        me: Value,
        arguments: Vec<Slot>,
    ) -> Result<Step, NoMemory>
        ensures { IfOk result (λ step. Does turns (enters (code_view code.now) called procedure (view me) (map slot_view arguments.items) (backs_view self.old.backs) (state_view self.old)) self.old self.new step) }
    {
        enter_frame(
            alloc,
            &mut self.memory,
            &code.declared,
            called,
            procedure,
            me,
            arguments,
        )?;
        if self.begun >= turns {
            return Ok(Step::Ended(StepEnd::Going));
        }
        self.begun += 1;
        self.operands.clear();
        self.go_on(code.start_of(procedure));
        Ok(Step::On)
    }
}

// The frame of a call stands, with the procedure's own variables before its arguments.
fn enter_frame(
    alloc: Global,
    memory: &mut Memory,
    declared: &Declarations,
    called: bool,
    procedure: u32,
    me: Value,
    arguments: Vec<Slot>,
) -> Result<(), NoMemory>
    ensures { OnOk result (memory_view memory.new ≡ entered (declarations_view declared.now) called procedure (view me) (map slot_view arguments.items) (memory_view memory.old)) }
{
    let own = own_slots(alloc, declared, procedure)?;
    memory.entered(alloc, called, procedure, me, own, arguments)
}

// Uses of objects by instructions: they come to a value, or call a procedure and go on with what it gives.
ghost use Rattle.std.specs.Prelude.{◌≡◌, ◌∷◌, IfOk, OnOk, false, map};
ghost use Rattle.vba_values.specs.View.{view};
ghost use Rattle.vba_meaning.specs.Defaults.{counted_if_any, counted_operand, then_call};
ghost use Rattle.run_memory.specs.View.{memory_view, slot_view};
ghost use Rattle.run_host.specs.View.{told_view};
ghost use Rattle.run_defaults.specs.View.{next_view, tasks_view};
ghost use Rattle.pcode.specs.Machine.{Within, follows, left_as, resumes, uses};
ghost use Rattle.pcode.specs.View.{code_view};
ghost use Rattle.pcode_vm.specs.Does.{Does};
ghost use Rattle.pcode_vm.specs.View.{back_view, backs_view, operands_view, state_view};

use crate::backs::Back;
use crate::machine::Machine;
use crate::operands::Operands;
use crate::step::{Step, Why};
use pcode::Code;
use run_defaults::{Next, Task, counted_if_any, counted_operand, tasks_next};
use run_host::path_to;
use run_memory::Slot;
use std::alloc::Global;
use std::mem;
use vba_base::{NoMemory, OrMemory};
use vba_values::{Bad, Value};

/// No use makes more calls than this.
pub const MOST_CALLS: u32 = 32;

impl Operands {
    // What a use leaves is pushed: a value, or its place.
    fn push_left(&mut self, alloc: Global, place: bool, value: Value) -> Result<(), NoMemory>
        ensures { OnOk result (operands_view self.new ≡ left_as place (view value) ∷ operands_view self.old) }
    {
        if place {
            return self.push_path(path_to(alloc, value));
        }
        self.push_value(value)
    }
}

impl Machine {
    // A counted object gives way.
    pub fn give_way(
        &mut self,
        alloc: Global,
        code: &Code,
        turns: u64,
        next: usize,
        value: Value,
    ) -> Result<Step, NoMemory>
        ensures { IfOk result (λ step. Does turns (uses (code_view code.now) false (counted_operand (code_view code.now).declared (view value) (memory_view self.old.memory)) next
            (operands_view self.old.operands) (backs_view self.old.backs) (state_view self.old)) self.old self.new step) }
    {
        let declared = &code.declared;
        let told = &mut self.told;
        let came = attempt!(
            self,
            alloc,
            turns,
            counted_operand(&mut self.memory, alloc, declared, value, told)
        );
        self.follow(alloc, code, turns, false, MOST_CALLS, next, came)
    }

    // The same where one without such a value stays.
    pub fn give_way_if_any(
        &mut self,
        alloc: Global,
        code: &Code,
        turns: u64,
        next: usize,
        value: Value,
    ) -> Result<Step, NoMemory>
        ensures { IfOk result (λ step. Does turns (uses (code_view code.now) false (counted_if_any (code_view code.now).declared (view value) (memory_view self.old.memory)) next
            (operands_view self.old.operands) (backs_view self.old.backs) (state_view self.old)) self.old self.new step) }
    {
        let declared = &code.declared;
        let told = &mut self.told;
        let came = attempt!(
            self,
            alloc,
            turns,
            counted_if_any(&mut self.memory, alloc, declared, value, told)
        );
        self.follow(alloc, code, turns, false, MOST_CALLS, next, came)
    }

    /// A use goes on with what a call gave.
    pub fn resume(
        &mut self,
        alloc: Global,
        code: &Code,
        turns: u64,
        place: bool,
        left: u32,
        tasks: Vec<Task>,
        next: usize,
        value: Value,
    ) -> Result<Step, NoMemory>
        ensures { IfOk result (λ step. Does turns (resumes (code_view code.now) place left (tasks_view tasks.items) next (operands_view self.old.operands) (backs_view self.old.backs) (view value) (state_view self.old)) self.old self.new step) }
    {
        let declared = &code.declared;
        let told = &mut self.told;
        let came = attempt!(
            self,
            alloc,
            turns,
            tasks_next(&mut self.memory, alloc, declared, tasks, value, told)
        );
        self.follow(alloc, code, turns, place, left, next, came)
    }

    /// A use gives a value, where Change of the cells that it wrote is told first, or calls a procedure and waits for what
    /// that gives.
    pub fn follow(
        &mut self,
        alloc: Global,
        code: &Code,
        turns: u64,
        place: bool,
        left: u32,
        next: usize,
        came: Next,
    ) -> Result<Step, NoMemory>
        ensures { IfOk result (λ step. Does turns (follows (code_view code.now) place left next (operands_view self.old.operands) (backs_view self.old.backs) (next_view came) (state_view self.old)) self.old self.new step) }
    {
        match came {
            Next::Gives(value) => {
                self.operands.push_left(alloc, place, value)?;
                self.tell_change(alloc, code, turns, next)
            }
            Next::Calls {
                procedure,
                me,
                arguments,
                tasks,
            } => self.call_within(
                alloc, code, turns, place, left, tasks, next, procedure, me, arguments,
            ),
        }
    }

    // A call within a use: 450 where it has made too many, and 28 where too many stand.
    fn call_within(
        &mut self,
        alloc: Global,
        code: &Code,
        turns: u64,
        place: bool,
        left: u32,
        tasks: Vec<Task>,
        next: usize,
        procedure: u32,
        me: Value,
        arguments: Vec<Slot>,
    ) -> Result<Step, NoMemory>
        ensures { IfOk result (λ step. Does turns (follows (code_view code.now) place left next (operands_view self.old.operands) (backs_view self.old.backs)
            (then_call procedure (view me) (map slot_view arguments.items) (tasks_view tasks.items)) (state_view self.old)) self.old self.new step) }
    {
        if left == 0 {
            return self.raise_number(alloc, turns, 450);
        }
        if !self.has_room() {
            return self.raise_number(alloc, turns, 28);
        }
        let back = self.wait_within(alloc, place, left - 1, tasks, next);
        self.enter_before(alloc, code, turns, back, true, procedure, me, arguments)
    }

    // The operands wait for what a call within a use gives.
    fn wait_within(
        &mut self,
        alloc: Global,
        place: bool,
        left: u32,
        tasks: Vec<Task>,
        next: usize,
    ) -> Back
        ensures back { back_view result ≡ Within place left (tasks_view tasks.items) next (operands_view self.old.operands) }
        ensures backs { backs_view self.new.backs ≡ backs_view self.old.backs }
        ensures state { state_view self.new ≡ state_view self.old }
        ensures told { told_view self.new.told ≡ told_view self.old.told }
    {
        let operands = mem::replace(&mut self.operands, Operands::new(alloc));
        Back::Within {
            place,
            left,
            tasks,
            pc: next,
            operands,
        }
    }
}

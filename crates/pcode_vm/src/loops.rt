// Instructions of loops.
ghost use Rattle.std.specs.Prelude.{IfOk, ◌<◌, ◌+◌, ◌^◌};
ghost use Rattle.bound_project.specs.View.{declared_view, variable_view};
ghost use Rattle.pcode.specs.Instructions as plain;
ghost use Rattle.pcode.specs.View.{code_view};
ghost use Rattle.pcode_vm.specs.Does.{Acted};

use crate::machine::Machine;
use crate::step::{Step, Why};
use bound_project::{DeclaredType, Variable};
use pcode::Code;
use run_arrays::{each_begun, each_next, each_off};
use run_memory::{Loop, Typed};
use std::alloc::Global;
use vba_base::{NoMemory, OrMemory};
use vba_values::{Bad, Compare, Value};

impl Machine {
    // The header of a For begins.
    pub fn loop_off(
        &mut self,
        alloc: Global,
        code: &Code,
        turns: u64,
        pc: usize,
        block: u32,
    ) -> Result<Step, NoMemory>
        requires { pc + 1 < 2 ^ 64 }
        ensures { IfOk result (λ step. Acted turns (code_view code.now) (plain.LoopOff block) pc self.old self.new step) }
    {
        self.memory.loop_off(alloc, block);
        self.go_on(pc + 1);
        Ok(Step::On)
    }

    // Whether the block of a For is entered.
    pub fn loop_on(
        &mut self,
        alloc: Global,
        code: &Code,
        turns: u64,
        pc: usize,
        counter: Variable,
        block: u32,
        compare: Compare,
        of_last: DeclaredType,
        of_step: DeclaredType,
    ) -> Result<Step, NoMemory>
        requires { pc + 1 < 2 ^ 64 }
        ensures { IfOk result (λ step. Acted turns (code_view code.now) (plain.LoopOn (variable_view counter) block compare (declared_view of_last) (declared_view of_step)) pc self.old self.new step) }
    {
        let Some(by) = self.operands.pop_value() else {
            return Ok(Step::Stuck);
        };
        let Some(end) = self.operands.pop_value() else {
            return Ok(Step::Stuck);
        };
        let Some(start) = self.operands.pop_value() else {
            return Ok(Step::Stuck);
        };
        let standing = Loop {
            last: Typed {
                value: end,
                of: of_last,
            },
            step: Typed {
                value: by,
                of: of_step,
            },
            compare,
        };
        let holds = attempt!(
            self,
            alloc,
            turns,
            self.memory.loop_on(alloc, counter, block, standing, start)
        );
        self.operands.push_value(Value::Boolean(holds))?;
        self.go_on(pc + 1);
        Ok(Step::On)
    }

    // Whether the block of a For is entered again.
    pub fn next_round(
        &mut self,
        alloc: Global,
        code: &Code,
        turns: u64,
        pc: usize,
        counter: Variable,
        block: u32,
    ) -> Result<Step, NoMemory>
        requires { pc + 1 < 2 ^ 64 }
        ensures { IfOk result (λ step. Acted turns (code_view code.now) (plain.NextRound (variable_view counter) block) pc self.old self.new step) }
    {
        let holds = attempt!(
            self,
            alloc,
            turns,
            self.memory.next_round(alloc, counter, block)
        );
        self.operands.push_value(Value::Boolean(holds))?;
        self.go_on(pc + 1);
        Ok(Step::On)
    }

    // The header of a For Each begins.
    pub fn each_off(
        &mut self,
        alloc: Global,
        code: &Code,
        turns: u64,
        pc: usize,
        block: u32,
    ) -> Result<Step, NoMemory>
        requires { pc + 1 < 2 ^ 64 }
        ensures { IfOk result (λ step. Acted turns (code_view code.now) (plain.EachOff block) pc self.old self.new step) }
    {
        each_off(&mut self.memory, alloc, block)?;
        self.go_on(pc + 1);
        Ok(Step::On)
    }

    // A value is walked.
    pub fn each_on(
        &mut self,
        alloc: Global,
        code: &Code,
        turns: u64,
        pc: usize,
        block: u32,
    ) -> Result<Step, NoMemory>
        requires { pc + 1 < 2 ^ 64 }
        ensures { IfOk result (λ step. Acted turns (code_view code.now) (plain.EachOn block) pc self.old self.new step) }
    {
        let Some(value) = self.operands.pop_value() else {
            return Ok(Step::Stuck);
        };
        let count = attempt!(
            self,
            alloc,
            turns,
            each_begun(&mut self.memory, alloc, block, value)
        );
        self.let_go(alloc, count, pc + 1);
        Ok(Step::On)
    }

    // Whether there was a further item.
    pub fn next_item(
        &mut self,
        alloc: Global,
        code: &Code,
        turns: u64,
        pc: usize,
        control: Variable,
        block: u32,
    ) -> Result<Step, NoMemory>
        requires { pc + 1 < 2 ^ 64 }
        ensures { IfOk result (λ step. Acted turns (code_view code.now) (plain.NextItem (variable_view control) block) pc self.old self.new step) }
    {
        let holds = attempt!(
            self,
            alloc,
            turns,
            each_next(&mut self.memory, alloc, control, block)
        );
        self.operands.push_value(Value::Boolean(holds))?;
        self.go_on(pc + 1);
        Ok(Step::On)
    }
}

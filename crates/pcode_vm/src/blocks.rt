// Instructions of Select Case, With, ReDim and Erase.
ghost use Rattle.std.specs.Prelude.{IfOk, ◌<◌, ◌+◌, ◌^◌, option_map};
ghost use Rattle.bound_project.specs.View.{declared_view};
ghost use Rattle.pcode.specs.Instructions as plain;
ghost use Rattle.pcode.specs.View.{code_view};
ghost use Rattle.pcode_vm.specs.Does.{Acted};

use crate::machine::Machine;
use crate::step::{Step, Why};
use bound_project::DeclaredType;
use pcode::Code;
use run_arrays::{erased, redimmed};
use std::alloc::Global;
use vba_base::{NoMemory, OrMemory};
use vba_values::{Bad, Compare, OpKind};

impl Machine {
    // A block keeps a value.
    pub fn keep(
        &mut self,
        alloc: Global,
        code: &Code,
        turns: u64,
        pc: usize,
        block: u32,
    ) -> Result<Step, NoMemory>
        requires { pc + 1 < 2 ^ 64 }
        ensures { IfOk result (λ step. Acted turns (code_view code.now) (plain.Keep block) pc self.old self.new step) }
    {
        let Some(value) = self.operands.pop_value() else {
            return Ok(Step::Stuck);
        };
        self.memory.keep(alloc, block, value)?;
        self.go_on(pc + 1);
        Ok(Step::On)
    }

    // The value that a block keeps.
    pub fn selected(
        &mut self,
        alloc: Global,
        code: &Code,
        turns: u64,
        pc: usize,
        block: u32,
    ) -> Result<Step, NoMemory>
        requires { pc + 1 < 2 ^ 64 }
        ensures { IfOk result (λ step. Acted turns (code_view code.now) (plain.Selected block) pc self.old self.new step) }
    {
        let value = self.memory.selected(alloc, block)?;
        self.operands.push_value(value)?;
        self.go_on(pc + 1);
        Ok(Step::On)
    }

    // A test of a Case that fits leaves the statement.
    pub fn if_fits(
        &mut self,
        alloc: Global,
        code: &Code,
        turns: u64,
        pc: usize,
        operator: OpKind,
        compare: Compare,
        of: DeclaredType,
        test: DeclaredType,
        to: u32,
    ) -> Result<Step, NoMemory>
        requires { pc + 1 < 2 ^ 64 }
        ensures { IfOk result (λ step. Acted turns (code_view code.now) (plain.IfFits operator compare (declared_view of) (declared_view test) to) pc self.old self.new step) }
    {
        let Some(second) = self.operands.pop_value() else {
            return Ok(Step::Stuck);
        };
        let Some(first) = self.operands.pop_value() else {
            return Ok(Step::Stuck);
        };
        let holds = attempt!(
            self,
            alloc,
            turns,
            self.fits(alloc, operator, compare, of, test, &first, &second)
        );
        self.jump_if(alloc, holds, to as usize, pc + 1)?;
        Ok(Step::On)
    }

    // The same of a range.
    pub fn if_between(
        &mut self,
        alloc: Global,
        code: &Code,
        turns: u64,
        pc: usize,
        compare: Compare,
        of: DeclaredType,
        low: DeclaredType,
        high: DeclaredType,
        to: u32,
    ) -> Result<Step, NoMemory>
        requires { pc + 1 < 2 ^ 64 }
        ensures { IfOk result (λ step. Acted turns (code_view code.now) (plain.IfBetween compare (declared_view of) (declared_view low) (declared_view high) to) pc self.old self.new step) }
    {
        let Some(last) = self.operands.pop_value() else {
            return Ok(Step::Stuck);
        };
        let Some(first) = self.operands.pop_value() else {
            return Ok(Step::Stuck);
        };
        let Some(value) = self.operands.pop_value() else {
            return Ok(Step::Stuck);
        };
        let holds = attempt!(
            self,
            alloc,
            turns,
            self.fits_between(alloc, compare, of, low, high, &value, &first, &last)
        );
        self.jump_if(alloc, holds, to as usize, pc + 1)?;
        Ok(Step::On)
    }

    // ReDim of the array at a path.
    pub fn redim(
        &mut self,
        alloc: Global,
        code: &Code,
        turns: u64,
        pc: usize,
        preserve: bool,
        of: Option<DeclaredType>,
        bounds: u32,
    ) -> Result<Step, NoMemory>
        requires { pc + 1 < 2 ^ 64 }
        ensures { IfOk result (λ step. Acted turns (code_view code.now) (plain.Redim preserve (option_map declared_view of) bounds) pc self.old self.new step) }
    {
        let Some(numbers) = self.operands.take(alloc, bounds)? else {
            return Ok(Step::Stuck);
        };
        let Some(path) = self.operands.pop_path() else {
            return Ok(Step::Stuck);
        };
        let count = attempt!(
            self,
            alloc,
            turns,
            redimmed(
                &mut self.memory,
                alloc,
                &code.declared,
                preserve,
                of,
                &path,
                numbers.as_slice()
            )
        );
        self.let_go(alloc, count, pc + 1);
        Ok(Step::On)
    }

    // Erase of the array at a path.
    pub fn erase_at(
        &mut self,
        alloc: Global,
        code: &Code,
        turns: u64,
        pc: usize,
    ) -> Result<Step, NoMemory>
        requires { pc + 1 < 2 ^ 64 }
        ensures { IfOk result (λ step. Acted turns (code_view code.now) (plain.EraseAt) pc self.old self.new step) }
    {
        let Some(path) = self.operands.pop_path() else {
            return Ok(Step::Stuck);
        };
        let count = attempt!(
            self,
            alloc,
            turns,
            erased(&mut self.memory, alloc, &code.declared, &path)
        );
        self.let_go(alloc, count, pc + 1);
        Ok(Step::On)
    }

    // A block is over.
    pub fn drop_kept(
        &mut self,
        alloc: Global,
        code: &Code,
        turns: u64,
        pc: usize,
        block: u32,
    ) -> Result<Step, NoMemory>
        requires { pc + 1 < 2 ^ 64 }
        ensures { IfOk result (λ step. Acted turns (code_view code.now) (plain.DropKept block) pc self.old self.new step) }
    {
        self.memory.block_over(alloc, block)?;
        self.go_on(pc + 1);
        Ok(Step::On)
    }
}

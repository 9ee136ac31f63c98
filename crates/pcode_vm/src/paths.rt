// Instructions over paths.
ghost use Rattle.std.specs.Prelude.{IfOk, ◌<◌, ◌+◌, ◌^◌};
ghost use Rattle.vba_values.specs.View.{view};
ghost use Rattle.bound_project.specs.View.{declared_view, variable_view};
ghost use Rattle.vba_meaning.specs.Host.{assigned_at};
ghost use Rattle.run_memory.specs.View.{memory_view, path_view};
ghost use Rattle.pcode.specs.Instructions as plain;
ghost use Rattle.pcode.specs.Machine.{done_then, then_changes};
ghost use Rattle.pcode.specs.View.{code_view};
ghost use Rattle.pcode_vm.specs.Does.{Acted, Does};
ghost use Rattle.pcode_vm.specs.View.{backs_view, operands_view, state_view};

use crate::machine::Machine;
use crate::step::{Step, Why};
use bound_project::{DeclaredType, Variable};
use pcode::Code;
use run_host::{assigned_at, place_at};
use run_memory::Path;
use std::alloc::Global;
use vba_base::{NoMemory, OrMemory};
use vba_values::{Bad, Value};

impl Machine {
    // The path of a variable.
    pub fn path_of(
        &mut self,
        alloc: Global,
        code: &Code,
        turns: u64,
        pc: usize,
        variable: Variable,
    ) -> Result<Step, NoMemory>
        requires { pc + 1 < 2 ^ 64 }
        ensures { IfOk result (λ step. Acted turns (code_view code.now) (plain.PathOf (variable_view variable)) pc self.old self.new step) }
    {
        let path = self.memory.path_of(alloc, variable)?;
        self.operands.push_path(path)?;
        self.go_on(pc + 1);
        Ok(Step::On)
    }

    // The value at the path on top.
    pub fn read_through(
        &mut self,
        alloc: Global,
        code: &Code,
        turns: u64,
        pc: usize,
    ) -> Result<Step, NoMemory>
        requires { pc + 1 < 2 ^ 64 }
        ensures { IfOk result (λ step. Acted turns (code_view code.now) (plain.ReadThrough) pc self.old self.new step) }
    {
        let Some(path) = self.operands.pop_path() else {
            return Ok(Step::Stuck);
        };
        let value = attempt!(self, alloc, turns, self.memory.read_path(alloc, &path));
        self.operands.push_value(value)?;
        self.go_on(pc + 1);
        Ok(Step::On)
    }

    // The path of an element of what is at the path on top.
    pub fn element_of(
        &mut self,
        alloc: Global,
        code: &Code,
        turns: u64,
        pc: usize,
        numbers: u32,
    ) -> Result<Step, NoMemory>
        requires { pc + 1 < 2 ^ 64 }
        ensures { IfOk result (λ step. Acted turns (code_view code.now) (plain.ElementOf numbers) pc self.old self.new step) }
    {
        let Some(path) = self.operands.pop_path() else {
            return Ok(Step::Stuck);
        };
        let Some(places) = self.operands.take(alloc, numbers)? else {
            return Ok(Step::Stuck);
        };
        let path = attempt!(
            self,
            alloc,
            turns,
            place_at(&mut self.memory, alloc, &path, places.as_slice())
        );
        self.operands.push_path(path)?;
        self.go_on(pc + 1);
        Ok(Step::On)
    }

    // The same, with the path below the numbers.
    pub fn element_in(
        &mut self,
        alloc: Global,
        code: &Code,
        turns: u64,
        pc: usize,
        numbers: u32,
    ) -> Result<Step, NoMemory>
        requires { pc + 1 < 2 ^ 64 }
        ensures { IfOk result (λ step. Acted turns (code_view code.now) (plain.ElementIn numbers) pc self.old self.new step) }
    {
        let Some(places) = self.operands.take(alloc, numbers)? else {
            return Ok(Step::Stuck);
        };
        let Some(path) = self.operands.pop_path() else {
            return Ok(Step::Stuck);
        };
        let path = attempt!(
            self,
            alloc,
            turns,
            place_at(&mut self.memory, alloc, &path, places.as_slice())
        );
        self.operands.push_path(path)?;
        self.go_on(pc + 1);
        Ok(Step::On)
    }

    // The path of a field.
    pub fn field_of(
        &mut self,
        alloc: Global,
        code: &Code,
        turns: u64,
        pc: usize,
        field: u32,
        of: DeclaredType,
        is_bounded: bool,
    ) -> Result<Step, NoMemory>
        requires { pc + 1 < 2 ^ 64 }
        ensures { IfOk result (λ step. Acted turns (code_view code.now) (plain.FieldOf field (declared_view of) is_bounded) pc self.old self.new step) }
    {
        let Some(path) = self.operands.pop_path() else {
            return Ok(Step::Stuck);
        };
        let path = path.field(alloc, field, of, is_bounded)?;
        self.operands.push_path(path)?;
        self.go_on(pc + 1);
        Ok(Step::On)
    }

    // Where a With block's dot leads.
    pub fn dot(
        &mut self,
        alloc: Global,
        code: &Code,
        turns: u64,
        pc: usize,
        block: u32,
    ) -> Result<Step, NoMemory>
        requires { pc + 1 < 2 ^ 64 }
        ensures { IfOk result (λ step. Acted turns (code_view code.now) (plain.Dot block) pc self.old self.new step) }
    {
        let path = attempt!(self, alloc, turns, self.memory.dot_at(alloc, block));
        self.operands.push_path(path)?;
        self.go_on(pc + 1);
        Ok(Step::On)
    }

    // A value is assigned to what is at a path.
    pub fn store(
        &mut self,
        alloc: Global,
        code: &Code,
        turns: u64,
        pc: usize,
    ) -> Result<Step, NoMemory>
        requires { pc + 1 < 2 ^ 64 }
        ensures { IfOk result (λ step. Acted turns (code_view code.now) (plain.Store) pc self.old self.new step) }
    {
        let Some(path) = self.operands.pop_path() else {
            return Ok(Step::Stuck);
        };
        let Some(value) = self.operands.pop_value() else {
            return Ok(Step::Stuck);
        };
        self.assign_at(alloc, code, turns, pc, &path, value)
    }

    // The same, with both off the operands.
    fn assign_at(
        &mut self,
        alloc: Global,
        code: &Code,
        turns: u64,
        pc: usize,
        path: &Path,
        value: Value,
    ) -> Result<Step, NoMemory>
        requires { pc + 1 < 2 ^ 64 }
        ensures { IfOk result (λ step. Does turns (done_then (assigned_at (path_view path.now) (view value) (memory_view self.old.memory))
            (backs_view self.old.backs) (state_view self.old)
            (then_changes (code_view code.now) (pc + 1) (operands_view self.old.operands) (backs_view self.old.backs))) self.old self.new step) }
    {
        let told = &mut self.told;
        attempt!(
            self,
            alloc,
            turns,
            assigned_at(&mut self.memory, alloc, path, value, told)
        );
        self.tell_change(alloc, code, turns, pc + 1)
    }

    // The path on top becomes an argument.
    pub fn lend(
        &mut self,
        alloc: Global,
        code: &Code,
        turns: u64,
        pc: usize,
    ) -> Result<Step, NoMemory>
        requires { pc + 1 < 2 ^ 64 }
        ensures { IfOk result (λ step. Acted turns (code_view code.now) (plain.Lend) pc self.old self.new step) }
    {
        let Some(path) = self.operands.pop_path() else {
            return Ok(Step::Stuck);
        };
        let lent = path.copy(alloc)?;
        self.memory.lent(alloc, lent)?;
        self.operands.push_path(path)?;
        self.go_on(pc + 1);
        Ok(Step::On)
    }

    // The block of a With keeps a path.
    pub fn keep_path(
        &mut self,
        alloc: Global,
        code: &Code,
        turns: u64,
        pc: usize,
        block: u32,
    ) -> Result<Step, NoMemory>
        requires { pc + 1 < 2 ^ 64 }
        ensures { IfOk result (λ step. Acted turns (code_view code.now) (plain.KeepPath block) pc self.old self.new step) }
    {
        let Some(path) = self.operands.pop_path() else {
            return Ok(Step::Stuck);
        };
        self.memory.keep_path(alloc, block, path)?;
        self.go_on(pc + 1);
        Ok(Step::On)
    }
}

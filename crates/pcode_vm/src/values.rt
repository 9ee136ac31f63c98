// Instructions over values.
ghost use Rattle.std.specs.Prelude.{IfOk, ◌<◌, ◌+◌, ◌^◌};
ghost use Rattle.bound_project.specs.View.{declared_view, member_view};
ghost use Rattle.bound_project.specs.Pieces.{constant_in};
ghost use Rattle.pcode.specs.Instructions as plain;
ghost use Rattle.pcode.specs.View.{code_view, tables_of};
ghost use Rattle.pcode_vm.specs.Does.{Acted};

use crate::machine::Machine;
use crate::step::{Step, Why};
use bound_project::{DeclaredType, ErrMember};
use pcode::Code;
use run_host::{is_counted, item_by};
use std::alloc::Global;
use vba_base::{NoMemory, OrMemory};
use vba_values::{Bad, Compare, OpKind};

impl Machine {
    // A constant.
    pub fn push(
        &mut self,
        alloc: Global,
        code: &Code,
        turns: u64,
        pc: usize,
        constant: u32,
    ) -> Result<Step, NoMemory>
        requires { pc + 1 < 2 ^ 64 }
        ensures { IfOk result (λ step. Acted turns (code_view code.now) (plain.Push (constant_in (tables_of code.now) constant)) pc self.old self.new step) }
    {
        let value = code.constant(alloc, constant)?;
        self.operands.push_value(value)?;
        self.go_on(pc + 1);
        Ok(Step::On)
    }

    // What Err tells.
    pub fn load_err(
        &mut self,
        alloc: Global,
        code: &Code,
        turns: u64,
        pc: usize,
        member: ErrMember,
    ) -> Result<Step, NoMemory>
        requires { pc + 1 < 2 ^ 64 }
        ensures { IfOk result (λ step. Acted turns (code_view code.now) (plain.LoadErr (member_view member)) pc self.old self.new step) }
    {
        let value = self.memory.err_of(alloc, &code.declared, member)?;
        self.operands.push_value(value)?;
        self.go_on(pc + 1);
        Ok(Step::On)
    }

    // An element of a value, or an item of an object.
    pub fn index(
        &mut self,
        alloc: Global,
        code: &Code,
        turns: u64,
        pc: usize,
        numbers: u32,
    ) -> Result<Step, NoMemory>
        requires { pc + 1 < 2 ^ 64 }
        ensures { IfOk result (λ step. Acted turns (code_view code.now) (plain.Index numbers) pc self.old self.new step) }
    {
        let Some(places) = self.operands.take(alloc, numbers)? else {
            return Ok(Step::Stuck);
        };
        let Some(base) = self.operands.pop_value() else {
            return Ok(Step::Stuck);
        };
        let value = attempt!(
            self,
            alloc,
            turns,
            item_by(&mut self.memory, alloc, &base, places.as_slice())
        );
        self.operands.push_value(value)?;
        self.go_on(pc + 1);
        Ok(Step::On)
    }

    // A field of a value.
    pub fn part_of(
        &mut self,
        alloc: Global,
        code: &Code,
        turns: u64,
        pc: usize,
        field: u32,
    ) -> Result<Step, NoMemory>
        requires { pc + 1 < 2 ^ 64 }
        ensures { IfOk result (λ step. Acted turns (code_view code.now) (plain.PartOf field) pc self.old self.new step) }
    {
        let Some(whole) = self.operands.pop_value() else {
            return Ok(Step::Stuck);
        };
        let value = attempt!(
            self,
            alloc,
            turns,
            self.memory.part_of(alloc, field, &whole)
        );
        self.operands.push_value(value)?;
        self.go_on(pc + 1);
        Ok(Step::On)
    }

    // An operator of two operands.
    pub fn operate(
        &mut self,
        alloc: Global,
        code: &Code,
        turns: u64,
        pc: usize,
        operator: OpKind,
        compare: Compare,
        left: DeclaredType,
        right: DeclaredType,
    ) -> Result<Step, NoMemory>
        requires { pc + 1 < 2 ^ 64 }
        ensures { IfOk result (λ step. Acted turns (code_view code.now) (plain.Operate operator compare (declared_view left) (declared_view right)) pc self.old self.new step) }
    {
        let Some(second) = self.operands.pop_value() else {
            return Ok(Step::Stuck);
        };
        let Some(first) = self.operands.pop_value() else {
            return Ok(Step::Stuck);
        };
        let value = attempt!(
            self,
            alloc,
            turns,
            self.operated(alloc, operator, compare, left, right, &first, &second)
        );
        self.operands.push_value(value)?;
        self.go_on(pc + 1);
        Ok(Step::On)
    }

    // An operator of one operand.
    pub fn operate_alone(
        &mut self,
        alloc: Global,
        code: &Code,
        turns: u64,
        pc: usize,
        operator: OpKind,
        of: DeclaredType,
    ) -> Result<Step, NoMemory>
        requires { pc + 1 < 2 ^ 64 }
        ensures { IfOk result (λ step. Acted turns (code_view code.now) (plain.OperateAlone operator (declared_view of)) pc self.old self.new step) }
    {
        let Some(operand) = self.operands.pop_value() else {
            return Ok(Step::Stuck);
        };
        let value = attempt!(
            self,
            alloc,
            turns,
            self.operated_alone(alloc, operator, of, &operand)
        );
        self.operands.push_value(value)?;
        self.go_on(pc + 1);
        Ok(Step::On)
    }

    // An object gives way to the value of its default member.
    pub fn plain(
        &mut self,
        alloc: Global,
        code: &Code,
        turns: u64,
        pc: usize,
    ) -> Result<Step, NoMemory>
        requires { pc + 1 < 2 ^ 64 }
        ensures { IfOk result (λ step. Acted turns (code_view code.now) (plain.Plain) pc self.old self.new step) }
    {
        let Some(value) = self.operands.pop_value() else {
            return Ok(Step::Stuck);
        };
        if is_counted(&value) {
            return self.give_way(alloc, code, turns, pc + 1, value);
        }
        let value = attempt!(self, alloc, turns, self.memory.plain(alloc, value));
        self.operands.push_value(value)?;
        self.go_on(pc + 1);
        Ok(Step::On)
    }

    // A value becomes one of a type.
    pub fn fit(
        &mut self,
        alloc: Global,
        code: &Code,
        turns: u64,
        pc: usize,
        of: DeclaredType,
    ) -> Result<Step, NoMemory>
        requires { pc + 1 < 2 ^ 64 }
        ensures { IfOk result (λ step. Acted turns (code_view code.now) (plain.Fit (declared_view of)) pc self.old self.new step) }
    {
        let Some(value) = self.operands.pop_value() else {
            return Ok(Step::Stuck);
        };
        let of = of.value_type(alloc)?;
        let value = attempt!(self, alloc, turns, self.memory.fitted(alloc, &of, value));
        self.operands.push_value(value)?;
        self.go_on(pc + 1);
        Ok(Step::On)
    }

    // The value on top is gone.
    pub fn drop_value(
        &mut self,
        alloc: Global,
        code: &Code,
        turns: u64,
        pc: usize,
    ) -> Result<Step, NoMemory>
        requires { pc + 1 < 2 ^ 64 }
        ensures { IfOk result (λ step. Acted turns (code_view code.now) (plain.Drop) pc self.old self.new step) }
    {
        if self.operands.pop_value().is_none() {
            return Ok(Step::Stuck);
        }
        self.go_on(pc + 1);
        Ok(Step::On)
    }

    // A value as Debug.Print shows it.
    pub fn show_text(
        &mut self,
        alloc: Global,
        code: &Code,
        turns: u64,
        pc: usize,
    ) -> Result<Step, NoMemory>
        requires { pc + 1 < 2 ^ 64 }
        ensures { IfOk result (λ step. Acted turns (code_view code.now) (plain.ShowText) pc self.old self.new step) }
    {
        let Some(value) = self.operands.pop_value() else {
            return Ok(Step::Stuck);
        };
        let value = attempt!(self, alloc, turns, self.show_value(alloc, &value));
        self.operands.push_value(value)?;
        self.go_on(pc + 1);
        Ok(Step::On)
    }
}

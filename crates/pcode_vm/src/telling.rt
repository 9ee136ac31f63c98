// Instructions over arguments, and what is told and raised.
ghost use Rattle.std.specs.Prelude.{IfOk, ◌<◌, ◌+◌, ◌^◌};
ghost use Rattle.bound_project.specs.Pieces.{order_in};
ghost use Rattle.pcode.specs.Instructions as plain;
ghost use Rattle.pcode.specs.View.{code_view, tables_of};
ghost use Rattle.pcode_vm.specs.Does.{Acted};

use crate::arguments::reordered;
use crate::machine::Machine;
use crate::step::Step;
use pcode::Code;
use run_defaults::packed;
use run_host::Event;
use std::alloc::Global;
use vba_base::NoMemory;

impl Machine {
    // So many arguments become an array.
    pub fn pack(
        &mut self,
        alloc: Global,
        code: &Code,
        turns: u64,
        pc: usize,
        arguments: u32,
    ) -> Result<Step, NoMemory>
        requires { pc + 1 < 2 ^ 64 }
        ensures { IfOk result (λ step. Acted turns (code_view code.now) (plain.Pack arguments) pc self.old self.new step) }
    {
        let Some(taken) = self.operands.take(alloc, arguments)? else {
            return Ok(Step::Stuck);
        };
        let value = packed(alloc, taken)?;
        self.operands.push_value(value)?;
        self.go_on(pc + 1);
        Ok(Step::On)
    }

    // So many arguments become the parameters' by an order.
    pub fn reorder(
        &mut self,
        alloc: Global,
        code: &Code,
        turns: u64,
        pc: usize,
        order: u32,
        arguments: u32,
    ) -> Result<Step, NoMemory>
        requires { pc + 1 < 2 ^ 64 }
        ensures { IfOk result (λ step. Acted turns (code_view code.now) (plain.Reorder (order_in (tables_of code.now) order) arguments) pc self.old self.new step) }
    {
        let Some(taken) = self.operands.take(alloc, arguments)? else {
            return Ok(Step::Stuck);
        };
        let slots = reordered(alloc, code.order(order), taken.as_slice())?;
        self.operands.push_all(slots)?;
        self.go_on(pc + 1);
        Ok(Step::On)
    }

    // The value below so many arguments comes on top.
    pub fn lift(
        &mut self,
        alloc: Global,
        code: &Code,
        turns: u64,
        pc: usize,
        arguments: u32,
    ) -> Result<Step, NoMemory>
        requires { pc + 1 < 2 ^ 64 }
        ensures { IfOk result (λ step. Acted turns (code_view code.now) (plain.Lift arguments) pc self.old self.new step) }
    {
        let Some(taken) = self.operands.take(alloc, arguments)? else {
            return Ok(Step::Stuck);
        };
        let Some(value) = self.operands.pop_value() else {
            return Ok(Step::Stuck);
        };
        self.operands.push_all(taken)?;
        self.operands.push_value(value)?;
        self.go_on(pc + 1);
        Ok(Step::On)
    }

    // So many items are told.
    pub fn show(
        &mut self,
        alloc: Global,
        code: &Code,
        turns: u64,
        pc: usize,
        ends: bool,
        items: u32,
    ) -> Result<Step, NoMemory>
        requires { pc + 1 < 2 ^ 64 }
        ensures { IfOk result (λ step. Acted turns (code_view code.now) (plain.Show ends items) pc self.old self.new step) }
    {
        let Some(taken) = self.operands.take(alloc, items)? else {
            return Ok(Step::Stuck);
        };
        let text = self.memory.printed(alloc, ends, taken.as_slice())?;
        self.told.push(Event::Printed { text, ends })?;
        self.go_on(pc + 1);
        Ok(Step::On)
    }

    // Err.Raise and Error.
    pub fn throw(
        &mut self,
        alloc: Global,
        code: &Code,
        turns: u64,
        pc: usize,
        arguments: u32,
    ) -> Result<Step, NoMemory>
        requires { pc + 1 < 2 ^ 64 }
        ensures { IfOk result (λ step. Acted turns (code_view code.now) (plain.Throw arguments) pc self.old self.new step) }
    {
        let Some(taken) = self.operands.take(alloc, arguments)? else {
            return Ok(Step::Stuck);
        };
        let error = self.memory.raised_by(alloc, taken.as_slice())?;
        self.raise(alloc, turns, error)
    }
}

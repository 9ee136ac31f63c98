// References to objects.
ghost use Rattle.std.specs.Prelude.{IfOk, ◌<◌, ◌+◌, ◌^◌};
ghost use Rattle.bound_project.specs.View.{declared_view};
ghost use Rattle.pcode.specs.Instructions as plain;
ghost use Rattle.pcode.specs.View.{code_view};
ghost use Rattle.pcode_vm.specs.Does.{Acted};

use crate::machine::Machine;
use crate::step::{Step, Why};
use bound_project::DeclaredType;
use pcode::Code;
use run_host::is_counted;
use std::alloc::Global;
use vba_base::{NoMemory, OrMemory};
use vba_values::{Bad, HostRef, ObjRef, Value};

impl Machine {
    // An object of the host that is always there.
    pub fn push_host(
        &mut self,
        alloc: Global,
        code: &Code,
        turns: u64,
        pc: usize,
        reference: HostRef,
    ) -> Result<Step, NoMemory>
        requires { pc + 1 < 2 ^ 64 }
        ensures { IfOk result (λ step. Acted turns (code_view code.now) (plain.PushHost reference) pc self.old self.new step) }
    {
        self.operands
            .push_value(Value::Object(ObjRef::Host(reference)))?;
        self.go_on(pc + 1);
        Ok(Step::On)
    }

    // An object gives way to the value of its default member, where that needs no argument.
    pub fn plain_if_any(
        &mut self,
        alloc: Global,
        code: &Code,
        turns: u64,
        pc: usize,
    ) -> Result<Step, NoMemory>
        requires { pc + 1 < 2 ^ 64 }
        ensures { IfOk result (λ step. Acted turns (code_view code.now) (plain.PlainIfAny) pc self.old self.new step) }
    {
        let Some(value) = self.operands.pop_value() else {
            return Ok(Step::Stuck);
        };
        if is_counted(&value) {
            return self.give_way_if_any(alloc, code, turns, pc + 1, value);
        }
        let value = attempt!(self, alloc, turns, self.memory.plain_if_any(alloc, value));
        self.operands.push_value(value)?;
        self.go_on(pc + 1);
        Ok(Step::On)
    }

    // Is.
    pub fn same(
        &mut self,
        alloc: Global,
        code: &Code,
        turns: u64,
        pc: usize,
    ) -> Result<Step, NoMemory>
        requires { pc + 1 < 2 ^ 64 }
        ensures { IfOk result (λ step. Acted turns (code_view code.now) (plain.Same) pc self.old self.new step) }
    {
        let Some(right) = self.operands.pop_value() else {
            return Ok(Step::Stuck);
        };
        let Some(left) = self.operands.pop_value() else {
            return Ok(Step::Stuck);
        };
        let value = attempt!(self, alloc, turns, self.memory.compared(&left, &right));
        self.operands.push_value(value)?;
        self.go_on(pc + 1);
        Ok(Step::On)
    }

    // TypeOf.
    pub fn is_type(
        &mut self,
        alloc: Global,
        code: &Code,
        turns: u64,
        pc: usize,
        of: DeclaredType,
    ) -> Result<Step, NoMemory>
        requires { pc + 1 < 2 ^ 64 }
        ensures { IfOk result (λ step. Acted turns (code_view code.now) (plain.IsType (declared_view of)) pc self.old self.new step) }
    {
        let Some(value) = self.operands.pop_value() else {
            return Ok(Step::Stuck);
        };
        let of = of.value_type(alloc)?;
        let value = attempt!(self, alloc, turns, self.memory.typed_as(&of, &value));
        self.operands.push_value(value)?;
        self.go_on(pc + 1);
        Ok(Step::On)
    }

    // The test of Set.
    pub fn fit_object(
        &mut self,
        alloc: Global,
        code: &Code,
        turns: u64,
        pc: usize,
        of: DeclaredType,
    ) -> Result<Step, NoMemory>
        requires { pc + 1 < 2 ^ 64 }
        ensures { IfOk result (λ step. Acted turns (code_view code.now) (plain.FitObject (declared_view of)) pc self.old self.new step) }
    {
        let Some(value) = self.operands.pop_value() else {
            return Ok(Step::Stuck);
        };
        let of = of.value_type(alloc)?;
        let value = attempt!(self, alloc, turns, self.memory.set_object(&of, &value));
        self.operands.push_value(value)?;
        self.go_on(pc + 1);
        Ok(Step::On)
    }

    // Set: an object is stored at a path.
    pub fn set_at(
        &mut self,
        alloc: Global,
        code: &Code,
        turns: u64,
        pc: usize,
    ) -> Result<Step, NoMemory>
        requires { pc + 1 < 2 ^ 64 }
        ensures { IfOk result (λ step. Acted turns (code_view code.now) (plain.SetAt) pc self.old self.new step) }
    {
        let Some(path) = self.operands.pop_path() else {
            return Ok(Step::Stuck);
        };
        let Some(value) = self.operands.pop_value() else {
            return Ok(Step::Stuck);
        };
        attempt!(self, alloc, turns, self.memory.set_at(alloc, &path, value));
        self.go_on(pc + 1);
        Ok(Step::On)
    }
}

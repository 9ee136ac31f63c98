// Where statements begin, end and go on; errors.
ghost use Rattle.std.specs.Prelude.{IfOk, ◌<◌, ◌+◌, ◌^◌};
ghost use Rattle.error_frames.specs.declared.frame.Policy.{Policy};
ghost use Rattle.pcode.specs.Instructions as plain;
ghost use Rattle.pcode.specs.View.{code_view};
ghost use Rattle.pcode_vm.specs.Does.{Acted};

use crate::backs::After;
use crate::machine::Machine;
use crate::step::{Step, StepEnd, Why};
use error_frames::{At, Policy, ResumeKind};
use pcode::Code;
use std::alloc::Global;
use vba_base::{NoMemory, OrMemory};
use vba_values::Bad;

impl Machine {
    // A statement begins.
    pub fn begin(
        &mut self,
        alloc: Global,
        code: &Code,
        turns: u64,
        pc: usize,
        statement: u32,
    ) -> Result<Step, NoMemory>
        requires { pc + 1 < 2 ^ 64 }
        ensures { IfOk result (λ step. Acted turns (code_view code.now) (plain.Begin statement) pc self.old self.new step) }
    {
        if self.begun >= turns {
            return Ok(Step::Ended(StepEnd::Going));
        }
        self.begun += 1;
        self.memory.at_statement(alloc, statement);
        self.go_on(pc + 1);
        Ok(Step::On)
    }

    // GoSub.
    pub fn put_return(
        &mut self,
        alloc: Global,
        code: &Code,
        turns: u64,
        pc: usize,
        statement: u32,
    ) -> Result<Step, NoMemory>
        requires { pc + 1 < 2 ^ 64 }
        ensures { IfOk result (λ step. Acted turns (code_view code.now) (plain.PutReturn statement) pc self.old self.new step) }
    {
        self.memory.gone_sub(alloc, statement)?;
        self.go_on(pc + 1);
        Ok(Step::On)
    }

    // Return.
    pub fn take_return(
        &mut self,
        alloc: Global,
        code: &Code,
        turns: u64,
        pc: usize,
        procedure: u32,
    ) -> Result<Step, NoMemory>
        requires { pc + 1 < 2 ^ 64 }
        ensures { IfOk result (λ step. Acted turns (code_view code.now) (plain.TakeReturn procedure) pc self.old self.new step) }
    {
        let statement = attempt!(self, alloc, turns, self.memory.returned_sub());
        self.finish(alloc, code.entry_of(procedure, u64::from(statement)))?;
        Ok(Step::On)
    }

    // On Error.
    pub fn set_policy(
        &mut self,
        alloc: Global,
        code: &Code,
        turns: u64,
        pc: usize,
        policy: Policy,
    ) -> Result<Step, NoMemory>
        requires { pc + 1 < 2 ^ 64 }
        ensures { IfOk result (λ step. Acted turns (code_view code.now) (plain.SetPolicy policy) pc self.old self.new step) }
    {
        self.memory.policy_on(alloc, policy);
        self.go_on(pc + 1);
        Ok(Step::On)
    }

    // On Error GoTo -1.
    pub fn handler_off(
        &mut self,
        alloc: Global,
        code: &Code,
        turns: u64,
        pc: usize,
    ) -> Result<Step, NoMemory>
        requires { pc + 1 < 2 ^ 64 }
        ensures { IfOk result (λ step. Acted turns (code_view code.now) (plain.HandlerOff) pc self.old self.new step) }
    {
        self.memory.handler_off(alloc);
        self.go_on(pc + 1);
        Ok(Step::On)
    }

    // Err.Clear.
    pub fn err_off(
        &mut self,
        alloc: Global,
        code: &Code,
        turns: u64,
        pc: usize,
    ) -> Result<Step, NoMemory>
        requires { pc + 1 < 2 ^ 64 }
        ensures { IfOk result (λ step. Acted turns (code_view code.now) (plain.ErrOff) pc self.old self.new step) }
    {
        self.memory.err_off();
        self.go_on(pc + 1);
        Ok(Step::On)
    }

    // Resume.
    pub fn again(
        &mut self,
        alloc: Global,
        code: &Code,
        turns: u64,
        pc: usize,
        procedure: u32,
    ) -> Result<Step, NoMemory>
        requires { pc + 1 < 2 ^ 64 }
        ensures { IfOk result (λ step. Acted turns (code_view code.now) (plain.Again procedure) pc self.old self.new step) }
    {
        let statement = attempt!(
            self,
            alloc,
            turns,
            self.memory.resumed(alloc, ResumeKind::Again, 0)
        );
        self.finish(alloc, code.entry_of(procedure, statement))?;
        Ok(Step::On)
    }

    // Resume Next.
    pub fn behind(
        &mut self,
        alloc: Global,
        code: &Code,
        turns: u64,
        pc: usize,
        procedure: u32,
    ) -> Result<Step, NoMemory>
        requires { pc + 1 < 2 ^ 64 }
        ensures { IfOk result (λ step. Acted turns (code_view code.now) (plain.Behind procedure) pc self.old self.new step) }
    {
        let next = code.next_statement(procedure, self.memory.failed_statement());
        let statement = attempt!(
            self,
            alloc,
            turns,
            self.memory.resumed(alloc, ResumeKind::Next, next)
        );
        self.finish(alloc, code.entry_of(procedure, statement))?;
        Ok(Step::On)
    }

    // Resume with a label.
    pub fn resume_at(
        &mut self,
        alloc: Global,
        code: &Code,
        turns: u64,
        pc: usize,
        procedure: u32,
        to: u32,
    ) -> Result<Step, NoMemory>
        requires { pc + 1 < 2 ^ 64 }
        ensures { IfOk result (λ step. Acted turns (code_view code.now) (plain.Resumes procedure to) pc self.old self.new step) }
    {
        let label = ResumeKind::Label(At(u64::from(to)));
        let statement = attempt!(self, alloc, turns, self.memory.resumed(alloc, label, 0));
        self.finish(alloc, code.entry_of(procedure, statement))?;
        Ok(Step::On)
    }

    // The statement ends.
    pub fn finish_at(
        &mut self,
        alloc: Global,
        code: &Code,
        turns: u64,
        pc: usize,
        to: u32,
    ) -> Result<Step, NoMemory>
        requires { pc + 1 < 2 ^ 64 }
        ensures { IfOk result (λ step. Acted turns (code_view code.now) (plain.Finish to) pc self.old self.new step) }
    {
        self.finish(alloc, to as usize)?;
        Ok(Step::On)
    }

    // The statement ends, and goes on at one of two addresses.
    pub fn branch(
        &mut self,
        alloc: Global,
        code: &Code,
        turns: u64,
        pc: usize,
        sense: bool,
        to: u32,
        other: u32,
    ) -> Result<Step, NoMemory>
        requires { pc + 1 < 2 ^ 64 }
        ensures { IfOk result (λ step. Acted turns (code_view code.now) (plain.Branch sense to other) pc self.old self.new step) }
    {
        let Some(value) = self.operands.pop_value() else {
            return Ok(Step::Stuck);
        };
        let holds = attempt!(self, alloc, turns, self.condition(alloc, sense, &value));
        if holds {
            self.finish(alloc, to as usize)?;
            return Ok(Step::On);
        }
        self.finish(alloc, other as usize)?;
        Ok(Step::On)
    }

    // Stop.
    pub fn stop_here(
        &mut self,
        alloc: Global,
        code: &Code,
        turns: u64,
        pc: usize,
    ) -> Result<Step, NoMemory>
        requires { pc + 1 < 2 ^ 64 }
        ensures { IfOk result (λ step. Acted turns (code_view code.now) (plain.StopHere) pc self.old self.new step) }
    {
        Ok(Step::Ended(self.stopped(Why::StopStatement)))
    }

    // The procedure's end.
    pub fn leave(
        &mut self,
        alloc: Global,
        code: &Code,
        turns: u64,
        pc: usize,
    ) -> Result<Step, NoMemory>
        requires { pc + 1 < 2 ^ 64 }
        ensures { IfOk result (λ step. Acted turns (code_view code.now) (plain.Leave) pc self.old self.new step) }
    {
        self.let_all(alloc, After::Return)?;
        Ok(Step::On)
    }
}

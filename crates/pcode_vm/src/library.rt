// Functions of the library.
ghost use Rattle.std.specs.Prelude.{IfOk, ◌<◌, ◌+◌, ◌^◌};
ghost use Rattle.bound_project.specs.View.{base_view};
ghost use Rattle.pcode.specs.Instructions as plain;
ghost use Rattle.pcode.specs.View.{code_view};
ghost use Rattle.pcode_vm.specs.Does.{Acted};

use crate::machine::Machine;
use crate::step::{Step, Why};
use pcode::Code;
use run_defaults::values_of;
use std::alloc::Global;
use vba_base::{NoMemory, OrMemory};
use vba_lib::LibraryFunction;
use vba_values::{Bad, Compare};

impl Machine {
    // A function of the library, with so many arguments.
    pub fn call_library(
        &mut self,
        alloc: Global,
        code: &Code,
        turns: u64,
        pc: usize,
        function: LibraryFunction,
        is_text_form: bool,
        compare: Compare,
        is_base_one: bool,
        arguments: u32,
    ) -> Result<Step, NoMemory>
        requires { pc + 1 < 2 ^ 64 }
        ensures { IfOk result (λ step. Acted turns (code_view code.now) (plain.Library function is_text_form compare (base_view is_base_one) arguments) pc self.old self.new step) }
    {
        let Some(slots) = self.operands.take(alloc, arguments)? else {
            return Ok(Step::Stuck);
        };
        let values = values_of(alloc, slots)?;
        let value = attempt!(
            self,
            alloc,
            turns,
            self.memory.library_called(
                alloc,
                &code.declared,
                function,
                is_text_form,
                compare,
                is_base_one,
                values.as_slice()
            )
        );
        self.operands.push_value(value)?;
        self.go_on(pc + 1);
        Ok(Step::On)
    }

    // UBound, or LBound, of what is at the path on top.
    pub fn bound_at(
        &mut self,
        alloc: Global,
        code: &Code,
        turns: u64,
        pc: usize,
        is_upper: bool,
        dimension: i32,
    ) -> Result<Step, NoMemory>
        requires { pc + 1 < 2 ^ 64 }
        ensures { IfOk result (λ step. Acted turns (code_view code.now) (plain.BoundAt is_upper dimension) pc self.old self.new step) }
    {
        let Some(path) = self.operands.pop_path() else {
            return Ok(Step::Stuck);
        };
        let value = attempt!(
            self,
            alloc,
            turns,
            self.memory.bound_at(alloc, is_upper, dimension, &path)
        );
        self.operands.push_value(value)?;
        self.go_on(pc + 1);
        Ok(Step::On)
    }
}

// Members of objects of the host whose last arguments have names.
ghost use Rattle.std.specs.Prelude.{◌≡◌, ◌∷◌, IfOk, ◌<◌, ◌+◌, ◌^◌, map};
ghost use Rattle.vba_values.specs.View.{view};
ghost use Rattle.bound_project.specs.Pieces.{by_name_in, name_in};
ghost use Rattle.vba_meaning.specs.ByName.{in_parameter_order, named_there};
ghost use Rattle.vba_meaning.specs.Effects.{slot_values};
ghost use Rattle.vba_meaning.specs.Memory.{value as value_slot};
ghost use Rattle.run_host.specs.ByName.{by_name_view};
ghost use Rattle.run_memory.specs.View.{memory_view, slot_view};
ghost use Rattle.pcode.specs.Instructions as plain;
ghost use Rattle.pcode.specs.Machine.{done_then, then_push, uses_member};
ghost use Rattle.pcode.specs.View.{code_view, tables_of};
ghost use Rattle.pcode_vm.specs.Does.{Acted, Does};
ghost use Rattle.pcode_vm.specs.View.{backs_view, operands_view, state_view};

use crate::machine::Machine;
use crate::step::{Step, Why};
use bound_project::ArgumentNames;
use pcode::Code;
use run_host::{NamedArguments, in_parameter_order, named_there};
use run_memory::Slot;
use std::alloc::Global;
use vba_base::{NoMemory, OrMemory};
use vba_values::{Bad, Value};

/// How arguments are named, with their names.
pub fn named_arguments<'a>(code: &'a Code, names: ArgumentNames) -> NamedArguments<'a>
    ensures { by_name_view result ≡ by_name_in (tables_of code.now) names }
{
    NamedArguments {
        before: names.before,
        order: code.order(names.order),
        constants: code.constants.as_slice(),
    }
}

impl Machine {
    // Whether the object on top has a member that takes so many arguments, with such names.
    pub fn named_there(
        &mut self,
        alloc: Global,
        code: &Code,
        turns: u64,
        pc: usize,
        name: u32,
        names: ArgumentNames,
        given: u32,
    ) -> Result<Step, NoMemory>
        requires { pc + 1 < 2 ^ 64 }
        ensures { IfOk result (λ step. Acted turns (code_view code.now) (plain.NamedThere (name_in (tables_of code.now) name) (by_name_in (tables_of code.now) names) given) pc self.old self.new step) }
    {
        let Some(base) = self.operands.pop_value() else {
            return Ok(Step::Stuck);
        };
        let names = named_arguments(code, names);
        self.look_by_name(alloc, turns, pc, code.name(name), names, given, base)
    }

    // The same, with the object off the operands.
    fn look_by_name<'a>(
        &mut self,
        alloc: Global,
        turns: u64,
        pc: usize,
        name: &[u16],
        names: NamedArguments<'a>,
        given: u32,
        base: Value,
    ) -> Result<Step, NoMemory>
        requires { pc + 1 < 2 ^ 64 }
        ensures { IfOk result (λ step. Does turns (done_then (named_there name.now (by_name_view names.entry) given (view base) (memory_view self.old.memory))
            (backs_view self.old.backs) (state_view self.old)
            (then_push (pc + 1) (value_slot (view base) ∷ operands_view self.old.operands) (backs_view self.old.backs))) self.old self.new step) }
    {
        let begun = attempt!(
            self,
            alloc,
            turns,
            named_there(&self.memory, name, names, given, &base)
        );
        self.operands.push_value(base)?;
        self.operands.push_value(begun)?;
        self.go_on(pc + 1);
        Ok(Step::On)
    }

    // A member of an object, which stands with what it has begun below so many arguments, of which the last ones have names.
    pub fn named_of(
        &mut self,
        alloc: Global,
        code: &Code,
        turns: u64,
        pc: usize,
        name: u32,
        names: ArgumentNames,
        arguments: u32,
    ) -> Result<Step, NoMemory>
        requires { pc + 1 < 2 ^ 64 }
        ensures { IfOk result (λ step. Acted turns (code_view code.now) (plain.NamedOf (name_in (tables_of code.now) name) (by_name_in (tables_of code.now) names) arguments) pc self.old self.new step) }
    {
        let Some(slots) = self.operands.take(alloc, arguments)? else {
            return Ok(Step::Stuck);
        };
        let Some(begun) = self.operands.pop_value() else {
            return Ok(Step::Stuck);
        };
        let Some(base) = self.operands.pop_value() else {
            return Ok(Step::Stuck);
        };
        let names = named_arguments(code, names);
        self.use_named(
            alloc,
            code,
            turns,
            pc,
            code.name(name),
            names,
            slots.as_slice(),
            &base,
            &begun,
        )
    }

    // The same, with all of them off the operands: the arguments come in the order of the parameters.
    fn use_named<'a>(
        &mut self,
        alloc: Global,
        code: &Code,
        turns: u64,
        pc: usize,
        name: &[u16],
        names: NamedArguments<'a>,
        slots: &[Slot],
        base: &Value,
        begun: &Value,
    ) -> Result<Step, NoMemory>
        requires { pc + 1 < 2 ^ 64 }
        ensures { IfOk result (λ step. Does turns (uses_member (code_view code.now) name.now (view base.now) (view begun.now)
            (in_parameter_order (view base.now) name.now (by_name_view names.entry) (slot_values (map slot_view slots.now))) (pc + 1)
            (operands_view self.old.operands) (backs_view self.old.backs) (state_view self.old)) self.old self.new step) }
    {
        let ordered = in_parameter_order(alloc, base, name, names, slots)?;
        self.use_member(
            alloc,
            code,
            turns,
            pc,
            name,
            ordered.as_slice(),
            base,
            begun,
        )
    }
}

// Members that are found in the run, by the class of the object that is there.
ghost use Rattle.std.specs.Prelude.{◌≡◌, ◌∷◌, IfOk, ◌<◌, ◌+◌, ◌^◌, false, true, map};
ghost use Rattle.vba_values.specs.View.{view};
ghost use Rattle.bound_project.specs.Pieces.{by_name_in, flags_in, name_in};
ghost use Rattle.vba_meaning.specs.Memory.{path as path_slot, value as value_slot};
ghost use Rattle.vba_meaning.specs.Effects.{Effect, lent, slot_value};
ghost use Rattle.vba_meaning.specs.Defaults.{Next as PlainNext};
ghost use Rattle.vba_meaning.specs.LateBound.{late_called, late_let, late_set, late_there, place_copied, value_bound};
ghost use Rattle.run_memory.specs.View.{memory_view, path_view, slot_view};
ghost use Rattle.run_host.specs.Tells.{Tells};
ghost use Rattle.run_host.specs.View.{told_view};
ghost use Rattle.run_defaults.specs.View.{next_view};
ghost use Rattle.run_late.specs.View.{given_view, names_view};
ghost use Rattle.pcode.specs.Instructions as plain;
ghost use Rattle.pcode.specs.Machine.{base_below, done_then, then_at, uses};
ghost use Rattle.pcode.specs.View.{code_view, tables_of, use_view};
ghost use Rattle.pcode_vm.specs.Does.{Acted, Does};
ghost use Rattle.pcode_vm.specs.Late.{binds_path, calls_received};
ghost use Rattle.pcode_vm.specs.View.{backs_view, operands_view, state_view};
ghost use Rattle.pcode_vm.specs.declared.machine.Machine.{Machine as VmMachine};

use crate::by_name::named_arguments;
use crate::machine::Machine;
use crate::operands::Operands;
use crate::step::{Step, Why};
use crate::uses::MOST_CALLS;
use bound_project::{LateName, LateUse};
use pcode::Code;
use run_defaults::{Next, is_instance};
use run_host::path_to;
use run_late::{
    Sought, host_arguments, late_called, late_let, late_set, late_there, lends_place, place_copied,
    public_variable, value_bound,
};
use run_memory::{Path, Slot, receive};
use std::alloc::Global;
use vba_base::{NoMemory, OrMemory};
use vba_values::{Bad, Value, copy_value};

/// What a late-bound member is looked up by.
fn sought_in<'a>(code: &'a Code, member: LateName) -> Sought<'a>
    ensures name { result.name.now ≡ name_in (tables_of code.now) member.name }
    ensures names { names_view result ≡ by_name_in (tables_of code.now) member.names }
    ensures given { given_view result ≡ flags_in (tables_of code.now) member }
{
    Sought {
        name: code.name(member.name),
        names: named_arguments(code, member.names),
        arguments: member.arguments,
        given: code.order(member.given),
    }
}

/// The value in a slot: Empty where a path stands.
fn value_in_slot(alloc: Global, slot: &Slot) -> Result<Value, NoMemory>
    ensures { IfOk result (λ value. view value ≡ slot_value (slot_view slot.now)) }
{
    match slot {
        Slot::Value(value) => copy_value(alloc, value),
        Slot::Path(_path) => Ok(Value::Empty),
    }
}

impl Operands {
    /// The object whose member has arguments, so many of which stand above it and above what they index.
    #[tactic(auto, using(crate::proofs::Coming::base_past))]
    fn base_below(&self, alloc: Global, arguments: u32) -> Result<Value, NoMemory>
        ensures { IfOk result (λ base. view base ≡ base_below arguments (operands_view self.now)) }
    {
        let below = arguments as usize + 2;
        if self.slots.len() < below {
            return Ok(Value::Empty);
        }
        value_in_slot(alloc, &self.slots[self.slots.len() - below])
    }
}

impl Machine {
    /// What a use came to, which may have told something: an error is raised, the run stops, or the use goes on.
    pub fn use_came(
        &mut self,
        alloc: Global,
        code: &Code,
        turns: u64,
        place: bool,
        next: usize,
        came: Result<Next, OrMemory<Bad>>,
    ) -> Result<Step, NoMemory>
        ensures { (before : VmMachine) (effect : Effect PlainNext) → before.begun ≡ self.old.begun
            → Tells next_view came (told_view before.told) (told_view self.old.told) (memory_view self.old.memory) effect
            → IfOk result (λ step. Does turns (uses (code_view code.now) place effect next (operands_view self.old.operands) (backs_view self.old.backs) (state_view before)) before self.new step) }
    {
        let came = attempt!(self, alloc, turns, came);
        self.follow(alloc, code, turns, place, MOST_CALLS, next, came)
    }

    // Whether the object on top has a late-bound member, with what the arguments index put above it.
    pub fn find_late(
        &mut self,
        alloc: Global,
        code: &Code,
        turns: u64,
        pc: usize,
        aim: LateUse,
        member: LateName,
    ) -> Result<Step, NoMemory>
        requires { pc + 1 < 2 ^ 64 }
        ensures { IfOk result (λ step. Acted turns (code_view code.now) (plain.FindLate (use_view aim) (name_in (tables_of code.now) member.name) (by_name_in (tables_of code.now) member.names) (flags_in (tables_of code.now) member)) pc self.old self.new step) }
    {
        let Some(base) = self.operands.pop_value() else {
            return Ok(Step::Stuck);
        };
        self.begin_late(alloc, code, turns, pc, aim, sought_in(code, member), base)
    }

    // The same, with the object off the operands.
    fn begin_late<'a>(
        &mut self,
        alloc: Global,
        code: &Code,
        turns: u64,
        pc: usize,
        aim: LateUse,
        sought: Sought<'a>,
        base: Value,
    ) -> Result<Step, NoMemory>
        requires { pc + 1 < 2 ^ 64 }
        ensures { IfOk result (λ step. Does turns (uses (code_view code.now) false (late_there (code_view code.now).declared (use_view aim) sought.entry.name.now (names_view sought.entry) (given_view sought.entry) (view base) (memory_view self.old.memory)) (pc + 1) (value_slot (view base) ∷ operands_view self.old.operands) (backs_view self.old.backs) (state_view self.old)) self.old self.new step) }
    {
        let declared = &code.declared;
        let told = &mut self.told;
        let came = late_there(&mut self.memory, alloc, declared, aim, sought, &base, told);
        self.operands.push_value(base)?;
        self.use_came(alloc, code, turns, false, pc + 1, came)
    }

    // The value on top becomes what the parameter of an argument takes.
    pub fn bind_value(
        &mut self,
        alloc: Global,
        code: &Code,
        turns: u64,
        pc: usize,
        aim: LateUse,
        member: LateName,
        argument: u32,
    ) -> Result<Step, NoMemory>
        requires { pc + 1 < 2 ^ 64 }
        ensures { IfOk result (λ step. Acted turns (code_view code.now) (plain.BindValue (use_view aim) (name_in (tables_of code.now) member.name) (by_name_in (tables_of code.now) member.names) (flags_in (tables_of code.now) member) argument) pc self.old self.new step) }
    {
        let Some(value) = self.operands.pop_value() else {
            return Ok(Step::Stuck);
        };
        let base = self.operands.base_below(alloc, argument)?;
        self.bind_given(
            alloc,
            code,
            turns,
            pc,
            aim,
            sought_in(code, member),
            argument,
            &base,
            value,
        )
    }

    // The same, with the value off the operands, and the object that has the member.
    fn bind_given<'a>(
        &mut self,
        alloc: Global,
        code: &Code,
        turns: u64,
        pc: usize,
        aim: LateUse,
        sought: Sought<'a>,
        argument: u32,
        base: &Value,
        value: Value,
    ) -> Result<Step, NoMemory>
        requires { pc + 1 < 2 ^ 64 }
        ensures { IfOk result (λ step. Does turns (uses (code_view code.now) false (value_bound (code_view code.now).declared (use_view aim) sought.entry.name.now (names_view sought.entry) (given_view sought.entry) argument (view base.now) (view value) (memory_view self.old.memory)) (pc + 1) (operands_view self.old.operands) (backs_view self.old.backs) (state_view self.old)) self.old self.new step) }
    {
        let declared = &code.declared;
        let told = &mut self.told;
        let came = value_bound(
            &mut self.memory,
            alloc,
            declared,
            aim,
            sought,
            argument,
            base,
            value,
            told,
        );
        self.use_came(alloc, code, turns, false, pc + 1, came)
    }

    // The path on top is lent to the parameter of an argument, or what is there becomes what that takes.
    pub fn bind_place(
        &mut self,
        alloc: Global,
        code: &Code,
        turns: u64,
        pc: usize,
        aim: LateUse,
        member: LateName,
        argument: u32,
    ) -> Result<Step, NoMemory>
        requires { pc + 1 < 2 ^ 64 }
        ensures { IfOk result (λ step. Acted turns (code_view code.now) (plain.BindPlace (use_view aim) (name_in (tables_of code.now) member.name) (by_name_in (tables_of code.now) member.names) (flags_in (tables_of code.now) member) argument) pc self.old self.new step) }
    {
        let Some(path) = self.operands.pop_path() else {
            return Ok(Step::Stuck);
        };
        let base = self.operands.base_below(alloc, argument)?;
        self.bind_path(
            alloc,
            code,
            turns,
            pc,
            aim,
            sought_in(code, member),
            argument,
            &base,
            path,
        )
    }

    // The same, with the path off the operands, and the object that has the member.
    fn bind_path<'a>(
        &mut self,
        alloc: Global,
        code: &Code,
        turns: u64,
        pc: usize,
        aim: LateUse,
        sought: Sought<'a>,
        argument: u32,
        base: &Value,
        path: Path,
    ) -> Result<Step, NoMemory>
        requires { pc + 1 < 2 ^ 64 }
        ensures { IfOk result (λ step. Does turns (binds_path (code_view code.now) (use_view aim) sought.entry.name.now (names_view sought.entry) (given_view sought.entry) argument (view base.now) (path_view path) (pc + 1) (operands_view self.old.operands) (backs_view self.old.backs) (state_view self.old)) self.old self.new step) }
    {
        let memory = &self.memory;
        let declared = &code.declared;
        let lends = lends_place(memory, alloc, declared, aim, sought, argument, base, &path)?;
        if lends {
            return self.lend_path(alloc, turns, pc, path);
        }
        self.copy_path(alloc, code, turns, pc, aim, sought, argument, base, path)
    }

    // What is at a path becomes what the parameter of an argument takes, and stands as a place on top.
    fn copy_path<'a>(
        &mut self,
        alloc: Global,
        code: &Code,
        turns: u64,
        pc: usize,
        aim: LateUse,
        sought: Sought<'a>,
        argument: u32,
        base: &Value,
        path: Path,
    ) -> Result<Step, NoMemory>
        requires { pc + 1 < 2 ^ 64 }
        ensures { IfOk result (λ step. Does turns (uses (code_view code.now) true (place_copied (code_view code.now).declared (use_view aim) sought.entry.name.now (names_view sought.entry) (given_view sought.entry) argument (view base.now) (path_view path) (memory_view self.old.memory)) (pc + 1) (operands_view self.old.operands) (backs_view self.old.backs) (state_view self.old)) self.old self.new step) }
    {
        let declared = &code.declared;
        let told = &mut self.told;
        let came = place_copied(
            &mut self.memory,
            alloc,
            declared,
            aim,
            sought,
            argument,
            base,
            path,
            told,
        );
        self.use_came(alloc, code, turns, true, pc + 1, came)
    }

    // A path is lent, and stands on top.
    fn lend_path(
        &mut self,
        alloc: Global,
        turns: u64,
        pc: usize,
        path: Path,
    ) -> Result<Step, NoMemory>
        requires { pc + 1 < 2 ^ 64 }
        ensures { IfOk result (λ step. Does turns (done_then (lent (path_view path) (memory_view self.old.memory)) (backs_view self.old.backs) (state_view self.old) (then_at (pc + 1) (path_slot (path_view path) ∷ operands_view self.old.operands) (backs_view self.old.backs))) self.old self.new step) }
    {
        let lent = path.copy(alloc)?;
        self.memory.lent(alloc, lent)?;
        self.operands.push_path(path)?;
        self.go_on(pc + 1);
        Ok(Step::On)
    }

    // A late-bound member is read or called, with its arguments above what they index and above the object.
    pub fn call_late(
        &mut self,
        alloc: Global,
        code: &Code,
        turns: u64,
        pc: usize,
        member: LateName,
    ) -> Result<Step, NoMemory>
        requires { pc + 1 < 2 ^ 64 }
        ensures { IfOk result (λ step. Acted turns (code_view code.now) (plain.CallLate (name_in (tables_of code.now) member.name) (by_name_in (tables_of code.now) member.names) (flags_in (tables_of code.now) member)) pc self.old self.new step) }
    {
        let Some(mut slots) = self.operands.take(alloc, member.arguments)? else {
            return Ok(Step::Stuck);
        };
        let Some(begun) = self.operands.pop_value() else {
            return Ok(Step::Stuck);
        };
        let Some(base) = self.operands.pop_value() else {
            return Ok(Step::Stuck);
        };
        receive(alloc, &mut slots)?;
        self.call_found(
            alloc,
            code,
            turns,
            pc,
            sought_in(code, member),
            &base,
            &begun,
            slots,
        )
    }

    // The same, with all of them off the operands, and the arguments as parameters have them.
    fn call_found<'a>(
        &mut self,
        alloc: Global,
        code: &Code,
        turns: u64,
        pc: usize,
        sought: Sought<'a>,
        base: &Value,
        begun: &Value,
        slots: Vec<Slot>,
    ) -> Result<Step, NoMemory>
        requires { pc + 1 < 2 ^ 64 }
        ensures { IfOk result (λ step. Does turns (calls_received (code_view code.now) sought.entry.name.now (names_view sought.entry) (given_view sought.entry) (view base.now) (view begun.now) (map slot_view slots.items) (pc + 1) (operands_view self.old.operands) (backs_view self.old.backs) (state_view self.old)) self.old self.new step) }
    {
        if is_instance(&self.memory, base) {
            return self.call_instance(alloc, code, turns, pc, sought, base, begun, slots);
        }
        let slots = host_arguments(alloc, base, sought.name, sought.names, slots)?;
        let slots = slots.as_slice();
        self.use_member(alloc, code, turns, pc, sought.name, slots, base, begun)
    }

    // The same of an object of a class.
    fn call_instance<'a>(
        &mut self,
        alloc: Global,
        code: &Code,
        turns: u64,
        pc: usize,
        sought: Sought<'a>,
        base: &Value,
        begun: &Value,
        slots: Vec<Slot>,
    ) -> Result<Step, NoMemory>
        requires { pc + 1 < 2 ^ 64 }
        ensures { IfOk result (λ step. Does turns (uses (code_view code.now) false (late_called (code_view code.now).declared sought.entry.name.now (names_view sought.entry) (given_view sought.entry) (view base.now) (view begun.now) (map slot_view slots.items) (memory_view self.old.memory)) (pc + 1) (operands_view self.old.operands) (backs_view self.old.backs) (state_view self.old)) self.old self.new step) }
    {
        let declared = &code.declared;
        let told = &mut self.told;
        let memory = &mut self.memory;
        let came = late_called(memory, alloc, declared, sought, base, begun, slots, told);
        self.use_came(alloc, code, turns, false, pc + 1, came)
    }

    // A late-bound member is assigned the value below the object.
    pub fn let_late(
        &mut self,
        alloc: Global,
        code: &Code,
        turns: u64,
        pc: usize,
        member: LateName,
    ) -> Result<Step, NoMemory>
        requires { pc + 1 < 2 ^ 64 }
        ensures { IfOk result (λ step. Acted turns (code_view code.now) (plain.LetLate (name_in (tables_of code.now) member.name) (by_name_in (tables_of code.now) member.names) (flags_in (tables_of code.now) member)) pc self.old self.new step) }
    {
        let Some(mut slots) = self.operands.take(alloc, member.arguments)? else {
            return Ok(Step::Stuck);
        };
        let Some(begun) = self.operands.pop_value() else {
            return Ok(Step::Stuck);
        };
        let Some(base) = self.operands.pop_value() else {
            return Ok(Step::Stuck);
        };
        let Some(value) = self.operands.pop_value() else {
            return Ok(Step::Stuck);
        };
        receive(alloc, &mut slots)?;
        self.let_late_found(
            alloc,
            code,
            turns,
            pc,
            sought_in(code, member),
            &base,
            &begun,
            slots,
            value,
        )
    }

    // The same, with all of them off the operands.
    fn let_late_found<'a>(
        &mut self,
        alloc: Global,
        code: &Code,
        turns: u64,
        pc: usize,
        sought: Sought<'a>,
        base: &Value,
        begun: &Value,
        slots: Vec<Slot>,
        value: Value,
    ) -> Result<Step, NoMemory>
        requires { pc + 1 < 2 ^ 64 }
        ensures { IfOk result (λ step. Does turns (uses (code_view code.now) false (late_let (code_view code.now).declared sought.entry.name.now (names_view sought.entry) (given_view sought.entry) (view base.now) (view begun.now) (map slot_view slots.items) (view value) (memory_view self.old.memory)) (pc + 1) (operands_view self.old.operands) (backs_view self.old.backs) (state_view self.old)) self.old self.new step) }
    {
        let declared = &code.declared;
        let told = &mut self.told;
        let memory = &mut self.memory;
        let came = late_let(
            memory, alloc, declared, sought, base, begun, slots, value, told,
        );
        self.use_came(alloc, code, turns, false, pc + 1, came)
    }

    // A late-bound member is set to the object below the one that has it.
    pub fn set_late(
        &mut self,
        alloc: Global,
        code: &Code,
        turns: u64,
        pc: usize,
        member: LateName,
    ) -> Result<Step, NoMemory>
        requires { pc + 1 < 2 ^ 64 }
        ensures { IfOk result (λ step. Acted turns (code_view code.now) (plain.SetLate (name_in (tables_of code.now) member.name) (by_name_in (tables_of code.now) member.names) (flags_in (tables_of code.now) member)) pc self.old self.new step) }
    {
        let Some(mut slots) = self.operands.take(alloc, member.arguments)? else {
            return Ok(Step::Stuck);
        };
        let Some(begun) = self.operands.pop_value() else {
            return Ok(Step::Stuck);
        };
        let Some(base) = self.operands.pop_value() else {
            return Ok(Step::Stuck);
        };
        let Some(value) = self.operands.pop_value() else {
            return Ok(Step::Stuck);
        };
        receive(alloc, &mut slots)?;
        self.set_late_found(
            alloc,
            code,
            turns,
            pc,
            sought_in(code, member),
            &base,
            &begun,
            slots,
            value,
        )
    }

    // The same, with all of them off the operands.
    fn set_late_found<'a>(
        &mut self,
        alloc: Global,
        code: &Code,
        turns: u64,
        pc: usize,
        sought: Sought<'a>,
        base: &Value,
        begun: &Value,
        slots: Vec<Slot>,
        value: Value,
    ) -> Result<Step, NoMemory>
        requires { pc + 1 < 2 ^ 64 }
        ensures { IfOk result (λ step. Does turns (uses (code_view code.now) false (late_set (code_view code.now).declared sought.entry.name.now (names_view sought.entry) (given_view sought.entry) (view base.now) (view begun.now) (map slot_view slots.items) (view value) (memory_view self.old.memory)) (pc + 1) (operands_view self.old.operands) (backs_view self.old.backs) (state_view self.old)) self.old self.new step) }
    {
        let declared = &code.declared;
        let told = &mut self.told;
        let memory = &mut self.memory;
        let came = late_set(
            memory, alloc, declared, sought, base, begun, slots, value, told,
        );
        self.use_came(alloc, code, turns, false, pc + 1, came)
    }

    // The place of a public variable of the object on top.
    pub fn late_field(
        &mut self,
        alloc: Global,
        code: &Code,
        turns: u64,
        pc: usize,
        name: u32,
    ) -> Result<Step, NoMemory>
        requires { pc + 1 < 2 ^ 64 }
        ensures { IfOk result (λ step. Acted turns (code_view code.now) (plain.LateField (name_in (tables_of code.now) name)) pc self.old self.new step) }
    {
        let Some(value) = self.operands.pop_value() else {
            return Ok(Step::Stuck);
        };
        let declared = &code.declared;
        let name = code.name(name);
        let path = attempt!(
            self,
            alloc,
            turns,
            public_variable(&self.memory, alloc, declared, name, &value)
        );
        self.operands.push_path(path)?;
        self.go_on(pc + 1);
        Ok(Step::On)
    }

    // The place of the value on top, which no variable has.
    pub fn place_of(
        &mut self,
        alloc: Global,
        code: &Code,
        turns: u64,
        pc: usize,
    ) -> Result<Step, NoMemory>
        requires { pc + 1 < 2 ^ 64 }
        ensures { IfOk result (λ step. Acted turns (code_view code.now) (plain.PlaceOf) pc self.old self.new step) }
    {
        let Some(value) = self.operands.pop_value() else {
            return Ok(Step::Stuck);
        };
        self.operands.push_path(path_to(alloc, value))?;
        self.go_on(pc + 1);
        Ok(Step::On)
    }
}

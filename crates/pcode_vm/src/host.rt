// Objects of the host: their members, and what writes cells.
ghost use Rattle.std.specs.Prelude.{IfOk, ◌<◌, ◌+◌, ◌^◌, ◌∷◌, map};
ghost use Rattle.vba_values.specs.View.{view};
ghost use Rattle.bound_project.specs.Pieces.{name_in};
ghost use Rattle.vba_meaning.specs.Memory.{value as value_slot};
ghost use Rattle.vba_meaning.specs.Effects.{slot_values};
ghost use Rattle.vba_meaning.specs.Host.{error_given, item_assigned, member_assigned, member_called, member_not_set, member_there, object_member, written_default};
ghost use Rattle.run_memory.specs.Acts.{Acts};
ghost use Rattle.run_memory.specs.View.{memory_view, slot_view};
ghost use Rattle.pcode.specs.Instructions as plain;
ghost use Rattle.pcode.specs.Machine.{done_then, raised, then_push, then_changes, then_changes_push, then_let_go, uses_member};
ghost use Rattle.pcode.specs.View.{code_view, tables_of};
ghost use Rattle.pcode_vm.specs.Does.{Acted, Does};
ghost use Rattle.pcode_vm.specs.View.{backs_view, operands_view, state_view};

use crate::machine::Machine;
use crate::step::{Step, Why};
use pcode::Code;
use run_host::{
    error_given, first_sheet, is_counted, is_raise, item_assigned, member_assigned, member_called,
    member_not_set, member_there, object_member, written_default,
};
use run_memory::{Memory, Slot};
use std::alloc::Global;
use vba_base::{NoMemory, OrMemory};
use vba_values::{Bad, Value};

// Set of a member, with the memory that stays as it is.
fn refuses_set(memory: &Memory, base: &Value) -> Result<(), OrMemory<Bad>>
    ensures { Acts (λ done. done) result (memory_view memory.now) (member_not_set (view base.now) (memory_view memory.now)) }
{
    member_not_set(base)
}

impl Machine {
    // The first sheet.
    pub fn first_sheet(
        &mut self,
        alloc: Global,
        code: &Code,
        turns: u64,
        pc: usize,
    ) -> Result<Step, NoMemory>
        requires { pc + 1 < 2 ^ 64 }
        ensures { IfOk result (λ step. Acted turns (code_view code.now) (plain.FirstSheet) pc self.old self.new step) }
    {
        let value = attempt!(self, alloc, turns, first_sheet(&self.memory));
        self.operands.push_value(value)?;
        self.go_on(pc + 1);
        Ok(Step::On)
    }

    // Whether the object on top has a member that takes so many arguments, with what they index put above it.
    pub fn member_there(
        &mut self,
        alloc: Global,
        code: &Code,
        turns: u64,
        pc: usize,
        name: u32,
        given: u32,
    ) -> Result<Step, NoMemory>
        requires { pc + 1 < 2 ^ 64 }
        ensures { IfOk result (λ step. Acted turns (code_view code.now) (plain.MemberThere (name_in (tables_of code.now) name) given) pc self.old self.new step) }
    {
        let Some(base) = self.operands.pop_value() else {
            return Ok(Step::Stuck);
        };
        let name = code.name(name);
        self.look_for_member(alloc, code, turns, pc, name, given, base)
    }

    // The same, with the object off the operands.
    fn look_for_member(
        &mut self,
        alloc: Global,
        code: &Code,
        turns: u64,
        pc: usize,
        name: &[u16],
        given: u32,
        base: Value,
    ) -> Result<Step, NoMemory>
        requires { pc + 1 < 2 ^ 64 }
        ensures { IfOk result (λ step. Does turns (done_then (member_there (code_view code.now).declared name.now given (view base) (memory_view self.old.memory))
            (backs_view self.old.backs) (state_view self.old)
            (then_push (pc + 1) (value_slot (view base) ∷ operands_view self.old.operands) (backs_view self.old.backs))) self.old self.new step) }
    {
        let declared = &code.declared;
        let told = &mut self.told;
        let begun = attempt!(
            self,
            alloc,
            turns,
            member_there(&mut self.memory, alloc, declared, name, given, &base, told)
        );
        self.operands.push_value(base)?;
        self.operands.push_value(begun)?;
        self.go_on(pc + 1);
        Ok(Step::On)
    }

    // A member of an object, which stands with what it has begun below so many arguments.
    pub fn member_of(
        &mut self,
        alloc: Global,
        code: &Code,
        turns: u64,
        pc: usize,
        name: u32,
        arguments: u32,
    ) -> Result<Step, NoMemory>
        requires { pc + 1 < 2 ^ 64 }
        ensures { IfOk result (λ step. Acted turns (code_view code.now) (plain.MemberOf (name_in (tables_of code.now) name) arguments) pc self.old self.new step) }
    {
        let Some(slots) = self.operands.take(alloc, arguments)? else {
            return Ok(Step::Stuck);
        };
        let Some(begun) = self.operands.pop_value() else {
            return Ok(Step::Stuck);
        };
        let Some(base) = self.operands.pop_value() else {
            return Ok(Step::Stuck);
        };
        let name = code.name(name);
        self.use_member(
            alloc,
            code,
            turns,
            pc,
            name,
            slots.as_slice(),
            &base,
            &begun,
        )
    }

    // The same, with all of them off the operands: Err.Raise raises an error.
    pub fn use_member(
        &mut self,
        alloc: Global,
        code: &Code,
        turns: u64,
        pc: usize,
        name: &[u16],
        slots: &[Slot],
        base: &Value,
        begun: &Value,
    ) -> Result<Step, NoMemory>
        requires { pc + 1 < 2 ^ 64 }
        ensures { IfOk result (λ step. Does turns (uses_member (code_view code.now) name.now (view base.now) (view begun.now) (slot_values (map slot_view slots.now)) (pc + 1)
            (operands_view self.old.operands) (backs_view self.old.backs) (state_view self.old)) self.old self.new step) }
    {
        if is_raise(name, base) {
            return self.raise_given(alloc, turns, slots);
        }
        if is_counted(base) {
            return self.use_object(alloc, turns, pc, name, slots, base);
        }
        self.call_member(alloc, code, turns, pc, name, slots, base, begun)
    }

    // The error that the arguments of Err.Raise give is raised.
    fn raise_given(&mut self, alloc: Global, turns: u64, slots: &[Slot]) -> Result<Step, NoMemory>
        ensures { IfOk result (λ step. Does turns (done_then (error_given (slot_values (map slot_view slots.now)) (memory_view self.old.memory)) (backs_view self.old.backs) (state_view self.old)
            (λ error state. raised error (backs_view self.old.backs) state)) self.old self.new step) }
    {
        let error = attempt!(self, alloc, turns, error_given(&self.memory, alloc, slots));
        self.raise(alloc, turns, error)
    }

    // A member of a counted object: what leaves a Collection is let go at once.
    fn use_object(
        &mut self,
        alloc: Global,
        turns: u64,
        pc: usize,
        name: &[u16],
        slots: &[Slot],
        base: &Value,
    ) -> Result<Step, NoMemory>
        requires { pc + 1 < 2 ^ 64 }
        ensures { IfOk result (λ step. Does turns (done_then (object_member name.now (slot_values (map slot_view slots.now)) (view base.now) (memory_view self.old.memory))
            (backs_view self.old.backs) (state_view self.old)
            (λ given state. then_let_go (pc + 1) (value_slot given.0 ∷ operands_view self.old.operands) (backs_view self.old.backs) given.1 state)) self.old self.new step) }
    {
        let (value, count) = attempt!(
            self,
            alloc,
            turns,
            object_member(&mut self.memory, alloc, name, slots, base)
        );
        self.operands.push_value(value)?;
        self.let_go(alloc, count, pc + 1);
        Ok(Step::On)
    }

    // A member that is called.
    fn call_member(
        &mut self,
        alloc: Global,
        code: &Code,
        turns: u64,
        pc: usize,
        name: &[u16],
        slots: &[Slot],
        base: &Value,
        begun: &Value,
    ) -> Result<Step, NoMemory>
        requires { pc + 1 < 2 ^ 64 }
        ensures { IfOk result (λ step. Does turns (done_then (member_called (code_view code.now).declared name.now (slot_values (map slot_view slots.now)) (view base.now) (view begun.now) (memory_view self.old.memory))
            (backs_view self.old.backs) (state_view self.old)
            (then_changes_push (code_view code.now) (pc + 1) (operands_view self.old.operands) (backs_view self.old.backs))) self.old self.new step) }
    {
        let declared = &code.declared;
        let told = &mut self.told;
        let value = attempt!(
            self,
            alloc,
            turns,
            member_called(
                &mut self.memory,
                alloc,
                declared,
                name,
                slots,
                base,
                begun,
                told
            )
        );
        self.operands.push_value(value)?;
        self.tell_change(alloc, code, turns, pc + 1)
    }

    // The same, but the member is assigned the value below the object.
    pub fn store_member(
        &mut self,
        alloc: Global,
        code: &Code,
        turns: u64,
        pc: usize,
        name: u32,
        arguments: u32,
    ) -> Result<Step, NoMemory>
        requires { pc + 1 < 2 ^ 64 }
        ensures { IfOk result (λ step. Acted turns (code_view code.now) (plain.StoreMember (name_in (tables_of code.now) name) arguments) pc self.old self.new step) }
    {
        let Some(slots) = self.operands.take(alloc, arguments)? else {
            return Ok(Step::Stuck);
        };
        let Some(begun) = self.operands.pop_value() else {
            return Ok(Step::Stuck);
        };
        let Some(base) = self.operands.pop_value() else {
            return Ok(Step::Stuck);
        };
        let Some(value) = self.operands.pop_value() else {
            return Ok(Step::Stuck);
        };
        let name = code.name(name);
        self.assign_member(
            alloc,
            code,
            turns,
            pc,
            name,
            slots.as_slice(),
            &base,
            &begun,
            value,
        )
    }

    // The same, with all of them off the operands.
    fn assign_member(
        &mut self,
        alloc: Global,
        code: &Code,
        turns: u64,
        pc: usize,
        name: &[u16],
        slots: &[Slot],
        base: &Value,
        begun: &Value,
        value: Value,
    ) -> Result<Step, NoMemory>
        requires { pc + 1 < 2 ^ 64 }
        ensures { IfOk result (λ step. Does turns (done_then (member_assigned (code_view code.now).declared name.now (slot_values (map slot_view slots.now)) (view base.now) (view begun.now) (view value) (memory_view self.old.memory))
            (backs_view self.old.backs) (state_view self.old)
            (then_changes (code_view code.now) (pc + 1) (operands_view self.old.operands) (backs_view self.old.backs))) self.old self.new step) }
    {
        let declared = &code.declared;
        let told = &mut self.told;
        attempt!(
            self,
            alloc,
            turns,
            member_assigned(
                &mut self.memory,
                alloc,
                declared,
                name,
                slots,
                base,
                begun,
                value,
                told
            )
        );
        self.tell_change(alloc, code, turns, pc + 1)
    }

    // The item of the value below so many numbers is assigned the value below it.
    pub fn store_item(
        &mut self,
        alloc: Global,
        code: &Code,
        turns: u64,
        pc: usize,
        numbers: u32,
    ) -> Result<Step, NoMemory>
        requires { pc + 1 < 2 ^ 64 }
        ensures { IfOk result (λ step. Acted turns (code_view code.now) (plain.StoreItem numbers) pc self.old self.new step) }
    {
        let Some(slots) = self.operands.take(alloc, numbers)? else {
            return Ok(Step::Stuck);
        };
        let Some(base) = self.operands.pop_value() else {
            return Ok(Step::Stuck);
        };
        let Some(value) = self.operands.pop_value() else {
            return Ok(Step::Stuck);
        };
        self.assign_item(alloc, code, turns, pc, slots.as_slice(), &base, value)
    }

    // The same, with all of them off the operands.
    fn assign_item(
        &mut self,
        alloc: Global,
        code: &Code,
        turns: u64,
        pc: usize,
        slots: &[Slot],
        base: &Value,
        value: Value,
    ) -> Result<Step, NoMemory>
        requires { pc + 1 < 2 ^ 64 }
        ensures { IfOk result (λ step. Does turns (done_then (item_assigned (view base.now) (slot_values (map slot_view slots.now)) (view value) (memory_view self.old.memory))
            (backs_view self.old.backs) (state_view self.old)
            (then_changes (code_view code.now) (pc + 1) (operands_view self.old.operands) (backs_view self.old.backs))) self.old self.new step) }
    {
        let told = &mut self.told;
        attempt!(
            self,
            alloc,
            turns,
            item_assigned(&mut self.memory, alloc, base, slots, value, told)
        );
        self.tell_change(alloc, code, turns, pc + 1)
    }

    // Set of a member, which no object has.
    pub fn set_member(
        &mut self,
        alloc: Global,
        code: &Code,
        turns: u64,
        pc: usize,
    ) -> Result<Step, NoMemory>
        requires { pc + 1 < 2 ^ 64 }
        ensures { IfOk result (λ step. Acted turns (code_view code.now) (plain.SetMember) pc self.old self.new step) }
    {
        let Some(base) = self.operands.pop_value() else {
            return Ok(Step::Stuck);
        };
        let Some(_value) = self.operands.pop_value() else {
            return Ok(Step::Stuck);
        };
        attempt!(self, alloc, turns, refuses_set(&self.memory, &base));
        self.go_on(pc + 1);
        Ok(Step::On)
    }

    // The default member of an object is written with the value below it.
    pub fn store_default(
        &mut self,
        alloc: Global,
        code: &Code,
        turns: u64,
        pc: usize,
    ) -> Result<Step, NoMemory>
        requires { pc + 1 < 2 ^ 64 }
        ensures { IfOk result (λ step. Acted turns (code_view code.now) (plain.StoreDefault) pc self.old self.new step) }
    {
        let Some(target) = self.operands.pop_value() else {
            return Ok(Step::Stuck);
        };
        let Some(value) = self.operands.pop_value() else {
            return Ok(Step::Stuck);
        };
        self.write_default(alloc, code, turns, pc, &target, value)
    }

    // The same, with both off the operands.
    fn write_default(
        &mut self,
        alloc: Global,
        code: &Code,
        turns: u64,
        pc: usize,
        target: &Value,
        value: Value,
    ) -> Result<Step, NoMemory>
        requires { pc + 1 < 2 ^ 64 }
        ensures { IfOk result (λ step. Does turns (done_then (written_default (view target.now) (view value) (memory_view self.old.memory))
            (backs_view self.old.backs) (state_view self.old)
            (then_changes (code_view code.now) (pc + 1) (operands_view self.old.operands) (backs_view self.old.backs))) self.old self.new step) }
    {
        let told = &mut self.told;
        attempt!(
            self,
            alloc,
            turns,
            written_default(&mut self.memory, alloc, target, value, told)
        );
        self.tell_change(alloc, code, turns, pc + 1)
    }
}

// What arguments lead to along default members, in values and in places, and enumerators.
ghost use Rattle.std.specs.Prelude.{IfOk, ◌<◌, ◌+◌, ◌^◌, false, true, map};
ghost use Rattle.vba_values.specs.View.{view};
ghost use Rattle.vba_meaning.specs.Effects.{slot_values};
ghost use Rattle.vba_meaning.specs.Defaults.{element_by, enumerator_of, index_along, item_along, most_passed, write_along};
ghost use Rattle.vba_meaning.specs.LateBound.{element_set, let_element};
ghost use Rattle.run_memory.specs.View.{memory_view, path_view, slot_view};
ghost use Rattle.pcode.specs.Instructions as plain;
ghost use Rattle.pcode.specs.Machine.{done_then, places_along, then_push_path, uses};
ghost use Rattle.pcode.specs.View.{code_view};
ghost use Rattle.pcode_vm.specs.Does.{Acted, Does};
ghost use Rattle.pcode_vm.specs.View.{backs_view, operands_view, state_view};

use crate::machine::Machine;
use crate::step::{Step, Why};
use bound_project::MOST_PASSED;
use pcode::Code;
use run_defaults::{element_by, enumerator_of, has_array, index_along, item_along, write_along};
use run_late::{element_set, let_element};
use run_memory::{Path, Slot};
use std::alloc::Global;
use vba_base::{NoMemory, OrMemory};
use vba_values::{Bad, Value};

impl Machine {
    // What so many arguments lead to in the value below them.
    pub fn item_along(
        &mut self,
        alloc: Global,
        code: &Code,
        turns: u64,
        pc: usize,
        arguments: u32,
    ) -> Result<Step, NoMemory>
        requires { pc + 1 < 2 ^ 64 }
        ensures { IfOk result (λ step. Acted turns (code_view code.now) (plain.ItemAlong arguments) pc self.old self.new step) }
    {
        let Some(slots) = self.operands.take(alloc, arguments)? else {
            return Ok(Step::Stuck);
        };
        let Some(value) = self.operands.pop_value() else {
            return Ok(Step::Stuck);
        };
        self.index_value(alloc, code, turns, pc, slots, &value)
    }

    // The same, with all of them off the operands.
    fn index_value(
        &mut self,
        alloc: Global,
        code: &Code,
        turns: u64,
        pc: usize,
        slots: Vec<Slot>,
        value: &Value,
    ) -> Result<Step, NoMemory>
        requires { pc + 1 < 2 ^ 64 }
        ensures { IfOk result (λ step. Does turns (uses (code_view code.now) false (index_along (code_view code.now).declared most_passed (slot_values (map slot_view slots.items)) (view value.now) (memory_view self.old.memory)) (pc + 1) (operands_view self.old.operands) (backs_view self.old.backs) (state_view self.old)) self.old self.new step) }
    {
        let declared = &code.declared;
        let told = &mut self.told;
        let memory = &mut self.memory;
        let came = index_along(memory, alloc, declared, MOST_PASSED, slots, value, told);
        self.use_came(alloc, code, turns, false, pc + 1, came)
    }

    // The default member of the object on top is written with the value below it.
    pub fn write_through(
        &mut self,
        alloc: Global,
        code: &Code,
        turns: u64,
        pc: usize,
    ) -> Result<Step, NoMemory>
        requires { pc + 1 < 2 ^ 64 }
        ensures { IfOk result (λ step. Acted turns (code_view code.now) (plain.WriteThrough) pc self.old self.new step) }
    {
        let Some(target) = self.operands.pop_value() else {
            return Ok(Step::Stuck);
        };
        let Some(value) = self.operands.pop_value() else {
            return Ok(Step::Stuck);
        };
        self.write_target(alloc, code, turns, pc, value, &target)
    }

    // The same, with both off the operands.
    fn write_target(
        &mut self,
        alloc: Global,
        code: &Code,
        turns: u64,
        pc: usize,
        value: Value,
        target: &Value,
    ) -> Result<Step, NoMemory>
        requires { pc + 1 < 2 ^ 64 }
        ensures { IfOk result (λ step. Does turns (uses (code_view code.now) false (write_along (code_view code.now).declared most_passed (view value) (view target.now) (memory_view self.old.memory)) (pc + 1) (operands_view self.old.operands) (backs_view self.old.backs) (state_view self.old)) self.old self.new step) }
    {
        let declared = &code.declared;
        let told = &mut self.told;
        let memory = &mut self.memory;
        let came = write_along(memory, alloc, declared, MOST_PASSED, value, target, told);
        self.use_came(alloc, code, turns, false, pc + 1, came)
    }

    // What so many numbers lead to from the path below them takes the value below that.
    pub fn let_element(
        &mut self,
        alloc: Global,
        code: &Code,
        turns: u64,
        pc: usize,
        numbers: u32,
    ) -> Result<Step, NoMemory>
        requires { pc + 1 < 2 ^ 64 }
        ensures { IfOk result (λ step. Acted turns (code_view code.now) (plain.LetElement numbers) pc self.old self.new step) }
    {
        let Some(slots) = self.operands.take(alloc, numbers)? else {
            return Ok(Step::Stuck);
        };
        let Some(path) = self.operands.pop_path() else {
            return Ok(Step::Stuck);
        };
        let Some(value) = self.operands.pop_value() else {
            return Ok(Step::Stuck);
        };
        self.let_element_at(alloc, code, turns, pc, path, slots, value)
    }

    // The same, with all of them off the operands.
    fn let_element_at(
        &mut self,
        alloc: Global,
        code: &Code,
        turns: u64,
        pc: usize,
        path: Path,
        slots: Vec<Slot>,
        value: Value,
    ) -> Result<Step, NoMemory>
        requires { pc + 1 < 2 ^ 64 }
        ensures { IfOk result (λ step. Does turns (uses (code_view code.now) false (let_element (code_view code.now).declared (path_view path) (slot_values (map slot_view slots.items)) (view value) (memory_view self.old.memory)) (pc + 1) (operands_view self.old.operands) (backs_view self.old.backs) (state_view self.old)) self.old self.new step) }
    {
        let declared = &code.declared;
        let told = &mut self.told;
        let memory = &mut self.memory;
        let came = let_element(memory, alloc, declared, path, slots, value, told);
        self.use_came(alloc, code, turns, false, pc + 1, came)
    }

    // The same by Set.
    pub fn set_element(
        &mut self,
        alloc: Global,
        code: &Code,
        turns: u64,
        pc: usize,
        numbers: u32,
    ) -> Result<Step, NoMemory>
        requires { pc + 1 < 2 ^ 64 }
        ensures { IfOk result (λ step. Acted turns (code_view code.now) (plain.SetElement numbers) pc self.old self.new step) }
    {
        let Some(slots) = self.operands.take(alloc, numbers)? else {
            return Ok(Step::Stuck);
        };
        let Some(path) = self.operands.pop_path() else {
            return Ok(Step::Stuck);
        };
        let Some(value) = self.operands.pop_value() else {
            return Ok(Step::Stuck);
        };
        self.set_element_at(alloc, code, turns, pc, path, slots, value)
    }

    // The same, with all of them off the operands.
    fn set_element_at(
        &mut self,
        alloc: Global,
        code: &Code,
        turns: u64,
        pc: usize,
        path: Path,
        slots: Vec<Slot>,
        value: Value,
    ) -> Result<Step, NoMemory>
        requires { pc + 1 < 2 ^ 64 }
        ensures { IfOk result (λ step. Does turns (uses (code_view code.now) false (element_set (code_view code.now).declared (path_view path) (slot_values (map slot_view slots.items)) (view value) (memory_view self.old.memory)) (pc + 1) (operands_view self.old.operands) (backs_view self.old.backs) (state_view self.old)) self.old self.new step) }
    {
        let declared = &code.declared;
        let told = &mut self.told;
        let memory = &mut self.memory;
        let came = element_set(memory, alloc, declared, path, slots, value, told);
        self.use_came(alloc, code, turns, false, pc + 1, came)
    }

    // The place to which so many arguments lead from the path below them.
    pub fn element_along(
        &mut self,
        alloc: Global,
        code: &Code,
        turns: u64,
        pc: usize,
        arguments: u32,
    ) -> Result<Step, NoMemory>
        requires { pc + 1 < 2 ^ 64 }
        ensures { IfOk result (λ step. Acted turns (code_view code.now) (plain.ElementAlong arguments) pc self.old self.new step) }
    {
        let Some(slots) = self.operands.take(alloc, arguments)? else {
            return Ok(Step::Stuck);
        };
        let Some(path) = self.operands.pop_path() else {
            return Ok(Step::Stuck);
        };
        self.place_along(alloc, code, turns, pc, path, slots)
    }

    // The same, with all of them off the operands: an element of an array, or an item along default members.
    fn place_along(
        &mut self,
        alloc: Global,
        code: &Code,
        turns: u64,
        pc: usize,
        path: Path,
        slots: Vec<Slot>,
    ) -> Result<Step, NoMemory>
        requires { pc + 1 < 2 ^ 64 }
        ensures { IfOk result (λ step. Does turns (places_along (code_view code.now) (path_view path) (slot_values (map slot_view slots.items)) (pc + 1) (operands_view self.old.operands) (backs_view self.old.backs) (state_view self.old)) self.old self.new step) }
    {
        let is_array = has_array(&self.memory, alloc, &path)?;
        if is_array {
            return self.push_element(alloc, turns, pc, &path, slots.as_slice());
        }
        self.push_item(alloc, code, turns, pc, path, slots)
    }

    // What arguments lead to along default members of what is at a path stands as a place on top.
    fn push_item(
        &mut self,
        alloc: Global,
        code: &Code,
        turns: u64,
        pc: usize,
        path: Path,
        slots: Vec<Slot>,
    ) -> Result<Step, NoMemory>
        requires { pc + 1 < 2 ^ 64 }
        ensures { IfOk result (λ step. Does turns (uses (code_view code.now) true (item_along (code_view code.now).declared (path_view path) (slot_values (map slot_view slots.items)) (memory_view self.old.memory)) (pc + 1) (operands_view self.old.operands) (backs_view self.old.backs) (state_view self.old)) self.old self.new step) }
    {
        let declared = &code.declared;
        let told = &mut self.told;
        let came = item_along(&mut self.memory, alloc, declared, path, slots, told);
        self.use_came(alloc, code, turns, true, pc + 1, came)
    }

    // The place of an element is put on top.
    fn push_element(
        &mut self,
        alloc: Global,
        turns: u64,
        pc: usize,
        path: &Path,
        slots: &[Slot],
    ) -> Result<Step, NoMemory>
        requires { pc + 1 < 2 ^ 64 }
        ensures { IfOk result (λ step. Does turns (done_then (element_by (path_view path.now) (slot_values (map slot_view slots.now)) (memory_view self.old.memory)) (backs_view self.old.backs) (state_view self.old) (then_push_path (pc + 1) (operands_view self.old.operands) (backs_view self.old.backs))) self.old self.new step) }
    {
        let path = attempt!(
            self,
            alloc,
            turns,
            element_by(&self.memory, alloc, path, slots)
        );
        self.operands.push_path(path)?;
        self.go_on(pc + 1);
        Ok(Step::On)
    }

    // An object of a class on top gives way to the Collection that its enumerator gives.
    pub fn enumerate(
        &mut self,
        alloc: Global,
        code: &Code,
        turns: u64,
        pc: usize,
    ) -> Result<Step, NoMemory>
        requires { pc + 1 < 2 ^ 64 }
        ensures { IfOk result (λ step. Acted turns (code_view code.now) (plain.Enumerate) pc self.old self.new step) }
    {
        let Some(value) = self.operands.pop_value() else {
            return Ok(Step::Stuck);
        };
        self.enumerate_value(alloc, code, turns, pc, value)
    }

    // The same, with the value off the operands.
    fn enumerate_value(
        &mut self,
        alloc: Global,
        code: &Code,
        turns: u64,
        pc: usize,
        value: Value,
    ) -> Result<Step, NoMemory>
        requires { pc + 1 < 2 ^ 64 }
        ensures { IfOk result (λ step. Does turns (uses (code_view code.now) false (enumerator_of (code_view code.now).declared (view value) (memory_view self.old.memory)) (pc + 1) (operands_view self.old.operands) (backs_view self.old.backs) (state_view self.old)) self.old self.new step) }
    {
        let declared = &code.declared;
        let told = &mut self.told;
        let came = enumerator_of(&mut self.memory, alloc, declared, value, told);
        self.use_came(alloc, code, turns, false, pc + 1, came)
    }
}

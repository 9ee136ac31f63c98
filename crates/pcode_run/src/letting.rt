// References that are let go, and the ends of objects.
ghost use Rattle.std.specs.Prelude.{◌≡◌, IfOk, OnOk};
ghost use Rattle.vba_meaning.specs.Memory.{Object};
ghost use Rattle.vba_meaning.specs.References.{next_waiting, taken_off};
ghost use Rattle.vba_meaning.specs.Meaning.{with_memory};
ghost use Rattle.bound_project.specs.View.{declarations_view};
ghost use Rattle.bound_project.specs.Project.{class_at};
ghost use Rattle.run_memory.specs.View.{memory_view};
ghost use Rattle.pcode.specs.Machine.{Goes, letting, finished_by, terminates_by, ends_by, lets_one_by, looking};
ghost use Rattle.pcode.specs.View.{code_view};
ghost use Rattle.pcode_vm.specs.View.{after_view, backs_view, state_view};
ghost use Rattle.pcode_vm.specs.Does.{Does, Comes};

use crate::frames::fault;
use bound_project::terminate_of;
use pcode::Code;
use pcode_vm::{After, Back, Event, Machine, Mode, Step, StepEnd};
use std::alloc::Global;
use vba_base::NoMemory;
use vba_values::{ObjId, ObjRef, Value};

// So many waiting references are let go, and then.
pub fn letting(machine: &mut Machine, count: usize, after: After)
    ensures { Comes machine.old (Goes (letting count (after_view after) (backs_view machine.old.backs) (state_view machine.old))) machine.new }
{
    machine.operands.clear();
    machine.turn(Mode::Letting { count, after });
}

// The end of an object is over: without another reference it is gone.
pub fn finish_object(
    machine: &mut Machine,
    alloc: Global,
    object: u32,
    count: usize,
    after: After,
) -> Result<(), NoMemory>
    ensures { OnOk result (Comes machine.old (finished_by looking object count (after_view after) (backs_view machine.old.backs) (state_view machine.old)) machine.new) }
{
    if !machine.memory.is_last(object) {
        letting(machine, count, after);
        return Ok(());
    }
    let fields = machine.memory.gone(alloc, object)?;
    let all = fields.checked_add(count).ok_or(NoMemory)?;
    letting(machine, all, after);
    Ok(())
}

// The Class_Terminate of an object is called, where its class has one.
fn terminate(
    machine: &mut Machine,
    alloc: Global,
    code: &Code,
    turns: u64,
    class: u32,
    object: u32,
    count: usize,
    after: After,
) -> Result<Step, NoMemory>
    ensures { IfOk result (λ step. Does turns (terminates_by looking (code_view code.now) (class_at (declarations_view code.now.declared) class).terminate object count (after_view after) (backs_view machine.old.backs) (state_view machine.old)) machine.old machine.new step) }
{
    let Some(procedure) = terminate_of(&code.declared, class) else {
        finish_object(machine, alloc, object, count, after)?;
        return Ok(Step::On);
    };
    if !machine.has_room() {
        let error = machine.memory.error_here(28);
        return fault(machine, alloc, turns, error);
    }
    let back = Back::EndOf {
        object,
        count,
        after,
    };
    let me = Value::Object(ObjRef::Heap(ObjId(object)));
    let none = Vec::new(alloc);
    machine.enter_before(alloc, code, turns, back, false, procedure, me, none)
}

// One waiting reference.
pub fn let_one(
    machine: &mut Machine,
    alloc: Global,
    code: &Code,
    turns: u64,
    count: usize,
    after: After,
) -> Result<Step, NoMemory>
    ensures { IfOk result (λ step. let m = memory_view machine.old.memory in
        Does turns (lets_one_by looking (code_view code.now) (next_waiting m.waiting) count (after_view after) (backs_view machine.old.backs) (with_memory (state_view machine.old) (taken_off m))) machine.old machine.new step) }
{
    let object = machine.memory.take_waiting();
    let_object(machine, alloc, code, turns, object, count, after)
}

// One reference to an object, which ends where that was the last.
fn let_object(
    machine: &mut Machine,
    alloc: Global,
    code: &Code,
    turns: u64,
    object: u32,
    count: usize,
    after: After,
) -> Result<Step, NoMemory>
    ensures { IfOk result (λ step. Does turns (lets_one_by looking (code_view code.now) object count (after_view after) (backs_view machine.old.backs) (state_view machine.old)) machine.old machine.new step) }
{
    let last = machine.memory.is_last(object);
    if !last {
        letting(machine, count, after);
        return Ok(Step::On);
    }
    if machine.begun >= turns {
        return Ok(Step::Ended(StepEnd::Going));
    }
    machine.begun += 1;
    let told = machine.memory.is_told(object);
    let class = machine.memory.class_of(ObjRef::Heap(ObjId(object)));
    machine.memory.as_told(alloc, object);
    end_object(
        machine, alloc, code, turns, told, class, object, count, after,
    )
}

// The end of an object, whose class this is; Class_Terminate may have been told before.
fn end_object(
    machine: &mut Machine,
    alloc: Global,
    code: &Code,
    turns: u64,
    told: bool,
    class: u32,
    object: u32,
    count: usize,
    after: After,
) -> Result<Step, NoMemory>
    ensures { (b : Object) → b.told ≡ told → b.class ≡ class → IfOk result (λ step.
        Does turns (ends_by looking (code_view code.now) b object count (after_view after) (backs_view machine.old.backs) (state_view machine.old)) machine.old machine.new step) }
{
    if told {
        finish_object(machine, alloc, object, count, after)?;
        return Ok(Step::On);
    }
    machine.told.push(Event::Term {
        class,
        number: object,
    })?;
    terminate(machine, alloc, code, turns, class, object, count, after)
}

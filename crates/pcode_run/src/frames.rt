// Frames that are left, errors that leave them, and the end of the run.
ghost use Rattle.std.specs.Prelude.{◌≡◌, IfOk, [], map, reverse};
ghost use Rattle.vba_values.specs.View.{view};
ghost use Rattle.bound_project.specs.Project.{first_values};
ghost use Rattle.bound_project.specs.View.{declarations_view};
ghost use Rattle.vba_meaning.specs.Memory.{Faulted, frame_left, result as call_result, top};
ghost use Rattle.vba_meaning.specs.Effects.{with_taken};
ghost use Rattle.vba_meaning.specs.Meaning.{with_memory, left};
ghost use Rattle.run_memory.specs.View.{error_view, memory_view};
ghost use Rattle.pcode.specs.Instructions.{entry_of};
ghost use Rattle.pcode.specs.Machine.{Ends, Goes, at, raises_then, closing, returned_by, passed_on, decides, looking};
ghost use Rattle.pcode.specs.View.{code_view};
ghost use Rattle.pcode_vm.specs.View.{backs_view, state_view};
ghost use Rattle.pcode_vm.specs.Does.{Does, Comes};

use crate::letting::{finish_object, letting};
use bound_project::Declarations;
use error_frames::{At, Taken};
use pcode::Code;
use pcode_vm::{After, Back, Event, Machine, Mode, Step, StepEnd};
use run_memory::{RunError, shared_values};
use std::alloc::Global;
use vba_base::NoMemory;
use vba_values::Value;

// An error is raised that no frame takes.
pub fn fault(
    machine: &mut Machine,
    alloc: Global,
    turns: u64,
    error: RunError,
) -> Result<Step, NoMemory>
    ensures { IfOk result (λ step. Does turns (raises_then (error_view error) (state_view machine.old) (λ s. Ends (Faulted (error_view error)) s)) machine.old machine.new step) }
{
    if machine.begun >= turns {
        return Ok(Step::Ended(StepEnd::Going));
    }
    machine.begun += 1;
    machine.told.push(Event::Raised {
        number: error.number,
    })?;
    Ok(Step::Ended(StepEnd::Faulted(Box::new(alloc, error)?)))
}

// The end of the run: module variables take their first values, one by one.
pub fn close(
    machine: &mut Machine,
    alloc: Global,
    turns: u64,
    first: Vec<Value>,
    shared: u32,
) -> Result<Step, NoMemory>
    ensures { IfOk result (λ step. Does turns (closing (map view (reverse first.items)) shared (state_view machine.old)) machine.old machine.new step) }
{
    let mut first = first;
    let Some(value) = first.pop() else {
        return Ok(Step::Ended(StepEnd::Ended));
    };
    let next = shared.checked_add(1).ok_or(NoMemory)?;
    let count = machine.memory.closed(alloc, shared, value)?;
    machine.backs.clear();
    let after = After::Close {
        first,
        shared: next,
    };
    letting(machine, count, after);
    Ok(Step::On)
}

// The end of the run, from the first module variable on.
fn close_all(
    machine: &mut Machine,
    alloc: Global,
    code: &Code,
    turns: u64,
) -> Result<Step, NoMemory>
    ensures { IfOk result (λ step. Does turns (closing (first_values (declarations_view code.now.declared) (declarations_view code.now.declared).shared) 0 (state_view machine.old)) machine.old machine.new step) }
{
    let first = last_first(alloc, &code.declared)?;
    close(machine, alloc, turns, first, 0)
}

// The first values of module variables and statics, the last one first.
#[tactic(auto, using(crate::proofs::Waiting::there_and_back))]
fn last_first(alloc: Global, declared: &Declarations) -> Result<Vec<Value>, NoMemory>
    ensures { IfOk result (λ first. map view (reverse first.items) ≡ first_values (declarations_view declared.now) (declarations_view declared.now).shared) }
{
    let mut first = shared_values(alloc, declared)?;
    first.as_mut_slice().reverse();
    Ok(first)
}

// The frame is left, and its result handed on.
pub fn returns(
    machine: &mut Machine,
    alloc: Global,
    code: &Code,
    turns: u64,
) -> Result<Step, NoMemory>
    ensures { IfOk result (λ step. let m = memory_view machine.old.memory in
        Does turns (returned_by looking (code_view code.now) (backs_view machine.old.backs) (call_result m) (with_memory (state_view machine.old) (frame_left m))) machine.old machine.new step) }
{
    let value = machine.memory.result_taken();
    match machine.backs.pop() {
        None => close_all(machine, alloc, code, turns),
        Some(Back::Caller { pc, operands }) => {
            machine.memory.hold(alloc, &value)?;
            machine.operands = operands;
            machine.operands.push_value(value)?;
            machine.go_on(pc);
            Ok(Step::On)
        }
        Some(
            Back::EndOf {
                object,
                count,
                after,
            },
        ) => {
            finish_object(machine, alloc, object, count, after)?;
            Ok(Step::On)
        }
        Some(
            Back::Within {
                place,
                left,
                tasks,
                pc,
                operands,
            },
        ) => {
            machine.memory.hold(alloc, &value)?;
            machine.operands = operands;
            machine.resume(alloc, code, turns, place, left, tasks, pc, value)
        }
        Some(
            Back::Delivering {
                event,
                slots,
                links,
                pc,
                operands,
            },
        ) => {
            machine.memory.hold(alloc, &value)?;
            machine.operands = operands;
            machine.deliver(alloc, code, turns, event, slots, links, pc)
        }
    }
}

// An error has left the frame.
pub fn pass_on(
    machine: &mut Machine,
    alloc: Global,
    turns: u64,
    error: Box<RunError>,
) -> Result<Step, NoMemory>
    ensures { IfOk result (λ step. Does turns (passed_on (backs_view machine.old.backs) (error_view error.value) (with_memory (state_view machine.old) (left (memory_view machine.old.memory)))) machine.old machine.new step) }
{
    machine.memory.left(alloc)?;
    match machine.backs.pop() {
        Some(Back::Caller { .. } | Back::Within { .. } | Back::Delivering { .. }) => {
            machine.operands.clear();
            machine.turn(Mode::Failing(error));
            Ok(Step::On)
        }
        Some(Back::EndOf { .. }) | None => Ok(Step::Ended(StepEnd::Faulted(error))),
    }
}

// The frame takes the error, or is left.
pub fn decide(
    machine: &mut Machine,
    alloc: Global,
    code: &Code,
    turns: u64,
    error: Box<RunError>,
) -> Result<Step, NoMemory>
    ensures { IfOk result (λ step. Does turns (decides (code_view code.now) (error_view error.value) (backs_view machine.old.backs) (state_view machine.old)) machine.old machine.new step) }
{
    let here = machine.memory.error_here(0);
    let procedure = here.procedure;
    let next = code.next_statement(procedure, here.statement.map_or(0, u64::from));
    match machine.memory.taken_by(next) {
        Taken::PassOn => machine.let_all(alloc, After::Pass(error))?,
        Taken::Next(to) => {
            let error = Box::into_inner(error);
            take_up(machine, alloc, code, error, Taken::Next(to), to);
        }
        Taken::Handler(to) => {
            let error = Box::into_inner(error);
            take_up(machine, alloc, code, error, Taken::Handler(to), to);
        }
    }
    Ok(Step::On)
}

// The frame takes the error, and goes on at a statement.
fn take_up(machine: &mut Machine, alloc: Global, code: &Code, error: RunError, taken: Taken, to: At)
    ensures { let m = memory_view machine.old.memory in
        Comes machine.old (Goes (at (entry_of (code_view code.now) (top m).procedure to.0) [] (backs_view machine.old.backs) (with_memory (state_view machine.old) (with_taken (error_view error) taken m)))) machine.new }
{
    let procedure = machine.memory.error_here(0).procedure;
    machine.memory.with_taken(alloc, error, taken);
    machine.operands.clear();
    machine.go_on(code.entry_of(procedure, to.0));
}

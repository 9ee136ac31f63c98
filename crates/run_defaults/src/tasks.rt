// Tasks one after another, up to a call.
ghost use Rattle.vba_values.specs.View.{view};
ghost use Rattle.bound_project.specs.View.{declarations_view};
ghost use Rattle.vba_meaning.specs.Defaults.{followed, tasks_next};
ghost use Rattle.run_memory.specs.View.{memory_view};
ghost use Rattle.run_host.specs.Tells.{Tells};
ghost use Rattle.run_host.specs.View.{told_view};
ghost use Rattle.run_defaults.specs.View.{next_view, tasks_view};

use crate::next::Next;
use crate::task::Task;
use bound_project::Declarations;
use run_host::Told;
use run_memory::Memory;
use std::alloc::Global;
use vba_base::OrMemory;
use vba_values::{Bad, Value};

/// These tasks are done with a value, the last one first, up to a call.
#[cycle(tasks)]
pub fn tasks_next(
    memory: &mut Memory,
    alloc: Global,
    declared: &Declarations,
    tasks: Vec<Task>,
    value: Value,
    told: &mut Told,
) -> Result<Next, OrMemory<Bad>>
    ensures { Tells next_view result (told_view told.old) (told_view told.new) (memory_view memory.new) (tasks_next (declarations_view declared.now) (tasks_view tasks.items) (view value) (memory_view memory.old)) }
{
    let mut tasks = tasks;
    let Some(task) = tasks.pop() else {
        return Ok(Next::Gives(value));
    };
    let next = task.done_with(memory, alloc, declared, value, told)?;
    followed(memory, alloc, declared, tasks, next, told)
}

/// The same with what a use gave; where that is a call the tasks come behind its own.
#[cycle(tasks)]
#[tactic(auto, using(run_host::proofs::Telling::acts_tell, crate::proofs::Going::tasks_behind))]
pub fn followed(
    memory: &mut Memory,
    alloc: Global,
    declared: &Declarations,
    tasks: Vec<Task>,
    next: Next,
    told: &mut Told,
) -> Result<Next, OrMemory<Bad>>
    ensures { Tells next_view result (told_view told.old) (told_view told.new) (memory_view memory.new)
        (followed (tasks_view tasks.items) (λ w m1. tasks_next (declarations_view declared.now) (tasks_view tasks.items) w m1) (next_view next) (memory_view memory.old)) }
{
    match next {
        Next::Gives(value) => tasks_next(memory, alloc, declared, tasks, value, told),
        Next::Calls {
            procedure,
            me,
            arguments,
            tasks: first,
        } => {
            let mut tasks = tasks;
            let mut first = first;
            tasks.append(&mut first)?;
            Ok(Next::Calls {
                procedure,
                me,
                arguments,
                tasks,
            })
        }
    }
}

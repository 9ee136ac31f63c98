ghost use Rattle.std.specs.Prelude.{◌≡◌, ◌∷◌, ◌++◌, [], IfOk, map};
ghost use Rattle.vba_values.specs.View.{view};
ghost use Rattle.vba_meaning.specs.Defaults.{then_call};
ghost use Rattle.run_memory.specs.View.{slot_view};
ghost use Rattle.run_defaults.specs.View.{next_view, task_view, tasks_view};

use crate::task::Task;
use run_memory::Slot;
use vba_base::NoMemory;
use vba_values::Value;

/// How a use of an object goes on: it gives a value, or a procedure is called of an object, and then these tasks are to be
/// done with its result, the next one last.
#[derive(Drop)]
pub enum Next {
    Gives(Value),
    Calls {
        procedure: u32,
        me: Value,
        arguments: Vec<Slot>,
        tasks: Vec<Task>,
    },
}

/// A call with one task more behind the others.
#[tactic(auto, using(crate::proofs::Going::task_first))]
pub fn calls_then(
    procedure: u32,
    me: Value,
    arguments: Vec<Slot>,
    tasks: Vec<Task>,
    task: Task,
) -> Result<Next, NoMemory>
    ensures { IfOk result (λ next. next_view next ≡ then_call procedure (view me) (map slot_view arguments.items) (tasks_view tasks.items ++ task_view task ∷ [])) }
{
    let mut tasks = tasks;
    tasks.insert(0, task)?;
    Ok(Next::Calls {
        procedure,
        me,
        arguments,
        tasks,
    })
}

// Values that are put where they go at last.
ghost use Rattle.vba_values.specs.View.{view};
ghost use Rattle.bound_project.specs.View.{declarations_view};
ghost use Rattle.vba_meaning.specs.Defaults.{goes_by, put, put_in, put_value};
ghost use Rattle.run_memory.specs.View.{memory_view};
ghost use Rattle.run_host.specs.Tells.{Tells};
ghost use Rattle.run_host.specs.View.{told_view};
ghost use Rattle.run_defaults.specs.View.{next_view, spot_view};

use crate::next::{Next, calls_then};
use crate::operands::operand_of;
use crate::spot::Spot;
use crate::task::Task;
use bound_project::Declarations;
use run_host::Told;
use run_memory::Memory;
use std::alloc::Global;
use vba_base::OrMemory;
use vba_values::{Bad, Value};

/// A value is put where it goes: it gives way first, but a Property Let whose value has an object type takes an object
/// itself.
pub fn put(
    memory: &mut Memory,
    alloc: Global,
    declared: &Declarations,
    spot: Spot,
    value: Value,
    told: &mut Told,
) -> Result<Next, OrMemory<Bad>>
    ensures { Tells next_view result (told_view told.old) (told_view told.new) (memory_view memory.new) (put (declarations_view declared.now) (spot_view spot) (view value) (memory_view memory.old)) }
{
    if spot.takes_itself(declared) {
        return spot.put_value(memory, alloc, declared, value, told);
    }
    let next = operand_of(memory, alloc, declared, value, told)?;
    put_next(memory, alloc, declared, spot, next, told)
}

/// What a use gives at once or once it was called is put there.
#[tactic(auto, using(run_host::proofs::Telling::acts_tell))]
fn put_next(
    memory: &mut Memory,
    alloc: Global,
    declared: &Declarations,
    spot: Spot,
    next: Next,
    told: &mut Told,
) -> Result<Next, OrMemory<Bad>>
    ensures { Tells next_view result (told_view told.old) (told_view told.new) (memory_view memory.new)
        (goes_by (put_in (spot_view spot)) (λ w m1. put_value (declarations_view declared.now) (spot_view spot) w m1) (next_view next) (memory_view memory.old)) }
{
    match next {
        Next::Gives(value) => spot.put_value(memory, alloc, declared, value, told),
        Next::Calls {
            procedure,
            me,
            arguments,
            tasks,
        } => {
            let task = Task::PutIn(Box::new(alloc, spot)?);
            let next = calls_then(procedure, me, arguments, tasks, task)?;
            Ok(next)
        }
    }
}

//! The machine that runs a code, and what each instruction does to it.
#![tactic(auto)]

/// The value of an effect. Where there is none an error is raised or the run stops, or memory ran out.
macro_rules! attempt {
    ($machine:expr, $alloc:expr, $turns:expr, $effect:expr) => {
        match $effect {
            Ok(value) => value,
            Err(OrMemory::Fault(Bad::Raise(number))) => {
                return $machine.raise_number($alloc, $turns, number);
            }
            Err(OrMemory::Fault(Bad::Outside(kind))) => {
                return Ok(Step::Ended($machine.stopped(Why::Outside(kind))));
            }
            Err(OrMemory::NoMemory) => return Err(NoMemory),
        }
    };
}

mod along;
mod arguments;
mod backs;
mod blocks;
mod by_name;
mod calls;
mod control;
mod dispatch;
mod events;
mod host;
mod instances;
mod late;
mod library;
mod loops;
mod machine;
mod objects;
mod operands;
mod operators;
mod paths;
mod step;
mod telling;
mod uses;
mod values;

pub use arguments::startup_slots;
pub use backs::{After, Back, Backs, Mode};
pub use machine::Machine;
pub use operands::Operands;
pub use run_host::{Event, Told};
pub use step::{Ending, Step, StepEnd, Why};

ghost use Rattle.std.specs.Prelude.{◌≡◌};
ghost use Rattle.pcode_vm.specs.View.{ending_of};

use run_memory::RunError;
use vba_values::OutKind;

/// Why a run stops: Stop, or a value or a size that is outside of what vbarun has.
#[derive(Clone, Copy, Debug, PartialEq, Eq)]
pub enum Why {
    StopStatement,
    Outside(OutKind),
}

/// How a run ends: a fault has the error, a stop the procedure and the statement that ran.
#[derive(Drop)]
pub enum Ending {
    Ended,
    Faulted(RunError),
    Stopped {
        why: Why,
        procedure: u32,
        statement: Option<u32>,
    },
    /// The bound on turns was met.
    Going,
}

/// How a step ends the run. The error lies in a box, so that a step that ends no run moves no room for it.
#[derive(Drop)]
pub enum StepEnd {
    Ended,
    Faulted(Box<RunError>),
    Stopped {
        why: Why,
        procedure: u32,
        statement: Option<u32>,
    },
    Going,
}

impl StepEnd {
    /// The ending of the run.
    pub fn into_ending(self) -> Ending
        ensures { result ≡ ending_of self }
    {
        match self {
            StepEnd::Ended => Ending::Ended,
            StepEnd::Faulted(error) => Ending::Faulted(Box::into_inner(error)),
            StepEnd::Stopped {
                why,
                procedure,
                statement,
            } => Ending::Stopped {
                why,
                procedure,
                statement,
            },
            StepEnd::Going => Ending::Going,
        }
    }
}

/// What a step did: the machine goes on, or the run has ended, or an operand or an instruction was missing.
#[derive(Drop)]
pub enum Step {
    On,
    Ended(StepEnd),
    Stuck,
}

use pcode_vm::Why;
use vba_base::Place;

/// How a run ended: a fault has the number of its error and, as a stop has, the place of the statement that ran.
#[derive(Clone, Copy, Debug, PartialEq, Eq)]
pub enum Outcome {
    Ended,
    Faulted(i32, Place),
    Stopped(Why, Place),
    /// One more turn than the bound was due.
    Going,
}

/// Why a run didn't end: the sink took less than all, or memory ran out.
#[derive(Clone, Copy, Debug, PartialEq, Eq)]
pub enum RunFault {
    WriteFault,
    NoMemory,
}

//! Projects run: compiled, and run by the machine, so that what is printed and how the run ends are those of the meaning.
#![tactic(auto)]

mod outcome;
mod places;
mod run;

pub use outcome::{Outcome, RunFault};
pub use run::run_project;

// What stands below, for the crates above.
pub use codegen;
pub use pcode;
pub use pcode_run;
pub use pcode_vm;

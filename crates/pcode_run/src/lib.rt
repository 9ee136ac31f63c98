//! A run of a code: steps of the machine, rows of instructions that are made at once, references that are let go, frames
//! that are left, and the whole run with what it puts to its sink.
#![tactic(auto)]

mod append_rows;
mod chain_rows;
mod frames;
mod letting;
mod quick;
mod rows;
mod runs;
mod scan_rows;
mod stack;
mod steps;
mod texts;

pub use runs::{Cut, run};
pub use steps::step;
pub use texts::Shows;

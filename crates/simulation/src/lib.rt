//! The machine's run of a project's code is what the project means. There is no code here but laws.
#![tactic(auto)]

mod laws;

pub use laws::{prefix_law, runs_are_meant};

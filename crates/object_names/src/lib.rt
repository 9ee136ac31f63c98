//! The law of names: what a step does doesn't depend on the numbers that objects have. There is no code here but laws.
#![tactic(auto)]

mod laws;

pub use laws::{runs_are_blind_to_names, steps_are_blind_to_names};

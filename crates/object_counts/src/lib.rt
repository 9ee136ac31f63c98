//! The machine that counts references equals the machine that looks for them. There is no code here but laws.
#![tactic(auto)]

mod laws;

pub use laws::{runs_are_counted, steps_are_counted};

//! The law of objects that have ended: nothing names one. There is no code here but laws.
#![tactic(auto)]

mod laws;

pub use laws::ended_objects_are_named_nowhere;

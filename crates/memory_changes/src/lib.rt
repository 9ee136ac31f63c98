//! The law of changes: each step of the machine is a row of small changes. There is no code here but laws.
#![tactic(auto)]

mod laws;

pub use laws::{
    meant_runs_are_rows_of_changes, runs_are_rows_of_changes, steps_are_rows_of_changes,
};

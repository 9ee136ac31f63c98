//! The law of paths: each leads to an object that is there. There is no code here but laws.
#![tactic(auto)]

mod laws;

pub use laws::{meant_paths_lead_to_objects, paths_lead_to_objects};

//! The laws of objects: what runs tell of them, and what their counts and references are. There is no code here but laws.
#![tactic(auto)]

mod laws;

pub use laws::{
    counted_runs_are_meant, meant_references_lead_to_objects,
    objects_without_references_have_ended, once_law, references_lead_to_objects,
};

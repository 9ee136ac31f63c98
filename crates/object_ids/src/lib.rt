//! The laws of ids: each object that is there has one, and no two have the same. There is no code here but laws.
#![tactic(auto)]

mod laws;

pub use laws::{ids_tell_objects_apart, meant_ids_tell_objects_apart};

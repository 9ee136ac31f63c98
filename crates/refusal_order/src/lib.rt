//! The order of refusals, and the least of them: by place, and then by rule.
#![tactic(auto)]

mod laws;
mod least;

pub use laws::least_refusals_are_found;
pub use least::{note, note_both, note_fault, note_if};

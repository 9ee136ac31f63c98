//! What the names of a project stand for: the rules S15 to S22, and the bound project. It has no code but laws; the
//! definitions stand in `specs/`.
#![tactic(auto)]

mod laws;

pub use laws::{names_of_procedures_come_first, verdicts_name_the_least};

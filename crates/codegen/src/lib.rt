//! From a bound project to its code.
#![tactic(auto)]

mod action;
mod assemble;
mod body;
mod node;

pub use assemble::compile;
pub use bound_project::TooLong;

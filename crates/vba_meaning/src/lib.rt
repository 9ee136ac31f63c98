//! The meaning of a bound project: what a run remembers, what it tells, and how it ends. The definitions stand in
//! `specs/`.
#![tactic(auto)]

mod laws;

pub use laws::runs_without_turns_tell_nothing;

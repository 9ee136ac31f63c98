//! The rules S15 to S22: which of them a project breaks first; and S23. What statements say is asked one crate below.
#![tactic(auto)]

mod constants;
mod entries;
mod judging;
mod labelled;
mod left_out;
mod names_of;
mod procedures;
mod recursive;
mod rows;
mod sources;
mod twice;

pub use judging::verdict;
pub use left_out::first_left_out;

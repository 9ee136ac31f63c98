//! The listing of a compiled code. The definitions stand in `specs/`.
#![tactic(auto)]

mod lines;
mod numbers;

pub use lines::listing;

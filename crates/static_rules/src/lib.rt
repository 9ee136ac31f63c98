//! Rules that are asked of a bound project: where an operator's result would be a Double, and what is marked.
#![tactic(auto)]

mod doubles;
mod laws;
mod least;
mod scan;

pub use laws::least_refusals_are_found;
pub use scan::first_broken;

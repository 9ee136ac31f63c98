//! The law that ties the static types of operators to what the operators give. The definitions that it speaks of stand in
//! `vba_values`.
#![tactic(auto)]

mod laws;

pub use laws::{binary_results_are_of_static_types, unary_results_are_of_static_types};

//! Expressions with names that are replaced by what they stand for: one pass over the nodes of an expression, which
//! pushes the nodes of the bound one.
#![tactic(auto)]

mod call_steps;
mod indexing;
mod pass;
mod step;

pub use indexing::indexes_value;
pub use pass::{bind_given, bind_operand, bind_reference, bind_value, push_value, run, tree_of};

// What stands below, for the crates above.
pub use bound_accesses;
pub use bound_operands;

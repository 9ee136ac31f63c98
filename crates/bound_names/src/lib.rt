//! Names in expressions: what they mean, what is called by them, and the members of objects of classes.
#![tactic(auto)]

mod callee;
mod classes;
mod env;
mod functions;
mod names;
mod properties;
mod routines;
mod unknown;

pub use callee::callee_term;
pub use classes::{class_member, own_events};
pub use env::{Env, Within};
pub use functions::from_zero;
pub use names::{folded, is_either, meant_term, meant_variable, sheets_value};
pub use properties::{Part, Writer, setter_of, writer_of};
pub use unknown::unknown_term;

// What stands below, for the crates above.
pub use bound_members;
pub use project_tables;

//! The names of the VBA library, and what its functions mean.
#![tactic(auto)]

mod constant;
mod function;
mod signature;
mod table;

pub use constant::library_constant;
pub use function::{LibraryFunction, is_outside_name, is_outside_type, library_named};
pub use signature::{arity, declared_type, has_text_form};

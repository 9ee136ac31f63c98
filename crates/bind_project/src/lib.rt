//! Modules bound: the project that they mean, or where a part stands that isn't bound yet.
#![tactic(auto)]

mod binding;
mod bound;
mod built_declarations;
mod built_parts;
mod home;
mod modules;
mod procedures;
mod single_line_ifs;
mod spaces;
mod statements;
mod walk;

pub use binding::{bind, startup_fault};
pub use bound::Bound;
pub use bound_names::project_tables::Startup;

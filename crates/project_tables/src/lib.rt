//! The procedures of a project with their names, and where its variables are kept.
#![tactic(auto)]

mod class_tables;
mod counting;
mod declaring;
mod event_tables;
mod project_types;
mod rows;
mod scopes;
mod signing;
mod startup;

pub use declaring::declarations;
pub use rows::{ProcedureRow, Rows, project_rows};
pub use signing::{Signatures, project_signatures};
pub use startup::{Startup, startup_number};

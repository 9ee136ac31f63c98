//! Events in a run: which WithEvents variables have a source, which handlers are due, and areas of whose Change is to be
//! told. The definitions stand in `specs/` of vba_meaning.
#![tactic(auto)]

mod changes;
mod handlers;
mod links;

pub use changes::{CHANGE, area_value, noted, sheet_of};
pub use handlers::next_due;
pub use links::{sinks, source_of};

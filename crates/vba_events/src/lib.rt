//! The links of event sources to the variables that handle their events.
#![tactic(auto)]

mod laws;
mod linked;
mod links;
mod maps;

pub use laws::{numbers_rise, same_links_are_equal};
pub use linked::Linked;
pub use links::Links;

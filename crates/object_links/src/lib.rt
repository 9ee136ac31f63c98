//! The laws of links: those that are stored are those that looking finds. There is no code here but laws.
#![tactic(auto)]

mod laws;

pub use laws::{meant_links_are_stored, stored_links_are_found};

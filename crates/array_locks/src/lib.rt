//! The laws of locks: stored counts are those that looking finds. There is no code here but laws.
#![tactic(auto)]

mod laws;

pub use laws::{locks_are_asked, meant_locks_are_stored, stored_locks_are_found};

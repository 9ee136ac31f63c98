//! The names of procedures, also those that are declared nowhere.
#![tactic(auto)]

mod arranging;
mod body;
mod item;
mod nodes;
mod using;

pub use body::locals_of;

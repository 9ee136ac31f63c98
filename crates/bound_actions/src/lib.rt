//! What statements do with expressions: assignments and calls.
#![tactic(auto)]

mod actions;
mod assigned_values;
mod assigning;
mod class_items;
mod events;
mod indexed_calls;
mod late_items;
mod member_targets;
mod no_targets;
mod property_targets;
mod raising;
mod setting;
mod statement_calls;
mod takers;
mod trees;
mod untaken;

pub use actions::{bind_assignment, bind_call, bind_call_place};
pub use events::bind_raise_event;
pub use setting::bind_set;

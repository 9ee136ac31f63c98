//! What stands behind dots: names of modules, fields, and members of objects; and what brackets behind an object take.
#![tactic(auto)]

mod fields;
mod items;
mod members;

pub use fields::step_with_member;
pub use items::{item_member, item_term, lacks_item, takes_item};
pub use members::step_member;

// What stands below, for the crates above.
pub use bound_names;

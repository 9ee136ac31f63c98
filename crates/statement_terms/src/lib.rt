//! Terms that statements assign to, set, call, read and keep, by what was pushed for them.
#![tactic(auto)]

mod actions;
mod assigned_values;
mod assigning;
mod indexed_calls;
mod late_targets;
mod member_targets;
mod places;
mod pushed_terms;
mod raising;
mod setting;
mod statement_calls;
mod takers;
mod targets;
mod trees;

pub use actions::variable_in;
pub use assigned_values::{is_plain, push_assigned};
pub use assigning::{
    Assignment, PropertyLet, as_given, as_operand, assign_tree, ordered_kind, property_kind,
};
pub use indexed_calls::{brackets, gives_some};
pub use late_targets::{set_call, set_late};
pub use member_targets::{is_late, write_broken, write_call, written_rule};
pub use places::{place_ending, with_place};
pub use pushed_terms::push_term;
pub use raising::raise_parameters;
pub use setting::{push_broken, set_member, set_term, set_value};
pub use statement_calls::{are_none, bare_term, push_given, push_rest};
pub use takers::{Taker, mark_taken, may_break, taker_of};
pub use targets::{assign_indexed, assign_value, is_indexed_late, late_value, may_be_object};
pub use trees::{Split, adds_one, ends_bare, split_call};

// What stands below, for the crates above.
pub use statement_nodes;

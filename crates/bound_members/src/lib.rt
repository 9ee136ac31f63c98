//! Members of objects of the host: which ones there are, by what is known of an object before the run, and how they are
//! read and called.
#![tactic(auto)]

mod ahead;
mod calls;
mod kinds;
mod late;
mod members;
mod names;
mod taking;

pub use ahead::{links_of, shapes_ahead, shapes_at};
pub use calls::{
    add_given, add_missing, add_named, close_member, is_called_late, member_kind, names_fit,
    open_member,
};
pub use kinds::{HostKind, is_known_early, is_known_late, kind_of_ending, kind_of_type};
pub use late::late_came;
pub use members::{find_member, found_late, is_word, takes_arguments};
pub use taking::{arguments_rule, member_takes};

// What stands below, for the crates above.
pub use bound_calls;

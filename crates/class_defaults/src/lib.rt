//! Default members of what is declared as of a class, as far as they are known before the run: of which type the value
//! is to which an object gives way, what arguments behind it lead to, whether it can be written, and which rule is
//! broken so.
#![tactic(auto)]

mod items;
mod known;

pub use items::{class_led, class_let, class_set, may_lack, takes_none};
pub use known::{Known, class_written, default_read, known_variant};

// What stands below, for the crates above.
pub use bound_declarations;
pub use bound_forms;

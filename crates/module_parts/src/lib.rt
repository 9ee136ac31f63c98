//! The parts of lines, what they bracket, and the places at which trees begin.
#![tactic(auto)]

mod bracket;
mod declarations;
mod expressions;
mod lines;
mod part;
mod places;
mod roles;
mod simple;
mod splitting;
mod statements;

pub use bracket::{BlockKind, Bracket};
pub use declarations::{dim_place, parameter_place};
pub use expressions::expression_place;
pub use part::Part;
pub use places::place_of;
pub use roles::bracket_of;
pub use splitting::push_parts;
pub use statements::statement_place;

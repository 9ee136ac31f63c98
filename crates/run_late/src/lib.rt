//! What a statement does in one go with members that are found in the run, by the class of the object that is there. The
//! definitions stand in `specs/` of vba_meaning.
#![tactic(auto)]

mod arguments;
mod arranging;
mod beginning;
mod binding;
mod calling;
mod classes;
mod letting;
mod names;
mod setting;
mod sought;
mod ways;

pub use beginning::late_there;
pub use binding::{lends_place, place_copied, value_bound};
pub use calling::{host_arguments, late_called};
pub use classes::public_variable;
pub use letting::{late_let, let_element};
pub use setting::{element_set, late_set};
pub use sought::Sought;

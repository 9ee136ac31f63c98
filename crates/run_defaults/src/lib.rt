//! How uses of objects go on along default members: as operands, indexed, written and set. The definitions stand in `specs/`
//! of vba_meaning.
#![tactic(auto)]

mod arguments;
mod indexing;
mod letting;
mod looks;
mod members;
mod next;
mod operands;
mod parameters;
mod places;
mod putting;
mod setting;
mod spot;
mod task;
mod tasks;
mod writing;

pub use arguments::{packed, slots_from, values_of};
pub use indexing::{index_along, item_along};
pub use letting::{let_along, let_at, let_in_place};
pub use looks::{class_of_value, instance_in, is_instance, variable_of};
pub use members::{read_member, read_variable};
pub use next::Next;
pub use operands::{counted_if_any, counted_operand, enumerator_of, operand_of};
pub use parameters::{all_left_out, can_be_object, is_object_type, is_sub, left_out};
pub use places::{element_by, has_array, is_variable_place};
pub use putting::put;
pub use setting::{set_along, set_in_place};
pub use spot::Spot;
pub use task::Task;
pub use tasks::{followed, tasks_next};
pub use writing::write_along;

//! The statements of a procedure in one list: how many a part has, which blocks stand round it, and the numbers of the
//! statements that control goes on at.
#![tactic(auto)]

mod awaited;
mod blocks;
mod counts;
mod kinds;
mod labels;
mod opened;
mod sought;
mod standing;
mod step;
mod sums;
mod walk;

pub use blocks::blocks_in;
pub use counts::{body_count, count, count_list, count_next, part_count, simple_count};
pub use kinds::is_same_kind;
pub use labels::{is_same_label, label_number};
pub use opened::Opened;
pub use sought::{Sought, number_sought};
pub use standing::Standing;
pub use sums::plus;
pub use walk::Walk;

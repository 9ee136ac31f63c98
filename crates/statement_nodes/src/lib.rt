//! What statements push beside their expressions: tests, items and marks, and the blocks that stand open round a line.
#![tactic(auto)]

mod case_lines;
mod for_lines;
mod innermost;
mod prints;
mod resizes;
mod single_line_ifs;
mod statements;
mod values;
mod with_blocks;

pub use case_lines::{begin_test, end_range, end_test, selected_value};
pub use for_lines::{
    goes_over, is_counting, is_other_name, loop_name, name_place, push_walked, step_place,
};
pub use innermost::{each_header, header_of, innermost_block, opening_line};
pub use prints::{ends_line, push_mark, show};
pub use resizes::mark_bounds;
pub use single_line_ifs::{Numbers, count_others, first_of};
pub use statements::end_statement;
pub use values::{blank_node, mark, push_integer, there};
pub use with_blocks::object_of;

// What stands below, for the crates above.
pub use statement_numbers;

//! Lines bound: blocks, ReDim, Erase, Debug.Print and what has no expressions, and the With blocks round a statement.
#![tactic(auto)]

mod around;
mod bounds;
mod case_lines;
mod erases;
mod for_lines;
mod lines;
mod loop_variables;
mod places;
mod plain_actions;
mod prints;
mod redims;
mod resized;
mod single_line_ifs;
mod statements;
mod values;
mod with_blocks;

pub use around::Around;
pub use lines::bind_line;
pub use prints::bind_print;
pub use single_line_ifs::bind_if;
pub use statements::{array_kind, plain_kind};
pub use with_blocks::around_at;

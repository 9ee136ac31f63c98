//! Conditional compilation: `#Const`, `#If`, `#ElseIf`, `#Else` and `#End If`.
#![tactic(auto)]

mod arm;
mod directive;
mod expression;
mod frame;
mod laws;
mod literals;
mod operand;
mod operator;
mod piece;
mod reader;
mod select;
mod words;

pub use arm::Arm;
pub use directive::DirectiveKind;
pub use laws::{
    blocks_are_matched, first_true_arms_are_kept, kept_lines_are_lines, refusals_are_least,
    what_is_read_is_spelled, what_is_spelled_is_read,
};
pub use operator::{Operator, Prefix};
pub use select::select_lines;

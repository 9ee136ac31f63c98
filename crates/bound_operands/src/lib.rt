//! Operands of expressions, which need no name looked up: literals, what operators make of the operands before them, and
//! the numbers and arguments in brackets.
#![tactic(auto)]

mod call_steps;
mod functions;
mod gathering;
mod indexing;
mod leading;
mod named;
mod operators;
mod step;
mod types;
mod untaken;

pub use call_steps::{step_missing_argument, step_plain_argument};
pub use functions::open_function;
pub use gathering::{gathered_ending, push_gathered, take_gathered};
pub use indexing::{WholePlace, open_call, open_place, open_value, push_as_place, push_whole};
pub use leading::{is_led, led_as_place, open_led_place, open_led_value, push_led};
pub use named::{step_index, step_named_argument};
pub use step::{step_binary, step_literal, step_parenthesised, step_unary};
pub use untaken::{are_places, count_shapes, refused_rule};

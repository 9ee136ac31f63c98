//! A code that no compiler of ours made is checked before it runs: whether it is well-formed, as pcode's definitions say.
//! One pass along the instructions, with the kinds of their operands on a stack, and one over the tables.
#![tactic(auto)]

mod checked;
mod effects;
mod handlers;
mod numbers;
mod operands;
mod tables;
mod way;

pub use checked::CheckedCode;

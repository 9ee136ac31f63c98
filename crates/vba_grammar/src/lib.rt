//! The grammar of lines: how the one tree of a line is found from its tokens. It has no code but laws.
#![tactic(auto)]

mod laws;

pub use laws::{lines_are_read, lines_are_refused, lines_are_unique};

//! The trees of modules: their parts, bracketed by the lines that open and close blocks, procedures,
//! Enums and Types.
#![tactic(auto)]

mod bracketed;
mod bracketing;
mod progress;
mod tree;

pub use bracketed::Bracketed;
pub use bracketing::bracket;
pub use tree::{Arm, Block, ModuleTree, Node};

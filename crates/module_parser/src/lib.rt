//! Modules: their lines parsed, the first of the rules S10 to S14 that they break, and the tree of a module.
#![tactic(auto)]

mod laws;
mod parse;

pub use laws::{modules_are_refused_by_the_least, modules_have_one_tree};
pub use parse::{check_module, parse_module, read_module};

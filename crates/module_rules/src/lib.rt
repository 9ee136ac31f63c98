//! The least of the rules S11, S12 and S14 that the parts of a module break.
#![tactic(auto)]

mod before;
mod body;
mod bounds;
mod brackets;
mod exits;
mod headers;
mod inside;
mod kinds;
mod misplaced;
mod noting;
mod open;
mod parameters;
mod rules;
mod statements;
mod top;
mod types;
mod walk;

pub use rules::part_refusal;

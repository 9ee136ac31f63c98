//! The words of the command line.
#![tactic(auto)]

mod command;
mod definition;
mod turns;
mod words;

pub use command::Command;
pub use words::command_of;

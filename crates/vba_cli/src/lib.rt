//! The commands of vbarun.
#![tactic(auto)]

mod cli;
mod command;
mod kept;
mod lists;
mod messages;
mod modules;
mod phases;
mod reading;
mod running;
mod sheets;
mod status;

pub use cli::run_cli;
pub use reading::program;
pub use status::Status;

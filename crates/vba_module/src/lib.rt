//! Modules: how their lines are bracketed, and the rules S10 to S14. It has no code but a law.
#![tactic(auto)]

mod laws;

pub use laws::modules_are_bracketed;

//! The functions of the VBA library, each a call that answers.
#![tactic(auto)]

mod arguments;
mod arrays;
mod calls;
mod characters;
mod folds;
mod kinds;
mod numbers;
mod parts;
mod searching;
mod texts;

pub use calls::library;

//! The rules on signatures. S31: the procedures of one property have the same parameters and one type of value. S32: a
//! handler has the parameters of its event.
#![tactic(auto)]

mod first;
mod handler_names;
mod handlers;
mod inside;
mod passed;
mod properties;
mod signature;

pub use first::first_signature;

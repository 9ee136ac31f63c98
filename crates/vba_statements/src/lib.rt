//! Reading the statements of a line other than single-line Ifs, and the lines of blocks, exact against the grammar.
#![tactic(auto)]

mod assignment;
mod block;
mod call;
mod declaration;
mod handling;
mod kept;
mod label;
mod loops;
mod print;
mod redim;
mod simple;

pub use label::is_digit;
pub use simple::read_simple;

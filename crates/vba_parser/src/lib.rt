//! Lines to syntax trees: the statements of a line by turns, and the line by its first words.
#![tactic(auto)]

mod attribute;
mod building;
mod choice;
mod form;
mod frame;
mod header;
mod headings;
mod label;
mod line;
mod lists;
mod member;
mod parse;

pub use form::form_place;
pub use frame::Statements;
pub use line::read_line;
pub use lists::read_statements;
pub use parse::parse_line;

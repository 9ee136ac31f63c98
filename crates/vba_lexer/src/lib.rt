//! Sources to logical lines and tokens.
#![tactic(auto)]

mod characters;
mod classes;
mod continuation;
mod cursor;
mod fault;
mod forms;
mod header;
mod laws;
mod lexer;
mod line;
mod line_tokens;
mod lines;
mod number;
mod scan;
mod token;

pub use laws::{
    faults_are_least, fronts_are_unique, lines_are_unique, tokens_are_unique, tokens_lie_in_source,
    tokens_stand_in_order,
};
pub use lexer::{lex, slice_of};
pub use line::Line;
pub use lines::{Ending, first_line};
pub use number::{
    Number, NumberFault, NumberKind, TypeSuffix, number_value, suffix_of, without_suffix,
};
pub use token::{Token, TokenKind};

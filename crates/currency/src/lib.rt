//! Exact fixed-point arithmetic: VBA's Currency, and the texts that are numbers.
#![tactic(auto)]

mod compare;
mod cut;
mod laws;
mod mark;
mod numeral;
mod printing;
mod rounding;
mod text;
mod value;

pub use compare::compare_text;
pub use laws::{number_texts_are_read, rounding_gives_the_nearest};
pub use printing::{print, printed_differs, printed_parses};
pub use text::{ParseFault, parse, parse_whole};
pub use value::{
    Currency, Overflow, add, count, from_count, from_whole, mul, neg, round_to_whole, sub,
};

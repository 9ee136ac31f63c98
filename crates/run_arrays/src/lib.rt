//! What a statement does in one go with arrays: ReDim, Erase, For Each and elements of values. The definitions stand in
//! `specs/` of vba_meaning.
#![tactic(auto)]

mod arrays;
mod each;
mod elements;
mod exchange;
mod fresh;
mod numbers;
mod preserve;
mod walks;

pub use arrays::{erased, redimmed};
pub use each::{each_begun, each_next, each_off};
pub use elements::indexed;
pub use numbers::long_of;

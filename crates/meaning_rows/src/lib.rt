//! Worked rows of the meaning that are long, and those of arrays declared As New: what the long ones run stands in
//! `specs/`, and a law says how that ends.
#![tactic(auto)]

mod laws;

pub use laws::two_thousand_frames_stand;

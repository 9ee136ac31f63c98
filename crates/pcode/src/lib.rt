//! The code of a bound project, and the machine that runs it. The definitions stand in `specs/`.
#![tactic(auto)]

mod code;
mod instr;
mod laws;

pub use code::Code;
pub use instr::Instr;
pub use laws::{codes_are_laid_out, codes_are_well_formed, well_formed_codes_end};

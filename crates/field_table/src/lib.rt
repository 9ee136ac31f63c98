//! Rows of field texts. All units stand in one list, each text behind its length.
#![tactic(auto)]

mod frame;
mod table;
mod text_list;

pub use table::FieldTable;

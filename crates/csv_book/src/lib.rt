//! Sheet files: the sheet of a file of comma-separated fields, and the file of a sheet.
#![tactic(auto)]

mod fault;
mod field;
mod laws;
mod read;
mod room;
mod row;
mod saved_text;
mod scan;
mod sizes;
mod write;

pub use fault::BookFault;
pub use laws::{first_fault_is_named, saved_sheets_read_back, unwritten_rows_are_saved};
pub use read::read_sheet;
pub use write::write_sheet;

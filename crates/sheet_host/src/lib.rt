//! Sheets of cells, books of sheets, areas and their addresses, and the members of host objects.
#![tactic(auto)]

mod addresses;
mod area;
mod area_cells;
mod book;
mod cell;
mod corner;
mod field;
mod filled;
mod laws;
mod members;
mod moving;
mod pages;
mod printing;
mod reading;
mod sheet;
mod used;
mod writing;

pub use addresses::area_of_text;
pub use area::{Area, SheetId};
pub use area_cells::{area_around, cell_of_area, nth_cell_of_area};
pub use book::Book;
pub use cell::CellValue;
pub use field::{field_of_cell, value_of_field};
pub use laws::{addresses_read_back, members_have_own_numbers};
pub use members::{HostMember, member, member_named};
pub use moving::{offset, resize};
pub use printing::{address, cell_address};
pub use reading::area_value;
pub use sheet::Sheet;
pub use writing::{cell_of, cells_of};

//! The sheets that a list names: reading them from their files into a book, and saving the book. The definitions stand
//! in `specs/`.
#![tactic(auto)]

mod read;
mod save;
mod stop;

pub use read::read_book;
pub use save::save_book;
pub use stop::BookStop;

//! What every crate of vbarun stands on: texts, places, refusals, want of memory, and the outside.
#![tactic(auto)]

mod decode;
mod fault;
mod mem_files;
mod mem_sink;
mod name;
mod never_fails;
mod os_files;
mod os_sink;
mod outside;
mod place;
mod tally;
mod text;
mod units;

pub use decode::decode_source;
pub use fault::{NoMemory, OrMemory};
pub use mem_files::MemFiles;
pub use mem_sink::MemSink;
pub use name::{Name, name_of};
pub use never_fails::NeverFails;
pub use os_files::OsFiles;
pub use os_sink::OsSink;
pub use outside::{Files, ReadAnswer, Sink, WriteAnswer};
pub use place::{Place, Refusal};
pub use text::encode_text;
pub use units::Units;

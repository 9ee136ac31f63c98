//! List files: which modules and sheets a project has, and where it begins. The definitions stand in `specs/`.
#![tactic(auto)]

mod bytes;
mod files;
mod identifier;
mod line;
mod list;
mod plan;
mod read;

pub use bytes::{FileBytes, ModuleBytes};
pub use files::{ReadStop, read_file, read_modules, size_of};
pub use list::{ListFile, ModulePath, SheetPath, Startup};
pub use plan::{Plan, plan_of};
pub use read::read_list;

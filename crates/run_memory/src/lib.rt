//! What a run remembers, and what a statement does in one go. The definitions stand in `specs/` of vba_meaning.
#![tactic(auto)]

mod area;
mod blocks;
mod calls;
mod connecting;
mod elements;
mod ends;
mod err;
mod errors;
mod exchange;
mod frame;
mod initial;
mod keeps;
mod leaving;
mod lending;
mod library;
mod locks;
mod looking;
mod looks;
mod loops;
mod memory;
mod objects;
mod opening;
mod path;
mod printing;
mod references;
mod setting;
mod standing;
mod values;
mod variables;

pub use area::{area_in, has_area, has_sheet, is_area_inside};
pub use calls::receive;
pub use frame::{Frame, Kept, Loop, Slot, Typed};
pub use initial::{first_value, first_values, own_slots, shared_values};
pub use lending::copy_slots;
pub use loops::{fits, fits_between};
pub use memory::{Memory, Object, RunError};
pub use objects::add_objects;
pub use path::{Path, Root, Step};
pub use printing::show_value;
pub use values::{condition, is_true, operated, operated_alone};

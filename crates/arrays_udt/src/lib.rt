//! Arrays and user-defined types: bounds, where elements lie, initial values, resizing, and paths into values.
#![tactic(auto)]

mod initial;
mod laws;
mod offsets;
mod paths;
mod resize;
mod shape;
mod udt;

pub use initial::{fresh, fresh_array};
pub use laws::{
    offsets_are_places, types_begin_with_their_fields, values_stay_well_formed,
    well_formed_arrays_are_whole, writes_change_one_place,
};
pub use offsets::{offset, offset_in};
pub use paths::{PathStep, has_path, path_read, path_write};
pub use resize::resize_kept;
pub use shape::{Shape, shape_of};
pub use udt::{UdtField, UdtType};

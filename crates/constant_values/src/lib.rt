//! The values of constant expressions ([MS-VBAL] 5.6.16.2), and the places where what must be constant has none.
#![tactic(auto)]

mod api;
mod bounds;
mod constant;
mod dims;
mod evaluate;
mod faults;
mod item;
mod known;
mod literals;
mod names;
mod operate;
mod own;
mod project;
mod slots;
mod tables;

pub use api::{clause_type, constant_value, known_length, known_value, meant_value, written_type};
pub use bounds::known_bounds;
pub use dims::note_dims_faults;
pub use faults::{
    note_clause_faults, note_constant_faults, note_default_faults, note_member_faults,
    note_type_faults,
};
pub use known::{Known, value_type};
pub use literals::{literal_meant, operator_kind, unary_kind};
pub use operate::{coerced, is_variant};
pub use own::{Constants, OwnValues, constants_in, own_values};
pub use project::{ProjectValues, project_values};

// What stands below, for the crates above.
pub use declared_names;

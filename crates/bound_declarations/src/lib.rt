//! The declarations of a project as it is bound, and where its variables are kept: counted among those that are
//! declared before them.
#![tactic(auto)]

mod declared;
mod handler_names;
mod kept;
mod kinds;
mod lists;
mod made;
mod new_words;
mod not_yet;
mod numbers;
mod parameters;
mod procedures;
mod storage;
mod types;
mod user_types;

pub use declared::{
    bounds_declared, bounds_written, declared_result, declared_variable, own_declaration,
    variable_type,
};
pub use handler_names::{CHANGE, is_handler_name};
pub use kept::{Kept, count_before, count_kept, first_locals, is_kept, sum};
pub use kinds::{gives_value, is_by_val, is_property, is_set, kind_of, takes_value};
pub use lists::{kept_declarations, module_variables};
pub use made::{class_in, made_by, made_in, made_through};
pub use new_words::has_new;
pub use not_yet::NotYet;
pub use numbers::procedure_number;
pub use parameters::{event_parameters, parameters_of};
pub use procedures::{bound_module, bound_procedure, copy_name};
pub use storage::own_storage;
pub use types::{arrayed, parameter_type, result_type};
pub use user_types::module_types;

// What stands below, for the crates above.
pub use constant_values;

//! Reading what stands at the front of tokens, and the parts of declarations: types, bounds, variables, constants,
//! parameters. Each call finds what the grammar (`vba_grammar`) finds there, and nothing where it finds nothing; its only
//! error is that memory runs out.
#![tactic(auto)]

mod access;
mod constants;
mod dims;
mod expected;
mod front;
mod halves;
mod parameters;
mod part;
mod types;
mod values;
mod variables;

pub use access::{access_of, skip_access};
pub use constants::{ConstantPart, read_constant, read_constants};
pub use dims::{DimPart, DimsPart, read_dim, read_dim_list, read_dims};
pub use expected::{Expected, is_expected};
pub use front::{
    begins_with, begins_with_word, ends, item_ends, read_name, read_place, read_token, read_word,
    skip_token, skip_word,
};
pub use parameters::{
    ParameterPart, ParametersPart, ResultTypePart, read_brackets, read_brackets_if, read_parameter,
    read_parameters, read_result_type,
};
pub use part::{Part, read_commas, read_commas_in_brackets, read_listed, read_part_if};
pub use types::{
    NewTypeClausePart, TypeClausePart, read_new_type_clause, read_type, read_type_clause,
    read_type_name,
};
pub use variables::{VariablePart, read_variable, read_variables};

//! What the parts of procedures, their headers and other declarations say: what they declare, the names of types and
//! labels, and the expressions.
#![tactic(auto)]

mod blocks;
mod declarations;
mod fields;
mod headers;
mod said;
mod simple;
mod statements;

pub use declarations::{push_constant, push_parameters, push_variable};
pub use fields::fields_of;
pub use headers::{push_fields, push_header};
pub use said::{Said, push_said};
pub use statements::push_part;

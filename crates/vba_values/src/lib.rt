//! Values, coercion and operators.
#![tactic(auto)]

mod arithmetic;
mod coercion;
mod comparison;
mod copy;
mod division;
mod fault;
mod held;
mod laws;
mod logic;
mod messages;
mod number_text;
mod numbers;
mod object;
mod operands;
mod operators;
mod references;
mod static_types;
mod text_sums;
mod texts;
mod types;
mod value;
mod whole;
mod words;

pub use coercion::{coerce, is_same_type};
pub use copy::{copy_type, copy_value};
pub use fault::{Bad, OutKind};
pub use held::{can_hold, coerce_owned};
pub use laws::coercion_gives_its_type;
pub use messages::message_of;
pub use numbers::{
    amount_result, amount_test, boolean_result, integer_result, long_result, long_test,
};
pub use object::{HostRef, ObjId, ObjRef};
pub use operators::{binary, unary};
pub use references::{add_references, is_same_object};
pub use static_types::static_type;
pub use text_sums::append;
pub use texts::text_of;
pub use types::{Compare, OpKind, VType, WholeKind};
pub use value::{ArrayValue, Bound, UdtValue, Value};

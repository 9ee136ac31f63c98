//! Trees of expressions, and the reader that finds them at the front of tokens.
#![tactic(auto)]

mod expression;
mod frame;
mod laws;
mod node;
mod operator;
mod part;
mod reader;
mod spelling;
mod stack;
mod step;
mod tree;

pub use expression::{Arguments, Expression};
pub use laws::{
    arguments_are_read, expressions_are_read, expressions_are_unique, expressions_stand_there,
};
pub use node::ExpressionNode;
pub use operator::{BinaryOperator, UnaryOperator};
pub use reader::{read_arguments, read_expression, read_primary};
pub use spelling::{push_arguments, push_tokens};
pub use tree::{Literal, LiteralValue, TypeName, TypeQualifier};

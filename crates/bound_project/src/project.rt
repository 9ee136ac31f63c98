use crate::declarations::Declarations;
use crate::node::Node;
use crate::statement::StatementNode;
use vba_values::Value;

/// A block by the numbers of its statements: its header, its further arms, its last line where that is a statement,
/// and what stands behind.
#[derive(Drop)]
pub struct Block {
    pub opening: u32,
    pub arms: Vec<u32>,
    pub closing: Option<u32>,
    pub behind: u32,
}

/// The body of a procedure: its statements in text order, and the nodes of all their expressions.
#[derive(Drop)]
pub struct Body {
    pub nodes: Vec<Node>,
    pub statements: Vec<StatementNode>,
    pub blocks: Vec<Block>,
}

/// A project whose names are replaced by what they stand for, and whose constants by their values.
#[derive(Drop)]
pub struct Project {
    pub declared: Declarations,
    /// The values of constants and the orders of named arguments, which nodes name by their numbers.
    pub constants: Vec<Value>,
    pub orders: Vec<Vec<u32>>,
    pub bodies: Vec<Body>,
    pub startup: u32,
}

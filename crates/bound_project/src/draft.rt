ghost use Rattle.bound_project.specs.Drafts.{Kept, kept_prop, tables_in};

use crate::declarations::Declarations;
use crate::declared_type::DeclaredType;
use crate::node::{Node, NodeKind};
use crate::project::{Block, Body, Project};
use crate::statement::{ActionKind, StatementNode};
use crate::too_long::TooLong;
use std::alloc::Global;
use std::mem;
use vba_base::{NoMemory, OrMemory, Place};
use vba_values::Value;

/// A project while it is bound: the constants and orders that nodes name, the nodes of the statement that is being
/// read, the body that is being read, and the bodies that were read. What it stands for is plain: pieces, statements
/// and bodies; growing tables change none of them.
#[derive(Drop)]
pub struct Draft {
    constants: Vec<Value>,
    orders: Vec<Vec<u32>>,
    scratch: Vec<Node>,
    nodes: Vec<Node>,
    statements: Vec<StatementNode>,
    bodies: Vec<Body>,
    ghost kept: { Kept (tables_in constants.items orders.items) scratch.items nodes.items statements.items bodies.items } by { kept_prop (tables_in constants.items orders.items) scratch.items nodes.items statements.items bodies.items },
}

impl Draft {
    ghost use Rattle.std.specs.Prelude.{◌≡◌, [], ◌∷◌, ◌++◌, length, map, IfOk, IsSome};
    ghost use Rattle.vba_values.specs.View.{view as value_view};
    ghost use Rattle.bound_project.specs.View.{declarations_view, declared_view};
    ghost use Rattle.bound_project.specs.Expressions.{constant, expr};
    ghost use Rattle.bound_project.specs.Pieces.{an_expr, name_in, order_in, put};
    ghost use Rattle.bound_project.specs.Bodies.{Fits, action_of, block_view, project_view};
    ghost use Rattle.bound_project.specs.Drafts.{ActionNamed, NodeNamed, no_tables, statement_of, with_constant, with_order};
    ghost use Rattle.bound_project.specs.DraftView.{draft_view};

    pub fn new(alloc: Global) -> Draft
        ensures { draft_view result ≡ record { tables = no_tables; pieces = []; statements = []; bodies = [] } }
    {
        Draft {
            constants: Vec::new(alloc),
            orders: Vec::new(alloc),
            scratch: Vec::new(alloc),
            nodes: Vec::new(alloc),
            statements: Vec::new(alloc),
            bodies: Vec::new(alloc),
        }
    }

    /// The number by which nodes name a constant.
    pub fn add_constant(&mut self, value: Value) -> Result<u32, OrMemory<TooLong>>
        ensures number { IfOk result (λ number. number ≡ length (draft_view self.old).tables.constants) }
        ensures draft { IfOk result (λ _. draft_view self.new ≡ record (draft_view self.old) { tables = with_constant (draft_view self.old).tables (value_view value) }) }
    {
        let Ok(number) = u32::try_from(self.constants.len()) else {
            return Err(OrMemory::Fault(TooLong));
        };
        self.constants.push(value)?;
        Ok(number)
    }

    /// The number by which nodes and statements name an order of arguments, or of the constants that are their names.
    pub fn add_order(&mut self, order: Vec<u32>) -> Result<u32, OrMemory<TooLong>>
        ensures number { IfOk result (λ number. number ≡ length (draft_view self.old).tables.orders) }
        ensures draft { IfOk result (λ _. draft_view self.new ≡ record (draft_view self.old) { tables = with_order (draft_view self.old).tables order.items }) }
    {
        let Ok(number) = u32::try_from(self.orders.len()) else {
            return Err(OrMemory::Fault(TooLong));
        };
        self.orders.push(order)?;
        Ok(number)
    }

    /// The name that a constant is, which is a text, or no units where there is none with that number.
    pub fn name(&self, number: u32) -> &[u16]
        ensures { result.now ≡ name_in (draft_view self.now).tables number }
    {
        let Some(Value::Text(text)) = self.constants.get(number as usize) else {
            return &[];
        };
        text.units()
    }

    /// An order of arguments or of names, or none of them where there is no order with that number.
    pub fn order(&self, number: u32) -> &[u32]
        ensures { result.now ≡ order_in (draft_view self.now).tables number }
    {
        match self.orders.get(number as usize) {
            Some(order) => order.as_slice(),
            None => &[],
        }
    }

    /// One more node of the statement that is being read.
    pub fn push(&mut self, node: Node) -> Result<(), NoMemory>
        requires { NodeNamed (draft_view self.old).tables node.kind }
        ensures { IfOk result (λ _. draft_view self.new ≡ record (draft_view self.old) { pieces = put (draft_view self.old).tables node (draft_view self.old).pieces }) }
    {
        self.scratch.push(node)?;
        Ok(())
    }

    /// A constant as one more node: where it stands, its type, and the type that it has as an operand.
    pub fn push_constant(
        &mut self,
        value: Value,
        place: Place,
        of: DeclaredType,
        operand: DeclaredType,
    ) -> Result<(), OrMemory<TooLong>>
        ensures { IfOk result (λ _. draft_view self.new ≡ record (draft_view self.old) {
          tables = with_constant (draft_view self.old).tables (value_view value);
          pieces = an_expr (expr (constant (value_view value)) place (declared_view of) (declared_view operand)) ∷ (draft_view self.old).pieces;
        }) }
    {
        let constant = self.add_constant(value)?;
        self.push(Node {
            kind: NodeKind::Constant { constant },
            place,
            of,
            operand,
        })?;
        Ok(())
    }

    /// Ends a statement: it does `action` with the pieces of its nodes, which fit.
    pub fn add(
        &mut self,
        action: ActionKind,
        place: Place,
        next: u32,
    ) -> Result<(), OrMemory<TooLong>>
        requires named { ActionNamed (draft_view self.old).tables action }
        requires fit { IsSome (action_of (draft_view self.old).tables action (draft_view self.old).pieces) }
        ensures { IfOk result (λ _. draft_view self.new ≡ record (draft_view self.old) {
          pieces = [];
          statements = (draft_view self.old).statements ++ statement_of (draft_view self.old).tables action (draft_view self.old).pieces place next ∷ [];
        }) }
    {
        let Ok(first_node) = u32::try_from(self.nodes.len()) else {
            return Err(OrMemory::Fault(TooLong));
        };
        let Ok(nodes) = u32::try_from(self.scratch.len()) else {
            return Err(OrMemory::Fault(TooLong));
        };
        self.nodes.extend_from_slice(&self.scratch)?;
        self.statements.push(StatementNode {
            action,
            first_node,
            nodes,
            place,
            next,
        })?;
        self.scratch.clear();
        Ok(())
    }

    /// Ends the body that is being read.
    pub fn end_body(&mut self, alloc: Global, blocks: Vec<Block>) -> Result<(), NoMemory>
        ensures { IfOk result (λ _. draft_view self.new ≡ record (draft_view self.old) {
          statements = [];
          bodies = (draft_view self.old).bodies ++ record { statements = (draft_view self.old).statements; blocks = map block_view blocks.items } ∷ [];
        }) }
    {
        let nodes = mem::replace(&mut self.nodes, Vec::new(alloc));
        let statements = mem::replace(&mut self.statements, Vec::new(alloc));
        self.bodies.push(Body {
            nodes,
            statements,
            blocks,
        })?;
        Ok(())
    }

    /// The project of the bodies that were read.
    pub fn finish(self, declared: Declarations, startup: u32) -> Project
        ensures fits { Fits result }
        ensures project { project_view result ≡ record { declared = declarations_view declared; bodies = (draft_view self).bodies; startup = startup } }
    {
        let Draft {
            constants,
            orders,
            scratch: _scratch,
            nodes: _nodes,
            statements: _statements,
            bodies,
        } = self;
        Project {
            declared,
            constants,
            orders,
            bodies,
            startup,
        }
    }
}

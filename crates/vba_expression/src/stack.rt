ghost use Rattle.std.specs.Prelude.{◌≡◌, ℕ, List, ◌<◌, [], ◌∷◌, ◌++◌, OnOk};
ghost use Rattle.vba_expression.specs.Fitting.{unary_level, binary_level};
ghost use Rattle.vba_expression.specs.Reader.{have, room, reduce, stays_open, operation, settled};
ghost use Rattle.vba_expression.specs.Nodes.{Item, items_of, behind_node, last_tree, rest};
ghost use Rattle.vba_expression.specs.Seen.{waiting, behind_operation};

use crate::frame::Frame;
use crate::node::ExpressionNode;
use crate::operator::{BinaryOperator, UnaryOperator};
use vba_base::NoMemory;

/// The level of a unary operator.
pub fn unary_level(operator: UnaryOperator) -> u32
    ensures value { result ≡ unary_level operator }
    ensures small { result < 15 }
{
    match operator {
        UnaryOperator::Minus => 2,
        UnaryOperator::Not => 9,
    }
}

/// The level of a binary operator, the tightest 1.
pub fn binary_level(operator: BinaryOperator) -> u32
    ensures { result ≡ binary_level operator }
{
    match operator {
        BinaryOperator::Power => 1,
        BinaryOperator::Multiply | BinaryOperator::Divide => 3,
        BinaryOperator::IntegerDivide => 4,
        BinaryOperator::Modulo => 5,
        BinaryOperator::Add | BinaryOperator::Subtract => 6,
        BinaryOperator::Join => 7,
        BinaryOperator::Equal
        | BinaryOperator::NotEqual
        | BinaryOperator::Less
        | BinaryOperator::Greater
        | BinaryOperator::LessEqual
        | BinaryOperator::GreaterEqual
        | BinaryOperator::Is => 8,
        BinaryOperator::And => 10,
        BinaryOperator::Or => 11,
        BinaryOperator::Xor => 12,
        BinaryOperator::Eqv => 13,
        BinaryOperator::Imp => 14,
    }
}

/// An operand there has a level below this one.
pub fn room_of(frames: &Vec<Frame>) -> u32
    ensures { (items : List Item) → result ≡ room (waiting frames.now.items items) }
{
    match frames.last() {
        Some(Frame::Whole(limit)) => *limit,
        Some(Frame::RightOperand { operator, .. }) => binary_level(*operator),
        Some(Frame::UnaryOperand { operator, .. }) => unary_level(*operator) + 1,
        Some(Frame::TypeOfOperand(_)) => 1,
        _ => 15,
    }
}

/// Writes one more node.
#[tactic(auto, using(crate::proofs::Nodes::items_push))]
pub fn push_node(nodes: &mut Vec<ExpressionNode>, node: ExpressionNode) -> Result<(), NoMemory>
    ensures { OnOk result (items_of nodes.new.items ≡ behind_node node (items_of nodes.old.items)) }
{
    Ok(nodes.push(node)?)
}

/// Puts a frame on top.
pub fn push_frame(frames: &mut Vec<Frame>, frame: Frame) -> Result<(), NoMemory>
    ensures { OnOk result (frames.new.items ≡ frames.old.items ++ frame ∷ []) }
{
    Ok(frames.push(frame)?)
}

/// Ends the operands of operators that are as tight as this level or tighter.
#[tactic(auto, using(crate::proofs::Reducing::settled_again))]
pub fn reduce(
    level: u32,
    nodes: &mut Vec<ExpressionNode>,
    frames: &mut Vec<Frame>,
) -> Result<(), NoMemory>
    ensures reduced { OnOk result ((last_tree (items_of nodes.new.items), waiting frames.new.items (rest (items_of nodes.new.items)))
        ≡ reduce level (last_tree (items_of nodes.old.items)) (waiting frames.old.items (rest (items_of nodes.old.items)))) }
    ensures ends { OnOk result (settled (have (last_tree (items_of nodes.new.items)) (waiting frames.new.items (rest (items_of nodes.new.items))))
        ≡ settled (have (last_tree (items_of nodes.old.items)) (waiting frames.old.items (rest (items_of nodes.old.items))))) }
{
    ended(level, nodes, frames)
}

#[tactic(auto, using(crate::proofs::Reducing::reduce_stays, crate::proofs::Reducing::reduce_ends))]
fn ended(
    level: u32,
    nodes: &mut Vec<ExpressionNode>,
    frames: &mut Vec<Frame>,
) -> Result<(), NoMemory>
    ensures { OnOk result ((last_tree (items_of nodes.new.items), waiting frames.new.items (rest (items_of nodes.new.items)))
        ≡ reduce level (last_tree (items_of nodes.old.items)) (waiting frames.old.items (rest (items_of nodes.old.items)))) }
{
    'reducing: while !stays_open(level, frames) {
        let Some(frame) = frames.pop() else {
            return Ok(());
        };
        push_operation(nodes, frame)?;
    }
    Ok(())
}

/// Does the operand on top go on at an operator of this level? Then no operator waits for it that is as tight or tighter.
fn stays_open(level: u32, frames: &Vec<Frame>) -> bool
    ensures { (items : List Item) → result ≡ stays_open level (waiting frames.now.items items) }
{
    match frames.last() {
        Some(Frame::RightOperand { operator, .. }) => level < binary_level(*operator),
        Some(Frame::UnaryOperand { operator, .. }) => level < unary_level(*operator) + 1,
        _ => true,
    }
}

/// Writes the operation that waits in a frame, behind its last operand.
fn push_operation(nodes: &mut Vec<ExpressionNode>, frame: Frame) -> Result<(), NoMemory>
    ensures { OnOk result (items_of nodes.new.items ≡ behind_operation frame (items_of nodes.old.items)) }
{
    match frame {
        Frame::RightOperand { operator, token } => {
            push_node(nodes, ExpressionNode::Binary { operator, token })
        }
        Frame::UnaryOperand { operator, token } => {
            push_node(nodes, ExpressionNode::Unary { operator, token })
        }
        _ => Ok(()),
    }
}

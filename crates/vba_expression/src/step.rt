ghost use Rattle.std.specs.Prelude.{◌≡◌, IfOk, OnOk, Some, [], ◌∷◌, ◌++◌};
ghost use Rattle.vba_expression.specs.declared.frame.Frame.TheVariants as waiting_frames;
ghost use Rattle.vba_expression.specs.declared.frame.Mode.TheVariants as modes;
ghost use Rattle.vba_expression.specs.declared.frame.Stepped.TheVariants as steps;
ghost use Rattle.vba_expression.specs.Nodes.{items_of, behind_node, last_tree, last_arguments, rest};
ghost use Rattle.vba_expression.specs.Parts.{part_of as part_meant};
ghost use Rattle.vba_expression.specs.Reader.{want, have, name_in, name_of, plain_name_of, argument, type_of_operand, operated, with_operator, operating, next_argument, closed, last_missing};
ghost use Rattle.vba_expression.specs.declared.part.Part.TheVariants as parts;
ghost use Rattle.vba_expression.specs.Seen.{waiting, state, without_name, Does, Comes};

use crate::frame::{Frame, Head, Mode, Stepped};
use crate::node::ExpressionNode;
use crate::operator::{BinaryOperator, UnaryOperator};
use crate::part::{Part, part_of};
use crate::stack::{binary_level, push_frame, push_node, reduce, room_of, unary_level};
use crate::tree::Literal;
use std::alloc::Global;
use vba_base::NoMemory;
use vba_lexer::Token;
use vba_words::{Identifier, ReadToken};

/// What a token does, if it can be read.
pub fn step(
    alloc: Global,
    mode: Mode,
    nodes: &mut Vec<ExpressionNode>,
    frames: &mut Vec<Frame>,
    token: &ReadToken,
) -> Result<Stepped, NoMemory>
    ensures { IfOk result (λ s. Does (state mode frames.old.items (items_of nodes.old.items)) token.now.token (part_meant token.now)
        frames.new.items (items_of nodes.new.items) s) }
{
    let part = part_of(alloc, token)?;
    match mode {
        Mode::Want => at_operand(nodes, frames, token.token, part),
        Mode::Have => behind_primary(nodes, frames, token.token, part),
        Mode::Dotted(dot) => match name_of(part) {
            Some(member) => on_primary(nodes, ExpressionNode::Member { dot, member }),
            None => Ok(Stepped::End(mode)),
        },
        Mode::WithDotted(dot) => match name_of(part) {
            Some(member) => on_primary(nodes, ExpressionNode::WithMember { dot, member }),
            None => Ok(Stepped::End(mode)),
        },
        Mode::NewWanted(new_word) => match plain_name_of(part) {
            Some(class) => on_primary(nodes, ExpressionNode::New { new_word, class }),
            None => Ok(Stepped::End(mode)),
        },
        Mode::ClassWanted {
            type_of_word,
            is_word,
        } => match plain_name_of(part) {
            Some(class) => on_primary(
                nodes,
                ExpressionNode::TypeOf {
                    type_of_word,
                    is_word,
                    class,
                },
            ),
            None => Ok(Stepped::End(mode)),
        },
    }
}

/// The name that a part is.
fn name_of(part: Part) -> Option<Identifier>
    ensures { result ≡ name_of part }
{
    match part {
        Part::Name(name) => Some(name),
        _ => None,
    }
}

/// The name that a part is, if it has no suffix.
fn plain_name_of(part: Part) -> Option<Identifier>
    ensures { result ≡ plain_name_of part }
{
    let Part::Name(name) = part else {
        return None;
    };
    match name.suffix {
        None => Some(name),
        Some(_) => None,
    }
}

/// Where an operand is wanted.
fn at_operand(
    nodes: &mut Vec<ExpressionNode>,
    frames: &mut Vec<Frame>,
    token: Token,
    part: Part,
) -> Result<Stepped, NoMemory>
    ensures { IfOk result (λ s. Does (want (waiting frames.old.items (items_of nodes.old.items))) token part
        frames.new.items (items_of nodes.new.items) s) }
{
    match part {
        Part::Literal(value) => {
            on_primary(nodes, ExpressionNode::Literal(Literal { token, value }))
        }
        Part::Name(name) => on_primary(nodes, ExpressionNode::Name(name)),
        Part::Me => on_primary(nodes, ExpressionNode::Me(token)),
        Part::New => Ok(Stepped::On(Mode::NewWanted(token))),
        Part::TypeOf => wanting(frames, Frame::TypeOfOperand(token)),
        Part::Not => at_unary(nodes, frames, UnaryOperator::Not, token),
        Part::Operator(operator) => at_sign(nodes, frames, operator, token),
        Part::LeftParenthesis => wanting(frames, Frame::Inner(token)),
        Part::RightParenthesis => at_early_close(nodes, frames, token),
        Part::Comma => at_early_comma(nodes, frames, token),
        Part::WithDot => Ok(Stepped::On(Mode::WithDotted(token))),
        Part::Dot | Part::ColonEqual | Part::Outside => Ok(Stepped::End(Mode::Want)),
    }
}

/// A primary was read, up to this node.
fn on_primary(nodes: &mut Vec<ExpressionNode>, node: ExpressionNode) -> Result<Stepped, NoMemory>
    ensures has { IfOk result (λ s. s ≡ steps.On modes.Have) }
    ensures pushed { IfOk result (λ _. items_of nodes.new.items ≡ behind_node node (items_of nodes.old.items)) }
{
    push_node(nodes, node)?;
    Ok(Stepped::On(Mode::Have))
}

/// An operand is wanted in a frame.
fn wanting(frames: &mut Vec<Frame>, frame: Frame) -> Result<Stepped, NoMemory>
    ensures wants { IfOk result (λ s. s ≡ steps.On modes.Want) }
    ensures pushed { IfOk result (λ s. frames.new.items ≡ frames.old.items ++ frame ∷ []) }
{
    push_frame(frames, frame)?;
    Ok(Stepped::On(Mode::Want))
}

/// An operator before the operand that is wanted: only minus may stand there.
fn at_sign(
    nodes: &Vec<ExpressionNode>,
    frames: &mut Vec<Frame>,
    operator: BinaryOperator,
    token: Token,
) -> Result<Stepped, NoMemory>
    ensures { IfOk result (λ s. Does (want (waiting frames.old.items (items_of nodes.now.items))) token (parts.Operator operator)
        frames.new.items (items_of nodes.now.items) s) }
{
    match operator {
        BinaryOperator::Subtract => at_unary(nodes, frames, UnaryOperator::Minus, token),
        _ => Ok(Stepped::End(Mode::Want)),
    }
}

/// A unary operator before the operand that is wanted.
fn at_unary(
    nodes: &Vec<ExpressionNode>,
    frames: &mut Vec<Frame>,
    operator: UnaryOperator,
    token: Token,
) -> Result<Stepped, NoMemory>
    ensures { IfOk result (λ s. Comes (operating (waiting frames.old.items (items_of nodes.now.items)) operator token)
        (want (waiting frames.old.items (items_of nodes.now.items))) frames.new.items (items_of nodes.now.items) s) }
{
    if unary_level(operator) < room_of(frames) {
        wanting(frames, Frame::UnaryOperand { operator, token })
    } else {
        Ok(Stepped::End(Mode::Want))
    }
}

/// `)` where an argument may stand.
fn at_early_close(
    nodes: &mut Vec<ExpressionNode>,
    frames: &mut Vec<Frame>,
    right: Token,
) -> Result<Stepped, NoMemory>
    ensures { IfOk result (λ s. Does (want (waiting frames.old.items (items_of nodes.old.items))) right parts.RightParenthesis
        frames.new.items (items_of nodes.new.items) s) }
{
    match frames.pop() {
        Some(
            Frame::Argument {
                head: Head::Behind(left),
                comma,
            },
        ) => {
            push_last_missing(nodes, comma)?;
            on_primary(nodes, ExpressionNode::Index { left, right })
        }
        Some(other) => {
            push_frame(frames, other)?;
            Ok(Stepped::End(Mode::Want))
        }
        None => Ok(Stepped::End(Mode::Want)),
    }
}

/// The arguments behind the last comma: where nothing stands behind it, one that isn't written.
pub fn push_last_missing(
    nodes: &mut Vec<ExpressionNode>,
    comma: Option<Token>,
) -> Result<(), NoMemory>
    ensures last { OnOk result (last_arguments (items_of nodes.new.items) ≡ last_missing (last_arguments (items_of nodes.old.items)) comma) }
    ensures below { OnOk result (rest (items_of nodes.new.items) ≡ rest (items_of nodes.old.items)) }
{
    match comma {
        None => Ok(()),
        Some(_) => push_node(nodes, ExpressionNode::MissingArgument { comma }),
    }
}

/// A comma where an argument may stand.
fn at_early_comma(
    nodes: &mut Vec<ExpressionNode>,
    frames: &mut Vec<Frame>,
    token: Token,
) -> Result<Stepped, NoMemory>
    ensures { IfOk result (λ s. Does (want (waiting frames.old.items (items_of nodes.old.items))) token parts.Comma
        frames.new.items (items_of nodes.new.items) s) }
{
    match frames.pop() {
        Some(Frame::Argument { head, comma }) => {
            push_node(nodes, ExpressionNode::MissingArgument { comma })?;
            wanting_next(frames, head, token)
        }
        Some(other) => {
            push_frame(frames, other)?;
            Ok(Stepped::End(Mode::Want))
        }
        None => Ok(Stepped::End(Mode::Want)),
    }
}

/// One more argument is wanted, behind a comma.
fn wanting_next(frames: &mut Vec<Frame>, head: Head, comma: Token) -> Result<Stepped, NoMemory>
    ensures wants { IfOk result (λ s. s ≡ steps.On modes.Want) }
    ensures pushed { IfOk result (λ s. frames.new.items ≡ frames.old.items ++ waiting_frames.Argument head (Some comma) ∷ []) }
{
    wanting(
        frames,
        Frame::Argument {
            head,
            comma: Some(comma),
        },
    )
}

/// Behind a primary.
fn behind_primary(
    nodes: &mut Vec<ExpressionNode>,
    frames: &mut Vec<Frame>,
    token: Token,
    part: Part,
) -> Result<Stepped, NoMemory>
    ensures { IfOk result (λ s. Does (have (last_tree (items_of nodes.old.items)) (waiting frames.old.items (rest (items_of nodes.old.items)))) token part
        frames.new.items (items_of nodes.new.items) s) }
{
    match part {
        Part::Operator(operator) => at_binary(nodes, frames, operator, token),
        Part::LeftParenthesis => {
            push_node(nodes, ExpressionNode::NoArguments)?;
            wanting(
                frames,
                Frame::Argument {
                    head: Head::Behind(token),
                    comma: None,
                },
            )
        }
        Part::Dot => Ok(Stepped::On(Mode::Dotted(token))),
        Part::Comma => at_comma(nodes, frames, token),
        Part::RightParenthesis => at_close(nodes, frames, token),
        Part::ColonEqual => at_colon_equal(nodes, frames, token),
        Part::Literal(_)
        | Part::Name(_)
        | Part::Me
        | Part::New
        | Part::TypeOf
        | Part::Not
        | Part::WithDot
        | Part::Outside => Ok(Stepped::End(Mode::Have)),
    }
}

/// A binary operator behind the operand that it ends; the Is of TypeOf is no operator.
fn at_binary(
    nodes: &mut Vec<ExpressionNode>,
    frames: &mut Vec<Frame>,
    operator: BinaryOperator,
    token: Token,
) -> Result<Stepped, NoMemory>
    ensures { IfOk result (λ s. Does (have (last_tree (items_of nodes.old.items)) (waiting frames.old.items (rest (items_of nodes.old.items)))) token (parts.Operator operator)
        frames.new.items (items_of nodes.new.items) s) }
{
    reduce(binary_level(operator), nodes, frames)?;
    match frames.pop() {
        Some(Frame::TypeOfOperand(type_of_word)) => {
            behind_type_of(nodes, frames, type_of_word, operator, token)
        }
        Some(other) => {
            push_frame(frames, other)?;
            at_operator(nodes, frames, operator, token)
        }
        None => at_operator(nodes, frames, operator, token),
    }
}

/// A binary operator behind the operand of `TypeOf`: its `Is`, or an operator.
fn behind_type_of(
    nodes: &Vec<ExpressionNode>,
    frames: &mut Vec<Frame>,
    type_of_word: Token,
    operator: BinaryOperator,
    token: Token,
) -> Result<Stepped, NoMemory>
    ensures { IfOk result (λ s. Comes (operated (last_tree (items_of nodes.now.items)) (type_of_operand type_of_word ∷ waiting frames.old.items (rest (items_of nodes.now.items))) operator token)
        (have (last_tree (items_of nodes.now.items)) (type_of_operand type_of_word ∷ waiting frames.old.items (rest (items_of nodes.now.items))))
        frames.new.items (items_of nodes.now.items) s) }
{
    match operator {
        BinaryOperator::Is => Ok(Stepped::On(Mode::ClassWanted {
            type_of_word,
            is_word: token,
        })),
        _ => {
            push_frame(frames, Frame::TypeOfOperand(type_of_word))?;
            at_operator(nodes, frames, operator, token)
        }
    }
}

/// An operator behind its left operand, where it may stand.
fn at_operator(
    nodes: &Vec<ExpressionNode>,
    frames: &mut Vec<Frame>,
    operator: BinaryOperator,
    token: Token,
) -> Result<Stepped, NoMemory>
    ensures { IfOk result (λ s. Comes (with_operator (last_tree (items_of nodes.now.items)) (waiting frames.old.items (rest (items_of nodes.now.items))) operator token)
        (have (last_tree (items_of nodes.now.items)) (waiting frames.old.items (rest (items_of nodes.now.items))))
        frames.new.items (items_of nodes.now.items) s) }
{
    if binary_level(operator) < room_of(frames) {
        wanting(frames, Frame::RightOperand { operator, token })
    } else {
        Ok(Stepped::End(Mode::Have))
    }
}

/// A comma behind an operand.
#[tactic(auto, using(crate::proofs::Steps::comes_reduced))]
fn at_comma(
    nodes: &mut Vec<ExpressionNode>,
    frames: &mut Vec<Frame>,
    token: Token,
) -> Result<Stepped, NoMemory>
    ensures { IfOk result (λ s. Does (have (last_tree (items_of nodes.old.items)) (waiting frames.old.items (rest (items_of nodes.old.items)))) token parts.Comma
        frames.new.items (items_of nodes.new.items) s) }
{
    reduce(14, nodes, frames)?;
    next_argument(nodes, frames, token)
}

/// A comma behind an argument that is whole.
fn next_argument(
    nodes: &mut Vec<ExpressionNode>,
    frames: &mut Vec<Frame>,
    token: Token,
) -> Result<Stepped, NoMemory>
    ensures { IfOk result (λ s. Comes (next_argument (last_tree (items_of nodes.old.items)) (waiting frames.old.items (rest (items_of nodes.old.items))) token)
        (have (last_tree (items_of nodes.old.items)) (waiting frames.old.items (rest (items_of nodes.old.items))))
        frames.new.items (items_of nodes.new.items) s) }
{
    match frames.pop() {
        Some(Frame::Argument { head, comma }) => {
            push_node(nodes, ExpressionNode::PlainArgument { comma })?;
            wanting_next(frames, head, token)
        }
        Some(
            Frame::NamedArgument {
                head,
                comma,
                name,
                colon_equal,
            },
        ) => {
            let argument = ExpressionNode::NamedArgument {
                comma,
                name,
                colon_equal,
            };
            push_node(nodes, argument)?;
            wanting_next(frames, head, token)
        }
        Some(other) => {
            push_frame(frames, other)?;
            Ok(Stepped::End(Mode::Have))
        }
        None => Ok(Stepped::End(Mode::Have)),
    }
}

/// `)` behind an operand.
#[tactic(auto, using(crate::proofs::Steps::comes_reduced))]
fn at_close(
    nodes: &mut Vec<ExpressionNode>,
    frames: &mut Vec<Frame>,
    right: Token,
) -> Result<Stepped, NoMemory>
    ensures { IfOk result (λ s. Does (have (last_tree (items_of nodes.old.items)) (waiting frames.old.items (rest (items_of nodes.old.items)))) right parts.RightParenthesis
        frames.new.items (items_of nodes.new.items) s) }
{
    reduce(14, nodes, frames)?;
    closed(nodes, frames, right)
}

/// `)` behind an operand that is whole.
fn closed(
    nodes: &mut Vec<ExpressionNode>,
    frames: &mut Vec<Frame>,
    right: Token,
) -> Result<Stepped, NoMemory>
    ensures { IfOk result (λ s. Comes (closed (last_tree (items_of nodes.old.items)) (waiting frames.old.items (rest (items_of nodes.old.items))) right)
        (have (last_tree (items_of nodes.old.items)) (waiting frames.old.items (rest (items_of nodes.old.items))))
        frames.new.items (items_of nodes.new.items) s) }
{
    match frames.pop() {
        Some(Frame::Inner(left)) => {
            on_primary(nodes, ExpressionNode::Parenthesised { left, right })
        }
        Some(
            Frame::Argument {
                head: Head::Behind(left),
                comma,
            },
        ) => {
            push_node(nodes, ExpressionNode::PlainArgument { comma })?;
            on_primary(nodes, ExpressionNode::Index { left, right })
        }
        Some(
            Frame::NamedArgument {
                head: Head::Behind(left),
                comma,
                name,
                colon_equal,
            },
        ) => {
            let argument = ExpressionNode::NamedArgument {
                comma,
                name,
                colon_equal,
            };
            push_node(nodes, argument)?;
            on_primary(nodes, ExpressionNode::Index { left, right })
        }
        Some(other) => {
            push_frame(frames, other)?;
            Ok(Stepped::End(Mode::Have))
        }
        None => Ok(Stepped::End(Mode::Have)),
    }
}

/// `:=` behind a name that stands where an argument may stand.
fn at_colon_equal(
    nodes: &mut Vec<ExpressionNode>,
    frames: &mut Vec<Frame>,
    token: Token,
) -> Result<Stepped, NoMemory>
    ensures { IfOk result (λ s. Does (have (last_tree (items_of nodes.old.items)) (waiting frames.old.items (rest (items_of nodes.old.items)))) token parts.ColonEqual
        frames.new.items (items_of nodes.new.items) s) }
{
    match frames.pop() {
        Some(Frame::Argument { head, comma }) => {
            name_argument(nodes, frames, head, comma, token)
        }
        Some(other) => {
            push_frame(frames, other)?;
            Ok(Stepped::End(Mode::Have))
        }
        None => Ok(Stepped::End(Mode::Have)),
    }
}

/// `:=` behind an operand where an argument may stand.
#[tactic(auto, using(crate::proofs::Steps::names_nothing, crate::proofs::Steps::names))]
fn name_argument(
    nodes: &mut Vec<ExpressionNode>,
    frames: &mut Vec<Frame>,
    head: Head,
    comma: Option<Token>,
    colon_equal: Token,
) -> Result<Stepped, NoMemory>
    ensures { IfOk result (λ s. Does
        (have (last_tree (items_of nodes.old.items)) (waiting (frames.old.items ++ waiting_frames.Argument head comma ∷ []) (rest (items_of nodes.old.items))))
        colon_equal parts.ColonEqual frames.new.items (items_of nodes.new.items) s) }
{
    let Some(name) = pop_name(nodes)? else {
        push_frame(frames, Frame::Argument { head, comma })?;
        return Ok(Stepped::End(Mode::Have));
    };
    wanting(
        frames,
        Frame::NamedArgument {
            head,
            comma,
            name,
            colon_equal,
        },
    )
}

/// Takes the last node away, where that is a name.
#[tactic(auto, using(crate::proofs::Nodes::items_push, crate::proofs::Steps::no_name_behind))]
fn pop_name(nodes: &mut Vec<ExpressionNode>) -> Result<Option<Identifier>, NoMemory>
    ensures name { IfOk result (λ found. found ≡ name_in (last_tree (items_of nodes.old.items))) }
    ensures below { IfOk result (λ found. items_of nodes.new.items ≡ without_name found (items_of nodes.old.items)) }
{
    match nodes.pop() {
        Some(ExpressionNode::Name(name)) => Ok(Some(name)),
        Some(other) => {
            nodes.push(other)?;
            Ok(None)
        }
        None => Ok(None),
    }
}

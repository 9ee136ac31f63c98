ghost use Rattle.std.specs.Prelude.{◌≡◌, ◌<◌, ◌-◌, IfOk, option_map, length, take, List};
ghost use Rattle.vba_expression.specs.Tree.{Expr};
ghost use Rattle.vba_expression.specs.View.{view, arguments_view};
ghost use Rattle.vba_expression.specs.Tokens.{bare, tokens_of, tokens_of_arguments};
ghost use Rattle.vba_expression.specs.Nodes.{Item, items_of, tree_in, arguments_in, last_tree, rest};
ghost use Rattle.vba_expression.specs.Reader.{want, have, run, settled, finished, finished_arguments, expression_at, arguments_at};
ghost use Rattle.vba_expression.specs.Seen.{waiting, state, found_if};

use crate::expression::{Arguments, Expression};
use crate::frame::{Frame, Head, Mode, Stepped};
use crate::node::ExpressionNode;
use crate::stack::{push_node, reduce};
use crate::step::{push_last_missing, step};
use std::alloc::Global;
use vba_base::NoMemory;
use vba_lexer::Token;
use vba_words::ReadToken;

/// The expression at the front of tokens, as long as it can be, and the tokens behind it; none where no expression that
/// fits stands there. It takes time in proportion to the tokens that it reads, and no stack, however deep it nests.
pub fn read_expression(
    alloc: Global,
    tokens: &[ReadToken],
) -> Result<Option<(Expression, &[ReadToken])>, NoMemory>
    ensures { IfOk result (λ found. option_map (λ f. (view f.0, f.1.now)) found ≡ expression_at 15 tokens.now) }
{
    read_below(alloc, 15, tokens)
}

/// The primary at the front of tokens, as long as it can be, and the tokens behind it: a place or a value that no
/// operator stands in, but in brackets.
pub fn read_primary(
    alloc: Global,
    tokens: &[ReadToken],
) -> Result<Option<(Expression, &[ReadToken])>, NoMemory>
    ensures { IfOk result (λ found. option_map (λ f. (view f.0, f.1.now)) found ≡ expression_at 1 tokens.now) }
{
    read_below(alloc, 1, tokens)
}

/// The arguments of a call statement at the front of tokens, as many as there can be, and the tokens behind them.
#[tactic(auto, using(crate::proofs::Spelled::arguments_before))]
pub fn read_arguments(
    alloc: Global,
    tokens: &[ReadToken],
) -> Result<Option<(Arguments, &[ReadToken])>, NoMemory>
    ensures { IfOk result (λ found. option_map (λ f. (arguments_view f.0, f.1.now)) found ≡ arguments_at tokens.now) }
{
    let Some((nodes, rest)) = argument_nodes(alloc, tokens)? else {
        return Ok(None);
    };
    let arguments = Arguments {
        nodes,
        tokens: tokens_before(alloc, tokens, rest)?,
    };
    Ok(Some((arguments, rest)))
}

/// The expression below a level at the front of tokens.
#[tactic(auto, using(crate::proofs::Spelled::expression_before))]
fn read_below(
    alloc: Global,
    limit: u32,
    tokens: &[ReadToken],
) -> Result<Option<(Expression, &[ReadToken])>, NoMemory>
    requires { 0 < limit }
    ensures { IfOk result (λ found. option_map (λ f. (view f.0, f.1.now)) found ≡ expression_at limit tokens.now) }
{
    let Some((nodes, rest)) = expression_nodes(alloc, limit, tokens)? else {
        return Ok(None);
    };
    let expression = Expression {
        nodes,
        tokens: tokens_before(alloc, tokens, rest)?,
    };
    Ok(Some((expression, rest)))
}

/// The nodes of the expression below a level at the front of tokens.
fn expression_nodes(
    alloc: Global,
    limit: u32,
    tokens: &[ReadToken],
) -> Result<Option<(Vec<ExpressionNode>, &[ReadToken])>, NoMemory>
    ensures { IfOk result (λ found. option_map (λ f. (tree_in f.0.items, f.1.now)) found ≡ expression_at limit tokens.now) }
{
    let mut nodes = Vec::new(alloc);
    let mut frames = Vec::new(alloc);
    frames.push(Frame::Whole(limit))?;
    let (mode, rest) = read_on(alloc, &mut nodes, &mut frames, tokens)?;
    if is_finished(mode, &mut nodes, &mut frames)? {
        Ok(Some((nodes, rest)))
    } else {
        Ok(None)
    }
}

/// The nodes of the arguments of a call statement at the front of tokens.
fn argument_nodes(
    alloc: Global,
    tokens: &[ReadToken],
) -> Result<Option<(Vec<ExpressionNode>, &[ReadToken])>, NoMemory>
    ensures { IfOk result (λ found. option_map (λ f. (arguments_in f.0.items, f.1.now)) found ≡ arguments_at tokens.now) }
{
    let mut nodes = Vec::new(alloc);
    push_node(&mut nodes, ExpressionNode::NoArguments)?;
    let mut frames = Vec::new(alloc);
    frames.push(Frame::Argument {
        head: Head::Call,
        comma: None,
    })?;
    let (mode, rest) = read_on(alloc, &mut nodes, &mut frames, tokens)?;
    if are_finished(mode, &mut nodes, &mut frames)? {
        Ok(Some((nodes, rest)))
    } else {
        Ok(None)
    }
}

/// The tokens up to the rest.
fn tokens_before(
    alloc: Global,
    tokens: &[ReadToken],
    rest: &[ReadToken],
) -> Result<Vec<Token>, NoMemory>
    ensures { IfOk result (λ before. before.items ≡ bare (take (length tokens.now - length rest.now) tokens.now)) }
{
    let count = tokens.len().saturating_sub(rest.len());
    bare_tokens(alloc, &tokens[..count])
}

/// Tokens without what they are for the grammar.
#[tactic(auto, using(crate::proofs::Spelled::bare_more))]
fn bare_tokens(alloc: Global, tokens: &[ReadToken]) -> Result<Vec<Token>, NoMemory>
    ensures { IfOk result (λ all. all.items ≡ bare tokens.now) }
{
    let mut all = Vec::new(alloc);
    for token in tokens {
        all.push(token.token)?;
    }
    Ok(all)
}

/// Reads on where an operand is wanted, as far as tokens can be read.
fn read_on<'a>(
    alloc: Global,
    nodes: &mut Vec<ExpressionNode>,
    frames: &mut Vec<Frame>,
    tokens: &'a [ReadToken],
) -> Result<(Mode, &'a [ReadToken]), NoMemory>
    ensures read { IfOk result (λ r. settled (state r.0 frames.new.items (items_of nodes.new.items))
        ≡ settled (run (want (waiting frames.old.items (items_of nodes.old.items))) tokens.now).0) }
    ensures left { IfOk result (λ r. r.1.now ≡ (run (want (waiting frames.old.items (items_of nodes.old.items))) tokens.now).1) }
{
    let mut mode = Mode::Want;
    let mut left = tokens;
    'reading: while let [token, rest @ ..] = left {
        match step(alloc, mode, nodes, frames, token)? {
            Stepped::On(next) => {
                mode = next;
                left = rest;
            }
            Stepped::End(last) => return Ok((last, left)),
        }
    }
    Ok((mode, left))
}

/// Ends the operands that no bracket holds, and says whether the expression is whole then.
fn is_finished(
    mode: Mode,
    nodes: &mut Vec<ExpressionNode>,
    frames: &mut Vec<Frame>,
) -> Result<bool, NoMemory>
    ensures { IfOk result (λ is. found_if is (tree_in nodes.new.items) ≡ finished (settled (state mode frames.old.items (items_of nodes.old.items)))) }
{
    match mode {
        Mode::Have => {
            reduce(14, nodes, frames)?;
            Ok(is_whole(frames.as_slice()))
        }
        _ => Ok(false),
    }
}

/// Does nothing wait for an operand but the whole expression?
#[tactic(auto, using(crate::proofs::Ending::not_whole))]
fn is_whole(frames: &[Frame]) -> bool
    ensures { (e : Expr) (items : List Item) → found_if result e ≡ finished (have e (waiting frames.now items)) }
{
    matches!(frames, [Frame::Whole(_)])
}

/// Ends the last argument of a call statement, and says whether no other operand is waited for then.
fn are_finished(
    mode: Mode,
    nodes: &mut Vec<ExpressionNode>,
    frames: &mut Vec<Frame>,
) -> Result<bool, NoMemory>
    ensures { IfOk result (λ are. found_if are (arguments_in nodes.new.items) ≡ finished_arguments (settled (state mode frames.old.items (items_of nodes.old.items)))) }
{
    match mode {
        Mode::Have => {
            reduce(14, nodes, frames)?;
            push_last_argument(nodes, frames)
        }
        Mode::Want => push_last_comma(nodes, frames.as_slice()),
        _ => Ok(false),
    }
}

/// Writes the last argument of a call statement, where no other operand is waited for.
#[tactic(auto, using(crate::proofs::Ending::not_last))]
fn push_last_argument(
    nodes: &mut Vec<ExpressionNode>,
    frames: &mut Vec<Frame>,
) -> Result<bool, NoMemory>
    ensures { IfOk result (λ are. found_if are (arguments_in nodes.new.items)
        ≡ finished_arguments (have (last_tree (items_of nodes.old.items)) (waiting frames.old.items (rest (items_of nodes.old.items))))) }
{
    let Some(frame) = frames.pop() else {
        return Ok(false);
    };
    if !frames.is_empty() {
        return Ok(false);
    }
    match frame {
        Frame::Argument {
            head: Head::Call,
            comma,
        } => push_node(nodes, ExpressionNode::PlainArgument { comma })?,
        Frame::NamedArgument {
            head: Head::Call,
            comma,
            name,
            colon_equal,
        } => push_node(
            nodes,
            ExpressionNode::NamedArgument {
                comma,
                name,
                colon_equal,
            },
        )?,
        _ => return Ok(false),
    }
    Ok(true)
}

/// Ends the arguments of a call statement where one more is wanted, where no other operand is waited for.
#[tactic(auto, using(crate::proofs::Ending::not_wanted))]
fn push_last_comma(nodes: &mut Vec<ExpressionNode>, frames: &[Frame]) -> Result<bool, NoMemory>
    ensures { IfOk result (λ are. found_if are (arguments_in nodes.new.items)
        ≡ finished_arguments (want (waiting frames.now (items_of nodes.old.items)))) }
{
    match frames {
        [
            Frame::Argument {
                head: Head::Call,
                comma,
            },
        ] => {
            push_last_missing(nodes, *comma)?;
            Ok(true)
        }
        _ => Ok(false),
    }
}

//! Arguments of which the last one is written, and brackets round them.

ghost use Rattle.std.specs.Prelude.{◌≡◌, IfOk, MatchBool};
ghost use Rattle.statement_terms.specs.Heights.{GivesSome, brackets, is_argument};

use crate::trees::adds_one;
use std::alloc::Global;
use vba_base::{NoMemory, Place};
use vba_expression::ExpressionNode;
use vba_lexer::{Token, TokenKind};

/// Is a node an argument that is written?
fn is_argument(node: &ExpressionNode) -> bool
    ensures { result ≡ is_argument node.now }
{
    match node {
        ExpressionNode::PlainArgument { .. } => true,
        ExpressionNode::NamedArgument { .. } => true,
        _ => false,
    }
}

/// Are these nodes arguments, of which the last one is written?
pub fn gives_some(nodes: &[ExpressionNode]) -> bool
    ensures { MatchBool result (GivesSome nodes.now) (Unit {0}) }
{
    let Some((last, _front)) = nodes.split_last() else {
        return false;
    };
    if !is_argument(last) {
        return false;
    }
    adds_one(nodes)
}

/// Brackets round arguments, which are no nodes of a statement.
pub fn brackets(alloc: Global, place: Place) -> Result<Vec<ExpressionNode>, NoMemory>
    ensures { IfOk result (λ nodes. nodes.items ≡ brackets place) }
{
    let token = Token {
        kind: TokenKind::BadMark,
        start: 0,
        end: 0,
        place,
    };
    let mut nodes = Vec::new(alloc);
    nodes.push(ExpressionNode::Index {
        left: token,
        right: token,
    })?;
    Ok(nodes)
}

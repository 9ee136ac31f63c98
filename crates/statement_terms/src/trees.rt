//! Nodes of expressions: what stands before the last arguments in brackets, and what nodes leave.

ghost use Rattle.std.specs.Prelude.{◌≡◌, Some, MatchBool, IfSome};
ghost use Rattle.vba_expression.specs.Nodes.{tree_in};
ghost use Rattle.statement_terms.specs.Called.{IsBare, SplitAt};
ghost use Rattle.statement_terms.specs.Heights.{AddsOne, height_behind, items_taken};

use vba_expression::ExpressionNode;

/// Where the last arguments begin that stand in no others.
fn arguments_start(nodes: &[ExpressionNode]) -> usize {
    let mut start = 0;
    let mut depth: usize = 0;
    for (number, node) in nodes.iter().enumerate() {
        match node {
            ExpressionNode::NoArguments => {
                if depth == 0 {
                    start = number;
                }
                depth = depth.saturating_add(1);
            }
            ExpressionNode::Index { .. } => depth = depth.saturating_sub(1),
            _ => {}
        }
    }
    start
}

/// Nodes before arguments in brackets at the end, the nodes of those, and the same with their brackets.
#[derive(Clone, Copy)]
pub struct Split<'a> {
    pub target: &'a [ExpressionNode],
    pub arguments: &'a [ExpressionNode],
    pub closed: &'a [ExpressionNode],
}

/// Nodes that end with arguments in brackets.
pub fn split_call<'a>(nodes: &'a [ExpressionNode]) -> Option<Split<'a>>
    ensures { IfSome result (λ found. SplitAt found nodes.now) }
{
    let Some((target, closed)) = nodes.split_at_checked(arguments_start(nodes)) else {
        return None;
    };
    match closed.split_last() {
        Some((ExpressionNode::Index { .. }, arguments)) => Some(Split {
            target,
            arguments,
            closed,
        }),
        _ => None,
    }
}

/// Are these the nodes of a name, or of a dot and a name, behind something or at the front?
pub fn ends_bare(nodes: &[ExpressionNode]) -> bool
    ensures { MatchBool result (IsBare (tree_in nodes.now)) (Unit {0}) }
{
    match nodes.split_last() {
        Some((ExpressionNode::Name(_), _)) => true,
        Some((ExpressionNode::Member { .. }, _)) => true,
        Some((ExpressionNode::WithMember { .. }, _)) => true,
        Some((ExpressionNode::Me(_), _)) => true,
        _ => false,
    }
}

/// How many items stand there behind a node where so many did; none where it takes one below those.
fn height_behind(node: &ExpressionNode, height: usize) -> Option<usize>
    ensures { IfSome result (λ more. height_behind (items_taken node.now) height ≡ Some more) }
{
    match node {
        ExpressionNode::Literal(_)
        | ExpressionNode::Me(_)
        | ExpressionNode::Name(_)
        | ExpressionNode::WithMember { .. }
        | ExpressionNode::NoArguments
        | ExpressionNode::New { .. } => height.checked_add(1),
        ExpressionNode::PlainArgument { .. }
        | ExpressionNode::NamedArgument { .. }
        | ExpressionNode::Index { .. }
        | ExpressionNode::Binary { .. } => { if height < 2 { None } else { Some(height - 1) } }
        _ => { if height == 0 { None } else { Some(height) } }
    }
}

/// Do nodes leave one more item, and those below as they are?
pub fn adds_one(nodes: &[ExpressionNode]) -> bool
    ensures { MatchBool result (AddsOne nodes.now) (Unit {0}) }
{
    let mut height: usize = 0;
    for node in nodes {
        match height_behind(node, height) {
            Some(more) => height = more,
            None => return false,
        }
    }
    height == 1
}

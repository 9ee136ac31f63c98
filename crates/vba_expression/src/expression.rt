ghost use Rattle.std.specs.Prelude.{◌≡◌};
ghost use Rattle.vba_expression.specs.Tokens.{tokens_of, tokens_of_arguments};
ghost use Rattle.vba_expression.specs.Nodes.{tree_in, arguments_in};

use crate::node::ExpressionNode;
use vba_lexer::Token;

/// An expression: its nodes in the order in which they are evaluated, and its tokens in the order in which they are
/// written.
pub struct Expression {
    pub(crate) nodes: Vec<ExpressionNode>,
    pub(crate) tokens: Vec<Token>,
    ghost spelled: { tokens.items ≡ tokens_of (tree_in nodes.items) },
}

/// The arguments of a call statement, in the same form.
pub struct Arguments {
    pub(crate) nodes: Vec<ExpressionNode>,
    pub(crate) tokens: Vec<Token>,
    ghost spelled: { tokens.items ≡ tokens_of_arguments (arguments_in nodes.items) },
}

impl Drop for Expression {
    fn drop(self) {
        let Expression {
            nodes: _nodes,
            tokens: _tokens,
        } = self;
    }
}

impl Drop for Arguments {
    fn drop(self) {
        let Arguments {
            nodes: _nodes,
            tokens: _tokens,
        } = self;
    }
}

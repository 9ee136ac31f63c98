//! What is asked of expressions and arguments in place.

ghost use Rattle.std.specs.Prelude.{◌≡◌, ◌++◌, OnOk, option_map};
ghost use Rattle.vba_expression.specs.Reader.{name_in};
ghost use Rattle.vba_expression.specs.Fitting.{has_no_arguments};
ghost use Rattle.vba_expression.specs.Nodes.{tree_in, arguments_in, node_name, is_argument};
ghost use Rattle.vba_expression.specs.Tokens.{tokens_of, tokens_of_arguments};
ghost use Rattle.vba_expression.specs.View.{view, arguments_view};

use crate::expression::{Arguments, Expression};
use crate::node::ExpressionNode;
use vba_base::NoMemory;
use vba_lexer::Token;
use vba_words::Identifier;

/// Adds the tokens of an expression, in order.
pub fn push_tokens(tokens: &mut Vec<Token>, expression: &Expression) -> Result<(), NoMemory>
    ensures { OnOk result (tokens.new.items ≡ tokens.old.items ++ tokens_of (view expression.now)) }
{
    Ok(tokens.extend_from_slice(expression.tokens.as_slice())?)
}

/// Adds the tokens of arguments, in order.
pub fn push_arguments(tokens: &mut Vec<Token>, arguments: &Arguments) -> Result<(), NoMemory>
    ensures { OnOk result (tokens.new.items ≡ tokens.old.items ++ tokens_of_arguments (arguments_view arguments.now)) }
{
    Ok(tokens.extend_from_slice(arguments.tokens.as_slice())?)
}

impl Expression {
    /// Its tokens, in order.
    pub fn tokens(&self) -> &[Token]
        ensures { result.now ≡ tokens_of (view self.now) }
    {
        self.tokens.as_slice()
    }

    /// Its nodes, in the order in which they are evaluated.
    pub fn nodes(&self) -> &[ExpressionNode]
        ensures { tree_in result.now ≡ view self.now }
    {
        self.nodes.as_slice()
    }

    /// The name that it is.
    #[tactic(auto, using(crate::proofs::Steps::last_name, crate::proofs::Steps::no_name))]
    pub fn name(&self) -> Option<&Identifier>
        ensures { option_map (λ name. name.now) result ≡ name_in (view self.now) }
    {
        match self.nodes.last() {
            Some(node) => name_of(node),
            None => None,
        }
    }
}

/// The name that a node is.
fn name_of(node: &ExpressionNode) -> Option<&Identifier>
    ensures { option_map (λ name. name.now) result ≡ node_name node.now }
{
    match node {
        ExpressionNode::Name(name) => Some(name),
        _ => None,
    }
}

impl Arguments {
    /// Their nodes, in the order in which they are evaluated.
    pub fn nodes(&self) -> &[ExpressionNode]
        ensures { arguments_in result.now ≡ arguments_view self.now }
    {
        self.nodes.as_slice()
    }

    /// Are there none?
    #[tactic(auto, using(crate::proofs::Steps::last_argument, crate::proofs::Steps::no_argument))]
    pub fn is_empty(&self) -> bool
        ensures { result ≡ has_no_arguments (arguments_view self.now) }
    {
        match self.nodes.last() {
            Some(node) => !is_argument(node),
            None => true,
        }
    }
}

/// Does a node make one more argument?
fn is_argument(node: &ExpressionNode) -> bool
    ensures { result ≡ is_argument node.now }
{
    matches!(
        node,
        ExpressionNode::MissingArgument { .. }
            | ExpressionNode::PlainArgument { .. }
            | ExpressionNode::NamedArgument { .. }
    )
}

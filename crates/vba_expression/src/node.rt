use crate::operator::{BinaryOperator, UnaryOperator};
use crate::tree::Literal;
use vba_lexer::Token;
use vba_words::Identifier;

/// What an expression does with the operands and arguments before it. A place is a name, `Me` or a member of a With
/// block, or a member or an index of a place.
#[derive(Drop)]
pub enum ExpressionNode {
    Literal(Literal),
    Me(Token),
    Name(Identifier),
    /// `.member`, of the object or value of the With block round it.
    WithMember {
        dot: Token,
        member: Identifier,
    },
    /// `.member`, of the operand before it. Behind `New` or `TypeOf` with a type of one name, a member without a suffix
    /// belongs to the type.
    Member {
        dot: Token,
        member: Identifier,
    },
    /// Where arguments begin, as yet none.
    NoArguments,
    /// One more argument, which isn't written, with the comma before it, which all but the first have.
    MissingArgument {
        comma: Option<Token>,
    },
    /// One more argument, the operand before it.
    PlainArgument {
        comma: Option<Token>,
    },
    /// One more argument, `name :=` and the operand before it.
    NamedArgument {
        comma: Option<Token>,
        name: Identifier,
        colon_equal: Token,
    },
    /// `(arguments)` behind an operand: the operand and the arguments before it.
    Index {
        left: Token,
        right: Token,
    },
    /// The operand before it, in parentheses.
    Parenthesised {
        left: Token,
        right: Token,
    },
    /// `New class`
    New {
        new_word: Token,
        class: Identifier,
    },
    /// `TypeOf operand Is class`
    TypeOf {
        type_of_word: Token,
        is_word: Token,
        class: Identifier,
    },
    Unary {
        operator: UnaryOperator,
        token: Token,
    },
    Binary {
        operator: BinaryOperator,
        token: Token,
    },
}

use crate::operator::{BinaryOperator, UnaryOperator};
use vba_lexer::Token;
use vba_words::Identifier;

/// What arguments belong to.
#[derive(Clone, Copy)]
pub enum Head {
    /// A call statement.
    Call,
    /// The operand before their bracket, which is this token.
    Behind(Token),
}

/// What waits for an operand, by what the operand will be. The operands and arguments that wait too are the last nodes.
#[derive(Drop)]
pub enum Frame {
    /// The whole expression, below this level.
    Whole(u32),
    RightOperand {
        operator: BinaryOperator,
        token: Token,
    },
    UnaryOperand {
        operator: UnaryOperator,
        token: Token,
    },
    /// What stands in parentheses.
    Inner(Token),
    TypeOfOperand(Token),
    Argument {
        head: Head,
        comma: Option<Token>,
    },
    NamedArgument {
        head: Head,
        comma: Option<Token>,
        name: Identifier,
        colon_equal: Token,
    },
}

/// What was read, above the frames.
#[derive(Clone, Copy)]
pub enum Mode {
    /// An operand is wanted.
    Want,
    /// A primary was read.
    Have,
    /// And a dot behind it.
    Dotted(Token),
    /// A dot of a With block was read.
    WithDotted(Token),
    /// New was read.
    NewWanted(Token),
    /// TypeOf, its operand and Is were read.
    ClassWanted { type_of_word: Token, is_word: Token },
}

/// What a token did: the reader goes on, or it ends before the token.
#[derive(Clone, Copy)]
pub enum Stepped {
    On(Mode),
    End(Mode),
}

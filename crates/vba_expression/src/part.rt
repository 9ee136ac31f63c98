ghost use Rattle.std.specs.Prelude.{◌≡◌, IfOk, Some, None};
ghost use Rattle.vba_expression.specs.Parts.{part_of, keyword_part, mark_part};

use crate::operator::BinaryOperator;
use crate::tree::LiteralValue;
use std::alloc::Global;
use vba_base::{NoMemory, Units};
use vba_words::{Identifier, Keyword, Mark, ReadToken, Reading};

/// What a token is in an expression.
#[derive(Drop)]
pub enum Part {
    Literal(LiteralValue),
    Name(Identifier),
    Me,
    New,
    TypeOf,
    Not,
    /// An operator of two operands; `Subtract` is also the minus of one.
    Operator(BinaryOperator),
    LeftParenthesis,
    RightParenthesis,
    Comma,
    /// A dot that goes on with what stands before it.
    Dot,
    /// A dot that begins a member of a With block.
    WithDot,
    ColonEqual,
    /// A token that no expression has.
    Outside,
}

/// What a kept word is in an expression.
fn keyword_part(keyword: Keyword) -> Part
    ensures { result ≡ keyword_part keyword }
{
    match keyword {
        Keyword::True => Part::Literal(LiteralValue::True),
        Keyword::False => Part::Literal(LiteralValue::False),
        Keyword::Nothing => Part::Literal(LiteralValue::Nothing),
        Keyword::Null => Part::Literal(LiteralValue::Null),
        Keyword::Empty => Part::Literal(LiteralValue::Empty),
        Keyword::Me => Part::Me,
        Keyword::New => Part::New,
        Keyword::TypeOf => Part::TypeOf,
        Keyword::Not => Part::Not,
        Keyword::Mod => Part::Operator(BinaryOperator::Modulo),
        Keyword::Is => Part::Operator(BinaryOperator::Is),
        Keyword::And => Part::Operator(BinaryOperator::And),
        Keyword::Or => Part::Operator(BinaryOperator::Or),
        Keyword::Xor => Part::Operator(BinaryOperator::Xor),
        Keyword::Eqv => Part::Operator(BinaryOperator::Eqv),
        Keyword::Imp => Part::Operator(BinaryOperator::Imp),
        _ => Part::Outside,
    }
}

/// What a mark is in an expression.
fn mark_part(mark: Mark) -> Part
    ensures { result ≡ mark_part mark }
{
    match mark {
        Mark::Caret => Part::Operator(BinaryOperator::Power),
        Mark::Times => Part::Operator(BinaryOperator::Multiply),
        Mark::Slash => Part::Operator(BinaryOperator::Divide),
        Mark::Backslash => Part::Operator(BinaryOperator::IntegerDivide),
        Mark::Plus => Part::Operator(BinaryOperator::Add),
        Mark::Minus => Part::Operator(BinaryOperator::Subtract),
        Mark::Ampersand => Part::Operator(BinaryOperator::Join),
        Mark::Equal => Part::Operator(BinaryOperator::Equal),
        Mark::NotEqual => Part::Operator(BinaryOperator::NotEqual),
        Mark::Less => Part::Operator(BinaryOperator::Less),
        Mark::Greater => Part::Operator(BinaryOperator::Greater),
        Mark::LessEqual => Part::Operator(BinaryOperator::LessEqual),
        Mark::GreaterEqual => Part::Operator(BinaryOperator::GreaterEqual),
        Mark::LeftParenthesis => Part::LeftParenthesis,
        Mark::RightParenthesis => Part::RightParenthesis,
        Mark::Comma => Part::Comma,
        Mark::Dot => Part::Dot,
        Mark::WithDot => Part::WithDot,
        Mark::ColonEqual => Part::ColonEqual,
        _ => Part::Outside,
    }
}

/// What a token is in an expression. Names and texts are copied.
pub fn part_of(alloc: Global, token: &ReadToken) -> Result<Part, NoMemory>
    ensures { IfOk result (λ part. part ≡ part_of token.now) }
{
    match &token.reading {
        Reading::Keyword(keyword) => Ok(keyword_part(*keyword)),
        Reading::Name {
            name,
            suffix,
            is_bracketed,
        } => Ok(Part::Name(Identifier {
            token: token.token,
            name: name.copy(alloc)?,
            suffix: *suffix,
            is_bracketed: *is_bracketed,
        })),
        Reading::Number { number, is_plain } => Ok(Part::Literal(LiteralValue::Number {
            number: *number,
            is_plain: *is_plain,
        })),
        Reading::Text(text) => Ok(Part::Literal(LiteralValue::Text(Units::from_units(
            alloc,
            text.units(),
        )?))),
        Reading::Mark(mark) => Ok(mark_part(*mark)),
        Reading::Other => Ok(Part::Outside),
    }
}

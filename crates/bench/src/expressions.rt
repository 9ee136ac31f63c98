use crate::{micros_now, out_of_memory, tell};
use std::alloc::Global;
use std::io;
use std::time::CpuClock;
use vba_base::{NoMemory, Place};
use vba_expression::read_expression;
use vba_lexer::{Number, NumberKind, Token, TokenKind};
use vba_words::{Keyword, Mark, ReadToken, Reading};

/// The expressions that are read.
#[derive(Clone, Copy)]
enum Pattern {
    /// `1+1+1`, a tree that is deep on its left.
    Sum,
    /// `((1))`
    Parentheses,
    /// `Me(1,1)`, a list of arguments.
    Arguments,
}

impl Pattern {
    fn name(self) -> &'static str {
        match self {
            Pattern::Sum => "read a sum",
            Pattern::Parentheses => "read parentheses",
            Pattern::Arguments => "read arguments",
        }
    }

    // Before the first 1.
    fn push_front(self, tokens: &mut Vec<ReadToken>, pairs: u32) -> Result<(), NoMemory> {
        match self {
            Pattern::Sum => Ok(()),
            Pattern::Parentheses => push_marks(tokens, Mark::LeftParenthesis, pairs),
            Pattern::Arguments => {
                tokens.push(token_of(TokenKind::Word, Reading::Keyword(Keyword::Me)))?;
                push_marks(tokens, Mark::LeftParenthesis, 1)
            }
        }
    }

    // Behind the first 1.
    fn push_back(self, tokens: &mut Vec<ReadToken>, pairs: u32) -> Result<(), NoMemory> {
        match self {
            Pattern::Sum => push_ones(tokens, Mark::Plus, pairs),
            Pattern::Parentheses => push_marks(tokens, Mark::RightParenthesis, pairs),
            Pattern::Arguments => {
                push_ones(tokens, Mark::Comma, pairs)?;
                push_marks(tokens, Mark::RightParenthesis, 1)
            }
        }
    }
}

/// Reads expressions of so many tokens, or a few more, and of twice as many.
pub fn bench_expressions(rt: &(impl Print + CpuClock + AllocGlobal), size: u32) -> io::Result<()> {
    for pattern in [Pattern::Sum, Pattern::Parentheses, Pattern::Arguments] {
        let once = time_reading(rt, pattern, size / 2)?;
        let twice = time_reading(rt, pattern, size)?;
        tell(rt, pattern.name(), size, once, twice)?;
    }
    Ok(())
}

// The microseconds that reading takes.
fn time_reading(
    rt: &(impl CpuClock + AllocGlobal),
    pattern: Pattern,
    pairs: u32,
) -> io::Result<u64> {
    let Ok(tokens) = tokens_of(rt.alloc(), pattern, pairs) else {
        return Err(out_of_memory());
    };
    let before = micros_now(rt)?;
    let found = read_expression(rt.alloc(), tokens.as_slice());
    let after = micros_now(rt)?;
    match found {
        Ok(Some(_)) => {}
        Ok(None) => return Err(io::Error::from(io::ErrorKind::InvalidData)),
        Err(_) => return Err(out_of_memory()),
    }
    Ok(after.saturating_sub(before))
}

// A 1, and so many pairs of tokens round it.
fn tokens_of(alloc: Global, pattern: Pattern, pairs: u32) -> Result<Vec<ReadToken>, NoMemory> {
    let mut tokens = Vec::new(alloc);
    pattern.push_front(&mut tokens, pairs)?;
    tokens.push(one())?;
    pattern.push_back(&mut tokens, pairs)?;
    Ok(tokens)
}

// Adds a mark so many times.
fn push_marks(tokens: &mut Vec<ReadToken>, mark: Mark, times: u32) -> Result<(), NoMemory> {
    for _ in 0..times {
        tokens.push(token_of(TokenKind::Mark, Reading::Mark(mark)))?;
    }
    Ok(())
}

// Adds a mark with a 1 behind it so many times.
fn push_ones(tokens: &mut Vec<ReadToken>, mark: Mark, times: u32) -> Result<(), NoMemory> {
    for _ in 0..times {
        tokens.push(token_of(TokenKind::Mark, Reading::Mark(mark)))?;
        tokens.push(one())?;
    }
    Ok(())
}

fn one() -> ReadToken {
    let number = Number {
        kind: NumberKind::Integer,
        value: 1,
    };
    let reading = Reading::Number {
        number,
        is_plain: true,
    };
    token_of(TokenKind::Whole, reading)
}

fn token_of(kind: TokenKind, reading: Reading) -> ReadToken {
    let place = Place {
        module: 1,
        line: 1,
        column: 1,
    };
    let token = Token {
        kind,
        start: 0,
        end: 1,
        place,
    };
    ReadToken { token, reading }
}

//! A type clause and a value of a constant or a parameter, each where it is written ([MS-VBAL] 5.2.3.2, 5.3.1.5):
//! `String * length` before a value is read in a way of its own, since `=` is also an operator.

ghost use Rattle.std.specs.Prelude.{◌≡◌, IfOk, option_map};
ghost use Rattle.vba_tree.specs.Tree as tree;
ghost use Rattle.vba_tree.specs.View.{type_clause_view, default_view};
ghost use Rattle.vba_grammar.specs.Clauses.{default_at, fixed_words_at, fixed_clause, before_value, without_value, with_or_without_value, valued_at};
ghost use Rattle.vba_clauses.specs.Seen.{has_fixed_clause, unfixed_at, words_view, valued_view};
ghost use Rattle.vba_expression.specs.View.{view};

use crate::expected::{Expected, is_expected};
use crate::front::{item_ends, read_token, read_word};
use crate::halves::{Halves, read_last_halves};
use crate::part::{Part, read_part_if};
use crate::types::{TypeClausePart, is_fixed};
use std::alloc::Global;
use vba_base::NoMemory;
use vba_expression::{Expression, read_expression};
use vba_lexer::Token;
use vba_tree::{DeclaredType, DefaultValue, TypeClause};
use vba_words::ReadToken;

/// A type clause that may be missing, and the value behind it, which may be missing too.
#[derive(Drop)]
pub struct Valued {
    pub type_clause: Option<TypeClause>,
    pub default: Option<DefaultValue>,
}

/// `As String *`.
#[derive(Clone, Copy, Debug, PartialEq, Eq)]
pub struct FixedWords {
    pub as_word: Token,
    pub string_word: Token,
    pub times: Token,
}

/// The type clause and the value of a constant, and the tokens behind them. Behind `String * length` there is a value.
#[tactic(auto, using(crate::proofs::Cases::valued_by_cases))]
pub fn read_constant_value(
    alloc: Global,
    tokens: &[ReadToken],
) -> Result<Option<(Valued, &[ReadToken])>, NoMemory>
    ensures { IfOk result (λ found. option_map (λ f. (valued_view f.0, f.1.now)) found ≡ valued_at before_value tokens.now) }
{
    if has_fixed_clause(tokens) {
        read_before_value(alloc, tokens)
    } else {
        read_unfixed(alloc, tokens)
    }
}

/// The type clause and the default value of a parameter, and the tokens behind them.
#[tactic(auto, using(crate::proofs::Cases::valued_by_cases))]
pub fn read_parameter_value(
    alloc: Global,
    tokens: &[ReadToken],
) -> Result<Option<(Valued, &[ReadToken])>, NoMemory>
    ensures { IfOk result (λ found. option_map (λ f. (valued_view f.0, f.1.now)) found ≡ valued_at with_or_without_value tokens.now) }
{
    if has_fixed_clause(tokens) {
        read_with_or_without_value(alloc, tokens)
    } else {
        read_unfixed(alloc, tokens)
    }
}

/// Does `As String *` stand at the front?
fn has_fixed_clause(tokens: &[ReadToken]) -> bool
    ensures { result ≡ has_fixed_clause tokens.now }
{
    match tokens {
        [] => false,
        [first, rest @ ..] => is_expected(&first.reading, Expected::As) && is_fixed(rest),
    }
}

/// A type clause and a value, each where it is written.
fn read_unfixed(
    alloc: Global,
    tokens: &[ReadToken],
) -> Result<Option<(Valued, &[ReadToken])>, NoMemory>
    ensures { IfOk result (λ found. option_map (λ f. (valued_view f.0, f.1.now)) found ≡ unfixed_at tokens.now) }
{
    let Some((type_clause, rest)) = read_part_if::<TypeClausePart>(alloc, tokens, Expected::As)?
    else {
        return Ok(None);
    };
    let Some((default, behind)) = read_part_if::<DefaultPart>(alloc, rest, Expected::Equal)? else {
        return Ok(None);
    };
    let valued = Valued {
        type_clause,
        default,
    };
    Ok(Some((valued, behind)))
}

/// `As String * length`, with a value where none can be missing: the length is longest without one.
fn read_with_or_without_value(
    alloc: Global,
    tokens: &[ReadToken],
) -> Result<Option<(Valued, &[ReadToken])>, NoMemory>
    ensures { IfOk result (λ found. option_map (λ f. (valued_view f.0, f.1.now)) found ≡ with_or_without_value tokens.now) }
{
    match read_without_value(alloc, tokens)? {
        Some(found) => Ok(Some(found)),
        None => read_before_value(alloc, tokens),
    }
}

/// `As String * length` and a value, the length as long as it can be before one.
fn read_before_value(
    alloc: Global,
    tokens: &[ReadToken],
) -> Result<Option<(Valued, &[ReadToken])>, NoMemory>
    ensures { IfOk result (λ found. option_map (λ f. (valued_view f.0, f.1.now)) found ≡ before_value tokens.now) }
{
    let Some((words, rest)) = read_fixed_words(tokens) else {
        return Ok(None);
    };
    let Some((halves, behind)) = read_last_halves(alloc, rest)? else {
        return Ok(None);
    };
    let Halves { length, default } = halves;
    let valued = Valued {
        type_clause: Some(fixed_clause(words, length)),
        default: Some(default),
    };
    Ok(Some((valued, behind)))
}

/// `As String * length` without a value.
fn read_without_value(
    alloc: Global,
    tokens: &[ReadToken],
) -> Result<Option<(Valued, &[ReadToken])>, NoMemory>
    ensures { IfOk result (λ found. option_map (λ f. (valued_view f.0, f.1.now)) found ≡ without_value tokens.now) }
{
    let Some((words, rest)) = read_fixed_words(tokens) else {
        return Ok(None);
    };
    let Some((length, behind)) = read_expression(alloc, rest)? else {
        return Ok(None);
    };
    if !item_ends(behind) {
        return Ok(None);
    }
    let valued = Valued {
        type_clause: Some(fixed_clause(words, length)),
        default: None,
    };
    Ok(Some((valued, behind)))
}

/// `As String * length`.
fn fixed_clause(words: FixedWords, length: Expression) -> TypeClause
    ensures { type_clause_view result ≡ fixed_clause (words_view words) (view length) }
{
    TypeClause {
        as_word: words.as_word,
        declared_type: DeclaredType::FixedText {
            string_word: words.string_word,
            times: words.times,
            length,
        },
    }
}

/// `As String *` at the front, and the tokens behind it.
fn read_fixed_words(tokens: &[ReadToken]) -> Option<(FixedWords, &[ReadToken])>
    ensures { option_map (λ f. (words_view f.0, f.1.now)) result ≡ fixed_words_at tokens.now }
{
    let (as_word, rest) = read_token(tokens, Expected::As)?;
    let (string_word, rest) = read_word(rest, b"string")?;
    let (times, behind) = read_token(rest, Expected::Times)?;
    let words = FixedWords {
        as_word,
        string_word,
        times,
    };
    Some((words, behind))
}

/// `= value` at the front, and the tokens behind it.
fn read_default(
    alloc: Global,
    tokens: &[ReadToken],
) -> Result<Option<(DefaultValue, &[ReadToken])>, NoMemory>
    ensures { IfOk result (λ found. option_map (λ f. (default_view f.0, f.1.now)) found ≡ default_at tokens.now) }
{
    let Some((equal, rest)) = read_token(tokens, Expected::Equal) else {
        return Ok(None);
    };
    let Some((value, behind)) = read_expression(alloc, rest)? else {
        return Ok(None);
    };
    Ok(Some((DefaultValue { equal, value }, behind)))
}

/// `= value`.
pub struct DefaultPart;

impl Part for DefaultPart {
    type Tree = DefaultValue;

    ghost Plain = { tree.DefaultValue };

    ghost plain_of = { default_view };

    ghost part_at = { default_at };

    fn read(
        alloc: Global,
        tokens: &[ReadToken],
    ) -> Result<Option<(DefaultValue, &[ReadToken])>, NoMemory> {
        read_default(alloc, tokens)
    }
}

//! Parameters, and the types of results ([MS-VBAL] 5.3.1.4, 5.3.1.5).

ghost use Rattle.std.specs.Prelude.{◌≡◌, IfOk, option_map};
ghost use Rattle.vba_tree.specs.Tree as tree;
ghost use Rattle.vba_tree.specs.View.{parameter_view, parameters_view, result_type_view};
ghost use Rattle.vba_grammar.specs.Front.{is_left, part_if};
ghost use Rattle.vba_grammar.specs.Clauses.{passing_of, passing_if, brackets_at, parameter_at, parameters_at, result_type_at};

use crate::expected::Expected;
use crate::front::{begins_with, read_name, read_token, skip_token};
use crate::part::{Part, read_commas_in_brackets};
use crate::types::read_type;
use crate::values::{Valued, read_parameter_value};
use std::alloc::Global;
use vba_base::NoMemory;
use vba_lexer::Token;
use vba_tree::{Brackets, Parameter, Parameters, Passing, PassingWord, ResultType};
use vba_words::{Keyword, ReadToken, Reading};

/// `ByVal` or `ByRef`.
fn passing_of(token: &ReadToken) -> Option<PassingWord>
    ensures { result ≡ passing_of token.now.token token.now.reading }
{
    match &token.reading {
        Reading::Keyword(Keyword::ByVal) => Some(passing_word(Passing::ByVal, token.token)),
        Reading::Keyword(Keyword::ByRef) => Some(passing_word(Passing::ByRef, token.token)),
        _ => None,
    }
}

fn passing_word(passing: Passing, token: Token) -> PassingWord
    ensures { result ≡ record { passing = passing; token = token } }
{
    PassingWord { passing, token }
}

/// `ByVal` or `ByRef` at the front, if one stands there, and the tokens behind it, or else all.
fn skip_passing(tokens: &[ReadToken]) -> (Option<PassingWord>, &[ReadToken])
    ensures { (result.0, result.1.now) ≡ passing_if tokens.now }
{
    let [first, rest @ ..] = tokens else {
        return (None, tokens);
    };
    match passing_of(first) {
        Some(word) => (Some(word), rest),
        None => (None, tokens),
    }
}

/// `()` at the front, and the tokens behind it.
pub fn read_brackets(tokens: &[ReadToken]) -> Option<(Brackets, &[ReadToken])>
    ensures { option_map (λ f. (f.0, f.1.now)) result ≡ brackets_at tokens.now }
{
    let (left, rest) = read_token(tokens, Expected::LeftParenthesis)?;
    let (right, behind) = read_token(rest, Expected::RightParenthesis)?;
    Some((Brackets { left, right }, behind))
}

/// `()` at the front, where tokens begin with `(`, and the tokens behind it; else none, and all tokens.
pub fn read_brackets_if(tokens: &[ReadToken]) -> Option<(Option<Brackets>, &[ReadToken])>
    ensures { option_map (λ f. (f.0, f.1.now)) result ≡ part_if is_left brackets_at tokens.now }
{
    if !begins_with(tokens, Expected::LeftParenthesis) {
        return Some((None, tokens));
    }
    let (brackets, behind) = read_brackets(tokens)?;
    Some((Some(brackets), behind))
}

/// `[Optional] [ByVal|ByRef] [ParamArray] name [()] [As type] [= value]` at the front, and the tokens behind it.
pub fn read_parameter(
    alloc: Global,
    tokens: &[ReadToken],
) -> Result<Option<(Parameter, &[ReadToken])>, NoMemory>
    ensures { IfOk result (λ found. option_map (λ f. (parameter_view f.0, f.1.now)) found ≡ parameter_at tokens.now) }
{
    let (optional_word, passed) = skip_token(tokens, Expected::Optional);
    let (passing, arrayed) = skip_passing(passed);
    let (param_array_word, named) = skip_token(arrayed, Expected::ParamArray);
    let Some((name, rest)) = read_name(alloc, named)? else {
        return Ok(None);
    };
    let Some((brackets, typed)) = read_brackets_if(rest) else {
        return Ok(None);
    };
    let Some((valued, behind)) = read_parameter_value(alloc, typed)? else {
        return Ok(None);
    };
    let Valued {
        type_clause,
        default,
    } = valued;
    let parameter = Parameter {
        optional_word,
        passing,
        param_array_word,
        name,
        brackets,
        type_clause,
        default,
    };
    Ok(Some((parameter, behind)))
}

/// `([parameters])` at the front, and the tokens behind it.
pub fn read_parameters(
    alloc: Global,
    tokens: &[ReadToken],
) -> Result<Option<(Parameters, &[ReadToken])>, NoMemory>
    ensures { IfOk result (λ found. option_map (λ f. (parameters_view f.0, f.1.now)) found ≡ parameters_at tokens.now) }
{
    let Some((left, rest)) = read_token(tokens, Expected::LeftParenthesis) else {
        return Ok(None);
    };
    let Some((parameters, behind)) = read_commas_in_brackets::<ParameterPart>(alloc, rest)? else {
        return Ok(None);
    };
    let Some((right, behind)) = read_token(behind, Expected::RightParenthesis) else {
        return Ok(None);
    };
    let parameters = Parameters {
        left,
        parameters,
        right,
    };
    Ok(Some((parameters, behind)))
}

/// `As type [()]` of a procedure at the front, and the tokens behind it.
pub fn read_result_type(
    alloc: Global,
    tokens: &[ReadToken],
) -> Result<Option<(ResultType, &[ReadToken])>, NoMemory>
    ensures { IfOk result (λ found. option_map (λ f. (result_type_view f.0, f.1.now)) found ≡ result_type_at tokens.now) }
{
    let Some((as_word, rest)) = read_token(tokens, Expected::As) else {
        return Ok(None);
    };
    let Some((declared_type, bracketed)) = read_type(alloc, rest)? else {
        return Ok(None);
    };
    let Some((brackets, behind)) = read_brackets_if(bracketed) else {
        return Ok(None);
    };
    let result_type = ResultType {
        as_word,
        declared_type,
        brackets,
    };
    Ok(Some((result_type, behind)))
}

/// A parameter.
pub struct ParameterPart;

impl Part for ParameterPart {
    type Tree = Parameter;

    ghost Plain = { tree.Parameter };

    ghost plain_of = { parameter_view };

    ghost part_at = { parameter_at };

    fn read(
        alloc: Global,
        tokens: &[ReadToken],
    ) -> Result<Option<(Parameter, &[ReadToken])>, NoMemory> {
        read_parameter(alloc, tokens)
    }
}

/// `([parameters])`.
pub struct ParametersPart;

impl Part for ParametersPart {
    type Tree = Parameters;

    ghost Plain = { tree.Parameters };

    ghost plain_of = { parameters_view };

    ghost part_at = { parameters_at };

    fn read(
        alloc: Global,
        tokens: &[ReadToken],
    ) -> Result<Option<(Parameters, &[ReadToken])>, NoMemory> {
        read_parameters(alloc, tokens)
    }
}

/// `As type [()]`.
pub struct ResultTypePart;

impl Part for ResultTypePart {
    type Tree = ResultType;

    ghost Plain = { tree.ResultType };

    ghost plain_of = { result_type_view };

    ghost part_at = { result_type_at };

    fn read(
        alloc: Global,
        tokens: &[ReadToken],
    ) -> Result<Option<(ResultType, &[ReadToken])>, NoMemory> {
        read_result_type(alloc, tokens)
    }
}

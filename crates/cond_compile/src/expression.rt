//! The expression of a directive line and its value.

ghost use Rattle.std.specs.Prelude.{◌≡◌, length, All, IfOk, option_map};
ghost use Rattle.vba_lexer.specs.Inside.{IsWithin};
ghost use Rattle.cond_compile.specs.Evaluation as evaluation;
ghost use Rattle.cond_compile.specs.Pieces.{pieces_behind};
ghost use Rattle.cond_compile.specs.Reader as reader;
ghost use Rattle.cond_compile.specs.Seen.{DirectiveLiesIn, constants_view, directive_view, outcome_view, piece_view, reading_view};
ghost use Rattle.cond_compile.specs.Selection as selection;

use crate::directive::{Directive, DirectiveKind};
use crate::operand::{Constant, Operand};
use crate::operator::Operator;
use crate::piece::{Piece, piece_behind};
use crate::reader::{Reading, read};
use std::alloc::Global;
use vba_base::{Name, NoMemory, Units};
use vba_lexer::Token;

/// What was read before Then.
fn before_then(reading: Reading) -> Option<Option<Operand>>
    ensures { option_map outcome_view result ≡ selection.in_condition (reading_view reading) }
{
    match reading {
        Reading::BeforeThen(value) => Some(value),
        Reading::ToEnd(_value) => None,
        Reading::Other => None,
    }
}

/// What was read to the end of the line.
fn to_end(reading: Reading) -> Option<Option<Operand>>
    ensures { option_map outcome_view result ≡ selection.in_constant (reading_view reading) }
{
    match reading {
        Reading::ToEnd(value) => Some(value),
        Reading::BeforeThen(_value) => None,
        Reading::Other => None,
    }
}

/// The value of `e Then`, where the tokens are that.
fn condition_in(
    alloc: Global,
    source: &Units,
    constants: &[Constant],
    last: &Token,
    tokens: &[Token],
) -> Result<Option<Option<Operand>>, NoMemory>
    requires last { IsWithin (length source.now) last.now }
    requires tokens { All (IsWithin (length source.now)) tokens.now }
    ensures { IfOk result (λ found. option_map outcome_view found ≡ option_map (evaluation.value_of (constants_view constants.now)) (selection.in_condition (reader.reading_of (reader.expression_at (pieces_behind source.now last.now tokens.now))))) }
{
    let reading = read(alloc, source, constants, last, tokens)?;
    Ok(before_then(reading))
}

/// The value of an expression that goes to the end of its line.
fn whole_in(
    alloc: Global,
    source: &Units,
    constants: &[Constant],
    last: &Token,
    tokens: &[Token],
) -> Result<Option<Option<Operand>>, NoMemory>
    requires last { IsWithin (length source.now) last.now }
    requires tokens { All (IsWithin (length source.now)) tokens.now }
    ensures { IfOk result (λ found. option_map outcome_view found ≡ option_map (evaluation.value_of (constants_view constants.now)) (selection.in_constant (reader.reading_of (reader.expression_at (pieces_behind source.now last.now tokens.now))))) }
{
    let reading = read(alloc, source, constants, last, tokens)?;
    Ok(to_end(reading))
}

/// Is it a name?
fn is_name(piece: &Piece) -> bool
    ensures { result ≡ selection.is_name (piece_view piece.now) }
{
    match piece {
        Piece::Name(_) => true,
        _ => false,
    }
}

/// Is it the mark `=`?
fn is_equal(piece: &Piece) -> bool
    ensures { result ≡ selection.is_equal (piece_view piece.now) }
{
    match piece {
        Piece::Operator(Operator::Equal) => true,
        _ => false,
    }
}

/// The value of `N = e`, where the tokens are that.
fn constant_in(
    alloc: Global,
    source: &Units,
    constants: &[Constant],
    last: &Token,
    tokens: &[Token],
) -> Result<Option<Option<Operand>>, NoMemory>
    requires last { IsWithin (length source.now) last.now }
    requires tokens { All (IsWithin (length source.now)) tokens.now }
    ensures { IfOk result (λ found. option_map outcome_view found ≡ option_map (evaluation.value_of (constants_view constants.now)) (selection.behind_name (pieces_behind source.now last.now tokens.now))) }
{
    let [name, equal, rest @ ..] = tokens else {
        return Ok(None);
    };
    let first = piece_behind(alloc, source, last, name)?;
    let second = piece_behind(alloc, source, name, equal)?;
    if is_name(&first) && is_equal(&second) {
        whole_in(alloc, source, constants, equal, rest)
    } else {
        Ok(None)
    }
}

/// The value of a directive's expression, where it has its form.
pub fn value_in(
    alloc: Global,
    source: &Units,
    constants: &[Constant],
    directive: &Directive,
) -> Result<Option<Option<Operand>>, NoMemory>
    requires { DirectiveLiesIn source.now directive.now }
    ensures { IfOk result (λ found. option_map outcome_view found ≡ option_map (evaluation.value_of (constants_view constants.now)) (selection.expression_of source.now (directive_view directive.now))) }
{
    match directive.kind {
        DirectiveKind::If | DirectiveKind::ElseIf => {
            condition_in(alloc, source, constants, &directive.last, directive.rest)
        }
        DirectiveKind::Constant => {
            constant_in(alloc, source, constants, &directive.last, directive.rest)
        }
        DirectiveKind::Else | DirectiveKind::EndIf | DirectiveKind::Unknown => Ok(None),
    }
}

/// The name that a `#Const` line defines.
pub fn name_defined(
    alloc: Global,
    source: &Units,
    directive: &Directive,
) -> Result<Option<Name>, NoMemory>
    requires { DirectiveLiesIn source.now directive.now }
    ensures { IfOk result (λ name. name ≡ selection.name_defined (pieces_behind source.now directive.now.last directive.now.rest.now)) }
{
    let [token, ..] = directive.rest else {
        return Ok(None);
    };
    match piece_behind(alloc, source, &directive.last, token)? {
        Piece::Name(name) => Ok(Some(name)),
        _ => Ok(None),
    }
}

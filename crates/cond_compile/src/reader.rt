//! Reading a constant expression by a stack: its value is made along with it.

ghost use Rattle.std.specs.Prelude.{◌≡◌, [], ◌∷◌, length, All, IfOk, option_map};
ghost use Rattle.vba_lexer.specs.Inside.{IsWithin};
ghost use Rattle.vba_values.specs.View.{view};
ghost use Rattle.cond_compile.specs.Evaluation as evaluation;
ghost use Rattle.cond_compile.specs.Evaluation.{of_leaf, values};
ghost use Rattle.cond_compile.specs.Expressions.{operator_level, prefix_level};
ghost use Rattle.cond_compile.specs.Pieces as pieces;
ghost use Rattle.cond_compile.specs.Pieces.{pieces_behind};
ghost use Rattle.cond_compile.specs.Reader as reader;
ghost use Rattle.cond_compile.specs.Seen.{Means, constants_view, frame_view, outcome_view, piece_view, reading_view, reading_values, stack, state};
ghost use Rattle.cond_compile.specs.Advances.{Advances, read_from};

use crate::frame::{Frame, Mode, Waiting};
use crate::operand::{Constant, Operand, of_operand, of_operands, typed, value_of_name};
use crate::operator::{Operator, Prefix};
use crate::piece::{Piece, is_then, piece_behind};
use std::alloc::Global;
use vba_base::{Name, NoMemory, Units};
use vba_lexer::Token;
use vba_values::Value;

/// An expression and how its line goes on: it ends, or it has Then and ends; or neither, or there is no expression.
#[derive(Drop)]
pub enum Reading {
    ToEnd(Option<Operand>),
    BeforeThen(Option<Operand>),
    Other,
}

/// The level of an operator, 1 for the tightest.
fn operator_level(operator: Operator) -> u32
    ensures { result ≡ operator_level operator }
{
    match operator {
        Operator::Power => 1,
        Operator::Times | Operator::Divide => 3,
        Operator::IntDivide => 4,
        Operator::Mod => 5,
        Operator::Plus | Operator::Minus => 6,
        Operator::Join => 7,
        Operator::Equal
        | Operator::Unequal
        | Operator::Less
        | Operator::LessEqual
        | Operator::Greater
        | Operator::GreaterEqual
        | Operator::Is => 8,
        Operator::And => 10,
        Operator::Or => 11,
        Operator::Xor => 12,
        Operator::Eqv => 13,
        Operator::Imp => 14,
    }
}

fn prefix_level(prefix: Prefix) -> u32
    ensures { result ≡ prefix_level prefix }
{
    match prefix {
        Prefix::Minus => 2,
        Prefix::Not => 9,
    }
}

/// The level below which an operand there has to be.
pub fn room_of(frames: &Vec<Frame>) -> u32
    ensures { result ≡ reader.room (stack frames.now.items) }
{
    match frames.last() {
        None | Some(Frame::Paren | Frame::Named(_)) => 15,
        Some(Frame::Binary(operator, _)) => operator_level(*operator),
        Some(Frame::Prefixed(prefix)) => prefix_level(*prefix) + 1,
        Some(Frame::Index(_)) => 17,
        Some(Frame::TypeTest) => 1,
        Some(Frame::Listed(_)) => 16,
    }
}

/// Ends what is as tight as a level or tighter.
pub fn reduce(
    alloc: Global,
    level: u32,
    operand: Option<Operand>,
    frames: &mut Vec<Frame>,
) -> Result<Option<Operand>, NoMemory>
    ensures { IfOk result (λ e. (outcome_view e, stack frames.new.items) ≡ reader.reduce values level (outcome_view operand) (stack frames.old.items)) }
{
    let mut value = operand;
    'reducing: while let Some(frame) = frames.pop() {
        match frame {
            Frame::Binary(operator, left) => {
                if level < operator_level(operator) {
                    frames.push(Frame::Binary(operator, left))?;
                    return Ok(value);
                }
                value = of_operands(alloc, operator, left, value)?;
            }
            Frame::Prefixed(prefix) => {
                if level <= prefix_level(prefix) {
                    frames.push(Frame::Prefixed(prefix))?;
                    return Ok(value);
                }
                value = of_operand(alloc, prefix, value)?;
            }
            Frame::Named(name) => {
                if level < 15 {
                    frames.push(Frame::Named(name))?;
                    return Ok(value);
                }
                value = None;
            }
            Frame::Listed(arguments) => {
                if level < 16 {
                    frames.push(Frame::Listed(arguments))?;
                    return Ok(value);
                }
                value = None;
            }
            bracket => {
                frames.push(bracket)?;
                return Ok(value);
            }
        }
    }
    Ok(value)
}

/// Waits for an operand inside a frame, where there is room for its level.
pub fn opened(level: u32, frame: Frame, frames: &mut Vec<Frame>) -> Result<Option<Mode>, NoMemory>
    ensures { IfOk result (λ mode. Means (reader.opened level (frame_view frame) (stack frames.old.items)) frames.new.items mode) }
{
    if level < room_of(frames) {
        frames.push(frame)?;
        Ok(Some(Mode::Want))
    } else {
        Ok(None)
    }
}

/// An operator behind its whole left operand.
fn operated(
    operator: Operator,
    left: Option<Operand>,
    frames: &mut Vec<Frame>,
) -> Result<Option<Mode>, NoMemory>
    ensures { IfOk result (λ mode. Means (reader.operated operator (outcome_view left) (stack frames.old.items)) frames.new.items mode) }
{
    match frames.pop() {
        Some(Frame::TypeTest) => match operator {
            Operator::Is => Ok(Some(Mode::Wait(Waiting::TypeName(left)))),
            _ => Ok(None),
        },
        Some(frame) => {
            frames.push(frame)?;
            opened(
                operator_level(operator),
                Frame::Binary(operator, left),
                frames,
            )
        }
        None => opened(
            operator_level(operator),
            Frame::Binary(operator, left),
            frames,
        ),
    }
}

/// An operator behind an operand.
pub fn at_operator(
    alloc: Global,
    operator: Operator,
    operand: Option<Operand>,
    frames: &mut Vec<Frame>,
) -> Result<Option<Mode>, NoMemory>
    ensures { IfOk result (λ mode. Means (reader.at_operator values operator (outcome_view operand) (stack frames.old.items)) frames.new.items mode) }
{
    let left = reduce(alloc, operator_level(operator), operand, frames)?;
    operated(operator, left, frames)
}

/// A comma behind an argument.
pub fn at_comma(
    alloc: Global,
    operand: Option<Operand>,
    frames: &mut Vec<Frame>,
) -> Result<Option<Mode>, NoMemory>
    ensures { IfOk result (λ mode. Means (reader.at_comma values (outcome_view operand) (stack frames.old.items)) frames.new.items mode) }
{
    let listed = reduce(alloc, 16, operand, frames)?;
    opened(16, Frame::Listed(listed), frames)
}

/// A closing bracket behind an operand.
pub fn at_right(
    alloc: Global,
    operand: Option<Operand>,
    frames: &mut Vec<Frame>,
) -> Result<Option<Mode>, NoMemory>
    ensures { IfOk result (λ mode. Means (reader.at_right values (outcome_view operand) (stack frames.old.items)) frames.new.items mode) }
{
    let inside = reduce(alloc, 16, operand, frames)?;
    match frames.pop() {
        Some(Frame::Paren) => Ok(Some(Mode::Have(inside))),
        Some(Frame::Index(_callee)) => Ok(Some(Mode::Have(None))),
        Some(frame) => {
            frames.push(frame)?;
            Ok(None)
        }
        None => Ok(None),
    }
}

/// A closing bracket where an operand is wanted: an argument may be missing.
fn at_early_right(alloc: Global, frames: &mut Vec<Frame>) -> Result<Option<Mode>, NoMemory>
    ensures { IfOk result (λ mode. Means (reader.want values (of_leaf []) (stack frames.old.items) pieces.right) frames.new.items mode) }
{
    if room_of(frames) <= 15 {
        return Ok(None);
    }
    at_right(alloc, None, frames)
}

/// A comma where an operand is wanted: an argument may be missing.
fn at_early_comma(alloc: Global, frames: &mut Vec<Frame>) -> Result<Option<Mode>, NoMemory>
    ensures { IfOk result (λ mode. Means (reader.want values (of_leaf []) (stack frames.old.items) pieces.comma) frames.new.items mode) }
{
    if room_of(frames) <= 15 {
        return Ok(None);
    }
    at_comma(alloc, None, frames)
}

/// A token where an operand is wanted.
fn want(alloc: Global, frames: &mut Vec<Frame>, piece: Piece) -> Result<Option<Mode>, NoMemory>
    ensures { IfOk result (λ mode. Means (reader.want values (of_leaf []) (stack frames.old.items) (piece_view piece)) frames.new.items mode) }
{
    match piece {
        Piece::Literal(value) => Ok(Some(Mode::Have(of_literal(value)))),
        Piece::Name(name) => Ok(Some(Mode::Name(name))),
        Piece::Me => Ok(Some(Mode::Have(None))),
        Piece::Operator(Operator::Minus) => opened(2, Frame::Prefixed(Prefix::Minus), frames),
        Piece::Not => opened(9, Frame::Prefixed(Prefix::Not), frames),
        Piece::New => Ok(Some(Mode::Wait(Waiting::NewObject))),
        Piece::TypeOf => {
            frames.push(Frame::TypeTest)?;
            Ok(Some(Mode::Want))
        }
        Piece::Left => {
            frames.push(Frame::Paren)?;
            Ok(Some(Mode::Want))
        }
        Piece::Right => at_early_right(alloc, frames),
        Piece::Comma => at_early_comma(alloc, frames),
        Piece::Dot => Ok(Some(Mode::Wait(Waiting::WithMember(false)))),
        Piece::ApartDot => Ok(Some(Mode::Wait(Waiting::WithMember(true)))),
        Piece::Operator(_) | Piece::Gets | Piece::Then | Piece::Other => Ok(None),
    }
}

/// A token behind an operand.
fn have(
    alloc: Global,
    operand: Option<Operand>,
    frames: &mut Vec<Frame>,
    piece: Piece,
) -> Result<Option<Mode>, NoMemory>
    ensures { IfOk result (λ mode. Means (reader.have values (outcome_view operand) (stack frames.old.items) (piece_view piece)) frames.new.items mode) }
{
    match piece {
        Piece::Operator(operator) => at_operator(alloc, operator, operand, frames),
        Piece::Left => {
            frames.push(Frame::Index(operand))?;
            Ok(Some(Mode::Want))
        }
        Piece::Right => at_right(alloc, operand, frames),
        Piece::Comma => at_comma(alloc, operand, frames),
        Piece::Dot => Ok(Some(Mode::Wait(Waiting::Member(operand)))),
        _ => Ok(None),
    }
}

/// A token behind a bare name, which may name an argument.
fn behind_name(
    alloc: Global,
    constants: &[Constant],
    name: Name,
    frames: &mut Vec<Frame>,
    piece: Piece,
) -> Result<Option<Mode>, NoMemory>
    ensures { IfOk result (λ mode. Means (reader.behind_name values (of_leaf (constants_view constants.now)) name (stack frames.old.items) (piece_view piece)) frames.new.items mode) }
{
    if let Piece::Gets = piece {
        return opened(15, Frame::Named(name), frames);
    }
    let operand = value_of_name(alloc, constants, &name)?;
    have(alloc, Some(operand), frames, piece)
}

/// The value of a literal; one that breaks a rule of tokens has none.
fn of_literal(value: Option<Value>) -> Option<Operand>
    ensures { outcome_view result ≡ evaluation.of_literal (option_map view value) }
{
    match value {
        Some(value) => Some(typed(value)),
        None => None,
    }
}

/// A token of an expression.
#[tactic(auto, using(crate::proofs::Reading::want_any, crate::proofs::Reading::waited_none))]
fn step(
    alloc: Global,
    constants: &[Constant],
    mode: Mode,
    frames: &mut Vec<Frame>,
    piece: Piece,
) -> Result<Option<Mode>, NoMemory>
    ensures { IfOk result (λ next. Means (reader.step values (of_leaf (constants_view constants.now)) (state mode frames.old.items) (piece_view piece)) frames.new.items next) }
{
    match mode {
        Mode::Want => want(alloc, frames, piece),
        Mode::Name(name) => behind_name(alloc, constants, name, frames, piece),
        Mode::Have(operand) => have(alloc, operand, frames, piece),
        // what a name ends so has no value
        Mode::Wait(_waiting) => match piece {
            Piece::Name(_name) => Ok(Some(Mode::Have(None))),
            _ => Ok(None),
        },
    }
}

/// The operand, where nothing waits for a bracket.
fn ended(
    alloc: Global,
    operand: Option<Operand>,
    frames: &mut Vec<Frame>,
) -> Result<Option<Option<Operand>>, NoMemory>
    ensures { IfOk result (λ found. option_map outcome_view found ≡ reader.finish values (of_leaf []) (reader.Have (outcome_view operand) (stack frames.old.items))) }
{
    let value = reduce(alloc, 14, operand, frames)?;
    if frames.is_empty() {
        Ok(Some(value))
    } else {
        Ok(None)
    }
}

/// The value of what was read, where that is an expression.
fn finished(
    alloc: Global,
    constants: &[Constant],
    mode: Mode,
    frames: &mut Vec<Frame>,
) -> Result<Option<Option<Operand>>, NoMemory>
    ensures { IfOk result (λ found. option_map outcome_view found ≡ reader.finish values (of_leaf (constants_view constants.now)) (state mode frames.old.items)) }
{
    match mode {
        Mode::Name(name) => {
            let operand = value_of_name(alloc, constants, &name)?;
            ended(alloc, Some(operand), frames)
        }
        Mode::Have(operand) => ended(alloc, operand, frames),
        Mode::Want => Ok(None),
        Mode::Wait(_waiting) => Ok(None),
    }
}

/// A reading that goes to the end.
fn to_end(found: Option<Option<Operand>>) -> Reading
    ensures { reading_view result ≡ reader.reading_of (reader.with_rest [] (option_map outcome_view found)) }
{
    match found {
        Some(value) => Reading::ToEnd(value),
        None => Reading::Other,
    }
}

/// A reading before a Then that is the last token.
fn before_then(found: Option<Option<Operand>>) -> Reading
    ensures { reading_view result ≡ reader.before_then (option_map outcome_view found) }
{
    match found {
        Some(value) => Reading::BeforeThen(value),
        None => Reading::Other,
    }
}

/// The reader goes on behind a token, or the reading ends.
#[derive(Drop)]
enum Advanced {
    On(Mode),
    Ended(Reading),
}

/// Reads one token behind another; others follow it.
#[tactic(auto, using(crate::proofs::Reading::goes_on, crate::proofs::Reading::ends_at_then, crate::proofs::Reading::then_not_last, crate::proofs::Reading::ends_stuck))]
fn advance(
    alloc: Global,
    source: &Units,
    constants: &[Constant],
    mode: Mode,
    frames: &mut Vec<Frame>,
    previous: &Token,
    token: &Token,
    rest: &[Token],
) -> Result<Advanced, NoMemory>
    requires previous { IsWithin (length source.now) previous.now }
    requires token { IsWithin (length source.now) token.now }
    ensures { IfOk result (λ advanced. Advances
        (reader.reading_of (read_from values (of_leaf (constants_view constants.now)) (state mode frames.old.items) (pieces_behind source.now previous.now (token.now ∷ rest.now))))
        constants.now source.now token.now rest.now frames.new.items advanced) }
{
    let piece = piece_behind(alloc, source, previous, token)?;
    if is_then(&piece) {
        if !rest.is_empty() {
            return Ok(Advanced::Ended(Reading::Other));
        }
        let found = finished(alloc, constants, mode, frames)?;
        return Ok(Advanced::Ended(before_then(found)));
    }
    match step(alloc, constants, mode, frames, piece)? {
        Some(next) => Ok(Advanced::On(next)),
        None => Ok(Advanced::Ended(Reading::Other)),
    }
}

/// Reads the expression that these tokens of a source are, behind another token.
fn read_values(
    alloc: Global,
    source: &Units,
    constants: &[Constant],
    previous: &Token,
    tokens: &[Token],
) -> Result<Reading, NoMemory>
    requires previous { IsWithin (length source.now) previous.now }
    requires tokens { All (IsWithin (length source.now)) tokens.now }
    ensures { IfOk result (λ reading. reading_view reading ≡ reader.reading_of (reader.read values (of_leaf (constants_view constants.now)) (pieces_behind source.now previous.now tokens.now))) }
{
    let mut frames = Vec::new(alloc);
    let mut mode = Mode::Want;
    let mut last = *previous;
    let mut left = tokens;
    while let [token, rest @ ..] = left {
        match advance(
            alloc,
            source,
            constants,
            mode,
            &mut frames,
            &last,
            token,
            rest,
        )? {
            Advanced::On(next) => {
                mode = next;
                last = *token;
                left = rest;
            }
            Advanced::Ended(reading) => return Ok(reading),
        }
    }
    let found = finished(alloc, constants, mode, &mut frames)?;
    Ok(to_end(found))
}

/// Reads the expression that these tokens of a source are, behind another token, and how its line goes on.
pub fn read(
    alloc: Global,
    source: &Units,
    constants: &[Constant],
    previous: &Token,
    tokens: &[Token],
) -> Result<Reading, NoMemory>
    requires previous { IsWithin (length source.now) previous.now }
    requires tokens { All (IsWithin (length source.now)) tokens.now }
    ensures { IfOk result (λ reading. reading_view reading ≡ reading_values (constants_view constants.now) (reader.reading_of (reader.expression_at (pieces_behind source.now previous.now tokens.now)))) }
{
    let reading = read_values(alloc, source, constants, previous, tokens)?;
    Ok(reading)
}

//! Which lines are kept, and the least rule that is broken.

ghost use Rattle.std.specs.Prelude.{◌≡◌, ◌∷◌, ◌++◌, [], length, All, IfOk, OnOk, Some, None, option_map};
ghost use Rattle.vba_base.specs.Answer.{Gives};
ghost use Rattle.vba_lexer.specs.Inside.{AllLieIn, IsWithin, LiesIn};
ghost use Rattle.vba_lexer.specs.Lexed.{line_view, lines_view};
ghost use Rattle.cond_compile.specs.Evaluation as evaluation;
ghost use Rattle.refusal_order.specs.Least as order;
ghost use Rattle.cond_compile.specs.Pieces.{pieces_behind};
ghost use Rattle.cond_compile.specs.Seen.{AreTold, DirectiveLiesIn, arms_view, constants_view, directive_view, outcome_view, standing_view};
ghost use Rattle.cond_compile.specs.Selection as selection;

use crate::arm::{Enclosing, is_due, is_kept, is_unmatched, pass, stands_on_kept};
use crate::directive::{Directive, DirectiveKind, directive_in};
use crate::expression::{name_defined, value_in};
use crate::operand::{Constant, Operand, truth};
use refusal_order::{note_fault, note_if};
use std::alloc::Global;
use vba_base::{NoMemory, OrMemory, Place, Refusal, Units, name_of};
use vba_lexer::{Line, Token};
use vba_values::Value;

/// The names that are defined before the first line: VBA6, VBA7, Win32, Win64, Win16, Mac.
const VBA6: [u16; 4] = [0x56, 0x42, 0x41, 0x36];

const VBA7: [u16; 4] = [0x56, 0x42, 0x41, 0x37];

const WIN32: [u16; 5] = [0x57, 0x69, 0x6E, 0x33, 0x32];

const WIN64: [u16; 5] = [0x57, 0x69, 0x6E, 0x36, 0x34];

const WIN16: [u16; 5] = [0x57, 0x69, 0x6E, 0x31, 0x36];

const MAC: [u16; 3] = [0x4D, 0x61, 0x63];

/// What stands round the next line, and the least rule that was found broken.
#[derive(Drop)]
pub struct Progress {
    pub constants: Vec<Constant>,
    pub arms: Vec<Enclosing>,
    pub least: Option<Refusal>,
}

/// The place of a line's first token.
fn first_place(place: Place, tokens: &[Token]) -> Place
    ensures { result ≡ selection.first_place place tokens.now }
{
    match tokens {
        [token, ..] => token.place,
        [] => place,
    }
}

/// The place of the first token of a directive's expression.
fn expression_place(directive: &Directive) -> Place
    ensures { result ≡ selection.expression_place (directive_view directive.now) }
{
    match (directive.kind, directive.rest) {
        (DirectiveKind::Constant, [_, _, rest @ ..]) => first_place(directive.last.place, rest),
        (DirectiveKind::Constant, _) => directive.last.place,
        (_, rest) => first_place(directive.last.place, rest),
    }
}

/// Has a directive line its form, where it is told whether it has its expression?
fn has_form(kind: DirectiveKind, rest: &[Token], has_expression: bool) -> bool
    ensures { result ≡ selection.stands_so kind rest.now has_expression }
{
    match kind {
        DirectiveKind::Else | DirectiveKind::EndIf => rest.is_empty(),
        DirectiveKind::Unknown => false,
        DirectiveKind::Constant | DirectiveKind::If | DirectiveKind::ElseIf => has_expression,
    }
}

/// What an evaluation tells: whether the condition holds, and whether its value is missing where it is wanted.
#[derive(Clone, Copy)]
struct Evaluation {
    holds: bool,
    is_bad: bool,
}

/// What the value of a directive's expression tells, where it was evaluated.
fn told_by(
    alloc: Global,
    kind: DirectiveKind,
    value: &Option<Option<Operand>>,
) -> Result<Evaluation, NoMemory>
    ensures holds { IfOk result (λ told. told.holds ≡ selection.holds (option_map outcome_view value.now)) }
    ensures bad { IfOk result (λ told. told.is_bad ≡ selection.is_bad kind (option_map outcome_view value.now)) }
{
    let Some(outcome) = value else {
        return Ok(Evaluation {
            holds: false,
            is_bad: false,
        });
    };
    let truth = truth(alloc, outcome)?;
    let is_bad = match kind {
        DirectiveKind::Constant => outcome.is_none(),
        _ => truth.is_none(),
    };
    Ok(Evaluation {
        holds: truth.unwrap_or(false),
        is_bad,
    })
}

/// Defines the constant of a `#Const` line that was evaluated.
fn define(
    alloc: Global,
    source: &Units,
    directive: &Directive,
    value: Option<Option<Operand>>,
    constants: &mut Vec<Constant>,
) -> Result<(), NoMemory>
    requires { DirectiveLiesIn source.now directive.now }
    ensures { OnOk result (constants_view constants.new.items ≡ selection.constants_behind directive.now.kind
        (selection.name_defined (pieces_behind source.now directive.now.last directive.now.rest.now)) (option_map outcome_view value) (constants_view constants.old.items)) }
{
    let DirectiveKind::Constant = directive.kind else {
        return Ok(());
    };
    let Some(Some(operand)) = value else {
        return Ok(());
    };
    if let Some(name) = name_defined(alloc, source, directive)? {
        let value = operand.value;
        constants.push(Constant { name, value })?;
    }
    Ok(())
}

/// The value of a directive's expression, where its line has the form and the expression is evaluated; and whether the line
/// has its form.
fn evaluated(
    alloc: Global,
    source: &Units,
    directive: &Directive,
    progress: &Progress,
) -> Result<(Option<Option<Operand>>, bool), NoMemory>
    requires directive { DirectiveLiesIn source.now directive.now }
    requires told { AreTold progress.now.arms.items }
    ensures value { IfOk result (λ found. option_map outcome_view found.0 ≡ selection.evaluated source.now (standing_view progress.now) (directive_view directive.now)) }
    ensures form { IfOk result (λ found. found.1 ≡ selection.has_form source.now (directive_view directive.now)) }
{
    let value = value_in(alloc, source, progress.constants.as_slice(), directive)?;
    let form = has_form(directive.kind, directive.rest, value.is_some());
    if is_due(directive.kind, &progress.arms) {
        Ok((value, form))
    } else {
        Ok((None, form))
    }
}

/// Passes a directive line.
#[tactic(auto, using(refusal_order::proofs::LeastFound::least_of_append))]
fn pass_directive(
    alloc: Global,
    source: &Units,
    line: &Line,
    directive: &Directive,
    progress: &mut Progress,
) -> Result<(), NoMemory>
    requires directive { DirectiveLiesIn source.now directive.now }
    requires told { AreTold progress.old.arms.items }
    ensures told { OnOk result (AreTold progress.new.arms.items) }
    ensures standing { OnOk result (standing_view progress.new
        ≡ selection.behind_directive source.now (standing_view progress.old) (selection.first_place line.now.place line.now.tokens.items) (directive_view directive.now)) }
    ensures least { OnOk result (progress.new.least
        ≡ order.least_of progress.old.least (selection.directive_violations source.now (standing_view progress.old) (line_view line.now) (directive_view directive.now))) }
{
    let place = first_place(line.place, line.tokens.as_slice());
    let unmatched = is_unmatched(directive.kind, &progress.arms);
    note_if(&mut progress.least, unmatched, 8, place);
    let (value, form) = evaluated(alloc, source, directive, progress)?;
    let told = told_by(alloc, directive.kind, &value)?;
    let is_bad = line.fault.is_none() && told.is_bad;
    if stands_on_kept(directive.kind, &progress.arms) {
        note_fault(&mut progress.least, line.fault);
        note_if(&mut progress.least, !form, 7, place);
        note_if(&mut progress.least, is_bad, 9, expression_place(directive));
    }
    define(alloc, source, directive, value, &mut progress.constants)?;
    pass(&mut progress.arms, directive.kind, place, told.holds)
}

/// Passes a line. Is it kept?
fn pass_line(
    alloc: Global,
    source: &Units,
    line: &Line,
    progress: &mut Progress,
) -> Result<bool, NoMemory>
    requires line { LiesIn source.now line.now }
    requires told { AreTold progress.old.arms.items }
    ensures told { OnOk result (AreTold progress.new.arms.items) }
    ensures standing { OnOk result (standing_view progress.new ≡ selection.behind source.now (standing_view progress.old) (line_view line.now)) }
    ensures least { OnOk result (progress.new.least ≡ order.least_of progress.old.least (selection.line_violations source.now (standing_view progress.old) (line_view line.now))) }
    ensures kept { IfOk result (λ kept. kept ≡ selection.is_kept_line source.now (standing_view progress.old) (line_view line.now)) }
{
    if let Some(directive) = directive_in(alloc, source, line.tokens.as_slice())? {
        pass_directive(alloc, source, line, &directive, progress)?;
        return Ok(false);
    }
    let kept = is_kept(&progress.arms);
    if kept {
        note_fault(&mut progress.least, line.fault);
    }
    Ok(kept)
}

/// Notes each `#If` that has no end.
fn note_unclosed(arms: &mut Vec<Enclosing>, least: &mut Option<Refusal>)
    ensures { least.new ≡ order.least_of least.old (selection.unclosed (arms_view arms.old.items)) }
{
    while let Some(enclosing) = arms.pop() {
        note_if(least, true, 8, enclosing.arm.place);
    }
}

/// Defines a name before the first line.
fn predefine(
    alloc: Global,
    name: &[u16],
    value: bool,
    constants: &mut Vec<Constant>,
) -> Result<(), NoMemory>
    ensures { OnOk result (constants_view constants.new.items ≡ selection.predefined name.now value ∷ constants_view constants.old.items) }
{
    let name = name_of(alloc, name)?;
    let value = Value::Boolean(value);
    constants.push(Constant { name, value })?;
    Ok(())
}

/// What stands before the first line.
fn opening(alloc: Global) -> Result<Progress, NoMemory>
    ensures standing { IfOk result (λ progress. standing_view progress ≡ selection.opening) }
    ensures told { IfOk result (λ progress. AreTold progress.arms.items) }
    ensures least { IfOk result (λ progress. progress.least ≡ None) }
{
    let mut constants = Vec::new(alloc);
    predefine(alloc, &MAC, false, &mut constants)?;
    predefine(alloc, &WIN16, false, &mut constants)?;
    predefine(alloc, &WIN64, true, &mut constants)?;
    predefine(alloc, &WIN32, true, &mut constants)?;
    predefine(alloc, &VBA7, true, &mut constants)?;
    predefine(alloc, &VBA6, true, &mut constants)?;
    Ok(Progress {
        constants,
        arms: Vec::new(alloc),
        least: None,
    })
}

/// A copy of a line.
fn copy_line(alloc: Global, line: &Line) -> Result<Line, NoMemory>
    ensures { IfOk result (λ copy. line_view copy ≡ line_view line.now) }
{
    let tokens = Vec::from_slice(alloc, line.tokens.as_slice())?;
    Ok(Line {
        tokens,
        place: line.place,
        fault: line.fault,
    })
}

/// Passes a line before others, and keeps it where it is kept.
#[tactic(auto, using(crate::proofs::Least::more_violations, crate::proofs::Least::kept_more, crate::proofs::Least::not_kept))]
fn pass_first(
    alloc: Global,
    source: &Units,
    line: &Line,
    _rest: &[Line],
    progress: &mut Progress,
    kept: &mut Vec<Line>,
) -> Result<(), NoMemory>
    requires line { LiesIn source.now line.now }
    requires told { AreTold progress.old.arms.items }
    ensures told { OnOk result (AreTold progress.new.arms.items) }
    ensures kept { OnOk result (lines_view kept.new.items ++ selection.kept_lines source.now (standing_view progress.new) (lines_view _rest.now)
        ≡ lines_view kept.old.items ++ selection.kept_lines source.now (standing_view progress.old) (line_view line.now ∷ lines_view _rest.now)) }
    ensures least { OnOk result (order.least_of progress.new.least (selection.violations source.now (standing_view progress.new) (lines_view _rest.now))
        ≡ order.least_of progress.old.least (selection.violations source.now (standing_view progress.old) (line_view line.now ∷ lines_view _rest.now))) }
{
    if pass_line(alloc, source, line, progress)? {
        kept.push(copy_line(alloc, line)?)?;
    }
    Ok(())
}

/// Passes the lines and gives those that are kept.
fn pass_lines(
    alloc: Global,
    source: &Units,
    lines: &[Line],
    progress: &mut Progress,
) -> Result<Vec<Line>, NoMemory>
    requires lines { AllLieIn source.now lines.now }
    requires told { AreTold progress.old.arms.items }
    ensures kept { IfOk result (λ kept. lines_view kept.items ≡ selection.kept_lines source.now (standing_view progress.old) (lines_view lines.now)) }
    ensures least { OnOk result (order.least_of progress.new.least (selection.unclosed (arms_view progress.new.arms.items))
        ≡ order.least_of progress.old.least (selection.violations source.now (standing_view progress.old) (lines_view lines.now))) }
{
    let mut kept = Vec::new(alloc);
    let mut left = lines;
    while let [line, rest @ ..] = left {
        pass_first(alloc, source, line, rest, progress, &mut kept)?;
        left = rest;
    }
    Ok(kept)
}

/// The lines that conditional compilation keeps, each as it was, without the directives. The tokens of the lines have to lie
/// in the source, as those do that `lex` gives of it.
///
/// Refuses exactly where one of the rules S7, S8 and S9 is broken, or a kept line or a directive on kept ground breaks one
/// of S1 to S6; with the least by place and then rule.
pub fn select_lines(
    alloc: Global,
    source: &Units,
    lines: &Vec<Line>,
) -> Result<Vec<Line>, OrMemory<Refusal>>
    requires { AllLieIn source.now lines.now.items }
    ensures { Gives (λ kept. lines_view kept.items) result (selection.selected source.now (lines_view lines.now.items)) }
{
    let mut progress = opening(alloc)?;
    let kept = pass_lines(alloc, source, lines.as_slice(), &mut progress)?;
    let mut least = progress.least;
    note_unclosed(&mut progress.arms, &mut least);
    match least {
        Some(refusal) => Err(OrMemory::Fault(refusal)),
        None => Ok(kept),
    }
}

// The ways along the instructions of a code.
ghost use Rattle.std.specs.Prelude.{◌≡◌, ◌↔◌, List, [], Some, IsTrue, IfOk, option_map};
ghost use Rattle.bound_project.specs.Pieces.{Tables};
ghost use Rattle.pcode.specs.View.{code_view, instr_view, tables_of};
ghost use Rattle.pcode.specs.WellFormed as plain;
ghost use Rattle.pcode.specs.WellFormed.{along, along_all, no_way};
ghost use Rattle.code_check.specs.Effects.{begun_by, behind_effect, given_by, takes_off};
ghost use Rattle.code_check.specs.View.{operands_view, step_found, step_way, way_of};

use crate::effects::{Effect, Gives, Takes, effect_of};
use crate::operands::{Kind, Operands};
use pcode::{Code, Instr};
use std::alloc::Global;
use vba_base::NoMemory;

/// Where a way leads behind an instruction: on, or to no operands at a statement's end; or its operands aren't there.
#[derive(Clone, Copy)]
pub enum Step {
    On,
    Over,
    Missing,
}

// Where no way leads to an instruction.
fn begin(effect: Effect) -> Step
    ensures { begun_by effect ≡ step_way result [] }
{
    match effect {
        Effect::Begins => Step::On,
        Effect::Leaves => Step::Over,
        Effect::Reorders { .. } | Effect::Lifts { .. } | Effect::Does(_, _) => Step::Missing,
    }
}

// What an instruction gives behind what it took.
fn give(operands: &mut Operands, gives: Gives) -> Result<Step, NoMemory>
    ensures { IfOk result (λ step. given_by gives (operands_view operands.old) ≡ step_way step (operands_view operands.new)) }
{
    match gives {
        Gives::Nothing => Ok(Step::On),
        Gives::Value => {
            operands.put(Kind::Value)?;
            Ok(Step::On)
        }
        Gives::Path => {
            operands.put(Kind::Path)?;
            Ok(Step::On)
        }
        Gives::TwoValues => {
            operands.put(Kind::Value)?;
            operands.put(Kind::Value)?;
            Ok(Step::On)
        }
        Gives::PathAndTwoValues => {
            operands.put(Kind::Path)?;
            operands.put(Kind::Value)?;
            operands.put(Kind::Value)?;
            Ok(Step::On)
        }
        Gives::End => Ok(ended(operands)),
    }
}

// Nothing is left where a statement ends.
fn ended(operands: &Operands) -> Step
    ensures { given_by Gives.End (operands_view operands.now) ≡ step_way result (operands_view operands.now) }
{
    if operands.is_empty() {
        Step::Over
    } else {
        Step::Missing
    }
}

fn found(is_found: bool) -> Step
    ensures { result ≡ step_found is_found }
{
    if is_found { Step::On } else { Step::Missing }
}

// Arguments are put in an order of the code.
fn reorder(
    operands: &mut Operands,
    code: &Code,
    order: u32,
    arguments: u32,
) -> Result<Step, NoMemory>
    ensures { IfOk result (λ step. behind_effect (tables_of code.now) (Effect.Reorders order arguments) (operands_view operands.old) ≡ step_way step (operands_view operands.new)) }
{
    let is_found = operands.reorder(code.order(order), arguments)?;
    Ok(found(is_found))
}

// The value below arguments comes to stand above them.
fn lift(operands: &mut Operands, arguments: u32) -> Result<Step, NoMemory>
    ensures { IfOk result (λ step. (t : Tables) → behind_effect t (Effect.Lifts arguments) (operands_view operands.old) ≡ step_way step (operands_view operands.new)) }
{
    let is_found = operands.lift(arguments)?;
    Ok(found(is_found))
}

// Operands are taken, and others given.
fn take_and_give(operands: &mut Operands, takes: Takes, gives: Gives) -> Result<Step, NoMemory>
    ensures { IfOk result (λ step. takes_off takes (operands_view operands.old) (given_by gives) ≡ step_way step (operands_view operands.new)) }
{
    if !operands.take(takes) {
        return Ok(Step::Missing);
    }
    give(operands, gives)
}

// Where a way brings operands to an instruction.
fn go_on(operands: &mut Operands, code: &Code, effect: Effect) -> Result<Step, NoMemory>
    ensures { IfOk result (λ step. behind_effect (tables_of code.now) effect (operands_view operands.old) ≡ step_way step (operands_view operands.new)) }
{
    match effect {
        Effect::Begins | Effect::Leaves => Ok(Step::Missing),
        Effect::Reorders { order, arguments } => reorder(operands, code, order, arguments),
        Effect::Lifts { arguments } => lift(operands, arguments),
        Effect::Does(takes, gives) => take_and_give(operands, takes, gives),
    }
}

// Behind an instruction.
fn follow(
    operands: &mut Operands,
    is_begun: bool,
    code: &Code,
    instr: Instr,
) -> Result<Step, NoMemory>
    ensures { IfOk result (λ step. along (instr_view (tables_of code.now) instr) (way_of is_begun (operands_view operands.old)) ≡ step_way step (operands_view operands.new)) }
{
    let effect = effect_of(instr);
    if is_begun {
        return go_on(operands, code, effect);
    }
    operands.clear();
    Ok(begin(effect))
}

// Whether a way leads on behind a step; None where operands are missing.
fn begun_behind(step: Step) -> Option<bool>
    ensures { (ks : List plain.Kind) → step_way step ks ≡ option_map (λ begun. way_of begun ks) result }
{
    match step {
        Step::On => Some(true),
        Step::Over => Some(false),
        Step::Missing => None,
    }
}

/// Whether each instruction of a code finds its operands.
pub fn operands_are_found(alloc: Global, code: &Code) -> Result<bool, NoMemory>
    ensures { IfOk result (λ found. IsTrue found ↔ (along_all (code_view code.now).instrs no_way ≡ Some no_way)) }
{
    let mut operands = Operands::new(alloc);
    let mut is_begun = false;
    for instr in &code.instrs {
        let step = follow(&mut operands, is_begun, code, *instr)?;
        let Some(begun) = begun_behind(step) else {
            return Ok(false);
        };
        is_begun = begun;
    }
    Ok(!is_begun)
}

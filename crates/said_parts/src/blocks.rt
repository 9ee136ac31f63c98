//! What lines of blocks say.

ghost use Rattle.std.specs.Prelude.{◌≡◌, [], ◌∷◌, ◌++◌, OnOk, flat_map, option_map};
ghost use Rattle.binder.specs.Said as plain;
ghost use Rattle.said_parts.specs.View.{all_said};
ghost use Rattle.vba_expression.specs.View as expressions;
ghost use Rattle.vba_module.specs.Headers.{all_of};
ghost use Rattle.vba_tree.specs.View as views;
ghost use Rattle.vba_expression.specs.Tree.{name};

use crate::said::{Said, push_said};
use vba_base::NoMemory;
use vba_expression::Expression;
use vba_tree::{BlockLine, CaseTest, Listed, LoopCondition, StepClause};
use vba_words::Identifier;

/// A test of a Case line.
fn push_test<'a>(said: &mut Vec<Said<'a>>, test: &'a CaseTest) -> Result<(), NoMemory>
    ensures { OnOk result (all_said said.new.items ≡ all_said said.old.items ++ plain.test_said (views.test_view test.now)) }
{
    match test {
        CaseTest::Value(value) | CaseTest::Comparison { value, .. } => {
            push_said(said, Said::Expression(value))
        }
        CaseTest::Range { low, high, .. } => {
            push_said(said, Said::Expression(low))?;
            push_said(said, Said::Expression(high))
        }
    }
}

/// The tests of a Case line.
fn push_tests<'a>(said: &mut Vec<Said<'a>>, tests: &'a Listed<CaseTest>) -> Result<(), NoMemory>
    ensures { OnOk result (all_said said.new.items ≡ all_said said.old.items
        ++ flat_map plain.test_said (all_of (views.listed_view views.test_view tests.now))) }
{
    push_test(said, &tests.first)?;
    for next in &tests.others {
        push_test(said, &next.item)?;
    }
    Ok(())
}

/// The step of a For line, where it is written.
fn push_step<'a>(said: &mut Vec<Said<'a>>, step: &'a Option<StepClause>) -> Result<(), NoMemory>
    ensures { OnOk result (all_said said.new.items ≡ all_said said.old.items ++ plain.step_said (option_map views.step_view step.now)) }
{
    match step {
        Some(step) => push_said(said, Said::Expression(&step.value)),
        None => Ok(()),
    }
}

/// The condition of a Do or Loop line, where it is written.
fn push_condition<'a>(
    said: &mut Vec<Said<'a>>,
    condition: &'a Option<LoopCondition>,
) -> Result<(), NoMemory>
    ensures { OnOk result (all_said said.new.items ≡ all_said said.old.items
        ++ plain.condition_said (option_map views.loop_condition_view condition.now)) }
{
    match condition {
        Some(written) => push_said(said, Said::Expression(&written.condition)),
        None => Ok(()),
    }
}

/// The variable and the bounds of a For line.
fn push_for<'a>(
    said: &mut Vec<Said<'a>>,
    counter: &'a Identifier,
    start: &'a Expression,
    limit: &'a Expression,
    step: &'a Option<StepClause>,
) -> Result<(), NoMemory>
    ensures { OnOk result (all_said said.new.items ≡ all_said said.old.items
        ++ (plain.expression (name counter.now) ∷ plain.expression (expressions.view start.now) ∷ plain.expression (expressions.view limit.now)
        ∷ plain.step_said (option_map views.step_view step.now))) }
{
    push_said(said, Said::Counter(counter))?;
    push_said(said, Said::Expression(start))?;
    push_said(said, Said::Expression(limit))?;
    push_step(said, step)
}

/// The variable and the group of a For Each line.
fn push_for_each<'a>(
    said: &mut Vec<Said<'a>>,
    element: &'a Identifier,
    group: &'a Expression,
) -> Result<(), NoMemory>
    ensures { OnOk result (all_said said.new.items ≡ all_said said.old.items
        ++ (plain.expression (name element.now) ∷ plain.expression (expressions.view group.now) ∷ [])) }
{
    push_said(said, Said::Counter(element))?;
    push_said(said, Said::Expression(group))
}

/// A line of a block. The name behind Next is compared alone.
pub fn push_block<'a>(said: &mut Vec<Said<'a>>, line: &'a BlockLine) -> Result<(), NoMemory>
    ensures { OnOk result (all_said said.new.items ≡ all_said said.old.items ++ plain.block_said (views.block_line_view line.now)) }
{
    match line {
        BlockLine::If { condition, .. }
        | BlockLine::ElseIf { condition, .. }
        | BlockLine::While { condition, .. } => push_said(said, Said::Expression(condition)),
        BlockLine::SelectCase { value, .. } => push_said(said, Said::Expression(value)),
        BlockLine::With { object, .. } => push_said(said, Said::Expression(object)),
        BlockLine::Case { tests, .. } => push_tests(said, tests),
        BlockLine::For {
            counter,
            start,
            limit,
            step,
            ..
        } => push_for(said, counter, start, limit, step),
        BlockLine::ForEach { element, group, .. } => push_for_each(said, element, group),
        BlockLine::Do { condition, .. } | BlockLine::Loop { condition, .. } => {
            push_condition(said, condition)
        }
        BlockLine::Else(_)
        | BlockLine::EndIf { .. }
        | BlockLine::CaseElse { .. }
        | BlockLine::EndSelect { .. }
        | BlockLine::Next { .. }
        | BlockLine::Wend(_)
        | BlockLine::EndWith { .. } => Ok(()),
    }
}

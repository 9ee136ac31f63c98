//! Case lines, and the value that they are asked of.

ghost use Rattle.std.specs.Prelude.{◌≡◌, [], ◌∷◌, List, Option, Some, IfOk, OnOk, map};
ghost use Rattle.statement_nodes.specs.Actions.{OperandIs, case_in};
ghost use Rattle.statement_nodes.specs.Reads.{ItemPushed, Read};
ghost use Rattle.bound_lines.specs.Round.{StandsAt, around_view};
ghost use Rattle.constant_values.specs.declared_names.specs.binder.specs.Constants.{place_of_expression};
ghost use Rattle.bound_terms.specs.bound_accesses.specs.bound_names.specs.bound_members.specs.bound_calls.specs.bound_forms.specs.ExpressionsBound.{bound_operand};
ghost use Rattle.constant_values.specs.declared_names.specs.binder.specs.Options.{from_two, from_three};
ghost use Rattle.bound_terms.specs.bound_accesses.specs.bound_names.specs.bound_members.specs.bound_calls.specs.bound_forms.specs.StatementsBound.{case_tests, selected};
ghost use Rattle.bound_project.specs.DraftView.{draft_view};
ghost use Rattle.bound_project.specs.Drafts.{Drafted};
ghost use Rattle.bound_project.specs.Pieces as piece;
ghost use Rattle.bound_project.specs.Statements.{Tests, no_tests, test_is, test_range};
ghost use Rattle.statement_nodes.specs.Pushed.{ActionPushed};
ghost use Rattle.bound_terms.specs.bound_accesses.specs.bound_names.specs.View.{EnvStands, env_view};
ghost use Rattle.statement_nodes.specs.statement_numbers.specs.View.{standing_view};
ghost use Rattle.vba_expression.specs.View.{view as expression_view};
ghost use Rattle.vba_module.specs.Headers.{all_of, items_of};
ghost use Rattle.vba_tree.specs.Tree as tree;
ghost use Rattle.vba_tree.specs.View.{listed_view, test_view};

use crate::around::Around;
use crate::values::push_operand;
use bound_project::{ActionKind, DeclaredType, Draft};
use bound_terms::bound_accesses::bound_names::Env;
use bound_terms::bound_accesses::bound_names::bound_members::bound_calls::bound_declarations::NotYet;
use constant_values::declared_names::module_parts::expression_place;
use constant_values::operator_kind;
use statement_nodes::statement_numbers::{Sought, Standing, plus};
use statement_nodes::{begin_test, end_range, end_test, header_of, selected_value};
use std::alloc::Global;
use vba_base::{OrMemory, Place};
use vba_expression::Expression;
use vba_tree::{CaseTest, Listed, Next};
use vba_values::OpKind;

/// Pushes a test of one value, which is told at a place.
fn push_is<'a>(
    alloc: Global,
    draft: &mut Draft,
    env: Env<'a>,
    operator: OpKind,
    at: Place,
    value: &'a Expression,
) -> Result<(), OrMemory<NotYet>>
    requires { EnvStands env }
    ensures { OnOk result ((rest : Option Tests)
        → ItemPushed Tests piece.tests_off (from_two (test_is operator at) (bound_operand (env_view env.entry) (expression_view value.now)) rest) rest
        (draft_view draft.old) (draft_view draft.new)) }
{
    begin_test(draft)?;
    let of = push_operand(alloc, draft, env, value)?;
    end_test(draft, operator, at, of)?;
    Ok(())
}

/// Pushes a test of two values.
fn push_range<'a>(
    alloc: Global,
    draft: &mut Draft,
    env: Env<'a>,
    low: &'a Expression,
    high: &'a Expression,
) -> Result<(), OrMemory<NotYet>>
    requires { EnvStands env }
    ensures { OnOk result ((rest : Option Tests)
        → ItemPushed Tests piece.tests_off
        (from_three (λ a b us. test_range a b (place_of_expression (expression_view low.now)) (place_of_expression (expression_view high.now)) us)
        (bound_operand (env_view env.entry) (expression_view low.now)) (bound_operand (env_view env.entry) (expression_view high.now)) rest) rest
        (draft_view draft.old) (draft_view draft.new)) }
{
    begin_test(draft)?;
    let low_of = push_operand(alloc, draft, env, low)?;
    let high_of = push_operand(alloc, draft, env, high)?;
    let low_at = expression_place(low);
    let high_at = expression_place(high);
    end_range(draft, low_of, high_of, low_at, high_at)?;
    Ok(())
}

/// Pushes a test.
fn push_test<'a>(
    alloc: Global,
    draft: &mut Draft,
    env: Env<'a>,
    test: &'a CaseTest,
) -> Result<(), OrMemory<NotYet>>
    requires { EnvStands env }
    ensures { OnOk result ((rest : List tree.CaseTest)
        → ItemPushed Tests piece.tests_off (case_tests (env_view env.entry) (test_view test.now ∷ rest)) (case_tests (env_view env.entry) rest)
        (draft_view draft.old) (draft_view draft.new)) }
{
    match test {
        CaseTest::Value(value) => {
            push_is(
                alloc,
                draft,
                env,
                OpKind::Eq,
                expression_place(value),
                value,
            )
        }
        CaseTest::Range { low, high, .. } => push_range(alloc, draft, env, low, high),
        CaseTest::Comparison {
            operator,
            operator_token,
            value,
            ..
        } => match operator_kind(*operator) {
            Some(operator) => push_is(alloc, draft, env, operator, operator_token.place, value),
            None => Err(OrMemory::Fault(NotYet)),
        },
    }
}

/// Pushes a test behind so many; answers how many there are then.
#[tactic(auto, using(statement_nodes::proofs::Items::read_more))]
fn push_next<'a>(
    alloc: Global,
    draft: &mut Draft,
    env: Env<'a>,
    test: &'a CaseTest,
    before: u32,
) -> Result<u32, OrMemory<NotYet>>
    requires { EnvStands env }
    ensures { IfOk result (λ count. (all : Option Tests) (rest : List tree.CaseTest) (base : Drafted)
        → Read Tests piece.tests_off all (case_tests (env_view env.entry) (test_view test.now ∷ rest)) before base (draft_view draft.old)
        → Read Tests piece.tests_off all (case_tests (env_view env.entry) rest) count base (draft_view draft.new)) }
{
    push_test(alloc, draft, env, test)?;
    Ok(plus(before, 1)?)
}

/// Pushes the tests behind commas behind so many; answers how many there are then.
fn push_behind<'a>(
    alloc: Global,
    draft: &mut Draft,
    env: Env<'a>,
    others: &'a [Next<CaseTest>],
    before: u32,
) -> Result<u32, OrMemory<NotYet>>
    requires { EnvStands env }
    ensures { IfOk result (λ count. (all : Option Tests) (base : Drafted)
        → Read Tests piece.tests_off all (case_tests (env_view env.entry) (items_of (map (λ next. (next.mark, test_view next.item)) others.now))) before base (draft_view draft.old)
        → Read Tests piece.tests_off all (Some no_tests) count base (draft_view draft.new)) }
{
    let mut pushed = before;
    let mut left = others;
    'tests: while let [next, behind @ ..] = left {
        pushed = push_next(alloc, draft, env, &next.item, pushed)?;
        left = behind;
    }
    Ok(pushed)
}

/// Pushes tests; answers how many they are.
fn push_tests<'a>(
    alloc: Global,
    draft: &mut Draft,
    env: Env<'a>,
    list: &'a Listed<CaseTest>,
) -> Result<u32, OrMemory<NotYet>>
    requires { EnvStands env }
    ensures { IfOk result (λ count. Read Tests piece.tests_off (case_tests (env_view env.entry) (all_of (listed_view test_view list.now))) (Some no_tests) count
        (draft_view draft.old) (draft_view draft.new)) }
{
    let pushed = push_next(alloc, draft, env, &list.first, 0)?;
    let count = push_behind(alloc, draft, env, list.others.as_slice(), pushed)?;
    Ok(count)
}

/// The type that a value has as an operand: it is asked of a draft of its own.
fn operand_type<'a>(
    alloc: Global,
    env: Env<'a>,
    value: &'a Expression,
) -> Result<DeclaredType, OrMemory<NotYet>>
    requires { EnvStands env }
    ensures { IfOk result (λ of. OperandIs (bound_operand (env_view env.entry) (expression_view value.now)) of) }
{
    let mut draft = Draft::new(alloc);
    push_operand(alloc, &mut draft, env, value)
}

/// The type that the value of the Select Case that stands open has as an operand.
fn selected_type<'a>(
    alloc: Global,
    around: Around<'a>,
    standing: Standing<'a>,
) -> Result<DeclaredType, OrMemory<NotYet>>
    requires env { EnvStands around.env }
    requires placed { StandsAt around (standing_view standing) }
    ensures { IfOk result (λ of. OperandIs (selected (around_view around.entry) (standing_view standing.entry).around) of) }
{
    match selected_value(standing) {
        Some(value) => operand_type(alloc, around.env, value),
        None => Err(OrMemory::Fault(NotYet)),
    }
}

/// `Case tests`
#[tactic(auto, using(statement_nodes::proofs::Ended::case_pushed))]
pub(crate) fn bind_case<'a>(
    alloc: Global,
    draft: &mut Draft,
    around: Around<'a>,
    standing: Standing<'a>,
    tests: &'a Listed<CaseTest>,
) -> Result<ActionKind, OrMemory<NotYet>>
    requires env { EnvStands around.env }
    requires empty { (draft_view draft.old).pieces ≡ [] }
    requires placed { StandsAt around (standing_view standing) }
    ensures { IfOk result (λ kind. ActionPushed kind
        (case_in (env_view around.entry.env) (around_view around.entry) (standing_view standing.entry) (all_of (listed_view test_view tests.now)))
        (draft_view draft.old) (draft_view draft.new)) }
{
    let first = standing.sought_behind(Sought::Here)?;
    let other = standing.sought_behind(Sought::Arm(0))?;
    let of = selected_type(alloc, around, standing)?;
    let tests = push_tests(alloc, draft, around.env, tests)?;
    Ok(ActionKind::Case {
        tests,
        header: header_of(standing),
        of,
        compare: around.env.compare,
        first,
        other,
    })
}

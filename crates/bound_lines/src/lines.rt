//! Lines of blocks.

ghost use Rattle.std.specs.Prelude.{◌≡◌, true, [], IfOk, option_map};
ghost use Rattle.statement_nodes.specs.Actions.{block_in, branch_in, done_alone, is_alone};
ghost use Rattle.bound_lines.specs.Round.{StandsAt, around_view};
ghost use Rattle.bound_terms.specs.bound_accesses.specs.bound_names.specs.bound_members.specs.bound_calls.specs.bound_forms.specs.ExpressionsBound.{bound_as_given, bound_operand};
ghost use Rattle.constant_values.specs.declared_names.specs.binder.specs.Numbering.{an_arm, sought_behind};
ghost use Rattle.bound_terms.specs.bound_accesses.specs.bound_names.specs.bound_members.specs.bound_calls.specs.bound_forms.specs.StatementsBound as plain;
ghost use Rattle.bound_project.specs.DraftView.{draft_view};
ghost use Rattle.bound_project.specs.Statements as plain_to;
ghost use Rattle.statement_nodes.specs.Pushed.{ActionPushed};
ghost use Rattle.bound_terms.specs.bound_accesses.specs.bound_names.specs.View.{EnvStands, env_view};
ghost use Rattle.statement_nodes.specs.statement_numbers.specs.View.{sought_view, standing_view};
ghost use Rattle.vba_expression.specs.View.{view as expression_view};
ghost use Rattle.vba_tree.specs.View.{block_line_view, loop_condition_view};

use crate::around::Around;
use crate::case_lines::bind_case;
use crate::for_lines::{bind_for, bind_for_each, bind_next};
use crate::places::bind_with;
use crate::values::{push_given, push_operand};
use bound_project::{ActionKind, Draft};
use bound_terms::bound_accesses::bound_names::Env;
use bound_terms::bound_accesses::bound_names::bound_members::bound_calls::bound_declarations::NotYet;
use statement_nodes::statement_numbers::{Sought, Standing};
use statement_nodes::{header_of, there};
use std::alloc::Global;
use vba_base::OrMemory;
use vba_expression::Expression;
use vba_tree::{BlockLine, LoopCondition, LoopWord};

/// A condition: where it is as told, control goes to one statement, and else to the other.
#[tactic(auto, using(statement_nodes::proofs::Ended::test_pushed))]
pub(crate) fn bind_test<'a>(
    alloc: Global,
    draft: &mut Draft,
    env: Env<'a>,
    sense: bool,
    condition: &'a Expression,
    to: u32,
    other: u32,
) -> Result<ActionKind, OrMemory<NotYet>>
    requires env { EnvStands env }
    requires empty { (draft_view draft.old).pieces ≡ [] }
    ensures { IfOk result (λ kind. ActionPushed kind
        (option_map (λ c. plain_to.test sense c to other) (bound_operand (env_view env.entry) (expression_view condition.now)))
        (draft_view draft.old) (draft_view draft.new)) }
{
    push_operand(alloc, draft, env, condition)?;
    Ok(ActionKind::Test { sense, to, other })
}

/// The condition of a line: where it holds, control goes to the first statement of its block, and else elsewhere.
fn bind_branch<'a>(
    alloc: Global,
    draft: &mut Draft,
    env: Env<'a>,
    standing: Standing<'a>,
    condition: &'a Expression,
    elsewhere: Sought,
) -> Result<ActionKind, OrMemory<NotYet>>
    requires env { EnvStands env }
    requires empty { (draft_view draft.old).pieces ≡ [] }
    ensures { IfOk result (λ kind. ActionPushed kind
        (branch_in (env_view env.entry) (standing_view standing.entry) (sought_view elsewhere) (expression_view condition.now))
        (draft_view draft.old) (draft_view draft.new)) }
{
    let first = standing.sought_behind(Sought::Here)?;
    let other = standing.sought_behind(elsewhere)?;
    bind_test(alloc, draft, env, true, condition, first, other)
}

/// `Select Case value`
#[tactic(auto, using(statement_nodes::proofs::Ended::select_pushed))]
fn bind_select<'a>(
    alloc: Global,
    draft: &mut Draft,
    env: Env<'a>,
    standing: Standing<'a>,
    value: &'a Expression,
) -> Result<ActionKind, OrMemory<NotYet>>
    requires env { EnvStands env }
    requires empty { (draft_view draft.old).pieces ≡ [] }
    ensures { IfOk result (λ kind. ActionPushed kind
        (option_map (λ v. plain_to.select v (sought_behind (an_arm 0) (standing_view standing.entry))) (bound_as_given (env_view env.entry) (expression_view value.now)))
        (draft_view draft.old) (draft_view draft.new)) }
{
    let first = standing.sought_behind(Sought::Arm(0))?;
    push_given(alloc, draft, env, value)?;
    Ok(ActionKind::Select { first })
}

/// Is it `While`?
fn is_while(word: LoopWord) -> bool
    ensures { result ≡ plain.is_while word }
{
    match word {
        LoopWord::While => true,
        LoopWord::Until => false,
    }
}

/// `Do` and `Loop`, with a condition or without.
#[tactic(auto, using(statement_nodes::proofs::Ended::gone_to))]
fn bind_loop<'a>(
    alloc: Global,
    draft: &mut Draft,
    env: Env<'a>,
    condition: &'a Option<LoopCondition>,
    to: u32,
    behind: u32,
) -> Result<ActionKind, OrMemory<NotYet>>
    requires env { EnvStands env }
    requires empty { (draft_view draft.old).pieces ≡ [] }
    ensures { IfOk result (λ kind. ActionPushed kind
        (plain.loop_action (env_view env.entry) (option_map loop_condition_view condition.now) to behind)
        (draft_view draft.old) (draft_view draft.new)) }
{
    match condition {
        None => Ok(ActionKind::GoTo { to }),
        Some(condition) => bind_test(
            alloc,
            draft,
            env,
            is_while(condition.word),
            &condition.condition,
            to,
            behind,
        ),
    }
}

/// What a line without a condition or a value does, in its scope.
fn alone_line<'a>(
    around: Around<'a>,
    standing: Standing<'a>,
    line: &'a BlockLine,
) -> Result<ActionKind, OrMemory<NotYet>>
    requires { EnvStands around.env }
    ensures alone { IfOk result (λ kind. is_alone kind ≡ true) }
    ensures is { IfOk result (λ kind. (block_in (env_view around.entry.env) (around_view around.entry) (standing_view standing.entry) (block_line_view line.now)) ≡ done_alone kind) }
{
    match line {
        BlockLine::Wend(_) => Ok(ActionKind::GoTo {
            to: header_of(standing),
        }),
        BlockLine::EndWith { .. } => Ok(ActionKind::EndWith {
            header: header_of(standing),
        }),
        _ => Err(OrMemory::Fault(NotYet)),
    }
}

/// A line of a block, in its scope.
#[tactic(auto, using(statement_nodes::proofs::Ended::plainly))]
pub fn bind_line<'a>(
    alloc: Global,
    draft: &mut Draft,
    around: Around<'a>,
    standing: Standing<'a>,
    line: &'a BlockLine,
) -> Result<ActionKind, OrMemory<NotYet>>
    requires env { EnvStands around.env }
    requires empty { (draft_view draft.old).pieces ≡ [] }
    requires placed { StandsAt around (standing_view standing) }
    ensures { IfOk result (λ kind. ActionPushed kind
        (block_in (env_view around.entry.env) (around_view around.entry) (standing_view standing.entry) (block_line_view line.now))
        (draft_view draft.old) (draft_view draft.new)) }
{
    let env = around.env;
    match line {
        BlockLine::If { condition, .. } | BlockLine::ElseIf { condition, .. } => {
            bind_branch(alloc, draft, env, standing, condition, Sought::Arm(0))
        }
        BlockLine::While { condition, .. } => {
            let behind = Sought::BehindBlock(0);
            bind_branch(alloc, draft, env, standing, condition, behind)
        }
        BlockLine::SelectCase { value, .. } => bind_select(alloc, draft, env, standing, value),
        BlockLine::Case { tests, .. } => bind_case(alloc, draft, around, standing, tests),
        BlockLine::For {
            counter,
            start,
            limit,
            step,
            ..
        } => bind_for(alloc, draft, env, standing, counter, start, limit, step),
        BlockLine::ForEach { element, group, .. } => {
            bind_for_each(alloc, draft, env, standing, element, group)
        }
        BlockLine::Next { counter, .. } => bind_next(alloc, draft, env, standing, counter),
        BlockLine::Do { condition, .. } => {
            let first = standing.sought_behind(Sought::Here)?;
            let behind = standing.sought_behind(Sought::BehindBlock(0))?;
            bind_loop(alloc, draft, env, condition, first, behind)
        }
        BlockLine::Loop { condition, .. } => {
            let behind = standing.sought_behind(Sought::Here)?;
            bind_loop(alloc, draft, env, condition, header_of(standing), behind)
        }
        BlockLine::With { object, .. } => there(bind_with(alloc, draft, env, object)?),
        _ => alone_line(around, standing, line),
    }
}

//! For, For Each and Next.

ghost use Rattle.std.specs.Prelude.{◌≡◌, true, [], Some, IfOk, option_map};
ghost use Rattle.statement_nodes.specs.Actions.{ForValues, ValuePushed, counted_in, done_alone, each_in, for_in, is_alone, next_in};
ghost use Rattle.bound_terms.specs.bound_accesses.specs.bound_names.specs.bound_members.specs.bound_calls.specs.bound_forms.specs.ExpressionsBound.{bound_operand};
ghost use Rattle.bound_terms.specs.bound_accesses.specs.bound_names.specs.bound_members.specs.bound_calls.specs.bound_forms.specs.StatementsBound as plain;
ghost use Rattle.bound_project.specs.DraftView.{draft_view};
ghost use Rattle.bound_project.specs.View.{variable_view};
ghost use Rattle.statement_nodes.specs.Pushed.{ActionPushed};
ghost use Rattle.bound_terms.specs.bound_accesses.specs.bound_names.specs.View.{EnvStands, env_view};
ghost use Rattle.statement_nodes.specs.statement_numbers.specs.View.{standing_view};
ghost use Rattle.vba_expression.specs.View.{view as expression_view};
ghost use Rattle.vba_tree.specs.View.{step_view};

use crate::values::{counter_of, push_group, push_operand};
use bound_project::{ActionKind, DeclaredType, Draft, ElementType, NodeKind, Variable};
use bound_terms::bound_accesses::bound_names::Env;
use bound_terms::bound_accesses::bound_names::bound_members::bound_calls::bound_declarations::NotYet;
use bound_terms::bound_accesses::bound_names::bound_members::bound_calls::push_node;
use constant_values::declared_names::module_parts::{expression_place, place_of};
use statement_nodes::statement_numbers::{Sought, Standing};
use statement_nodes::{
    goes_over, innermost_block, is_counting, is_other_name, loop_name, mark, name_place,
    opening_line, push_integer, push_walked, step_place,
};
use std::alloc::Global;
use vba_base::{OrMemory, Place, Refusal};
use vba_expression::Expression;
use vba_tree::{BlockLine, StepClause};
use vba_words::Identifier;

/// Pushes the step of a For; answers the type that it has as an operand.
fn push_step<'a>(
    alloc: Global,
    draft: &mut Draft,
    env: Env<'a>,
    place: Place,
    step: &'a Option<StepClause>,
) -> Result<DeclaredType, OrMemory<NotYet>>
    requires { EnvStands env }
    ensures { IfOk result (λ of. ValuePushed (plain.step_value (env_view env.entry) place (option_map step_view step.now)) of (draft_view draft.old) (draft_view draft.new)) }
{
    match step {
        None => Ok(push_integer(draft, place, 1)?),
        Some(step) => push_operand(alloc, draft, env, &step.value),
    }
}

/// The types that the last value and the step of a For have as operands.
#[derive(Clone, Copy)]
struct ForTypes {
    last: DeclaredType,
    step: DeclaredType,
}

/// Pushes the values of a For.
fn push_values<'a>(
    alloc: Global,
    draft: &mut Draft,
    env: Env<'a>,
    place: Place,
    start: &'a Expression,
    limit: &'a Expression,
    step: &'a Option<StepClause>,
) -> Result<ForTypes, OrMemory<NotYet>>
    requires { EnvStands env }
    ensures { IfOk result (λ of. ForValues (bound_operand (env_view env.entry) (expression_view start.now)) (bound_operand (env_view env.entry) (expression_view limit.now))
        (plain.step_value (env_view env.entry) place (option_map step_view step.now)) of.last of.step (draft_view draft.old) (draft_view draft.new)) }
{
    push_operand(alloc, draft, env, start)?;
    let last = push_operand(alloc, draft, env, limit)?;
    let step = push_step(alloc, draft, env, place, step)?;
    Ok(ForTypes { last, step })
}

/// A For with a variable that counts.
#[tactic(auto, using(statement_nodes::proofs::Ended::for_pushed))]
fn bind_counted<'a>(
    alloc: Global,
    draft: &mut Draft,
    env: Env<'a>,
    standing: Standing<'a>,
    counter: Variable,
    start: &'a Expression,
    limit: &'a Expression,
    step: &'a Option<StepClause>,
) -> Result<ActionKind, OrMemory<NotYet>>
    requires env { EnvStands env }
    requires empty { (draft_view draft.old).pieces ≡ [] }
    ensures { IfOk result (λ kind. ActionPushed kind
        (counted_in (env_view env.entry) (standing_view standing.entry) (Some (variable_view counter)) (expression_view start.now) (expression_view limit.now) (option_map step_view step.now))
        (draft_view draft.old) (draft_view draft.new)) }
{
    let first = standing.sought_behind(Sought::Here)?;
    let behind = standing.sought_behind(Sought::BehindBlock(0))?;
    let of = push_values(
        alloc,
        draft,
        env,
        place_of(standing.part()),
        start,
        limit,
        step,
    )?;
    Ok(ActionKind::For {
        counter,
        compare: env.compare,
        last: of.last,
        step: of.step,
        last_at: expression_place(limit),
        step_at: step_place(step),
        first,
        behind,
    })
}

/// `For counter = start To limit [Step value]`
#[tactic(auto, using(statement_nodes::proofs::Broken::for_counted, statement_nodes::proofs::Broken::for_broken))]
pub(crate) fn bind_for<'a>(
    alloc: Global,
    draft: &mut Draft,
    env: Env<'a>,
    standing: Standing<'a>,
    counter: &'a Identifier,
    start: &'a Expression,
    limit: &'a Expression,
    step: &'a Option<StepClause>,
) -> Result<ActionKind, OrMemory<NotYet>>
    requires env { EnvStands env }
    requires empty { (draft_view draft.old).pieces ≡ [] }
    ensures { IfOk result (λ kind. ActionPushed kind
        (for_in (env_view env.entry) (standing_view standing.entry) counter.now (expression_view start.now) (expression_view limit.now) (option_map step_view step.now))
        (draft_view draft.old) (draft_view draft.new)) }
{
    let variable = counter_of(alloc, env, counter)?;
    if !is_counting(variable.of) {
        let broken = mark(draft, 29, counter.token.place)?;
        return Ok(broken);
    }
    let kind = bind_counted(alloc, draft, env, standing, variable, start, limit, step)?;
    Ok(kind)
}

/// `For Each element In group`
#[tactic(auto, using(statement_nodes::proofs::Broken::each_goes, statement_nodes::proofs::Broken::each_stays))]
pub(crate) fn bind_for_each<'a>(
    alloc: Global,
    draft: &mut Draft,
    env: Env<'a>,
    standing: Standing<'a>,
    element: &'a Identifier,
    group: &'a Expression,
) -> Result<ActionKind, OrMemory<NotYet>>
    requires env { EnvStands env }
    requires empty { (draft_view draft.old).pieces ≡ [] }
    ensures { IfOk result (λ kind. ActionPushed kind
        (each_in (env_view env.entry) (standing_view standing.entry) element.now (expression_view group.now))
        (draft_view draft.old) (draft_view draft.new)) }
{
    let first = standing.sought_behind(Sought::Here)?;
    let behind = standing.sought_behind(Sought::BehindBlock(0))?;
    let control = counter_of(alloc, env, element)?;
    let found = push_group(alloc, draft, env, group)?;
    if !goes_over(control.of, found.of) {
        let variant = DeclaredType::Plain(ElementType::Variant);
        let place = element.token.place;
        let broken = NodeKind::Marked {
            broken: Refusal { rule: 29, place },
            values: 1,
        };
        push_node(draft, broken, variant, place)?;
        return Ok(ActionKind::Evaluate);
    }
    let Some(may_be) = found.may_be else {
        return Err(OrMemory::Fault(NotYet));
    };
    push_walked(draft, found.of, found.place, may_be)?;
    Ok(ActionKind::ForEach {
        control,
        first,
        behind,
    })
}

/// `Next` of the innermost block, which is a For or a For Each.
#[tactic(auto, using(statement_nodes::proofs::Ended::next_done, statement_nodes::proofs::Ended::next_each_done))]
pub(crate) fn next_kind<'a>(
    alloc: Global,
    env: Env<'a>,
    standing: Standing<'a>,
) -> Result<ActionKind, OrMemory<NotYet>>
    requires { EnvStands env }
    ensures alone { IfOk result (λ kind. is_alone kind ≡ true) }
    ensures is { IfOk result (λ kind. (plain.next_action (env_view env.entry) (standing_view standing.entry).around) ≡ done_alone kind) }
{
    let Some(opened) = innermost_block(standing) else {
        return Err(OrMemory::Fault(NotYet));
    };
    match opening_line(standing, opened) {
        Some(BlockLine::For { counter, .. }) => Ok(ActionKind::Next {
            counter: counter_of(alloc, env, counter)?,
            header: opened.header,
            first: opened.first,
        }),
        Some(BlockLine::ForEach { element, .. }) => Ok(ActionKind::NextEach {
            control: counter_of(alloc, env, element)?,
            header: opened.header,
            first: opened.first,
        }),
        _ => Err(OrMemory::Fault(NotYet)),
    }
}

/// `Next [counter]`
pub(crate) fn bind_next<'a>(
    alloc: Global,
    draft: &mut Draft,
    env: Env<'a>,
    standing: Standing<'a>,
    counter: &'a Option<Identifier>,
) -> Result<ActionKind, OrMemory<NotYet>>
    requires env { EnvStands env }
    requires empty { (draft_view draft.old).pieces ≡ [] }
    ensures { IfOk result (λ kind. ActionPushed kind
        (next_in (env_view env.entry) (standing_view standing.entry) counter.now) (draft_view draft.old) (draft_view draft.new)) }
{
    let own = loop_name(standing);
    let is_other = is_other_name(counter, own);
    if is_other {
        let broken = mark(draft, 29, name_place(counter))?;
        return Ok(broken);
    }
    let kind = next_kind(alloc, env, standing)?;
    Ok(kind)
}

//! Values that statements need.

ghost use Rattle.std.specs.Prelude.{◌≡◌, Some, IfOk};
ghost use Rattle.statement_nodes.specs.Actions.{GroupPushed, ValuePushed};
ghost use Rattle.bound_terms.specs.bound_accesses.specs.bound_names.specs.bound_members.specs.bound_calls.specs.bound_forms.specs.ExpressionsBound as plain;
ghost use Rattle.bound_terms.specs.bound_accesses.specs.bound_names.specs.bound_members.specs.bound_calls.specs.bound_forms.specs.StatementsBound as statements;
ghost use Rattle.bound_project.specs.DraftView.{draft_view};
ghost use Rattle.bound_project.specs.View.{variable_view};
ghost use Rattle.bound_terms.specs.bound_accesses.specs.bound_names.specs.View.{EnvStands, env_view};
ghost use Rattle.vba_expression.specs.View.{view as expression_view};

use crate::loop_variables::loop_variable;
use bound_project::{DeclaredType, Draft, Variable};
use bound_terms::bound_accesses::bound_names::Env;
use bound_terms::bound_accesses::bound_names::bound_members::bound_calls::bound_declarations::NotYet;
use bound_terms::bound_accesses::bound_names::bound_members::bound_calls::{
    given_ending, instance_of, push_node,
};
use bound_terms::{bind_given, bind_operand, tree_of};
use std::alloc::Global;
use vba_base::{OrMemory, Place};
use vba_expression::Expression;
use vba_words::Identifier;

/// Pushes a value; answers the type that it has as an operand.
#[tactic(auto, using(statement_nodes::proofs::Ended::value_pushed))]
pub(crate) fn push_operand<'a>(
    alloc: Global,
    draft: &mut Draft,
    env: Env<'a>,
    expression: &'a Expression,
) -> Result<DeclaredType, OrMemory<NotYet>>
    requires { EnvStands env }
    ensures { IfOk result (λ of. ValuePushed (plain.bound_operand (env_view env.entry) (expression_view expression.now)) of (draft_view draft.old) (draft_view draft.new)) }
{
    match bind_operand(alloc, draft, env, expression)? {
        Some(of) => Ok(of),
        None => Err(OrMemory::Fault(NotYet)),
    }
}

/// Pushes a value or an object as it is; answers its type.
#[tactic(auto, using(statement_nodes::proofs::Ended::value_pushed))]
pub(crate) fn push_given<'a>(
    alloc: Global,
    draft: &mut Draft,
    env: Env<'a>,
    expression: &'a Expression,
) -> Result<DeclaredType, OrMemory<NotYet>>
    requires { EnvStands env }
    ensures { IfOk result (λ of. ValuePushed (plain.bound_as_given (env_view env.entry) (expression_view expression.now)) of (draft_view draft.old) (draft_view draft.new)) }
{
    let of = bind_given(alloc, draft, env, expression)?;
    Ok(of)
}

/// The variable of a loop.
pub(crate) fn counter_of<'a>(
    alloc: Global,
    env: Env<'a>,
    name: &'a Identifier,
) -> Result<Variable, OrMemory<NotYet>>
    requires { EnvStands env }
    ensures { IfOk result (λ found. Some (variable_view found) ≡ statements.loop_variable (env_view env.entry) name.now) }
{
    match loop_variable(alloc, env, name)? {
        Some(found) => Ok(found),
        None => Err(OrMemory::Fault(NotYet)),
    }
}

/// Something that was pushed: its type, the place where it is told, and whether it may be an object of a class, where that is
/// known.
#[derive(Clone, Copy)]
pub(crate) struct Group {
    pub of: DeclaredType,
    pub place: Place,
    pub may_be: Option<bool>,
}

/// Pushes a value or an object as it is.
pub(crate) fn push_group<'a>(
    alloc: Global,
    draft: &mut Draft,
    env: Env<'a>,
    expression: &'a Expression,
) -> Result<Group, OrMemory<NotYet>>
    requires { EnvStands env }
    ensures { IfOk result (λ group. GroupPushed (env_view env.entry) (expression_view expression.now) group.of group.place group.may_be (draft_view draft.old) (draft_view draft.new)) }
{
    let tree = tree_of(alloc, draft, env, expression)?;
    let ending = given_ending(alloc, draft, tree.term, tree.place)?;
    let may_be = instance_of(env.has_class, draft, ending);
    push_node(draft, ending.kind, ending.of, tree.place)?;
    Ok(Group {
        of: ending.of,
        place: tree.place,
        may_be,
    })
}

//! The condition of a single-line If.

ghost use Rattle.std.specs.Prelude.{◌≡◌, true, [], OnOk, option_map};
ghost use Rattle.statement_nodes.specs.Walks.{Added};
ghost use Rattle.bound_terms.specs.bound_accesses.specs.bound_names.specs.bound_members.specs.bound_calls.specs.bound_forms.specs.ExpressionsBound.{bound_operand};
ghost use Rattle.bound_terms.specs.bound_accesses.specs.bound_names.specs.bound_members.specs.bound_calls.specs.bound_forms.specs.StatementsBound as plain;
ghost use Rattle.bound_project.specs.DraftView.{draft_view};
ghost use Rattle.bound_project.specs.Statements as plain_to;
ghost use Rattle.bound_terms.specs.bound_accesses.specs.bound_names.specs.View.{EnvStands, env_view};
ghost use Rattle.vba_expression.specs.View.{view as expression_view};

use crate::around::Around;
use crate::lines::bind_test;
use bound_project::Draft;
use bound_terms::bound_accesses::bound_names::bound_members::bound_calls::bound_declarations::NotYet;
use statement_nodes::end_statement;
use std::alloc::Global;
use vba_base::{OrMemory, Place};
use vba_expression::Expression;

/// Adds the statement that a single-line If is itself.
#[tactic(auto, using(statement_nodes::proofs::Ended::kind_fits))]
pub fn bind_if<'a>(
    alloc: Global,
    draft: &mut Draft,
    around: Around<'a>,
    condition: &'a Expression,
    place: Place,
    first: u32,
    other: u32,
) -> Result<(), OrMemory<NotYet>>
    requires env { EnvStands around.env }
    requires empty { (draft_view draft.old).pieces ≡ [] }
    ensures { OnOk result (Added
        (plain.one_statement place first (option_map (λ c. plain_to.test true c first other) (bound_operand (env_view around.entry.env) (expression_view condition.now))))
        (draft_view draft.old) (draft_view draft.new)) }
{
    let kind = bind_test(alloc, draft, around.env, true, condition, first, other)?;
    end_statement(draft, kind, place, first)?;
    Ok(())
}

//! Statements other than single-line Ifs, added to a draft.

ghost use Rattle.std.specs.Prelude.{◌≡◌, [], IfOk, OnOk};
ghost use Rattle.statement_nodes.specs.Actions.{simple_in};
ghost use Rattle.bound_lines.specs.Round.{StandsAt, around_view};
ghost use Rattle.statement_nodes.specs.Walks.{Added};
ghost use Rattle.binder.specs.Numbering as numbering;
ghost use Rattle.bound_names.specs.bound_members.specs.bound_calls.specs.bound_forms.specs.StatementsBound.{one_statement, simple_action, unless_none};
ghost use Rattle.bound_project.specs.DraftView.{draft_view};
ghost use Rattle.statement_nodes.specs.Pushed.{ActionPushed};
ghost use Rattle.bound_names.specs.View.{EnvStands, env_view};
ghost use Rattle.statement_nodes.specs.statement_numbers.specs.View.{standing_view};
ghost use Rattle.vba_tree.specs.View.{simple_view};

use bound_actions::{bind_assignment, bind_call, bind_call_place, bind_raise_event, bind_set};
use bound_lines::{Around, array_kind, bind_line, bind_print, plain_kind};
use bound_names::bound_members::bound_calls::bound_declarations::NotYet;
use bound_project::{ActionKind, Draft};
use statement_nodes::statement_numbers::{Standing, simple_count};
use statement_nodes::{end_statement, there};
use std::alloc::Global;
use vba_base::{OrMemory, Place};
use vba_tree::SimpleStatement;

/// What a statement does, in its scope.
#[tactic(auto, using(statement_nodes::proofs::Ended::plainly))]
fn kind_in_scope<'a>(
    alloc: Global,
    draft: &mut Draft,
    around: Around<'a>,
    standing: Standing<'a>,
    statement: &'a SimpleStatement,
) -> Result<ActionKind, OrMemory<NotYet>>
    requires env { EnvStands around.env }
    requires empty { (draft_view draft.old).pieces ≡ [] }
    requires placed { StandsAt around (standing_view standing) }
    ensures { IfOk result (λ kind. ActionPushed kind
        (simple_in (env_view around.entry.env) (around_view around.entry) (standing_view standing.entry) (simple_view statement.now))
        (draft_view draft.old) (draft_view draft.new)) }
{
    let env = around.env;
    match statement {
        SimpleStatement::Assignment { place, value, .. } => {
            there(bind_assignment(alloc, draft, env, place, value)?)
        }
        SimpleStatement::SetAssignment {
            set_word,
            place,
            value,
            ..
        } => there(bind_set(alloc, draft, env, set_word.place, place, value)?),
        SimpleStatement::CallPlace { place, .. } => {
            there(bind_call_place(alloc, draft, env, place)?)
        }
        SimpleStatement::Call { target, arguments } => {
            there(bind_call(alloc, draft, env, target, arguments)?)
        }
        SimpleStatement::RaiseEvent {
            event,
            arguments,
            ..
        } => there(bind_raise_event(alloc, draft, env, event, arguments)?),
        SimpleStatement::DebugPrint { first, others, .. } => {
            bind_print(alloc, draft, env, first, others.as_slice())
        }
        SimpleStatement::ReDim { .. } | SimpleStatement::Erase { .. } => {
            array_kind(alloc, draft, around, standing, statement)
        }
        SimpleStatement::BlockLine(line) => bind_line(alloc, draft, around, standing, line),
        _ => plain_kind(alloc, around, standing, statement),
    }
}

/// What a statement does.
#[tactic(auto, using(statement_nodes::proofs::Ifs::pushed_in_scope))]
fn bind_kind<'a>(
    alloc: Global,
    draft: &mut Draft,
    around: Around<'a>,
    standing: Standing<'a>,
    statement: &'a SimpleStatement,
) -> Result<ActionKind, OrMemory<NotYet>>
    requires env { EnvStands around.env }
    requires empty { (draft_view draft.old).pieces ≡ [] }
    requires placed { StandsAt around (standing_view standing) }
    ensures { IfOk result (λ kind. ActionPushed kind
        (simple_action (around_view around.entry) (standing_view standing.entry) (simple_view statement.now))
        (draft_view draft.old) (draft_view draft.new)) }
{
    kind_in_scope(alloc, draft, around, standing, statement)
}

/// Adds a statement other than a single-line If, behind which another one runs.
#[tactic(auto, using(statement_nodes::proofs::Ended::kind_fits, statement_nodes::proofs::Walked::none_added))]
pub fn bind_simple<'a>(
    alloc: Global,
    draft: &mut Draft,
    around: Around<'a>,
    standing: Standing<'a>,
    statement: &'a SimpleStatement,
    place: Place,
    next: u32,
) -> Result<(), OrMemory<NotYet>>
    requires env { EnvStands around.env }
    requires empty { (draft_view draft.old).pieces ≡ [] }
    requires placed { StandsAt around (standing_view standing) }
    ensures { OnOk result (Added
        (unless_none (numbering.simple_count (simple_view statement.now))
        (one_statement place next (simple_action (around_view around.entry) (standing_view standing.entry) (simple_view statement.now))))
        (draft_view draft.old) (draft_view draft.new)) }
{
    if simple_count(statement) == 0 {
        return Ok(());
    }
    let kind = bind_kind(alloc, draft, around, standing, statement)?;
    end_statement(draft, kind, place, next)?;
    Ok(())
}

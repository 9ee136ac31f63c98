//! Statements without expressions, and those of arrays.

ghost use Rattle.std.specs.Prelude.{◌≡◌, true, [], IfOk};
ghost use Rattle.statement_nodes.specs.Actions.{done_alone, is_alone, simple_in};
ghost use Rattle.bound_lines.specs.Round.{around_view};
ghost use Rattle.bound_project.specs.DraftView.{draft_view};
ghost use Rattle.statement_nodes.specs.Pushed.{ActionPushed};
ghost use Rattle.bound_terms.specs.bound_accesses.specs.bound_names.specs.View.{EnvStands, env_view};
ghost use Rattle.statement_nodes.specs.statement_numbers.specs.View.{standing_view};
ghost use Rattle.vba_tree.specs.View.{simple_view};

use crate::around::Around;
use crate::erases::bind_erase;
use crate::plain_actions::{exit, go_sub, go_to, on_error, resume};
use crate::redims::bind_redim;
use bound_project::{ActionKind, Draft};
use bound_terms::bound_accesses::bound_names::bound_members::bound_calls::bound_declarations::NotYet;
use statement_nodes::statement_numbers::Standing;
use std::alloc::Global;
use vba_base::OrMemory;
use vba_tree::SimpleStatement;

/// What a statement that names a label does.
fn label_kind<'a>(
    alloc: Global,
    around: Around<'a>,
    standing: Standing<'a>,
    statement: &'a SimpleStatement,
) -> Result<ActionKind, OrMemory<NotYet>>
    ensures alone { IfOk result (λ kind. is_alone kind ≡ true) }
    ensures is { IfOk result (λ kind. (simple_in (env_view around.entry.env) (around_view around.entry) (standing_view standing.entry) (simple_view statement.now)) ≡ done_alone kind) }
{
    match statement {
        SimpleStatement::GoTo { label, .. } => go_to(alloc, around, label),
        SimpleStatement::GoSub { label, .. } => go_sub(alloc, around, label),
        SimpleStatement::OnError { handling, .. } => on_error(alloc, around, handling),
        SimpleStatement::Resume { target, .. } => resume(alloc, around, target),
        _ => Err(OrMemory::Fault(NotYet)),
    }
}

/// What a statement without expressions does.
pub fn plain_kind<'a>(
    alloc: Global,
    around: Around<'a>,
    standing: Standing<'a>,
    statement: &'a SimpleStatement,
) -> Result<ActionKind, OrMemory<NotYet>>
    ensures alone { IfOk result (λ kind. is_alone kind ≡ true) }
    ensures is { IfOk result (λ kind. (simple_in (env_view around.entry.env) (around_view around.entry) (standing_view standing.entry) (simple_view statement.now)) ≡ done_alone kind) }
{
    match statement {
        SimpleStatement::Return(_) => Ok(ActionKind::Return),
        SimpleStatement::Exit { kind, .. } => Ok(exit(around, standing, *kind)?),
        SimpleStatement::End(_) => Ok(ActionKind::End),
        SimpleStatement::Stop(_) => Ok(ActionKind::Stop),
        _ => label_kind(alloc, around, standing, statement),
    }
}

/// ReDim and Erase, in their scope.
pub fn array_kind<'a>(
    alloc: Global,
    draft: &mut Draft,
    around: Around<'a>,
    standing: Standing<'a>,
    statement: &'a SimpleStatement,
) -> Result<ActionKind, OrMemory<NotYet>>
    requires env { EnvStands around.env }
    requires empty { (draft_view draft.old).pieces ≡ [] }
    ensures { IfOk result (λ kind. ActionPushed kind
        (simple_in (env_view around.entry.env) (around_view around.entry) (standing_view standing.entry) (simple_view statement.now))
        (draft_view draft.old) (draft_view draft.new)) }
{
    let env = around.env;
    match statement {
        SimpleStatement::ReDim {
            preserve_word,
            arrays,
            ..
        } => bind_redim(alloc, draft, env, preserve_word.is_some(), arrays),
        SimpleStatement::Erase { places, .. } => bind_erase(alloc, draft, env, places),
        _ => Err(OrMemory::Fault(NotYet)),
    }
}

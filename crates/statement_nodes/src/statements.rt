//! The end of a statement.

ghost use Rattle.std.specs.Prelude.{OnOk, Option};
ghost use Rattle.statement_nodes.specs.Actions.{KindFits};
ghost use Rattle.statement_nodes.specs.Walks.{Added};
ghost use Rattle.bound_calls.specs.bound_forms.specs.StatementsBound.{one_statement};
ghost use Rattle.bound_project.specs.DraftView.{draft_view};
ghost use Rattle.bound_project.specs.Drafts.{Drafted};
ghost use Rattle.bound_project.specs.Statements.{Action};
ghost use Rattle.statement_nodes.specs.Pushed.{ActionPushed};

use bound_project::{ActionKind, Draft};
use vba_base::{NoMemory, Place};

/// Ends a statement whose nodes were pushed.
#[tactic(auto, using(crate::proofs::Ended::ended))]
pub fn end_statement(
    draft: &mut Draft,
    kind: ActionKind,
    place: Place,
    next: u32,
) -> Result<(), NoMemory>
    requires { KindFits kind (draft_view draft.old) }
    ensures { OnOk result ((found : Option Action) (base : Drafted) → ActionPushed kind found base (draft_view draft.old)
        → Added (one_statement place next found) base (draft_view draft.new)) }
{
    match draft.add(kind, place, next) {
        Ok(()) => Ok(()),
        Err(_) => Err(NoMemory),
    }
}

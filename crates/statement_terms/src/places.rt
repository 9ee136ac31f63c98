//! Places that terms are.

ghost use Rattle.std.specs.Prelude.{◌≡◌, false, OnOk};
ghost use Rattle.bound_project.specs.DraftView.{draft_view};
ghost use Rattle.bound_project.specs.Drafts.{NodeNamed};
ghost use Rattle.bound_members.specs.bound_calls.specs.bound_forms.specs.StatementsBound as plain;
ghost use Rattle.statement_terms.specs.Terms.{may_be_object};
ghost use Rattle.statement_terms.specs.Kept.{WithPlacePushed, place_ending};

use bound_members::bound_calls::{Ending, Term, push_node};
use bound_project::{DeclaredType, Draft, NodeKind};
use vba_base::{NoMemory, Place};

/// The place that a term is, but for its last node.
pub fn place_ending<'a>(term: Term<'a>) -> Option<Ending>
    ensures { result ≡ place_ending term.entry }
{
    match term {
        Term::Place { kind, of, .. } => Some(Ending { kind, of }),
        _ => None,
    }
}

/// Pushes a place that a With block keeps, which is no object and can be none.
pub fn with_place(
    draft: &mut Draft,
    kind: NodeKind,
    of: DeclaredType,
    place: Place,
) -> Result<(), NoMemory>
    requires named { NodeNamed (draft_view draft.old).tables kind }
    requires plain { may_be_object of ≡ false }
    ensures { OnOk result (WithPlacePushed kind of (draft_view draft.old) (draft_view draft.new)) }
{
    push_node(draft, kind, of, place)
}

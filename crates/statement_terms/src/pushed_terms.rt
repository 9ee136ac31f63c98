ghost use Rattle.std.specs.Prelude.{OnOk};
ghost use Rattle.bound_project.specs.DraftView.{draft_view};
ghost use Rattle.statement_terms.specs.Assigning.{GivenPushed};
ghost use Rattle.bound_members.specs.bound_calls.specs.Standing.{TermNamed};

use bound_members::bound_calls::bound_declarations::NotYet;
use bound_members::bound_calls::{Term, given_ending, push_node};
use bound_project::Draft;
use std::alloc::Global;
use vba_base::{OrMemory, Place};

/// Pushes a term as it is, a value or an object.
pub fn push_term<'a>(
    alloc: Global,
    draft: &mut Draft,
    term: Term<'a>,
    place: Place,
) -> Result<(), OrMemory<NotYet>>
    requires { TermNamed (draft_view draft.old).tables term }
    ensures { OnOk result (GivenPushed term.entry place (draft_view draft.old) (draft_view draft.new)) }
{
    let ending = given_ending(alloc, draft, term, place)?;
    push_node(draft, ending.kind, ending.of, place)?;
    Ok(())
}

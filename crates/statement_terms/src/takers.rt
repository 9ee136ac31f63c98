//! What takes the values of assignments, and marks of values that it doesn't take.

ghost use Rattle.std.specs.Prelude.{◌≡◌, OnOk};
ghost use Rattle.bound_project.specs.DraftView.{draft_view};
ghost use Rattle.bound_project.specs.View.{declared_view};
ghost use Rattle.statement_terms.specs.Takers.{MarksTaken, may_break, taker_of};

use bound_members::bound_calls::{Term, mark_given};
use bound_project::{DeclaredType, Draft, ElementType};
use vba_base::{NoMemory, Place};

/// What takes the value of an assignment: its type, and whether it is an array with bounds of its own.
#[derive(Clone, Copy)]
pub struct Taker {
    pub of: DeclaredType,
    pub is_bounded: bool,
}

/// What takes the value that a term is assigned which is no procedure: a place, and for a member of an object a Variant. Nothing
/// is told of what the run finds.
pub fn taker_of<'a>(term: Term<'a>) -> Option<Taker>
    ensures { result ≡ taker_of term.entry }
{
    let variant = Taker {
        of: DeclaredType::Plain(ElementType::Variant),
        is_bounded: false,
    };
    match term {
        Term::Place { of, bounds, .. } => Some(Taker {
            of,
            is_bounded: bounds != 0,
        }),
        Term::HostMember(_) => Some(variant),
        Term::SheetMember(_) => Some(variant),
        _ => None,
    }
}

/// Is a value of a type one that isn't taken everywhere: one of a Type, or an array?
pub fn may_break(of: DeclaredType) -> bool
    ensures { result ≡ may_break (declared_view of) }
{
    match of {
        DeclaredType::ArrayOf(_) => true,
        DeclaredType::Plain(ElementType::UserType(_)) => true,
        _ => false,
    }
}

/// Marks a value of a type, which was pushed, where what it is assigned to doesn't take it.
pub fn mark_taken(
    draft: &mut Draft,
    taker: Option<Taker>,
    given: DeclaredType,
    place: Place,
) -> Result<(), NoMemory>
    ensures { OnOk result (MarksTaken taker place given (draft_view draft.old) (draft_view draft.new)) }
{
    let Some(taker) = taker else {
        return Ok(());
    };
    mark_given(draft, taker.of, taker.is_bounded, given, place)?;
    Ok(())
}

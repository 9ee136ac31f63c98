//! Members that there aren't.

ghost use Rattle.std.specs.Prelude.{◌≡◌};
ghost use Rattle.bound_names.specs.ClassMembers.{unknown_term};

use bound_members::bound_calls::{Ending, Term};
use bound_project::{DeclaredType, ElementType, NodeKind};
use vba_base::{Place, Refusal};

/// What is told of a member that there isn't, behind the value that was pushed.
pub fn unknown_term<'a>(dot: Place) -> Term<'a>
    ensures { result ≡ unknown_term dot }
{
    Term::Value(Ending {
        kind: NodeKind::Marked {
            broken: Refusal {
                rule: 34,
                place: dot,
            },
            values: 1,
        },
        of: DeclaredType::Plain(ElementType::Variant),
    })
}

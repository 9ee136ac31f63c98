//! Variables that terms are.

ghost use Rattle.statement_terms.specs.Terms.{IsVariable};

use bound_members::bound_calls::Term;
use bound_project::{NodeKind, Variable};

/// The variable that a term is.
pub fn variable_in<'a>(term: Term<'a>) -> Option<Variable>
    ensures { IsVariable term.entry result }
{
    match term {
        Term::Place { kind, .. } => match kind {
            NodeKind::Variable(variable) => Some(variable),
            _ => None,
        },
        _ => None,
    }
}

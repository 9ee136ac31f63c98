//! The value of an assignment, once its term is known.

ghost use Rattle.std.specs.Prelude.{◌≡◌, IfOk};
ghost use Rattle.bound_project.specs.DraftView.{draft_view};
ghost use Rattle.statement_terms.specs.Assigning.{PushesFor, is_plain, operand_may};
ghost use Rattle.bound_members.specs.bound_calls.specs.Standing.{TermNamed};

use crate::targets::may_be_object;
use bound_members::bound_calls::bound_declarations::NotYet;
use bound_members::bound_calls::bound_declarations::constant_values::declared_names::is_object;
use bound_members::bound_calls::{Term, Tree, given_ending, instance_of, push_node, push_operand};
use bound_project::{DeclaredType, Draft};
use std::alloc::Global;
use vba_base::OrMemory;

/// Is a term a place or a value that is no object and can be none?
pub fn is_plain<'a>(term: Term<'a>) -> bool
    ensures { result ≡ is_plain term.entry }
{
    match term {
        Term::Place { of, .. } => !may_be_object(of),
        Term::Value(ending) => !may_be_object(ending.of),
        _ => false,
    }
}

/// May an operand of a type be an object of a class? None where that isn't known, since a default member gives an object.
fn operand_may(of: DeclaredType) -> Option<bool>
    ensures { result ≡ operand_may of }
{
    if is_object(of) { None } else { Some(false) }
}

/// Pushes what is assigned, as it is or as an operand; answers the type that it has as an operand, and whether it may be an
/// object of a class, where that is known.
pub fn push_assigned<'a>(
    alloc: Global,
    draft: &mut Draft,
    tree: Tree<'a>,
    given: bool,
    has_class: bool,
) -> Result<(DeclaredType, Option<bool>), OrMemory<NotYet>>
    requires { TermNamed (draft_view draft.old).tables tree.term }
    ensures { IfOk result (λ pushed. PushesFor has_class pushed.1 given tree.entry (draft_view draft.old) (draft_view draft.new) pushed.0) }
{
    if given {
        let ending = given_ending(alloc, draft, tree.term, tree.place)?;
        let may_be = instance_of(has_class, draft, ending);
        push_node(draft, ending.kind, ending.of, tree.place)?;
        return Ok((ending.of, may_be));
    }
    let Some(of) = push_operand(alloc, draft, tree)? else {
        return Err(OrMemory::Fault(NotYet));
    };
    Ok((of, operand_may(of)))
}

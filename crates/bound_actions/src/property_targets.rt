//! Targets with arguments in brackets behind a property without parameters: they index what it gives.

ghost use Rattle.std.specs.Prelude.{◌≡◌, IfOk};
ghost use Rattle.bound_project.specs.DraftView.{draft_view};
ghost use Rattle.bound_actions.specs.Behind.{StandsBefore};
ghost use Rattle.bound_terms.specs.Indexing.{IndexesValue};
ghost use Rattle.bound_terms.specs.bound_accesses.specs.bound_names.specs.bound_members.specs.bound_calls.specs.Standing.{TermNamed};
ghost use Rattle.bound_terms.specs.bound_accesses.specs.bound_names.specs.bound_members.specs.bound_calls.specs.declared.term.Term.TheVariants as term_kind;
ghost use Rattle.statement_terms.specs.Heights.{GivesSome};

use bound_project::Draft;
use bound_terms::bound_accesses::bound_names::bound_members::bound_calls::bound_declarations::NotYet;
use bound_terms::bound_accesses::bound_names::bound_members::bound_calls::{
    Routine, Term, Tree, routine_ending,
};
use bound_terms::indexes_value;
use statement_terms::{are_none, gives_some};
use std::alloc::Global;
use vba_base::OrMemory;
use vba_expression::ExpressionNode;

/// What stands before arguments in brackets, and its term as it is called.
#[derive(Clone, Copy)]
pub struct Before<'a> {
    pub tree: Tree<'a>,
    pub term: Term<'a>,
}

/// What a property without parameters gives is pushed but for its last node, as if empty brackets stood behind it.
fn property_before<'a>(
    alloc: Global,
    draft: &mut Draft,
    before: Before<'a>,
    routine: Routine<'a>,
    nodes: &[ExpressionNode],
) -> Result<Before<'a>, OrMemory<NotYet>>
    requires routine { before.term ≡ term_kind.Routine routine }
    requires indexes { IndexesValue routine }
    requires some { GivesSome nodes.now }
    ensures { IfOk result (λ made. StandsBefore before.entry nodes.now (draft_view draft.old) (draft_view draft.new) made) }
{
    let ending = routine_ending(alloc, draft, routine)?;
    let term = Term::Value(ending);
    Ok(Before {
        tree: Tree {
            place: before.tree.place,
            name: None,
            dotted: None,
            term,
            declared: before.tree.declared,
        },
        term,
    })
}

/// A procedure, or what a property gives that these arguments index.
fn routine_before<'a>(
    alloc: Global,
    draft: &mut Draft,
    before: Before<'a>,
    routine: Routine<'a>,
    nodes: &[ExpressionNode],
) -> Result<Before<'a>, OrMemory<NotYet>>
    requires routine { before.term ≡ term_kind.Routine routine }
    requires tree { TermNamed (draft_view draft.old).tables before.tree.term }
    ensures { IfOk result (λ made. StandsBefore before.entry nodes.now (draft_view draft.old) (draft_view draft.new) made) }
{
    if !indexes_value(routine) {
        return Ok(before);
    }
    if are_none(nodes) {
        return Ok(before);
    }
    if !gives_some(nodes) {
        return Err(OrMemory::Fault(NotYet));
    }
    property_before(alloc, draft, before, routine, nodes)
}

/// What these arguments in brackets stand behind in a target: of a property that has no parameters what it gives.
pub fn target_before<'a>(
    alloc: Global,
    draft: &mut Draft,
    before: Before<'a>,
    nodes: &[ExpressionNode],
) -> Result<Before<'a>, OrMemory<NotYet>>
    requires tree { TermNamed (draft_view draft.old).tables before.tree.term }
    requires term { TermNamed (draft_view draft.old).tables before.term }
    ensures { IfOk result (λ made. StandsBefore before.entry nodes.now (draft_view draft.old) (draft_view draft.new) made) }
{
    match before.term {
        Term::Routine(routine) => routine_before(alloc, draft, before, routine, nodes),
        _ => Ok(before),
    }
}

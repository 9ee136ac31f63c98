//! What ReDim resizes: a variable, or a value that no variable has. What is neither is marked.

ghost use Rattle.std.specs.Prelude.{◌≡◌, true, IfOk, IfSome, OnOk};
ghost use Rattle.vba_expression.specs.View.{view as expression_view};
ghost use Rattle.bound_project.specs.DraftView.{draft_view};
ghost use Rattle.bound_project.specs.Drafts.{NodeNamed};
ghost use Rattle.statement_nodes.specs.Resizing.{ArrayTold};
ghost use Rattle.bound_lines.specs.Kept.{IsNoPlace, PushesNone, PushesValuePlace, Resizes, is_no_place};
ghost use Rattle.bound_terms.specs.bound_accesses.specs.bound_names.specs.bound_members.specs.bound_calls.specs.Standing.{TermNamed};
ghost use Rattle.bound_terms.specs.bound_accesses.specs.bound_names.specs.View.{EnvStands, env_view};

use crate::places::array_ending;
use bound_project::{DeclaredType, Draft, ElementType, NodeKind};
use bound_terms::bound_accesses::bound_names::Env;
use bound_terms::bound_accesses::bound_names::bound_members::bound_calls::bound_declarations::NotYet;
use bound_terms::bound_accesses::bound_names::bound_members::bound_calls::{
    Ending, Term, Tree, push_broken, push_node,
};
use bound_terms::tree_of;
use std::alloc::Global;
use vba_base::{NoMemory, OrMemory, Place};
use vba_expression::Expression;

/// What ReDim resizes, which was pushed as a place: the type of that, where it is a variable's, and where it is told.
#[derive(Clone, Copy)]
pub(crate) struct Resized {
    pub of: Option<DeclaredType>,
    pub place: Place,
}

/// Is a term neither a place nor a value?
fn is_no_place<'a>(term: Term<'a>) -> bool
    ensures { result ≡ is_no_place term.entry }
{
    match term {
        Term::Place { .. } => false,
        Term::Value(_) => false,
        Term::HostMember(member) => !member.is_late,
        Term::SheetMember(member) => !member.is_late,
        Term::Nothing => false,
        _ => true,
    }
}

/// The place where an expression is told that is neither a place nor a value, by nodes that nothing else has.
fn told_as_none<'a>(
    alloc: Global,
    draft: &mut Draft,
    env: Env<'a>,
    expression: &'a Expression,
) -> Result<Option<Place>, OrMemory<NotYet>>
    requires { EnvStands env }
    ensures { IfOk result (λ found. IfSome found (λ place. IsNoPlace (env_view env.entry) (expression_view expression.now) place)) }
{
    let tree = tree_of(alloc, draft, env, expression)?;
    if is_no_place(tree.term) {
        Ok(Some(tree.place))
    } else {
        Ok(None)
    }
}

/// The place where an expression is told that is neither a place nor a value.
fn no_place_at<'a>(
    alloc: Global,
    env: Env<'a>,
    expression: &'a Expression,
) -> Result<Option<Place>, OrMemory<NotYet>>
    requires { EnvStands env }
    ensures { IfOk result (λ found. IfSome found (λ place. IsNoPlace (env_view env.entry) (expression_view expression.now) place)) }
{
    let mut draft = Draft::new(alloc);
    told_as_none(alloc, &mut draft, env, expression)
}

/// Pushes a place that stands for what is none, marked there.
#[tactic(auto, using(crate::proofs::Placing::none_pushed))]
fn push_none(draft: &mut Draft, place: Place) -> Result<(), NoMemory>
    ensures { OnOk result (PushesNone place (draft_view draft.old) (draft_view draft.new)) }
{
    let variant = DeclaredType::Plain(ElementType::Variant);
    push_broken(draft, 27, place, 0)?;
    push_node(draft, NodeKind::PlaceOf, variant, place)
}

/// Pushes a value that no variable has as a place.
#[tactic(auto, using(crate::proofs::Placing::value_placed))]
fn push_value_place(draft: &mut Draft, ending: Ending, place: Place) -> Result<(), NoMemory>
    requires { NodeNamed (draft_view draft.old).tables ending.kind }
    ensures { OnOk result (PushesValuePlace ending place (draft_view draft.old) (draft_view draft.new)) }
{
    push_node(draft, ending.kind, ending.of, place)?;
    push_node(draft, NodeKind::PlaceOf, ending.of, place)
}

/// Pushes the place that a value is where ReDim names it; answers that it isn't resized.
#[tactic(auto, using(crate::proofs::Placing::value_resized))]
fn push_value<'a>(
    draft: &mut Draft,
    tree: Tree<'a>,
) -> Result<Option<DeclaredType>, OrMemory<NotYet>>
    requires { TermNamed (draft_view draft.old).tables tree.term }
    ensures { IfOk result (λ of. Resizes tree.entry of (draft_view draft.old) (draft_view draft.new)) }
{
    match tree.term {
        Term::Value(ending) => {
            push_value_place(draft, ending, tree.place)?;
            Ok(None)
        }
        _ => Err(OrMemory::Fault(NotYet)),
    }
}

/// Pushes the place that a term is where ReDim names it; answers its type, where it is a variable's.
fn push_resized<'a>(
    draft: &mut Draft,
    tree: Tree<'a>,
) -> Result<Option<DeclaredType>, OrMemory<NotYet>>
    requires { TermNamed (draft_view draft.old).tables tree.term }
    ensures { IfOk result (λ of. Resizes tree.entry of (draft_view draft.old) (draft_view draft.new)) }
{
    match array_ending(tree.term) {
        Some(at) => {
            push_node(draft, at.kind, at.of, tree.place)?;
            Ok(Some(at.of))
        }
        None => push_value(draft, tree),
    }
}

/// Pushes the place or the value that an expression is.
fn bind_found<'a>(
    alloc: Global,
    draft: &mut Draft,
    env: Env<'a>,
    expression: &'a Expression,
) -> Result<Resized, OrMemory<NotYet>>
    requires { EnvStands env }
    ensures { IfOk result (λ resized. ArrayTold (env_view env.entry) (expression_view expression.now) resized.of resized.place (draft_view draft.old) (draft_view draft.new)) }
{
    let tree = tree_of(alloc, draft, env, expression)?;
    let of = push_resized(draft, tree)?;
    Ok(Resized {
        of,
        place: tree.place,
    })
}

/// Pushes what an expression resizes.
#[tactic(auto, using(crate::proofs::Placing::none_resized))]
pub(crate) fn bind_resized<'a>(
    alloc: Global,
    draft: &mut Draft,
    env: Env<'a>,
    expression: &'a Expression,
) -> Result<Resized, OrMemory<NotYet>>
    requires { EnvStands env }
    ensures { IfOk result (λ resized. ArrayTold (env_view env.entry) (expression_view expression.now) resized.of resized.place (draft_view draft.old) (draft_view draft.new)) }
{
    let found = no_place_at(alloc, env, expression)?;
    match found {
        Some(place) => {
            push_none(draft, place)?;
            Ok(Resized { of: None, place })
        }
        None => bind_found(alloc, draft, env, expression),
    }
}

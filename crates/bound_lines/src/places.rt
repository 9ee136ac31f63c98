//! Expressions that stand for places: what Erase names, and what With keeps.

ghost use Rattle.std.specs.Prelude.{◌≡◌, ◌&&◌, ◌||◌, [], not, IfOk, IfSome, OnOk, option_map};
ghost use Rattle.vba_expression.specs.View.{view as expression_view};
ghost use Rattle.bound_project.specs.DraftView.{draft_view};
ghost use Rattle.bound_project.specs.View.{declared_view};
ghost use Rattle.bound_terms.specs.bound_accesses.specs.bound_names.specs.bound_members.specs.bound_calls.specs.bound_forms.specs.Operands.{alone, place_told};
ghost use Rattle.bound_terms.specs.bound_accesses.specs.bound_names.specs.bound_members.specs.bound_calls.specs.bound_forms.specs.ExpressionsBound.{term_of};
ghost use Rattle.bound_terms.specs.bound_accesses.specs.bound_names.specs.bound_members.specs.bound_calls.specs.bound_forms.specs.StatementsBound as plain;
ghost use Rattle.statement_nodes.specs.Pushed.{ActionStands, PlacePushed};
ghost use Rattle.bound_lines.specs.Kept.{Keeps, array_ending};
ghost use Rattle.statement_terms.specs.Kept.{is_of_object, lends};
ghost use Rattle.statement_terms.specs.Terms.{may_be_object};
ghost use Rattle.bound_terms.specs.bound_accesses.specs.bound_names.specs.View.{EnvStands, env_view, within_view};

use bound_project::{ActionKind, DeclaredType, Draft, ElementType, NodeKind};
use bound_terms::bound_accesses::bound_names::bound_members::bound_calls::bound_declarations::NotYet;
use bound_terms::bound_accesses::bound_names::bound_members::bound_calls::{
    Ending, Term, alone, push_given, push_node,
};
use bound_terms::bound_accesses::bound_names::{Env, Within};
use bound_terms::tree_of;
use statement_terms::{may_be_object, place_ending, with_place};
use std::alloc::Global;
use vba_base::OrMemory;
use vba_expression::Expression;

/// The place that a term is where ReDim or Erase names it, but for its last node: that of a variable of an object that the
/// run finds, too.
#[tactic(auto, using(crate::proofs::Placing::late_told, crate::proofs::Placing::early_told))]
pub(crate) fn array_ending<'a>(term: Term<'a>) -> Option<Ending>
    ensures { result ≡ array_ending term.entry }
{
    match term {
        Term::Place { kind, of, .. } => Some(Ending { kind, of }),
        Term::HostMember(member) => {
            if !member.is_late {
                return None;
            }
            Some(Ending {
                kind: NodeKind::LateField { name: member.name },
                of: DeclaredType::Plain(ElementType::Variant),
            })
        }
        _ => None,
    }
}

/// Pushes the place that an expression is.
pub fn bind_place<'a>(
    alloc: Global,
    draft: &mut Draft,
    env: Env<'a>,
    expression: &'a Expression,
) -> Result<(), OrMemory<NotYet>>
    requires { EnvStands env }
    ensures { OnOk result (PlacePushed (plain.place_in (term_of (env_view env.entry) (expression_view expression.now))) (draft_view draft.old) (draft_view draft.new)) }
{
    let tree = tree_of(alloc, draft, env, expression)?;
    let Some(at) = array_ending(tree.term) else {
        return Err(OrMemory::Fault(NotYet));
    };
    push_node(draft, at.kind, at.of, tree.place)?;
    Ok(())
}

/// Is a term lent to a ByRef parameter?
fn lends<'a>(term: Term<'a>) -> bool
    ensures { result ≡ lends term.entry }
{
    match term {
        Term::Place { lends, .. } => lends,
        _ => false,
    }
}

/// Is a place a variable of another object?
fn is_of_object(kind: NodeKind) -> bool
    ensures { result ≡ is_of_object kind }
{
    match kind {
        NodeKind::ObjectField { .. } => true,
        _ => false,
    }
}

/// Is a place kept as a value: one of an object or of what may be one, and a variable of another object?
fn is_kept_as_value(at: Ending) -> bool
    ensures { result ≡ (may_be_object at.of || is_of_object at.kind) }
{
    may_be_object(at.of) || is_of_object(at.kind)
}

/// May another place be a part of what an object has? None that is lent is.
fn may_be_part<'a>(term: Term<'a>, has_class: bool) -> bool
    ensures { result ≡ (has_class && not (lends term.entry)) }
{
    has_class && !lends(term)
}

/// `With expression`. A part of what an object has isn't kept.
pub fn bind_with<'a>(
    alloc: Global,
    draft: &mut Draft,
    env: Env<'a>,
    expression: &'a Expression,
) -> Result<Option<ActionKind>, OrMemory<NotYet>>
    requires env { EnvStands env }
    requires empty { (draft_view draft.old).pieces ≡ [] }
    ensures { IfOk result (λ kind. ActionStands kind
        (plain.with_action (term_of (env_view env.entry) (expression_view expression.now)) (env_view env.entry) (place_told (expression_view expression.now)))
        (draft_view draft.old) (draft_view draft.new)) }
{
    let tree = tree_of(alloc, draft, env, expression)?;
    match place_ending(tree.term) {
        Some(at) => {
            if is_kept_as_value(at) {
                push_given(alloc, draft, tree)?;
                return Ok(Some(ActionKind::WithValue));
            }
            if may_be_part(tree.term, env.has_class) {
                return Err(OrMemory::Fault(NotYet));
            }
            with_place(draft, at.kind, at.of, tree.place)?;
            Ok(Some(ActionKind::WithPlace))
        }
        None => {
            push_given(alloc, draft, tree)?;
            Ok(Some(ActionKind::WithValue))
        }
    }
}

/// What the With block of this number keeps: its type, and whether it is a place that is lent.
fn kept_place(header: u32, of: DeclaredType, lends: bool) -> Within
    ensures { within_view result ≡ record { header = header; of = declared_view of; lends = lends } }
{
    Within { header, of, lends }
}

/// What the With block of this number keeps of a term that stands alone; none where that isn't bound.
fn kept_term<'a>(header: u32, term: Term<'a>) -> Option<Within>
    ensures { IfSome result (λ kept. Keeps header term.entry kept) }
{
    match term {
        Term::Place { of, lends, .. } => Some(kept_place(header, of, lends)),
        Term::Value(ending) => Some(kept_place(header, ending.of, false)),
        _ => None,
    }
}

/// What the With block of this number keeps, by nodes that nothing else has.
fn kept_in<'a>(
    alloc: Global,
    draft: &mut Draft,
    env: Env<'a>,
    header: u32,
    expression: &'a Expression,
) -> Result<Option<Within>, OrMemory<NotYet>>
    requires { EnvStands env }
    ensures { IfOk result (λ kept. option_map within_view kept
        ≡ plain.keeps header (alone (env_view env.entry) (place_told (expression_view expression.now)) (term_of (env_view env.entry) (expression_view expression.now)))) }
{
    let tree = tree_of(alloc, draft, env, expression)?;
    let standing = alone(alloc, draft, tree.term, tree.place)?;
    match kept_term(header, standing) {
        Some(kept) => Ok(Some(kept)),
        None => Err(OrMemory::Fault(NotYet)),
    }
}

/// What the With block of this number keeps; none where that isn't bound.
pub fn kept_by<'a>(
    alloc: Global,
    env: Env<'a>,
    header: u32,
    expression: &'a Expression,
) -> Result<Option<Within>, OrMemory<NotYet>>
    requires { EnvStands env }
    ensures { IfOk result (λ kept. option_map within_view kept
        ≡ plain.keeps header (alone (env_view env.entry) (place_told (expression_view expression.now)) (term_of (env_view env.entry) (expression_view expression.now)))) }
{
    let mut draft = Draft::new(alloc);
    kept_in(alloc, &mut draft, env, header, expression)
}

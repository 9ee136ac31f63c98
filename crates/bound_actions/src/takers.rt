//! What takes the value that an expression is assigned.

ghost use Rattle.std.specs.Prelude.{IfOk};
ghost use Rattle.bound_project.specs.DraftView.{draft_view};
ghost use Rattle.bound_actions.specs.Behind.{PropertyTaken, TakenBehind, TakesType, TermTaken};
ghost use Rattle.bound_terms.specs.bound_accesses.specs.bound_names.specs.bound_members.specs.bound_calls.specs.Standing.{TermNamed};
ghost use Rattle.statement_terms.specs.Heights.{AddsOne};
ghost use Rattle.vba_expression.specs.View.{view as expression_view};
ghost use Rattle.vba_expression.specs.Nodes.{tree_in};
ghost use Rattle.bound_terms.specs.bound_accesses.specs.bound_names.specs.bound_members.specs.bound_calls.specs.bound_forms.specs.Targets as targets;
ghost use Rattle.statement_terms.specs.Called.{IsBare, SplitAt};
ghost use Rattle.statement_terms.specs.Takers.{TakenBy};
ghost use Rattle.bound_terms.specs.bound_accesses.specs.bound_names.specs.View.{EnvStands, env_view};

use crate::assigning::property_given;
use crate::no_targets::is_sub;
use crate::property_targets::{Before, target_before};
use crate::trees::{continue_tree, nodes_tree};
use bound_project::{DeclaredType, Draft, ElementType};
use bound_terms::bound_accesses::bound_names::bound_members::bound_calls::bound_declarations::NotYet;
use bound_terms::bound_accesses::bound_names::bound_members::bound_calls::{Property, Term};
use bound_terms::bound_accesses::bound_names::{Env, callee_term, writer_of};
use bound_terms::bound_accesses::{item_member, takes_item};
use bound_terms::tree_of;
use statement_terms::{Split, Taker, adds_one, ends_bare, split_call, taker_of};
use std::alloc::Global;
use vba_base::OrMemory;
use vba_expression::{Expression, ExpressionNode};

/// The type of the value that a property is given: that of the last parameter of its Let, or a Variant where it has none.
pub fn property_takes<'a>(
    env: Env<'a>,
    property: Property<'a>,
) -> Result<DeclaredType, OrMemory<NotYet>>
    requires { EnvStands env }
    ensures { IfOk result (λ of. TakesType (env_view env.entry) property.entry of) }
{
    match writer_of(env.constants.scope, Term::Property(property)) {
        Some(writer) => {
            let (given, _front) = property_given(env, writer, false)?;
            Ok(given.of)
        }
        None => Ok(DeclaredType::Plain(ElementType::Variant)),
    }
}

/// What takes the value that a property is given.
fn property_taker<'a>(
    env: Env<'a>,
    property: Property<'a>,
) -> Result<Option<Taker>, OrMemory<NotYet>>
    requires { EnvStands env }
    ensures { IfOk result (λ taker. PropertyTaken (env_view env.entry) property.entry taker) }
{
    let of = property_takes(env, property)?;
    Ok(Some(Taker {
        of,
        is_bounded: false,
    }))
}

/// What takes the value that a term is given.
fn term_taker<'a>(env: Env<'a>, term: Term<'a>) -> Result<Option<Taker>, OrMemory<NotYet>>
    requires { EnvStands env }
    ensures { IfOk result (λ taker. TermTaken (env_view env.entry) term.entry taker) }
{
    match term {
        Term::Routine(routine) => property_taker(
            env,
            Property {
                receiver: routine.receiver,
                space: routine.space,
                written: routine.written,
            },
        ),
        Term::Property(property) => property_taker(env, property),
        _ => Ok(taker_of(term)),
    }
}

/// What takes the value of one that doesn't end with arguments in brackets.
fn taker_bare<'a>(
    alloc: Global,
    draft: &mut Draft,
    env: Env<'a>,
    place: &'a Expression,
) -> Result<Option<Taker>, OrMemory<NotYet>>
    requires env { EnvStands env }
    requires bare { IsBare (expression_view place.now) }
    ensures { IfOk result (λ taker. TakenBy (env_view env.entry) (targets.target_term (env_view env.entry) (expression_view place.now)) taker) }
{
    let tree = tree_of(alloc, draft, env, place)?;
    term_taker(env, tree.term)
}

/// What takes the value behind what stands before arguments in brackets: a property, a member of an object, or what they lead
/// to.
fn taker_behind<'a>(
    alloc: Global,
    draft: &mut Draft,
    env: Env<'a>,
    before: Before<'a>,
    split: Split<'a>,
) -> Result<Option<Taker>, OrMemory<NotYet>>
    requires env { EnvStands env }
    requires tree { TermNamed (draft_view draft.old).tables before.tree.term }
    requires named { TermNamed (draft_view draft.old).tables before.term }
    requires one { AddsOne split.arguments.now }
    ensures { IfOk result (λ taker. TakenBehind (env_view env.entry) before.entry split.entry (draft_view draft.old) taker) }
{
    let Before { tree, term } = before;
    if let Some(writer) = writer_of(env.constants.scope, term) {
        return property_taker(env, writer.property);
    }
    if takes_item(env.has_class, draft, term) {
        let member = item_member(alloc, draft, env, tree.place, term)?;
        return Ok(taker_of(Term::HostMember(member)));
    }
    let more = continue_tree(alloc, draft, env, tree, split.closed)?;
    term_taker(env, more.term)
}

/// What takes the value of one with arguments in brackets at its end.
fn taker_split<'a>(
    alloc: Global,
    draft: &mut Draft,
    env: Env<'a>,
    nodes: &'a [ExpressionNode],
    split: Split<'a>,
) -> Result<Option<Taker>, OrMemory<NotYet>>
    requires env { EnvStands env }
    requires split { SplitAt split nodes.now }
    ensures { IfOk result (λ taker. TakenBy (env_view env.entry) (targets.target_term (env_view env.entry) (tree_in nodes.now)) taker) }
{
    if !adds_one(split.arguments) {
        return Err(OrMemory::NoMemory);
    }
    let tree = nodes_tree(alloc, draft, env, split.target)?;
    let term = callee_term(alloc, draft, env, tree)?;
    if is_sub(term) {
        return Err(OrMemory::Fault(NotYet));
    }
    let before = target_before(alloc, draft, Before { tree, term }, split.arguments)?;
    taker_behind(alloc, draft, env, before, split)
}

/// What takes the value that an expression is assigned, by nodes that nothing else has.
fn taker_there<'a>(
    alloc: Global,
    draft: &mut Draft,
    env: Env<'a>,
    place: &'a Expression,
) -> Result<Option<Taker>, OrMemory<NotYet>>
    requires { EnvStands env }
    ensures { IfOk result (λ taker. TakenBy (env_view env.entry) (targets.target_term (env_view env.entry) (expression_view place.now)) taker) }
{
    let nodes = place.nodes();
    if ends_bare(nodes) {
        return taker_bare(alloc, draft, env, place);
    }
    match split_call(nodes) {
        Some(split) => taker_split(alloc, draft, env, nodes, split),
        None => Err(OrMemory::Fault(NotYet)),
    }
}

/// What takes the value that an expression is assigned.
pub fn taker_in<'a>(
    alloc: Global,
    env: Env<'a>,
    place: &'a Expression,
) -> Result<Option<Taker>, OrMemory<NotYet>>
    requires { EnvStands env }
    ensures { IfOk result (λ taker. TakenBy (env_view env.entry) (targets.target_term (env_view env.entry) (expression_view place.now)) taker) }
{
    let mut draft = Draft::new(alloc);
    taker_there(alloc, &mut draft, env, place)
}

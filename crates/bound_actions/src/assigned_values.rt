//! The value of an assignment.

ghost use Rattle.std.specs.Prelude.{◌≡◌, true, false, Bool, Some, IfOk};
ghost use Rattle.vba_expression.specs.View.{view as expression_view};
ghost use Rattle.bound_project.specs.DraftView.{draft_view};
ghost use Rattle.bound_terms.specs.bound_accesses.specs.bound_names.specs.bound_members.specs.bound_calls.specs.bound_forms.specs.Targets as targets;
ghost use Rattle.statement_terms.specs.Assigning.{PushesFor, ValueFor, is_plain, marked_may};
ghost use Rattle.bound_terms.specs.bound_accesses.specs.bound_names.specs.bound_members.specs.bound_calls.specs.Standing.{TermNamed};
ghost use Rattle.bound_terms.specs.bound_accesses.specs.bound_names.specs.View.{EnvStands, env_view};

use crate::assigning::assign_to;
use crate::takers::taker_in;
use bound_project::{DeclaredType, Draft};
use bound_terms::bound_accesses::bound_names::Env;
use bound_terms::bound_accesses::bound_names::bound_members::bound_calls::Tree;
use bound_terms::bound_accesses::bound_names::bound_members::bound_calls::bound_declarations::NotYet;
use bound_terms::{push_value, tree_of};
use statement_terms::{is_plain, mark_taken, may_break, push_assigned};
use std::alloc::Global;
use vba_base::OrMemory;
use vba_expression::Expression;

/// Does an expression take its value as it is, by nodes that nothing else has?
fn is_given_in<'a>(
    alloc: Global,
    draft: &mut Draft,
    env: Env<'a>,
    place: &'a Expression,
) -> Result<bool, OrMemory<NotYet>>
    requires { EnvStands env }
    ensures { IfOk result (λ given. given ≡ targets.is_given_with (env_view env.entry) (expression_view place.now)) }
{
    let done = assign_to(alloc, draft, env, place, Some(false))?;
    Ok(done.is_given)
}

/// Does an expression take its value as it is?
fn is_given_with<'a>(
    alloc: Global,
    env: Env<'a>,
    place: &'a Expression,
) -> Result<bool, OrMemory<NotYet>>
    requires { EnvStands env }
    ensures { IfOk result (λ given. given ≡ targets.is_given_with (env_view env.entry) (expression_view place.now)) }
{
    let mut draft = Draft::new(alloc);
    is_given_in(alloc, &mut draft, env, place)
}

/// Pushes a value that is assigned and is no object: it is the same as it is and as an operand; answers its type.
fn push_plain<'a>(
    alloc: Global,
    draft: &mut Draft,
    tree: Tree<'a>,
) -> Result<DeclaredType, OrMemory<NotYet>>
    requires named { TermNamed (draft_view draft.old).tables tree.term }
    requires plain { is_plain tree.term ≡ true }
    ensures { (has given : Bool) → IfOk result (λ of. PushesFor has (Some false) given tree.entry (draft_view draft.old) (draft_view draft.new) of) }
{
    let Some(of) = push_value(alloc, draft, tree)? else {
        return Err(OrMemory::Fault(NotYet));
    };
    Ok(of)
}

/// Pushes a value as an assignment to this expression takes it; answers its type, and whether it may be an object of a
/// class, where that is known.
fn push_for<'a>(
    alloc: Global,
    draft: &mut Draft,
    env: Env<'a>,
    place: &'a Expression,
    tree: Tree<'a>,
) -> Result<(DeclaredType, Option<bool>), OrMemory<NotYet>>
    requires env { EnvStands env }
    requires named { TermNamed (draft_view draft.old).tables tree.term }
    ensures { IfOk result (λ pushed. PushesFor env.entry.has_class pushed.1 (targets.is_given_with (env_view env.entry) (expression_view place.now)) tree.entry (draft_view draft.old) (draft_view draft.new) pushed.0) }
{
    if is_plain(tree.term) {
        let of = push_plain(alloc, draft, tree)?;
        return Ok((of, Some(false)));
    }
    let given = is_given_with(alloc, env, place)?;
    push_assigned(alloc, draft, tree, given, env.has_class)
}

/// What is known of whether a value may be an object of a class, once it was marked where it isn't taken.
fn marked_may(may_be: Option<bool>) -> Option<bool>
    ensures { result ≡ marked_may may_be }
{
    let may = may_be?;
    if may {
        return None;
    }
    Some(false)
}

/// Pushes the value of an assignment to this expression, marked where that doesn't take it; answers whether it may be an
/// object of a class, where that is known. What takes it is looked up only for values that aren't taken everywhere.
pub fn bind_assigned<'a>(
    alloc: Global,
    draft: &mut Draft,
    env: Env<'a>,
    place: &'a Expression,
    value: &'a Expression,
) -> Result<Option<bool>, OrMemory<NotYet>>
    requires { EnvStands env }
    ensures { IfOk result (λ may_be. ValueFor (env_view env.entry) may_be (targets.value_given (env_view env.entry) (expression_view place.now) (expression_view value.now)) (draft_view draft.old) (draft_view draft.new)) }
{
    let tree = tree_of(alloc, draft, env, value)?;
    let (of, may_be) = push_for(alloc, draft, env, place, tree)?;
    if !may_break(of) {
        return Ok(may_be);
    }
    let taker = taker_in(alloc, env, place)?;
    mark_taken(draft, taker, of, tree.place)?;
    Ok(marked_may(may_be))
}

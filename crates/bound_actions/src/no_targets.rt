//! What can't be assigned to by its name: a Sub, and a ParamArray.

ghost use Rattle.std.specs.Prelude.{◌≡◌, Some, IfOk, option_map};
ghost use Rattle.bound_project.specs.DraftView.{draft_view};
ghost use Rattle.declared_names.specs.View.{meant_view, own_view, written_view};
ghost use Rattle.bound_terms.specs.bound_accesses.specs.bound_names.specs.View.{env_view};
ghost use Rattle.bound_actions.specs.Assigning.{IsNoTarget, TakesLet, named_list};
ghost use Rattle.bound_actions.specs.NoTargets.{BreaksProcedure, IsSub, RefusesTarget, means_list, owns_list};
ghost use Rattle.bound_terms.specs.bound_accesses.specs.bound_names.specs.bound_members.specs.bound_calls.specs.bound_forms.specs.Targets as targets;

use bound_project::{ActionKind, Draft};
use bound_terms::bound_accesses::bound_names::bound_members::bound_calls::bound_declarations::{
    NotYet, gives_value, is_property,
};
use bound_terms::bound_accesses::bound_names::bound_members::bound_calls::{
    Receiver, Routine, Term, Tree, push_broken, push_object, sum, values_of,
};
use bound_terms::bound_accesses::bound_names::{Env, writer_of};
use declared_names::{Meant, Own, Use, declares};
use vba_base::{NoMemory, OrMemory, Place};
use vba_tree::ProcedureWords;

/// Is a procedure a Sub: does it give no value, and is it no property?
pub fn is_sub_kind(words: ProcedureWords) -> bool
    ensures { result ≡ targets.is_sub_kind words }
{
    !gives_value(words) && !is_property(words)
}

/// Is a term a Sub?
pub fn is_sub<'a>(term: Term<'a>) -> bool
    ensures { IsSub term.entry result }
{
    match term {
        Term::Routine(routine) => is_sub_kind(routine.written.header.words),
        _ => false,
    }
}

/// Is a name of a procedure that of a ParamArray?
fn owns_list<'a>(own: Own<'a>) -> bool
    ensures { result ≡ owns_list (own_view own.entry) }
{
    match own {
        Own::Parameter(parameter) => parameter.param_array_word.is_some(),
        _ => false,
    }
}

/// Is what a name means a ParamArray?
fn means_param_array<'a>(meant: Meant<'a>) -> bool
    ensures { result ≡ means_list (Some (meant_view meant.entry)) }
{
    match meant {
        Meant::OfProcedure { local, .. } => owns_list(local.own),
        _ => false,
    }
}

/// Is a tree the name of a ParamArray?
fn is_param_array<'a>(env: Env<'a>, tree: Tree<'a>) -> bool
    ensures { result ≡ named_list (env_view env.entry) (option_map (λ name. name.now) tree.entry.name) }
{
    match tree.name {
        Some(name) => match declares(Use::Plainly, env.constants.scope, name) {
            Some(meant) => means_param_array(meant),
            None => false,
        },
        None => false,
    }
}

/// Can't a tree be assigned to that doesn't end with arguments?
pub fn is_no_target<'a>(env: Env<'a>, tree: Tree<'a>) -> bool
    ensures { IsNoTarget (env_view env.entry) tree.entry result }
{
    is_sub(tree.term) || is_param_array(env, tree)
}

/// Has a property a Let that a term is? No member of an object is one.
pub fn has_let<'a>(env: Env<'a>, term: Term<'a>) -> bool
    ensures { TakesLet (env_view env.entry) term.entry result }
{
    match writer_of(env.constants.scope, term) {
        Some(_writer) => true,
        None => false,
    }
}

/// A procedure that can't be assigned to or set, or lacks arguments, behind the value or the reference that it is given: this
/// rule is broken by that and what the procedure is called of.
pub fn break_procedure(
    draft: &mut Draft,
    receiver: Receiver,
    rule: u8,
    place: Place,
) -> Result<ActionKind, OrMemory<NotYet>>
    ensures { IfOk result (λ kind. BreaksProcedure receiver rule place (draft_view draft.old) (draft_view draft.new) kind) }
{
    push_object(draft, receiver)?;
    let values = sum(values_of(receiver), 1)?;
    push_broken(draft, rule, place, values)?;
    Ok(ActionKind::Evaluate)
}

/// What can't be assigned to, behind the value that it is given: a Sub with what it is called of.
pub fn refuse_target<'a>(
    draft: &mut Draft,
    term: Term<'a>,
    place: Place,
) -> Result<ActionKind, OrMemory<NotYet>>
    ensures { IfOk result (λ kind. RefusesTarget term.entry place (draft_view draft.old) (draft_view draft.new) kind) }
{
    match term {
        Term::Routine(routine) => break_procedure(draft, routine.receiver, 27, place),
        _ => {
            push_broken(draft, 27, place, 1)?;
            Ok(ActionKind::Evaluate)
        }
    }
}

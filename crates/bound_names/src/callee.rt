//! What is called.

ghost use Rattle.std.specs.Prelude.{IfOk};
ghost use Rattle.bound_project.specs.DraftView.{draft_view};
ghost use Rattle.bound_members.specs.bound_calls.specs.bound_forms.specs.ExpressionsBound as bound;
ghost use Rattle.bound_members.specs.bound_calls.specs.bound_declarations.specs.constant_values.specs.declared_names.specs.binder.specs.Scopes as scopes;
ghost use Rattle.bound_names.specs.Callee.{CalleeIs};
ghost use Rattle.bound_members.specs.bound_calls.specs.Standing.{TermNamed};
ghost use Rattle.bound_members.specs.bound_calls.specs.Steps.{MakesLeaf};
ghost use Rattle.bound_names.specs.View.{EnvStands, env_view};

use crate::env::Env;
use crate::names::meant_term;
use bound_members::bound_calls::bound_declarations::NotYet;
use bound_members::bound_calls::bound_declarations::constant_values::declared_names::{
    Use, declares,
};
use bound_members::bound_calls::{Term, Tree};
use bound_project::Draft;
use std::alloc::Global;
use vba_base::OrMemory;
use vba_words::Identifier;

/// What a name is that is called.
fn named_term<'a>(
    alloc: Global,
    draft: &mut Draft,
    env: Env<'a>,
    name: &'a Identifier,
) -> Result<Term<'a>, OrMemory<NotYet>>
    requires { EnvStands env }
    ensures { IfOk result (λ term. MakesLeaf (env_view env.entry) (draft_view draft.old) (draft_view draft.new) term
        (bound.meant_term (env_view env.entry) name.now (scopes.declares scopes.called (env_view env.entry).scope name.now))) }
{
    let meant = declares(Use::Called, env.constants.scope, name);
    meant_term(alloc, draft, env, name, meant)
}

/// What an expression is as it is called: of a Function not its result.
pub fn callee_term<'a>(
    alloc: Global,
    draft: &mut Draft,
    env: Env<'a>,
    tree: Tree<'a>,
) -> Result<Term<'a>, OrMemory<NotYet>>
    requires env { EnvStands env }
    requires named { TermNamed (draft_view draft.old).tables tree.term }
    ensures { IfOk result (λ term. CalleeIs (env_view env.entry) tree.entry (draft_view draft.old) (draft_view draft.new) term) }
{
    match tree.name {
        Some(name) => named_term(alloc, draft, env, name),
        None => Ok(tree.term),
    }
}

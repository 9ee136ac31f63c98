//! The variables of loops.

ghost use Rattle.std.specs.Prelude.{◌≡◌, IfOk, option_map};
ghost use Rattle.bound_project.specs.View.{variable_view};
ghost use Rattle.bound_terms.specs.bound_accesses.specs.bound_names.specs.bound_members.specs.bound_calls.specs.bound_forms.specs.StatementsBound as plain;
ghost use Rattle.bound_terms.specs.bound_accesses.specs.bound_names.specs.View.{EnvStands, env_view};

use bound_project::Variable;
use bound_terms::bound_accesses::bound_names::bound_members::bound_calls::bound_declarations::NotYet;
use bound_terms::bound_accesses::bound_names::{Env, meant_variable};
use constant_values::declared_names::{Use, declares};
use statement_terms::variable_in;
use std::alloc::Global;
use vba_base::OrMemory;
use vba_words::Identifier;

/// The variable of a loop.
pub fn loop_variable<'a>(
    alloc: Global,
    env: Env<'a>,
    name: &'a Identifier,
) -> Result<Option<Variable>, OrMemory<NotYet>>
    requires { EnvStands env }
    ensures { IfOk result (λ found. option_map variable_view found ≡ plain.loop_variable (env_view env.entry) name.now) }
{
    let Some(meant) = declares(Use::Plainly, env.constants.scope, name) else {
        return Err(OrMemory::Fault(NotYet));
    };
    let term = meant_variable(alloc, env, meant)?;
    let Some(variable) = variable_in(term) else {
        return Err(OrMemory::Fault(NotYet));
    };
    Ok(Some(variable))
}

//! Functions of the library: what their names are, and calls of them.

ghost use Rattle.std.specs.Prelude.{◌≡◌};
ghost use Rattle.bound_project.specs.Drafts.{Drafted};
ghost use Rattle.bound_members.specs.bound_calls.specs.bound_forms.specs.ExpressionsBound as bound;
ghost use Rattle.bound_members.specs.bound_calls.specs.bound_declarations.specs.constant_values.specs.declared_names.specs.binder.specs.Scopes.{has_dollar};
ghost use Rattle.bound_members.specs.bound_calls.specs.bound_forms.specs.Terms as plain;
ghost use Rattle.bound_members.specs.bound_calls.specs.Standing.{base_number};
ghost use Rattle.bound_members.specs.bound_calls.specs.Steps.{MakesLeaf};
ghost use Rattle.bound_names.specs.View.{EnvStands, env_view};

use crate::env::Env;
use bound_members::bound_calls::bound_declarations::constant_values::declared_names::has_dollar;
use bound_members::bound_calls::{Function, Term};
use vba_lib::LibraryFunction;
use vba_words::Identifier;

/// Does the array that Array makes count from 1? No other function asks it.
fn is_base_one<'a>(env: Env<'a>, function: LibraryFunction) -> bool
    ensures { base_number result ≡ bound.array_base (env_view env.entry) function }
{
    match function {
        LibraryFunction::Array => env.constants.scope.here.source.base() == 1,
        _ => false,
    }
}

/// The name of a function of the library.
pub fn function_term<'a>(env: Env<'a>, name: &Identifier, function: LibraryFunction) -> Term<'a>
    requires { EnvStands env }
    ensures { (d : Drafted) → MakesLeaf (env_view env.entry) d d result
        (plain.a_function function (has_dollar name.now) (bound.array_base (env_view env.entry) function)) }
{
    Term::Function(Function {
        function,
        is_text_form: has_dollar(name),
        is_base_one: is_base_one(env, function),
        compare: env.compare,
    })
}

/// What a name is behind VBA: the array that Array makes counts from 0 there.
pub fn from_zero<'a>(term: Term<'a>) -> Term<'a>
    ensures { (env : plain.Env) (d e : Drafted) (y : plain.Term) → MakesLeaf env d e term.entry y → MakesLeaf env d e result (bound.from_zero y) }
{
    match term {
        Term::Function(function) => Term::Function(Function {
            is_base_one: false,
            ..function
        }),
        _ => term,
    }
}

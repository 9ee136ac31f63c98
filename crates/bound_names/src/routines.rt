ghost use Rattle.std.specs.Prelude.{◌≡◌, IfOk, Some, slice_get};
ghost use Rattle.bound_project.specs.View.{declared_view};
ghost use Rattle.bound_members.specs.bound_calls.specs.bound_declarations.specs.constant_values.specs.declared_names.specs.binder.specs.Constants as constants;
ghost use Rattle.bound_members.specs.bound_calls.specs.bound_declarations.specs.constant_values.specs.declared_names.specs.binder.specs.Declarations.{a_procedure};
ghost use Rattle.bound_members.specs.bound_calls.specs.bound_declarations.specs.constant_values.specs.declared_names.specs.binder.specs.Signatures as bound;
ghost use Rattle.bound_members.specs.bound_calls.specs.bound_declarations.specs.constant_values.specs.declared_names.specs.binder.specs.Scopes.{of_module};
ghost use Rattle.bound_members.specs.bound_calls.specs.bound_declarations.specs.constant_values.specs.Rounds.{IsThere};
ghost use Rattle.bound_members.specs.bound_calls.specs.bound_declarations.specs.constant_values.specs.declared_names.specs.View.{entry_view, scope_view, space_view, what_view, written_view};
ghost use Rattle.bound_names.specs.Callee.{IsProperty, Reading, MakesRoutine};
ghost use Rattle.bound_names.specs.Properties.{IsEntry};
ghost use Rattle.bound_names.specs.View.{EnvStands, env_view};

use crate::env::Env;
use crate::properties::{Part, property_with};
use bound_members::bound_calls::bound_declarations::constant_values::declared_names::{
    Entry, Scope, Space, Written,
};
use bound_members::bound_calls::bound_declarations::{
    NotYet, gives_value, is_property, procedure_number, result_type,
};
use bound_members::bound_calls::{Property, Receiver, Routine, Term};
use bound_project::{DeclaredType, ElementType};
use vba_base::OrMemory;

/// The scope of the declarations of a module.
pub fn home<'a>(scope: Scope<'a>, space: &'a Space<'a>) -> Scope<'a>
    ensures { scope_view result ≡ constants.home (scope_view scope.entry) (space_view space.now) }
{
    Scope {
        spaces: scope.spaces,
        here: space,
        locals: &[],
    }
}

/// The type of what a procedure gives.
fn call_type<'a>(
    scope: Scope<'a>,
    space: &'a Space<'a>,
    written: Written<'a>,
) -> Result<DeclaredType, OrMemory<NotYet>>
    ensures { IfOk result (λ of. declared_view of ≡ bound.call_type (scope_view scope.entry) (space_view space.now) (written_view written.entry)) }
{
    if gives_value(written.header.words) {
        result_type(home(scope, space), written)
    } else {
        Ok(DeclaredType::Plain(ElementType::Variant))
    }
}

/// What a call of the procedure with this entry needs, for a name of it, which is another one where a property is read.
fn routine_at<'a>(
    env: Env<'a>,
    space: &'a Space<'a>,
    number: usize,
    read: Written<'a>,
    written: Written<'a>,
    receiver: Receiver,
) -> Result<Routine<'a>, OrMemory<NotYet>>
    requires env { EnvStands env }
    requires placed { slice_get (scope_view env.constants.scope).spaces (space_view space.now).number ≡ Some (space_view space.now) }
    requires entry { IsEntry (space_view space.now) number (written_view read) }
    ensures { IfOk result (λ routine. Reading (env_view env.entry) receiver (space_view space.now) (written_view written.entry) (number, written_view read.entry) routine) }
{
    let scope = env.constants.scope;
    let procedure = procedure_number(scope, space, number)?;
    let of = call_type(scope, space, read)?;
    let parameters = env.signatures.parameters(scope, space, number)?;
    Ok(Routine {
        receiver,
        space,
        written,
        procedure,
        parameters,
        of,
    })
}

/// A property: its Get, or what can be assigned to alone.
fn property_term<'a>(
    env: Env<'a>,
    space: &'a Space<'a>,
    written: Written<'a>,
    receiver: Receiver,
) -> Result<Term<'a>, OrMemory<NotYet>>
    requires env { EnvStands env }
    requires placed { slice_get (scope_view env.constants.scope).spaces (space_view space.now).number ≡ Some (space_view space.now) }
    ensures { IfOk result (λ term. IsProperty (env_view env.entry) receiver (space_view space.now) (written_view written.entry) term) }
{
    let name = &written.header.name;
    match property_with(Part::Get, env.constants.scope, space, name) {
        Some((number, read)) => {
            let routine = routine_at(env, space, number, read, written, receiver)?;
            Ok(Term::Routine(routine))
        }
        None => Ok(Term::Property(Property {
            receiver,
            space,
            written,
        })),
    }
}

/// A procedure or a property, by its entry in a module of the project.
pub fn procedure_term<'a>(
    env: Env<'a>,
    space: &'a Space<'a>,
    number: usize,
    entry: Entry<'a>,
    written: Written<'a>,
    receiver: Receiver,
) -> Result<Term<'a>, OrMemory<NotYet>>
    requires env { EnvStands env }
    requires there { IsThere (scope_view env.constants.scope) (Some (of_module (space_view space.now) number (entry_view entry))) }
    requires what { what_view entry.what ≡ a_procedure (written_view written) }
    ensures { IfOk result (λ term. MakesRoutine (env_view env.entry) receiver (space_view space.now) number (written_view written.entry) term) }
{
    if is_property(written.header.words) {
        return property_term(env, space, written, receiver);
    }
    let routine = routine_at(env, space, number, written, written, receiver)?;
    Ok(Term::Routine(routine))
}

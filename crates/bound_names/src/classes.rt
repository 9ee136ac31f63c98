//! Objects of classes: what stands behind a dot behind one, and what names mean in a class.

ghost use Rattle.std.specs.Prelude.{◌≡◌, IfOk, Some, length, map, true};
ghost use Rattle.bound_project.specs.Drafts.{Drafted};
ghost use Rattle.bound_project.specs.Expressions as expressions;
ghost use Rattle.bound_project.specs.View.{event_view};
ghost use Rattle.bound_members.specs.bound_calls.specs.bound_declarations.specs.constant_values.specs.declared_names.specs.binder.specs.Constants as constants;
ghost use Rattle.bound_members.specs.bound_calls.specs.bound_declarations.specs.constant_values.specs.declared_names.specs.binder.specs.Declarations.{a_variable};
ghost use Rattle.bound_members.specs.bound_calls.specs.bound_declarations.specs.constant_values.specs.declared_names.specs.binder.specs.Classes as classes;
ghost use Rattle.bound_members.specs.bound_calls.specs.bound_forms.specs.ExpressionsBound as bound;
ghost use Rattle.bound_members.specs.bound_calls.specs.bound_declarations.specs.constant_values.specs.declared_names.specs.binder.specs.Scopes.{of_module};
ghost use Rattle.bound_members.specs.bound_calls.specs.bound_declarations.specs.constant_values.specs.declared_names.specs.binder.specs.Storage.{declared_variable};
ghost use Rattle.bound_members.specs.bound_calls.specs.bound_declarations.specs.constant_values.specs.declared_names.specs.binder.specs.EventTables.{declared_events};
ghost use Rattle.bound_members.specs.bound_calls.specs.bound_declarations.specs.constant_values.specs.Rounds.{IsThere};
ghost use Rattle.bound_members.specs.bound_calls.specs.bound_declarations.specs.constant_values.specs.declared_names.specs.View.{entry_view, scope_view, space_view, what_view};
ghost use Rattle.vba_tree.specs.View.{variable_view};
ghost use Rattle.vba_words.specs.declared.identifier.Identifier as identifier;
ghost use Rattle.bound_members.specs.bound_calls.specs.Steps.{MakesLeaf};
ghost use Rattle.bound_project.specs.DraftView.{draft_view};
ghost use Rattle.bound_names.specs.ClassMembers.{MakesEntryOf, MakesMemberOf};
ghost use Rattle.bound_names.specs.Owned.{IsShape};
ghost use Rattle.bound_names.specs.View.{EnvStands, env_view};

use crate::env::Env;
use crate::names::{Shape, declaration_at, known_shape, making_of, variable_term};
use crate::routines::procedure_term;
use crate::unknown::unknown_term;
use bound_members::bound_calls::bound_declarations::constant_values::declared_names::{
    Entry, Space, What, class_number, class_space, field_number, member_entry, own_class,
};
use bound_members::bound_calls::bound_declarations::{NotYet, made_by};
use bound_members::bound_calls::{Receiver, Term, push_node};
use bound_project::{
    DeclaredEvent, DeclaredType, Draft, ElementType, NodeKind, Storage, class_numbered,
};
use vba_base::{OrMemory, Place};
use vba_tree::Variable;
use vba_words::Identifier;

/// The events of the class whose procedure this is.
pub fn own_events<'a>(env: Env<'a>) -> Result<&'a [DeclaredEvent], OrMemory<NotYet>>
    requires { EnvStands env }
    ensures { IfOk result (λ events. map event_view events.now
        ≡ declared_events (constants.home (scope_view env.entry.constants.scope) (scope_view env.entry.constants.scope).here) (scope_view env.entry.constants.scope).here.entries) }
{
    let scope = env.constants.scope;
    if !scope.here.source.is_class {
        return Err(OrMemory::Fault(NotYet));
    }
    let class_number = class_number(scope.spaces, scope.here)?;
    let Some(class) = class_numbered(env.declared, class_number) else {
        return Err(OrMemory::Fault(NotYet));
    };
    Ok(class.events.as_slice())
}

/// A variable of a class by its entry: its number among those, and what is declared of it.
fn field_shape<'a>(
    env: Env<'a>,
    space: &'a Space<'a>,
    number: usize,
    entry: Entry<'a>,
    variable: &'a Variable,
) -> Result<(u32, Shape), OrMemory<NotYet>>
    requires env { EnvStands env }
    requires there { IsThere (scope_view env.constants.scope) (Some (of_module (space_view space.now) number (entry_view entry))) }
    requires class { (space_view space.now).source.is_class ≡ true }
    requires what { what_view entry.what ≡ a_variable (variable_view variable.now) }
    ensures number { IfOk result (λ found. found.0 ≡ classes.field_number (space_view space.now) number) }
    ensures shape { IfOk result (λ found. IsShape (declared_variable (constants.home (scope_view env.entry.constants.scope) (space_view space.now)) (variable_view variable.now)).of
        (length (declared_variable (constants.home (scope_view env.entry.constants.scope) (space_view space.now)) (variable_view variable.now)).bounds) found.1) }
{
    let class_number = class_number(env.constants.scope.spaces, space)?;
    let field = field_number(space, number)?;
    let Some(class) = class_numbered(env.declared, class_number) else {
        return Err(OrMemory::Fault(NotYet));
    };
    let Some(declaration) = declaration_at(&class.fields, field as usize) else {
        return Err(OrMemory::Fault(NotYet));
    };
    let shape = known_shape(declaration)?;
    Ok((field, shape))
}

/// A variable of an object, which was pushed.
fn object_variable<'a>(
    draft: &mut Draft,
    env: Env<'a>,
    space: &'a Space<'a>,
    number: usize,
    entry: Entry<'a>,
    variable: &'a Variable,
    place: Place,
) -> Result<Term<'a>, OrMemory<NotYet>>
    requires env { EnvStands env }
    requires there { IsThere (scope_view env.constants.scope) (Some (of_module (space_view space.now) number (entry_view entry))) }
    requires class { (space_view space.now).source.is_class ≡ true }
    requires what { what_view entry.what ≡ a_variable (variable_view variable.now) }
    ensures { IfOk result (λ term. MakesEntryOf (env_view env.entry) (space_view space.now) number (entry_view entry.entry) (draft_view draft.old) (draft_view draft.new) term) }
{
    let (field, shape) = field_shape(env, space, number, entry, variable)?;
    let kind = NodeKind::ObjectField {
        field,
        of: shape.of,
        is_bounded: shape.bounds != 0,
    };
    match made_by(&variable.type_clause, shape.of) {
        None => Ok(Term::Place {
            kind,
            of: shape.of,
            bounds: shape.bounds,
            lends: false,
            makes: false,
        }),
        Some(class) => {
            push_node(draft, kind, shape.of, place)?;
            Ok(Term::Place {
                kind: NodeKind::AsNew { class },
                of: shape.of,
                bounds: shape.bounds,
                lends: false,
                makes: true,
            })
        }
    }
}

/// A variable or a procedure of an object, which was pushed, by the entry of its class.
fn object_term<'a>(
    draft: &mut Draft,
    env: Env<'a>,
    space: &'a Space<'a>,
    number: usize,
    entry: Entry<'a>,
    place: Place,
    class: u32,
) -> Result<Term<'a>, OrMemory<NotYet>>
    requires env { EnvStands env }
    requires there { IsThere (scope_view env.constants.scope) (Some (of_module (space_view space.now) number (entry_view entry))) }
    requires class { (space_view space.now).source.is_class ≡ true }
    ensures { IfOk result (λ term. MakesEntryOf (env_view env.entry) (space_view space.now) number (entry_view entry.entry) (draft_view draft.old) (draft_view draft.new) term) }
{
    match entry.what {
        What::Variable(variable) => {
            object_variable(draft, env, space, number, entry, variable, place)
        }
        What::Procedure(written) => {
            let receiver = Receiver::Pushed(DeclaredType::Plain(ElementType::Class(class)));
            procedure_term(env, space, number, entry, written, receiver)
        }
        _ => Err(OrMemory::Fault(NotYet)),
    }
}

/// What stands behind a dot behind an object of a class, which was pushed, by the class, or what is told where there is
/// nothing.
fn member_in<'a>(
    draft: &mut Draft,
    env: Env<'a>,
    place: Place,
    dot: Place,
    class: u32,
    space: &'a Space<'a>,
    name: &Identifier,
) -> Result<Term<'a>, OrMemory<NotYet>>
    requires env { EnvStands env }
    requires found { classes.class_space (scope_view env.constants.scope).spaces class ≡ Some (space_view space.now) }
    ensures { IfOk result (λ term. MakesMemberOf (env_view env.entry) dot class name.now (draft_view draft.old) (draft_view draft.new) term) }
{
    match member_entry(env.constants.scope, space, name) {
        None => Ok(unknown_term(dot)),
        Some((number, entry)) => object_term(draft, env, space, number, entry, place, class),
    }
}

/// What stands behind a dot behind an object of a class, which was pushed.
pub fn class_member<'a>(
    draft: &mut Draft,
    env: Env<'a>,
    place: Place,
    dot: Place,
    class: u32,
    name: &Identifier,
) -> Result<Term<'a>, OrMemory<NotYet>>
    requires { EnvStands env }
    ensures { IfOk result (λ term. MakesMemberOf (env_view env.entry) dot class name.now (draft_view draft.old) (draft_view draft.new) term) }
{
    let found = class_space(env.constants.scope.spaces, class)?;
    let Some(space) = found else {
        return Err(OrMemory::Fault(NotYet));
    };
    member_in(draft, env, place, dot, class, space, name)
}

/// A variable of the own object.
fn own_field<'a>(
    env: Env<'a>,
    space: &'a Space<'a>,
    number: usize,
    entry: Entry<'a>,
    variable: &'a Variable,
) -> Result<Term<'a>, OrMemory<NotYet>>
    requires env { EnvStands env }
    requires there { IsThere (scope_view env.constants.scope) (Some (of_module (space_view space.now) number (entry_view entry))) }
    requires class { (space_view space.now).source.is_class ≡ true }
    requires what { what_view entry.what ≡ a_variable (variable_view variable.now) }
    ensures { IfOk result (λ term. (d : Drafted) → MakesLeaf (env_view env.entry) d d term
        (bound.variable_term (constants.home (scope_view env.entry.constants.scope) (space_view space.now)) (expressions.own (classes.field_number (space_view space.now) number)) (variable_view variable.now))) }
{
    let (field, shape) = field_shape(env, space, number, entry, variable)?;
    let made = made_by(&variable.type_clause, shape.of);
    Ok(variable_term(Storage::Own(field), shape, making_of(made)))
}

/// A variable or a procedure of a class by its name there: one of the own object.
pub fn own_member<'a>(
    env: Env<'a>,
    space: &'a Space<'a>,
    number: usize,
    entry: Entry<'a>,
) -> Result<Term<'a>, OrMemory<NotYet>>
    requires env { EnvStands env }
    requires there { IsThere (scope_view env.constants.scope) (Some (of_module (space_view space.now) number (entry_view entry))) }
    requires class { (space_view space.now).source.is_class ≡ true }
    ensures { IfOk result (λ term. (d : Drafted) (x : identifier.Identifier) → MakesLeaf (env_view env.entry) d d term (bound.entry_term (env_view env.entry) x (space_view space.now) number (entry_view entry.entry))) }
{
    match entry.what {
        What::Variable(variable) => own_field(env, space, number, entry, variable),
        What::Procedure(written) => {
            let of = own_class(env.constants.scope)?;
            procedure_term(env, space, number, entry, written, Receiver::Own(of))
        }
        _ => Err(OrMemory::Fault(NotYet)),
    }
}

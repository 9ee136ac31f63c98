//! RaiseEvent.

ghost use Rattle.std.specs.Prelude.{◌≡◌, [], IfOk, bytes_eq, map, option_map};
ghost use Rattle.bound_project.specs.DraftView.{draft_view};
ghost use Rattle.bound_project.specs.Project.{DeclaredEvent as PlainEvent};
ghost use Rattle.bound_project.specs.View.{event_view, parameter_view};
ghost use Rattle.bound_terms.specs.bound_accesses.specs.bound_names.specs.bound_members.specs.bound_calls.specs.bound_forms.specs.StatementsBound as plain;
ghost use Rattle.bound_terms.specs.bound_accesses.specs.bound_names.specs.bound_members.specs.bound_calls.specs.bound_declarations.specs.constant_values.specs.declared_names.specs.binder.specs.Scopes.{first_at};
ghost use Rattle.bound_actions.specs.Raised.{LeftPushed, Raises, RaisesOn, RaisesWith};
ghost use Rattle.statement_terms.specs.statement_nodes.specs.Pushed.{ActionStands};
ghost use Rattle.bound_terms.specs.bound_accesses.specs.bound_names.specs.View.{EnvStands, env_view};
ghost use Rattle.vba_tree.specs.View.{event_arguments_view};

use crate::statement_calls::read_written;
use crate::untaken::refuse_arguments;
use bound_project::{ActionKind, DeclaredEvent, Draft};
use bound_terms::bound_accesses::bound_names::bound_members::bound_calls::bound_declarations::NotYet;
use bound_terms::bound_accesses::bound_names::bound_members::bound_calls::{
    Passed, push_broken, push_in_order, takes, takes_none,
};
use bound_terms::bound_accesses::bound_names::bound_members::shapes_ahead;
use bound_terms::bound_accesses::bound_names::{Env, own_events};
use bound_terms::bound_operands::push_gathered;
use statement_terms::push_rest;
use std::alloc::Global;
use vba_base::{NoMemory, OrMemory, Place};
use vba_expression::ExpressionNode;
use vba_tree::EventArguments;
use vba_words::Identifier;

/// An event with no brackets behind it.
fn raise_bare<'a>(
    alloc: Global,
    draft: &mut Draft,
    event: u32,
    declared: &'a DeclaredEvent,
    place: Place,
) -> Result<ActionKind, OrMemory<NotYet>>
    ensures { IfOk result (λ kind. RaisesWith event (map parameter_view declared.now.parameters.items) place (draft_view draft.old) (draft_view draft.new) kind) }
{
    let parameters = declared.parameters.as_slice();
    if !takes_none(parameters) {
        push_broken(draft, 25, place, 0)?;
        return Ok(ActionKind::Evaluate);
    }
    let passed = Passed {
        left: parameters,
        count: 0,
    };
    let (_written, arguments) = push_rest(alloc, draft, passed)?;
    Ok(ActionKind::RaiseEvent { event, arguments })
}

/// Pushes what the parameters have behind arguments without names, of which so many are values for a ParamArray; answers how
/// many arguments there are.
fn push_left<'a>(
    alloc: Global,
    draft: &mut Draft,
    passed: Passed<'a>,
    values: u32,
) -> Result<u32, OrMemory<NotYet>>
    ensures { IfOk result (λ arguments. LeftPushed passed.entry values (draft_view draft.old) (draft_view draft.new) arguments) }
{
    if values == 0 {
        let (_written, arguments) = push_rest(alloc, draft, passed)?;
        return Ok(arguments);
    }
    push_gathered(alloc, draft, passed, values)
}

/// An event with arguments by their nodes.
fn raise_with<'a>(
    alloc: Global,
    draft: &mut Draft,
    env: Env<'a>,
    event: u32,
    declared: &'a DeclaredEvent,
    place: Place,
    nodes: &'a [ExpressionNode],
) -> Result<ActionKind, OrMemory<NotYet>>
    requires { EnvStands env }
    ensures { IfOk result (λ kind. RaisesOn (env_view env.entry) event (map parameter_view declared.now.parameters.items) place nodes.now (draft_view draft.old) (draft_view draft.new) kind) }
{
    let parameters = declared.parameters.as_slice();
    let shapes = shapes_ahead(alloc, nodes)?;
    let is_taken = takes(alloc, parameters, &shapes)?;
    if !is_taken {
        return refuse_arguments(alloc, draft, env, parameters, 0, place, nodes);
    }
    let (passed, named, values) = read_written(alloc, draft, env, parameters, nodes)?;
    if named.is_empty() {
        let arguments = push_left(alloc, draft, passed, values)?;
        return Ok(ActionKind::RaiseEvent { event, arguments });
    }
    if values != 0 {
        return Err(OrMemory::Fault(NotYet));
    }
    let ordered = push_in_order(alloc, draft, parameters, passed, named)?;
    Ok(ActionKind::RaiseEventInOrder {
        event,
        arguments: ordered.arguments,
        order: ordered.order,
    })
}

/// An event with its number at hand.
fn raise_event<'a>(
    alloc: Global,
    draft: &mut Draft,
    env: Env<'a>,
    event: u32,
    declared: &'a DeclaredEvent,
    place: Place,
    arguments: &'a Option<EventArguments>,
) -> Result<ActionKind, OrMemory<NotYet>>
    requires { EnvStands env }
    ensures { IfOk result (λ kind. Raises (env_view env.entry) event (map parameter_view declared.now.parameters.items) place
        (plain.event_arguments (env_view env.entry) (option_map event_arguments_view arguments.now)) (draft_view draft.old) (draft_view draft.new) kind) }
{
    match arguments {
        None => raise_bare(alloc, draft, event, declared, place),
        Some(written) => {
            let nodes = written.arguments.nodes();
            raise_with(alloc, draft, env, event, declared, place, nodes)
        }
    }
}

/// The first event of a name, with its number.
#[tactic(auto, using(std::proofs::lemmas::List::drop_more))]
fn event_named<'a>(
    events: &'a [DeclaredEvent],
    name: &Identifier,
) -> Result<Option<(u32, &'a DeclaredEvent)>, NoMemory>
    ensures { IfOk result (λ found. option_map (λ f. (f.0, event_view f.1.now)) found
        ≡ first_at (λ (e : PlainEvent). bytes_eq e.name.fold name.now.name) 0 (map event_view events.now)) }
{
    let mut number = 0_u32;
    for event in events {
        if event.name.fold == name.name {
            return Ok(Some((number, event)));
        }
        number = number.checked_add(1).ok_or(NoMemory)?;
    }
    Ok(None)
}

/// `RaiseEvent event [([arguments])]`
pub fn bind_raise_event<'a>(
    alloc: Global,
    draft: &mut Draft,
    env: Env<'a>,
    name: &'a Identifier,
    arguments: &'a Option<EventArguments>,
) -> Result<Option<ActionKind>, OrMemory<NotYet>>
    requires env { EnvStands env }
    requires empty { (draft_view draft.old).pieces ≡ [] }
    ensures { IfOk result (λ kind. ActionStands kind
        (plain.event_raised (env_view env.entry) name.now (plain.event_arguments (env_view env.entry) (option_map event_arguments_view arguments.now)))
        (draft_view draft.old) (draft_view draft.new)) }
{
    let events = own_events(env)?;
    let Some((number, event)) = event_named(events, name)? else {
        return Err(OrMemory::Fault(NotYet));
    };
    let place = name.token.place;
    let kind = raise_event(alloc, draft, env, number, event, place, arguments)?;
    Ok(Some(kind))
}

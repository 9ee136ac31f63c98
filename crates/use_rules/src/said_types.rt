//! S16 at what is said: unknown types.

ghost use Rattle.std.specs.Prelude.{◌≡◌, OnOk, flat_map};
ghost use Rattle.declared_names.specs.binder.specs.Constants.{unless};
ghost use Rattle.declared_names.specs.binder.specs.Types as types;
ghost use Rattle.declared_names.specs.binder.specs.Violations.{place_of_type, types_said};
ghost use Rattle.declared_names.specs.View.{scope_view};
ghost use Rattle.use_rules.specs.Found.{noted};
ghost use Rattle.use_rules.specs.TypesFound.{new_faults};
ghost use Rattle.said_parts.specs.View.{all_said, said_view};

use crate::noting::note_place;
use crate::types_walk::{note_types, note_types_in_arguments};
use declared_names::{Scope, is_made, type_meant};
use said_parts::Said;
use std::alloc::Global;
use vba_base::{NoMemory, Place, Refusal};
use vba_expression::TypeName;

/// The place of the name of a type: that of its first name.
pub fn place_of_type(name: &TypeName) -> Place
    ensures { result ≡ place_of_type name.now }
{
    match &name.qualifier {
        Some(qualifier) => qualifier.name.token.place,
        None => name.name.token.place,
    }
}

/// Notes a type that is unknown.
fn note_unknown_type(
    scope: Scope,
    name: &TypeName,
    least: &mut Option<Refusal>,
) -> Result<(), NoMemory>
    ensures { OnOk result (least.new ≡ noted 16 least.old (unless (types.type_meant (scope_view scope.entry) name.now) (place_of_type name.now))) }
{
    if type_meant(scope, name)?.is_none() {
        note_place(least, true, 16, place_of_type(name));
    }
    Ok(())
}

/// Notes a type that New may not make.
#[tactic(auto, using(crate::proofs::Noted::unless_if))]
fn note_new_type(scope: Scope, name: &TypeName, least: &mut Option<Refusal>) -> Result<(), NoMemory>
    ensures { OnOk result (least.new ≡ noted 16 least.old (new_faults (scope_view scope.entry) name.now)) }
{
    let broken = !is_made(type_meant(scope, name)?);
    note_place(least, broken, 16, place_of_type(name));
    Ok(())
}

/// Notes where what is said breaks S16.
#[tactic(auto, using(crate::proofs::SaidFound::arguments_types))]
pub fn note_types_said(
    alloc: Global,
    scope: Scope,
    said: Said,
    least: &mut Option<Refusal>,
) -> Result<(), NoMemory>
    ensures { OnOk result (least.new ≡ noted 16 least.old (flat_map (types_said (scope_view scope.entry)) (said_view said.entry))) }
{
    match said {
        Said::TypeNamed(name) => note_unknown_type(scope, name, least),
        Said::NewNamed(name) => note_new_type(scope, name, least),
        Said::ConstantExpression(expression)
        | Said::Expression(expression)
        | Said::Called(expression) => note_types(alloc, scope, expression, least),
        Said::Redimmed { place, .. } => note_types(alloc, scope, place, least),
        Said::Arguments(arguments) => note_types_in_arguments(alloc, scope, arguments, least),
        Said::Declares { .. }
        | Said::DeclaresConstant(_)
        | Said::Counter(_)
        | Said::GoesTo(_)
        | Said::Raises(_) => Ok(()),
    }
}

/// The same of all that is said.
pub fn note_all_types(
    alloc: Global,
    scope: Scope,
    said: &[Said],
    least: &mut Option<Refusal>,
) -> Result<(), NoMemory>
    ensures { OnOk result (least.new ≡ noted 16 least.old (flat_map (types_said (scope_view scope.entry)) (all_said said.now))) }
{
    for one in said {
        note_types_said(alloc, scope, *one, least)?;
    }
    Ok(())
}

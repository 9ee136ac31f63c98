//! S14 at the parameters of procedures and events.

ghost use Rattle.std.specs.Prelude.{◌≡◌, ◌∷◌, ◌&&◌, ◌||◌, not, false, is_some, length, nat_lt, option_map};
ghost use Rattle.module_rules.specs.Found.{noted};
ghost use Rattle.module_rules.specs.Seen.{parameters_behind};
ghost use Rattle.vba_module.specs.Headers as headers;
ghost use Rattle.vba_tree.specs.View.{listed_view, parameter_view, parameters_view, type_clause_view};

use crate::noting::note_place;
use crate::types::{OwnTypes, is_own_type};
use module_parts::{expression_place, parameter_place};
use vba_base::Refusal;
use vba_tree::{DeclaredType, Listed, Next, Parameter, Parameters, Passing, TypeClause};

/// `variant`
const VARIANT: [u16; 7] = [0x76, 0x61, 0x72, 0x69, 0x61, 0x6E, 0x74];

/// Must it be given: is it neither Optional nor a ParamArray?
fn is_required(parameter: &Parameter) -> bool
    ensures { result ≡ headers.is_required (parameter_view parameter.now) }
{
    parameter.optional_word.is_none() && parameter.param_array_word.is_none()
}

/// Is it of the type Variant, by its name or without a type and a suffix?
fn is_variant(parameter: &Parameter) -> bool
    ensures { result ≡ headers.is_variant parameter.now.name.suffix (option_map type_clause_view parameter.now.type_clause) }
{
    match &parameter.type_clause {
        None => parameter.name.suffix.is_none(),
        Some(
            TypeClause {
                declared_type: DeclaredType::Named(class),
                ..
            },
        ) => class.qualifier.is_none() && class.name.name.units() == VARIANT.as_slice(),
        Some(_) => false,
    }
}

/// Do parameters stand behind?
#[tactic(auto, using(crate::proofs::Listing::length_items))]
fn has_more(others: &[Next<Parameter>]) -> bool
    ensures { result ≡ nat_lt 0 (length (parameters_behind others.now)) }
{
    !others.is_empty()
}

/// A ParamArray is the last one, and an array of Variant.
fn note_param_array(parameter: &Parameter, others: &[Next<Parameter>], least: &mut Option<Refusal>)
    ensures { least.new ≡ noted 14 least.old (headers.param_array_faults (parameter_view parameter.now) (parameters_behind others.now)) }
{
    if let Some(word) = parameter.param_array_word {
        let is_misformed = has_more(others)
            || parameter.brackets.is_none()
            || !is_variant(parameter);
        note_place(least, is_misformed, 14, word.place);
    }
}

/// The word ByVal stands before no array and no value of a Type.
fn note_by_value(parameter: &Parameter, types: &OwnTypes, least: &mut Option<Refusal>)
    ensures { least.new ≡ noted 14 least.old (headers.by_value_faults (headers.is_named types.now.module_name types.now.names.items) (parameter_view parameter.now)) }
{
    if let Some(word) = parameter.passing {
        let is_by_value = match word.passing {
            Passing::ByVal => true,
            Passing::ByRef => false,
        };
        let is_wrong = is_by_value
            && (parameter.brackets.is_some() || is_own_type(types, &parameter.type_clause));
        note_place(least, is_wrong, 14, word.token.place);
    }
}

/// A default stands on an Optional parameter.
fn note_default(parameter: &Parameter, least: &mut Option<Refusal>)
    ensures { least.new ≡ noted 14 least.old (headers.default_faults (parameter_view parameter.now)) }
{
    if let Some(default) = &parameter.default {
        let is_required = parameter.optional_word.is_none();
        note_place(least, is_required, 14, expression_place(&default.value));
    }
}

/// Stands a parameter that must be given behind an optional one? The last one of a Property Let or Set may.
fn is_late(
    parameter: &Parameter,
    others: &[Next<Parameter>],
    is_behind_optional: bool,
    takes_value: bool,
) -> bool
    ensures { result ≡ (is_behind_optional && (headers.is_required (parameter_view parameter.now) && not (takes_value && not (nat_lt 0 (length (parameters_behind others.now)))))) }
{
    let is_the_value = takes_value && !has_more(others);
    is_behind_optional && is_required(parameter) && !is_the_value
}

/// Notes S14 at a parameter before others, behind an optional one or not.
#[tactic(auto, using(crate::proofs::Noted::noted_append))]
fn note_parameter(
    parameter: &Parameter,
    others: &[Next<Parameter>],
    is_behind_optional: bool,
    takes_value: bool,
    types: &OwnTypes,
    least: &mut Option<Refusal>,
)
    ensures { noted 14 least.new (headers.parameter_faults (headers.is_named types.now.module_name types.now.names.items) takes_value (is_behind_optional || is_some parameter.now.optional_word) (parameters_behind others.now))
        ≡ noted 14 least.old (headers.parameter_faults (headers.is_named types.now.module_name types.now.names.items) takes_value is_behind_optional (parameter_view parameter.now ∷ parameters_behind others.now)) }
{
    let is_late = is_late(parameter, others, is_behind_optional, takes_value);
    note_place(least, is_late, 14, parameter_place(parameter));
    note_param_array(parameter, others, least);
    note_by_value(parameter, types, least);
    note_default(parameter, least);
}

/// Notes S14 at parameters.
fn note_listed(
    list: &Listed<Parameter>,
    takes_value: bool,
    types: &OwnTypes,
    least: &mut Option<Refusal>,
)
    ensures { least.new ≡ noted 14 least.old (headers.parameter_faults (headers.is_named types.now.module_name types.now.names.items) takes_value false (headers.all_of (listed_view parameter_view list.now))) }
{
    let mut left = list.others.as_slice();
    note_parameter(&list.first, left, false, takes_value, types, least);
    let mut is_behind_optional = list.first.optional_word.is_some();
    'parameters: while let [next, others @ ..] = left {
        note_parameter(
            &next.item,
            others,
            is_behind_optional,
            takes_value,
            types,
            least,
        );
        is_behind_optional = is_behind_optional || next.item.optional_word.is_some();
        left = others;
    }
}

/// Notes S14 at the parameters of a header, of which the last one takes the value of a Property Let or Set or doesn't.
pub fn note_parameters(
    parameters: &Option<Parameters>,
    takes_value: bool,
    types: &OwnTypes,
    least: &mut Option<Refusal>,
)
    ensures { least.new ≡ noted 14 least.old (headers.parameter_faults (headers.is_named types.now.module_name types.now.names.items) takes_value false (headers.parameters_of (option_map parameters_view parameters.now))) }
{
    if let Some(
        Parameters {
            parameters: Some(list),
            ..
        },
    ) = parameters
    {
        note_listed(list, takes_value, types, least);
    }
}

//! Parameters as they are bound ([MS-VBAL] 5.3.1.5).

ghost use Rattle.std.specs.Prelude.{◌≡◌, ◌==◌, ◌&&◌, false, length, [], ◌∷◌, ◌++◌, map, option_map, Some, None, is_some, if◌then◌else◌, IfOk, OnOk};
ghost use Rattle.std.specs.Option.{option_map_or};
ghost use Rattle.constant_values.specs.declared_names.specs.binder.specs.Constants as constant;
ghost use Rattle.constant_values.specs.declared_names.specs.binder.specs.Scopes as scopes;
ghost use Rattle.constant_values.specs.declared_names.specs.binder.specs.Storage as storage;
ghost use Rattle.bound_declarations.specs.Parameters.{next_items};
ghost use Rattle.bound_project.specs.View as bound;
ghost use Rattle.bound_project.specs.View.{declared_view, element_view};
ghost use Rattle.constant_values.specs.Tables.{AreConstants};
ghost use Rattle.constant_values.specs.declared_names.specs.View.{scope_view, written_view};
ghost use Rattle.vba_expression.specs.View as expression;
ghost use Rattle.vba_module.specs.Headers.{all_of};
ghost use Rattle.vba_module.specs.Headers as headers;
ghost use Rattle.vba_tree.specs.View.{listed_view, parameter_view, parameters_view};
ghost use Rattle.vba_values.specs.Val.{array, missing, no_vals};
ghost use Rattle.vba_values.specs.View.{view};

use crate::kinds::{is_by_val, takes_value};
use crate::not_yet::NotYet;
use crate::types::parameter_type;
use bound_project::{DeclaredType, ElementType, Parameter};
use constant_values::declared_names::{Written, spelled};
use constant_values::{Constants, coerced, known_value};
use currency::from_count;
use std::alloc::Global;
use vba_base::{NoMemory, OrMemory, Units};
use vba_tree::{DefaultValue, EventLine, Listed, Next, Parameters};
use vba_values::{ArrayValue, ObjRef, Value, copy_value};

/// An array without storage.
fn array_alone(alloc: Global, element: ElementType) -> Result<Value, NoMemory>
    ensures { IfOk result (λ value. view value ≡ array [] (element_view element) no_vals) }
{
    let array = ArrayValue {
        bounds: Vec::new(alloc),
        element: element.value_type(),
        items: Vec::new(alloc),
    };
    Ok(Value::Array(Box::new(alloc, array)?))
}

/// What an optional parameter that is no array has where no argument is given and no default is written.
fn not_given_element(alloc: Global, element: ElementType) -> Result<Value, OrMemory<NotYet>>
    ensures { (s : scopes.Scope) → IfOk result (λ value. view value ≡ storage.not_given_value s (element_view element)) }
{
    Ok(match element {
        ElementType::Variant => Value::Missing,
        ElementType::Boolean => Value::Boolean(false),
        ElementType::Byte => Value::Byte(0),
        ElementType::Integer => Value::Integer(0),
        ElementType::Long => Value::Long(0),
        ElementType::LongLong => Value::LongLong(0),
        ElementType::Currency => Value::Currency(from_count(0)),
        ElementType::Text => Value::Text(Units::new(alloc)),
        ElementType::Object
        | ElementType::Class(_)
        | ElementType::Collection
        | ElementType::Worksheet
        | ElementType::Range => Value::Object(ObjRef::Nothing),
        ElementType::FixedText(_) | ElementType::UserType(_) => {
            return Err(OrMemory::Fault(NotYet));
        }
    })
}

/// What an optional parameter has where no argument is given and no default is written.
fn not_given_value(alloc: Global, of: DeclaredType) -> Result<Value, OrMemory<NotYet>>
    ensures { (s : scopes.Scope) → IfOk result (λ value. view value ≡ storage.not_given_value s (declared_view of)) }
{
    match of {
        DeclaredType::Plain(element) => not_given_element(alloc, element),
        DeclaredType::ArrayOf(element) => Ok(array_alone(alloc, element)?),
    }
}

/// The value of a default that is written, as one of the type of its parameter.
fn written_default(
    alloc: Global,
    constants: Constants,
    of: DeclaredType,
    default: &DefaultValue,
) -> Result<Value, OrMemory<NotYet>>
    requires { AreConstants constants }
    ensures { IfOk result (λ value. view value ≡ option_map_or (λ (k : constant.Known). k.value)
        (constant.coerced (declared_view of) (constant.known_value (scope_view constants.entry.scope) (expression.view default.now.value))) missing) }
{
    let known = known_value(alloc, constants, &default.value)?;
    match coerced(alloc, of, &known)? {
        Some(known) => Ok(copy_value(alloc, &known.value)?),
        None => Err(OrMemory::Fault(NotYet)),
    }
}

/// What a parameter of a type has where no argument is given; none where it isn't optional.
fn default_value(
    alloc: Global,
    constants: Constants,
    of: DeclaredType,
    parameter: &vba_tree::Parameter,
) -> Result<Option<Value>, OrMemory<NotYet>>
    requires values { AreConstants constants }
    requires of { declared_view of ≡ storage.parameter_type (scope_view constants.scope) (parameter_view parameter.now) }
    ensures { IfOk result (λ value. option_map view value
        ≡ (if is_some parameter.now.optional_word then Some (storage.default_value (scope_view constants.entry.scope) (parameter_view parameter.now)) else None)) }
{
    if parameter.optional_word.is_none() {
        return Ok(None);
    }
    match &parameter.default {
        None => Ok(Some(not_given_value(alloc, of)?)),
        Some(default) => Ok(Some(written_default(alloc, constants, of, default)?)),
    }
}

/// A parameter as it is bound. That of the value that a property is given is never by reference.
fn bound_parameter(
    alloc: Global,
    constants: Constants,
    is_value: bool,
    parameter: &vba_tree::Parameter,
) -> Result<Parameter, OrMemory<NotYet>>
    requires { AreConstants constants }
    ensures { IfOk result (λ made. bound.parameter_view made
        ≡ storage.bound_parameter (scope_view constants.entry.scope) is_value (parameter_view parameter.now)) }
{
    let is_param_array = parameter.param_array_word.is_some();
    let scope = constants.scope;
    let here = scope.here;
    let of = parameter_type(scope, parameter)?;
    let name = spelled(alloc, here.source.text, &parameter.name)?;
    Ok(Parameter {
        name,
        of,
        is_by_reference: !(is_value || (is_by_val(parameter.passing) || is_param_array)),
        default: default_value(alloc, constants, of, parameter)?,
        is_param_array,
    })
}

/// Adds what was bound.
#[tactic(auto, using(crate::proofs::Pushes::parameters_push))]
fn push_bound(parameters: &mut Vec<Parameter>, parameter: Parameter) -> Result<(), NoMemory>
    ensures { OnOk result (map bound.parameter_view parameters.new.items
        ≡ map bound.parameter_view parameters.old.items ++ bound.parameter_view parameter ∷ []) }
{
    Ok(parameters.push(parameter)?)
}

/// Adds a parameter.
fn push_parameter(
    alloc: Global,
    constants: Constants,
    is_value: bool,
    parameter: &vba_tree::Parameter,
    parameters: &mut Vec<Parameter>,
) -> Result<(), OrMemory<NotYet>>
    requires { AreConstants constants }
    ensures { OnOk result (map bound.parameter_view parameters.new.items
        ≡ map bound.parameter_view parameters.old.items
        ++ storage.bound_parameter (scope_view constants.entry.scope) is_value (parameter_view parameter.now) ∷ []) }
{
    let parameter = bound_parameter(alloc, constants, is_value, parameter)?;
    Ok(push_bound(parameters, parameter)?)
}

/// Does a parameter take the value that a property is given? The last one may.
fn takes_it(takes_value: bool, behind: &[Next<vba_tree::Parameter>]) -> bool
    ensures { result ≡ (takes_value && (length behind.now == 0)) }
{
    takes_value && behind.is_empty()
}

/// Adds a parameter before others.
#[tactic(auto, using(crate::proofs::Pushes::parameters_step))]
fn push_next(
    alloc: Global,
    constants: Constants,
    takes_value: bool,
    parameter: &vba_tree::Parameter,
    behind: &[Next<vba_tree::Parameter>],
    parameters: &mut Vec<Parameter>,
) -> Result<(), OrMemory<NotYet>>
    requires { AreConstants constants }
    ensures { OnOk result (map bound.parameter_view parameters.new.items
        ++ storage.bound_parameters (scope_view constants.entry.scope) takes_value (next_items behind.now)
        ≡ map bound.parameter_view parameters.old.items
        ++ storage.bound_parameters (scope_view constants.entry.scope) takes_value (parameter_view parameter.now ∷ next_items behind.now)) }
{
    let is_value = takes_it(takes_value, behind);
    push_parameter(alloc, constants, is_value, parameter, parameters)?;
    Ok(())
}

/// Adds parameters, of which the last may take the value that a property is given.
fn push_parameters(
    alloc: Global,
    constants: Constants,
    takes_value: bool,
    list: &Listed<vba_tree::Parameter>,
    parameters: &mut Vec<Parameter>,
) -> Result<(), OrMemory<NotYet>>
    requires { AreConstants constants }
    ensures { OnOk result (map bound.parameter_view parameters.new.items
        ≡ map bound.parameter_view parameters.old.items
        ++ storage.bound_parameters (scope_view constants.entry.scope) takes_value (all_of (listed_view parameter_view list.now))) }
{
    let mut left = list.others.as_slice();
    push_next(alloc, constants, takes_value, &list.first, left, parameters)?;
    'parameters: while let [next, behind @ ..] = left {
        push_next(
            alloc,
            constants,
            takes_value,
            &next.item,
            behind,
            parameters,
        )?;
        left = behind;
    }
    Ok(())
}

/// Parameters in brackets, of which the last may take the value that a property is given.
fn bound_list(
    alloc: Global,
    constants: Constants,
    takes_value: bool,
    written: &Option<Parameters>,
) -> Result<Vec<Parameter>, OrMemory<NotYet>>
    requires { AreConstants constants }
    ensures { IfOk result (λ parameters. map bound.parameter_view parameters.items
        ≡ storage.bound_parameters (scope_view constants.entry.scope) takes_value (headers.parameters_of (option_map parameters_view written.now))) }
{
    let mut parameters = Vec::new(alloc);
    match written {
        Some(
            Parameters {
                parameters: Some(list),
                ..
            },
        ) => push_parameters(alloc, constants, takes_value, list, &mut parameters)?,
        _ => {}
    }
    Ok(parameters)
}

/// The parameters of a procedure, in its own scope.
pub fn parameters_of(
    alloc: Global,
    constants: Constants,
    written: Written,
) -> Result<Vec<Parameter>, OrMemory<NotYet>>
    requires { AreConstants constants }
    ensures { IfOk result (λ parameters. map bound.parameter_view parameters.items ≡ storage.parameters_of (scope_view constants.entry.scope) (written_view written.entry)) }
{
    let takes_value = takes_value(written.header.words);
    bound_list(alloc, constants, takes_value, &written.header.parameters)
}

/// The parameters of an event, in the scope of its class.
pub fn event_parameters(
    alloc: Global,
    constants: Constants,
    event: &EventLine,
) -> Result<Vec<Parameter>, OrMemory<NotYet>>
    requires { AreConstants constants }
    ensures { IfOk result (λ parameters. map bound.parameter_view parameters.items
        ≡ storage.bound_parameters (scope_view constants.entry.scope) false (headers.parameters_of (option_map parameters_view event.now.parameters))) }
{
    bound_list(alloc, constants, false, &event.parameters)
}

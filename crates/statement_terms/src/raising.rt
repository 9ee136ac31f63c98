//! The parameters of Err.Raise.

ghost use Rattle.std.specs.Prelude.{◌≡◌, IfOk, map, option_map};
ghost use Rattle.vba_base.specs.Fold.{folded};
ghost use Rattle.vba_values.specs.View.{view as value_view};
ghost use Rattle.bound_project.specs.View.{declared_view, parameter_view};
ghost use Rattle.bound_members.specs.bound_calls.specs.bound_forms.specs.StatementsBound as plain;

use bound_project::{DeclaredType, ElementType, Parameter, Spelled};
use std::alloc::Global;
use vba_base::{NoMemory, Units, name_of};
use vba_values::Value;

/// number
const NUMBER: &[u16] = &[0x6E, 0x75, 0x6D, 0x62, 0x65, 0x72];

/// source
const SOURCE: &[u16] = &[0x73, 0x6F, 0x75, 0x72, 0x63, 0x65];

/// description
const DESCRIPTION: &[u16] = &[
    0x64, 0x65, 0x73, 0x63, 0x72, 0x69, 0x70, 0x74, 0x69, 0x6F, 0x6E,
];

/// A parameter of Err.Raise, whose name is its own fold.
fn raise_parameter(
    alloc: Global,
    word: &[u16],
    of: DeclaredType,
    default: Option<Value>,
) -> Result<Parameter, NoMemory>
    ensures { IfOk result (λ parameter. folded word.now ≡ word.now
        → parameter_view parameter ≡ plain.raise_parameter word.now (declared_view of) (option_map value_view default)) }
{
    let spelling = Units::from_units(alloc, word)?;
    let fold = name_of(alloc, word)?;
    Ok(Parameter {
        name: Spelled { spelling, fold },
        of,
        is_by_reference: false,
        default,
        is_param_array: false,
    })
}

/// The parameters of Err.Raise: Number, and where they are given Source and Description.
pub fn raise_parameters(alloc: Global) -> Result<Vec<Parameter>, NoMemory>
    ensures { IfOk result (λ parameters. map parameter_view parameters.items ≡ plain.raise_parameters) }
{
    let long = DeclaredType::Plain(ElementType::Long);
    let text = DeclaredType::Plain(ElementType::Text);
    let mut parameters = Vec::with_capacity(alloc, 3)?;
    let number = raise_parameter(alloc, NUMBER, long, None)?;
    parameters.push(number)?;
    let source = raise_parameter(alloc, SOURCE, text, Some(Value::Missing))?;
    parameters.push(source)?;
    let description = raise_parameter(alloc, DESCRIPTION, text, Some(Value::Missing))?;
    parameters.push(description)?;
    Ok(parameters)
}

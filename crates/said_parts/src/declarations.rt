//! What declarations say: types, bounds and values.

ghost use Rattle.std.specs.Prelude.{◌≡◌, ◌++◌, OnOk, flat_map, option_map};
ghost use Rattle.binder.specs.Said as plain;
ghost use Rattle.said_parts.specs.View.{all_said, field_view};
ghost use Rattle.vba_module.specs.Headers.{all_of, parameters_of};
ghost use Rattle.vba_tree.specs.View as views;

use crate::said::{Said, push_said};
use vba_base::NoMemory;
use vba_tree::{
    Constant, DeclaredType, Dim, Dims, Listed, NewTypeClause, Parameter, Parameters, ResultType,
    TypeClause, TypeMember, Variable,
};

/// A type.
pub fn push_type<'a>(said: &mut Vec<Said<'a>>, declared: &'a DeclaredType) -> Result<(), NoMemory>
    ensures { OnOk result (all_said said.new.items ≡ all_said said.old.items ++ plain.type_said (views.declared_type_view declared.now)) }
{
    match declared {
        DeclaredType::Named(name) => push_said(said, Said::TypeNamed(name)),
        DeclaredType::FixedText { length, .. } => push_said(said, Said::ConstantExpression(length)),
    }
}

/// A type behind As, where one is written.
pub fn push_clause<'a>(
    said: &mut Vec<Said<'a>>,
    clause: &'a Option<TypeClause>,
) -> Result<(), NoMemory>
    ensures { OnOk result (all_said said.new.items ≡ all_said said.old.items ++ plain.clause_said (option_map views.type_clause_view clause.now)) }
{
    match clause {
        Some(clause) => push_type(said, &clause.declared_type),
        None => Ok(()),
    }
}

/// A type behind As or As New.
fn push_written_clause<'a>(
    said: &mut Vec<Said<'a>>,
    clause: &'a NewTypeClause,
) -> Result<(), NoMemory>
    ensures { OnOk result (all_said said.new.items ≡ all_said said.old.items
        ++ plain.with_new clause.now.new_word (views.declared_type_view clause.now.declared_type)) }
{
    match (clause.new_word, &clause.declared_type) {
        (Some(_), DeclaredType::Named(name)) => push_said(said, Said::NewNamed(name)),
        _ => push_type(said, &clause.declared_type),
    }
}

/// The same, where one is written.
fn push_new_clause<'a>(
    said: &mut Vec<Said<'a>>,
    clause: &'a Option<NewTypeClause>,
) -> Result<(), NoMemory>
    ensures { OnOk result (all_said said.new.items ≡ all_said said.old.items
        ++ plain.new_clause_said (option_map views.new_type_clause_view clause.now)) }
{
    match clause {
        Some(clause) => push_written_clause(said, clause),
        None => Ok(()),
    }
}

/// A bound that has to be constant.
fn push_constant_dim<'a>(said: &mut Vec<Said<'a>>, dim: &'a Dim) -> Result<(), NoMemory>
    ensures { OnOk result (all_said said.new.items ≡ all_said said.old.items
        ++ plain.dim_said plain.constant_expression (views.dim_view dim.now)) }
{
    match dim {
        Dim::Upper(upper) => push_said(said, Said::ConstantExpression(upper)),
        Dim::Range { lower, upper, .. } => {
            push_said(said, Said::ConstantExpression(lower))?;
            push_said(said, Said::ConstantExpression(upper))
        }
    }
}

/// A bound that is evaluated.
pub fn push_dim<'a>(said: &mut Vec<Said<'a>>, dim: &'a Dim) -> Result<(), NoMemory>
    ensures { OnOk result (all_said said.new.items ≡ all_said said.old.items ++ plain.dim_said plain.expression (views.dim_view dim.now)) }
{
    match dim {
        Dim::Upper(upper) => push_said(said, Said::Expression(upper)),
        Dim::Range { lower, upper, .. } => {
            push_said(said, Said::Expression(lower))?;
            push_said(said, Said::Expression(upper))
        }
    }
}

/// Bounds that have to be constant.
fn push_listed_dims<'a>(said: &mut Vec<Said<'a>>, dims: &'a Listed<Dim>) -> Result<(), NoMemory>
    ensures { OnOk result (all_said said.new.items ≡ all_said said.old.items
        ++ flat_map (plain.dim_said plain.constant_expression) (all_of (views.listed_view views.dim_view dims.now))) }
{
    push_constant_dim(said, &dims.first)?;
    for next in &dims.others {
        push_constant_dim(said, &next.item)?;
    }
    Ok(())
}

/// The same, where they are written.
pub fn push_dims<'a>(said: &mut Vec<Said<'a>>, dims: &'a Option<Dims>) -> Result<(), NoMemory>
    ensures { OnOk result (all_said said.new.items ≡ all_said said.old.items ++ plain.dims_said (option_map views.dims_view dims.now)) }
{
    match dims {
        Some(
            Dims {
                dims: Some(list),
                ..
            },
        ) => push_listed_dims(said, list),
        _ => Ok(()),
    }
}

/// The bounds and the type of a variable.
pub fn push_variable<'a>(said: &mut Vec<Said<'a>>, variable: &'a Variable) -> Result<(), NoMemory>
    ensures { OnOk result (all_said said.new.items ≡ all_said said.old.items ++ plain.variable_said (views.variable_view variable.now)) }
{
    push_dims(said, &variable.dims)?;
    push_new_clause(said, &variable.type_clause)
}

/// The type and the value of a constant.
pub fn push_constant<'a>(said: &mut Vec<Said<'a>>, constant: &'a Constant) -> Result<(), NoMemory>
    ensures { OnOk result (all_said said.new.items ≡ all_said said.old.items ++ plain.constant_said (views.constant_view constant.now)) }
{
    push_clause(said, &constant.type_clause)?;
    push_said(said, Said::ConstantExpression(&constant.value))
}

/// The type and the default of a parameter.
fn push_parameter<'a>(said: &mut Vec<Said<'a>>, parameter: &'a Parameter) -> Result<(), NoMemory>
    ensures { OnOk result (all_said said.new.items ≡ all_said said.old.items ++ plain.parameter_said (views.parameter_view parameter.now)) }
{
    push_clause(said, &parameter.type_clause)?;
    match &parameter.default {
        Some(default) => push_said(said, Said::ConstantExpression(&default.value)),
        None => Ok(()),
    }
}

/// Those of parameters.
fn push_listed_parameters<'a>(
    said: &mut Vec<Said<'a>>,
    parameters: &'a Listed<Parameter>,
) -> Result<(), NoMemory>
    ensures { OnOk result (all_said said.new.items ≡ all_said said.old.items
        ++ flat_map plain.parameter_said (all_of (views.listed_view views.parameter_view parameters.now))) }
{
    push_parameter(said, &parameters.first)?;
    for next in &parameters.others {
        push_parameter(said, &next.item)?;
    }
    Ok(())
}

/// Those of parameters, where they are written.
pub fn push_parameters<'a>(
    said: &mut Vec<Said<'a>>,
    parameters: &'a Option<Parameters>,
) -> Result<(), NoMemory>
    ensures { OnOk result (all_said said.new.items ≡ all_said said.old.items
        ++ flat_map plain.parameter_said (parameters_of (option_map views.parameters_view parameters.now))) }
{
    match parameters {
        Some(
            Parameters {
                parameters: Some(list),
                ..
            },
        ) => push_listed_parameters(said, list),
        _ => Ok(()),
    }
}

/// The type of a result.
pub fn push_result<'a>(
    said: &mut Vec<Said<'a>>,
    result_type: &'a Option<ResultType>,
) -> Result<(), NoMemory>
    ensures { OnOk result (all_said said.new.items ≡ all_said said.old.items
        ++ plain.result_said (option_map views.result_type_view result_type.now)) }
{
    match result_type {
        Some(written) => push_type(said, &written.declared_type),
        None => Ok(()),
    }
}

/// The bounds and the type of a field.
pub fn push_field<'a>(said: &mut Vec<Said<'a>>, field: &'a TypeMember) -> Result<(), NoMemory>
    ensures { OnOk result (all_said said.new.items ≡ all_said said.old.items ++ plain.field_said (field_view field.now)) }
{
    push_dims(said, &field.dims)?;
    push_type(said, &field.type_clause.declared_type)
}

/// A variable of a procedure.
pub fn push_local<'a>(
    said: &mut Vec<Said<'a>>,
    variable: &'a Variable,
    is_static: bool,
) -> Result<(), NoMemory>
    ensures { OnOk result (all_said said.new.items ≡ all_said said.old.items ++ plain.variable_declared is_static (views.variable_view variable.now)) }
{
    let declares = Said::Declares {
        variable,
        is_static,
    };
    push_said(said, declares)?;
    push_variable(said, variable)
}

/// A constant of a procedure.
pub fn push_local_constant<'a>(
    said: &mut Vec<Said<'a>>,
    constant: &'a Constant,
) -> Result<(), NoMemory>
    ensures { OnOk result (all_said said.new.items ≡ all_said said.old.items ++ plain.constant_declared (views.constant_view constant.now)) }
{
    push_said(said, Said::DeclaresConstant(constant))?;
    push_constant(said, constant)
}

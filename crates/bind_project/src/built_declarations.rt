//! Declarations of types that run: no types that the profile hasn't, and no public arrays of a class declared As New.

ghost use Rattle.std.specs.Prelude.{◌≡◌, IfOk, option_map};
ghost use Rattle.std.specs.List.{list_all};
ghost use Rattle.bound_names.specs.bound_members.specs.bound_calls.specs.bound_forms.specs.Bind as plain;
ghost use Rattle.bound_names.specs.bound_members.specs.bound_calls.specs.bound_declarations.specs.constant_values.specs.declared_names.specs.View.{scope_view, type_meant_view};
ghost use Rattle.vba_module.specs.Headers.{all_of, parameters_of};
ghost use Rattle.vba_tree.specs.View.{listed_view, declared_type_view, type_clause_view, new_type_clause_view, variable_view, parameter_view, parameters_view, result_type_view};

use bound_names::bound_members::bound_calls::bound_declarations::constant_values::declared_names::{
    Scope, TypeMeant, type_meant,
};
use vba_base::NoMemory;
use vba_lexer::TypeSuffix;
use vba_tree::{
    DeclaredType as WrittenType, Listed, NewTypeClause, Parameter, Parameters, ResultType,
    TypeClause, Variable,
};

fn is_built_meant(meant: Option<TypeMeant>) -> bool
    ensures { result ≡ plain.is_built_meant (option_map type_meant_view meant) }
{
    match meant {
        Some(TypeMeant::Known(_)) => true,
        Some(TypeMeant::OfHost) => true,
        Some(TypeMeant::LeftOut) => false,
        None => false,
    }
}

/// Does a type as it is written run?
pub(crate) fn is_built_written(scope: Scope, of: &WrittenType) -> Result<bool, NoMemory>
    ensures { IfOk result (λ built. built ≡ plain.is_built_written (scope_view scope.entry) (declared_type_view of.now)) }
{
    match of {
        WrittenType::Named(name) => Ok(is_built_meant(type_meant(scope, name)?)),
        WrittenType::FixedText { .. } => Ok(true),
    }
}

/// Does the type of a suffix run?
pub(crate) fn is_built_suffix(suffix: Option<TypeSuffix>) -> bool
    ensures { result ≡ plain.is_built_suffix suffix }
{
    match suffix {
        Some(TypeSuffix::Single) => false,
        Some(TypeSuffix::Double) => false,
        _ => true,
    }
}

fn is_built_clause(
    scope: Scope,
    suffix: Option<TypeSuffix>,
    clause: &Option<TypeClause>,
) -> Result<bool, NoMemory>
    ensures { IfOk result (λ built. built ≡ plain.is_built_clause (scope_view scope.entry) suffix (option_map type_clause_view clause.now)) }
{
    if !is_built_suffix(suffix) {
        return Ok(false);
    }
    match clause {
        None => Ok(true),
        Some(clause) => is_built_written(scope, &clause.declared_type),
    }
}

/// Does the type of a variable run, where that is an array that objects show, or isn't?
fn is_built_new(
    scope: Scope,
    is_open_array: bool,
    suffix: Option<TypeSuffix>,
    clause: &Option<NewTypeClause>,
) -> Result<bool, NoMemory>
    ensures { IfOk result (λ built. built ≡ plain.is_built_new (scope_view scope.entry) is_open_array suffix (option_map new_type_clause_view clause.now)) }
{
    if !is_built_suffix(suffix) {
        return Ok(false);
    }
    match clause {
        None => Ok(true),
        Some(clause) => {
            if is_open_array && clause.new_word.is_some() {
                return Ok(false);
            }
            is_built_written(scope, &clause.declared_type)
        }
    }
}

/// Does the type of a procedure's result run?
pub(crate) fn is_built_result(
    scope: Scope,
    result_type: &Option<ResultType>,
) -> Result<bool, NoMemory>
    ensures { IfOk result (λ built. built ≡ plain.is_built_result (scope_view scope.entry) (option_map result_type_view result_type.now)) }
{
    match result_type {
        None => Ok(true),
        Some(of) => is_built_written(scope, &of.declared_type),
    }
}

/// Does a variable run, which objects show or not?
fn is_built_variable(scope: Scope, is_open: bool, variable: &Variable) -> Result<bool, NoMemory>
    ensures { IfOk result (λ built. built ≡ plain.is_built_variable (scope_view scope.entry) is_open (variable_view variable.now)) }
{
    is_built_new(
        scope,
        is_open && variable.dims.is_some(),
        variable.name.suffix,
        &variable.type_clause,
    )
}

/// Do variables run, which objects show or not?
pub(crate) fn are_built_variables(
    scope: Scope,
    is_open: bool,
    list: &Listed<Variable>,
) -> Result<bool, NoMemory>
    ensures { IfOk result (λ built. built ≡ list_all (plain.is_built_variable (scope_view scope.entry) is_open) (all_of (listed_view variable_view list.now))) }
{
    if !is_built_variable(scope, is_open, &list.first)? {
        return Ok(false);
    }
    let mut left = list.others.as_slice();
    'variables: while let [next, behind @ ..] = left {
        if !is_built_variable(scope, is_open, &next.item)? {
            return Ok(false);
        }
        left = behind;
    }
    Ok(true)
}

fn is_built_list(scope: Scope, list: &Listed<Parameter>) -> Result<bool, NoMemory>
    ensures { IfOk result (λ built. built ≡ list_all (plain.is_built_parameter (scope_view scope.entry)) (all_of (listed_view parameter_view list.now))) }
{
    if !is_built_clause(scope, list.first.name.suffix, &list.first.type_clause)? {
        return Ok(false);
    }
    let mut left = list.others.as_slice();
    'parameters: while let [next, behind @ ..] = left {
        if !is_built_clause(scope, next.item.name.suffix, &next.item.type_clause)? {
            return Ok(false);
        }
        left = behind;
    }
    Ok(true)
}

/// Do the types of parameters run?
pub(crate) fn are_built_parameters(
    scope: Scope,
    parameters: &Option<Parameters>,
) -> Result<bool, NoMemory>
    ensures { IfOk result (λ built. built ≡ list_all (plain.is_built_parameter (scope_view scope.entry)) (parameters_of (option_map parameters_view parameters.now))) }
{
    match parameters {
        None => Ok(true),
        Some(parameters) => match &parameters.parameters {
            None => Ok(true),
            Some(list) => is_built_list(scope, list),
        },
    }
}

//! The types of declarations ([MS-VBAL] 5.2.3.1).

ghost use Rattle.std.specs.Prelude.{◌≡◌, IfOk, option_map};
ghost use Rattle.constant_values.specs.declared_names.specs.binder.specs.Constants.{known_length};
ghost use Rattle.constant_values.specs.declared_names.specs.binder.specs.Storage as storage;
ghost use Rattle.constant_values.specs.declared_names.specs.binder.specs.Types as types;
ghost use Rattle.bound_project.specs.View.{declared_view};
ghost use Rattle.constant_values.specs.Tables.{AreConstants};
ghost use Rattle.constant_values.specs.declared_names.specs.View.{scope_view, written_view};
ghost use Rattle.vba_tree.specs.View.{declared_type_view, new_type_clause_view, parameter_view, type_clause_view};

use crate::not_yet::NotYet;
use bound_project::DeclaredType;
use constant_values::declared_names::{Scope, Written, named_type, suffix_type};
use constant_values::{Constants, written_type};
use std::alloc::Global;
use vba_base::OrMemory;
use vba_lexer::TypeSuffix;
use vba_tree::{NewTypeClause, Parameter, TypeClause};

/// An array of a type, or the type. No type that is written is one of arrays.
pub fn arrayed(is_array: bool, of: DeclaredType) -> Result<DeclaredType, OrMemory<NotYet>>
    ensures { IfOk result (λ found. declared_view found ≡ storage.arrayed is_array (declared_view of)) }
{
    if !is_array {
        return Ok(of);
    }
    match of {
        DeclaredType::Plain(element) => Ok(DeclaredType::ArrayOf(element)),
        DeclaredType::ArrayOf(_) => Err(OrMemory::Fault(NotYet)),
    }
}

/// The type of a variable without its bounds: As decides before a suffix.
pub(crate) fn new_clause_type(
    alloc: Global,
    constants: Constants,
    suffix: Option<TypeSuffix>,
    clause: &Option<NewTypeClause>,
) -> Result<DeclaredType, OrMemory<NotYet>>
    requires { AreConstants constants }
    ensures { IfOk result (λ found. declared_view found
        ≡ storage.new_clause_type (scope_view constants.entry.scope) suffix (option_map new_type_clause_view clause.now)) }
{
    match clause {
        None => Ok(suffix_type(suffix)),
        Some(clause) => Ok(written_type(alloc, constants, &clause.declared_type)?),
    }
}

/// A type behind As that has no length.
fn named_alone(scope: Scope, of: &vba_tree::DeclaredType) -> Result<DeclaredType, OrMemory<NotYet>>
    ensures { IfOk result (λ found. declared_view found
        ≡ types.written_type (known_length (scope_view scope.entry)) (scope_view scope.entry) (declared_type_view of.now)) }
{
    match of {
        vba_tree::DeclaredType::Named(name) => Ok(named_type(scope, name)?),
        vba_tree::DeclaredType::FixedText { .. } => Err(OrMemory::Fault(NotYet)),
    }
}

/// The type of a name by its clause, which has no length: As decides before a suffix.
fn clause_alone(
    scope: Scope,
    suffix: Option<TypeSuffix>,
    clause: &Option<TypeClause>,
) -> Result<DeclaredType, OrMemory<NotYet>>
    ensures { IfOk result (λ found. declared_view found
        ≡ types.clause_type (known_length (scope_view scope.entry)) (scope_view scope.entry) suffix (option_map type_clause_view clause.now)) }
{
    match clause {
        None => Ok(suffix_type(suffix)),
        Some(clause) => named_alone(scope, &clause.declared_type),
    }
}

/// The type of the result of a procedure. That of a Sub is a Variant that stays Empty.
pub fn result_type(scope: Scope, written: Written) -> Result<DeclaredType, OrMemory<NotYet>>
    ensures { IfOk result (λ found. declared_view found ≡ storage.result_type (scope_view scope.entry) (written_view written.entry)) }
{
    match &written.header.result_type {
        None => Ok(suffix_type(written.header.name.suffix)),
        Some(result) => {
            let of = named_alone(scope, &result.declared_type)?;
            arrayed(result.brackets.is_some(), of)
        }
    }
}

/// The type of a parameter.
pub fn parameter_type(scope: Scope, parameter: &Parameter) -> Result<DeclaredType, OrMemory<NotYet>>
    ensures { IfOk result (λ found. declared_view found ≡ storage.parameter_type (scope_view scope.entry) (parameter_view parameter.now)) }
{
    let of = clause_alone(scope, parameter.name.suffix, &parameter.type_clause)?;
    arrayed(parameter.brackets.is_some(), of)
}

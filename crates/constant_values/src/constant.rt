//! The values of constants and of members of Enums, by what is known of names.

ghost use Rattle.std.specs.Prelude.{◌≡◌, IfOk, option_map};
ghost use Rattle.bound_project.specs.View.{declared_view};
ghost use Rattle.vba_expression.specs.View.{view};
ghost use Rattle.vba_tree.specs.View.{constant_view, declared_type_view, type_clause_view};
ghost use Rattle.declared_names.specs.binder.specs.Types as types;
ghost use Rattle.declared_names.specs.binder.specs.Constants as plain;
ghost use Rattle.declared_names.specs.View.{own_view, scope_view, what_view};
ghost use Rattle.constant_values.specs.Names.{names_from};
ghost use Rattle.constant_values.specs.View.{names_view, slot_view};

use crate::evaluate::value_in;
use crate::known::Known;
use crate::names::Names;
use crate::operate::{as_length, coerced, long_of};
use bound_project::{DeclaredType, ElementType};
use declared_names::{Own, Scope, What, named_type, suffix_type};
use std::alloc::Global;
use vba_base::NoMemory;
use vba_expression::Expression;
use vba_lexer::TypeSuffix;
use vba_tree::{Constant, DeclaredType as WrittenType, TypeClause};
use vba_values::Value;

/// The length of a `String * n`, and 0 where it has none.
pub fn length_in(
    alloc: Global,
    names: Names,
    scope: Scope,
    expression: &Expression,
) -> Result<u16, NoMemory>
    ensures { IfOk result (λ length. length ≡ plain.length_by (names_from (names_view names.entry)) (scope_view scope.entry) (view expression.now)) }
{
    let known = value_in(alloc, names, scope, expression)?;
    let number = long_of(alloc, &known)?;
    Ok(as_length(number).unwrap_or(0))
}

/// A type behind As.
pub fn written_type_in(
    alloc: Global,
    names: Names,
    scope: Scope,
    of: &WrittenType,
) -> Result<DeclaredType, NoMemory>
    ensures { IfOk result (λ found. declared_view found ≡ types.written_type (plain.length_by (names_from (names_view names.entry)) (scope_view scope.entry)) (scope_view scope.entry) (declared_type_view of.now)) }
{
    match of {
        WrittenType::Named(name) => named_type(scope, name),
        WrittenType::FixedText { length, .. } => {
            let length = length_in(alloc, names, scope, length)?;
            Ok(DeclaredType::Plain(ElementType::FixedText(length)))
        }
    }
}

/// The type of a declaration: As decides before a suffix.
pub fn clause_type_in(
    alloc: Global,
    names: Names,
    scope: Scope,
    suffix: Option<TypeSuffix>,
    clause: &Option<TypeClause>,
) -> Result<DeclaredType, NoMemory>
    ensures { IfOk result (λ found. declared_view found ≡ types.clause_type (plain.length_by (names_from (names_view names.entry)) (scope_view scope.entry)) (scope_view scope.entry) suffix (option_map type_clause_view clause.now)) }
{
    match clause {
        Some(clause) => written_type_in(alloc, names, scope, &clause.declared_type),
        None => Ok(suffix_type(suffix)),
    }
}

/// The value of a constant as one of its type, where it has one.
pub fn constant_in(
    alloc: Global,
    names: Names,
    scope: Scope,
    constant: &Constant,
) -> Result<Option<Known>, NoMemory>
    ensures { IfOk result (λ value. slot_view value ≡ plain.constant_by (names_from (names_view names.entry)) (scope_view scope.entry) (constant_view constant.now)) }
{
    let value = value_in(alloc, names, scope, &constant.value)?;
    match (&constant.name.suffix, &constant.type_clause) {
        (None, None) => Ok(value),
        _ => {
            let suffix = constant.name.suffix;
            let of = clause_type_in(alloc, names, scope, suffix, &constant.type_clause)?;
            coerced(alloc, of, &value)
        }
    }
}

/// A number and so many more, as a Long.
pub fn stepped(steps: usize, first: Option<i64>) -> Option<Known>
    ensures { slot_view result ≡ plain.stepped steps first }
{
    let Some(first) = first else {
        return None;
    };
    match i32::try_from(i128::from(first) + steps as i128) {
        Ok(number) => Some(Known::typed(Value::Long(number))),
        Err(_) => None,
    }
}

/// The number that members of an Enum are counted from.
pub fn first_in(
    alloc: Global,
    names: Names,
    scope: Scope,
    value: Option<&Expression>,
) -> Result<Option<i64>, NoMemory>
    ensures { IfOk result (λ number. number ≡ plain.first_by (names_from (names_view names.entry)) (scope_view scope.entry) (option_map (λ e. view e.now) value.entry)) }
{
    match value {
        Some(expression) => {
            let known = value_in(alloc, names, scope, expression)?;
            long_of(alloc, &known)
        }
        None => Ok(Some(0)),
    }
}

/// The value of an entry of the module of a scope.
pub fn entry_in(
    alloc: Global,
    names: Names,
    scope: Scope,
    what: What,
) -> Result<Option<Known>, NoMemory>
    ensures { IfOk result (λ value. slot_view value ≡ plain.entry_by (names_from (names_view names.entry)) (scope_view scope.entry) (what_view what.entry)) }
{
    match what {
        What::Constant(constant) => constant_in(alloc, names, scope, constant),
        What::Member { value, steps } => {
            let first = first_in(alloc, names, scope, value)?;
            Ok(stepped(steps, first))
        }
        _ => Ok(None),
    }
}

/// The value of a name of a procedure.
pub fn own_in(
    alloc: Global,
    names: Names,
    scope: Scope,
    own: Own,
) -> Result<Option<Known>, NoMemory>
    ensures { IfOk result (λ value. slot_view value ≡ plain.own_by (names_from (names_view names.entry)) (scope_view scope.entry) (own_view own.entry)) }
{
    match own {
        Own::Constant(constant) => constant_in(alloc, names, scope, constant),
        _ => Ok(None),
    }
}

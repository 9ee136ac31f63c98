//! Variables and results as they are declared.

ghost use Rattle.std.specs.Prelude.{◌≡◌, [], IfOk, length, option_map};
ghost use Rattle.constant_values.specs.declared_names.specs.binder.specs.Storage as storage;
ghost use Rattle.bound_declarations.specs.Forms.{declared_as, redimmed_as};
ghost use Rattle.bound_project.specs.Project as project;
ghost use Rattle.bound_project.specs.View.{declaration_view, declared_view};
ghost use Rattle.constant_values.specs.Tables.{AreConstants};
ghost use Rattle.constant_values.specs.declared_names.specs.View.{local_view, scope_view, written_view};
ghost use Rattle.said_parts.specs.View.{field_view};
ghost use Rattle.vba_tree.specs.View.{type_clause_view, variable_view};

use crate::kinds::gives_value;
use crate::not_yet::NotYet;
use crate::types::{arrayed, new_clause_type, result_type};
use bound_project::{Declaration, DeclaredType, ElementType, Spelled};
use constant_values::declared_names::{Local, Own, Scope, Written, spelled};
use constant_values::{Constants, clause_type, known_bounds, written_type};
use std::alloc::Global;
use vba_base::{NoMemory, OrMemory, Place, Units, name_of};
use vba_tree::{TypeClause, TypeMember, Variable};
use vba_values::Bound;
use vba_words::Identifier;

/// What a name is declared as, with its type and its bounds.
fn declaration(
    alloc: Global,
    scope: Scope,
    name: &Identifier,
    of: DeclaredType,
    bounds: Vec<Bound>,
) -> Result<Declaration, NoMemory>
    ensures { IfOk result (λ made. declaration_view made ≡ declared_as (scope_view scope.entry) name.now (declared_view of) bounds.items) }
{
    let here = scope.here;
    Ok(Declaration {
        name: spelled(alloc, here.source.text, name)?,
        place: name.token.place,
        of,
        bounds,
    })
}

/// The type of a variable.
pub fn variable_type(
    alloc: Global,
    constants: Constants,
    variable: &Variable,
) -> Result<DeclaredType, OrMemory<NotYet>>
    requires { AreConstants constants }
    ensures { IfOk result (λ of. (storage.declared_variable (scope_view constants.entry.scope) (variable_view variable.now)).of ≡ declared_view of) }
{
    let of = new_clause_type(
        alloc,
        constants,
        variable.name.suffix,
        &variable.type_clause,
    )?;
    arrayed(variable.dims.is_some(), of)
}

/// How many bounds there are.
fn bound_count(bounds: &[Bound]) -> Result<u32, NoMemory>
    ensures { IfOk result (λ count. count ≡ length bounds.now) }
{
    match u32::try_from(bounds.len()) {
        Ok(count) => Ok(count),
        Err(_) => Err(NoMemory),
    }
}

/// With how many bounds is a variable declared as an array? With none where it is none.
pub fn bounds_written(
    alloc: Global,
    constants: Constants,
    variable: &Variable,
) -> Result<u32, NoMemory>
    requires { AreConstants constants }
    ensures { IfOk result (λ count. count ≡ length (storage.declared_variable (scope_view constants.entry.scope) (variable_view variable.now)).bounds) }
{
    let bounds = known_bounds(alloc, constants, &variable.dims)?;
    bound_count(bounds.as_slice())
}

/// The same of what is declared.
pub fn bounds_declared(declaration: &Declaration) -> Result<u32, NoMemory>
    ensures { IfOk result (λ count. count ≡ length (declaration_view declaration.now).bounds) }
{
    bound_count(declaration.bounds.as_slice())
}

/// A variable.
pub fn declared_variable(
    alloc: Global,
    constants: Constants,
    variable: &Variable,
) -> Result<Declaration, OrMemory<NotYet>>
    requires { AreConstants constants }
    ensures { IfOk result (λ made. declaration_view made ≡ storage.declared_variable (scope_view constants.entry.scope) (variable_view variable.now)) }
{
    let of = variable_type(alloc, constants, variable)?;
    let bounds = known_bounds(alloc, constants, &variable.dims)?;
    Ok(declaration(alloc, constants.scope, &variable.name, of, bounds)?)
}

/// A field of a Type.
pub(crate) fn declared_field(
    alloc: Global,
    constants: Constants,
    field: &TypeMember,
) -> Result<Declaration, OrMemory<NotYet>>
    requires { AreConstants constants }
    ensures { IfOk result (λ made. declaration_view made ≡ storage.declared_field (scope_view constants.entry.scope) (field_view field.now)) }
{
    let written = written_type(alloc, constants, &field.type_clause.declared_type)?;
    let of = arrayed(field.dims.is_some(), written)?;
    let bounds = known_bounds(alloc, constants, &field.dims)?;
    Ok(declaration(alloc, constants.scope, &field.name, of, bounds)?)
}

/// A declaration of nothing: the result of what gives no value.
#[tactic(auto, using(crate::proofs::Named::no_fold))]
fn no_declaration(alloc: Global) -> Result<Declaration, NoMemory>
    ensures { IfOk result (λ made. declaration_view made ≡ project.no_declaration) }
{
    Ok(Declaration {
        name: Spelled {
            spelling: Units::new(alloc),
            fold: name_of(alloc, &[])?,
        },
        place: Place {
            module: 0,
            line: 0,
            column: 0,
        },
        of: DeclaredType::Plain(ElementType::Variant),
        bounds: Vec::new(alloc),
    })
}

/// The result of a procedure.
pub fn declared_result(
    alloc: Global,
    scope: Scope,
    written: Written,
) -> Result<Declaration, OrMemory<NotYet>>
    ensures { IfOk result (λ made. declaration_view made ≡ storage.declared_result (scope_view scope.entry) (written_view written.entry)) }
{
    if !gives_value(written.header.words) {
        return Ok(no_declaration(alloc)?);
    }
    let of = result_type(scope, written)?;
    Ok(declaration(alloc, scope, &written.header.name, of, Vec::new(alloc))?)
}

/// The array that a ReDim declares.
fn declared_array(
    alloc: Global,
    constants: Constants,
    name: &Identifier,
    clause: &Option<TypeClause>,
) -> Result<Declaration, OrMemory<NotYet>>
    requires { AreConstants constants }
    ensures { IfOk result (λ made. declaration_view made
        ≡ redimmed_as (scope_view constants.entry.scope) name.now (option_map type_clause_view clause.now)) }
{
    let of = arrayed(true, clause_type(alloc, constants, name.suffix, clause)?)?;
    Ok(declaration(alloc, constants.scope, name, of, Vec::new(alloc))?)
}

/// The variable that a name of a procedure is, where it is no result, parameter or constant.
pub fn own_declaration(
    alloc: Global,
    constants: Constants,
    local: &Local,
) -> Result<Option<Declaration>, OrMemory<NotYet>>
    requires { AreConstants constants }
    ensures { IfOk result (λ made. option_map declaration_view made ≡ storage.own_declaration (scope_view constants.entry.scope) (local_view local.now)) }
{
    match local.own {
        Own::Variable { variable, .. } => Ok(Some(declared_variable(alloc, constants, variable)?)),
        Own::Array { type_clause, .. } => {
            Ok(Some(declared_array(alloc, constants, local.name, type_clause)?))
        }
        Own::Undeclared { .. } => {
            let of = DeclaredType::Plain(ElementType::Variant);
            Ok(Some(declaration(alloc, constants.scope, local.name, of, Vec::new(alloc))?))
        }
        Own::Result(_) | Own::Parameter(_) | Own::Constant(_) => Ok(None),
    }
}

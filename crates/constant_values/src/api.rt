//! The values of constant expressions in a scope.

ghost use Rattle.std.specs.Prelude.{◌≡◌, IfOk, Some, option_map, slice_get};
ghost use Rattle.bound_project.specs.View.{declared_view};
ghost use Rattle.vba_expression.specs.View.{view};
ghost use Rattle.vba_tree.specs.View.{constant_view, declared_type_view, dim_view, dims_view, type_clause_view};
ghost use Rattle.declared_names.specs.binder.specs.Types as types;
ghost use Rattle.declared_names.specs.binder.specs.Constants as plain;
ghost use Rattle.declared_names.specs.View.{meant_view, scope_view, space_view, what_view};
ghost use Rattle.constant_values.specs.Rounds.{IsThere};
ghost use Rattle.constant_values.specs.Tables.{AreConstants, constants_names};
ghost use Rattle.constant_values.specs.View.{names_view, slot_view};

use crate::constant::{
    clause_type_in, constant_in, entry_in, first_in, length_in, own_in, written_type_in,
};
use crate::evaluate::value_in;
use crate::known::Known;
use crate::names::{Names, constant_of_library};
use crate::own::Constants;
use bound_project::DeclaredType;
use declared_names::{Meant, Scope, Space, What};
use std::alloc::Global;
use vba_base::NoMemory;
use vba_expression::Expression;
use vba_lexer::TypeSuffix;
use vba_tree::{Constant, DeclaredType as WrittenType, TypeClause};
use vba_words::Identifier;

impl<'a> Constants<'a> {
    /// What is known of names.
    fn names(self) -> Names<'a>
        ensures { names_view result ≡ constants_names self.entry }
    {
        Names::Values {
            entries: self.entries,
            own: self.own,
        }
    }
}

/// The value of a constant expression: none where it is no constant one, raises or stops.
#[tactic(auto, using(crate::proofs::ByTables::value_known))]
pub fn known_value(
    alloc: Global,
    constants: Constants,
    expression: &Expression,
) -> Result<Option<Known>, NoMemory>
    requires { AreConstants constants }
    ensures { IfOk result (λ value. slot_view value ≡ plain.known_value (scope_view constants.entry.scope) (view expression.now)) }
{
    value_in(alloc, constants.names(), constants.scope, expression)
}

/// The length of a `String * n`, and 0 where it has none.
#[tactic(auto, using(crate::proofs::ByTables::length_known))]
pub fn known_length(
    alloc: Global,
    constants: Constants,
    expression: &Expression,
) -> Result<u16, NoMemory>
    requires { AreConstants constants }
    ensures { IfOk result (λ length. length ≡ plain.known_length (scope_view constants.entry.scope) (view expression.now)) }
{
    length_in(alloc, constants.names(), constants.scope, expression)
}

/// A type behind As.
#[tactic(auto, using(crate::proofs::ByTables::written_known))]
pub fn written_type(
    alloc: Global,
    constants: Constants,
    of: &WrittenType,
) -> Result<DeclaredType, NoMemory>
    requires { AreConstants constants }
    ensures { IfOk result (λ found. declared_view found ≡ types.written_type (plain.known_length (scope_view constants.entry.scope)) (scope_view constants.entry.scope) (declared_type_view of.now)) }
{
    written_type_in(alloc, constants.names(), constants.scope, of)
}

/// The type of a declaration: As decides before a suffix.
#[tactic(auto, using(crate::proofs::ByTables::clause_known))]
pub fn clause_type(
    alloc: Global,
    constants: Constants,
    suffix: Option<TypeSuffix>,
    clause: &Option<TypeClause>,
) -> Result<DeclaredType, NoMemory>
    requires { AreConstants constants }
    ensures { IfOk result (λ found. declared_view found ≡ types.clause_type (plain.known_length (scope_view constants.entry.scope)) (scope_view constants.entry.scope) suffix (option_map type_clause_view clause.now)) }
{
    clause_type_in(alloc, constants.names(), constants.scope, suffix, clause)
}

/// The value of a Const as one of its type.
#[tactic(auto, using(crate::proofs::ByTables::constant_known))]
pub fn constant_value(
    alloc: Global,
    constants: Constants,
    constant: &Constant,
) -> Result<Option<Known>, NoMemory>
    requires { AreConstants constants }
    ensures { IfOk result (λ value. slot_view value ≡ plain.constant_by (plain.names_in (scope_view constants.entry.scope)) (scope_view constants.entry.scope) (constant_view constant.now)) }
{
    constant_in(alloc, constants.names(), constants.scope, constant)
}

/// The number that members of an Enum are counted from.
#[tactic(auto, using(crate::proofs::ByTables::first_known))]
pub fn first_value(
    alloc: Global,
    constants: Constants,
    value: Option<&Expression>,
) -> Result<Option<i64>, NoMemory>
    requires { AreConstants constants }
    ensures { IfOk result (λ number. number ≡ plain.first_by (plain.names_in (scope_view constants.entry.scope)) (scope_view constants.entry.scope) (option_map (λ e. view e.now) value.entry)) }
{
    first_in(alloc, constants.names(), constants.scope, value)
}

/// The value of an entry of one of the modules.
fn entry_value<'a>(
    alloc: Global,
    constants: Constants<'a>,
    space: &'a Space<'a>,
    what: What<'a>,
) -> Result<Option<Known>, NoMemory>
    requires values { AreConstants constants }
    requires placed { slice_get (scope_view constants.scope).spaces (space_view space.now).number ≡ Some (space_view space.now) }
    ensures { IfOk result (λ value. slot_view value ≡ plain.entry_by (plain.names_in (scope_view constants.entry.scope)) (plain.home (scope_view constants.entry.scope) (space_view space.now)) (what_view what.entry)) }
{
    let home = Scope {
        spaces: constants.scope.spaces,
        here: space,
        locals: &[],
    };
    let names = Names::Values {
        entries: constants.entries,
        own: &[],
    };
    entry_in(alloc, names, home, what)
}

/// The value of what a name means, where it is a constant.
#[tactic(auto, using(crate::proofs::ByTables::own_known))]
pub fn meant_value<'a>(
    alloc: Global,
    constants: Constants<'a>,
    name: &Identifier,
    meant: Option<Meant<'a>>,
) -> Result<Option<Known>, NoMemory>
    requires values { AreConstants constants }
    requires there { IsThere (scope_view constants.scope) (option_map meant_view meant) }
    ensures { IfOk result (λ value. slot_view value ≡ plain.meant_by (plain.names_in (scope_view constants.entry.scope)) (scope_view constants.entry.scope) name.now (option_map meant_view meant.entry)) }
{
    match meant {
        Some(Meant::OfProcedure { local, .. }) => {
            own_in(alloc, constants.names(), constants.scope, local.own)
        }
        Some(Meant::OfModule { space, entry, .. }) => {
            entry_value(alloc, constants, space, entry.what)
        }
        Some(Meant::OfLibrary) => constant_of_library(alloc, name),
        _ => Ok(None),
    }
}

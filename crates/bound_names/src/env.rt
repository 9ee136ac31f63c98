ghost use Rattle.std.specs.Prelude.{◌≡◌};
ghost use Rattle.bound_members.specs.bound_calls.specs.bound_declarations.specs.constant_values.specs.declared_names.specs.View.{scope_view};
ghost use Rattle.bound_members.specs.bound_calls.specs.bound_declarations.specs.constant_values.specs.declared_names.specs.binder.specs.Constants.{compare_in};
ghost use Rattle.bound_members.specs.bound_calls.specs.bound_declarations.specs.constant_values.specs.declared_names.specs.binder.specs.Classes as classes;

use bound_members::bound_calls::bound_declarations::constant_values::Constants;
use bound_project::{Declarations, DeclaredType};
use project_tables::Signatures;
use vba_values::Compare;

/// The With block round an expression: its number, the type of what it keeps, and whether that is a place that is lent.
#[derive(Clone, Copy)]
pub struct Within {
    pub header: u32,
    pub of: DeclaredType,
    pub lends: bool,
}

/// Where an expression stands: its scope with the values of its constants, what is known of the procedures of the
/// project and of all that it declares, the With block round it, the first static of the procedure, and how texts
/// compare there.
#[derive(Clone, Copy)]
pub struct Env<'a> {
    pub constants: Constants<'a>,
    pub signatures: &'a Signatures,
    pub declared: &'a Declarations,
    pub within: Option<Within>,
    pub first: u32,
    pub compare: Compare,
    /// Has the project a class?
    pub has_class: bool,
    /// Does the project declare a variable As New?
    pub has_new: bool,
    ghost compare_is: { compare ≡ compare_in (scope_view constants.scope) },
    ghost has_class_is: { has_class ≡ classes.has_class (scope_view constants.scope).spaces },
    ghost has_new_is: { has_new ≡ classes.has_new (scope_view constants.scope).spaces },
}

use bound_names::bound_members::bound_calls::bound_declarations::constant_values::ProjectValues;
use bound_names::bound_members::bound_calls::bound_declarations::constant_values::declared_names::Scope;
use bound_names::project_tables::Signatures;
use bound_project::Declarations;

/// A module of a project, with what is known of the project.
#[derive(Clone, Copy)]
pub(crate) struct Home<'a> {
    pub scope: Scope<'a>,
    pub values: &'a ProjectValues,
    pub signatures: &'a Signatures,
    pub declared: &'a Declarations,
    /// Does the project declare a variable As New?
    pub has_new: bool,
}

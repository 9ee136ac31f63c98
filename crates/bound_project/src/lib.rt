//! The bound project: trees without names to look up, between the binder and the rules on one side, and the meaning,
//! the code and the machine on the other. The definitions stand in `specs/`.
#![tactic(auto)]

mod declarations;
mod declared_type;
mod draft;
mod laws;
mod node;
mod numbered;
mod parameters;
mod project;
mod statement;
mod too_long;
mod variable;

pub use declarations::{
    Class, Declaration, Declarations, DeclaredEvent, Handler, MOST_PASSED, Member, Module,
    NamedMember, Parameter, Procedure, ProcedureKind, Spelled, UserType,
};
pub use declared_type::{DeclaredType, ElementType};
pub use draft::Draft;
pub use laws::{
    assignments_take_their_arguments, calls_take_their_arguments,
    element_assignments_take_their_numbers, elements_take_their_numbers,
    functions_take_their_arguments, items_along_take_their_arguments,
    late_assignments_take_their_arguments, late_members_take_their_arguments,
    members_take_their_arguments, named_members_take_their_arguments, prints_show_their_items,
    statements_past_the_end_are_next,
};
pub use node::{ArgumentNames, LateName, LateUse, Node, NodeKind};
pub use numbered::{
    class_numbered, default_of, enumerator_of, events_of, fields_of, handlers_of, initialize_of,
    members_of, parameters_of, result_of, terminate_of, with_events_of,
};
pub use parameters::{any_must, has_parameters, last_type, must_be_given, without_last};
pub use project::{Block, Body, Project};
pub use statement::{ActionKind, Handling, StatementNode};
pub use too_long::TooLong;
pub use variable::{ErrMember, Storage, Variable};

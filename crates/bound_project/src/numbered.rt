// What stands at a number: classes, which count from 1, and procedures. Number 0 is that of Collection, which declares
// nothing.
ghost use Rattle.std.specs.Prelude.{◌≡◌, map, option_map, slice_get, unwrap_or};
ghost use Rattle.bound_project.specs.Parameters.{parameters_of};
ghost use Rattle.bound_project.specs.Project.{class_at, class_numbered, no_class, procedure_at};
ghost use Rattle.bound_project.specs.View.{class_member_view, class_view, declaration_view, declarations_view, declared_view, event_view, handler_view, named_view, parameter_view};

use crate::declarations::{
    Class, Declaration, Declarations, DeclaredEvent, Handler, Member, NamedMember, Parameter,
};
use crate::declared_type::{DeclaredType, ElementType};

/// The class at a place among the classes.
fn class_in_place(declared: &Declarations, place: usize) -> Option<&Class>
    ensures { option_map (λ found. class_view found.now) result ≡ slice_get (declarations_view declared.now).classes place }
{
    declared.classes.get(place)
}

/// The class with a number.
pub fn class_numbered(declared: &Declarations, number: u32) -> Option<&Class>
    ensures found { option_map (λ found. class_view found.now) result ≡ class_numbered (declarations_view declared.now) number }
    ensures at { unwrap_or (option_map (λ found. class_view found.now) result) no_class ≡ class_at (declarations_view declared.now) number }
{
    match number.checked_sub(1) {
        Some(place) => class_in_place(declared, place as usize),
        None => None,
    }
}

/// The variables of the objects of a class.
pub fn fields_of(declared: &Declarations, class: u32) -> &[Declaration]
    ensures { map declaration_view result.now ≡ (class_at (declarations_view declared.now) class).fields }
{
    match class_numbered(declared, class) {
        Some(class) => class.fields.as_slice(),
        None => &[],
    }
}

/// The Class_Initialize of a class.
pub fn initialize_of(declared: &Declarations, class: u32) -> Option<u32>
    ensures { result ≡ (class_at (declarations_view declared.now) class).initialize }
{
    match class_numbered(declared, class) {
        Some(class) => class.initialize,
        None => None,
    }
}

/// The Class_Terminate of a class.
pub fn terminate_of(declared: &Declarations, class: u32) -> Option<u32>
    ensures { result ≡ (class_at (declarations_view declared.now) class).terminate }
{
    match class_numbered(declared, class) {
        Some(class) => class.terminate,
        None => None,
    }
}

/// The public members of a class.
pub fn members_of(declared: &Declarations, class: u32) -> &[NamedMember]
    ensures { map named_view result.now ≡ (class_at (declarations_view declared.now) class).members }
{
    match class_numbered(declared, class) {
        Some(class) => class.members.as_slice(),
        None => &[],
    }
}

/// The default member of a class.
pub fn default_of(declared: &Declarations, class: u32) -> Option<Member>
    ensures { option_map class_member_view result ≡ (class_at (declarations_view declared.now) class).default }
{
    match class_numbered(declared, class) {
        Some(class) => class.default,
        None => None,
    }
}

/// The enumerator of a class.
pub fn enumerator_of(declared: &Declarations, class: u32) -> Option<Member>
    ensures { option_map class_member_view result ≡ (class_at (declarations_view declared.now) class).enumerator }
{
    match class_numbered(declared, class) {
        Some(class) => class.enumerator,
        None => None,
    }
}

/// The events that a class declares.
pub fn events_of(declared: &Declarations, class: u32) -> &[DeclaredEvent]
    ensures { map event_view result.now ≡ (class_at (declarations_view declared.now) class).events }
{
    match class_numbered(declared, class) {
        Some(class) => class.events.as_slice(),
        None => &[],
    }
}

/// The numbers of the WithEvents variables of a class.
pub fn with_events_of(declared: &Declarations, class: u32) -> &[u32]
    ensures { result.now ≡ (class_at (declarations_view declared.now) class).with_events }
{
    match class_numbered(declared, class) {
        Some(class) => class.with_events.as_slice(),
        None => &[],
    }
}

/// The handlers of a class.
pub fn handlers_of(declared: &Declarations, class: u32) -> &[Handler]
    ensures { map handler_view result.now ≡ (class_at (declarations_view declared.now) class).handlers }
{
    match class_numbered(declared, class) {
        Some(class) => class.handlers.as_slice(),
        None => &[],
    }
}

/// The parameters of a procedure.
pub fn parameters_of(declared: &Declarations, procedure: u32) -> &[Parameter]
    ensures { map parameter_view result.now ≡ parameters_of (declarations_view declared.now) procedure }
{
    match declared.procedures.get(procedure as usize) {
        Some(procedure) => procedure.parameters.as_slice(),
        None => &[],
    }
}

/// The declared type of what a procedure gives.
pub fn result_of(declared: &Declarations, procedure: u32) -> DeclaredType
    ensures { declared_view result ≡ (procedure_at (declarations_view declared.now) procedure).result.of }
{
    match declared.procedures.get(procedure as usize) {
        Some(procedure) => procedure.result.of,
        None => DeclaredType::Plain(ElementType::Variant),
    }
}

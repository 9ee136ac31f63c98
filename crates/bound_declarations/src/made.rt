//! Variables declared As New, and parameters that may lead to one ([MS-VBAL] 2.5.1).

ghost use Rattle.std.specs.Prelude.{◌≡◌, option_map};
ghost use Rattle.constant_values.specs.declared_names.specs.binder.specs.Classes as classes;
ghost use Rattle.bound_project.specs.View.{declared_view};
ghost use Rattle.vba_tree.specs.View.{new_type_clause_view, parameter_view};

use crate::kinds::is_by_val;
use bound_project::{DeclaredType, ElementType};
use constant_values::declared_names::is_object;
use constant_values::is_variant;
use vba_tree::{NewTypeClause, Parameter};

/// The number of the class that a type is.
pub fn class_in(of: DeclaredType) -> Option<u32>
    ensures { result ≡ classes.class_in (declared_view of) }
{
    match of {
        DeclaredType::Plain(ElementType::Class(number)) => Some(number),
        _ => None,
    }
}

/// The class of which New makes objects of a type: that of Collection is 0.
pub fn made_in(of: DeclaredType) -> Option<u32>
    ensures { result ≡ classes.made_in (declared_view of) }
{
    match of {
        DeclaredType::Plain(ElementType::Class(number)) => Some(number),
        DeclaredType::Plain(ElementType::Collection) => Some(0),
        _ => None,
    }
}

/// What an array has elements of, or else a type itself.
fn element_in(of: DeclaredType) -> DeclaredType
    ensures { declared_view result ≡ classes.element_in (declared_view of) }
{
    match of {
        DeclaredType::ArrayOf(element) => DeclaredType::Plain(element),
        DeclaredType::Plain(element) => DeclaredType::Plain(element),
    }
}

/// The class of which an object is made for a variable of a type, or for each element of an array, by its clause.
pub fn made_by(clause: &Option<NewTypeClause>, of: DeclaredType) -> Option<u32>
    ensures { result ≡ classes.made_by (option_map new_type_clause_view clause.now) (declared_view of) }
{
    match clause {
        None => None,
        Some(clause) => match clause.new_word {
            None => None,
            Some(_) => made_in(element_in(of)),
        },
    }
}

/// May a variable of a type have an object, or an element of it?
fn can_hold_object(of: DeclaredType) -> bool
    ensures { result ≡ classes.can_hold_object (declared_view of) }
{
    let element = element_in(of);
    is_object(element) || is_variant(element)
}

/// May what a parameter of a type leads to be declared As New, in a project that declares a variable so or doesn't?
pub fn made_through(has_new: bool, parameter: &Parameter, of: DeclaredType) -> bool
    ensures { result ≡ classes.made_through has_new (parameter_view parameter.now) (declared_view of) }
{
    has_new && (!is_by_val(parameter.passing) && can_hold_object(of))
}

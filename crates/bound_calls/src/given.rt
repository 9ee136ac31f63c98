//! Values that are given to what has a type, marked where that breaks a rule.

ghost use Rattle.std.specs.Prelude.{◌≡◌, IfOk};
ghost use Rattle.bound_project.specs.DraftView.{draft_view};
ghost use Rattle.bound_project.specs.View.{declared_view};
ghost use Rattle.bound_forms.specs.Terms.{given_rule, is_other_array, is_user_type};
ghost use Rattle.vba_values.specs.Coerce.{is_same_type};
ghost use Rattle.bound_calls.specs.Calls.{MarksGiven};

use crate::take::push_node;
use bound_project::{DeclaredType, Draft, ElementType, NodeKind};
use vba_base::{NoMemory, Place, Refusal};
use vba_values::is_same_type;

/// Are two declared types the same?
pub fn is_same_declared(one: DeclaredType, other: DeclaredType) -> bool
    ensures { result ≡ is_same_type (declared_view one) (declared_view other) }
{
    match (one, other) {
        (DeclaredType::Plain(one), DeclaredType::Plain(other)) => {
            is_same_type(&one.value_type(), &other.value_type())
        }
        (DeclaredType::ArrayOf(one), DeclaredType::ArrayOf(other)) => {
            is_same_type(&one.value_type(), &other.value_type())
        }
        _ => false,
    }
}

/// Is a type a Type of the project?
pub fn is_user_type(of: DeclaredType) -> bool
    ensures { result ≡ is_user_type (declared_view of) }
{
    match of {
        DeclaredType::Plain(ElementType::UserType(_)) => true,
        _ => false,
    }
}

/// Is it an array that is given to an array which doesn't take it: one of other elements, or with bounds of its own?
fn is_other_array(of: DeclaredType, is_bounded: bool, given: DeclaredType) -> bool
    ensures { result ≡ is_other_array (declared_view of) is_bounded (declared_view given) }
{
    match (of, given) {
        (DeclaredType::ArrayOf(of), DeclaredType::ArrayOf(given)) => {
            is_bounded || !is_same_type(&of.value_type(), &given.value_type())
        }
        _ => false,
    }
}

/// The rule that is broken where a value of a type is given to what has a type.
fn given_rule(of: DeclaredType, is_bounded: bool, given: DeclaredType) -> Option<u8>
    ensures { result ≡ given_rule (declared_view of) is_bounded (declared_view given) }
{
    if is_user_type(given) && !is_same_declared(of, given) {
        return Some(27);
    }
    if is_other_array(of, is_bounded, given) {
        return Some(30);
    }
    None
}

/// Marks a value of a type that was pushed, where it breaks a rule that the value is given to what has a type; answers
/// the type that stands there then.
pub fn mark_given(
    draft: &mut Draft,
    of: DeclaredType,
    is_bounded: bool,
    given: DeclaredType,
    place: Place,
) -> Result<DeclaredType, NoMemory>
    ensures { IfOk result (λ after. MarksGiven (declared_view of) is_bounded place given (draft_view draft.old) (draft_view draft.new) after) }
{
    let Some(rule) = given_rule(of, is_bounded, given) else {
        return Ok(given);
    };
    let broken = NodeKind::Marked {
        broken: Refusal { rule, place },
        values: 1,
    };
    let variant = DeclaredType::Plain(ElementType::Variant);
    push_node(draft, broken, variant, place)?;
    Ok(variant)
}

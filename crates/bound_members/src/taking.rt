//! Arguments that members take, by their names and by whether they are written.

ghost use Rattle.std.specs.List.{list_any};
ghost use Rattle.std.specs.Prelude.{◌≡◌, ◌+◌, ◌<◌, ◌^◌, IfOk, is_some, length, map};
ghost use Rattle.bound_project.specs.DraftView.{draft_view};
ghost use Rattle.bound_project.specs.Pieces.{Tables};
ghost use Rattle.bound_project.specs.View.{declared_view};
ghost use Rattle.bound_calls.specs.bound_forms.specs.ExpressionsBound as bound;
ghost use Rattle.bound_calls.specs.Shapes.{shape_given, shapes_given};
ghost use Rattle.bound_calls.specs.Standing.{member_is};
ghost use Rattle.bound_members.specs.Shapes.{all_given, any_given, begins_plain, is_item, item_given, names_from, rule_behind, takes_named};

use crate::members::{is_add, takes_arguments};
use crate::names::{Parameters, known_parameters, parameter_named};
use bound_calls::{HostMember, Shape, has_names, is_item_name};
use bound_project::{DeclaredType, Draft, ElementType};
use vba_base::NoMemory;

/// Is a parameter given an argument by its name?
fn is_given<'a>(parameters: Parameters, number: u32, shapes: &[Shape<'a>]) -> bool
    requires { length parameters.now < 5 }
    ensures { result ≡ any_given (map (λ w. w.now) parameters.now) number (shapes_given shapes.now) }
{
    match shapes {
        [] => false,
        [shape, shapes @ ..] => {
            let Some(name) = shape.name else {
                return is_given(parameters, number, shapes);
            };
            match parameter_named(0, parameters, name.name.units()) {
                Some(named) => number == named || is_given(parameters, number, shapes),
                None => is_given(parameters, number, shapes),
            }
        }
    }
}

/// Have all of these arguments names of parameters behind the first ones, no two the same?
fn are_given<'a>(parameters: Parameters, before: u32, shapes: &[Shape<'a>]) -> bool
    requires { length parameters.now < 5 }
    ensures { result ≡ is_some (all_given (map (λ w. w.now) parameters.now) before (shapes_given shapes.now)) }
{
    match shapes {
        [] => true,
        [shape, shapes @ ..] => {
            let Some(name) = shape.name else {
                return false;
            };
            let Some(number) = parameter_named(0, parameters, name.name.units()) else {
                return false;
            };
            if number < before || !are_given(parameters, before, shapes) {
                return false;
            }
            !is_given(parameters, number, shapes)
        }
    }
}

/// Have arguments, behind so many others, none with names, the names of parameters from the first one with a name on?
fn names_taken<'a>(parameters: Parameters, before: u32, shapes: &[Shape<'a>]) -> bool
    requires few { length parameters.now < 5 }
    requires short { before + length shapes.now < 2 ^ 32 }
    ensures { result ≡ names_from (map (λ w. w.now) parameters.now) before (shapes_given shapes.now) }
{
    match shapes {
        [] => true,
        [shape, others @ ..] => match shape.name {
            Some(_) => are_given(parameters, before, shapes),
            None => names_taken(parameters, before + 1, others),
        },
    }
}

/// Is an argument the item by its name?
fn is_item<'a>(shape: Shape<'a>) -> bool
    ensures { result ≡ is_item (shape_given shape.entry) }
{
    match shape.name {
        None => false,
        Some(name) => is_item_name(name.name.units()),
    }
}

/// Is one of these arguments the item by its name?
#[tactic(auto, using(std::proofs::lemmas::List::drop_more))]
fn any_item<'a>(shapes: &[Shape<'a>]) -> bool
    ensures { result ≡ list_any is_item (shapes_given shapes.now) }
{
    for shape in shapes {
        if is_item(*shape) {
            return true;
        }
    }
    false
}

/// Has the first argument no name?
fn begins_plain<'a>(shapes: &[Shape<'a>]) -> bool
    ensures { result ≡ begins_plain (shapes_given shapes.now) }
{
    match shapes {
        [] => false,
        [shape, ..] => shape.name.is_none(),
    }
}

/// Is Add of a Collection given an item? Other members need none.
fn item_given<'a>(member: HostMember, shapes: &[Shape<'a>]) -> bool
    ensures { (t : Tables) → result ≡ item_given (bound.is_add (member_is t member)) (shapes_given shapes.now) }
{
    !is_add(member) || (begins_plain(shapes) || any_item(shapes))
}

/// Has a member parameters of the names that arguments have?
fn takes_named<'a>(member: HostMember, name: &[u16], shapes: &[Shape<'a>]) -> bool
    requires { length shapes.now < 2 ^ 32 }
    ensures { (t : Tables) → result ≡ takes_named name.now member.greatest (bound.is_add (member_is t member)) (shapes_given shapes.now) }
{
    match member.greatest {
        None => true,
        Some(0) => true,
        Some(greatest) => {
            names_taken(known_parameters(name, greatest), 0, shapes) && item_given(member, shapes)
        }
    }
}

/// Does a member take these arguments, as far as is known before the run?
pub fn member_takes<'a>(
    draft: &Draft,
    member: HostMember,
    shapes: &[Shape<'a>],
) -> Result<bool, NoMemory>
    ensures { IfOk result (λ takes. takes ≡ bound.member_takes (member_is (draft_view draft.now).tables member) (shapes_given shapes.now)) }
{
    let Ok(count) = u32::try_from(shapes.len()) else {
        return Err(NoMemory);
    };
    if !takes_arguments(member, count) {
        return Ok(false);
    }
    if !has_names(shapes) {
        return Ok(true);
    }
    Ok(takes_named(member, draft.name(member.name), shapes))
}

/// The rule that arguments break behind a member that takes none, by what it gives.
fn rule_behind(of: DeclaredType) -> Option<u8>
    ensures { result ≡ rule_behind (declared_view of) }
{
    match of {
        DeclaredType::Plain(ElementType::Worksheet) => Some(34),
        DeclaredType::Plain(ElementType::Object) => Some(34),
        _ => Some(25),
    }
}

/// The rule that arguments break which a member doesn't take; none where that isn't known.
pub fn arguments_rule(member: HostMember) -> Option<u8>
    ensures { (t : Tables) → result ≡ bound.arguments_rule (member_is t member) }
{
    match member.greatest {
        None => None,
        Some(0) => rule_behind(member.of),
        Some(_) => Some(25),
    }
}

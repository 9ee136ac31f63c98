//! Names of arguments that members take.

ghost use Rattle.std.specs.List.{list_any};
ghost use Rattle.std.specs.Prelude.{◌≡◌, ◌+◌, ◌<◌, ◌^◌, [], IfOk, OnOk, Some, is_some, length, map};
ghost use Rattle.bound_project.specs.DraftView.{draft_view};
ghost use Rattle.bound_project.specs.Pieces.{by_name_in, name_in, names_in};
ghost use Rattle.bound_calls.specs.bound_forms.specs.Operands as operands;
ghost use Rattle.bound_calls.specs.bound_forms.specs.ExpressionsBound as bound;
ghost use Rattle.vba_meaning.specs.ByName.{any_given, parameter_named, parameters_given};
ghost use Rattle.bound_calls.specs.Standing.{member_is};
ghost use Rattle.bound_members.specs.Names.{AddsName, TellsNames, is_next};

use crate::ahead::before_names;
use crate::members::{is_add, is_word};
use bound_calls::{HostMember, Shape, constant_number, has_names, is_item_name, order_number};
use bound_project::{ArgumentNames, Draft};
use std::alloc::Global;
use vba_base::{NoMemory, Units};
use vba_values::Value;
use vba_words::Identifier;

/// One more name, which becomes a constant.
fn add_name(
    alloc: Global,
    draft: &mut Draft,
    name: &Identifier,
    order: &mut Vec<u32>,
) -> Result<(), NoMemory>
    ensures { OnOk result (AddsName (draft_view draft.old) order.old.items (draft_view draft.new) order.new.items) }
{
    let text = Units::from_units(alloc, name.name.units())?;
    let constant = constant_number(draft, Value::Text(text))?;
    order.push(constant)?;
    Ok(())
}

/// One more name, where an argument has one.
fn add_shape<'a>(
    alloc: Global,
    draft: &mut Draft,
    shape: Shape<'a>,
    order: &mut Vec<u32>,
) -> Result<(), NoMemory>
    ensures { OnOk result (AddsName (draft_view draft.old) order.old.items (draft_view draft.new) order.new.items) }
{
    match shape.name {
        Some(name) => add_name(alloc, draft, name, order),
        None => Ok(()),
    }
}

/// The constants that are the names of the arguments to come.
fn add_names<'a>(
    alloc: Global,
    draft: &mut Draft,
    shapes: &[Shape<'a>],
) -> Result<Vec<u32>, NoMemory>
    ensures { IfOk result (λ order. AddsName (draft_view draft.old) [] (draft_view draft.new) order.items) }
{
    let mut order = Vec::new(alloc);
    for shape in shapes {
        add_shape(alloc, draft, *shape, &mut order)?;
    }
    Ok(order)
}

/// How the arguments are named that are to come: so many stand before those with names.
pub fn names_told<'a>(
    alloc: Global,
    draft: &mut Draft,
    shapes: &[Shape<'a>],
) -> Result<ArgumentNames, NoMemory>
    ensures { IfOk result (λ names. TellsNames (draft_view draft.old) (draft_view draft.new) (Some names)) }
{
    let before = before_names(shapes);
    let order = add_names(alloc, draft, shapes)?;
    let order = order_number(draft, order)?;
    Ok(ArgumentNames { before, order })
}

/// The same, where some of them are.
pub fn names_ahead<'a>(
    alloc: Global,
    draft: &mut Draft,
    shapes: &[Shape<'a>],
) -> Result<Option<ArgumentNames>, NoMemory>
    ensures { IfOk result (λ names. TellsNames (draft_view draft.old) (draft_view draft.new) names) }
{
    if !has_names(shapes) {
        return Ok(None);
    }
    let names = names_told(alloc, draft, shapes)?;
    Ok(Some(names))
}

/// Is a name the one behind so many of those that were told?
#[tactic(auto, using(crate::proofs::Told::next_is))]
pub fn is_next(draft: &Draft, names: ArgumentNames, count: u32, name: &Identifier) -> bool
    ensures { result ≡ is_next (names_in (draft_view draft.now).tables names.order) count name.now.name }
{
    match draft.order(names.order).get(count as usize) {
        Some(constant) => draft.name(*constant) == name.name.units(),
        None => false,
    }
}

/// Names of parameters.
pub type Parameters = &'static [&'static [u8]];

const INDEX: Parameters = &[b"index"];

const ADDRESS: Parameters = &[b"address"];

const ROW_AND_COLUMN: Parameters = &[b"r", b"c"];

const ADDED: Parameters = &[b"item", b"key", b"before", b"after"];

/// The names that parameters of a member have, by the greatest number of its arguments.
pub fn known_parameters(name: &[u16], greatest: u32) -> Parameters
    ensures names { map (λ w. w.now) result.now ≡ bound.known_parameters name.now (Some greatest) }
    ensures few { length result.now < 5 }
{
    if greatest == 1 {
        return INDEX;
    }
    if greatest == 2 && is_word(name, b"range") {
        return ADDRESS;
    }
    if greatest == 2 {
        return ROW_AND_COLUMN;
    }
    if greatest == 4 {
        return ADDED;
    }
    &[]
}

/// The number of the parameter with a name, counted from one on.
pub fn parameter_named(first: u32, parameters: &[&[u8]], name: &[u16]) -> Option<u32>
    requires { first + length parameters.now < 2 ^ 32 }
    ensures { result ≡ parameter_named first (map (λ w. w.now) parameters.now) name.now }
{
    match parameters {
        [] => None,
        [own, parameters @ ..] => if is_word(name, own) {
            Some(first)
        } else {
            parameter_named(first + 1, parameters, name)
        }
    }
}

/// Is a parameter given an argument by one of these names?
fn is_given(draft: &Draft, parameters: &[&[u8]], number: u32, order: &[u32]) -> bool
    requires { length parameters.now < 2 ^ 32 }
    ensures { result ≡ any_given (map (λ w. w.now) parameters.now) number (map (name_in (draft_view draft.now).tables) order.now) }
{
    match order {
        [] => false,
        [first, order @ ..] => {
            match parameter_named(0, parameters, draft.name(*first)) {
                Some(named) => number == named || is_given(draft, parameters, number, order),
                None => is_given(draft, parameters, number, order),
            }
        }
    }
}

/// Are all of these names of parameters behind the first ones, no two of the same?
#[tactic(auto, using(vba_meaning::proofs::Named::given_more))]
fn are_given(draft: &Draft, parameters: &[&[u8]], before: u32, order: &[u32]) -> bool
    requires { length parameters.now < 2 ^ 32 }
    ensures { result ≡ is_some (parameters_given (map (λ w. w.now) parameters.now) before (map (name_in (draft_view draft.now).tables) order.now)) }
{
    match order {
        [] => true,
        [first, order @ ..] => {
            let Some(number) = parameter_named(0, parameters, draft.name(*first)) else {
                return false;
            };
            if number < before || !are_given(draft, parameters, before, order) {
                return false;
            }
            !is_given(draft, parameters, number, order)
        }
    }
}

/// Is one of these names that of the item?
#[tactic(auto, using(std::proofs::lemmas::List::drop_more))]
fn names_item(draft: &Draft, order: &[u32]) -> bool
    ensures { result ≡ list_any operands.is_item_name (map (name_in (draft_view draft.now).tables) order.now) }
{
    for constant in order {
        if is_item_name(draft.name(*constant)) {
            return true;
        }
    }
    false
}

/// Is Add of a Collection given an item? Other members need none.
fn has_item(draft: &Draft, member: HostMember, names: ArgumentNames) -> bool
    ensures { let t = (draft_view draft.now).tables in result ≡ bound.has_item (member_is t member) (by_name_in t names) }
{
    !is_add(member) || (names.before != 0 || names_item(draft, draft.order(names.order)))
}

/// Has a member parameters of these names, where they are known before the run?
pub fn takes_names(draft: &Draft, member: HostMember, names: ArgumentNames) -> bool
    ensures { let t = (draft_view draft.now).tables in result ≡ bound.takes_names (member_is t member) (by_name_in t names) }
{
    match member.greatest {
        None => true,
        Some(greatest) => {
            let parameters = known_parameters(draft.name(member.name), greatest);
            are_given(draft, parameters, names.before, draft.order(names.order))
                && has_item(draft, member, names)
        }
    }
}

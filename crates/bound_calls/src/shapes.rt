//! Arguments by their names and by whether they are written: which ones parameters take.

ghost use Rattle.std.specs.Prelude.{◌≡◌, ◌≤◌, IfOk, OnOk, Some, drop, length, map, option_map, reverse};
ghost use Rattle.std.specs.List.{list_all};
ghost use Rattle.bound_project.specs.DraftView.{draft_view};
ghost use Rattle.bound_project.specs.Pieces.{put};
ghost use Rattle.bound_project.specs.declared.declared_type.DeclaredType.TheVariants.{Plain};
ghost use Rattle.bound_project.specs.declared.declared_type.ElementType.TheVariants.{Variant};
ghost use Rattle.bound_project.specs.View.{parameter_view};
ghost use Rattle.bound_forms.specs.Terms as plain;
ghost use Rattle.bound_calls.specs.Calls.{node_of};
ghost use Rattle.bound_calls.specs.Shapes.{has_enough, is_called, shapes_given, with_shape, with_shapes};
ghost use Rattle.bound_calls.specs.Taking.{broken_ending, told_type};

use crate::stack::{put_item, take_item};
use crate::take::push_node;
use crate::term::{Ending, Item, Shape};
use bound_declarations::constant_values::declared_names::is_object;
use bound_project::{DeclaredType, Draft, ElementType, NodeKind, Parameter};
use class_defaults::{may_lack, takes_none};
use std::alloc::Global;
use vba_base::{NoMemory, Place, Refusal};
use vba_words::Identifier;

/// May each of these parameters be given nothing, each by itself?
fn left_may_lack(parameters: &[&Parameter]) -> bool
    ensures { result ≡ list_all plain.may_lack (map (λ p. parameter_view p.now) parameters.now) }
{
    for parameter in parameters {
        if !may_lack(parameter) {
            return false;
        }
    }
    true
}

/// Parameters, each by itself.
fn each_of<'a>(alloc: Global, parameters: &'a [Parameter]) -> Result<Vec<&'a Parameter>, NoMemory>
    ensures { IfOk result (λ each. map (λ p. parameter_view p.now) each.items ≡ map parameter_view parameters.now) }
{
    let mut each = Vec::new(alloc);
    for parameter in parameters {
        each.push(parameter)?;
    }
    Ok(each)
}

/// Is a parameter the one with a name? A ParamArray has none.
fn is_called(parameter: &Parameter, name: &Identifier) -> bool
    ensures { result ≡ is_called parameter.now name.now }
{
    !parameter.is_param_array && parameter.name.fold == name.name
}

/// All of these parameters but the first one with a name; none where there is none.
fn all_but<'a>(
    alloc: Global,
    parameters: &[&'a Parameter],
    name: &Identifier,
) -> Result<Option<Vec<&'a Parameter>>, NoMemory>
    ensures { IfOk result (λ others. option_map (λ v. map (λ p. parameter_view p.now) v.items) others ≡ plain.all_but (map (λ p. parameter_view p.now) parameters.now) name.now.name) }
{
    let mut others = Vec::new(alloc);
    let mut is_found = false;
    for parameter in parameters {
        if is_found {
            others.push(*parameter)?;
        } else if is_called(parameter, name) {
            is_found = true;
        } else {
            others.push(*parameter)?;
        }
    }
    if is_found { Ok(Some(others)) } else { Ok(None) }
}

/// Do parameters take arguments that all have names?
fn takes_named<'a>(
    alloc: Global,
    parameters: &'a [Parameter],
    shapes: &[Shape<'a>],
) -> Result<bool, NoMemory>
    ensures { IfOk result (λ takes. takes ≡ plain.takes_named (Some (map parameter_view parameters.now)) (shapes_given shapes.now)) }
{
    let mut left = each_of(alloc, parameters)?;
    for shape in shapes {
        let Some(name) = shape.name else {
            return Ok(false);
        };
        match all_but(alloc, &left, name)? {
            Some(others) => left = others,
            None => return Ok(false),
        }
    }
    Ok(left_may_lack(&left))
}

/// Has an argument a name?
pub fn has_names<'a>(shapes: &[Shape<'a>]) -> bool
    ensures { result ≡ plain.has_names (shapes_given shapes.now) }
{
    for shape in shapes {
        if shape.name.is_some() {
            return true;
        }
    }
    false
}

/// Does a parameter have what it needs of an argument that has no name?
fn has_enough<'a>(parameter: &Parameter, shape: &Shape<'a>) -> bool
    ensures { result ≡ has_enough parameter.now shape.now }
{
    shape.is_written || may_lack(parameter)
}

/// The arguments from a number on.
fn shapes_from<'b, 'a>(shapes: &'b [Shape<'a>], number: usize) -> &'b [Shape<'a>]
    requires { number ≤ length shapes.now }
    ensures { result.now ≡ drop number shapes.now }
{
    let (_before, behind) = shapes.split_at(number);
    behind
}

/// Do parameters take these arguments?
pub fn takes<'a>(
    alloc: Global,
    parameters: &'a [Parameter],
    shapes: &[Shape<'a>],
) -> Result<bool, NoMemory>
    ensures { IfOk result (λ takes. takes ≡ plain.takes (map parameter_view parameters.now) (shapes_given shapes.now)) }
{
    let mut left = parameters;
    for number in 0..shapes.len() {
        let shape = shapes[number];
        let Some((parameter, others)) = left.split_first() else {
            return Ok(false);
        };
        if shape.name.is_some() {
            return takes_named(alloc, left, shapes_from(shapes, number));
        }
        if parameter.is_param_array {
            return Ok(!has_names(shapes_from(shapes, number)));
        }
        if !has_enough(parameter, &shape) {
            return Ok(false);
        }
        left = others;
    }
    Ok(takes_none(left))
}

/// The type of a call that breaks a rule, of what has a declared type: an object is none.
pub fn told_type(of: DeclaredType) -> DeclaredType
    ensures { result ≡ told_type of }
{
    if is_object(of) {
        DeclaredType::Plain(ElementType::Variant)
    } else {
        of
    }
}

/// What breaks a rule: so many values that were pushed, but for the last node, of what has a declared type.
pub fn broken_ending(rule: u8, place: Place, of: DeclaredType, values: u32) -> Ending
    ensures { result ≡ broken_ending rule place of values }
{
    Ending {
        kind: NodeKind::Marked {
            broken: Refusal { rule, place },
            values,
        },
        of: told_type(of),
    }
}

/// Pushes what breaks a rule, as a Variant: so many values that were pushed.
pub fn push_broken(draft: &mut Draft, rule: u8, place: Place, values: u32) -> Result<(), NoMemory>
    ensures { OnOk result (draft_view draft.new ≡ record (draft_view draft.old) { pieces = put (draft_view draft.old).tables (node_of (broken_ending rule place (Plain Variant) values).kind place (broken_ending rule place (Plain Variant) values).of) (draft_view draft.old).pieces }) }
{
    let variant = DeclaredType::Plain(ElementType::Variant);
    let ending = broken_ending(rule, place, variant, values);
    push_node(draft, ending.kind, ending.of, place)
}

/// Takes an argument of what doesn't take it off the top.
fn take_shape<'a>(stack: &mut Vec<Item<'a>>) -> Result<Option<Shape<'a>>, NoMemory>
    ensures { IfOk result (λ shape. reverse stack.old.items ≡ with_shape shape (reverse stack.new.items)) }
{
    match take_item(stack) {
        None => Ok(None),
        Some(Item::Shape(shape)) => Ok(Some(shape)),
        Some(item) => {
            put_item(stack, item)?;
            Ok(None)
        }
    }
}

/// The same arguments, the first one first.
fn first_first<'a>(alloc: Global, last_first: Vec<Shape<'a>>) -> Result<Vec<Shape<'a>>, NoMemory>
    ensures { IfOk result (λ shapes. reverse shapes.items ≡ last_first.entry.items) }
{
    let mut left = last_first;
    let mut shapes = Vec::new(alloc);
    while let Some(shape) = left.pop() {
        shapes.push(shape)?;
    }
    Ok(shapes)
}

/// Takes the arguments of what doesn't take them off the top.
pub fn take_shapes<'a>(alloc: Global, stack: &mut Vec<Item<'a>>) -> Result<Vec<Shape<'a>>, NoMemory>
    ensures { IfOk result (λ shapes. reverse stack.old.items ≡ with_shapes (reverse shapes.items) (reverse stack.new.items)) }
{
    let mut last_first = Vec::new(alloc);
    while let Some(shape) = take_shape(stack)? {
        last_first.push(shape)?;
    }
    first_first(alloc, last_first)
}

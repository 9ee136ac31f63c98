ghost use Rattle.std.specs.Prelude.{◌≡◌, ◌↔◌, ◌∷◌, IsSome, IsTrue, Some};
ghost use Rattle.vba_values.specs.View.{view, views, array_view, udt_view};
ghost use Rattle.arrays_udt.specs.Paths.{path_value, inner_value, with_path, with_inner};

use std::mem;
use vba_values::{ArrayValue, UdtValue, Value};

/// A step into a value: to a field by its number, or to an element by its offset, both from 0.
#[derive(Clone, Copy, Debug, PartialEq, Eq)]
pub enum PathStep {
    Field(u32),
    Element(usize),
}

/// Whether there is a value at a path.
#[cycle(find)]
pub fn has_path(root: &Value, path: &[PathStep]) -> bool
    ensures { IsTrue result ↔ IsSome (path_value (view root.now) path.now) }
{
    match path {
        [] => true,
        [PathStep::Field(place), rest @ ..] => match root {
            Value::Udt(udt) => has_inner(&udt.fields, *place as usize, rest),
            _ => false,
        },
        [PathStep::Element(place), rest @ ..] => match root {
            Value::Array(array) => has_inner(&array.items, *place, rest),
            _ => false,
        },
    }
}

#[cycle(find)]
#[tactic(auto, using(crate::proofs::Inner::inner_inside, crate::proofs::Inner::inner_at))]
fn has_inner(items: &Vec<Value>, place: usize, path: &[PathStep]) -> bool
    ensures { IsTrue result ↔ IsSome (inner_value (views items.now.items) place path.now) }
{
    place < items.len() && has_path(&items[place], path)
}

/// The value at a path.
#[cycle(read)]
pub fn path_read<'a>(root: &'a Value, path: &[PathStep]) -> &'a Value
    requires { IsSome (path_value (view root.now) path.now) }
    ensures { path_value (view root.now) path.now ≡ Some (view result.now) }
{
    match path {
        [] => root,
        [PathStep::Field(place), rest @ ..] => {
            let Value::Udt(udt) = root else {
                unreachable!();
            };
            read_inner(&udt.fields, *place as usize, rest)
        }
        [PathStep::Element(place), rest @ ..] => {
            let Value::Array(array) = root else {
                unreachable!();
            };
            read_inner(&array.items, *place, rest)
        }
    }
}

#[cycle(read)]
#[tactic(auto, using(crate::proofs::Inner::inner_inside, crate::proofs::Inner::inner_at))]
fn read_inner<'a>(items: &'a Vec<Value>, place: usize, path: &[PathStep]) -> &'a Value
    requires { IsSome (inner_value (views items.now.items) place path.now) }
    ensures { inner_value (views items.now.items) place path.now ≡ Some (view result.now) }
{
    path_read(&items[place], path)
}

/// Writes a value at a path and hands back the old one. Nothing else changes.
#[cycle(write)]
pub fn path_write(root: &mut Value, path: &[PathStep], new: Value) -> Value
    requires { IsSome (path_value (view root.old) path.now) }
    ensures old { path_value (view root.old) path.now ≡ Some (view result) }
    ensures new { view root.new ≡ with_path (view root.old) path.now (view new) }
{
    match path {
        [] => mem::replace(root, new),
        [step, rest @ ..] => write_inside(root, *step, rest, new),
    }
}

#[cycle(write)]
#[tactic(auto, using(crate::proofs::Inner::view_array_with, crate::proofs::Inner::view_udt_with))]
fn write_inside(value: &mut Value, step: PathStep, path: &[PathStep], new: Value) -> Value
    requires { IsSome (path_value (view value.old) (step ∷ path.now)) }
    ensures old { path_value (view value.old) (step ∷ path.now) ≡ Some (view result) }
    ensures new { view value.new ≡ with_path (view value.old) (step ∷ path.now) (view new) }
{
    match value {
        Value::Array(array) => {
            let PathStep::Element(place) = step else {
                unreachable!();
            };
            write_element(array, place, path, new)
        }
        Value::Udt(udt) => {
            let PathStep::Field(place) = step else {
                unreachable!();
            };
            write_field(udt, place as usize, path, new)
        }
        _ => unreachable!(),
    }
}

#[cycle(write)]
fn write_element(array: &mut ArrayValue, place: usize, path: &[PathStep], new: Value) -> Value
    requires { IsSome (path_value (array_view array.old) (PathStep.Element place ∷ path.now)) }
    ensures old { path_value (array_view array.old) (PathStep.Element place ∷ path.now) ≡ Some (view result) }
    ensures new { array_view array.new ≡ with_path (array_view array.old) (PathStep.Element place ∷ path.now) (view new) }
{
    write_inner(&mut array.items, place, path, new)
}

#[cycle(write)]
fn write_field(udt: &mut UdtValue, place: usize, path: &[PathStep], new: Value) -> Value
    requires { IsSome (path_value (udt_view udt.old) (PathStep.Field place ∷ path.now)) }
    ensures old { path_value (udt_view udt.old) (PathStep.Field place ∷ path.now) ≡ Some (view result) }
    ensures new { udt_view udt.new ≡ with_path (udt_view udt.old) (PathStep.Field place ∷ path.now) (view new) }
{
    write_inner(&mut udt.fields, place, path, new)
}

#[cycle(write)]
#[tactic(auto, using(crate::proofs::Inner::inner_inside, crate::proofs::Inner::inner_at, crate::proofs::Inner::inner_set))]
fn write_inner(items: &mut Vec<Value>, place: usize, path: &[PathStep], new: Value) -> Value
    requires { IsSome (inner_value (views items.old.items) place path.now) }
    ensures old { inner_value (views items.old.items) place path.now ≡ Some (view result) }
    ensures new { views items.new.items ≡ with_inner (views items.old.items) place path.now (view new) }
{
    path_write(&mut items[place], path, new)
}

ghost use Rattle.std.specs.Prelude.{◌≡◌, ◌++◌, true, [], length, map, replicate, take, IfOk, OnOk, OnErr};
ghost use Rattle.std.specs.List.{list_all};
ghost use Rattle.vba_values.specs.Types.{declared};
ghost use Rattle.vba_values.specs.Val.{array, no_vals, vals_of};
ghost use Rattle.vba_values.specs.View.{view, views, array_view, udt_view};
ghost use Rattle.arrays_udt.specs.Fields.{AreTypes, field_of, is_known, types_of};
ghost use Rattle.arrays_udt.specs.Fresh.{field_by, filled, initial, initial_by, udt_within};
ghost use Rattle.arrays_udt.specs.Nesting.{field_nested, nested_by, udt_nested};
ghost use Rattle.arrays_udt.specs.Shapes.{elements, is_shape};

use crate::shape::{Shape, count_elements};
use crate::udt::{UdtField, UdtType};
use currency::from_count;
use std::alloc::Global;
use vba_base::{NoMemory, Units};
use vba_values::{ArrayValue, Bound, ObjRef, UdtValue, VType, Value, copy_type};

/// The initial value of a declared type.
pub fn fresh(alloc: Global, of: &VType, types: &Vec<UdtType>) -> Result<Value, NoMemory>
    requires types { AreTypes (types_of types.now.items) }
    requires known { is_known (types_of types.now.items) (declared of.now) ≡ true }
    ensures { IfOk result (λ value. view value ≡ initial (types_of types.now.items) (declared of.now)) }
{
    fresh_within(alloc, of, types, type_count(types))
}

/// An array of a shape, with the initial value of its element type at each place.
pub fn fresh_array(
    alloc: Global,
    shape: &Shape,
    element: &VType,
    types: &Vec<UdtType>,
) -> Result<ArrayValue, NoMemory>
    requires types { AreTypes (types_of types.now.items) }
    requires known { is_known (types_of types.now.items) (declared element.now) ≡ true }
    ensures { IfOk result (λ array. array_view array ≡ filled shape.now (declared element.now) (initial (types_of types.now.items) (declared element.now))) }
{
    filled_within(alloc, shape.bounds(), element, types, type_count(types))
}

#[tactic(auto, using(crate::proofs::Nested::length_types))]
fn type_count(types: &Vec<UdtType>) -> usize
    ensures { result ≡ length (types_of types.now.items) }
{
    types.len()
}

#[cycle(fresh)]
fn fresh_within(
    alloc: Global,
    of: &VType,
    types: &Vec<UdtType>,
    depth: usize,
) -> Result<Value, NoMemory>
    requires { nested_by (udt_nested depth (types_of types.now.items)) (declared of.now) ≡ true }
    ensures { IfOk result (λ value. view value ≡ initial_by (udt_within depth (types_of types.now.items)) (declared of.now)) }
{
    match of {
        VType::Boolean => Ok(Value::Boolean(false)),
        VType::Byte => Ok(Value::Byte(0)),
        VType::Integer => Ok(Value::Integer(0)),
        VType::Long => Ok(Value::Long(0)),
        VType::LongLong => Ok(Value::LongLong(0)),
        VType::Currency => Ok(Value::Currency(from_count(0))),
        VType::Text => Ok(Value::Text(Units::new(alloc))),
        VType::FixedText(size) => Ok(Value::Text(zero_units(alloc, *size)?)),
        VType::Object => Ok(Value::Object(ObjRef::Nothing)),
        VType::Class(_) => Ok(Value::Object(ObjRef::Nothing)),
        VType::Collection => Ok(Value::Object(ObjRef::Nothing)),
        VType::Worksheet => Ok(Value::Object(ObjRef::Nothing)),
        VType::Range => Ok(Value::Object(ObjRef::Nothing)),
        VType::Variant => Ok(Value::Empty),
        VType::Udt(number) => {
            let udt = fresh_udt(alloc, *number, types, depth)?;
            Ok(Value::Udt(Box::new(alloc, udt)?))
        }
        VType::ArrayOf(element) => {
            let array = without_storage(alloc, element)?;
            Ok(Value::Array(Box::new(alloc, array)?))
        }
    }
}

/// A text of so many units U+0000.
fn zero_units(alloc: Global, size: u16) -> Result<Units, NoMemory>
    ensures { IfOk result (λ units. units ≡ replicate size 0) }
{
    let mut units = Units::new(alloc);
    for _ in 0..size {
        units.push(0)?;
    }
    Ok(units)
}

/// A dynamic array as it begins.
fn without_storage(alloc: Global, element: &VType) -> Result<ArrayValue, NoMemory>
    ensures { IfOk result (λ result. array_view result ≡ array [] (declared element.now) no_vals) }
{
    Ok(ArrayValue {
        bounds: Vec::new(alloc),
        element: copy_type(alloc, element)?,
        items: Vec::new(alloc),
    })
}

#[cycle(fresh)]
fn fresh_udt(
    alloc: Global,
    number: u32,
    types: &Vec<UdtType>,
    depth: usize,
) -> Result<UdtValue, NoMemory>
    requires { udt_nested depth (types_of types.now.items) number ≡ true }
    ensures { IfOk result (λ value. udt_view value ≡ udt_within depth (types_of types.now.items) number) }
{
    let udt = &types[number as usize];
    let fields = fresh_fields(alloc, &udt.fields, types, depth - 1)?;
    Ok(UdtValue {
        udt: number,
        fields,
    })
}

#[cycle(fresh)]
fn fresh_fields(
    alloc: Global,
    fields: &Vec<UdtField>,
    types: &Vec<UdtType>,
    depth: usize,
) -> Result<Vec<Value>, NoMemory>
    requires { list_all (field_nested (udt_nested depth (types_of types.now.items))) (map field_of fields.now.items) ≡ true }
    ensures { IfOk result (λ values. views values.items ≡ vals_of (map (field_by (udt_within depth (types_of types.now.items))) (map field_of fields.now.items))) }
{
    let mut values = Vec::with_capacity(alloc, fields.len())?;
    for field in fields {
        values.push(fresh_field(alloc, field, types, depth)?)?;
    }
    Ok(values)
}

#[cycle(fresh)]
fn fresh_field(
    alloc: Global,
    field: &UdtField,
    types: &Vec<UdtType>,
    depth: usize,
) -> Result<Value, NoMemory>
    requires { field_nested (udt_nested depth (types_of types.now.items)) (field_of field.now) ≡ true }
    ensures { IfOk result (λ value. view value ≡ field_by (udt_within depth (types_of types.now.items)) (field_of field.now)) }
{
    if field.bounds.is_empty() {
        return fresh_within(alloc, &field.of, types, depth);
    }
    let VType::ArrayOf(element) = &field.of else {
        unreachable!();
    };
    let array = filled_within(alloc, field.bounds.as_slice(), element, types, depth)?;
    Ok(Value::Array(Box::new(alloc, array)?))
}

#[cycle(fresh)]
fn filled_within(
    alloc: Global,
    bounds: &[Bound],
    element: &VType,
    types: &Vec<UdtType>,
    depth: usize,
) -> Result<ArrayValue, NoMemory>
    requires shape { is_shape bounds.now ≡ true }
    requires nested { nested_by (udt_nested depth (types_of types.now.items)) (declared element.now) ≡ true }
    ensures { IfOk result (λ array. array_view array ≡ filled bounds.now (declared element.now) (initial_by (udt_within depth (types_of types.now.items)) (declared element.now))) }
{
    let Some(count) = count_elements(bounds) else {
        unreachable!();
    };
    let count = count as usize;
    let mut items = Vec::with_capacity(alloc, count)?;
    push_fresh(alloc, &mut items, count, element, types, depth)?;
    Ok(ArrayValue {
        bounds: Vec::from_slice(alloc, bounds)?,
        element: copy_type(alloc, element)?,
        items,
    })
}

/// Adds so many initial values of a declared type.
#[cycle(fresh)]
fn push_fresh(
    alloc: Global,
    items: &mut Vec<Value>,
    count: usize,
    of: &VType,
    types: &Vec<UdtType>,
    depth: usize,
) -> Result<(), NoMemory>
    requires { nested_by (udt_nested depth (types_of types.now.items)) (declared of.now) ≡ true }
    ensures front { take (length items.old.items) items.new.items ≡ items.old.items }
    ensures added { OnOk result (map view items.new.items ≡ map view items.old.items ++ replicate count (initial_by (udt_within depth (types_of types.now.items)) (declared of.now))) }
{
    for _ in 0..count {
        items.push(fresh_within(alloc, of, types, depth)?)?;
    }
    Ok(())
}

/// Adds so many initial values of a declared type at the end of an array's items. Without memory the items stay as they
/// were.
pub(crate) fn add_fresh(
    alloc: Global,
    items: &mut Vec<Value>,
    count: usize,
    of: &VType,
    types: &Vec<UdtType>,
) -> Result<(), NoMemory>
    requires types { AreTypes (types_of types.now.items) }
    requires known { is_known (types_of types.now.items) (declared of.now) ≡ true }
    ensures added { OnOk result (map view items.new.items ≡ map view items.old.items ++ replicate count (initial (types_of types.now.items) (declared of.now))) }
    ensures same { OnErr result (items.new.items ≡ items.old.items) }
{
    let before = items.len();
    let added = push_fresh(alloc, items, count, of, types, type_count(types));
    if added.is_err() {
        items.truncate(before);
    }
    added
}

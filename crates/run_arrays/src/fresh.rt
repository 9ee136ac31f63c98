// New arrays: each element has its first value.
ghost use Rattle.std.specs.Prelude.{◌≡◌, ◌++◌, [], IfOk, OnOk, map, replicate};
ghost use Rattle.arrays_udt.specs.Fresh.{initial};
ghost use Rattle.bound_project.specs.Project.{field_of, types_of};
ghost use Rattle.bound_project.specs.View.{declaration_view, declarations_view};
ghost use Rattle.vba_values.specs.Types as type;
ghost use Rattle.vba_values.specs.Types.{declared as type_view};
ghost use Rattle.vba_values.specs.Val.{array, no_vals};
ghost use Rattle.vba_values.specs.View.{view, views};
ghost use Rattle.vba_meaning.specs.Arrays.{new_array};

use crate::numbers::count_elements;
use bound_project::{Declaration, Declarations, DeclaredType, ElementType, Spelled};
use currency::from_count;
use run_memory::first_value;
use std::alloc::Global;
use vba_base::{NoMemory, Place, Units, name_of};
use vba_values::{ArrayValue, Bound, ObjRef, VType, Value, copy_type, copy_value};

/// A new array of a type of elements.
pub fn new_array(
    alloc: Global,
    declared: &Declarations,
    bounds: &[Bound],
    element: &VType,
) -> Result<Value, NoMemory>
    ensures { IfOk result (λ value. view value ≡ new_array (declarations_view declared.now) bounds.now (type_view element.now)) }
{
    let Some(count) = count_elements(bounds) else {
        return Err(NoMemory);
    };
    let first = initial(alloc, declared, element)?;
    let mut items = Vec::new(alloc);
    add_copies(alloc, &mut items, count, &first)?;
    array_of(alloc, bounds, element, items)
}

/// An array of these items.
pub fn array_of(
    alloc: Global,
    bounds: &[Bound],
    element: &VType,
    items: Vec<Value>,
) -> Result<Value, NoMemory>
    ensures { IfOk result (λ value. view value ≡ array bounds.now (type_view element.now) (views items.items)) }
{
    let array = ArrayValue {
        bounds: Vec::from_slice(alloc, bounds)?,
        element: copy_type(alloc, element)?,
        items,
    };
    Ok(Value::Array(Box::new(alloc, array)?))
}

/// An array without storage.
pub fn without_storage(alloc: Global, element: &VType) -> Result<Value, NoMemory>
    ensures { IfOk result (λ value. view value ≡ array [] (type_view element.now) no_vals) }
{
    array_of(alloc, &[], element, Vec::new(alloc))
}

/// Adds so many copies of an item.
pub fn add_copies(
    alloc: Global,
    items: &mut Vec<Value>,
    count: usize,
    item: &Value,
) -> Result<(), NoMemory>
    ensures { OnOk result (map view items.new.items ≡ map view items.old.items ++ replicate count (view item.now)) }
{
    for _ in 0..count {
        items.push(copy_value(alloc, item)?)?;
    }
    Ok(())
}

/// The first value of a declared type.
pub fn initial(alloc: Global, declared: &Declarations, of: &VType) -> Result<Value, NoMemory>
    ensures { IfOk result (λ value. view value ≡ initial (types_of (declarations_view declared.now)) (type_view of.now)) }
{
    match of {
        VType::Boolean => Ok(Value::Boolean(false)),
        VType::Byte => Ok(Value::Byte(0)),
        VType::Integer => Ok(Value::Integer(0)),
        VType::Long => Ok(Value::Long(0)),
        VType::LongLong => Ok(Value::LongLong(0)),
        VType::Currency => Ok(Value::Currency(from_count(0))),
        VType::Text => Ok(Value::Text(Units::new(alloc))),
        VType::FixedText(size) => Ok(Value::Text(zero_units(alloc, *size)?)),
        VType::Object | VType::Class(_) | VType::Collection | VType::Worksheet | VType::Range => Ok(
            Value::Object(ObjRef::Nothing),
        ),
        VType::Variant => Ok(Value::Empty),
        VType::Udt(number) => type_value(alloc, declared, *number),
        VType::ArrayOf(element) => without_storage(alloc, element),
    }
}

/// A text of so many units U+0000.
fn zero_units(alloc: Global, size: u16) -> Result<Units, NoMemory>
    ensures { IfOk result (λ units. units ≡ replicate size 0) }
{
    let mut units = Units::new(alloc);
    for _ in 0..size {
        units.push(0)?;
    }
    Ok(units)
}

/// The first value of a Type.
fn type_value(alloc: Global, declared: &Declarations, number: u32) -> Result<Value, NoMemory>
    ensures { IfOk result (λ value. view value ≡ initial (types_of (declarations_view declared.now)) (type.udt number)) }
{
    let variable = variable_of_type(alloc, number)?;
    first_value(alloc, declared, &variable)
}

/// A variable of a Type, without a name.
fn variable_of_type(alloc: Global, number: u32) -> Result<Declaration, NoMemory>
    ensures { IfOk result (λ variable. field_of (declaration_view variable) ≡ record { of = type.udt number; bounds = [] }) }
{
    let name = Spelled {
        spelling: Units::new(alloc),
        fold: name_of(alloc, &[])?,
    };
    Ok(Declaration {
        name,
        place: Place {
            module: 0,
            line: 0,
            column: 0,
        },
        of: DeclaredType::Plain(ElementType::UserType(number)),
        bounds: Vec::new(alloc),
    })
}

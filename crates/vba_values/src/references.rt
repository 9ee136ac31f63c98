// The operator Is, and the references that a value has.
ghost use Rattle.std.specs.Prelude.{◌≡◌, ◌++◌, OnOk};
ghost use Rattle.vba_values.specs.Objects.{compared_by_is, references_in, references_of, same_object};
ghost use Rattle.vba_values.specs.Errors.{Answers};
ghost use Rattle.vba_values.specs.View.{array_view, udt_view, view, views};

use crate::fault::Bad;
use crate::object::ObjRef;
use crate::value::{ArrayValue, UdtValue, Value};
use vba_base::NoMemory;

/// Is: whether two references are to the same object. Nothing is the same as Nothing; what is no object raises 424.
pub fn is_same_object(left: &Value, right: &Value) -> Result<bool, Bad>
    ensures { Answers (λ same. same) result (compared_by_is (view left.now) (view right.now)) }
{
    match (left, right) {
        (Value::Object(left), Value::Object(right)) => Ok(is_same_reference(*left, *right)),
        _ => Err(Bad::Raise(424)),
    }
}

#[tactic(auto, using(crate::proofs::SameObjects::object_equal))]
fn is_same_reference(left: ObjRef, right: ObjRef) -> bool
    ensures { result ≡ same_object left right }
{
    left == right
}

/// Adds the references that a value has, in the order of its places, also those inside arrays and values of Types.
#[cycle(references)]
pub fn add_references(references: &mut Vec<ObjRef>, value: &Value) -> Result<(), NoMemory>
    ensures { OnOk result (references.new.items ≡ references.old.items ++ references_of (view value.now)) }
{
    match value {
        Value::Object(reference) => Ok(references.push(*reference)?),
        Value::Array(array) => add_array_references(references, array),
        Value::Udt(udt) => add_udt_references(references, udt),
        _ => Ok(()),
    }
}

#[cycle(references)]
fn add_array_references(references: &mut Vec<ObjRef>, array: &ArrayValue) -> Result<(), NoMemory>
    ensures { OnOk result (references.new.items ≡ references.old.items ++ references_of (array_view array.now)) }
{
    add_inner_references(references, &array.items)
}

#[cycle(references)]
fn add_udt_references(references: &mut Vec<ObjRef>, udt: &UdtValue) -> Result<(), NoMemory>
    ensures { OnOk result (references.new.items ≡ references.old.items ++ references_of (udt_view udt.now)) }
{
    add_inner_references(references, &udt.fields)
}

#[cycle(references)]
fn add_inner_references(references: &mut Vec<ObjRef>, items: &Vec<Value>) -> Result<(), NoMemory>
    ensures { OnOk result (references.new.items ≡ references.old.items ++ references_in (views items.now.items)) }
{
    for item in items {
        add_references(references, item)?;
    }
    Ok(())
}

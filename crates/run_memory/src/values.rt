// Operators, conversions and conditions as effects: they change no memory.
ghost use Rattle.std.specs.Prelude.{◌≡◌, IsTrue, IsFalse};
ghost use Rattle.vba_values.specs.Operators.{has_two_operands};
ghost use Rattle.vba_values.specs.Types.{declared};
ghost use Rattle.vba_values.specs.View.{view};
ghost use Rattle.bound_project.specs.View.{declared_view};
ghost use Rattle.vba_meaning.specs.Memory.{Memory as PlainMemory};
ghost use Rattle.vba_meaning.specs.Effects.{class_of, condition, fitted, is_area, is_collection, is_true, operated, operated_alone, plain, plain_reference, set_object, set_reference, takes_object};
ghost use Rattle.run_memory.specs.Acts.{Acts};
ghost use Rattle.run_memory.specs.View.{memory_view};

use crate::area::area_in;
use crate::memory::Memory;
use bound_project::DeclaredType;
use std::alloc::Global;
use vba_base::OrMemory;
use vba_values::{
    Bad, Compare, HostRef, ObjRef, OpKind, VType, Value, binary, coerce, coerce_owned, unary,
};

/// An operator of two operands.
pub fn operated(
    alloc: Global,
    op: OpKind,
    compare: Compare,
    left: DeclaredType,
    right: DeclaredType,
    first: &Value,
    second: &Value,
) -> Result<Value, OrMemory<Bad>>
    requires { IsTrue (has_two_operands op) }
    ensures { (m : PlainMemory) → Acts view result m (operated op compare (declared_view left) (declared_view right) (view first.now) (view second.now) m) }
{
    let left = left.value_type(alloc)?;
    let right = right.value_type(alloc)?;
    binary(alloc, op, first, &left, second, &right, compare)
}

/// Unary minus and Not.
pub fn operated_alone(
    alloc: Global,
    op: OpKind,
    of: DeclaredType,
    value: &Value,
) -> Result<Value, OrMemory<Bad>>
    requires { IsFalse (has_two_operands op) }
    ensures { (m : PlainMemory) → Acts view result m (operated_alone op (declared_view of) (view value.now) m) }
{
    let of = of.value_type(alloc)?;
    unary(alloc, op, value, &of)
}

/// A condition: Null counts as False; the answer is whether it is as told ([MS-VBAL] 5.4.2.8).
pub fn condition(alloc: Global, sense: bool, value: &Value) -> Result<bool, OrMemory<Bad>>
    ensures { (m : PlainMemory) → Acts (λ holds. holds) result m (condition sense (view value.now) m) }
{
    match value {
        Value::Boolean(truth) => Ok(*truth == sense),
        Value::Null => Ok(!sense),
        _ => {
            let truth = coerce(alloc, value, &VType::Boolean)?;
            Ok(is_true(&truth) == sense)
        }
    }
}

/// Whether a value is True.
pub fn is_true(value: &Value) -> bool
    ensures { result ≡ is_true (view value.now) }
{
    match value {
        Value::Boolean(truth) => *truth,
        _ => false,
    }
}

impl Memory {
    /// The class of a counted object: 0 is Collection.
    pub fn class_of(&self, reference: ObjRef) -> u32
        ensures { result ≡ class_of reference (memory_view self.now) }
    {
        match reference {
            ObjRef::Heap(id) => match self.objects.get(id.0 as usize) {
                Some(Some(object)) => object.class,
                _ => 0,
            },
            _ => 0,
        }
    }

    /// Whether an object is a Collection.
    pub fn is_collection(&self, reference: ObjRef) -> bool
        ensures { result ≡ is_collection reference (memory_view self.now) }
    {
        matches!(reference, ObjRef::Heap(_)) && self.class_of(reference) == 0
    }

    /// Whether Set lets a variable of this type have an object that isn't Nothing ([MS-VBAL] 5.4.3.9).
    pub fn takes_object(&self, of: &VType, reference: ObjRef) -> bool
        ensures { result ≡ takes_object (declared of.now) reference (memory_view self.now) }
    {
        match of {
            VType::Class(number) => {
                matches!(reference, ObjRef::Heap(_)) && self.class_of(reference) == *number
            }
            VType::Collection => self.is_collection(reference),
            VType::Worksheet => matches!(reference, ObjRef::Host(HostRef::Sheet { sheet: _ })),
            VType::Range => is_area(reference),
            VType::Boolean
            | VType::Byte
            | VType::Integer
            | VType::Long
            | VType::LongLong
            | VType::Currency
            | VType::Text
            | VType::FixedText(_)
            | VType::Object
            | VType::Variant
            | VType::Udt(_)
            | VType::ArrayOf(_) => true,
        }
    }

    fn set_reference(&self, of: &VType, reference: ObjRef) -> Result<Value, OrMemory<Bad>>
        ensures { Acts view result (memory_view self.now) (set_reference (declared of.now) reference (memory_view self.now)) }
    {
        if matches!(reference, ObjRef::Nothing) || self.takes_object(of, reference) {
            Ok(Value::Object(reference))
        } else {
            Err(OrMemory::Fault(Bad::Raise(13)))
        }
    }

    /// The test of Set.
    pub fn set_object(&self, of: &VType, value: &Value) -> Result<Value, OrMemory<Bad>>
        ensures { Acts view result (memory_view self.now) (set_object (declared of.now) (view value.now) (memory_view self.now)) }
    {
        match value {
            Value::Object(reference) => self.set_reference(of, *reference),
            _ => Err(OrMemory::Fault(Bad::Raise(424))),
        }
    }

    /// A value as one of the declared type: let-coercion, but of object types the test of Set ([MS-VBAL] 5.5.1.2).
    pub fn fitted(&self, alloc: Global, of: &VType, value: Value) -> Result<Value, OrMemory<Bad>>
        ensures { Acts view result (memory_view self.now) (fitted (declared of.now) (view value) (memory_view self.now)) }
    {
        match of {
            VType::Object | VType::Class(_) | VType::Collection | VType::Worksheet | VType::Range =>
                self.set_object(of, &value),
            VType::Boolean
            | VType::Byte
            | VType::Integer
            | VType::Long
            | VType::LongLong
            | VType::Currency
            | VType::Text
            | VType::FixedText(_)
            | VType::Variant
            | VType::Udt(_)
            | VType::ArrayOf(_) => coerce_owned(alloc, value, of),
        }
    }

    /// An operand: an object gives way to the value of its default member ([MS-VBAL] 5.6.2.3).
    pub fn plain(&self, alloc: Global, value: Value) -> Result<Value, OrMemory<Bad>>
        ensures { Acts view result (memory_view self.now) (plain (view value) (memory_view self.now)) }
    {
        match value {
            Value::Object(reference) => self.plain_reference(alloc, reference),
            other => Ok(other),
        }
    }

    /// An object as an operand; Item of a Collection must have an argument (449).
    pub fn plain_reference(&self, alloc: Global, reference: ObjRef) -> Result<Value, OrMemory<Bad>>
        ensures { Acts view result (memory_view self.now) (plain_reference reference (memory_view self.now)) }
    {
        match reference {
            ObjRef::Nothing => Err(OrMemory::Fault(Bad::Raise(91))),
            ObjRef::Host(HostRef::ErrObject) => Ok(Value::Long(self.err.number)),
            ObjRef::Host(
                HostRef::Area {
                    sheet,
                    top,
                    left,
                    rows,
                    columns,
                },
            ) => self.value_in_area(alloc, area_in(sheet, top, left, rows, columns)),
            ObjRef::Host(HostRef::Sheets) => Err(OrMemory::Fault(Bad::Raise(449))),
            ObjRef::Heap(_) if self.is_collection(reference) => {
                Err(OrMemory::Fault(Bad::Raise(449)))
            }
            _ => Err(OrMemory::Fault(Bad::Raise(438))),
        }
    }
}

fn is_area(reference: ObjRef) -> bool
    ensures { result ≡ is_area reference }
{
    match reference {
        ObjRef::Host(
            HostRef::Area {
                sheet: _,
                top: _,
                left: _,
                rows: _,
                columns: _,
            },
        ) => true,
        _ => false,
    }
}

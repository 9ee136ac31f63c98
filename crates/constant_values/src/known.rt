//! Values with their declared types.

ghost use Rattle.std.specs.Prelude.{◌≡◌, IfOk};
ghost use Rattle.vba_values.specs.View.{view};
ghost use Rattle.bound_project.specs.View.{declared_view};
ghost use Rattle.declared_names.specs.binder.specs.Constants as plain;
ghost use Rattle.constant_values.specs.View.{known_view, slot_view};

use bound_project::{DeclaredType, ElementType};
use std::alloc::Global;
use vba_base::NoMemory;
use vba_values::{Value, copy_value};

/// A value and its declared type.
pub struct Known {
    pub value: Value,
    pub of: DeclaredType,
}

impl Drop for Known {
    fn drop(self) {
        let Known {
            value: _value,
            of: _of,
        } = self;
    }
}

/// The type of a value. Empty and Null are Variants.
pub fn value_type(value: &Value) -> DeclaredType
    ensures { declared_view result ≡ plain.value_type (view value.now) }
{
    match value {
        Value::Boolean(_) => DeclaredType::Plain(ElementType::Boolean),
        Value::Byte(_) => DeclaredType::Plain(ElementType::Byte),
        Value::Integer(_) => DeclaredType::Plain(ElementType::Integer),
        Value::Long(_) => DeclaredType::Plain(ElementType::Long),
        Value::LongLong(_) => DeclaredType::Plain(ElementType::LongLong),
        Value::Currency(_) => DeclaredType::Plain(ElementType::Currency),
        Value::Text(_) => DeclaredType::Plain(ElementType::Text),
        Value::Object(_) => DeclaredType::Plain(ElementType::Object),
        Value::Empty | Value::Null | Value::Missing | Value::Array(_) | Value::Udt(_) => {
            DeclaredType::Plain(ElementType::Variant)
        }
    }
}

impl Known {
    /// A value with its own type.
    pub fn typed(value: Value) -> Known
        ensures { known_view result ≡ plain.typed (view value) }
    {
        let of = value_type(&value);
        Known { value, of }
    }

    /// The same again.
    pub fn copy(&self, alloc: Global) -> Result<Known, NoMemory>
        ensures { IfOk result (λ copy. known_view copy ≡ known_view self.now) }
    {
        let value = copy_value(alloc, &self.value)?;
        Ok(Known { value, of: self.of })
    }
}

/// A value that may be missing, again.
pub fn copy_slot(alloc: Global, slot: &Option<Known>) -> Result<Option<Known>, NoMemory>
    ensures { IfOk result (λ copy. slot_view copy ≡ slot_view slot.now) }
{
    match slot {
        Some(known) => Ok(Some(known.copy(alloc)?)),
        None => Ok(None),
    }
}

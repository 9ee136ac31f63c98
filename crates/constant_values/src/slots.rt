//! Whether values are the same, as far as values of constant expressions go.

ghost use Rattle.std.specs.Prelude.{◌≡◌};
ghost use Rattle.bound_project.specs.View.{declared_view};
ghost use Rattle.vba_values.specs.View.{view};
ghost use Rattle.constant_values.specs.Slots.{is_nothing, is_same_of, is_same_slot, is_same_value, are_same_slots, are_same_tables};
ghost use Rattle.constant_values.specs.View.{slot_view, slots_view, tables_view};

use crate::known::Known;
use bound_project::DeclaredType;
use vba_values::{ObjRef, Value, is_same_type};

/// Are two declared types the same? No value of a constant expression is an array.
fn is_same_of(one: DeclaredType, other: DeclaredType) -> bool
    ensures { result ≡ is_same_of (declared_view one) (declared_view other) }
{
    match (one, other) {
        (DeclaredType::Plain(one), DeclaredType::Plain(other)) => {
            is_same_type(&one.value_type(), &other.value_type())
        }
        _ => false,
    }
}

/// Is it Nothing?
fn is_nothing(reference: ObjRef) -> bool
    ensures { result ≡ is_nothing reference }
{
    matches!(reference, ObjRef::Nothing)
}

/// Are two values of constant expressions the same?
fn is_same_value(one: &Value, other: &Value) -> bool
    ensures { result ≡ is_same_value (view one.now) (view other.now) }
{
    match (one, other) {
        (Value::Empty, Value::Empty) => true,
        (Value::Null, Value::Null) => true,
        (Value::Boolean(one), Value::Boolean(other)) => one == other,
        (Value::Byte(one), Value::Byte(other)) => one == other,
        (Value::Integer(one), Value::Integer(other)) => one == other,
        (Value::Long(one), Value::Long(other)) => one == other,
        (Value::LongLong(one), Value::LongLong(other)) => one == other,
        (Value::Currency(one), Value::Currency(other)) => one == other,
        (Value::Text(one), Value::Text(other)) => one.units() == other.units(),
        (Value::Object(one), Value::Object(other)) => is_nothing(*one) && is_nothing(*other),
        _ => false,
    }
}

/// Are two values the same, or both missing?
fn is_same_slot(one: &Option<Known>, other: &Option<Known>) -> bool
    ensures { result ≡ is_same_slot (slot_view one.now) (slot_view other.now) }
{
    match (one, other) {
        (None, None) => true,
        (Some(one), Some(other)) => {
            is_same_value(&one.value, &other.value) && is_same_of(one.of, other.of)
        }
        _ => false,
    }
}

/// Are the values of two tables the same?
pub fn are_same_slots(mut slots: &[Option<Known>], mut others: &[Option<Known>]) -> bool
    ensures { result ≡ are_same_slots (slots_view slots.entry.now) (slots_view others.entry.now) }
{
    while let [one, rest @ ..] = slots {
        let [other, left @ ..] = others else {
            return false;
        };
        if !is_same_slot(one, other) {
            return false;
        }
        slots = rest;
        others = left;
    }
    others.is_empty()
}

/// Are the values of all modules the same?
pub fn are_same_tables(mut tables: &[Vec<Option<Known>>], mut others: &[Vec<Option<Known>>]) -> bool
    ensures { result ≡ are_same_tables (tables_view tables.entry.now) (tables_view others.entry.now) }
{
    while let [one, rest @ ..] = tables {
        let [other, left @ ..] = others else {
            return false;
        };
        if !are_same_slots(one, other) {
            return false;
        }
        tables = rest;
        others = left;
    }
    others.is_empty()
}

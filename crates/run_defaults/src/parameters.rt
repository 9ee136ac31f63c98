// Parameters of procedures, and what they have to which nothing is given.
ghost use Rattle.std.specs.Prelude.{◌≡◌, IfOk, map};
ghost use Rattle.vba_values.specs.Types.{declared as declared_type};
ghost use Rattle.vba_values.specs.View.{view};
ghost use Rattle.bound_project.specs.Project.{procedure_at};
ghost use Rattle.bound_project.specs.View.{declarations_view, declared_view, parameter_view};
ghost use Rattle.vba_meaning.specs.Memory.{value as value_slot};
ghost use Rattle.vba_meaning.specs.Effects.{slot_left_out};
ghost use Rattle.vba_meaning.specs.Defaults.{can_be_object, is_object_type, is_sub_kind};
ghost use Rattle.run_memory.specs.View.{slot_view};

use crate::arguments::packed;
use bound_project::{Declarations, DeclaredType, ElementType, Parameter, ProcedureKind};
use run_memory::Slot;
use std::alloc::Global;
use vba_base::NoMemory;
use vba_values::{VType, Value, copy_value};

/// Whether a procedure is a Sub.
pub fn is_sub(declared: &Declarations, procedure: u32) -> bool
    ensures { result ≡ is_sub_kind (procedure_at (declarations_view declared.now) procedure).kind }
{
    match declared.procedures.get(procedure as usize) {
        Some(procedure) => matches!(procedure.kind, ProcedureKind::Sub),
        None => true,
    }
}

/// Whether a declared type is one of objects.
pub fn is_object_type(of: DeclaredType) -> bool
    ensures { result ≡ is_object_type (declared_view of) }
{
    match of {
        DeclaredType::Plain(
            ElementType::Object
            | ElementType::Class(_)
            | ElementType::Collection
            | ElementType::Worksheet
            | ElementType::Range,
        ) => true,
        DeclaredType::Plain(_) | DeclaredType::ArrayOf(_) => false,
    }
}

/// The same of a type as values know it.
pub fn takes_objects(of: &VType) -> bool
    ensures { result ≡ is_object_type (declared_type of.now) }
{
    match of {
        VType::Object | VType::Class(_) | VType::Collection | VType::Worksheet | VType::Range =>
            true,
        VType::Boolean
        | VType::Byte
        | VType::Integer
        | VType::Long
        | VType::LongLong
        | VType::Currency
        | VType::Text
        | VType::FixedText(_)
        | VType::Variant
        | VType::Udt(_)
        | VType::ArrayOf(_) => false,
    }
}

/// Whether a value of this type may be an object.
pub fn can_be_object(of: DeclaredType) -> bool
    ensures { result ≡ can_be_object (declared_view of) }
{
    matches!(of, DeclaredType::Plain(ElementType::Variant)) || is_object_type(of)
}

/// What a parameter has to which nothing is given: a ParamArray an array without elements, another its default.
pub fn left_out(alloc: Global, parameter: &Parameter) -> Result<Slot, NoMemory>
    ensures { IfOk result (λ slot. slot_view slot ≡ slot_left_out (parameter_view parameter.now)) }
{
    let value = value_left_out(alloc, parameter)?;
    Ok(Slot::Value(value))
}

fn value_left_out(alloc: Global, parameter: &Parameter) -> Result<Value, NoMemory>
    ensures { IfOk result (λ given. value_slot (view given) ≡ slot_left_out (parameter_view parameter.now)) }
{
    if parameter.is_param_array {
        return packed(alloc, Vec::new(alloc));
    }
    match &parameter.default {
        Some(value) => copy_value(alloc, value),
        None => Ok(Value::Missing),
    }
}

/// What parameters have to none of which anything is given.
pub fn all_left_out(alloc: Global, parameters: &[Parameter]) -> Result<Vec<Slot>, NoMemory>
    ensures { IfOk result (λ slots. map slot_view slots.items ≡ map slot_left_out (map parameter_view parameters.now)) }
{
    match parameters {
        [] => Ok(Vec::new(alloc)),
        [first, parameters @ ..] => {
            let first = left_out(alloc, first)?;
            let mut slots = all_left_out(alloc, parameters)?;
            slots.insert(0, first)?;
            Ok(slots)
        }
    }
}

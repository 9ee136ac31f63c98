// Objects of classes, their classes and the places of their variables.
ghost use Rattle.std.specs.Prelude.{◌≡◌, IfOk, IfSome, is_some, map, slice_index_or};
ghost use Rattle.vba_values.specs.Val.{object};
ghost use Rattle.vba_values.specs.View.{view};
ghost use Rattle.bound_project.specs.Project.{Declarations as PlainDeclarations, class_at, no_declaration};
ghost use Rattle.bound_project.specs.View.{declaration_view, declarations_view, declared_view};
ghost use Rattle.vba_meaning.specs.Memory.{number_of};
ghost use Rattle.vba_meaning.specs.Defaults.{class_of_value, is_bounded, is_instance, variable_of};
ghost use Rattle.run_memory.specs.View.{memory_view, path_view};

use bound_project::{Declaration, Declarations, DeclaredType, ElementType, fields_of};
use run_memory::{Memory, Path};
use std::alloc::Global;
use vba_base::NoMemory;
use vba_values::{Bound, ObjRef, Value};

/// Whether a value is an object of a class; a Collection is none.
pub fn is_instance(memory: &Memory, value: &Value) -> bool
    ensures { result ≡ is_instance (view value.now) (memory_view memory.now) }
{
    match value {
        Value::Object(reference) => has_class(memory, *reference),
        _ => false,
    }
}

fn has_class(memory: &Memory, reference: ObjRef) -> bool
    ensures { result ≡ is_instance (object reference) (memory_view memory.now) }
{
    match reference {
        ObjRef::Heap(_) => !memory.is_collection(reference),
        ObjRef::Nothing | ObjRef::Host(_) => false,
    }
}

/// The object of a class that a value is.
pub fn instance_in(memory: &Memory, value: &Value) -> Option<ObjRef>
    ensures whether { is_some result ≡ is_instance (view value.now) (memory_view memory.now) }
    ensures there { IfSome result (λ me. view value.now ≡ object me) }
{
    match value {
        Value::Object(reference) if has_class(memory, *reference) => Some(*reference),
        _ => None,
    }
}

/// The number of the class of an object; 0 is that of no class.
pub fn class_of_value(memory: &Memory, value: &Value) -> u32
    ensures { (d : PlainDeclarations) → class_of_value d (view value.now) (memory_view memory.now) ≡ class_at d result }
{
    match value {
        Value::Object(reference) => memory.class_of(*reference),
        _ => 0,
    }
}

fn number_of(value: &Value) -> u32
    ensures { result ≡ number_of (view value.now) }
{
    match value {
        Value::Object(ObjRef::Heap(id)) => id.0,
        _ => 0,
    }
}

/// Where a variable of an object is, by its number, and by the class of which one is made where it is declared As New.
pub fn variable_of(
    memory: &Memory,
    alloc: Global,
    declared: &Declarations,
    base: &Value,
    field: u32,
    makes: Option<u32>,
) -> Result<Path, NoMemory>
    ensures { IfOk result (λ path. path_view path ≡ variable_of (declarations_view declared.now) (view base.now) field makes (memory_view memory.now)) }
{
    let fields = fields_of(declared, class_of_value(memory, base));
    let (of, is_bounded) = type_of_field(fields, field);
    let path = Path::of_instance(alloc, number_of(base), field, of, is_bounded)?;
    match makes {
        Some(class) => Ok(path.making(class)),
        None => Ok(path),
    }
}

/// The declared type of a variable, and whether it is an array declared with bounds.
fn type_of_field(fields: &[Declaration], field: u32) -> (DeclaredType, bool)
    ensures of { declared_view result.0 ≡ (slice_index_or (map declaration_view fields.now) field no_declaration).of }
    ensures bounded { result.1 ≡ is_bounded (slice_index_or (map declaration_view fields.now) field no_declaration).bounds }
{
    match fields.get(field as usize) {
        Some(declaration) => (declaration.of, has_bounds(declaration.bounds.as_slice())),
        None => (DeclaredType::Plain(ElementType::Variant), false),
    }
}

/// Whether an array is declared with bounds.
fn has_bounds(bounds: &[Bound]) -> bool
    ensures { result ≡ is_bounded bounds.now }
{
    match bounds {
        [] => false,
        [_first, _bounds @ ..] => true,
    }
}

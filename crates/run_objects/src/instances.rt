// Objects of classes.
ghost use Rattle.std.specs.Prelude.{◌≡◌, ◌∷◌, ◌++◌, [], ℕ, IfOk, None, OnOk, Some, length, map, option_map};
ghost use Rattle.vba_values.specs.Val.{object};
ghost use Rattle.vba_values.specs.View.{view};
ghost use Rattle.vba_values.specs.declared.object.ObjRef.TheVariants.{Heap};
ghost use Rattle.bound_project.specs.View.{declarations_view, declared_view};
ghost use Rattle.vba_meaning.specs.Memory.{Memory as PlainMemory, top, value_at};
ghost use Rattle.vba_meaning.specs.References.{hold};
ghost use Rattle.vba_meaning.specs.Effects.{Fine};
ghost use Rattle.vba_meaning.specs.Objects.{field_in, made, new_instance, object_there, own_object, stored_made, told_made};
ghost use Rattle.run_memory.specs.Acts.{Acts};
ghost use Rattle.run_memory.specs.Looks.{object_here};
ghost use Rattle.run_memory.specs.View.{memory_view, object_view, path_view};
ghost use Rattle.run_objects.specs.Made.{makes_there};

use bound_project::{Declarations, DeclaredType, fields_of, with_events_of};
use run_memory::{Memory, Object, Path, first_values};
use std::alloc::Global;
use vba_base::{NoMemory, OrMemory};
use vba_values::{Bad, ObjId, ObjRef, Value, copy_value};

/// The set numbers of a new object: none of its WithEvents variables has a source.
fn add_unset(numbers: &mut Vec<(u32, Option<u64>)>, with_events: &[u32]) -> Result<(), NoMemory>
    ensures { OnOk result (numbers.new.items ≡ numbers.old.items ++ map (λ (i : ℕ). (i, None)) with_events.now) }
{
    match with_events {
        [] => Ok(()),
        [first, with_events @ ..] => {
            numbers.push((*first, None))?;
            add_unset(numbers, with_events)
        }
    }
}

/// A new object of a class: its variables have their first values, and none has a source of events.
fn new_instance(alloc: Global, declared: &Declarations, class: u32) -> Result<Object, NoMemory>
    ensures { IfOk result (λ object. object_view object ≡ new_instance (declarations_view declared.now) class) }
{
    let fields = first_values(alloc, declared, fields_of(declared, class))?;
    let mut set_numbers = Vec::new(alloc);
    add_unset(&mut set_numbers, with_events_of(declared, class))?;
    Ok(Object {
        class,
        is_told: class == 0,
        fields,
        keys: Vec::new(alloc),
        set_numbers,
    })
}

/// An object takes the next number.
#[tactic(auto, using(crate::proofs::Objects::object_added, crate::proofs::Objects::as_many_objects))]
fn add_object(objects: &mut Vec<Option<Object>>, object: Object) -> Result<u32, NoMemory>
    ensures number { IfOk result (λ number. number ≡ length (map (option_map object_view) objects.old.items)) }
    ensures added { OnOk result (map (option_map object_view) objects.new.items ≡ map (option_map object_view) objects.old.items ++ Some (object_view object) ∷ []) }
{
    let Ok(number) = u32::try_from(objects.len()) else {
        return Err(NoMemory);
    };
    objects.push(Some(object))?;
    Ok(number)
}

/// The statement holds a counted object.
fn hold_object(memory: &mut Memory, alloc: Global, number: u32) -> Result<(), NoMemory>
    ensures { OnOk result (memory_view memory.new ≡ hold (object (Heap (record { 0 = number }))) (memory_view memory.old)) }
{
    memory.hold(alloc, &Value::Object(ObjRef::Heap(ObjId(number))))
}

/// A new object of a class takes the next number, and the statement holds it ([MS-VBAL] 5.6.9.5). It is told then.
pub fn made(
    memory: &mut Memory,
    alloc: Global,
    declared: &Declarations,
    class: u32,
) -> Result<u32, NoMemory>
    ensures { IfOk result (λ number. made (declarations_view declared.now) class (memory_view memory.old)
        ≡ told_made class number (Fine (object (Heap (record { 0 = number }))) (memory_view memory.new))) }
{
    let object = new_instance(alloc, declared, class)?;
    let number = add_object(&mut memory.objects, object)?;
    hold_object(memory, alloc, number)?;
    Ok(number)
}

/// The object whose procedure runs, which the statement holds.
pub fn own_object(memory: &mut Memory, alloc: Global) -> Result<Value, NoMemory>
    ensures { IfOk result (λ value. own_object (memory_view memory.old) ≡ Fine (view value) (memory_view memory.new)) }
{
    let value = own_value(memory, alloc)?;
    memory.hold(alloc, &value)?;
    Ok(value)
}

fn own_value(memory: &Memory, alloc: Global) -> Result<Value, NoMemory>
    ensures { IfOk result (λ value. view value ≡ (top (memory_view memory.now)).me) }
{
    if memory.stands {
        copy_value(alloc, &memory.top.me)
    } else {
        Ok(Value::Empty)
    }
}

/// An object of which a procedure is called.
pub fn object_there(value: &Value) -> Result<Value, OrMemory<Bad>>
    ensures { (m : PlainMemory) → Acts view result m (object_there (view value.now) m) }
{
    match value {
        Value::Object(ObjRef::Nothing) => Err(OrMemory::Fault(Bad::Raise(91))),
        Value::Object(reference) => Ok(Value::Object(*reference)),
        _ => Err(OrMemory::Fault(Bad::Raise(424))),
    }
}

/// The place of a variable of an object.
pub fn field_in(
    alloc: Global,
    field: u32,
    of: DeclaredType,
    is_bounded: bool,
    value: &Value,
) -> Result<Path, OrMemory<Bad>>
    ensures { (m : PlainMemory) → Acts path_view result m (field_in field (declared_view of) is_bounded (view value.now) m) }
{
    match value {
        Value::Object(ObjRef::Nothing) => Err(OrMemory::Fault(Bad::Raise(91))),
        Value::Object(ObjRef::Heap(id)) => {
            let path = Path::of_instance(alloc, id.0, field, of, is_bounded)?;
            Ok(path)
        }
        Value::Object(_) => Err(OrMemory::Fault(Bad::Raise(438))),
        _ => Err(OrMemory::Fault(Bad::Raise(424))),
    }
}

/// The class of which a read of a place makes an object first, which it does where there is Nothing.
pub fn made_there(memory: &Memory, alloc: Global, path: &Path) -> Result<Option<u32>, NoMemory>
    ensures { IfOk result (λ class. class ≡ makes_there (path_view path.now).makes (object_here (value_at (memory_view memory.now) (path_view path.now)))) }
{
    let Some(class) = path.makes else {
        return Ok(None);
    };
    match memory.object_there(alloc, path)? {
        Some(ObjRef::Nothing) => Ok(Some(class)),
        _ => Ok(None),
    }
}

/// What was made is stored; Empty says that nothing was.
pub fn stored_made(
    memory: &mut Memory,
    alloc: Global,
    path: &Path,
    value: Value,
) -> Result<(), OrMemory<Bad>>
    ensures { Acts (λ done. done) result (memory_view memory.new) (stored_made (path_view path.now) (view value) (memory_view memory.old)) }
{
    match value {
        Value::Empty => Ok(()),
        other => memory.stored(alloc, path, other),
    }
}

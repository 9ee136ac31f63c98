// Places that numbers lead to: elements of arrays, and items of objects ([MS-VBAL] 5.6.13).
ghost use Rattle.std.specs.Prelude.{◌≡◌, map};
ghost use Rattle.vba_values.specs.Val.{object};
ghost use Rattle.vba_values.specs.View.{view};
ghost use Rattle.vba_meaning.specs.Effects.{Fine, assigned, on_fine, plain, slot_values};
ghost use Rattle.vba_meaning.specs.Host.{assigned_at, item_by, item_written, path_to, place_at};
ghost use Rattle.run_memory.specs.Acts.{Acts};
ghost use Rattle.run_memory.specs.View.{memory_view, path_view, slot_view, step_view};
ghost use Rattle.run_host.specs.Tells.{Tells};
ghost use Rattle.run_host.specs.View.{told_view};

use crate::assigning::{for_nothing, written_default};
use crate::events::Told;
use crate::indexing::item_by;
use run_memory::{Memory, Path, Root, Slot, Step};
use std::alloc::Global;
use vba_base::OrMemory;
use vba_values::{Bad, ObjRef, Value};

/// Where arguments lead: to an array's element, or to the item of an object, which is no variable.
#[tactic(auto, using(crate::proofs::Placed::element_first, crate::proofs::Placed::object_then, crate::proofs::Placed::no_object))]
pub fn place_at(
    memory: &mut Memory,
    alloc: Global,
    path: &Path,
    slots: &[Slot],
) -> Result<Path, OrMemory<Bad>>
    ensures { Acts path_view result (memory_view memory.new) (place_at (path_view path.now) (slot_values (map slot_view slots.now)) (memory_view memory.old)) }
{
    match memory.element_at(alloc, path, slots) {
        Ok(element) => Ok(element),
        Err(fault) => match memory.object_there(alloc, path)? {
            Some(reference) => item_place(memory, alloc, reference, slots),
            None => Err(fault),
        },
    }
}

/// Where the item of an object is.
#[tactic(auto, using(run_memory::proofs::Refused::refused_then))]
fn item_place(
    memory: &mut Memory,
    alloc: Global,
    reference: ObjRef,
    slots: &[Slot],
) -> Result<Path, OrMemory<Bad>>
    ensures { Acts path_view result (memory_view memory.new)
        (on_fine (item_by (object reference) (slot_values (map slot_view slots.now)) (memory_view memory.old)) (λ w m1. Fine (path_to w) m1)) }
{
    let item = item_by(memory, alloc, &Value::Object(reference), slots)?;
    Ok(path_to(alloc, item))
}

/// Where what an index gave lies: an object of the host, or an item.
pub fn path_to(alloc: Global, value: Value) -> Path
    ensures { path_view result ≡ path_to (view value) }
{
    match value {
        Value::Object(ObjRef::Nothing) => Path::of_object(alloc, ObjRef::Nothing),
        Value::Object(ObjRef::Host(of)) => Path::of_object(alloc, ObjRef::Host(of)),
        item => Path::of_item(alloc, item),
    }
}

/// Let at a place: an object gives way to its default value, and of an object that an index gave the default member is
/// written ([MS-VBAL] 5.4.3.8).
#[tactic(auto, using(crate::proofs::Telling::acts_tell))]
pub fn assigned_at(
    memory: &mut Memory,
    alloc: Global,
    path: &Path,
    value: Value,
    told: &mut Told,
) -> Result<(), OrMemory<Bad>>
    ensures { Tells (λ done. done) result (told_view told.old) (told_view told.new) (memory_view memory.new) (assigned_at (path_view path.now) (view value) (memory_view memory.old)) }
{
    match &path.root {
        Root::Object { reference } => {
            let target = Value::Object(*reference);
            written_default(memory, alloc, &target, value, told)
        }
        Root::Item { value: item } => item_written(
            memory,
            alloc,
            item,
            path.steps.as_slice(),
            value,
            told,
        ),
        Root::Frame { .. } | Root::Project { .. } | Root::Instance { .. } | Root::Block { .. } =>
            plain_assigned(memory, alloc, path, value),
    }
}

/// An item of a Collection is assigned to: its default member is written; an element of an array that is one takes the
/// value for nothing.
#[tactic(auto, using(crate::proofs::Telling::acts_tell))]
fn item_written(
    memory: &mut Memory,
    alloc: Global,
    item: &Value,
    steps: &[Step],
    value: Value,
    told: &mut Told,
) -> Result<(), OrMemory<Bad>>
    ensures { Tells (λ done. done) result (told_view told.old) (told_view told.new) (memory_view memory.new) (item_written (view item.now) (map step_view steps.now) (view value) (memory_view memory.old)) }
{
    match steps {
        [] => written_default(memory, alloc, item, value, told),
        [_, ..] => for_nothing(memory, alloc, value),
    }
}

/// A value is assigned to a variable or inside one: an object gives way to its default value.
#[tactic(auto, using(run_memory::proofs::Refused::refused_then))]
fn plain_assigned(
    memory: &mut Memory,
    alloc: Global,
    path: &Path,
    value: Value,
) -> Result<(), OrMemory<Bad>>
    ensures { Acts (λ done. done) result (memory_view memory.new)
        (on_fine (plain (view value) (memory_view memory.old)) (λ w m1. assigned (path_view path.now) w m1)) }
{
    let value = memory.plain(alloc, value)?;
    memory.assigned(alloc, path, value)
}

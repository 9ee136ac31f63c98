// Members of host objects ([MS-VBAL] 5.6.12).
ghost use Rattle.std.specs.Prelude.{◌≡◌, map};
ghost use Rattle.vba_values.specs.View.{view};
ghost use Rattle.bound_project.specs.View.{declarations_view};
ghost use Rattle.vba_meaning.specs.Effects.{slot_values};
ghost use Rattle.vba_meaning.specs.Host.{is_counted, member_begun, member_by, member_called, member_there, object_member};
ghost use Rattle.run_memory.specs.Acts.{Acts};
ghost use Rattle.run_memory.specs.View.{memory_view, slot_view};
ghost use Rattle.run_collections.specs.View.{used_view};
ghost use Rattle.run_host.specs.Members.{collection_begun, member_used};
ghost use Rattle.run_host.specs.Tells.{Tells};
ghost use Rattle.run_host.specs.View.{told_view};

use crate::arguments::as_given;
use crate::counts::{are_places, fits_in, number_of, takes};
use crate::events::Told;
use crate::indexing::{can_index, item_by};
use crate::reading::member_value;
use bound_project::Declarations;
use run_collections::{collection_member, collection_used, takes_in_collection};
use run_memory::{Memory, Slot};
use sheet_host::{HostMember, member_named};
use std::alloc::Global;
use vba_base::OrMemory;
use vba_values::{Bad, HostRef, ObjRef, Value};

/// A use of a member begins, by its folded name and how many arguments are given: 91 for Nothing, 438 where there is no
/// such member, 450 and 449 for too many and too few arguments, 424 for what is no object. What is given is what the
/// arguments index, where the member takes none itself, and else Empty.
#[tactic(auto, using(crate::proofs::Telling::acts_tell))]
pub fn member_there(
    memory: &mut Memory,
    alloc: Global,
    declared: &Declarations,
    name: &[u16],
    given: u32,
    base: &Value,
    told: &mut Told,
) -> Result<Value, OrMemory<Bad>>
    ensures { Tells view result (told_view told.old) (told_view told.new) (memory_view memory.new) (member_there (declarations_view declared.now) name.now given (view base.now) (memory_view memory.old)) }
{
    match base {
        Value::Object(ObjRef::Nothing) => Err(OrMemory::Fault(Bad::Raise(91))),
        Value::Object(ObjRef::Heap(id)) => collection_begun(memory, id.0, name, given),
        Value::Object(ObjRef::Host(of)) => {
            let how = member_named(of, name)?;
            member_begun(memory, alloc, declared, *of, how, given, told)
        }
        _ => Err(OrMemory::Fault(Bad::Raise(424))),
    }
}

/// A use of a member of a counted object begins: nothing is read then.
#[tactic(auto, using(run_memory::proofs::Refused::refused_then))]
fn collection_begun(
    memory: &Memory,
    number: u32,
    name: &[u16],
    given: u32,
) -> Result<Value, OrMemory<Bad>>
    ensures { Acts view result (memory_view memory.now) (collection_begun number name.now given (memory_view memory.now)) }
{
    let how = collection_member(memory, number, name)?;
    fits_in(takes_in_collection(how), given)?;
    Ok(Value::Empty)
}

/// Whether a member is one of a counted object.
pub fn is_counted(base: &Value) -> bool
    ensures { result ≡ is_counted (view base.now) }
{
    matches!(base, Value::Object(ObjRef::Heap(_)))
}

/// A use of a member begins.
fn member_begun(
    memory: &mut Memory,
    alloc: Global,
    declared: &Declarations,
    of: HostRef,
    how: HostMember,
    given: u32,
    told: &mut Told,
) -> Result<Value, OrMemory<Bad>>
    ensures { Tells view result (told_view told.old) (told_view told.new) (memory_view memory.new) (member_begun (declarations_view declared.now) of how given (memory_view memory.old)) }
{
    let number = number_of(how);
    if are_places(&of, how, given as usize) {
        let value = member_value(memory, alloc, declared, of, number, &[], told)?;
        return can_index(value, given);
    }
    fits_in(takes(&of, number), given)?;
    Ok(Value::Empty)
}

/// A member of a host object is read or called, by its folded name, with its arguments and with what was given when that
/// began.
pub fn member_called(
    memory: &mut Memory,
    alloc: Global,
    declared: &Declarations,
    name: &[u16],
    slots: &[Slot],
    base: &Value,
    begun: &Value,
    told: &mut Told,
) -> Result<Value, OrMemory<Bad>>
    ensures { Tells view result (told_view told.old) (told_view told.new) (memory_view memory.new) (member_called (declarations_view declared.now) name.now (slot_values (map slot_view slots.now)) (view base.now) (view begun.now) (memory_view memory.old)) }
{
    match base {
        Value::Object(ObjRef::Host(of)) => {
            let how = member_named(of, name)?;
            member_by(
                memory,
                alloc,
                declared,
                *of,
                how,
                as_given(slots),
                begun,
                told,
            )
        }
        _ => Err(OrMemory::Fault(Bad::Raise(424))),
    }
}

/// A member of a host object.
pub fn member_by(
    memory: &mut Memory,
    alloc: Global,
    declared: &Declarations,
    of: HostRef,
    how: HostMember,
    slots: &[Slot],
    begun: &Value,
    told: &mut Told,
) -> Result<Value, OrMemory<Bad>>
    ensures { Tells view result (told_view told.old) (told_view told.new) (memory_view memory.new) (member_by (declarations_view declared.now) of how (slot_values (map slot_view slots.now)) (view begun.now) (memory_view memory.old)) }
{
    if are_places(&of, how, slots.len()) {
        return item_by(memory, alloc, begun, slots);
    }
    member_value(memory, alloc, declared, of, number_of(how), slots, told)
}

/// A member of a counted object is used, by its folded name, with its arguments: its value, and how many references wait
/// to be let go at once. 424 for what is no counted object.
pub fn object_member(
    memory: &mut Memory,
    alloc: Global,
    name: &[u16],
    slots: &[Slot],
    base: &Value,
) -> Result<(Value, usize), OrMemory<Bad>>
    ensures { Acts used_view result (memory_view memory.new) (object_member name.now (slot_values (map slot_view slots.now)) (view base.now) (memory_view memory.old)) }
{
    match base {
        Value::Object(ObjRef::Heap(id)) => member_used(memory, alloc, id.0, name, slots),
        _ => Err(OrMemory::Fault(Bad::Raise(424))),
    }
}

/// A member of the counted object with a number is used.
#[tactic(auto, using(run_memory::proofs::Refused::refused_then))]
fn member_used(
    memory: &mut Memory,
    alloc: Global,
    number: u32,
    name: &[u16],
    slots: &[Slot],
) -> Result<(Value, usize), OrMemory<Bad>>
    ensures { Acts used_view result (memory_view memory.new) (member_used number name.now (slot_values (map slot_view slots.now)) (memory_view memory.old)) }
{
    let how = collection_member(memory, number, name)?;
    collection_used(memory, alloc, number, how, as_given(slots))
}

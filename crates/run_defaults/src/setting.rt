// What arguments lead to is set, along default members ([MS-VBAL] 5.4.3.9).
ghost use Rattle.std.specs.Prelude.{◌≡◌, IfOk, map};
ghost use Rattle.vba_values.specs.Types.{declared as declared_type};
ghost use Rattle.vba_values.specs.Val.{object};
ghost use Rattle.vba_values.specs.View.{view};
ghost use Rattle.bound_project.specs.View.{class_member_view, declarations_view};
ghost use Rattle.vba_meaning.specs.Memory.{Memory as PlainMemory};
ghost use Rattle.vba_meaning.specs.Effects.{on_fine, slot_values};
ghost use Rattle.vba_meaning.specs.Objects.{set_at};
ghost use Rattle.vba_meaning.specs.Defaults.{after_use, class_of_value, element_by, element_of, goes_by, in_place, leads_on, nothing_more, read_member, read_variable, reader_of, set_along, set_by_member, set_by_reader, set_called_with, set_default, set_item, set_item_of, setter_of};
ghost use Rattle.run_memory.specs.Acts.{Acts};
ghost use Rattle.run_memory.specs.View.{memory_view, path_view, slot_view};
ghost use Rattle.run_host.specs.Tells.{Tells};
ghost use Rattle.run_host.specs.View.{told_view};
ghost use Rattle.run_defaults.specs.Parts.{item_set, set_ends, set_pass};
ghost use Rattle.run_defaults.specs.View.{next_view};

use crate::arguments::slots_from;
use crate::indexing::reader_taking;
use crate::letting::setter_taking;
use crate::looks::{instance_in, variable_of};
use crate::members::{read_member, read_variable};
use crate::next::{Next, calls_then};
use crate::places::{element_by, has_array};
use crate::task::Task;
use bound_project::{Declarations, Member, default_of, last_type, parameters_of, without_last};
use run_host::{Told, item_by};
use run_memory::{Memory, Path, Slot};
use std::alloc::Global;
use vba_base::{NoMemory, OrMemory};
use vba_values::{Bad, ObjRef, VType, Value, copy_type};

/// The Set of a property.
fn setter_of(member: Member) -> Option<u32>
    ensures { result ≡ setter_of (class_member_view member) }
{
    match member {
        Member::Variable { field: _, makes: _ } | Member::Procedure(_) => None,
        Member::Property {
            reads: _,
            lets: _,
            sets,
        } => sets,
    }
}

/// The declared type of the elements of an array.
fn element_of(alloc: Global, value: &Value) -> Result<VType, NoMemory>
    ensures { IfOk result (λ of. declared_type of ≡ element_of (view value.now)) }
{
    match value {
        Value::Array(array) => copy_type(alloc, &array.element),
        _ => Ok(VType::Variant),
    }
}

/// A place is set.
#[tactic(auto, using(run_memory::proofs::Refused::refused_then))]
fn set_at(
    memory: &mut Memory,
    alloc: Global,
    path: &Path,
    value: Value,
) -> Result<Next, OrMemory<Bad>>
    ensures { Acts next_view result (memory_view memory.new) (nothing_more (set_at (path_view path.now) (view value) (memory_view memory.old))) }
{
    memory.set_at(alloc, path, value)?;
    Ok(Next::Gives(Value::Empty))
}

/// A Property Set of an object takes the arguments, and an object by the test of Set.
#[tactic(auto, using(run_memory::proofs::Refused::refused_then))]
fn set_called_with(
    memory: &Memory,
    alloc: Global,
    declared: &Declarations,
    arguments: Vec<Slot>,
    value: &Value,
    me: ObjRef,
    procedure: u32,
) -> Result<Next, OrMemory<Bad>>
    ensures { Acts next_view result (memory_view memory.now)
        (set_called_with (declarations_view declared.now) (view value.now) (slot_values (map slot_view arguments.items)) (object me) procedure (memory_view memory.now)) }
{
    let parameters = parameters_of(declared, procedure);
    let of = last_type(parameters).value_type(alloc)?;
    let mut arguments = slots_from(memory, alloc, without_last(parameters), arguments)?;
    let value = memory.set_object(&of, value)?;
    arguments.push(Slot::Value(value))?;
    Ok(Next::Calls {
        procedure,
        me: Value::Object(me),
        arguments,
        tasks: Vec::new(alloc),
    })
}

/// An item of an object of the host or of a Collection can't be set; an element of an array that nothing keeps takes an
/// object for nothing.
fn set_ends(target: &Value) -> Result<Next, OrMemory<Bad>>
    ensures { (m : PlainMemory) → Acts next_view result m (set_ends (view target.now) m) }
{
    match target {
        Value::Object(_) => Err(OrMemory::Fault(Bad::Raise(438))),
        _ => Ok(Next::Gives(Value::Empty)),
    }
}

/// An object is tested as Set does it, for an item that is there.
#[tactic(auto, using(run_memory::proofs::Refused::refused_then))]
fn item_set(
    memory: &Memory,
    alloc: Global,
    value: &Value,
    target: &Value,
) -> Result<Next, OrMemory<Bad>>
    ensures { Acts next_view result (memory_view memory.now) (item_set (view value.now) (view target.now) (memory_view memory.now)) }
{
    let of = element_of(alloc, target)?;
    memory.set_object(&of, value)?;
    set_ends(target)
}

/// An item of what is no object of a class is set.
#[tactic(auto, using(run_memory::proofs::Refused::refused_then, crate::proofs::Items::set_item_is))]
fn set_item_of(
    memory: &mut Memory,
    alloc: Global,
    arguments: &[Slot],
    value: &Value,
    target: &Value,
) -> Result<Next, OrMemory<Bad>>
    ensures { Acts next_view result (memory_view memory.new)
        (set_item_of (view value.now) (slot_values (map slot_view arguments.now)) (view target.now) (memory_view memory.old)) }
{
    item_by(memory, alloc, target, arguments)?;
    item_set(memory, alloc, value, target)
}

/// An element of the array at a place is set.
#[tactic(auto, using(run_memory::proofs::Refused::refused_then))]
fn set_element(
    memory: &mut Memory,
    alloc: Global,
    path: &Path,
    arguments: &[Slot],
    value: Value,
) -> Result<Next, OrMemory<Bad>>
    ensures { Acts next_view result (memory_view memory.new)
        (on_fine (element_by (path_view path.now) (slot_values (map slot_view arguments.now)) (memory_view memory.old)) (λ p m1. nothing_more (set_at p (view value) m1))) }
{
    let element = element_by(memory, alloc, path, arguments)?;
    set_at(memory, alloc, &element, value)
}

/// What arguments lead to is set, along so many default members more at most.
#[cycle(setting)]
pub fn set_along(
    memory: &mut Memory,
    alloc: Global,
    declared: &Declarations,
    left: u32,
    arguments: Vec<Slot>,
    value: Value,
    target: &Value,
    told: &mut Told,
) -> Result<Next, OrMemory<Bad>>
    ensures { Tells next_view result (told_view told.old) (told_view told.new) (memory_view memory.new)
        (set_along (declarations_view declared.now) left (slot_values (map slot_view arguments.items)) (view value) (view target.now) (memory_view memory.old)) }
{
    match instance_in(memory, target) {
        Some(me) => set_own(memory, alloc, declared, left, arguments, value, me, told),
        None => set_item_of(memory, alloc, arguments.as_slice(), &value, target),
    }
}

/// The same of an object of a class: 438 where that has no default member.
#[cycle(setting)]
#[tactic(auto, using(run_host::proofs::Telling::acts_tell))]
fn set_own(
    memory: &mut Memory,
    alloc: Global,
    declared: &Declarations,
    left: u32,
    arguments: Vec<Slot>,
    value: Value,
    me: ObjRef,
    told: &mut Told,
) -> Result<Next, OrMemory<Bad>>
    ensures { Tells next_view result (told_view told.old) (told_view told.new) (memory_view memory.new)
        (set_by_member (declarations_view declared.now) (view value) (slot_values (map slot_view arguments.items)) (object me)
        (class_of_value (declarations_view declared.now) (object me) (memory_view memory.old)).default
        (λ x m1. set_pass (declarations_view declared.now) left (slot_values (map slot_view arguments.items)) (view value) (object me) x m1) (memory_view memory.old)) }
{
    match default_of(declared, memory.class_of(me)) {
        Some(member) => set_default(
            memory, alloc, declared, left, arguments, value, me, member, told,
        ),
        None => Err(OrMemory::Fault(Bad::Raise(438))),
    }
}

/// A Property Set of the default member takes the arguments and the object, or they go by what reads it.
#[cycle(setting)]
fn set_default(
    memory: &mut Memory,
    alloc: Global,
    declared: &Declarations,
    left: u32,
    arguments: Vec<Slot>,
    value: Value,
    me: ObjRef,
    member: Member,
    told: &mut Told,
) -> Result<Next, OrMemory<Bad>>
    ensures { Tells next_view result (told_view told.old) (told_view told.new) (memory_view memory.new)
        (set_default (declarations_view declared.now) (view value) (slot_values (map slot_view arguments.items)) (object me) (class_member_view member) (setter_of (class_member_view member))
        (λ x m1. set_pass (declarations_view declared.now) left (slot_values (map slot_view arguments.items)) (view value) (object me) x m1) (memory_view memory.old)) }
{
    match setter_taking(declared, setter_of(member)) {
        Some(procedure) => {
            set_called_with(memory, alloc, declared, arguments, &value, me, procedure)
        }
        None => set_by_reader(
            memory, alloc, declared, left, arguments, value, me, member, told,
        ),
    }
}

/// A default member passes the arguments on: 438 where it takes them, and can't be set.
#[cycle(setting)]
fn set_by_reader(
    memory: &mut Memory,
    alloc: Global,
    declared: &Declarations,
    left: u32,
    arguments: Vec<Slot>,
    value: Value,
    me: ObjRef,
    member: Member,
    told: &mut Told,
) -> Result<Next, OrMemory<Bad>>
    ensures { Tells next_view result (told_view told.old) (told_view told.new) (memory_view memory.new)
        (set_by_reader (declarations_view declared.now) (class_member_view member) (reader_of (class_member_view member))
        (λ x m1. set_pass (declarations_view declared.now) left (slot_values (map slot_view arguments.items)) (view value) (object me) x m1) (memory_view memory.old)) }
{
    match reader_taking(declared, member) {
        Some(_) => Err(OrMemory::Fault(Bad::Raise(438))),
        None => set_passed(
            memory, alloc, declared, left, arguments, value, me, member, told,
        ),
    }
}

/// A default member that takes no arguments leads on: 450 where none more may be passed.
#[cycle(setting)]
#[tactic(auto, using(run_host::proofs::Telling::acts_tell))]
fn set_passed(
    memory: &mut Memory,
    alloc: Global,
    declared: &Declarations,
    left: u32,
    arguments: Vec<Slot>,
    value: Value,
    me: ObjRef,
    member: Member,
    told: &mut Told,
) -> Result<Next, OrMemory<Bad>>
    ensures { Tells next_view result (told_view told.old) (told_view told.new) (memory_view memory.new)
        (set_pass (declarations_view declared.now) left (slot_values (map slot_view arguments.items)) (view value) (object me) (class_member_view member) (memory_view memory.old)) }
{
    if left == 0 {
        return Err(OrMemory::Fault(Bad::Raise(450)));
    }
    set_leads(
        memory,
        alloc,
        declared,
        left - 1,
        arguments,
        value,
        me,
        member,
        told,
    )
}

/// The arguments lead to the place of a variable, or to what another member gives.
#[cycle(setting)]
#[tactic(auto, using(run_host::proofs::Telling::acts_tell))]
fn set_leads(
    memory: &mut Memory,
    alloc: Global,
    declared: &Declarations,
    left: u32,
    arguments: Vec<Slot>,
    value: Value,
    me: ObjRef,
    member: Member,
    told: &mut Told,
) -> Result<Next, OrMemory<Bad>>
    ensures { Tells next_view result (told_view told.old) (told_view told.new) (memory_view memory.new)
        (leads_on (declarations_view declared.now) (object me) (slot_values (map slot_view arguments.items)) (λ p m1. nothing_more (set_at p (view value) m1)) (set_item left (slot_values (map slot_view arguments.items)) (view value))
        (λ w m1. set_along (declarations_view declared.now) left (slot_values (map slot_view arguments.items)) (view value) w m1) (class_member_view member) (memory_view memory.old)) }
{
    match member {
        Member::Variable { field, makes } => {
            let path = variable_of(memory, alloc, declared, &Value::Object(me), field, makes)?;
            set_in_place(memory, alloc, declared, left, path, arguments, value, told)
        }
        Member::Procedure(_)
        | Member::Property {
            reads: _,
            lets: _,
            sets: _,
        } => set_read(
            memory, alloc, declared, left, arguments, value, me, member, told,
        ),
    }
}

/// A default member is read, and the arguments lead on from what it gives.
#[cycle(setting)]
fn set_read(
    memory: &mut Memory,
    alloc: Global,
    declared: &Declarations,
    left: u32,
    arguments: Vec<Slot>,
    value: Value,
    me: ObjRef,
    member: Member,
    told: &mut Told,
) -> Result<Next, OrMemory<Bad>>
    ensures { Tells next_view result (told_view told.old) (told_view told.new) (memory_view memory.new)
        (after_use (read_member (declarations_view declared.now) (object me) (class_member_view member) (memory_view memory.old)) (set_item left (slot_values (map slot_view arguments.items)) (view value))
        (λ w m1. set_along (declarations_view declared.now) left (slot_values (map slot_view arguments.items)) (view value) w m1)) }
{
    let next = read_member(memory, alloc, declared, me, member, told)?;
    set_next(memory, alloc, declared, left, arguments, value, next, told)
}

/// An element of the array at a place is set; of anything else what is there is read, and the arguments lead on.
#[cycle(setting)]
#[tactic(auto, using(run_host::proofs::Telling::acts_tell))]
pub fn set_in_place(
    memory: &mut Memory,
    alloc: Global,
    declared: &Declarations,
    left: u32,
    path: Path,
    arguments: Vec<Slot>,
    value: Value,
    told: &mut Told,
) -> Result<Next, OrMemory<Bad>>
    ensures { Tells next_view result (told_view told.old) (told_view told.new) (memory_view memory.new)
        (in_place (declarations_view declared.now) (path_view path) (slot_values (map slot_view arguments.items)) (λ p m1. nothing_more (set_at p (view value) m1))
        (set_item left (slot_values (map slot_view arguments.items)) (view value))
        (λ w m1. set_along (declarations_view declared.now) left (slot_values (map slot_view arguments.items)) (view value) w m1) (memory_view memory.old)) }
{
    let is_array = has_array(memory, alloc, &path)?;
    if is_array {
        return set_element(memory, alloc, &path, arguments.as_slice(), value);
    }
    set_there(memory, alloc, declared, left, path, arguments, value, told)
}

/// What is at a place is read, and the arguments lead on from that.
#[cycle(setting)]
fn set_there(
    memory: &mut Memory,
    alloc: Global,
    declared: &Declarations,
    left: u32,
    path: Path,
    arguments: Vec<Slot>,
    value: Value,
    told: &mut Told,
) -> Result<Next, OrMemory<Bad>>
    ensures { Tells next_view result (told_view told.old) (told_view told.new) (memory_view memory.new)
        (after_use (read_variable (declarations_view declared.now) (path_view path) (memory_view memory.old)) (set_item left (slot_values (map slot_view arguments.items)) (view value))
        (λ w m1. set_along (declarations_view declared.now) left (slot_values (map slot_view arguments.items)) (view value) w m1)) }
{
    let next = read_variable(memory, alloc, declared, path, told)?;
    set_next(memory, alloc, declared, left, arguments, value, next, told)
}

/// The arguments lead on from what a use gives at once or once it was called.
#[cycle(setting)]
#[tactic(auto, using(run_host::proofs::Telling::acts_tell))]
fn set_next(
    memory: &mut Memory,
    alloc: Global,
    declared: &Declarations,
    left: u32,
    arguments: Vec<Slot>,
    value: Value,
    next: Next,
    told: &mut Told,
) -> Result<Next, OrMemory<Bad>>
    ensures { Tells next_view result (told_view told.old) (told_view told.new) (memory_view memory.new)
        (goes_by (set_item left (slot_values (map slot_view arguments.items)) (view value))
        (λ w m1. set_along (declarations_view declared.now) left (slot_values (map slot_view arguments.items)) (view value) w m1) (next_view next) (memory_view memory.old)) }
{
    match next {
        Next::Gives(target) => {
            set_along(
                memory, alloc, declared, left, arguments, value, &target, told,
            )
        }
        Next::Calls {
            procedure,
            me,
            arguments: own,
            tasks,
        } => {
            let task = Task::SetItem {
                left,
                arguments,
                value,
            };
            let next = calls_then(procedure, me, own, tasks, task)?;
            Ok(next)
        }
    }
}

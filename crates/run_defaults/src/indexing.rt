// Arguments that index a value along default members.
ghost use Rattle.std.specs.Prelude.{◌≡◌, map};
ghost use Rattle.vba_values.specs.Val.{object};
ghost use Rattle.vba_values.specs.View.{view};
ghost use Rattle.bound_project.specs.View.{class_member_view, declarations_view};
ghost use Rattle.vba_meaning.specs.Effects.{slot_values};
ghost use Rattle.vba_meaning.specs.Host.{item_by};
ghost use Rattle.vba_meaning.specs.Defaults.{class_of_value, goes_by, index_along, index_by, index_default, index_member, item_along, over_with, reader_of};
ghost use Rattle.run_memory.specs.Acts.{Acts};
ghost use Rattle.run_memory.specs.View.{memory_view, path_view, slot_view};
ghost use Rattle.run_host.specs.Tells.{Tells};
ghost use Rattle.run_host.specs.View.{told_view};
ghost use Rattle.run_defaults.specs.Parts.{called_with, index_pass, reader_taking};
ghost use Rattle.run_defaults.specs.View.{next_view};

use crate::arguments::slots_from;
use crate::looks::instance_in;
use crate::members::{read_member, read_variable};
use crate::next::{Next, calls_then};
use crate::task::Task;
use bound_project::{Declarations, MOST_PASSED, Member, default_of, has_parameters, parameters_of};
use run_host::{Told, item_by};
use run_memory::{Memory, Path, Slot};
use std::alloc::Global;
use vba_base::OrMemory;
use vba_values::{Bad, ObjRef, Value};

/// The procedure that reads a member.
fn reader_of(member: Member) -> Option<u32>
    ensures { result ≡ reader_of (class_member_view member) }
{
    match member {
        Member::Variable { field: _, makes: _ } => None,
        Member::Procedure(procedure) => Some(procedure),
        Member::Property {
            reads,
            lets: _,
            sets: _,
        } => reads,
    }
}

/// The same where it takes arguments.
pub fn reader_taking(declared: &Declarations, member: Member) -> Option<u32>
    ensures { result ≡ reader_taking (declarations_view declared.now) (class_member_view member) }
{
    let procedure = reader_of(member)?;
    if has_parameters(parameters_of(declared, procedure)) {
        Some(procedure)
    } else {
        None
    }
}

/// A procedure of an object is called with these arguments.
#[tactic(auto, using(run_memory::proofs::Refused::refused_then))]
fn called_with(
    memory: &Memory,
    alloc: Global,
    declared: &Declarations,
    procedure: u32,
    arguments: Vec<Slot>,
    me: ObjRef,
) -> Result<Next, OrMemory<Bad>>
    ensures { Acts next_view result (memory_view memory.now) (called_with (declarations_view declared.now) (slot_values (map slot_view arguments.items)) (object me) procedure (memory_view memory.now)) }
{
    let parameters = parameters_of(declared, procedure);
    let arguments = slots_from(memory, alloc, parameters, arguments)?;
    Ok(Next::Calls {
        procedure,
        me: Value::Object(me),
        arguments,
        tasks: Vec::new(alloc),
    })
}

/// An item of a value that is no object of a class.
#[tactic(auto, using(run_memory::proofs::Refused::refused_then))]
fn item_given(
    memory: &mut Memory,
    alloc: Global,
    value: &Value,
    arguments: &[Slot],
) -> Result<Next, OrMemory<Bad>>
    ensures { Acts next_view result (memory_view memory.new) (over_with (item_by (view value.now) (slot_values (map slot_view arguments.now)) (memory_view memory.old))) }
{
    let item = item_by(memory, alloc, value, arguments)?;
    Ok(Next::Gives(item))
}

/// What arguments lead to: an element of an array, an item of an object, or what a default member gives, which takes them
/// itself or passes them on, along so many more at most.
#[cycle(indexing)]
pub fn index_along(
    memory: &mut Memory,
    alloc: Global,
    declared: &Declarations,
    left: u32,
    arguments: Vec<Slot>,
    value: &Value,
    told: &mut Told,
) -> Result<Next, OrMemory<Bad>>
    ensures { Tells next_view result (told_view told.old) (told_view told.new) (memory_view memory.new) (index_along (declarations_view declared.now) left (slot_values (map slot_view arguments.items)) (view value.now) (memory_view memory.old)) }
{
    match instance_in(memory, value) {
        Some(me) => index_own(memory, alloc, declared, left, arguments, me, told),
        None => item_given(memory, alloc, value, arguments.as_slice()),
    }
}

/// The same of an object of a class: 438 where that has no default member.
#[cycle(indexing)]
#[tactic(auto, using(run_host::proofs::Telling::acts_tell))]
fn index_own(
    memory: &mut Memory,
    alloc: Global,
    declared: &Declarations,
    left: u32,
    arguments: Vec<Slot>,
    me: ObjRef,
    told: &mut Told,
) -> Result<Next, OrMemory<Bad>>
    ensures { Tells next_view result (told_view told.old) (told_view told.new) (memory_view memory.new)
        (index_member (declarations_view declared.now) (object me) (slot_values (map slot_view arguments.items)) (class_of_value (declarations_view declared.now) (object me) (memory_view memory.old)).default
        (λ x m1. index_pass (declarations_view declared.now) left (slot_values (map slot_view arguments.items)) (object me) x m1) (memory_view memory.old)) }
{
    match default_of(declared, memory.class_of(me)) {
        Some(member) => index_default(memory, alloc, declared, left, arguments, me, member, told),
        None => Err(OrMemory::Fault(Bad::Raise(438))),
    }
}

/// A default member takes the arguments itself, or passes them on.
#[cycle(indexing)]
fn index_default(
    memory: &mut Memory,
    alloc: Global,
    declared: &Declarations,
    left: u32,
    arguments: Vec<Slot>,
    me: ObjRef,
    member: Member,
    told: &mut Told,
) -> Result<Next, OrMemory<Bad>>
    ensures { Tells next_view result (told_view told.old) (told_view told.new) (memory_view memory.new)
        (index_default (declarations_view declared.now) (object me) (slot_values (map slot_view arguments.items)) (class_member_view member)
        (λ x m1. index_pass (declarations_view declared.now) left (slot_values (map slot_view arguments.items)) (object me) x m1) (memory_view memory.old)) }
{
    match reader_taking(declared, member) {
        Some(procedure) => called_with(memory, alloc, declared, procedure, arguments, me),
        None => index_passed(memory, alloc, declared, left, arguments, me, member, told),
    }
}

/// A default member that takes no arguments is read, and they index what it gives: 450 where none more may be passed.
#[cycle(indexing)]
fn index_passed(
    memory: &mut Memory,
    alloc: Global,
    declared: &Declarations,
    left: u32,
    arguments: Vec<Slot>,
    me: ObjRef,
    member: Member,
    told: &mut Told,
) -> Result<Next, OrMemory<Bad>>
    ensures { Tells next_view result (told_view told.old) (told_view told.new) (memory_view memory.new)
        (index_pass (declarations_view declared.now) left (slot_values (map slot_view arguments.items)) (object me) (class_member_view member) (memory_view memory.old)) }
{
    if left == 0 {
        return Err(OrMemory::Fault(Bad::Raise(450)));
    }
    let next = read_member(memory, alloc, declared, me, member, told)?;
    index_next(memory, alloc, declared, left - 1, arguments, next, told)
}

/// Arguments index what a use gives at once or once it was called.
#[cycle(indexing)]
#[tactic(auto, using(run_host::proofs::Telling::acts_tell))]
fn index_next(
    memory: &mut Memory,
    alloc: Global,
    declared: &Declarations,
    left: u32,
    arguments: Vec<Slot>,
    next: Next,
    told: &mut Told,
) -> Result<Next, OrMemory<Bad>>
    ensures { Tells next_view result (told_view told.old) (told_view told.new) (memory_view memory.new)
        (goes_by (index_by left (slot_values (map slot_view arguments.items))) (λ u m1. index_along (declarations_view declared.now) left (slot_values (map slot_view arguments.items)) u m1)
        (next_view next) (memory_view memory.old)) }
{
    match next {
        Next::Gives(value) => {
            index_along(memory, alloc, declared, left, arguments, &value, told)
        }
        Next::Calls {
            procedure,
            me,
            arguments: own,
            tasks,
        } => {
            let task = Task::IndexBy { left, arguments };
            let next = calls_then(procedure, me, own, tasks, task)?;
            Ok(next)
        }
    }
}

/// Arguments index what is at a place.
pub fn item_along(
    memory: &mut Memory,
    alloc: Global,
    declared: &Declarations,
    path: Path,
    arguments: Vec<Slot>,
    told: &mut Told,
) -> Result<Next, OrMemory<Bad>>
    ensures { Tells next_view result (told_view told.old) (told_view told.new) (memory_view memory.new) (item_along (declarations_view declared.now) (path_view path) (slot_values (map slot_view arguments.items)) (memory_view memory.old)) }
{
    let next = read_variable(memory, alloc, declared, path, told)?;
    index_next(memory, alloc, declared, MOST_PASSED, arguments, next, told)
}

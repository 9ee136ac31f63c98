// What arguments lead to takes a value, along default members ([MS-VBAL] 5.4.3.8).
ghost use Rattle.std.specs.Prelude.{◌≡◌, map};
ghost use Rattle.vba_values.specs.Val.{object};
ghost use Rattle.vba_values.specs.View.{view};
ghost use Rattle.bound_project.specs.View.{class_member_view, declarations_view};
ghost use Rattle.vba_meaning.specs.Effects.{on_fine, slot_values};
ghost use Rattle.vba_meaning.specs.Defaults.{after_use, class_of_value, element_by, goes_by, in_place, leads_on, let_along, let_at, let_by_reader, let_called_with, let_default, let_item, let_item_of, let_member, let_setter, read_member, read_variable, reader_of};
ghost use Rattle.run_memory.specs.Acts.{Acts};
ghost use Rattle.run_memory.specs.View.{memory_view, path_view, slot_view};
ghost use Rattle.run_host.specs.Tells.{Tells};
ghost use Rattle.run_host.specs.View.{told_view};
ghost use Rattle.run_defaults.specs.Parts.{item_takes, let_pass, let_put, let_through, setter_taking};
ghost use Rattle.run_defaults.specs.View.{next_view};

use crate::arguments::slots_from;
use crate::indexing::reader_taking;
use crate::looks::{instance_in, variable_of};
use crate::members::{read_member, read_variable};
use crate::next::{Next, calls_then};
use crate::operands::operand_of;
use crate::parameters::takes_objects;
use crate::places::{element_by, has_array};
use crate::putting::put;
use crate::spot::Spot;
use crate::task::Task;
use crate::writing::{write_along, write_next};
use bound_project::{
    Declarations, MOST_PASSED, Member, default_of, has_parameters, parameters_of, without_last,
};
use run_host::{Told, item_by};
use run_memory::{Memory, Path, Slot};
use std::alloc::Global;
use vba_base::OrMemory;
use vba_values::{Bad, ObjRef, Value};

/// A place takes a value: one of an object type has the default member of its object written.
pub fn let_at(
    memory: &mut Memory,
    alloc: Global,
    declared: &Declarations,
    path: Path,
    value: Value,
    told: &mut Told,
) -> Result<Next, OrMemory<Bad>>
    ensures { Tells next_view result (told_view told.old) (told_view told.new) (memory_view memory.new) (let_at (declarations_view declared.now) (path_view path) (view value) (memory_view memory.old)) }
{
    if takes_objects(&path.of) {
        return let_through(memory, alloc, declared, path, value, told);
    }
    put(memory, alloc, declared, Spot::Variable(path), value, told)
}

/// The default member of the object at a place is written.
fn let_through(
    memory: &mut Memory,
    alloc: Global,
    declared: &Declarations,
    path: Path,
    value: Value,
    told: &mut Told,
) -> Result<Next, OrMemory<Bad>>
    ensures { Tells next_view result (told_view told.old) (told_view told.new) (memory_view memory.new) (let_through (declarations_view declared.now) (path_view path) (view value) (memory_view memory.old)) }
{
    let next = read_variable(memory, alloc, declared, path, told)?;
    write_next(memory, alloc, declared, MOST_PASSED, value, next, told)
}

/// The Let of a property.
fn let_setter(member: Member) -> Option<u32>
    ensures { result ≡ let_setter (class_member_view member) }
{
    match member {
        Member::Variable { field: _, makes: _ } | Member::Procedure(_) => None,
        Member::Property {
            reads: _,
            lets,
            sets: _,
        } => lets,
    }
}

/// A procedure that takes arguments besides the value that it is given.
pub fn setter_taking(declared: &Declarations, procedure: Option<u32>) -> Option<u32>
    ensures { result ≡ setter_taking (declarations_view declared.now) procedure }
{
    let procedure = procedure?;
    if has_parameters(without_last(parameters_of(declared, procedure))) {
        Some(procedure)
    } else {
        None
    }
}

/// A Property Let of an object takes the arguments and the value.
fn let_put(
    memory: &mut Memory,
    alloc: Global,
    declared: &Declarations,
    arguments: Vec<Slot>,
    value: Value,
    me: ObjRef,
    procedure: u32,
    told: &mut Told,
) -> Result<Next, OrMemory<Bad>>
    ensures { Tells next_view result (told_view told.old) (told_view told.new) (memory_view memory.new)
        (let_put (declarations_view declared.now) (view value) (slot_values (map slot_view arguments.items)) (object me) procedure (memory_view memory.old)) }
{
    let parameters = without_last(parameters_of(declared, procedure));
    let arguments = slots_from(memory, alloc, parameters, arguments)?;
    let spot = Spot::of_let(procedure, me, arguments);
    put(memory, alloc, declared, spot, value, told)
}

/// A Get or Function takes the arguments, and the default member of the object that it gives is written.
#[tactic(auto, using(run_memory::proofs::Refused::refused_then))]
fn let_called_with(
    memory: &Memory,
    alloc: Global,
    declared: &Declarations,
    arguments: Vec<Slot>,
    value: Value,
    me: ObjRef,
    procedure: u32,
) -> Result<Next, OrMemory<Bad>>
    ensures { Acts next_view result (memory_view memory.now)
        (let_called_with (declarations_view declared.now) (view value) (slot_values (map slot_view arguments.items)) (object me) procedure (memory_view memory.now)) }
{
    let parameters = parameters_of(declared, procedure);
    let arguments = slots_from(memory, alloc, parameters, arguments)?;
    let mut tasks = Vec::new(alloc);
    tasks.push(Task::Write {
        left: MOST_PASSED,
        value,
    })?;
    Ok(Next::Calls {
        procedure,
        me: Value::Object(me),
        arguments,
        tasks,
    })
}

/// An item of an object has its default member written; an element of an array that nothing keeps takes the value for
/// nothing.
fn item_takes(
    memory: &mut Memory,
    alloc: Global,
    declared: &Declarations,
    value: Value,
    target: &Value,
    item: &Value,
    told: &mut Told,
) -> Result<Next, OrMemory<Bad>>
    ensures { Tells next_view result (told_view told.old) (told_view told.new) (memory_view memory.new)
        (item_takes (declarations_view declared.now) (view value) (view target.now) (view item.now) (memory_view memory.old)) }
{
    match target {
        Value::Object(_) => write_along(memory, alloc, declared, MOST_PASSED, value, item, told),
        _ => operand_of(memory, alloc, declared, value, told),
    }
}

/// An item of what is no object of a class takes a value.
fn let_item_of(
    memory: &mut Memory,
    alloc: Global,
    declared: &Declarations,
    arguments: &[Slot],
    value: Value,
    target: &Value,
    told: &mut Told,
) -> Result<Next, OrMemory<Bad>>
    ensures { Tells next_view result (told_view told.old) (told_view told.new) (memory_view memory.new)
        (let_item_of (declarations_view declared.now) (view value) (slot_values (map slot_view arguments.now)) (view target.now) (memory_view memory.old)) }
{
    let item = item_by(memory, alloc, target, arguments)?;
    item_takes(memory, alloc, declared, value, target, &item, told)
}

/// An element of the array at a place takes a value.
fn let_element(
    memory: &mut Memory,
    alloc: Global,
    declared: &Declarations,
    path: &Path,
    arguments: &[Slot],
    value: Value,
    told: &mut Told,
) -> Result<Next, OrMemory<Bad>>
    ensures { Tells next_view result (told_view told.old) (told_view told.new) (memory_view memory.new)
        (on_fine (element_by (path_view path.now) (slot_values (map slot_view arguments.now)) (memory_view memory.old)) (λ p m1. let_at (declarations_view declared.now) p (view value) m1)) }
{
    let element = element_by(memory, alloc, path, arguments)?;
    let_at(memory, alloc, declared, element, value, told)
}

/// What arguments lead to takes a value, along so many default members more at most.
#[cycle(letting)]
pub fn let_along(
    memory: &mut Memory,
    alloc: Global,
    declared: &Declarations,
    left: u32,
    arguments: Vec<Slot>,
    value: Value,
    target: &Value,
    told: &mut Told,
) -> Result<Next, OrMemory<Bad>>
    ensures { Tells next_view result (told_view told.old) (told_view told.new) (memory_view memory.new)
        (let_along (declarations_view declared.now) left (slot_values (map slot_view arguments.items)) (view value) (view target.now) (memory_view memory.old)) }
{
    match instance_in(memory, target) {
        Some(me) => let_own(memory, alloc, declared, left, arguments, value, me, told),
        None => let_item_of(
            memory,
            alloc,
            declared,
            arguments.as_slice(),
            value,
            target,
            told,
        ),
    }
}

/// The same of an object of a class: 438 where that has no default member.
#[cycle(letting)]
#[tactic(auto, using(run_host::proofs::Telling::acts_tell))]
fn let_own(
    memory: &mut Memory,
    alloc: Global,
    declared: &Declarations,
    left: u32,
    arguments: Vec<Slot>,
    value: Value,
    me: ObjRef,
    told: &mut Told,
) -> Result<Next, OrMemory<Bad>>
    ensures { Tells next_view result (told_view told.old) (told_view told.new) (memory_view memory.new)
        (let_member (declarations_view declared.now) (view value) (slot_values (map slot_view arguments.items)) (object me)
        (class_of_value (declarations_view declared.now) (object me) (memory_view memory.old)).default
        (λ x m1. let_pass (declarations_view declared.now) left (slot_values (map slot_view arguments.items)) (view value) (object me) x m1) (memory_view memory.old)) }
{
    match default_of(declared, memory.class_of(me)) {
        Some(member) => let_default(
            memory, alloc, declared, left, arguments, value, me, member, told,
        ),
        None => Err(OrMemory::Fault(Bad::Raise(438))),
    }
}

/// A Property Let of the default member takes the arguments and the value, or they go by what reads it.
#[cycle(letting)]
fn let_default(
    memory: &mut Memory,
    alloc: Global,
    declared: &Declarations,
    left: u32,
    arguments: Vec<Slot>,
    value: Value,
    me: ObjRef,
    member: Member,
    told: &mut Told,
) -> Result<Next, OrMemory<Bad>>
    ensures { Tells next_view result (told_view told.old) (told_view told.new) (memory_view memory.new)
        (let_default (declarations_view declared.now) (view value) (slot_values (map slot_view arguments.items)) (object me) (class_member_view member) (let_setter (class_member_view member))
        (λ x m1. let_pass (declarations_view declared.now) left (slot_values (map slot_view arguments.items)) (view value) (object me) x m1) (memory_view memory.old)) }
{
    match setter_taking(declared, let_setter(member)) {
        Some(procedure) => let_put(
            memory, alloc, declared, arguments, value, me, procedure, told,
        ),
        None => let_by_reader(
            memory, alloc, declared, left, arguments, value, me, member, told,
        ),
    }
}

/// A Get or Function takes the arguments, or the default member passes them on.
#[cycle(letting)]
fn let_by_reader(
    memory: &mut Memory,
    alloc: Global,
    declared: &Declarations,
    left: u32,
    arguments: Vec<Slot>,
    value: Value,
    me: ObjRef,
    member: Member,
    told: &mut Told,
) -> Result<Next, OrMemory<Bad>>
    ensures { Tells next_view result (told_view told.old) (told_view told.new) (memory_view memory.new)
        (let_by_reader (declarations_view declared.now) (view value) (slot_values (map slot_view arguments.items)) (object me) (class_member_view member) (reader_of (class_member_view member))
        (λ x m1. let_pass (declarations_view declared.now) left (slot_values (map slot_view arguments.items)) (view value) (object me) x m1) (memory_view memory.old)) }
{
    match reader_taking(declared, member) {
        Some(procedure) => {
            let_called_with(memory, alloc, declared, arguments, value, me, procedure)
        }
        None => let_passed(
            memory, alloc, declared, left, arguments, value, me, member, told,
        ),
    }
}

/// A default member that takes no arguments leads on: 450 where none more may be passed.
#[cycle(letting)]
#[tactic(auto, using(run_host::proofs::Telling::acts_tell))]
fn let_passed(
    memory: &mut Memory,
    alloc: Global,
    declared: &Declarations,
    left: u32,
    arguments: Vec<Slot>,
    value: Value,
    me: ObjRef,
    member: Member,
    told: &mut Told,
) -> Result<Next, OrMemory<Bad>>
    ensures { Tells next_view result (told_view told.old) (told_view told.new) (memory_view memory.new)
        (let_pass (declarations_view declared.now) left (slot_values (map slot_view arguments.items)) (view value) (object me) (class_member_view member) (memory_view memory.old)) }
{
    if left == 0 {
        return Err(OrMemory::Fault(Bad::Raise(450)));
    }
    let_leads(
        memory,
        alloc,
        declared,
        left - 1,
        arguments,
        value,
        me,
        member,
        told,
    )
}

/// The arguments lead to the place of a variable, or to what another member gives.
#[cycle(letting)]
#[tactic(auto, using(run_host::proofs::Telling::acts_tell))]
fn let_leads(
    memory: &mut Memory,
    alloc: Global,
    declared: &Declarations,
    left: u32,
    arguments: Vec<Slot>,
    value: Value,
    me: ObjRef,
    member: Member,
    told: &mut Told,
) -> Result<Next, OrMemory<Bad>>
    ensures { Tells next_view result (told_view told.old) (told_view told.new) (memory_view memory.new)
        (leads_on (declarations_view declared.now) (object me) (slot_values (map slot_view arguments.items)) (λ p m1. let_at (declarations_view declared.now) p (view value) m1) (let_item left (slot_values (map slot_view arguments.items)) (view value))
        (λ w m1. let_along (declarations_view declared.now) left (slot_values (map slot_view arguments.items)) (view value) w m1) (class_member_view member) (memory_view memory.old)) }
{
    match member {
        Member::Variable { field, makes } => {
            let path = variable_of(memory, alloc, declared, &Value::Object(me), field, makes)?;
            let_in_place(memory, alloc, declared, left, path, arguments, value, told)
        }
        Member::Procedure(_)
        | Member::Property {
            reads: _,
            lets: _,
            sets: _,
        } => let_read(
            memory, alloc, declared, left, arguments, value, me, member, told,
        ),
    }
}

/// A default member is read, and the arguments lead on from what it gives.
#[cycle(letting)]
fn let_read(
    memory: &mut Memory,
    alloc: Global,
    declared: &Declarations,
    left: u32,
    arguments: Vec<Slot>,
    value: Value,
    me: ObjRef,
    member: Member,
    told: &mut Told,
) -> Result<Next, OrMemory<Bad>>
    ensures { Tells next_view result (told_view told.old) (told_view told.new) (memory_view memory.new)
        (after_use (read_member (declarations_view declared.now) (object me) (class_member_view member) (memory_view memory.old)) (let_item left (slot_values (map slot_view arguments.items)) (view value))
        (λ w m1. let_along (declarations_view declared.now) left (slot_values (map slot_view arguments.items)) (view value) w m1)) }
{
    let next = read_member(memory, alloc, declared, me, member, told)?;
    let_next(memory, alloc, declared, left, arguments, value, next, told)
}

/// An element of the array at a place takes a value; of anything else what is there is read, and the arguments lead on.
#[cycle(letting)]
#[tactic(auto, using(run_host::proofs::Telling::acts_tell))]
pub fn let_in_place(
    memory: &mut Memory,
    alloc: Global,
    declared: &Declarations,
    left: u32,
    path: Path,
    arguments: Vec<Slot>,
    value: Value,
    told: &mut Told,
) -> Result<Next, OrMemory<Bad>>
    ensures { Tells next_view result (told_view told.old) (told_view told.new) (memory_view memory.new)
        (in_place (declarations_view declared.now) (path_view path) (slot_values (map slot_view arguments.items)) (λ p m1. let_at (declarations_view declared.now) p (view value) m1)
        (let_item left (slot_values (map slot_view arguments.items)) (view value))
        (λ w m1. let_along (declarations_view declared.now) left (slot_values (map slot_view arguments.items)) (view value) w m1) (memory_view memory.old)) }
{
    let is_array = has_array(memory, alloc, &path)?;
    if is_array {
        return let_element(
            memory,
            alloc,
            declared,
            &path,
            arguments.as_slice(),
            value,
            told,
        );
    }
    let_there(memory, alloc, declared, left, path, arguments, value, told)
}

/// What is at a place is read, and the arguments lead on from that.
#[cycle(letting)]
fn let_there(
    memory: &mut Memory,
    alloc: Global,
    declared: &Declarations,
    left: u32,
    path: Path,
    arguments: Vec<Slot>,
    value: Value,
    told: &mut Told,
) -> Result<Next, OrMemory<Bad>>
    ensures { Tells next_view result (told_view told.old) (told_view told.new) (memory_view memory.new)
        (after_use (read_variable (declarations_view declared.now) (path_view path) (memory_view memory.old)) (let_item left (slot_values (map slot_view arguments.items)) (view value))
        (λ w m1. let_along (declarations_view declared.now) left (slot_values (map slot_view arguments.items)) (view value) w m1)) }
{
    let next = read_variable(memory, alloc, declared, path, told)?;
    let_next(memory, alloc, declared, left, arguments, value, next, told)
}

/// The arguments lead on from what a use gives at once or once it was called.
#[cycle(letting)]
#[tactic(auto, using(run_host::proofs::Telling::acts_tell))]
fn let_next(
    memory: &mut Memory,
    alloc: Global,
    declared: &Declarations,
    left: u32,
    arguments: Vec<Slot>,
    value: Value,
    next: Next,
    told: &mut Told,
) -> Result<Next, OrMemory<Bad>>
    ensures { Tells next_view result (told_view told.old) (told_view told.new) (memory_view memory.new)
        (goes_by (let_item left (slot_values (map slot_view arguments.items)) (view value))
        (λ w m1. let_along (declarations_view declared.now) left (slot_values (map slot_view arguments.items)) (view value) w m1) (next_view next) (memory_view memory.old)) }
{
    match next {
        Next::Gives(target) => {
            let_along(
                memory, alloc, declared, left, arguments, value, &target, told,
            )
        }
        Next::Calls {
            procedure,
            me,
            arguments: own,
            tasks,
        } => {
            let task = Task::LetItem {
                left,
                arguments,
                value,
            };
            let next = calls_then(procedure, me, own, tasks, task)?;
            Ok(next)
        }
    }
}

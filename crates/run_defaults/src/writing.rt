// Default members that are written.
ghost use Rattle.std.specs.Prelude.{◌≡◌};
ghost use Rattle.vba_values.specs.Val.{object};
ghost use Rattle.vba_values.specs.View.{view};
ghost use Rattle.bound_project.specs.Project.{is_variable};
ghost use Rattle.bound_project.specs.View.{class_member_view, declarations_view};
ghost use Rattle.vba_meaning.specs.Defaults.{class_of_value, goes_by, takes_value, write, write_along, write_default, variable_of, write_host, write_let, write_member, write_variable};
ghost use Rattle.run_memory.specs.View.{memory_view};
ghost use Rattle.run_host.specs.Tells.{Tells};
ghost use Rattle.run_host.specs.View.{told_view};
ghost use Rattle.run_defaults.specs.Parts.{write_pass};
ghost use Rattle.run_defaults.specs.View.{next_view};

use crate::looks::{instance_in, variable_of};
use crate::members::read_member;
use crate::next::{Next, calls_then};
use crate::parameters::{all_left_out, is_sub, takes_objects};
use crate::putting::put;
use crate::spot::{Spot, default_written};
use crate::task::Task;
use bound_project::{Declarations, Member, any_must, default_of, parameters_of, without_last};
use run_host::Told;
use run_memory::Memory;
use std::alloc::Global;
use vba_base::OrMemory;
use vba_values::{Bad, HostRef, ObjRef, Value, copy_value};

/// The most cells that are written in one go.
const CELLS: u64 = 4_000_000;

/// Whether a value is a range that isn't too large to be written.
fn takes_value(target: &Value) -> bool
    ensures { result ≡ takes_value (view target.now) }
{
    match target {
        Value::Object(
            ObjRef::Host(
                HostRef::Area {
                    sheet: _,
                    top: _,
                    left: _,
                    rows,
                    columns,
                },
            ),
        ) => u64::from(*rows) * u64::from(*columns) <= CELLS,
        _ => false,
    }
}

/// The default member of what is no object of a class is written.
fn write_host(
    memory: &mut Memory,
    alloc: Global,
    declared: &Declarations,
    value: Value,
    target: &Value,
    told: &mut Told,
) -> Result<Next, OrMemory<Bad>>
    ensures { Tells next_view result (told_view told.old) (told_view told.new) (memory_view memory.new) (write_host (declarations_view declared.now) (view value) (view target.now) (memory_view memory.old)) }
{
    if takes_value(target) {
        let spot = Spot::Range(copy_value(alloc, target)?);
        return put(memory, alloc, declared, spot, value, told);
    }
    default_written(memory, alloc, target, value, told)
}

/// A Property Let without further arguments is called: 449 where one must be given.
fn write_let(
    memory: &mut Memory,
    alloc: Global,
    declared: &Declarations,
    value: Value,
    me: ObjRef,
    procedure: u32,
    told: &mut Told,
) -> Result<Next, OrMemory<Bad>>
    ensures { Tells next_view result (told_view told.old) (told_view told.new) (memory_view memory.new) (write_let (declarations_view declared.now) (view value) (object me) procedure (memory_view memory.old)) }
{
    let parameters = without_last(parameters_of(declared, procedure));
    if any_must(parameters) {
        return Err(OrMemory::Fault(Bad::Raise(449)));
    }
    let arguments = all_left_out(alloc, parameters)?;
    let spot = Spot::of_let(procedure, me, arguments);
    put(memory, alloc, declared, spot, value, told)
}

/// The default member of an object is written: that of an object of a class takes the value or gives an object whose own
/// is written, along so many more at most.
#[cycle(writing)]
pub fn write_along(
    memory: &mut Memory,
    alloc: Global,
    declared: &Declarations,
    left: u32,
    value: Value,
    target: &Value,
    told: &mut Told,
) -> Result<Next, OrMemory<Bad>>
    ensures { Tells next_view result (told_view told.old) (told_view told.new) (memory_view memory.new) (write_along (declarations_view declared.now) left (view value) (view target.now) (memory_view memory.old)) }
{
    match instance_in(memory, target) {
        Some(me) => write_own(memory, alloc, declared, left, value, me, told),
        None => write_host(memory, alloc, declared, value, target, told),
    }
}

/// The same of an object of a class: 438 where that has no default member.
#[cycle(writing)]
#[tactic(auto, using(run_host::proofs::Telling::acts_tell))]
fn write_own(
    memory: &mut Memory,
    alloc: Global,
    declared: &Declarations,
    left: u32,
    value: Value,
    me: ObjRef,
    told: &mut Told,
) -> Result<Next, OrMemory<Bad>>
    ensures { Tells next_view result (told_view told.old) (told_view told.new) (memory_view memory.new)
        (write_member (declarations_view declared.now) (view value) (object me) (class_of_value (declarations_view declared.now) (object me) (memory_view memory.old)).default
        (λ x m1. write_pass (declarations_view declared.now) left (view value) (object me) x m1) (memory_view memory.old)) }
{
    match default_of(declared, memory.class_of(me)) {
        Some(member) => write_default(memory, alloc, declared, left, value, me, member, told),
        None => Err(OrMemory::Fault(Bad::Raise(438))),
    }
}

/// A variable takes the value, a Property Let is called, and what else gives an object passes it on: 438 for a Sub.
#[cycle(writing)]
#[tactic(auto, using(run_host::proofs::Telling::acts_tell))]
fn write_default(
    memory: &mut Memory,
    alloc: Global,
    declared: &Declarations,
    left: u32,
    value: Value,
    me: ObjRef,
    member: Member,
    told: &mut Told,
) -> Result<Next, OrMemory<Bad>>
    ensures { Tells next_view result (told_view told.old) (told_view told.new) (memory_view memory.new)
        (write_default (declarations_view declared.now) (view value) (object me) (class_member_view member)
        (λ x m1. write_pass (declarations_view declared.now) left (view value) (object me) x m1) (memory_view memory.old)) }
{
    match member {
        Member::Variable { field, makes } => {
            write_variable(memory, alloc, declared, left, value, me, field, makes, told)
        }
        Member::Procedure(procedure) => {
            if is_sub(declared, procedure) {
                return Err(OrMemory::Fault(Bad::Raise(438)));
            }
            write_passed(memory, alloc, declared, left, value, me, member, told)
        }
        Member::Property {
            reads: _,
            lets: Some(procedure),
            sets: _,
        } => write_let(memory, alloc, declared, value, me, procedure, told),
        Member::Property {
            reads: _,
            lets: None,
            sets: _,
        } => write_passed(memory, alloc, declared, left, value, me, member, told),
    }
}

/// A variable takes the value, or gives the object whose default member is written.
#[cycle(writing)]
fn write_variable(
    memory: &mut Memory,
    alloc: Global,
    declared: &Declarations,
    left: u32,
    value: Value,
    me: ObjRef,
    field: u32,
    makes: Option<u32>,
    told: &mut Told,
) -> Result<Next, OrMemory<Bad>>
    ensures { Tells next_view result (told_view told.old) (told_view told.new) (memory_view memory.new)
        (write_variable (declarations_view declared.now) (view value) (variable_of (declarations_view declared.now) (object me) field makes (memory_view memory.old)) (is_variable field makes)
        (λ x m1. write_pass (declarations_view declared.now) left (view value) (object me) x m1) (memory_view memory.old)) }
{
    let path = variable_of(memory, alloc, declared, &Value::Object(me), field, makes)?;
    if takes_objects(&path.of) {
        let member = Member::Variable { field, makes };
        return write_passed(memory, alloc, declared, left, value, me, member, told);
    }
    put(memory, alloc, declared, Spot::Variable(path), value, told)
}

/// A default member is read, and that of the object that it gives is written: 450 where none more may be passed.
#[cycle(writing)]
fn write_passed(
    memory: &mut Memory,
    alloc: Global,
    declared: &Declarations,
    left: u32,
    value: Value,
    me: ObjRef,
    member: Member,
    told: &mut Told,
) -> Result<Next, OrMemory<Bad>>
    ensures { Tells next_view result (told_view told.old) (told_view told.new) (memory_view memory.new)
        (write_pass (declarations_view declared.now) left (view value) (object me) (class_member_view member) (memory_view memory.old)) }
{
    if left == 0 {
        return Err(OrMemory::Fault(Bad::Raise(450)));
    }
    let next = read_member(memory, alloc, declared, me, member, told)?;
    write_next(memory, alloc, declared, left - 1, value, next, told)
}

/// The default member of what a use gives at once or once it was called is written.
#[cycle(writing)]
#[tactic(auto, using(run_host::proofs::Telling::acts_tell))]
pub fn write_next(
    memory: &mut Memory,
    alloc: Global,
    declared: &Declarations,
    left: u32,
    value: Value,
    next: Next,
    told: &mut Told,
) -> Result<Next, OrMemory<Bad>>
    ensures { Tells next_view result (told_view told.old) (told_view told.new) (memory_view memory.new)
        (goes_by (write left (view value)) (λ u m1. write_along (declarations_view declared.now) left (view value) u m1) (next_view next) (memory_view memory.old)) }
{
    match next {
        Next::Gives(target) => write_along(memory, alloc, declared, left, value, &target, told),
        Next::Calls {
            procedure,
            me,
            arguments,
            tasks,
        } => {
            let task = Task::Write { left, value };
            let next = calls_then(procedure, me, arguments, tasks, task)?;
            Ok(next)
        }
    }
}

// Objects where a value is wanted: they give way to the values of their default members ([MS-VBAL] 5.6.2.3).
ghost use Rattle.std.specs.Prelude.{◌≡◌};
ghost use Rattle.vba_values.specs.Val.{object};
ghost use Rattle.vba_values.specs.View.{view};
ghost use Rattle.bound_project.specs.View.{class_member_view, declarations_view};
ghost use Rattle.vba_meaning.specs.Memory.{Memory as PlainMemory};
ghost use Rattle.vba_meaning.specs.Effects.{plain};
ghost use Rattle.vba_meaning.specs.Defaults.{class_of_value, collection_here, counted_if_any, counted_operand, enumerator_of, goes_by, has_items, no_object, no_object_here, operand_of, over_with, read_default, reads_alone, walked};
ghost use Rattle.run_memory.specs.Acts.{Acts};
ghost use Rattle.run_memory.specs.View.{memory_view};
ghost use Rattle.run_host.specs.Tells.{Tells};
ghost use Rattle.run_host.specs.View.{told_view};
ghost use Rattle.run_defaults.specs.Parts.{way_given};
ghost use Rattle.run_defaults.specs.View.{next_view};

use crate::looks::{instance_in, is_instance};
use crate::members::{read_default, read_member};
use crate::next::{Next, calls_then};
use crate::task::Task;
use bound_project::{
    Declarations, Member, any_must, default_of, enumerator_of as enumerator_of_class, parameters_of,
};
use run_host::{Told, is_counted};
use run_memory::Memory;
use std::alloc::Global;
use vba_base::OrMemory;
use vba_values::{Bad, ObjRef, Value};

/// The value of a default member, which must be no object.
pub fn no_object_here(value: Value) -> Result<Next, OrMemory<Bad>>
    ensures { (m : PlainMemory) → Acts next_view result m (no_object_here (view value) m) }
{
    match value {
        Value::Object(_) => Err(OrMemory::Fault(Bad::Raise(438))),
        other => Ok(Next::Gives(other)),
    }
}

/// The same of what a use gives at once or once it was called.
fn without_object(next: Next) -> Result<Next, OrMemory<Bad>>
    ensures { (m : PlainMemory) → Acts next_view result m (goes_by no_object no_object_here (next_view next) m) }
{
    match next {
        Next::Gives(value) => no_object_here(value),
        Next::Calls {
            procedure,
            me,
            arguments,
            tasks,
        } => {
            let next = calls_then(procedure, me, arguments, tasks, Task::NoObject)?;
            Ok(next)
        }
    }
}

/// A counted object as an operand: 449 for a Collection, whose default member must have an argument.
pub fn counted_operand(
    memory: &mut Memory,
    alloc: Global,
    declared: &Declarations,
    value: Value,
    told: &mut Told,
) -> Result<Next, OrMemory<Bad>>
    ensures { Tells next_view result (told_view told.old) (told_view told.new) (memory_view memory.new) (counted_operand (declarations_view declared.now) (view value) (memory_view memory.old)) }
{
    let Some(me) = instance_in(memory, &value) else {
        return Err(OrMemory::Fault(Bad::Raise(449)));
    };
    let next = read_default(memory, alloc, declared, me, told)?;
    without_object(next)
}

/// A value that is no counted object, as an operand.
#[tactic(auto, using(run_memory::proofs::Refused::refused_then))]
fn plain_operand(memory: &Memory, alloc: Global, value: Value) -> Result<Next, OrMemory<Bad>>
    ensures { Acts next_view result (memory_view memory.now) (over_with (plain (view value) (memory_view memory.now))) }
{
    let value = memory.plain(alloc, value)?;
    Ok(Next::Gives(value))
}

/// A value as an operand.
#[tactic(auto, using(run_host::proofs::Telling::acts_tell))]
pub fn operand_of(
    memory: &mut Memory,
    alloc: Global,
    declared: &Declarations,
    value: Value,
    told: &mut Told,
) -> Result<Next, OrMemory<Bad>>
    ensures { Tells next_view result (told_view told.old) (told_view told.new) (memory_view memory.new) (operand_of (declarations_view declared.now) (view value) (memory_view memory.old)) }
{
    if is_counted(&value) {
        return counted_operand(memory, alloc, declared, value, told);
    }
    plain_operand(memory, alloc, value)
}

/// An object of a class gives way, and any other value stays.
#[tactic(auto, using(run_host::proofs::Telling::acts_tell))]
pub fn way_given(
    memory: &mut Memory,
    alloc: Global,
    declared: &Declarations,
    value: Value,
    told: &mut Told,
) -> Result<Next, OrMemory<Bad>>
    ensures { Tells next_view result (told_view told.old) (told_view told.new) (memory_view memory.new) (way_given (declarations_view declared.now) (view value) (memory_view memory.old)) }
{
    if is_instance(memory, &value) {
        operand_of(memory, alloc, declared, value, told)
    } else {
        Ok(Next::Gives(value))
    }
}

/// Whether a member is read without an argument.
fn reads_alone(declared: &Declarations, member: Member) -> bool
    ensures { result ≡ reads_alone (declarations_view declared.now) (class_member_view member) }
{
    match member {
        Member::Variable { field: _, makes: _ } => true,
        Member::Procedure(procedure)
        | Member::Property {
            reads: Some(procedure),
            lets: _,
            sets: _,
        } => !any_must(parameters_of(declared, procedure)),
        Member::Property {
            reads: None,
            lets: _,
            sets: _,
        } => false,
    }
}

/// The value of a default member where that needs no argument; any other value stays.
#[tactic(auto, using(run_host::proofs::Telling::acts_tell))]
pub fn counted_if_any(
    memory: &mut Memory,
    alloc: Global,
    declared: &Declarations,
    value: Value,
    told: &mut Told,
) -> Result<Next, OrMemory<Bad>>
    ensures { Tells next_view result (told_view told.old) (told_view told.new) (memory_view memory.new) (counted_if_any (declarations_view declared.now) (view value) (memory_view memory.old)) }
{
    let Some(me) = instance_in(memory, &value) else {
        return Ok(Next::Gives(value));
    };
    let Some(member) = default_of(declared, memory.class_of(me)) else {
        return Ok(Next::Gives(value));
    };
    if !reads_alone(declared, member) {
        return Ok(Next::Gives(value));
    }
    read_member(memory, alloc, declared, me, member, told)
}

/// Whether For Each can go over a value.
fn has_items(memory: &Memory, value: &Value) -> bool
    ensures { result ≡ has_items (view value.now) (memory_view memory.now) }
{
    match value {
        Value::Object(reference) => memory.is_collection(*reference),
        _ => false,
    }
}

/// What an enumerator gives, which must be a Collection.
pub fn collection_here(memory: &Memory, value: Value) -> Result<Next, OrMemory<Bad>>
    ensures { Acts next_view result (memory_view memory.now) (collection_here (view value) (memory_view memory.now)) }
{
    if has_items(memory, &value) {
        Ok(Next::Gives(value))
    } else {
        Err(OrMemory::Fault(Bad::Raise(438)))
    }
}

/// The Collection that an enumerator gives at once or once it was called.
fn walked(memory: &Memory, next: Next) -> Result<Next, OrMemory<Bad>>
    ensures { Acts next_view result (memory_view memory.now) (goes_by walked collection_here (next_view next) (memory_view memory.now)) }
{
    match next {
        Next::Gives(value) => collection_here(memory, value),
        Next::Calls {
            procedure,
            me,
            arguments,
            tasks,
        } => {
            let next = calls_then(procedure, me, arguments, tasks, Task::Walked)?;
            Ok(next)
        }
    }
}

/// The enumerator of an object of a class is read: 438 where the class has none.
#[tactic(auto, using(run_host::proofs::Telling::acts_tell))]
fn read_enumerator(
    memory: &mut Memory,
    alloc: Global,
    declared: &Declarations,
    me: ObjRef,
    told: &mut Told,
) -> Result<Next, OrMemory<Bad>>
    ensures { Tells next_view result (told_view told.old) (told_view told.new) (memory_view memory.new) (read_default (declarations_view declared.now) (object me) (class_of_value (declarations_view declared.now) (object me) (memory_view memory.old)).enumerator (memory_view memory.old)) }
{
    match enumerator_of_class(declared, memory.class_of(me)) {
        Some(member) => read_member(memory, alloc, declared, me, member, told),
        None => Err(OrMemory::Fault(Bad::Raise(438))),
    }
}

/// What For Each goes over: an object of a class gives way to the Collection that its enumerator gives ([MS-VBAL] 5.4.2.4);
/// anything else stays.
pub fn enumerator_of(
    memory: &mut Memory,
    alloc: Global,
    declared: &Declarations,
    value: Value,
    told: &mut Told,
) -> Result<Next, OrMemory<Bad>>
    ensures { Tells next_view result (told_view told.old) (told_view told.new) (memory_view memory.new) (enumerator_of (declarations_view declared.now) (view value) (memory_view memory.old)) }
{
    let Some(me) = instance_in(memory, &value) else {
        return Ok(Next::Gives(value));
    };
    let next = read_enumerator(memory, alloc, declared, me, told)?;
    walked(memory, next)
}

// Members of objects of classes that are read without arguments.
ghost use Rattle.std.specs.Prelude.{◌≡◌, ◌++◌, None, OnOk};
ghost use Rattle.vba_values.specs.Val.{object};
ghost use Rattle.vba_values.specs.View.{view};
ghost use Rattle.vba_values.specs.declared.object.ObjRef.TheVariants.{Heap};
ghost use Rattle.bound_project.specs.Project.{class_at};
ghost use Rattle.bound_project.specs.View.{class_member_view, declarations_view};
ghost use Rattle.vba_meaning.specs.Memory.{Memory as PlainMemory};
ghost use Rattle.vba_meaning.specs.Objects.{made};
ghost use Rattle.vba_meaning.specs.Defaults.{class_of_value, read_by, read_default, read_made_by, read_member, read_variable};
ghost use Rattle.run_memory.specs.Acts.{Acts};
ghost use Rattle.run_memory.specs.View.{memory_view, path_view};
ghost use Rattle.run_host.specs.Tells.{Tells};
ghost use Rattle.run_host.specs.View.{told_view};
ghost use Rattle.run_defaults.specs.Parts.{made_events, read_new};
ghost use Rattle.run_defaults.specs.View.{next_view};

use crate::looks::variable_of;
use crate::next::Next;
use crate::parameters::all_left_out;
use crate::task::Task;
use bound_project::{Declarations, Member, any_must, default_of, initialize_of, parameters_of};
use run_host::{Event, Told};
use run_memory::{Memory, Path};
use run_objects::{made, made_there, stored_made};
use std::alloc::Global;
use vba_base::{NoMemory, OrMemory};
use vba_values::{Bad, ObjId, ObjRef, Value};

/// A procedure of an object is called without arguments: 449 where one must be given.
fn read_by(
    alloc: Global,
    declared: &Declarations,
    procedure: u32,
    me: ObjRef,
) -> Result<Next, OrMemory<Bad>>
    ensures { (m : PlainMemory) → Acts next_view result m (read_by (declarations_view declared.now) procedure (object me) m) }
{
    let parameters = parameters_of(declared, procedure);
    if any_must(parameters) {
        return Err(OrMemory::Fault(Bad::Raise(449)));
    }
    let arguments = all_left_out(alloc, parameters)?;
    Ok(Next::Calls {
        procedure,
        me: Value::Object(me),
        arguments,
        tasks: Vec::new(alloc),
    })
}

/// The object of a class is told; a Collection isn't.
fn tell_made(told: &mut Told, class: u32, number: u32) -> Result<(), NoMemory>
    ensures { OnOk result (told_view told.new ≡ told_view told.old ++ made_events class number) }
{
    if class == 0 {
        return Ok(());
    }
    told.push(Event::Init { class, number })
}

/// A new object of a class is made and told.
fn make_object(
    memory: &mut Memory,
    alloc: Global,
    declared: &Declarations,
    class: u32,
    told: &mut Told,
) -> Result<ObjId, OrMemory<Bad>>
    ensures { Tells (λ id. object (Heap id)) result (told_view told.old) (told_view told.new) (memory_view memory.new) (made (declarations_view declared.now) class (memory_view memory.old)) }
{
    let number = made(memory, alloc, declared, class)?;
    tell_made(told, class, number)?;
    Ok(ObjId(number))
}

/// What was made is stored at a path, and read.
pub fn stored_and_read(
    memory: &mut Memory,
    alloc: Global,
    path: &Path,
    stored: Value,
) -> Result<Next, OrMemory<Bad>>
    ensures { Acts next_view result (memory_view memory.new) (read_made_by (path_view path.now) (view stored) None (memory_view memory.old)) }
{
    stored_made(memory, alloc, path, stored)?;
    let value = memory.read_path(alloc, path)?;
    Ok(Next::Gives(value))
}

/// What is at a path is read; where it is declared As New and has Nothing an object is made first.
pub fn read_variable(
    memory: &mut Memory,
    alloc: Global,
    declared: &Declarations,
    path: Path,
    told: &mut Told,
) -> Result<Next, OrMemory<Bad>>
    ensures { Tells next_view result (told_view told.old) (told_view told.new) (memory_view memory.new) (read_variable (declarations_view declared.now) (path_view path) (memory_view memory.old)) }
{
    match made_there(memory, alloc, &path)? {
        Some(class) => read_new(memory, alloc, declared, path, class, told),
        None => stored_and_read(memory, alloc, &path, Value::Empty),
    }
}

/// An object of a class is made for the place that a path leads to: its Class_Initialize is called before it is stored.
fn read_new(
    memory: &mut Memory,
    alloc: Global,
    declared: &Declarations,
    path: Path,
    class: u32,
    told: &mut Told,
) -> Result<Next, OrMemory<Bad>>
    ensures { Tells next_view result (told_view told.old) (told_view told.new) (memory_view memory.new) (read_new (declarations_view declared.now) (path_view path) class (memory_view memory.old)) }
{
    let id = make_object(memory, alloc, declared, class, told)?;
    let procedure = initialize_of(declared, class);
    read_initialized(memory, alloc, path, id, procedure)
}

/// The same once it is made.
fn read_initialized(
    memory: &mut Memory,
    alloc: Global,
    path: Path,
    id: ObjId,
    procedure: Option<u32>,
) -> Result<Next, OrMemory<Bad>>
    ensures { Acts next_view result (memory_view memory.new) (read_made_by (path_view path) (object (Heap id)) procedure (memory_view memory.old)) }
{
    let me = ObjRef::Heap(id);
    let Some(procedure) = procedure else {
        return stored_and_read(memory, alloc, &path, Value::Object(me));
    };
    let mut tasks = Vec::new(alloc);
    tasks.push(Task::ReadMade {
        path: Box::new(alloc, path)?,
        made: Value::Object(me),
    })?;
    Ok(Next::Calls {
        procedure,
        me: Value::Object(me),
        arguments: Vec::new(alloc),
        tasks,
    })
}

/// A member of an object is read without arguments: 438 for a property that has no Get.
#[tactic(auto, using(run_host::proofs::Telling::acts_tell))]
pub fn read_member(
    memory: &mut Memory,
    alloc: Global,
    declared: &Declarations,
    me: ObjRef,
    member: Member,
    told: &mut Told,
) -> Result<Next, OrMemory<Bad>>
    ensures { Tells next_view result (told_view told.old) (told_view told.new) (memory_view memory.new) (read_member (declarations_view declared.now) (object me) (class_member_view member) (memory_view memory.old)) }
{
    match member {
        Member::Variable { field, makes } => {
            let path = variable_of(memory, alloc, declared, &Value::Object(me), field, makes)?;
            read_variable(memory, alloc, declared, path, told)
        }
        Member::Procedure(procedure)
        | Member::Property {
            reads: Some(procedure),
            lets: _,
            sets: _,
        } => read_by(alloc, declared, procedure, me),
        Member::Property {
            reads: None,
            lets: _,
            sets: _,
        } => Err(OrMemory::Fault(Bad::Raise(438))),
    }
}

/// The default member of an object of a class is read: 438 where the class has none.
#[tactic(auto, using(run_host::proofs::Telling::acts_tell))]
pub fn read_default(
    memory: &mut Memory,
    alloc: Global,
    declared: &Declarations,
    me: ObjRef,
    told: &mut Told,
) -> Result<Next, OrMemory<Bad>>
    ensures { Tells next_view result (told_view told.old) (told_view told.new) (memory_view memory.new) (read_default (declarations_view declared.now) (object me) (class_of_value (declarations_view declared.now) (object me) (memory_view memory.old)).default (memory_view memory.old)) }
{
    match default_of(declared, memory.class_of(me)) {
        Some(member) => read_member(memory, alloc, declared, me, member, told),
        None => Err(OrMemory::Fault(Bad::Raise(438))),
    }
}

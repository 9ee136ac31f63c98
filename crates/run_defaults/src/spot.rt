ghost use Rattle.std.specs.Prelude.{◌≡◌, map};
ghost use Rattle.vba_values.specs.Val.{object};
ghost use Rattle.vba_values.specs.View.{view};
ghost use Rattle.bound_project.specs.View.{declarations_view};
ghost use Rattle.vba_meaning.specs.Effects.{assigned, slot_values};
ghost use Rattle.vba_meaning.specs.Host.{member_assigned, written_default};
ghost use Rattle.vba_meaning.specs.Defaults.{by_let, nothing_more, put_value, takes_itself};
ghost use Rattle.run_memory.specs.Acts.{Acts};
ghost use Rattle.run_memory.specs.View.{memory_view, path_view, slot_view};
ghost use Rattle.run_host.specs.Tells.{Tells};
ghost use Rattle.run_host.specs.View.{told_view};
ghost use Rattle.run_defaults.specs.View.{next_view, spot_view};

use crate::next::Next;
use crate::parameters::is_object_type;
use bound_project::{Declarations, last_type, parameters_of};
use run_host::{Told, member_assigned, written_default};
use run_memory::{Memory, Path, Slot};
use std::alloc::Global;
use vba_base::{OrMemory, Units};
use vba_values::{Bad, ObjRef, Value};

/// Where an assigned value goes at last: to a variable; to a Property Let of an object, with its other arguments; to a
/// range, as whose default member it is written; or to a member of an object of the host or of a Collection, by its folded
/// name, with its arguments and with what was given when its use began.
pub enum Spot {
    Variable(Path),
    Let {
        procedure: u32,
        me: Value,
        arguments: Vec<Slot>,
    },
    Range(Value),
    Member {
        name: Units,
        arguments: Vec<Slot>,
        base: Value,
        begun: Value,
    },
}

impl Drop for Spot {
    fn drop(self) {
        match self {
            Spot::Variable(_path) => {}
            Spot::Let {
                procedure: _procedure,
                me: _me,
                arguments: _arguments,
            } => {}
            Spot::Range(_target) => {}
            Spot::Member {
                name: _name,
                arguments: _arguments,
                base: _base,
                begun: _begun,
            } => {}
        }
    }
}

/// A value is assigned to a variable.
#[tactic(auto, using(run_memory::proofs::Refused::refused_then))]
fn assigned(
    memory: &mut Memory,
    alloc: Global,
    path: &Path,
    value: Value,
) -> Result<Next, OrMemory<Bad>>
    ensures { Acts next_view result (memory_view memory.new) (nothing_more (assigned (path_view path.now) (view value) (memory_view memory.old))) }
{
    memory.assigned(alloc, path, value)?;
    Ok(Next::Gives(Value::Empty))
}

/// The default member of an object of the host is written.
pub fn default_written(
    memory: &mut Memory,
    alloc: Global,
    target: &Value,
    value: Value,
    told: &mut Told,
) -> Result<Next, OrMemory<Bad>>
    ensures { Tells next_view result (told_view told.old) (told_view told.new) (memory_view memory.new) (nothing_more (written_default (view target.now) (view value) (memory_view memory.old))) }
{
    written_default(memory, alloc, target, value, told)?;
    Ok(Next::Gives(Value::Empty))
}

/// A member of an object of the host or of a Collection is assigned to.
fn member_written(
    memory: &mut Memory,
    alloc: Global,
    declared: &Declarations,
    name: &[u16],
    arguments: &[Slot],
    base: &Value,
    begun: &Value,
    value: Value,
    told: &mut Told,
) -> Result<Next, OrMemory<Bad>>
    ensures { Tells next_view result (told_view told.old) (told_view told.new) (memory_view memory.new)
        (nothing_more (member_assigned (declarations_view declared.now) name.now (slot_values (map slot_view arguments.now)) (view base.now) (view begun.now) (view value) (memory_view memory.old))) }
{
    member_assigned(
        memory, alloc, declared, name, arguments, base, begun, value, told,
    )?;
    Ok(Next::Gives(Value::Empty))
}

/// A Property Let is called with a value behind its other arguments.
#[tactic(auto, using(run_memory::proofs::Refused::refused_then))]
fn let_called(
    memory: &Memory,
    alloc: Global,
    declared: &Declarations,
    procedure: u32,
    me: Value,
    arguments: Vec<Slot>,
    value: Value,
) -> Result<Next, OrMemory<Bad>>
    ensures { Acts next_view result (memory_view memory.now) (put_value (declarations_view declared.now) (by_let procedure (view me) (map slot_view arguments.items)) (view value) (memory_view memory.now)) }
{
    let of = last_type(parameters_of(declared, procedure)).value_type(alloc)?;
    let value = memory.fitted(alloc, &of, value)?;
    let mut arguments = arguments;
    arguments.push(Slot::Value(value))?;
    Ok(Next::Calls {
        procedure,
        me,
        arguments,
        tasks: Vec::new(alloc),
    })
}

impl Spot {
    /// A Property Let of an object, with its other arguments.
    pub fn of_let(procedure: u32, me: ObjRef, arguments: Vec<Slot>) -> Spot
        ensures { spot_view result ≡ by_let procedure (object me) (map slot_view arguments.items) }
    {
        Spot::Let {
            procedure,
            me: Value::Object(me),
            arguments,
        }
    }

    /// Whether an object that goes here doesn't give way.
    pub fn takes_itself(&self, declared: &Declarations) -> bool
        ensures { result ≡ takes_itself (declarations_view declared.now) (spot_view self.now) }
    {
        match self {
            Spot::Let { procedure, .. } => {
                is_object_type(last_type(parameters_of(declared, *procedure)))
            }
            Spot::Variable(_) | Spot::Range(_) | Spot::Member { .. } => false,
        }
    }

    /// A value is put here.
    #[tactic(auto, using(run_host::proofs::Telling::acts_tell))]
    pub fn put_value(
        self,
        memory: &mut Memory,
        alloc: Global,
        declared: &Declarations,
        value: Value,
        told: &mut Told,
    ) -> Result<Next, OrMemory<Bad>>
        ensures { Tells next_view result (told_view told.old) (told_view told.new) (memory_view memory.new) (put_value (declarations_view declared.now) (spot_view self) (view value) (memory_view memory.old)) }
    {
        match self {
            Spot::Variable(path) => assigned(memory, alloc, &path, value),
            Spot::Let {
                procedure,
                me,
                arguments,
            } => let_called(memory, alloc, declared, procedure, me, arguments, value),
            Spot::Range(target) => default_written(memory, alloc, &target, value, told),
            Spot::Member {
                name,
                arguments,
                base,
                begun,
            } => member_written(
                memory,
                alloc,
                declared,
                name.units(),
                arguments.as_slice(),
                &base,
                &begun,
                value,
                told,
            ),
        }
    }
}

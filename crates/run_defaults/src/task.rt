ghost use Rattle.vba_values.specs.View.{view};
ghost use Rattle.bound_project.specs.View.{declarations_view, declared_view};
ghost use Rattle.vba_meaning.specs.Effects.{fitted};
ghost use Rattle.vba_meaning.specs.Defaults.{over_with, task_next};
ghost use Rattle.run_memory.specs.Acts.{Acts};
ghost use Rattle.run_memory.specs.View.{memory_view};
ghost use Rattle.run_host.specs.Tells.{Tells};
ghost use Rattle.run_host.specs.View.{told_view};
ghost use Rattle.run_defaults.specs.View.{next_view, task_view};

use crate::indexing::index_along;
use crate::letting::let_along;
use crate::members::stored_and_read;
use crate::next::Next;
use crate::operands::{collection_here, no_object_here, operand_of, way_given};
use crate::setting::set_along;
use crate::spot::Spot;
use crate::writing::write_along;
use bound_project::{Declarations, DeclaredType};
use run_host::Told;
use run_memory::{Memory, Path, Slot};
use std::alloc::Global;
use vba_base::OrMemory;
use vba_values::{Bad, Value};

/// What is to be done with a value.
pub enum Task {
    /// As an operand it gives way to the value of its default member, which must be no object.
    Operand,
    NoObject,
    /// An object of a class alone gives way.
    GiveWay,
    /// It must be a Collection.
    Walked,
    /// It becomes one of this type.
    FitTo(DeclaredType),
    /// These arguments index it, along so many more default members at most.
    IndexBy {
        left: u32,
        arguments: Vec<Slot>,
    },
    /// Its default member is written, in the same way.
    Write {
        left: u32,
        value: Value,
    },
    /// What these arguments lead to takes a value.
    LetItem {
        left: u32,
        arguments: Vec<Slot>,
        value: Value,
    },
    /// What these arguments lead to is set.
    SetItem {
        left: u32,
        arguments: Vec<Slot>,
        value: Value,
    },
    PutIn(Box<Spot>),
    /// A Class_Initialize is over: what was made is stored at the path, and read.
    ReadMade {
        path: Box<Path>,
        made: Value,
    },
}

impl Drop for Task {
    fn drop(self) {
        match self {
            Task::Operand | Task::NoObject | Task::GiveWay | Task::Walked => {}
            Task::FitTo(_of) => {}
            Task::IndexBy {
                left: _left,
                arguments: _arguments,
            } => {}
            Task::Write {
                left: _left,
                value: _value,
            } => {}
            Task::LetItem {
                left: _left,
                arguments: _arguments,
                value: _value,
            } => {}
            Task::SetItem {
                left: _left,
                arguments: _arguments,
                value: _value,
            } => {}
            Task::PutIn(_spot) => {}
            Task::ReadMade {
                path: _path,
                made: _made,
            } => {}
        }
    }
}

/// A value becomes one of a type.
#[tactic(auto, using(run_memory::proofs::Refused::refused_then))]
fn fitted_to(
    memory: &Memory,
    alloc: Global,
    of: DeclaredType,
    value: Value,
) -> Result<Next, OrMemory<Bad>>
    ensures { Acts next_view result (memory_view memory.now) (over_with (fitted (declared_view of) (view value) (memory_view memory.now))) }
{
    let declared = of.value_type(alloc)?;
    let value = memory.fitted(alloc, &declared, value)?;
    Ok(Next::Gives(value))
}

impl Task {
    /// The task is done with a value.
    #[tactic(auto, using(run_host::proofs::Telling::acts_tell))]
    pub fn done_with(
        self,
        memory: &mut Memory,
        alloc: Global,
        declared: &Declarations,
        value: Value,
        told: &mut Told,
    ) -> Result<Next, OrMemory<Bad>>
        ensures { Tells next_view result (told_view told.old) (told_view told.new) (memory_view memory.new) (task_next (declarations_view declared.now) (task_view self) (view value) (memory_view memory.old)) }
    {
        match self {
            Task::Operand => operand_of(memory, alloc, declared, value, told),
            Task::NoObject => no_object_here(value),
            Task::GiveWay => way_given(memory, alloc, declared, value, told),
            Task::Walked => collection_here(memory, value),
            Task::FitTo(of) => fitted_to(memory, alloc, of, value),
            Task::IndexBy { left, arguments } => {
                index_along(memory, alloc, declared, left, arguments, &value, told)
            }
            Task::Write {
                left,
                value: written,
            } => write_along(memory, alloc, declared, left, written, &value, told),
            Task::LetItem {
                left,
                arguments,
                value: taken,
            } => let_along(
                memory, alloc, declared, left, arguments, taken, &value, told,
            ),
            Task::SetItem {
                left,
                arguments,
                value: taken,
            } => set_along(
                memory, alloc, declared, left, arguments, taken, &value, told,
            ),
            Task::PutIn(spot) => {
                Box::into_inner(spot).put_value(memory, alloc, declared, value, told)
            }
            Task::ReadMade { path, made } => stored_and_read(memory, alloc, &path, made),
        }
    }
}

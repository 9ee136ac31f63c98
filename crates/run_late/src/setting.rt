// Late-bound members are set.
ghost use Rattle.std.specs.Prelude.{map};
ghost use Rattle.vba_values.specs.View.{view};
ghost use Rattle.bound_project.specs.View.{declarations_view};
ghost use Rattle.vba_meaning.specs.Effects.{slot_values};
ghost use Rattle.vba_meaning.specs.Objects.{set_at};
ghost use Rattle.vba_meaning.specs.Defaults.{nothing_more};
ghost use Rattle.vba_meaning.specs.LateBound.{element_set, late_set, set_way};
ghost use Rattle.run_memory.specs.Acts.{Acts};
ghost use Rattle.run_memory.specs.View.{memory_view, path_view, slot_view};
ghost use Rattle.run_host.specs.ByName.{by_name_view};
ghost use Rattle.run_host.specs.Tells.{Tells};
ghost use Rattle.run_host.specs.View.{told_view};
ghost use Rattle.run_defaults.specs.View.{next_view};
ghost use Rattle.run_late.specs.Parts.{set_called, set_indexed, set_plain};
ghost use Rattle.run_late.specs.View.{given_view, names_view, way_view};

use crate::arranging::arranged;
use crate::beginning::set_refused;
use crate::classes::way_by_name;
use crate::sought::Sought;
use crate::ways::{Way, indexes};
use bound_project::{Declarations, LateUse, MOST_PASSED, last_type, parameters_of, without_last};
use run_defaults::{Next, is_instance, set_along, set_in_place, variable_of};
use run_host::{NamedArguments, Told};
use run_memory::{Memory, Path, Slot};
use std::alloc::Global;
use vba_base::OrMemory;
use vba_values::{Bad, Value, copy_value};

/// What arguments lead to from a place is set: an element of an array in place.
pub fn element_set(
    memory: &mut Memory,
    alloc: Global,
    declared: &Declarations,
    path: Path,
    slots: Vec<Slot>,
    value: Value,
    told: &mut Told,
) -> Result<Next, OrMemory<Bad>>
    ensures { Tells next_view result (told_view told.old) (told_view told.new) (memory_view memory.new) (element_set (declarations_view declared.now) (path_view path) (slot_values (map slot_view slots.items)) (view value) (memory_view memory.old)) }
{
    set_in_place(
        memory,
        alloc,
        declared,
        MOST_PASSED,
        path,
        slots,
        value,
        told,
    )
}

/// A Set is called with its arguments and the object, by the test of Set.
#[tactic(auto, using(run_memory::proofs::Refused::refused_then))]
fn set_called<'a>(
    memory: &Memory,
    alloc: Global,
    declared: &Declarations,
    names: NamedArguments<'a>,
    base: &Value,
    slots: &[Slot],
    value: &Value,
    procedure: u32,
) -> Result<Next, OrMemory<Bad>>
    ensures { Acts next_view result (memory_view memory.now) (set_called (declarations_view declared.now) (by_name_view names.entry) (view base.now) (map slot_view slots.now) (view value.now) procedure (memory_view memory.now)) }
{
    let parameters = parameters_of(declared, procedure);
    let of = last_type(parameters).value_type(alloc)?;
    let value = memory.set_object(&of, value)?;
    let mut arguments = arranged(alloc, without_last(parameters), names, slots)?;
    arguments.push(Slot::Value(value))?;
    let me = copy_value(alloc, base)?;
    Ok(Next::Calls {
        procedure,
        me,
        arguments,
        tasks: Vec::new(alloc),
    })
}

/// The object is put at a place.
#[tactic(auto, using(run_memory::proofs::Refused::refused_then))]
fn set_variable(
    memory: &mut Memory,
    alloc: Global,
    path: &Path,
    value: Value,
) -> Result<Next, OrMemory<Bad>>
    ensures { Acts next_view result (memory_view memory.new) (nothing_more (set_at (path_view path.now) (view value) (memory_view memory.old))) }
{
    memory.set_at(alloc, path, value)?;
    Ok(Next::Gives(Value::Empty))
}

/// What the arguments index is set.
fn set_indexed(
    memory: &mut Memory,
    alloc: Global,
    declared: &Declarations,
    base: &Value,
    begun: &Value,
    slots: Vec<Slot>,
    value: Value,
    way: Way,
    told: &mut Told,
) -> Result<Next, OrMemory<Bad>>
    ensures { Tells next_view result (told_view told.old) (told_view told.new) (memory_view memory.new) (set_indexed (declarations_view declared.now) (view begun.now) (slot_values (map slot_view slots.items)) (view value) (way_view (declarations_view declared.now) (view base.now) (memory_view memory.old) way) (memory_view memory.old)) }
{
    match way {
        Way::Variable { field, makes } => {
            let path = variable_of(memory, alloc, declared, base, field, makes)?;
            element_set(memory, alloc, declared, path, slots, value, told)
        }
        Way::Call {
            procedure: _procedure,
            is_get: _is_get,
        } => set_along(
            memory,
            alloc,
            declared,
            MOST_PASSED,
            slots,
            value,
            begun,
            told,
        ),
        Way::Setter {
            procedure: _procedure,
        } => Err(OrMemory::Fault(Bad::Raise(438))),
    }
}

/// What was found is set: a variable, or a Set with its arguments.
#[tactic(auto, using(run_host::proofs::Telling::acts_tell))]
fn set_plain<'a>(
    memory: &mut Memory,
    alloc: Global,
    declared: &Declarations,
    names: NamedArguments<'a>,
    base: &Value,
    slots: &[Slot],
    value: Value,
    way: Way,
    told: &mut Told,
) -> Result<Next, OrMemory<Bad>>
    ensures { Tells next_view result (told_view told.old) (told_view told.new) (memory_view memory.new) (set_plain (declarations_view declared.now) (by_name_view names.entry) (view base.now) (map slot_view slots.now) (view value) (way_view (declarations_view declared.now) (view base.now) (memory_view memory.old) way) (memory_view memory.old)) }
{
    match way {
        Way::Variable { field, makes } => {
            let path = variable_of(memory, alloc, declared, base, field, makes)?;
            set_variable(memory, alloc, &path, value)
        }
        Way::Call {
            procedure: _procedure,
            is_get: _is_get,
        } => Err(OrMemory::Fault(Bad::Raise(438))),
        Way::Setter { procedure } => {
            set_called(
                memory, alloc, declared, names, base, slots, &value, procedure,
            )
        }
    }
}

/// The same, or what the arguments index is set.
#[tactic(auto, using(crate::proofs::Set::by_index, crate::proofs::Set::by_itself))]
fn set_way<'a>(
    memory: &mut Memory,
    alloc: Global,
    declared: &Declarations,
    sought: Sought<'a>,
    base: &Value,
    begun: &Value,
    slots: Vec<Slot>,
    value: Value,
    way: Way,
    told: &mut Told,
) -> Result<Next, OrMemory<Bad>>
    ensures { Tells next_view result (told_view told.old) (told_view told.new) (memory_view memory.new) (set_way (declarations_view declared.now) (names_view sought.entry) (given_view sought.entry) (view base.now) (view begun.now) (map slot_view slots.items) (view value) (way_view (declarations_view declared.now) (view base.now) (memory_view memory.old) way) (memory_view memory.old)) }
{
    if indexes(declared, sought, way) {
        return set_indexed(
            memory, alloc, declared, base, begun, slots, value, way, told,
        );
    }
    let slots = slots.as_slice();
    set_plain(
        memory,
        alloc,
        declared,
        sought.names,
        base,
        slots,
        value,
        way,
        told,
    )
}

/// A member is set.
#[tactic(auto, using(run_host::proofs::Telling::acts_tell))]
pub fn late_set<'a>(
    memory: &mut Memory,
    alloc: Global,
    declared: &Declarations,
    sought: Sought<'a>,
    base: &Value,
    begun: &Value,
    slots: Vec<Slot>,
    value: Value,
    told: &mut Told,
) -> Result<Next, OrMemory<Bad>>
    ensures { Tells next_view result (told_view told.old) (told_view told.new) (memory_view memory.new) (late_set (declarations_view declared.now) sought.entry.name.now (names_view sought.entry) (given_view sought.entry) (view base.now) (view begun.now) (map slot_view slots.items) (view value) (memory_view memory.old)) }
{
    if !is_instance(memory, base) {
        return set_refused(base);
    }
    let Some(way) = way_by_name(memory, declared, LateUse::Setting, sought, base) else {
        return Err(OrMemory::Fault(Bad::Raise(438)));
    };
    set_way(
        memory, alloc, declared, sought, base, begun, slots, value, way, told,
    )
}

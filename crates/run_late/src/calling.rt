// Late-bound members are read and called.
ghost use Rattle.std.specs.Prelude.{◌≡◌, IfOk, map};
ghost use Rattle.vba_values.specs.View.{view};
ghost use Rattle.bound_project.specs.View.{declarations_view};
ghost use Rattle.vba_meaning.specs.Effects.{slot_values};
ghost use Rattle.vba_meaning.specs.LateBound.{call_way, host_arguments, late_called};
ghost use Rattle.run_memory.specs.View.{memory_view, slot_view};
ghost use Rattle.run_host.specs.ByName.{by_name_view};
ghost use Rattle.run_host.specs.Tells.{Tells};
ghost use Rattle.run_host.specs.View.{told_view};
ghost use Rattle.run_defaults.specs.View.{next_view};
ghost use Rattle.run_late.specs.Parts.{called_at};
ghost use Rattle.run_late.specs.View.{given_view, names_view, way_view};

use crate::arranging::arranged;
use crate::classes::way_by_name;
use crate::names::has_names;
use crate::sought::Sought;
use crate::ways::{Way, indexes};
use bound_project::{Declarations, LateUse, MOST_PASSED, parameters_of};
use run_defaults::{Next, index_along, read_variable, variable_of};
use run_host::{NamedArguments, Told, in_parameter_order};
use run_memory::{Memory, Slot};
use std::alloc::Global;
use vba_base::{NoMemory, OrMemory};
use vba_values::{Bad, Value, copy_value};

/// The arguments of a member of the host or of a Collection, in the order of its parameters.
pub fn host_arguments<'a>(
    alloc: Global,
    base: &Value,
    name: &[u16],
    names: NamedArguments<'a>,
    slots: Vec<Slot>,
) -> Result<Vec<Slot>, NoMemory>
    ensures { IfOk result (λ ordered. slot_values (map slot_view ordered.items) ≡ host_arguments (view base.now) name.now (by_name_view names.entry) (map slot_view slots.items)) }
{
    if has_names(names) {
        in_parameter_order(alloc, base, name, names, slots.as_slice())
    } else {
        Ok(slots)
    }
}

/// What was found is read, or called with its arguments.
fn call_at<'a>(
    memory: &mut Memory,
    alloc: Global,
    declared: &Declarations,
    names: NamedArguments<'a>,
    base: &Value,
    slots: &[Slot],
    way: Way,
    told: &mut Told,
) -> Result<Next, OrMemory<Bad>>
    ensures { Tells next_view result (told_view told.old) (told_view told.new) (memory_view memory.new) (called_at (declarations_view declared.now) (by_name_view names.entry) (view base.now) (map slot_view slots.now) (way_view (declarations_view declared.now) (view base.now) (memory_view memory.old) way) (memory_view memory.old)) }
{
    match way {
        Way::Variable { field, makes } => {
            let path = variable_of(memory, alloc, declared, base, field, makes)?;
            read_variable(memory, alloc, declared, path, told)
        }
        Way::Call {
            procedure,
            is_get: _is_get,
        } => {
            let parameters = parameters_of(declared, procedure);
            let arguments = arranged(alloc, parameters, names, slots)?;
            let me = copy_value(alloc, base)?;
            Ok(Next::Calls {
                procedure,
                me,
                arguments,
                tasks: Vec::new(alloc),
            })
        }
        Way::Setter {
            procedure: _procedure,
        } => Err(OrMemory::Fault(Bad::Raise(438))),
    }
}

/// The same, or the arguments index what it has.
#[tactic(auto, using(crate::proofs::Uses::call_index, crate::proofs::Uses::call_itself))]
fn call_way<'a>(
    memory: &mut Memory,
    alloc: Global,
    declared: &Declarations,
    sought: Sought<'a>,
    base: &Value,
    begun: &Value,
    slots: Vec<Slot>,
    way: Way,
    told: &mut Told,
) -> Result<Next, OrMemory<Bad>>
    ensures { Tells next_view result (told_view told.old) (told_view told.new) (memory_view memory.new) (call_way (declarations_view declared.now) (names_view sought.entry) (given_view sought.entry) (view base.now) (view begun.now) (map slot_view slots.items) (way_view (declarations_view declared.now) (view base.now) (memory_view memory.old) way) (memory_view memory.old)) }
{
    if indexes(declared, sought, way) {
        return index_along(memory, alloc, declared, MOST_PASSED, slots, begun, told);
    }
    let slots = slots.as_slice();
    call_at(
        memory,
        alloc,
        declared,
        sought.names,
        base,
        slots,
        way,
        told,
    )
}

/// A member of an object of a class is read or called: 438 where it has no such one.
pub fn late_called<'a>(
    memory: &mut Memory,
    alloc: Global,
    declared: &Declarations,
    sought: Sought<'a>,
    base: &Value,
    begun: &Value,
    slots: Vec<Slot>,
    told: &mut Told,
) -> Result<Next, OrMemory<Bad>>
    ensures { Tells next_view result (told_view told.old) (told_view told.new) (memory_view memory.new) (late_called (declarations_view declared.now) sought.entry.name.now (names_view sought.entry) (given_view sought.entry) (view base.now) (view begun.now) (map slot_view slots.items) (memory_view memory.old)) }
{
    let Some(way) = way_by_name(memory, declared, LateUse::Reading, sought, base) else {
        return Err(OrMemory::Fault(Bad::Raise(438)));
    };
    call_way(
        memory, alloc, declared, sought, base, begun, slots, way, told,
    )
}

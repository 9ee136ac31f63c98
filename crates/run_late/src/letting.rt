// Late-bound members are assigned to.
ghost use Rattle.std.specs.Prelude.{◌≡◌, IfOk, map};
ghost use Rattle.vba_values.specs.View.{view};
ghost use Rattle.bound_project.specs.View.{declarations_view};
ghost use Rattle.vba_meaning.specs.Effects.{slot_values};
ghost use Rattle.vba_meaning.specs.Host.{member_assigned};
ghost use Rattle.vba_meaning.specs.Defaults.{in_member, let_along, most_passed, nothing_more, put};
ghost use Rattle.vba_meaning.specs.LateBound.{host_let, item_let, late_let, let_element, let_indexed, let_plain, let_way};
ghost use Rattle.run_memory.specs.View.{memory_view, path_view, slot_view};
ghost use Rattle.run_collections.specs.View.{member_view};
ghost use Rattle.run_host.specs.ByName.{by_name_view};
ghost use Rattle.run_host.specs.Tells.{Tells};
ghost use Rattle.run_host.specs.View.{told_view};
ghost use Rattle.run_defaults.specs.View.{next_view};
ghost use Rattle.run_late.specs.Parts.{collection_let, counted_in, item_written, let_called, let_set, member_let};
ghost use Rattle.run_late.specs.View.{given_view, names_view, way_view};

use crate::arranging::arranged;
use crate::calling::host_arguments;
use crate::classes::way_by_name;
use crate::sought::Sought;
use crate::ways::{Way, indexes};
use bound_project::{Declarations, LateUse, MOST_PASSED, parameters_of, without_last};
use run_collections::{CollectionMember, collection_member, item_found};
use run_defaults::{
    Next, Spot, Task, is_instance, let_along, let_at, let_in_place, put, variable_of, write_along,
};
use run_host::{NamedArguments, Told, as_given, member_assigned};
use run_memory::{Memory, Path, Slot};
use std::alloc::Global;
use vba_base::{NoMemory, OrMemory, Units};
use vba_values::{Bad, ObjId, ObjRef, Value, copy_value};

/// What arguments lead to from a place takes a value: an element of an array in place.
pub fn let_element(
    memory: &mut Memory,
    alloc: Global,
    declared: &Declarations,
    path: Path,
    slots: Vec<Slot>,
    value: Value,
    told: &mut Told,
) -> Result<Next, OrMemory<Bad>>
    ensures { Tells next_view result (told_view told.old) (told_view told.new) (memory_view memory.new) (let_element (declarations_view declared.now) (path_view path) (slot_values (map slot_view slots.items)) (view value) (memory_view memory.old)) }
{
    let_in_place(
        memory,
        alloc,
        declared,
        MOST_PASSED,
        path,
        slots,
        value,
        told,
    )
}

/// What arguments lead to in a value that was read takes one.
fn let_begun(
    memory: &mut Memory,
    alloc: Global,
    declared: &Declarations,
    begun: &Value,
    slots: Vec<Slot>,
    value: Value,
    told: &mut Told,
) -> Result<Next, OrMemory<Bad>>
    ensures { Tells next_view result (told_view told.old) (told_view told.new) (memory_view memory.new) (let_along (declarations_view declared.now) most_passed (slot_values (map slot_view slots.items)) (view value) (view begun.now) (memory_view memory.old)) }
{
    let_along(
        memory,
        alloc,
        declared,
        MOST_PASSED,
        slots,
        value,
        begun,
        told,
    )
}

/// What the arguments index takes a value.
fn let_indexed(
    memory: &mut Memory,
    alloc: Global,
    declared: &Declarations,
    base: &Value,
    begun: &Value,
    slots: Vec<Slot>,
    value: Value,
    way: Way,
    told: &mut Told,
) -> Result<Next, OrMemory<Bad>>
    ensures { Tells next_view result (told_view told.old) (told_view told.new) (memory_view memory.new) (let_indexed (declarations_view declared.now) (view begun.now) (slot_values (map slot_view slots.items)) (view value) (way_view (declarations_view declared.now) (view base.now) (memory_view memory.old) way) (memory_view memory.old)) }
{
    match way {
        Way::Variable { field, makes } => {
            let path = variable_of(memory, alloc, declared, base, field, makes)?;
            let_element(memory, alloc, declared, path, slots, value, told)
        }
        Way::Call {
            procedure: _procedure,
            is_get: _is_get,
        } => let_begun(memory, alloc, declared, begun, slots, value, told),
        Way::Setter {
            procedure: _procedure,
        } => let_begun(memory, alloc, declared, begun, slots, value, told),
    }
}

/// A procedure is called whose result has its default member written.
fn let_called<'a>(
    alloc: Global,
    declared: &Declarations,
    names: NamedArguments<'a>,
    base: &Value,
    slots: &[Slot],
    value: Value,
    procedure: u32,
) -> Result<Next, NoMemory>
    ensures { IfOk result (λ next. next_view next ≡ let_called (declarations_view declared.now) (by_name_view names.entry) (view base.now) (map slot_view slots.now) (view value) procedure) }
{
    let parameters = parameters_of(declared, procedure);
    let arguments = arranged(alloc, parameters, names, slots)?;
    let me = copy_value(alloc, base)?;
    let task = Task::Write {
        left: MOST_PASSED,
        value,
    };
    let tasks = vec![in alloc; task]?;
    Ok(Next::Calls {
        procedure,
        me,
        arguments,
        tasks,
    })
}

/// A Let is given its arguments and the value.
fn let_set<'a>(
    memory: &mut Memory,
    alloc: Global,
    declared: &Declarations,
    names: NamedArguments<'a>,
    base: &Value,
    slots: &[Slot],
    value: Value,
    procedure: u32,
    told: &mut Told,
) -> Result<Next, OrMemory<Bad>>
    ensures { Tells next_view result (told_view told.old) (told_view told.new) (memory_view memory.new) (let_set (declarations_view declared.now) (by_name_view names.entry) (view base.now) (map slot_view slots.now) (view value) procedure (memory_view memory.old)) }
{
    let parameters = without_last(parameters_of(declared, procedure));
    let arguments = arranged(alloc, parameters, names, slots)?;
    let me = copy_value(alloc, base)?;
    let spot = Spot::Let {
        procedure,
        me,
        arguments,
    };
    put(memory, alloc, declared, spot, value, told)
}

/// What was found takes a value: a variable, the default member of what a procedure gives, or a Let.
fn let_plain<'a>(
    memory: &mut Memory,
    alloc: Global,
    declared: &Declarations,
    names: NamedArguments<'a>,
    base: &Value,
    slots: &[Slot],
    value: Value,
    way: Way,
    told: &mut Told,
) -> Result<Next, OrMemory<Bad>>
    ensures { Tells next_view result (told_view told.old) (told_view told.new) (memory_view memory.new) (let_plain (declarations_view declared.now) (by_name_view names.entry) (view base.now) (map slot_view slots.now) (view value) (way_view (declarations_view declared.now) (view base.now) (memory_view memory.old) way) (memory_view memory.old)) }
{
    match way {
        Way::Variable { field, makes } => {
            let path = variable_of(memory, alloc, declared, base, field, makes)?;
            let_at(memory, alloc, declared, path, value, told)
        }
        Way::Call {
            procedure,
            is_get: _is_get,
        } => {
            let next = let_called(alloc, declared, names, base, slots, value, procedure)?;
            Ok(next)
        }
        Way::Setter { procedure } => {
            let_set(
                memory, alloc, declared, names, base, slots, value, procedure, told,
            )
        }
    }
}

/// The same, or what the arguments index takes it.
fn let_way<'a>(
    memory: &mut Memory,
    alloc: Global,
    declared: &Declarations,
    sought: Sought<'a>,
    base: &Value,
    begun: &Value,
    slots: Vec<Slot>,
    value: Value,
    way: Way,
    told: &mut Told,
) -> Result<Next, OrMemory<Bad>>
    ensures { Tells next_view result (told_view told.old) (told_view told.new) (memory_view memory.new) (let_way (declarations_view declared.now) (names_view sought.entry) (given_view sought.entry) (view base.now) (view begun.now) (map slot_view slots.items) (view value) (way_view (declarations_view declared.now) (view base.now) (memory_view memory.old) way) (memory_view memory.old)) }
{
    if indexes(declared, sought, way) {
        return let_indexed(
            memory, alloc, declared, base, begun, slots, value, way, told,
        );
    }
    let slots = slots.as_slice();
    let_plain(
        memory,
        alloc,
        declared,
        sought.names,
        base,
        slots,
        value,
        way,
        told,
    )
}

/// The default member of an item of a Collection is written.
fn write_item(
    memory: &mut Memory,
    alloc: Global,
    declared: &Declarations,
    number: u32,
    slots: &[Slot],
    value: Value,
    told: &mut Told,
) -> Result<Next, OrMemory<Bad>>
    ensures { Tells next_view result (told_view told.old) (told_view told.new) (memory_view memory.new) (item_written (declarations_view declared.now) number (slot_values (map slot_view slots.now)) (view value) (memory_view memory.old)) }
{
    let target = item_found(memory, alloc, number, slots)?;
    write_along(memory, alloc, declared, MOST_PASSED, value, &target, told)
}

/// Of a Collection the default member of an item is written.
#[tactic(auto, using(crate::proofs::Assigned::item_is))]
fn item_let(
    memory: &mut Memory,
    alloc: Global,
    declared: &Declarations,
    number: u32,
    how: CollectionMember,
    slots: &[Slot],
    value: Value,
    told: &mut Told,
) -> Result<Next, OrMemory<Bad>>
    ensures { Tells next_view result (told_view told.old) (told_view told.new) (memory_view memory.new) (item_let (declarations_view declared.now) number (member_view how) (slot_values (map slot_view slots.now)) (view value) (memory_view memory.old)) }
{
    match how {
        CollectionMember::Item => write_item(memory, alloc, declared, number, slots, value, told),
        CollectionMember::Add
        | CollectionMember::Count
        | CollectionMember::Remove
        | CollectionMember::Enumerator => Err(OrMemory::Fault(Bad::Raise(438))),
    }
}

/// A member of the counted object with a number is assigned to.
fn collection_let(
    memory: &mut Memory,
    alloc: Global,
    declared: &Declarations,
    number: u32,
    name: &[u16],
    slots: &[Slot],
    value: Value,
    told: &mut Told,
) -> Result<Next, OrMemory<Bad>>
    ensures { Tells next_view result (told_view told.old) (told_view told.new) (memory_view memory.new) (collection_let (declarations_view declared.now) number name.now (slot_values (map slot_view slots.now)) (view value) (memory_view memory.old)) }
{
    let how = collection_member(memory, number, name)?;
    item_let(
        memory,
        alloc,
        declared,
        number,
        how,
        as_given(slots),
        value,
        told,
    )
}

/// A member of an object of the host takes the value of an object of a class.
fn member_put(
    memory: &mut Memory,
    alloc: Global,
    declared: &Declarations,
    name: &[u16],
    slots: Vec<Slot>,
    base: &Value,
    begun: &Value,
    value: Value,
    told: &mut Told,
) -> Result<Next, OrMemory<Bad>>
    ensures { Tells next_view result (told_view told.old) (told_view told.new) (memory_view memory.new) (put (declarations_view declared.now) (in_member name.now (slot_values (map slot_view slots.items)) (view base.now) (view begun.now)) (view value) (memory_view memory.old)) }
{
    let name = Units::from_units(alloc, name)?;
    let base = copy_value(alloc, base)?;
    let begun = copy_value(alloc, begun)?;
    let spot = Spot::Member {
        name,
        arguments: slots,
        base,
        begun,
    };
    put(memory, alloc, declared, spot, value, told)
}

/// The same of any other value.
fn member_set(
    memory: &mut Memory,
    alloc: Global,
    declared: &Declarations,
    name: &[u16],
    slots: &[Slot],
    base: &Value,
    begun: &Value,
    value: Value,
    told: &mut Told,
) -> Result<Next, OrMemory<Bad>>
    ensures { Tells next_view result (told_view told.old) (told_view told.new) (memory_view memory.new) (nothing_more (member_assigned (declarations_view declared.now) name.now (slot_values (map slot_view slots.now)) (view base.now) (view begun.now) (view value) (memory_view memory.old))) }
{
    member_assigned(
        memory, alloc, declared, name, slots, base, begun, value, told,
    )?;
    Ok(Next::Gives(Value::Empty))
}

/// A member of any other value is assigned to.
fn member_let(
    memory: &mut Memory,
    alloc: Global,
    declared: &Declarations,
    name: &[u16],
    slots: Vec<Slot>,
    base: &Value,
    begun: &Value,
    value: Value,
    told: &mut Told,
) -> Result<Next, OrMemory<Bad>>
    ensures { Tells next_view result (told_view told.old) (told_view told.new) (memory_view memory.new) (member_let (declarations_view declared.now) name.now (slot_values (map slot_view slots.items)) (view base.now) (view begun.now) (view value) (memory_view memory.old)) }
{
    if is_instance(memory, &value) {
        return member_put(
            memory, alloc, declared, name, slots, base, begun, value, told,
        );
    }
    let slots = slots.as_slice();
    member_set(
        memory, alloc, declared, name, slots, base, begun, value, told,
    )
}

/// The counted object that a value is.
fn counted_in(base: &Value) -> Option<ObjId>
    ensures { result ≡ counted_in (view base.now) }
{
    match base {
        Value::Object(ObjRef::Heap(id)) => Some(*id),
        _ => None,
    }
}

/// A member of the host or of a Collection is assigned to.
#[tactic(auto, using(crate::proofs::Assigned::of_counted, crate::proofs::Assigned::of_other))]
fn host_let(
    memory: &mut Memory,
    alloc: Global,
    declared: &Declarations,
    name: &[u16],
    slots: Vec<Slot>,
    base: &Value,
    begun: &Value,
    value: Value,
    told: &mut Told,
) -> Result<Next, OrMemory<Bad>>
    ensures { Tells next_view result (told_view told.old) (told_view told.new) (memory_view memory.new) (host_let (declarations_view declared.now) name.now (slot_values (map slot_view slots.items)) (view base.now) (view begun.now) (view value) (memory_view memory.old)) }
{
    let Some(id) = counted_in(base) else {
        return member_let(
            memory, alloc, declared, name, slots, base, begun, value, told,
        );
    };
    collection_let(
        memory,
        alloc,
        declared,
        id.0,
        name,
        slots.as_slice(),
        value,
        told,
    )
}

/// A member is assigned to.
pub fn late_let<'a>(
    memory: &mut Memory,
    alloc: Global,
    declared: &Declarations,
    sought: Sought<'a>,
    base: &Value,
    begun: &Value,
    slots: Vec<Slot>,
    value: Value,
    told: &mut Told,
) -> Result<Next, OrMemory<Bad>>
    ensures { Tells next_view result (told_view told.old) (told_view told.new) (memory_view memory.new) (late_let (declarations_view declared.now) sought.entry.name.now (names_view sought.entry) (given_view sought.entry) (view base.now) (view begun.now) (map slot_view slots.items) (view value) (memory_view memory.old)) }
{
    if !is_instance(memory, base) {
        let slots = host_arguments(alloc, base, sought.name, sought.names, slots)?;
        return host_let(
            memory,
            alloc,
            declared,
            sought.name,
            slots,
            base,
            begun,
            value,
            told,
        );
    }
    let Some(way) = way_by_name(memory, declared, LateUse::Assigning, sought, base) else {
        return Err(OrMemory::Fault(Bad::Raise(438)));
    };
    let_way(
        memory, alloc, declared, sought, base, begun, slots, value, way, told,
    )
}

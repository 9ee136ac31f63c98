// Uses of late-bound members begin: before any argument is evaluated, and what the arguments index is read.
ghost use Rattle.std.specs.Prelude.{◌≡◌, map};
ghost use Rattle.vba_values.specs.View.{view};
ghost use Rattle.bound_project.specs.View.{declarations_view, parameter_view};
ghost use Rattle.vba_meaning.specs.Memory.{Memory as PlainMemory};
ghost use Rattle.vba_meaning.specs.Host.{member_not_set, member_there};
ghost use Rattle.vba_meaning.specs.ByName.{named_there};
ghost use Rattle.vba_meaning.specs.Defaults.{nothing_more, over_with};
ghost use Rattle.vba_meaning.specs.LateBound.{host_there, late_there, member_there_of, way_there, what_is_indexed};
ghost use Rattle.run_memory.specs.Acts.{Acts};
ghost use Rattle.run_memory.specs.View.{memory_view};
ghost use Rattle.run_host.specs.ByName.{by_name_view};
ghost use Rattle.run_host.specs.Tells.{Tells};
ghost use Rattle.run_host.specs.View.{told_view};
ghost use Rattle.run_defaults.specs.View.{next_view};
ghost use Rattle.run_late.specs.Parts.{arguments_begun, host_begun, is_read};
ghost use Rattle.pcode.specs.View.{use_view};
ghost use Rattle.run_late.specs.View.{given_view, names_view, way_view};

use crate::arguments::arguments_fit;
use crate::classes::way_by_name;
use crate::names::has_names;
use crate::sought::{Sought, how_many};
use crate::ways::{Way, indexes, taken_by_way};
use bound_project::{Declarations, LateUse, Parameter};
use run_defaults::{Next, is_instance, read_variable, variable_of};
use run_host::{NamedArguments, Told, member_not_set, member_there, named_there};
use run_memory::Memory;
use std::alloc::Global;
use vba_base::OrMemory;
use vba_values::{Bad, Value, copy_value};

/// Whether a member is read.
fn is_read(aim: LateUse) -> bool
    ensures { result ≡ is_read (use_view aim) }
{
    match aim {
        LateUse::Reading => true,
        LateUse::Assigning => false,
        LateUse::Setting => false,
    }
}

/// What the arguments index is read: of a variable only where the member is read.
#[tactic(auto, using(crate::proofs::Uses::called_any, crate::proofs::Uses::variable_read, crate::proofs::Uses::variable_left, crate::proofs::Uses::setter_any))]
fn what_is_indexed(
    memory: &mut Memory,
    alloc: Global,
    declared: &Declarations,
    aim: LateUse,
    base: &Value,
    way: Way,
    told: &mut Told,
) -> Result<Next, OrMemory<Bad>>
    ensures { Tells next_view result (told_view told.old) (told_view told.new) (memory_view memory.new) (what_is_indexed (declarations_view declared.now) (use_view aim) (view base.now) (way_view (declarations_view declared.now) (view base.now) (memory_view memory.old) way) (memory_view memory.old)) }
{
    match way {
        Way::Variable { field, makes } => {
            if !is_read(aim) {
                return Ok(Next::Gives(Value::Empty));
            }
            let path = variable_of(memory, alloc, declared, base, field, makes)?;
            read_variable(memory, alloc, declared, path, told)
        }
        Way::Call {
            procedure,
            is_get: _is_get,
        } => {
            let me = copy_value(alloc, base)?;
            Ok(Next::Calls {
                procedure,
                me,
                arguments: Vec::new(alloc),
                tasks: Vec::new(alloc),
            })
        }
        Way::Setter {
            procedure: _procedure,
        } => Ok(Next::Gives(Value::Empty)),
    }
}

/// Arguments fit, and index nothing.
#[tactic(auto, using(run_memory::proofs::Refused::refuses_then))]
fn arguments_begun<'a>(parameters: &[Parameter], sought: Sought<'a>) -> Result<Next, OrMemory<Bad>>
    ensures { (m : PlainMemory) → Acts next_view result m (arguments_begun (map parameter_view parameters.now) (names_view sought.entry) (given_view sought.entry) m) }
{
    arguments_fit(parameters, sought)?;
    Ok(Next::Gives(Value::Empty))
}

/// The use of what was found begins: the arguments index it, or they fit.
#[tactic(auto, using(run_host::proofs::Telling::acts_tell))]
fn way_there<'a>(
    memory: &mut Memory,
    alloc: Global,
    declared: &Declarations,
    aim: LateUse,
    sought: Sought<'a>,
    base: &Value,
    way: Way,
    told: &mut Told,
) -> Result<Next, OrMemory<Bad>>
    ensures { Tells next_view result (told_view told.old) (told_view told.new) (memory_view memory.new) (way_there (declarations_view declared.now) (use_view aim) (names_view sought.entry) (given_view sought.entry) (view base.now) (way_view (declarations_view declared.now) (view base.now) (memory_view memory.old) way) (memory_view memory.old)) }
{
    if indexes(declared, sought, way) {
        return what_is_indexed(memory, alloc, declared, aim, base, way, told);
    }
    arguments_begun(taken_by_way(declared, way), sought)
}

/// The use of a member of an object of a class begins: 438 where it has no such one.
fn member_there_of<'a>(
    memory: &mut Memory,
    alloc: Global,
    declared: &Declarations,
    aim: LateUse,
    sought: Sought<'a>,
    base: &Value,
    told: &mut Told,
) -> Result<Next, OrMemory<Bad>>
    ensures { Tells next_view result (told_view told.old) (told_view told.new) (memory_view memory.new) (member_there_of (declarations_view declared.now) (use_view aim) sought.entry.name.now (names_view sought.entry) (given_view sought.entry) (view base.now) (memory_view memory.old)) }
{
    let Some(way) = way_by_name(memory, declared, aim, sought, base) else {
        return Err(OrMemory::Fault(Bad::Raise(438)));
    };
    way_there(memory, alloc, declared, aim, sought, base, way, told)
}

/// Set of a member of any other value is refused.
#[tactic(auto, using(run_memory::proofs::Refused::refuses_then))]
pub fn set_refused(base: &Value) -> Result<Next, OrMemory<Bad>>
    ensures { (m : PlainMemory) → Acts next_view result m (nothing_more (member_not_set (view base.now) m)) }
{
    member_not_set(base)?;
    Ok(Next::Gives(Value::Empty))
}

/// A member of the host or of a Collection is looked up, where arguments have names.
#[tactic(auto, using(run_memory::proofs::Refused::refused_then))]
fn named_begun<'a>(
    memory: &Memory,
    name: &[u16],
    names: NamedArguments<'a>,
    given: u32,
    base: &Value,
) -> Result<Next, OrMemory<Bad>>
    ensures { Acts next_view result (memory_view memory.now) (over_with (named_there name.now (by_name_view names.entry) given (view base.now) (memory_view memory.now))) }
{
    let begun = named_there(memory, name, names, given, base)?;
    Ok(Next::Gives(begun))
}

/// The same where none has.
fn member_begun(
    memory: &mut Memory,
    alloc: Global,
    declared: &Declarations,
    name: &[u16],
    given: u32,
    base: &Value,
    told: &mut Told,
) -> Result<Next, OrMemory<Bad>>
    ensures { Tells next_view result (told_view told.old) (told_view told.new) (memory_view memory.new) (over_with (member_there (declarations_view declared.now) name.now given (view base.now) (memory_view memory.old))) }
{
    let begun = member_there(memory, alloc, declared, name, given, base, told)?;
    Ok(Next::Gives(begun))
}

/// The same by how arguments are named.
#[tactic(auto, using(run_host::proofs::Telling::acts_tell))]
fn host_begun<'a>(
    memory: &mut Memory,
    alloc: Global,
    declared: &Declarations,
    sought: Sought<'a>,
    base: &Value,
    told: &mut Told,
) -> Result<Next, OrMemory<Bad>>
    ensures { Tells next_view result (told_view told.old) (told_view told.new) (memory_view memory.new) (host_begun (declarations_view declared.now) sought.entry.name.now (names_view sought.entry) (given_view sought.entry) (view base.now) (memory_view memory.old)) }
{
    let given = how_many(sought.arguments, sought.given);
    if has_names(sought.names) {
        return named_begun(memory, sought.name, sought.names, given, base);
    }
    member_begun(memory, alloc, declared, sought.name, given, base, told)
}

/// The use of a member of any other value begins.
#[tactic(auto, using(run_host::proofs::Telling::acts_tell))]
fn host_there<'a>(
    memory: &mut Memory,
    alloc: Global,
    declared: &Declarations,
    aim: LateUse,
    sought: Sought<'a>,
    base: &Value,
    told: &mut Told,
) -> Result<Next, OrMemory<Bad>>
    ensures { Tells next_view result (told_view told.old) (told_view told.new) (memory_view memory.new) (host_there (declarations_view declared.now) (use_view aim) sought.entry.name.now (names_view sought.entry) (given_view sought.entry) (view base.now) (memory_view memory.old)) }
{
    match aim {
        LateUse::Reading => host_begun(memory, alloc, declared, sought, base, told),
        LateUse::Assigning => host_begun(memory, alloc, declared, sought, base, told),
        LateUse::Setting => set_refused(base),
    }
}

/// The use of a member begins.
pub fn late_there<'a>(
    memory: &mut Memory,
    alloc: Global,
    declared: &Declarations,
    aim: LateUse,
    sought: Sought<'a>,
    base: &Value,
    told: &mut Told,
) -> Result<Next, OrMemory<Bad>>
    ensures { Tells next_view result (told_view told.old) (told_view told.new) (memory_view memory.new) (late_there (declarations_view declared.now) (use_view aim) sought.entry.name.now (names_view sought.entry) (given_view sought.entry) (view base.now) (memory_view memory.old)) }
{
    if is_instance(memory, base) {
        return member_there_of(memory, alloc, declared, aim, sought, base, told);
    }
    host_there(memory, alloc, declared, aim, sought, base, told)
}

// Arguments of late-bound members, as their parameters take them.
ghost use Rattle.std.specs.Prelude.{◌≡◌, IfOk, Some, map, option_map};
ghost use Rattle.vba_values.specs.Val.{Val};
ghost use Rattle.vba_values.specs.View.{view};
ghost use Rattle.bound_project.specs.View.{declarations_view, parameter_view};
ghost use Rattle.vba_meaning.specs.Memory.{Memory as PlainMemory};
ghost use Rattle.vba_meaning.specs.LateBound.{argument_tasks, keeps_object, lends_place, parameter_by_way, parameter_for, place_copied, takes_place, tasks_for, value_bound};
ghost use Rattle.run_memory.specs.View.{memory_view, path_view};
ghost use Rattle.run_host.specs.ByName.{by_name_view};
ghost use Rattle.run_host.specs.Tells.{Tells};
ghost use Rattle.run_host.specs.View.{told_view};
ghost use Rattle.run_defaults.specs.View.{next_view, tasks_view};
ghost use Rattle.run_host.specs.Members.{is_missing};
ghost use Rattle.pcode.specs.View.{use_view};
ghost use Rattle.run_late.specs.View.{given_view, names_view, way_view};

use crate::arguments::parameter_of;
use crate::classes::way_by_name;
use crate::names::{is_word, name_given};
use crate::sought::Sought;
use crate::ways::{Way, indexes, taken_by_way};
use bound_project::{Declarations, LateUse, Parameter};
use run_defaults::{
    Next, Task, can_be_object, followed, is_instance, is_variable_place, read_variable, tasks_next,
};
use run_host::{NamedArguments, Told};
use run_memory::{Memory, Path};
use std::alloc::Global;
use vba_base::{NoMemory, OrMemory};
use vba_values::{Bad, Value, is_same_type};

/// The parameter of an argument by what does the use: none where the arguments index what it has.
fn parameter_by_way<'a, 'b>(
    declared: &'a Declarations,
    sought: Sought<'b>,
    argument: u32,
    way: Way,
) -> Option<&'a Parameter>
    ensures { (v : Val) (m : PlainMemory) → option_map (λ q. parameter_view q.now) result
        ≡ parameter_by_way (declarations_view declared.now) (names_view sought.entry) (given_view sought.entry) argument (Some (way_view (declarations_view declared.now) v m way)) }
{
    if indexes(declared, sought, way) {
        return None;
    }
    parameter_of(taken_by_way(declared, way), sought.names, argument)
}

/// The parameter of an argument of a member of an object, where there is one.
fn parameter_for<'a, 'b>(
    memory: &Memory,
    declared: &'a Declarations,
    aim: LateUse,
    sought: Sought<'b>,
    argument: u32,
    base: &Value,
) -> Option<&'a Parameter>
    ensures { option_map (λ q. parameter_view q.now) result ≡ parameter_for (declarations_view declared.now) (use_view aim) sought.entry.name.now (names_view sought.entry) (given_view sought.entry)
        argument (view base.now) (memory_view memory.now) }
{
    let way = way_by_name(memory, declared, aim, sought, base)?;
    parameter_by_way(declared, sought, argument, way)
}

/// How a value becomes one of a parameter's type: an object stays where that may be one. The task that comes first is the
/// last one.
fn tasks_for(alloc: Global, parameter: &Parameter) -> Result<Vec<Task>, NoMemory>
    ensures { IfOk result (λ tasks. tasks_view tasks.items ≡ tasks_for (Some (parameter_view parameter.now))) }
{
    if parameter.is_param_array {
        return Ok(Vec::new(alloc));
    }
    let mut tasks = vec![in alloc; Task::FitTo(parameter.of)]?;
    if !can_be_object(parameter.of) {
        tasks.push(Task::Operand)?;
    }
    Ok(tasks)
}

/// Whether an argument may be an object of a class: the item of Add, of a member of the host or of a Collection.
fn keeps_object<'a>(name: &[u16], names: NamedArguments<'a>, argument: u32) -> bool
    ensures { result ≡ keeps_object name.now (by_name_view names.entry) argument }
{
    if !is_word(name, b"add") {
        return false;
    }
    if argument < names.before {
        argument < 1
    } else {
        is_word(name_given(names, argument - names.before), b"item")
    }
}

/// What is to be done with an argument.
fn argument_tasks<'a>(
    memory: &Memory,
    alloc: Global,
    declared: &Declarations,
    aim: LateUse,
    sought: Sought<'a>,
    argument: u32,
    base: &Value,
) -> Result<Vec<Task>, NoMemory>
    ensures { IfOk result (λ tasks. tasks_view tasks.items ≡ argument_tasks (declarations_view declared.now) (use_view aim) sought.entry.name.now (names_view sought.entry) (given_view sought.entry)
        argument (view base.now) (memory_view memory.now)) }
{
    if is_instance(memory, base) {
        return match parameter_for(memory, declared, aim, sought, argument, base) {
            Some(parameter) => tasks_for(alloc, parameter),
            None => Ok(Vec::new(alloc)),
        };
    }
    if keeps_object(sought.name, sought.names, argument) {
        return Ok(Vec::new(alloc));
    }
    let tasks = vec![in alloc; Task::GiveWay]?;
    Ok(tasks)
}

/// Whether a value is that of an argument that isn't given.
fn is_missing(value: &Value) -> bool
    ensures { result ≡ is_missing (view value.now) }
{
    matches!(value, Value::Missing)
}

/// The value of an argument becomes what its parameter takes; one that is not given stays.
#[tactic(auto, using(crate::proofs::Bound::missing_stays, crate::proofs::Bound::others_become))]
pub fn value_bound<'a>(
    memory: &mut Memory,
    alloc: Global,
    declared: &Declarations,
    aim: LateUse,
    sought: Sought<'a>,
    argument: u32,
    base: &Value,
    value: Value,
    told: &mut Told,
) -> Result<Next, OrMemory<Bad>>
    ensures { Tells next_view result (told_view told.old) (told_view told.new) (memory_view memory.new) (value_bound (declarations_view declared.now) (use_view aim) sought.entry.name.now (names_view sought.entry) (given_view sought.entry) argument (view base.now) (view value) (memory_view memory.old)) }
{
    if is_missing(&value) {
        return Ok(Next::Gives(Value::Missing));
    }
    let tasks = argument_tasks(memory, alloc, declared, aim, sought, argument, base)?;
    tasks_next(memory, alloc, declared, tasks, value, told)
}

/// Whether a parameter is lent a place: it is ByRef and has its type.
fn takes_place(alloc: Global, parameter: &Parameter, path: &Path) -> Result<bool, NoMemory>
    ensures { IfOk result (λ takes. takes ≡ takes_place (Some (parameter_view parameter.now)) (path_view path.now)) }
{
    if !parameter.is_by_reference || parameter.is_param_array {
        return Ok(false);
    }
    let of = parameter.of.value_type(alloc)?;
    Ok(is_same_type(&of, &path.of) && is_variable_place(&path.root))
}

/// Whether the parameter of an argument is lent its place; any other gets a copy.
pub fn lends_place<'a>(
    memory: &Memory,
    alloc: Global,
    declared: &Declarations,
    aim: LateUse,
    sought: Sought<'a>,
    argument: u32,
    base: &Value,
    path: &Path,
) -> Result<bool, NoMemory>
    ensures { IfOk result (λ lends. lends ≡ lends_place (declarations_view declared.now) (use_view aim) sought.entry.name.now (names_view sought.entry) (given_view sought.entry)
        argument (view base.now) (path_view path.now) (memory_view memory.now)) }
{
    if !is_instance(memory, base) {
        return Ok(false);
    }
    match parameter_for(memory, declared, aim, sought, argument, base) {
        Some(parameter) => takes_place(alloc, parameter, path),
        None => Ok(false),
    }
}

/// What is at a place becomes what the parameter of an argument takes.
pub fn place_copied<'a>(
    memory: &mut Memory,
    alloc: Global,
    declared: &Declarations,
    aim: LateUse,
    sought: Sought<'a>,
    argument: u32,
    base: &Value,
    path: Path,
    told: &mut Told,
) -> Result<Next, OrMemory<Bad>>
    ensures { Tells next_view result (told_view told.old) (told_view told.new) (memory_view memory.new) (place_copied (declarations_view declared.now) (use_view aim) sought.entry.name.now (names_view sought.entry) (given_view sought.entry) argument (view base.now) (path_view path) (memory_view memory.old)) }
{
    let tasks = argument_tasks(memory, alloc, declared, aim, sought, argument, base)?;
    let next = read_variable(memory, alloc, declared, path, told)?;
    followed(memory, alloc, declared, tasks, next, told)
}

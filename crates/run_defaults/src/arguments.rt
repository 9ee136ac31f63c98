// Arguments as the parameters of a procedure take them ([MS-VBAL] 5.3.1.11).
ghost use Rattle.std.specs.Prelude.{◌≡◌, ◌∷◌, [], IfOk, map, option_map};
ghost use Rattle.vba_values.specs.View.{view};
ghost use Rattle.bound_project.specs.View.{declared_view, parameter_view};
ghost use Rattle.vba_meaning.specs.Memory.{value as value_slot};
ghost use Rattle.vba_meaning.specs.Collections.{is_given};
ghost use Rattle.vba_meaning.specs.Effects.{Fine, on_fine, packed, slot_value, slot_values};
ghost use Rattle.vba_meaning.specs.Defaults.{any_given, given_to, slot_given, slots_from, slots_in, too_few, too_many};
ghost use Rattle.run_memory.specs.Acts.{Acts};
ghost use Rattle.run_memory.specs.View.{memory_view, slot_view};
ghost use Rattle.run_defaults.specs.Parts.{Leaves};

use crate::parameters::{all_left_out, can_be_object, left_out};
use bound_project::{DeclaredType, Parameter, any_must, must_be_given};
use run_memory::{Memory, Slot};
use std::alloc::Global;
use std::collections::VecDeque;
use vba_base::{NoMemory, OrMemory};
use vba_values::{ArrayValue, Bad, Bound, VType, Value};

/// The array of a ParamArray.
pub fn packed(alloc: Global, slots: Vec<Slot>) -> Result<Value, NoMemory>
    ensures { IfOk result (λ value. view value ≡ packed (map slot_view slots.items)) }
{
    let count = i32::try_from(slots.len()).map_err(|_| NoMemory)?;
    let bounds = vec![in alloc;
        Bound {
            low: 0,
            high: count - 1
        },
    ]?;
    let items = values_of(alloc, slots)?;
    let array = ArrayValue {
        bounds,
        element: VType::Variant,
        items,
    };
    Ok(Value::Array(Box::new(alloc, array)?))
}

/// What slots contain; a path counts as nothing.
#[tactic(auto, using(crate::proofs::Given::values_more))]
pub fn values_of(alloc: Global, slots: Vec<Slot>) -> Result<Vec<Value>, NoMemory>
    ensures { IfOk result (λ values. map view values.items ≡ slot_values (map slot_view slots.items)) }
{
    let mut values = Vec::with_capacity(alloc, slots.len())?;
    for slot in slots {
        values.push(value_of(slot))?;
    }
    Ok(values)
}

#[tactic(auto, using(crate::proofs::Given::no_value_is_empty))]
fn value_of(slot: Slot) -> Value
    ensures { view result ≡ slot_value (slot_view slot) }
{
    match slot.into_value() {
        Some(value) => value,
        None => Value::Empty,
    }
}

/// Whether an argument is given.
fn is_given(slot: &Slot) -> bool
    ensures { result ≡ is_given (slot_value (slot_view slot.now)) }
{
    !matches!(slot, Slot::Value(Value::Missing))
}

fn any_given(arguments: &[Slot]) -> bool
    ensures { result ≡ any_given (slot_values (map slot_view arguments.now)) }
{
    match arguments {
        [] => false,
        [first, arguments @ ..] => is_given(first) || any_given(arguments),
    }
}

/// Whether an argument is given that has no parameter.
#[cycle(too_many)]
fn too_many(parameters: &[Parameter], arguments: &[Slot]) -> bool
    ensures { result ≡ too_many (map parameter_view parameters.now) (slot_values (map slot_view arguments.now)) }
{
    match parameters {
        [] => any_given(arguments),
        [first, behind @ ..] => too_many_behind(first, behind, arguments),
    }
}

/// The same where there is a parameter.
#[cycle(too_many)]
fn too_many_behind(first: &Parameter, behind: &[Parameter], arguments: &[Slot]) -> bool
    ensures { result ≡ too_many (parameter_view first.now ∷ map parameter_view behind.now) (slot_values (map slot_view arguments.now)) }
{
    match arguments {
        [] => false,
        [_argument, others @ ..] => !first.is_param_array && too_many(behind, others),
    }
}

/// Whether a parameter has no argument to which one must be given.
#[cycle(too_few)]
fn too_few(parameters: &[Parameter], arguments: &[Slot]) -> bool
    ensures { result ≡ too_few (map parameter_view parameters.now) (slot_values (map slot_view arguments.now)) }
{
    match parameters {
        [] => false,
        [first, behind @ ..] => too_few_behind(first, behind, arguments),
    }
}

/// The same where there is a parameter.
#[cycle(too_few)]
fn too_few_behind(first: &Parameter, behind: &[Parameter], arguments: &[Slot]) -> bool
    ensures { result ≡ too_few (parameter_view first.now ∷ map parameter_view behind.now) (slot_values (map slot_view arguments.now)) }
{
    match arguments {
        [] => must_be_given(first) || any_must(behind),
        [argument, others @ ..] => {
            (must_be_given(first) && !is_given(argument)) || too_few(behind, others)
        }
    }
}

/// A value as a parameter takes it.
#[tactic(auto, using(run_memory::proofs::Refused::refused_then))]
fn given_to(
    memory: &Memory,
    alloc: Global,
    of: DeclaredType,
    value: Value,
) -> Result<Value, OrMemory<Bad>>
    ensures { Acts view result (memory_view memory.now) (given_to (declared_view of) (view value) (memory_view memory.now)) }
{
    let declared = of.value_type(alloc)?;
    if can_be_object(of) {
        return memory.fitted(alloc, &declared, value);
    }
    let value = memory.plain(alloc, value)?;
    memory.fitted(alloc, &declared, value)
}

/// What a parameter has of its argument.
#[tactic(auto, using(run_memory::proofs::Refused::refused_then))]
fn slot_given(
    memory: &Memory,
    alloc: Global,
    parameter: &Parameter,
    argument: Value,
) -> Result<Slot, OrMemory<Bad>>
    ensures { Acts slot_view result (memory_view memory.now) (slot_given (parameter_view parameter.now) (view argument) (memory_view memory.now)) }
{
    match argument {
        Value::Missing => Ok(left_out(alloc, parameter)?),
        argument => {
            let value = given_to(memory, alloc, parameter.of, argument)?;
            Ok(Slot::Value(value))
        }
    }
}

/// The next argument.
fn next_argument(arguments: &mut VecDeque<Slot>) -> Option<Value>
    ensures { Leaves (slot_values (map slot_view arguments.old.items)) (option_map view result) (slot_values (map slot_view arguments.new.items)) }
{
    match arguments.pop_front() {
        Some(argument) => Some(value_of(argument)),
        None => None,
    }
}

/// The array of a ParamArray that has these arguments.
fn packed_with(alloc: Global, first: Value, behind: VecDeque<Slot>) -> Result<Value, NoMemory>
    ensures { IfOk result (λ array. view array ≡ packed (map value_slot (view first ∷ slot_values (map slot_view behind.items)))) }
{
    let mut all = Vec::from(behind);
    all.insert(0, Slot::Value(first))?;
    packed(alloc, all)
}

/// A ParamArray has these arguments.
fn all_in_one(alloc: Global, first: Value, behind: VecDeque<Slot>) -> Result<Vec<Slot>, NoMemory>
    ensures { IfOk result (λ slots. map slot_view slots.items ≡ value_slot (packed (map value_slot (view first ∷ slot_values (map slot_view behind.items)))) ∷ []) }
{
    let array = packed_with(alloc, first, behind)?;
    let mut slots = Vec::new(alloc);
    slots.push(Slot::Value(array))?;
    Ok(slots)
}

/// What parameters have of these arguments, which become what each takes in their order: a ParamArray all further ones.
#[cycle(slots_in)]
#[tactic(auto, using(run_memory::proofs::Refused::refused_then, crate::proofs::Given::none_given))]
fn slots_in(
    memory: &Memory,
    alloc: Global,
    parameters: &[Parameter],
    arguments: VecDeque<Slot>,
) -> Result<Vec<Slot>, OrMemory<Bad>>
    ensures { Acts (λ slots. map slot_view slots.items) result (memory_view memory.now) (slots_in (map parameter_view parameters.now) (slot_values (map slot_view arguments.items)) (memory_view memory.now)) }
{
    match parameters {
        [] => Ok(Vec::new(alloc)),
        [first, behind @ ..] => {
            let mut arguments = arguments;
            let Some(argument) = next_argument(&mut arguments) else {
                let slots = all_left_out(alloc, parameters)?;
                return Ok(slots);
            };
            slots_with(memory, alloc, first, behind, argument, arguments)
        }
    }
}

/// The same where there are a parameter and an argument.
#[cycle(slots_in)]
#[tactic(auto, using(run_memory::proofs::Refused::refused_then, crate::proofs::Given::slots_many, crate::proofs::Given::slots_more))]
fn slots_with(
    memory: &Memory,
    alloc: Global,
    first: &Parameter,
    behind: &[Parameter],
    argument: Value,
    others: VecDeque<Slot>,
) -> Result<Vec<Slot>, OrMemory<Bad>>
    ensures { Acts (λ slots. map slot_view slots.items) result (memory_view memory.now)
        (slots_in (parameter_view first.now ∷ map parameter_view behind.now) (view argument ∷ slot_values (map slot_view others.items)) (memory_view memory.now)) }
{
    if first.is_param_array {
        let slots = all_in_one(alloc, argument, others)?;
        return Ok(slots);
    }
    slots_behind(memory, alloc, first, behind, argument, others)
}

/// What a parameter has of its argument, before what the others have.
#[cycle(slots_in)]
#[tactic(auto, using(run_memory::proofs::Refused::refused_then))]
fn slots_behind(
    memory: &Memory,
    alloc: Global,
    first: &Parameter,
    behind: &[Parameter],
    argument: Value,
    others: VecDeque<Slot>,
) -> Result<Vec<Slot>, OrMemory<Bad>>
    ensures { Acts (λ slots. map slot_view slots.items) result (memory_view memory.now)
        (on_fine (slot_given (parameter_view first.now) (view argument) (memory_view memory.now))
        (λ x m1. on_fine (slots_in (map parameter_view behind.now) (slot_values (map slot_view others.items)) m1) (λ xs m2. Fine (x ∷ xs) m2))) }
{
    let first = slot_given(memory, alloc, first, argument)?;
    let mut slots = slots_in(memory, alloc, behind, others)?;
    slots.insert(0, first)?;
    Ok(slots)
}

/// Arguments as the parameters of a procedure take them: too many (450) come before too few (449), and both before any
/// becomes what its parameter takes.
pub fn slots_from(
    memory: &Memory,
    alloc: Global,
    parameters: &[Parameter],
    arguments: Vec<Slot>,
) -> Result<Vec<Slot>, OrMemory<Bad>>
    ensures { Acts (λ slots. map slot_view slots.items) result (memory_view memory.now) (slots_from (map parameter_view parameters.now) (slot_values (map slot_view arguments.items)) (memory_view memory.now)) }
{
    if too_many(parameters, arguments.as_slice()) {
        return Err(OrMemory::Fault(Bad::Raise(450)));
    }
    if too_few(parameters, arguments.as_slice()) {
        return Err(OrMemory::Fault(Bad::Raise(449)));
    }
    slots_in(memory, alloc, parameters, VecDeque::from(arguments))
}

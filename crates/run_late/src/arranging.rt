// Arguments in the order of the parameters.
ghost use Rattle.std.specs.Prelude.{◌≡◌, ◌+◌, ◌++◌, ◌<◌, ◌^◌, IfOk, OnOk, drop, length, map, take};
ghost use Rattle.vba_values.specs.View.{view};
ghost use Rattle.bound_project.specs.View.{parameter_view};
ghost use Rattle.vba_meaning.specs.Effects.{packed};
ghost use Rattle.vba_meaning.specs.LateBound.{arranged, arranged_from, slot_of, slot_or_left};
ghost use Rattle.run_memory.specs.View.{slot_view};
ghost use Rattle.run_host.specs.ByName.{by_name_view};
ghost use Rattle.run_late.specs.Slots.{slot_arranged};

use crate::arguments::argument_of;
use bound_project::Parameter;
use run_defaults::{left_out, packed};
use run_host::NamedArguments;
use run_memory::Slot;
use std::alloc::Global;
use vba_base::NoMemory;
use vba_values::Value;

/// An argument, or what a parameter has where that isn't given.
fn slot_or_left(alloc: Global, parameter: &Parameter, slot: &Slot) -> Result<Slot, NoMemory>
    ensures { IfOk result (λ copy. slot_view copy ≡ slot_or_left (parameter_view parameter.now) (slot_view slot.now)) }
{
    match slot {
        Slot::Value(Value::Missing) => left_out(alloc, parameter),
        _ => slot.copy(alloc),
    }
}

/// What a parameter has by the number of its argument.
#[tactic(auto, using(crate::proofs::Arranged::slot_there, crate::proofs::Arranged::slot_past))]
fn slot_of(
    alloc: Global,
    parameter: &Parameter,
    slots: &[Slot],
    argument: Option<usize>,
) -> Result<Slot, NoMemory>
    ensures { IfOk result (λ slot. slot_view slot ≡ slot_of (parameter_view parameter.now) (map slot_view slots.now) argument) }
{
    let Some(number) = argument else {
        return left_out(alloc, parameter);
    };
    if number >= slots.len() {
        return left_out(alloc, parameter);
    }
    slot_or_left(alloc, parameter, &slots[number])
}

/// So many slots.
fn slots_before(slots: &[Slot], count: u32) -> &[Slot]
    ensures { result.now ≡ take count slots.now }
{
    match slots.split_at_checked(count as usize) {
        Some((before, _behind)) => before,
        None => slots,
    }
}

/// The slots behind so many.
fn slots_behind(slots: &[Slot], count: usize) -> &[Slot]
    ensures { result.now ≡ drop count slots.now }
{
    match slots.split_at_checked(count) {
        Some((_before, behind)) => behind,
        None => &[],
    }
}

/// Copies of slots, behind others.
fn add_copies(alloc: Global, copies: &mut Vec<Slot>, slots: &[Slot]) -> Result<(), NoMemory>
    ensures { OnOk result (map slot_view copies.new.items ≡ map slot_view copies.old.items ++ map slot_view slots.now) }
{
    match slots {
        [] => Ok(()),
        [first, slots @ ..] => {
            copies.push(first.copy(alloc)?)?;
            add_copies(alloc, copies, slots)
        }
    }
}

/// Copies of the slots from a number on, of the first so many.
#[tactic(auto, using(crate::proofs::Arranged::part_of_views))]
fn copies(alloc: Global, slots: &[Slot], number: usize, before: u32) -> Result<Vec<Slot>, NoMemory>
    ensures { IfOk result (λ copies. map slot_view copies.items ≡ drop number (take before (map slot_view slots.now))) }
{
    let mut copies = Vec::new(alloc);
    let further = slots_behind(slots_before(slots, before), number);
    add_copies(alloc, &mut copies, further)?;
    Ok(copies)
}

/// What the parameter with a number has: its argument, or a ParamArray all further ones.
fn slot_arranged<'a>(
    alloc: Global,
    names: NamedArguments<'a>,
    number: usize,
    parameter: &Parameter,
    slots: &[Slot],
) -> Result<Slot, NoMemory>
    ensures { IfOk result (λ slot. slot_view slot ≡ slot_arranged (by_name_view names.entry) number (parameter_view parameter.now) (map slot_view slots.now)) }
{
    if parameter.is_param_array {
        let further = copies(alloc, slots, number, names.before)?;
        return Ok(Slot::Value(packed(alloc, further)?));
    }
    let argument = argument_of(names, number, parameter);
    slot_of(alloc, parameter, slots, argument)
}

/// The same of each parameter, from one with a number on, behind others.
fn add_arranged<'a>(
    alloc: Global,
    arranged: &mut Vec<Slot>,
    names: NamedArguments<'a>,
    number: usize,
    parameters: &[Parameter],
    slots: &[Slot],
) -> Result<(), NoMemory>
    requires { number + length parameters.now < 2 ^ 64 }
    ensures { OnOk result (map slot_view arranged.new.items ≡ map slot_view arranged.old.items ++ arranged_from (by_name_view names.entry) number (map parameter_view parameters.now) (map slot_view slots.now)) }
{
    match parameters {
        [] => Ok(()),
        [first, parameters @ ..] => {
            arranged.push(slot_arranged(alloc, names, number, first, slots)?)?;
            add_arranged(alloc, arranged, names, number + 1, parameters, slots)
        }
    }
}

/// What the parameters have.
pub fn arranged<'a>(
    alloc: Global,
    parameters: &[Parameter],
    names: NamedArguments<'a>,
    slots: &[Slot],
) -> Result<Vec<Slot>, NoMemory>
    ensures { IfOk result (λ made. map slot_view made.items ≡ arranged (map parameter_view parameters.now) (by_name_view names.entry) (map slot_view slots.now)) }
{
    let mut arranged = Vec::with_capacity(alloc, parameters.len())?;
    add_arranged(alloc, &mut arranged, names, 0, parameters, slots)?;
    Ok(arranged)
}

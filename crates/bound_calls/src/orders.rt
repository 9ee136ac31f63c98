//! The order in which parameters take arguments that have names.

ghost use Rattle.std.specs.Prelude.{◌≡◌, IfOk, OnOk, reverse};
ghost use Rattle.bound_project.specs.DraftView.{draft_view};
ghost use Rattle.bound_calls.specs.InOrder.{AddsOrder, EndsInOrder, EndsNamed, named_kind, Orders, OtherPassed, PassesApart, PassesOthers, all_apart, counted_from, is_there, numbers_given, place_in, places_from, with_named, with_number};

use crate::arguments::{pass_none, sum};
use crate::calls::count_of;
use crate::stack::{put_item, take_item};
use crate::term::{Ending, Item, Ordered, Passed, Receiver, Routine};
use bound_declarations::NotYet;
use bound_project::{Draft, NodeKind, Parameter};
use std::alloc::Global;
use vba_base::{NoMemory, OrMemory};

/// Is a number there?
fn is_there(number: u32, numbers: &[u32]) -> bool
    ensures { result ≡ is_there number numbers.now }
{
    for other in numbers {
        if *other == number {
            return true;
        }
    }
    false
}

/// Are no two the same?
fn are_apart(numbers: &[u32]) -> bool
    ensures { result ≡ all_apart numbers.now }
{
    let mut rest = numbers;
    while let Some((number, others)) = rest.split_first() {
        if is_there(*number, others) {
            return false;
        }
        rest = others;
    }
    true
}

/// The place of a number.
fn place_in(number: u32, numbers: &[u32]) -> Result<u32, NoMemory>
    ensures { IfOk result (λ place. place ≡ place_in number numbers.now) }
{
    let mut place = 0;
    for other in numbers {
        if *other == number {
            return Ok(place);
        }
        place = sum(place, 1)?;
    }
    Ok(place)
}

/// The places of so many numbers.
fn places_of(alloc: Global, count: u32, numbers: &[u32]) -> Result<Vec<u32>, NoMemory>
    ensures { IfOk result (λ places. places.items ≡ places_from 0 count numbers.now) }
{
    let mut places = Vec::new(alloc);
    for number in 0..count {
        let place = place_in(number, numbers)?;
        places.push(place)?;
    }
    Ok(places)
}

/// So many numbers, from 0 on.
fn counted(alloc: Global, count: u32) -> Result<Vec<u32>, NoMemory>
    ensures { IfOk result (λ numbers. numbers.items ≡ counted_from 0 count) }
{
    let mut numbers = Vec::new(alloc);
    for number in 0..count {
        numbers.push(number)?;
    }
    Ok(numbers)
}

/// The parameters that arguments were pushed for: so many without names, and those with names, the last one first.
fn numbers_given(alloc: Global, count: u32, mut named: Vec<u32>) -> Result<Vec<u32>, NoMemory>
    ensures { IfOk result (λ numbers. numbers.items ≡ numbers_given count (reverse named.items)) }
{
    let mut numbers = counted(alloc, count)?;
    while let Some(number) = named.pop() {
        numbers.push(number)?;
    }
    Ok(numbers)
}

/// Takes an argument with a name off the top: the number of its parameter.
fn take_number<'a>(stack: &mut Vec<Item<'a>>) -> Result<Option<u32>, NoMemory>
    ensures { IfOk result (λ number. reverse stack.old.items ≡ with_number number (reverse stack.new.items)) }
{
    match take_item(stack) {
        None => Ok(None),
        Some(Item::Named(named)) => Ok(Some(named.number)),
        Some(item) => {
            put_item(stack, item)?;
            Ok(None)
        }
    }
}

/// Takes the arguments with names off the top: the numbers of their parameters, the last one first.
pub fn take_numbers<'a>(alloc: Global, stack: &mut Vec<Item<'a>>) -> Result<Vec<u32>, NoMemory>
    ensures { IfOk result (λ numbers. reverse stack.old.items ≡ with_named numbers.items (reverse stack.new.items)) }
{
    let mut numbers = Vec::new(alloc);
    while let Some(number) = take_number(stack)? {
        numbers.push(number)?;
    }
    Ok(numbers)
}

/// What a parameter has to which nothing is given, unless its number is there.
fn pass_other(
    alloc: Global,
    draft: &mut Draft,
    parameter: &Parameter,
    number: u32,
    given: &[u32],
    others: &mut Vec<u32>,
) -> Result<(), OrMemory<NotYet>>
    ensures { OnOk result (OtherPassed (is_there number given.now) parameter.now number (draft_view draft.old) (draft_view draft.new) others.old.items others.new.items) }
{
    if is_there(number, given) {
        return Ok(());
    }
    pass_none(alloc, draft, parameter)?;
    others.push(number)?;
    Ok(())
}

/// What the parameters have to which nothing is given: those whose numbers aren't there; answers their numbers.
fn pass_others(
    alloc: Global,
    draft: &mut Draft,
    parameters: &[Parameter],
    given: &[u32],
) -> Result<Vec<u32>, OrMemory<NotYet>>
    ensures { IfOk result (λ others. PassesOthers parameters.now given.now (draft_view draft.old) (draft_view draft.new) others.items) }
{
    let mut others = Vec::new(alloc);
    let mut number = 0;
    for parameter in parameters {
        pass_other(alloc, draft, parameter, number, given, &mut others)?;
        number = sum(number, 1)?;
    }
    Ok(others)
}

/// The same behind what is given, where no two arguments are for one parameter; answers the numbers of all.
fn pass_apart(
    alloc: Global,
    draft: &mut Draft,
    parameters: &[Parameter],
    mut numbers: Vec<u32>,
) -> Result<Vec<u32>, OrMemory<NotYet>>
    ensures { IfOk result (λ all. PassesApart parameters.now numbers.items (draft_view draft.old) (draft_view draft.new) all.items) }
{
    if !are_apart(&numbers) {
        return Err(OrMemory::Fault(NotYet));
    }
    let others = pass_others(alloc, draft, parameters, &numbers)?;
    numbers.extend_from_slice(&others)?;
    Ok(numbers)
}

/// The number of one more order of the draft.
pub fn order_number(draft: &mut Draft, order: Vec<u32>) -> Result<u32, NoMemory>
    ensures { IfOk result (λ number. AddsOrder order.items (draft_view draft.old) (draft_view draft.new) number) }
{
    match draft.add_order(order) {
        Ok(number) => Ok(number),
        Err(_) => Err(NoMemory),
    }
}

/// The order in which parameters take arguments that were pushed for the parameters with these numbers.
fn ordered(
    alloc: Global,
    draft: &mut Draft,
    parameters: &[Parameter],
    numbers: &[u32],
) -> Result<Ordered, NoMemory>
    ensures { IfOk result (λ ordered. Orders parameters.now numbers.now (draft_view draft.old) (draft_view draft.new) ordered) }
{
    let Ok(arguments) = u32::try_from(numbers.len()) else {
        return Err(NoMemory);
    };
    let count = count_of(parameters)?;
    let places = places_of(alloc, count, numbers)?;
    let order = order_number(draft, places)?;
    Ok(Ordered { arguments, order })
}

/// Pushes what the other parameters have behind written arguments of which the last ones have names: they were pushed for
/// the parameters with these numbers, the last one first.
pub fn push_in_order<'a>(
    alloc: Global,
    draft: &mut Draft,
    parameters: &[Parameter],
    passed: Passed<'a>,
    named: Vec<u32>,
) -> Result<Ordered, OrMemory<NotYet>>
    ensures { IfOk result (λ ordered. EndsInOrder parameters.now passed.entry (reverse named.items) (draft_view draft.old) (draft_view draft.new) ordered) }
{
    let numbers = numbers_given(alloc, passed.count, named)?;
    let numbers = pass_apart(alloc, draft, parameters, numbers)?;
    let ordered = ordered(alloc, draft, parameters, &numbers)?;
    Ok(ordered)
}

/// The last node of a call with names.
fn named_kind(receiver: Receiver, procedure: u32, ordered: Ordered) -> NodeKind
    ensures { result ≡ named_kind receiver procedure ordered.arguments ordered.order }
{
    match receiver {
        Receiver::Module => NodeKind::CallInOrder {
            procedure,
            arguments: ordered.arguments,
            order: ordered.order,
        },
        Receiver::Own(_) | Receiver::Pushed(_) => NodeKind::MethodInOrder {
            procedure,
            arguments: ordered.arguments,
            order: ordered.order,
        },
    }
}

/// A call whose written arguments were pushed, the last ones with names, but for its last node.
pub fn named_ending<'a>(
    alloc: Global,
    draft: &mut Draft,
    routine: Routine<'a>,
    passed: Passed<'a>,
    named: Vec<u32>,
) -> Result<Ending, OrMemory<NotYet>>
    ensures { IfOk result (λ ending. EndsNamed routine.entry passed.entry (reverse named.items) (draft_view draft.old) (draft_view draft.new) ending) }
{
    let ordered = push_in_order(alloc, draft, routine.parameters, passed, named)?;
    Ok(Ending {
        kind: named_kind(routine.receiver, routine.procedure, ordered),
        of: routine.of,
    })
}

// Members of host objects whose last arguments have names ([MS-VBAL] 5.6.13.1).
ghost use Rattle.std.specs.Prelude.{◌≡◌, ◌+◌, ◌++◌, ◌<◌, ◌^◌, IfOk, length, map, slice_index_or, take, drop, is_some, bytes_eq};
ghost use Rattle.vba_values.specs.declared.object.HostRef.TheVariants as host;
ghost use Rattle.vba_values.specs.Val.{empty};
ghost use Rattle.vba_values.specs.View.{view};
ghost use Rattle.bound_project.specs.Pieces.{name_of};
ghost use Rattle.vba_meaning.specs.Effects.{slot_value, slot_values};
ghost use Rattle.vba_meaning.specs.Memory.{Memory as PlainMemory};
ghost use Rattle.vba_meaning.specs.ByName.{any_given, in_parameter_order, named_begun, named_there, names_of_member, parameter_names, parameter_named, parameters_given};
ghost use Rattle.run_memory.specs.Acts.{Acts};
ghost use Rattle.run_memory.specs.View.{memory_view, slot_view};
ghost use Rattle.run_collections.specs.View.{member_view};
ghost use Rattle.run_host.specs.ByName.{by_name_view, first_by, given_names, named_in_collection, names_of, value_named, values_named};

use crate::counts::{fits_in, number_of, takes};
use run_collections::{
    collection_member, member_by_name, names_in_collection, takes_in_collection,
};
use run_memory::{Memory, Slot};
use sheet_host::member_named;
use std::alloc::Global;
use vba_base::{NoMemory, OrMemory};
use vba_values::{Bad, HostRef, ObjRef, Value};

/// How arguments are named: so many stand before those with names, and these names are constants, folded, by their numbers.
#[derive(Clone, Copy)]
pub struct NamedArguments<'a> {
    pub before: u32,
    pub order: &'a [u32],
    pub constants: &'a [Value],
}

/// The names of a member's parameters.
type Names = &'static [&'static [u8]];

const RAISED: Names = &[b"number", b"source", b"description"];

const INDEX: Names = &[b"index"];

const ADDRESS: Names = &[b"address"];

const ROW_AND_COLUMN: Names = &[b"r", b"c"];

/// The names of the parameters of a member, by its number; a member that has such must be given the first.
fn parameter_names(of: &HostRef, number: u16) -> Names
    ensures names { map (λ w. w.now) result.now ≡ parameter_names of.now number }
    ensures few { length result.now < 4 }
{
    match of {
        HostRef::ErrObject => err_names(number),
        HostRef::Sheets => sheets_names(number),
        HostRef::Sheet { sheet: _ } => sheet_names(number),
        HostRef::Area {
            sheet: _,
            top: _,
            left: _,
            rows: _,
            columns: _,
        } => area_names(number),
        HostRef::Application
        | HostRef::Workbook
        | HostRef::RowsOf { count: _ }
        | HostRef::ColumnsOf { count: _ } => &[],
    }
}

fn err_names(number: u16) -> Names
    ensures names { map (λ w. w.now) result.now ≡ parameter_names host.ErrObject number }
    ensures few { length result.now < 4 }
{
    match number {
        4 => RAISED,
        _ => &[],
    }
}

fn sheets_names(number: u16) -> Names
    ensures names { map (λ w. w.now) result.now ≡ parameter_names host.Sheets number }
    ensures few { length result.now < 4 }
{
    match number {
        1 => INDEX,
        _ => &[],
    }
}

fn sheet_names(number: u16) -> Names
    ensures names { map (λ w. w.now) result.now ≡ parameter_names (host.Sheet 0) number }
    ensures few { length result.now < 4 }
{
    match number {
        2 => ROW_AND_COLUMN,
        3 => ADDRESS,
        _ => &[],
    }
}

fn area_names(number: u16) -> Names
    ensures names { map (λ w. w.now) result.now ≡ parameter_names (host.Area 0 0 0 0 0) number }
    ensures few { length result.now < 4 }
{
    if 6 < number && number < 11 {
        ROW_AND_COLUMN
    } else {
        &[]
    }
}

/// Whether an ASCII word has these units.
fn is_named(word: &[u8], name: &[u16]) -> bool
    ensures { result ≡ bytes_eq word.now name.now }
{
    match (word, name) {
        ([], []) => true,
        ([byte, bytes @ ..], [unit, units @ ..]) => u16::from(*byte) == *unit
            && is_named(bytes, units),
        _ => false,
    }
}

/// The number of the parameter with a name, counted from one on.
fn parameter_named(first: u32, parameters: &[&[u8]], name: &[u16]) -> Option<u32>
    requires { first + length parameters.now < 2 ^ 32 }
    ensures { result ≡ parameter_named first (map (λ w. w.now) parameters.now) name.now }
{
    match parameters {
        [] => None,
        [own, parameters @ ..] => if is_named(own, name) {
            Some(first)
        } else {
            parameter_named(first + 1, parameters, name)
        }
    }
}

/// The name that a constant is.
fn name_at(constants: &[Value], number: u32) -> &[u16]
    ensures { result.now ≡ name_of (slice_index_or (map view constants.now) number empty) }
{
    let Some(Value::Text(text)) = constants.get(number as usize) else {
        return &[];
    };
    text.units()
}

/// Whether a parameter is given an argument by one of these names.
fn is_given(parameters: &[&[u8]], number: u32, constants: &[Value], order: &[u32]) -> bool
    requires { length parameters.now < 2 ^ 32 }
    ensures { result ≡ any_given (map (λ w. w.now) parameters.now) number (names_of constants.now order.now) }
{
    match order {
        [] => false,
        [first, order @ ..] => {
            match parameter_named(0, parameters, name_at(constants, *first)) {
                Some(named) => number == named || is_given(parameters, number, constants, order),
                None => is_given(parameters, number, constants, order),
            }
        }
    }
}

/// Whether all of these are names of parameters behind the first ones, no two of the same.
#[tactic(auto, using(vba_meaning::proofs::Named::given_more))]
fn are_given(parameters: &[&[u8]], before: u32, constants: &[Value], order: &[u32]) -> bool
    requires { length parameters.now < 2 ^ 32 }
    ensures { result ≡ is_some (parameters_given (map (λ w. w.now) parameters.now) before (names_of constants.now order.now)) }
{
    match order {
        [] => true,
        [first, order @ ..] => {
            let Some(number) = parameter_named(0, parameters, name_at(constants, *first)) else {
                return false;
            };
            if number < before || !are_given(parameters, before, constants, order) {
                return false;
            }
            !is_given(parameters, number, constants, order)
        }
    }
}

/// Whether the first argument is given, which there must be: 449 where it isn't.
fn first_given(before: u32, named: bool) -> Result<Value, OrMemory<Bad>>
    ensures { (m : PlainMemory) → Acts view result m (first_by before named m) }
{
    if before == 0 && !named {
        return Err(OrMemory::Fault(Bad::Raise(449)));
    }
    Ok(Value::Empty)
}

/// A use of a member begins: 450 where the names don't fit, or there are too many arguments, and 449 where one that there
/// must be is lacking.
#[tactic(auto, using(run_memory::proofs::Refused::refuses_then, crate::proofs::Named::unfit, crate::proofs::Named::fit))]
fn named_begun<'a>(
    parameters: &[&[u8]],
    takes: &[u32],
    names: NamedArguments<'a>,
    given: u32,
) -> Result<Value, OrMemory<Bad>>
    requires { length parameters.now < 2 ^ 32 }
    ensures { (m : PlainMemory) → Acts view result m (named_begun (map (λ w. w.now) parameters.now) takes.now (by_name_view names.entry) given m) }
{
    if !are_given(parameters, names.before, names.constants, names.order) {
        return Err(OrMemory::Fault(Bad::Raise(450)));
    }
    fits_in(takes, given)?;
    first_given(
        names.before,
        is_given(parameters, 0, names.constants, names.order),
    )
}

/// The same by the folded name of the member and what has it: 91 for Nothing, 438 where there is no such member, 424 for
/// what is no object.
pub fn named_there<'a>(
    memory: &Memory,
    name: &[u16],
    names: NamedArguments<'a>,
    given: u32,
    base: &Value,
) -> Result<Value, OrMemory<Bad>>
    ensures { Acts view result (memory_view memory.now) (named_there name.now (by_name_view names.entry) given (view base.now) (memory_view memory.now)) }
{
    match base {
        Value::Object(ObjRef::Nothing) => Err(OrMemory::Fault(Bad::Raise(91))),
        Value::Object(ObjRef::Heap(id)) => named_in_collection(memory, id.0, name, names, given),
        Value::Object(ObjRef::Host(of)) => {
            let how = member_named(of, name)?;
            let number = number_of(how);
            named_begun(parameter_names(of, number), takes(of, number), names, given)
        }
        _ => Err(OrMemory::Fault(Bad::Raise(424))),
    }
}

/// The same of a counted object with a number.
#[tactic(auto, using(run_memory::proofs::Refused::refused_then))]
fn named_in_collection<'a>(
    memory: &Memory,
    number: u32,
    name: &[u16],
    names: NamedArguments<'a>,
    given: u32,
) -> Result<Value, OrMemory<Bad>>
    ensures { Acts view result (memory_view memory.now) (named_in_collection number name.now (by_name_view names.entry) given (memory_view memory.now)) }
{
    let how = collection_member(memory, number, name)?;
    named_begun(
        names_in_collection(how),
        takes_in_collection(how),
        names,
        given,
    )
}

/// What a parameter is given, of the arguments that have names: Missing where there is none.
#[tactic(auto, using(crate::proofs::Named::no_values))]
fn slot_given(
    alloc: Global,
    parameters: &[&[u8]],
    number: u32,
    constants: &[Value],
    order: &[u32],
    slots: &[Slot],
) -> Result<Slot, NoMemory>
    requires { length parameters.now < 2 ^ 32 }
    ensures { IfOk result (λ slot. slot_value (slot_view slot) ≡ value_named (map (λ w. w.now) parameters.now) number (names_of constants.now order.now) (slot_values (map slot_view slots.now))) }
{
    match order {
        [] => Ok(Slot::Value(Value::Missing)),
        [first, order @ ..] => match slots {
            [] => Ok(Slot::Value(Value::Missing)),
            [slot, slots @ ..] => match parameter_named(0, parameters, name_at(constants, *first)) {
                Some(named) if number == named => slot.copy(alloc),
                _ => slot_given(alloc, parameters, number, constants, order, slots),
            },
        },
    }
}

/// What each of the last parameters is given, from the one with a number on.
fn slots_given(
    alloc: Global,
    parameters: &[&[u8]],
    number: u32,
    left: &[&[u8]],
    constants: &[Value],
    order: &[u32],
    slots: &[Slot],
) -> Result<Vec<Slot>, NoMemory>
    requires parameters { length parameters.now < 2 ^ 32 }
    requires left { number + length left.now < 2 ^ 32 }
    ensures { IfOk result (λ given. slot_values (map slot_view given.items) ≡ values_named (map (λ w. w.now) parameters.now) number (map (λ w. w.now) left.now) (names_of constants.now order.now) (slot_values (map slot_view slots.now))) }
{
    match left {
        [] => Ok(Vec::new(alloc)),
        [_first, left @ ..] => {
            let first = slot_given(alloc, parameters, number, constants, order, slots)?;
            let mut behind = slots_given(
                alloc,
                parameters,
                number + 1,
                left,
                constants,
                order,
                slots,
            )?;
            behind.insert(0, first)?;
            Ok(behind)
        }
    }
}

/// Copies of arguments, and others behind them.
fn with_copies(alloc: Global, slots: &[Slot], behind: Vec<Slot>) -> Result<Vec<Slot>, NoMemory>
    ensures { IfOk result (λ all. slot_values (map slot_view all.items) ≡ slot_values (map slot_view slots.now) ++ slot_values (map slot_view behind.items)) }
{
    match slots {
        [] => Ok(behind),
        [first, slots @ ..] => {
            let first = first.copy(alloc)?;
            let mut all = with_copies(alloc, slots, behind)?;
            all.insert(0, first)?;
            Ok(all)
        }
    }
}

/// The names of the parameters of a member that there is.
fn names_of_member(base: &Value, name: &[u16]) -> Names
    ensures names { map (λ w. w.now) result.now ≡ names_of_member (view base.now) name.now }
    ensures few { length result.now < 5 }
{
    match base {
        Value::Object(ObjRef::Heap(_)) => match member_by_name(name) {
            Some(how) => names_in_collection(how),
            None => &[],
        },
        Value::Object(ObjRef::Host(of)) => match member_named(of, name) {
            Ok(how) => parameter_names(of, number_of(how)),
            Err(_) => &[],
        },
        _ => &[],
    }
}

/// So many arguments, and those behind them.
fn split_slots(slots: &[Slot], count: u32) -> (&[Slot], &[Slot])
    ensures before { result.0.now ≡ take count slots.now }
    ensures behind { result.1.now ≡ drop count slots.now }
{
    match slots.split_at_checked(count as usize) {
        Some(parts) => parts,
        None => (slots, &[]),
    }
}

/// The parameters from the one with a number on.
fn names_from(parameters: Names, number: u32) -> Names
    ensures { result.now ≡ drop number parameters.now }
{
    let Some((_before, behind)) = parameters.split_at_checked(number as usize) else {
        return &[];
    };
    behind
}

/// The constants that are the names by which arguments are given: none where they don't fit.
fn given_order<'a>(parameters: &[&[u8]], names: NamedArguments<'a>) -> &'a [u32]
    requires { length parameters.now < 2 ^ 32 }
    ensures { names_of names.entry.constants.now result.now ≡ given_names (map (λ w. w.now) parameters.now) (by_name_view names.entry) }
{
    if are_given(parameters, names.before, names.constants, names.order) {
        names.order
    } else {
        &[]
    }
}

/// The arguments in the order of the parameters.
pub fn in_parameter_order<'a>(
    alloc: Global,
    base: &Value,
    name: &[u16],
    names: NamedArguments<'a>,
    slots: &[Slot],
) -> Result<Vec<Slot>, NoMemory>
    ensures { IfOk result (λ ordered. slot_values (map slot_view ordered.items) ≡ in_parameter_order (view base.now) name.now (by_name_view names.entry) (slot_values (map slot_view slots.now))) }
{
    let parameters = names_of_member(base, name);
    let (before, behind) = split_slots(slots, names.before);
    let order = given_order(parameters, names);
    let left = names_from(parameters, names.before);
    let given = slots_given(
        alloc,
        parameters,
        names.before,
        left,
        names.constants,
        order,
        behind,
    )?;
    with_copies(alloc, before, given)
}

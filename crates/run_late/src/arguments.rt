// Whether arguments fit the parameters of what they are given to.
ghost use Rattle.std.specs.Prelude.{◌≡◌, ◌+◌, ◌<◌, ◌^◌, ◌&&◌, ◌||◌, bytes_eq, is_some, length, map, not, option_map};
ghost use Rattle.bound_project.specs.View.{parameter_view};
ghost use Rattle.vba_meaning.specs.Memory.{Memory as PlainMemory};
ghost use Rattle.vba_meaning.specs.LateBound.{all_taken, any_lacks, argument_of, arguments_fit, given_in_place, given_twice, is_given_at, numbered_by, parameter_at, parameter_of};
ghost use Rattle.run_memory.specs.Acts.{Acts};
ghost use Rattle.run_host.specs.ByName.{by_name_view, names_of};
ghost use Rattle.bound_project.specs.Pieces.{flags};
ghost use Rattle.run_late.specs.View.{given_view, names_view};

use crate::names::{is_among, name_at, name_given, place_of_name};
use crate::sought::{Sought, first_given, is_given_at};
use bound_project::{Parameter, must_be_given};
use run_host::NamedArguments;
use vba_base::OrMemory;
use vba_values::Bad;

/// The parameter in a place: behind the last one a ParamArray takes what comes.
#[tactic(auto, using(crate::proofs::Taken::place_behind))]
fn parameter_at(parameters: &[Parameter], place: u32) -> Option<&Parameter>
    ensures { option_map (λ q. parameter_view q.now) result ≡ parameter_at (map parameter_view parameters.now) place }
{
    match parameters {
        [] => None,
        [first, parameters @ ..] => {
            if place == 0 {
                return Some(first);
            }
            if first.is_param_array {
                return Some(first);
            }
            parameter_at(parameters, place - 1)
        }
    }
}

/// Whether a parameter has a name: a ParamArray has none.
fn is_named(parameter: &Parameter, name: &[u16]) -> bool
    ensures { result ≡ (bytes_eq (parameter_view parameter.now).name.fold name.now && not (parameter_view parameter.now).many) }
{
    parameter.name.fold.units() == name && !parameter.is_param_array
}

/// The parameter with a name, and its number from one on.
fn numbered_by<'a>(
    first: usize,
    parameters: &'a [Parameter],
    name: &[u16],
) -> Option<(usize, &'a Parameter)>
    requires { first + length parameters.now < 2 ^ 64 }
    ensures { option_map (λ x. (x.0, parameter_view x.1.now)) result ≡ numbered_by first (map parameter_view parameters.now) name.now }
{
    match parameters {
        [] => None,
        [parameter, parameters @ ..] => if is_named(parameter, name) {
            Some((first, parameter))
        } else {
            numbered_by(first + 1, parameters, name)
        },
    }
}

/// The parameter of an argument.
pub fn parameter_of<'a, 'b>(
    parameters: &'a [Parameter],
    names: NamedArguments<'b>,
    argument: u32,
) -> Option<&'a Parameter>
    ensures { option_map (λ q. parameter_view q.now) result ≡ parameter_of (map parameter_view parameters.now) (by_name_view names.entry) argument }
{
    if argument < names.before {
        return parameter_at(parameters, argument);
    }
    let name = name_given(names, argument - names.before);
    let (_number, parameter) = numbered_by(0, parameters, name)?;
    Some(parameter)
}

/// Whether an argument that is given has a parameter.
fn is_taken<'a>(
    parameters: &[Parameter],
    names: NamedArguments<'a>,
    argument: u32,
    is_given: bool,
) -> bool
    ensures { result ≡ (not is_given || is_some (parameter_of (map parameter_view parameters.now) (by_name_view names.entry) argument)) }
{
    !is_given || parameter_of(parameters, names, argument).is_some()
}

/// Whether each argument that is given has a parameter, from one with a number on.
fn all_taken<'a>(
    parameters: &[Parameter],
    names: NamedArguments<'a>,
    argument: u32,
    left: u32,
    given: &[u32],
) -> bool
    requires { argument + left < 2 ^ 32 }
    ensures { result ≡ all_taken (map parameter_view parameters.now) (by_name_view names.entry) argument (flags left given.now) }
{
    if left == 0 {
        return true;
    }
    let (is_given, given) = first_given(given);
    if !is_taken(parameters, names, argument, is_given) {
        return false;
    }
    all_taken(parameters, names, argument + 1, left - 1, given)
}

/// Whether the parameter with a name is given an argument by its place.
fn given_in_place<'a>(parameters: &[Parameter], sought: Sought<'a>, name: &[u16]) -> bool
    ensures { result ≡ given_in_place (names_view sought.entry) (given_view sought.entry) (numbered_by 0 (map parameter_view parameters.now) name.now) }
{
    match numbered_by(0, parameters, name) {
        Some((number, _)) => number < sought.names.before as usize
            && is_given_at(sought.arguments, sought.given, number),
        None => false,
    }
}

/// Whether a parameter is given an argument by one of these names, and another one.
fn given_twice<'a>(parameters: &[Parameter], sought: Sought<'a>, order: &[u32]) -> bool
    ensures { result ≡ given_twice (map parameter_view parameters.now) (names_view sought.entry) (given_view sought.entry) (names_of sought.entry.names.constants.now order.now) }
{
    match order {
        [] => false,
        [first, order @ ..] => {
            let constants = sought.names.constants;
            let name = name_at(constants, *first);
            given_in_place(parameters, sought, name)
                || is_among(constants, order, name)
                || given_twice(parameters, sought, order)
        }
    }
}

/// The number of a parameter's argument.
pub fn argument_of<'a>(
    names: NamedArguments<'a>,
    number: usize,
    parameter: &Parameter,
) -> Option<usize>
    ensures { result ≡ argument_of (by_name_view names.entry) number (parameter_view parameter.now) }
{
    let before = names.before as usize;
    if number < before {
        return Some(number);
    }
    place_of_name(
        before,
        names.constants,
        names.order,
        parameter.name.fold.units(),
    )
}

/// Whether a parameter is given its argument.
fn is_given_to<'a>(sought: Sought<'a>, number: usize, parameter: &Parameter) -> bool
    ensures { result ≡ is_given_at (given_view sought.entry) (argument_of (names_view sought.entry) number (parameter_view parameter.now)) }
{
    match argument_of(sought.names, number, parameter) {
        Some(argument) => is_given_at(sought.arguments, sought.given, argument),
        None => false,
    }
}

/// Whether one of the parameters from a number on lacks an argument that must be given.
fn any_lacks<'a>(sought: Sought<'a>, number: usize, parameters: &[Parameter]) -> bool
    requires { number + length parameters.now < 2 ^ 64 }
    ensures { result ≡ any_lacks (names_view sought.entry) (given_view sought.entry) number (map parameter_view parameters.now) }
{
    match parameters {
        [] => false,
        [first, parameters @ ..] => must_be_given(first) && !is_given_to(sought, number, first)
            || any_lacks(sought, number + 1, parameters),
    }
}

/// Whether arguments fit: 450 where one has no parameter or a parameter has two, and then 449 where one that must be given
/// is lacking.
pub fn arguments_fit<'a>(parameters: &[Parameter], sought: Sought<'a>) -> Result<(), OrMemory<Bad>>
    ensures { (m : PlainMemory) → Acts (λ done. done) result m (arguments_fit (map parameter_view parameters.now) (names_view sought.entry) (given_view sought.entry) m) }
{
    let names = sought.names;
    if !all_taken(parameters, names, 0, sought.arguments, sought.given)
        || given_twice(parameters, sought, names.order)
    {
        return Err(OrMemory::Fault(Bad::Raise(450)));
    }
    if any_lacks(sought, 0, parameters) {
        return Err(OrMemory::Fault(Bad::Raise(449)));
    }
    Ok(())
}

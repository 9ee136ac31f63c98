// The names by which arguments are given.
ghost use Rattle.std.specs.Prelude.{◌≡◌, ◌+◌, ◌<◌, ◌^◌, [], bytes_eq, length, map, slice_index_or};
ghost use Rattle.std.specs.List.{list_any};
ghost use Rattle.vba_values.specs.Val.{empty};
ghost use Rattle.vba_values.specs.View.{view};
ghost use Rattle.bound_project.specs.Pieces.{name_of};
ghost use Rattle.vba_meaning.specs.LateBound.{has_names, place_of_name};
ghost use Rattle.run_host.specs.ByName.{by_name_view, names_of};

use run_host::NamedArguments;
use vba_values::Value;

/// The name that a constant is.
pub fn name_at(constants: &[Value], number: u32) -> &[u16]
    ensures { result.now ≡ name_of (slice_index_or (map view constants.now) number empty) }
{
    let Some(Value::Text(text)) = constants.get(number as usize) else {
        return &[];
    };
    text.units()
}

/// Whether arguments have names.
pub fn has_names<'a>(names: NamedArguments<'a>) -> bool
    ensures { result ≡ has_names (by_name_view names.entry) }
{
    match names.order {
        [] => false,
        [_, ..] => true,
    }
}

/// The name of an argument, by its number among those that have one.
pub fn name_given<'a>(names: NamedArguments<'a>, number: u32) -> &'a [u16]
    ensures { result.now ≡ slice_index_or (by_name_view names.entry).names number [] }
{
    match names.order.get(number as usize) {
        Some(constant) => name_at(names.constants, *constant),
        None => &[],
    }
}

/// Whether one of these names is the same.
pub fn is_among(constants: &[Value], order: &[u32], name: &[u16]) -> bool
    ensures { result ≡ list_any (λ other. bytes_eq other name.now) (names_of constants.now order.now) }
{
    match order {
        [] => false,
        [first, order @ ..] => name_at(constants, *first) == name
            || is_among(constants, order, name),
    }
}

/// The number of the argument with a name, counted from one on.
pub fn place_of_name(
    first: usize,
    constants: &[Value],
    order: &[u32],
    name: &[u16],
) -> Option<usize>
    requires { first + length order.now < 2 ^ 64 }
    ensures { result ≡ place_of_name first (names_of constants.now order.now) name.now }
{
    match order {
        [] => None,
        [constant, order @ ..] => if name_at(constants, *constant) == name {
            Some(first)
        } else {
            place_of_name(first + 1, constants, order, name)
        },
    }
}

/// Whether these are the units of an ASCII word.
pub fn is_word(name: &[u16], word: &[u8]) -> bool
    ensures { result ≡ bytes_eq name.now word.now }
{
    match (name, word) {
        ([], []) => true,
        ([unit, units @ ..], [byte, bytes @ ..]) => *unit == u16::from(*byte)
            && is_word(units, bytes),
        _ => false,
    }
}

ghost use Rattle.std.specs.Prelude.{◌≡◌, ◌<◌, ◌^◌, ◌-ℤ◌, true, [], ◌∷◌, IfOk, Ok, Err, if◌then◌else◌};
ghost use Rattle.arrays_udt.specs.Errors.{out_of_range};
ghost use Rattle.arrays_udt.specs.Shapes.{are_within, elements, extent, is_within, layout, natural, offset_of, places};

use crate::shape::{Shape, extent};
use vba_values::{Bad, Bound};

/// The offset of the element at a place. The first number of a place runs fastest. Subscript out of range (9) where
/// there isn't one number for each bound, or one of them is outside of its bound.
pub fn offset(shape: &Shape, places: &[i64]) -> Result<usize, Bad>
    ensures value { result ≡ offset_of shape.now places.now }
    ensures inside { IfOk result (λ offset. offset < elements shape.now) }
{
    offset_in(shape.bounds(), places)
}

/// The offset of the element at a place, by the bounds of an array as it holds them: no shape is made of them first, and
/// nothing is allocated. Errors as of `offset`; an array without bounds has no place.
pub fn offset_in(bounds: &[Bound], places: &[i64]) -> Result<usize, Bad>
    requires { elements bounds.now < 2 ^ 64 }
    ensures value { result ≡ offset_of bounds.now places.now }
    ensures inside { IfOk result (λ offset. offset < elements bounds.now) }
{
    match (bounds.len(), places.len()) {
        (1, 1) => offset_in_row(bounds[0], places[0]),
        (2, 2) => offset_in_grid(bounds[0], bounds[1], places[0], places[1]),
        _ => offset_in_any(bounds, places),
    }
}

fn offset_in_row(bound: Bound, number: i64) -> Result<usize, Bad>
    ensures value { result ≡ offset_of (bound ∷ []) (number ∷ []) }
    ensures inside { IfOk result (λ offset. offset < elements (bound ∷ [])) }
{
    if !is_within(bound, number) {
        return Err(Bad::Raise(9));
    }
    Ok(distance(bound, number))
}

fn offset_in_grid(bound: Bound, last: Bound, number: i64, other: i64) -> Result<usize, Bad>
    requires { elements (bound ∷ last ∷ []) < 2 ^ 64 }
    ensures value { result ≡ offset_of (bound ∷ last ∷ []) (number ∷ other ∷ []) }
    ensures inside { IfOk result (λ offset. offset < elements (bound ∷ last ∷ [])) }
{
    if !is_within(bound, number) {
        return Err(Bad::Raise(9));
    }
    if !is_within(last, other) {
        return Err(Bad::Raise(9));
    }
    Ok(distance(last, other) * extent(bound) as usize + distance(bound, number))
}

fn offset_in_any(bounds: &[Bound], numbers: &[i64]) -> Result<usize, Bad>
    requires { elements bounds.now < 2 ^ 64 }
    ensures value { result ≡ offset_of bounds.now numbers.now }
    ensures inside { IfOk result (λ offset. offset < elements bounds.now) }
{
    match bounds {
        [] => Err(Bad::Raise(9)),
        [_, ..] => offset_in_some(bounds, numbers),
    }
}

fn offset_in_some(bounds: &[Bound], numbers: &[i64]) -> Result<usize, Bad>
    requires { places bounds.now < 2 ^ 64 }
    ensures value { result ≡ (if are_within bounds.now numbers.now then Ok (layout bounds.now numbers.now) else Err out_of_range) }
    ensures inside { IfOk result (λ offset. offset < places bounds.now) }
{
    if !are_within(bounds, numbers) {
        return Err(Bad::Raise(9));
    }
    Ok(layout(bounds, numbers))
}

fn are_within(bounds: &[Bound], numbers: &[i64]) -> bool
    ensures { result ≡ are_within bounds.now numbers.now }
{
    match bounds {
        [] => numbers.is_empty(),
        [bound, bounds @ ..] => match numbers {
            [] => false,
            [number, numbers @ ..] => is_within(*bound, *number) && are_within(bounds, numbers),
        },
    }
}

fn layout(bounds: &[Bound], numbers: &[i64]) -> usize
    requires within { are_within bounds.now numbers.now ≡ true }
    requires few { places bounds.now < 2 ^ 64 }
    ensures value { result ≡ layout bounds.now numbers.now }
    ensures inside { result < places bounds.now }
{
    match bounds {
        [] => 0,
        [bound, bounds @ ..] => match numbers {
            [] => 0,
            [number, numbers @ ..] => {
                let first = distance(*bound, *number);
                layout(bounds, numbers) * extent(*bound) as usize + first
            }
        },
    }
}

fn is_within(bound: Bound, number: i64) -> bool
    ensures { result ≡ is_within bound number }
{
    i64::from(bound.low) <= number && number <= i64::from(bound.high)
}

/// How far a number is above the low bound.
fn distance(bound: Bound, number: i64) -> usize
    requires { is_within bound number ≡ true }
    ensures value { result ≡ natural (number -ℤ bound.low) }
    ensures inside { result < extent bound }
{
    (number - i64::from(bound.low)) as usize
}

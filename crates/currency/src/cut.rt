ghost use Rattle.std.specs.Prelude.{◌≡◌, ◌-◌, ◌*◌, ◌^◌, ◌==◌, min, length, All};
ghost use Rattle.std.specs.Char.{IsAsciiDigit};
ghost use Rattle.std.specs.List.{list_all};
ghost use Rattle.std.specs.Str.Parse.{digits_value, digits_value_after};
ghost use Rattle.currency.specs.NumberText.{HasDigits};
ghost use Rattle.currency.specs.View.{numeral_of};

use crate::mark::ZERO;
use crate::numeral::Numeral;
use std::cmp::Ordering;

/// What was cut off a number, beside half a unit of its last place.
#[derive(Clone, Copy)]
pub enum Rest {
    Nothing,
    BelowHalf,
    Half,
    AboveHalf,
}

/// The size of a number, cut behind some decimal place. A size that 128 bits don't hold is the greatest they hold.
#[derive(Clone, Copy)]
pub struct Cut {
    pub size: u128,
    pub rest: Rest,
}

impl Cut {
    ghost use Rattle.currency.specs.Cut.{cut_numeral, compare_cut, rounded_size, greatest};

    /// The size of a number in units of this decimal place.
    pub fn of(numeral: Numeral<'_>, places: usize) -> Cut
        requires { HasDigits (numeral_of numeral) }
        ensures { result ≡ cut_numeral places (numeral_of numeral.entry) }
    {
        let kept = places.min(numeral.fraction.len());
        let (decimals, rest) = numeral.fraction.split_at(kept);
        let size = with_digits(with_digits(0, numeral.whole), decimals);
        Cut {
            size: with_zeros(size, places - kept),
            rest: Rest::of(rest),
        }
    }

    /// The size rounded half to even.
    pub fn rounded(self) -> u128
        ensures { result ≡ min (rounded_size self.size self.rest) greatest }
    {
        match self.rest {
            Rest::Nothing | Rest::BelowHalf => self.size,
            Rest::Half => self.size.saturating_add(self.size % 2),
            Rest::AboveHalf => self.size.saturating_add(1),
        }
    }

    /// How a whole number compares with the size.
    pub fn compare(self, whole: u128) -> Ordering
        ensures { result ≡ compare_cut whole self }
    {
        let behind = match self.rest {
            Rest::Nothing => Ordering::Equal,
            Rest::BelowHalf | Rest::Half | Rest::AboveHalf => Ordering::Less,
        };
        whole.cmp(&self.size).then(behind)
    }
}

impl Rest {
    ghost use Rattle.currency.specs.Cut.{rest_of, rest_by};

    /// What these digits are, behind the last place that is kept.
    #[tactic(auto, unfolding(crate::specs::Cut::rest_of))]
    fn of(digits: &[u16]) -> Rest
        requires { All IsAsciiDigit digits.now }
        ensures { result ≡ rest_of (digits_value 10 digits.now) (10 ^ length digits.now) }
    {
        match digits {
            [] => Rest::Nothing,
            [first, later @ ..] => Rest::of_first(*first - ZERO, is_zero(later)),
        }
    }

    /// By the first digit, and whether only zeros follow it.
    fn of_first(first: u16, exact: bool) -> Rest
        ensures { result ≡ rest_by first exact }
    {
        match first {
            0 if exact => Rest::Nothing,
            0..=4 => Rest::BelowHalf,
            5 if exact => Rest::Half,
            _ => Rest::AboveHalf,
        }
    }
}

fn is_zero(digits: &[u16]) -> bool
    ensures { result ≡ list_all (λ digit. digit == 48) digits.now }
{
    digits.iter().all(|digit| *digit == ZERO)
}

fn with_digits(start: u128, digits: &[u16]) -> u128
    requires { All IsAsciiDigit digits.now }
    ensures { result ≡ min (digits_value_after 10 start digits.now) (2 ^ 128 - 1) }
{
    let mut size = start;
    for digit in digits {
        size = size
            .saturating_mul(10)
            .saturating_add(u128::from(*digit - ZERO));
    }
    size
}

fn with_zeros(start: u128, zeros: usize) -> u128
    ensures { result ≡ min (start * 10 ^ zeros) (2 ^ 128 - 1) }
{
    let mut size = start;
    for _ in 0..zeros {
        size = size.saturating_mul(10);
    }
    size
}

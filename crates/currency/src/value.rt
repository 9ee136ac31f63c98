ghost use Rattle.std.specs.Prelude.{◌≡◌, pos, neg_ℤ, ◌+ℤ◌, ◌-ℤ◌, ◌*ℤ◌};
ghost use Rattle.currency.specs.HalfEven.{half_even};
ghost use Rattle.currency.specs.Range.{overflow, ranged};

use crate::rounding::half_even;
use std::marker::Model;

/// How many ten-thousandths are one whole.
const SCALE: u64 = 10000;

/// An amount with four decimals: a signed 64-bit count of ten-thousandths, as which contracts see it.
#[derive(Clone, Copy, Debug, PartialEq, Eq)]
pub struct Currency {
    count: i64,
}

impl Model for Currency {
    ghost use Rattle.std.specs.Prelude.{ℤ};

    ghost Value = { ℤ };

    ghost view = { λ c. c.count };

    ghost inverse = { λ z. record { count = z } };
}

/// The result doesn't fit the 64 bits of a count.
#[derive(Clone, Copy, Debug, PartialEq, Eq)]
pub struct Overflow;

/// The amount of so many ten-thousandths.
pub fn from_count(count: i64) -> Currency
    ensures { result ≡ count }
{
    Currency { count }
}

/// How many ten-thousandths it is.
pub fn count(value: Currency) -> i64
    ensures { result ≡ value }
{
    value.count
}

fn ranged(count: i128) -> Result<Currency, Overflow>
    ensures { result ≡ ranged overflow count }
{
    match i64::try_from(count) {
        Ok(count) => Ok(Currency { count }),
        Err(_) => Err(Overflow),
    }
}

/// A whole number as an amount. Overflow where it doesn't fit.
pub fn from_whole(whole: i64) -> Result<Currency, Overflow>
    ensures { result ≡ ranged overflow (whole *ℤ pos 10000) }
{
    ranged(i128::from(whole) * i128::from(SCALE))
}

/// The sum. Overflow where it doesn't fit.
pub fn add(left: Currency, right: Currency) -> Result<Currency, Overflow>
    ensures { result ≡ ranged overflow (left +ℤ right) }
{
    ranged(i128::from(left.count) + i128::from(right.count))
}

/// The difference. Overflow where it doesn't fit.
pub fn sub(left: Currency, right: Currency) -> Result<Currency, Overflow>
    ensures { result ≡ ranged overflow (left -ℤ right) }
{
    ranged(i128::from(left.count) - i128::from(right.count))
}

/// The product, rounded once, half to even, to four decimals. Overflow where that doesn't fit.
pub fn mul(left: Currency, right: Currency) -> Result<Currency, Overflow>
    ensures { result ≡ ranged overflow (half_even (left *ℤ right) 10000) }
{
    ranged(half_even(i128::from(left.count) * i128::from(right.count), SCALE))
}

/// The amount with the other sign. Overflow where it doesn't fit.
pub fn neg(value: Currency) -> Result<Currency, Overflow>
    ensures { result ≡ ranged overflow (neg_ℤ value) }
{
    ranged(-i128::from(value.count))
}

/// The amount rounded half to even to a whole number.
pub fn round_to_whole(value: Currency) -> i64
    ensures { result ≡ half_even value 10000 }
{
    half_even(i128::from(value.count), SCALE) as i64
}

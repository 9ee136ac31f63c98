ghost use Rattle.std.specs.Prelude.{◌≡◌, ◌↔◌};
ghost use Rattle.currency.specs.NumberText.{IsNoNumberText, signed};
ghost use Rattle.currency.specs.Parsed.{parsed};
ghost use Rattle.currency.specs.Range.{ranged};

use crate::cut::Cut;
use crate::numeral::read;
use crate::value::{Currency, from_count};
use thiserror::Error;

/// Why a text gives no number: it is no number text, or the rounded number doesn't fit 64 bits.
#[derive(Clone, Copy, Debug, PartialEq, Eq, Error)]
pub enum ParseFault {
    #[error("the text is no number")]
    NotNumber,
    #[error("the number is out of range")]
    OutOfRange,
}

/// The amount that a number text writes, rounded half to even to four decimals.
pub fn parse(text: &[u16]) -> Result<Currency, ParseFault>
    ensures number { result ≡ parsed 4 text.now }
    ensures not_number { (result ≡ Err ParseFault.NotNumber) ↔ IsNoNumberText text.now }
{
    let count = parse_scaled(text, 4)?;
    Ok(from_count(count))
}

/// The whole number that a number text writes, rounded half to even.
pub fn parse_whole(text: &[u16]) -> Result<i64, ParseFault>
    ensures number { result ≡ parsed 0 text.now }
    ensures not_number { (result ≡ Err ParseFault.NotNumber) ↔ IsNoNumberText text.now }
{
    parse_scaled(text, 0)
}

fn parse_scaled(text: &[u16], places: usize) -> Result<i64, ParseFault>
    ensures number { result ≡ parsed places text.now }
    ensures not_number { (result ≡ Err ParseFault.NotNumber) ↔ IsNoNumberText text.now }
{
    match read(text) {
        Some(numeral) => signed(numeral.negative, Cut::of(numeral, places).rounded()),
        None => Err(ParseFault::NotNumber),
    }
}

/// The number of this size, with its sign.
fn signed(negative: bool, size: u128) -> Result<i64, ParseFault>
    ensures { result ≡ ranged ParseFault.OutOfRange (signed negative size) }
{
    let Ok(size) = i128::try_from(size) else {
        return Err(ParseFault::OutOfRange);
    };
    match i64::try_from(if negative { -size } else { size }) {
        Ok(number) => Ok(number),
        Err(_) => Err(ParseFault::OutOfRange),
    }
}

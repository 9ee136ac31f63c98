//! The bound on turns that a word names.

ghost use Rattle.std.specs.Prelude.{◌≡◌};
ghost use Rattle.command_words.specs.Words.{turns_from, turns_of};

/// The greatest bound on turns.
const MOST_TURNS: u64 = 1_000_000_000_000;

/// The most digits of a bound on turns.
const MOST_DIGITS: usize = 13;

/// The bound on turns that a text names: 1 to 13 decimal digits, at most 1000000000000.
pub fn turns_named(text: &str) -> Option<u64>
    ensures { result ≡ turns_of text.now }
{
    let digits = text.as_bytes();
    if digits.is_empty() || MOST_DIGITS < digits.len() {
        return None;
    }
    number_in(digits)
}

// The number that decimal digits stand for, where there are only digits and it is at most the greatest bound.
#[tactic(auto, using(crate::proofs::Digits::turns_from_above, crate::proofs::Digits::turns_from_all, crate::proofs::Digits::turns_from_more, crate::proofs::Digits::turns_from_low, crate::proofs::Digits::turns_from_high))]
fn number_in(digits: &[u8]) -> Option<u64>
    ensures { result ≡ turns_from 0 digits.now }
{
    let mut value: u64 = 0;
    for digit in digits {
        if *digit < b'0' || b'9' < *digit {
            return None;
        }
        value = value * 10 + u64::from(*digit - b'0');
        if MOST_TURNS < value {
            return None;
        }
    }
    Some(value)
}

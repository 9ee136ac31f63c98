ghost use Rattle.std.specs.Prelude.{◌≡◌, IfSome, All};
ghost use Rattle.std.specs.Char.{IsAsciiDigit};
ghost use Rattle.std.specs.List.{list_all};
ghost use Rattle.std.specs.Option.{option_map};
ghost use Rattle.currency.specs.NumberText.{HasDigits, read, is_blank, behind_blanks, begins_with_minus, behind_sign, first_digits, behind_digits, first_decimals, behind_decimals};
ghost use Rattle.currency.specs.View.{numeral_of};

use crate::mark::{BLANK, MINUS, NINE, PLUS, POINT, ZERO};

/// A number as a text writes it: its sign, and its digits before and behind the point.
#[derive(Clone, Copy)]
pub struct Numeral<'a> {
    pub negative: bool,
    pub whole: &'a [u16],
    pub fraction: &'a [u16],
}

/// The number that a text writes, exactly where it is a number text.
#[tactic(auto, unfolding(crate::specs::NumberText::read, crate::specs::NumberText::read_digits))]
pub fn read(text: &[u16]) -> Option<Numeral<'_>>
    ensures number { option_map numeral_of result ≡ read text.now }
    ensures digits { IfSome result (λ n. HasDigits (numeral_of n)) }
{
    let (negative, unsigned) = split_sign(skip_blanks(text));
    let (whole, rest) = split_digits(unsigned);
    let (fraction, rest) = split_decimals(rest);
    if whole.is_empty() || !is_blank(rest) {
        return None;
    }
    Some(Numeral {
        negative,
        whole,
        fraction,
    })
}

fn skip_blanks(text: &[u16]) -> &[u16]
    ensures { result.now ≡ behind_blanks text.now }
{
    let mut rest = text;
    while let [BLANK, behind @ ..] = rest {
        rest = behind;
    }
    rest
}

fn is_blank(text: &[u16]) -> bool
    ensures { result ≡ list_all is_blank text.now }
{
    text.iter().all(|unit| *unit == BLANK)
}

fn split_sign(text: &[u16]) -> (bool, &[u16])
    ensures negative { result.0 ≡ begins_with_minus text.now }
    ensures rest { result.1.now ≡ behind_sign text.now }
{
    match text {
        [MINUS, rest @ ..] => (true, rest),
        [PLUS, rest @ ..] => (false, rest),
        _ => (false, text),
    }
}

fn split_decimals(text: &[u16]) -> (&[u16], &[u16])
    ensures decimals { result.0.now ≡ first_decimals text.now }
    ensures all { All IsAsciiDigit result.0.now }
    ensures rest { result.1.now ≡ behind_decimals text.now }
{
    match text {
        [POINT, rest @ ..] => split_digits(rest),
        _ => (&[], text),
    }
}

fn split_digits(text: &[u16]) -> (&[u16], &[u16])
    ensures digits { result.0.now ≡ first_digits text.now }
    ensures all { All IsAsciiDigit result.0.now }
    ensures rest { result.1.now ≡ behind_digits text.now }
{
    text.split_at(text.len() - skip_digits(text).len())
}

fn skip_digits(text: &[u16]) -> &[u16]
    ensures { result.now ≡ behind_digits text.now }
{
    let mut rest = text;
    while let [ZERO..=NINE, behind @ ..] = rest {
        rest = behind;
    }
    rest
}

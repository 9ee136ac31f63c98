// Texts as numbers.
ghost use Rattle.std.specs.Prelude.{◌≡◌};
ghost use Rattle.std.specs.Char.{is_ascii_digit};
ghost use Rattle.std.specs.List.{list_any, list_all};
ghost use Rattle.currency.specs.NumberText.{read};
ghost use Rattle.vba_values.specs.Errors.{Answers};
ghost use Rattle.vba_values.specs.Texts.{begins_with_ampersand, boolean_of_numeral, currency_of_text, is_number_unit, looks_like_number, not_number, whole_of_text};
ghost use Rattle.vba_values.specs.View.{view};

use crate::fault::{Bad, OutKind};
use crate::types::WholeKind;
use crate::value::Value;
use crate::whole::ranged;
use currency::{ParseFault, compare_text, parse, parse_whole};

/// A text as a whole number of a kind, rounded half to even once.
pub fn whole_of_text(kind: WholeKind, text: &[u16]) -> Result<Value, Bad>
    ensures { Answers view result (whole_of_text kind text.now) }
{
    match parse_whole(text) {
        Ok(number) => ranged(kind, number),
        Err(ParseFault::NotNumber) => Err(not_number(text)),
        Err(ParseFault::OutOfRange) => Err(Bad::OVERFLOW),
    }
}

/// A text as a Currency, rounded half to even to four decimals.
pub fn currency_of_text(text: &[u16]) -> Result<Value, Bad>
    ensures { Answers view result (currency_of_text text.now) }
{
    match parse(text) {
        Ok(amount) => Ok(Value::Currency(amount)),
        Err(ParseFault::NotNumber) => Err(not_number(text)),
        Err(ParseFault::OutOfRange) => Err(Bad::OVERFLOW),
    }
}

/// A number text as a Boolean: True exactly where it doesn't write 0.
pub fn boolean_of_number_text(text: &[u16]) -> Result<Value, Bad>
    ensures { Answers view result (boolean_of_numeral text.now (read text.now)) }
{
    match compare_text(0, text) {
        Some(order) => Ok(Value::Boolean(order.is_ne())),
        None => Err(not_number(text)),
    }
}

/// What comes of a text that is no number text.
pub fn not_number(text: &[u16]) -> Bad
    ensures { result ≡ not_number text.now }
{
    if looks_like_number(text) {
        Bad::Outside(OutKind::NumberText)
    } else {
        Bad::TYPE_MISMATCH
    }
}

/// Whether VBA may read the text as a number.
fn looks_like_number(text: &[u16]) -> bool
    ensures { result ≡ looks_like_number text.now }
{
    begins_with_ampersand(text) || (has_digit(text) && has_number_units(text))
}

const AMPERSAND: u16 = 0x26;

fn begins_with_ampersand(text: &[u16]) -> bool
    ensures { result ≡ begins_with_ampersand text.now }
{
    match text {
        [first, ..] => *first == AMPERSAND,
        [] => false,
    }
}

fn has_digit(text: &[u16]) -> bool
    ensures { result ≡ list_any is_ascii_digit text.now }
{
    text.iter().any(|unit| is_digit(*unit))
}

fn has_number_units(text: &[u16]) -> bool
    ensures { result ≡ list_all is_number_unit text.now }
{
    text.iter().all(|unit| is_number_unit(*unit))
}

fn is_digit(unit: u16) -> bool
    ensures { result ≡ is_ascii_digit unit }
{
    matches!(unit, 0x30..=0x39)
}

/// A digit, or one of `+-.,EeDd$()%` and the blank.
fn is_number_unit(unit: u16) -> bool
    ensures { result ≡ is_number_unit unit }
{
    match unit {
        0x20 | 0x24 | 0x25 | 0x28..=0x29 | 0x2b..=0x2e | 0x30..=0x39 | 0x44..=0x45 | 0x64..=0x65 =>
            true,
        _ => false,
    }
}

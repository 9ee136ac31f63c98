//! The values of number literals.

ghost use Rattle.std.specs.Prelude.{◌≡◌, ◌≤◌, ◌<◌, ◌^◌, ◌+◌, ◌==◌, if◌then◌else◌, not, min, length, drop};
ghost use Rattle.std.specs.List.{prefix_len, list_all, list_any};
ghost use Rattle.vba_lexer.specs.Classes as classes;
ghost use Rattle.vba_lexer.specs.Numbers as numbers;

use crate::classes::{is_digit, is_one_of};

/// More than any whole type holds: what a number is cut to.
const LIMIT: u128 = 0x1_0000_0000_0000_0000;

/// The suffix of a number or a name, by the type that it names.
#[derive(Clone, Copy)]
pub enum TypeSuffix {
    Integer,
    Long,
    LongLong,
    Single,
    Double,
    Currency,
    Text,
}

/// The types of number literals.
#[derive(Clone, Copy, Debug, PartialEq, Eq)]
pub enum NumberKind {
    Integer,
    Long,
    LongLong,
    /// Its value counts ten-thousandths.
    Currency,
}

/// The value of a number literal and its type.
#[derive(Clone, Copy, Debug, PartialEq, Eq)]
pub struct Number {
    pub kind: NumberKind,
    pub value: i64,
}

/// Why a number literal has no value.
#[derive(Clone, Copy, Debug, PartialEq, Eq)]
pub enum NumberFault {
    /// It is outside its type (rule S4).
    OutOfRange,
    /// It is of type Double or Single (rule S5).
    Double,
}

/// The type suffix that a character is.
fn suffix_named(unit: u16) -> Option<TypeSuffix>
    ensures { result ≡ numbers.suffix_named unit }
{
    match unit {
        0x25 => Some(TypeSuffix::Integer),
        0x26 => Some(TypeSuffix::Long),
        0x5E => Some(TypeSuffix::LongLong),
        0x21 => Some(TypeSuffix::Single),
        0x23 => Some(TypeSuffix::Double),
        0x40 => Some(TypeSuffix::Currency),
        0x24 => Some(TypeSuffix::Text),
        _ => None,
    }
}

/// The suffix at the end of a word or a number.
pub fn suffix_of(text: &[u16]) -> Option<TypeSuffix>
    ensures { result ≡ numbers.suffix_of text.now }
{
    match text {
        [.., last] => suffix_named(*last),
        [] => None,
    }
}

/// The value of a digit.
fn digit_value(unit: u16) -> u128
    ensures value { result ≡ numbers.digit_value unit }
    ensures below { result < 16 }
{
    match unit {
        0x30..=0x39 => u128::from(unit - 0x30),
        0x41..=0x46 => u128::from(unit - 0x37),
        0x61..=0x66 => u128::from(unit - 0x57),
        _ => 0,
    }
}

/// The number that digits stand for, or `LIMIT` where it is above that.
fn digits_value(base: u128, digits: &[u16]) -> u128
    requires some { 0 < base }
    requires small { base ≤ 16 }
    ensures { result ≡ min (numbers.digits_value base digits.now) LIMIT }
{
    let mut value: u128 = 0;
    for digit in digits {
        value = value * base + digit_value(*digit);
        if value > LIMIT {
            value = LIMIT;
        }
    }
    value
}

/// A number up to a limit.
fn up_to(limit: u128, kind: NumberKind, value: u128) -> Result<Number, NumberFault>
    requires { limit < 2 ^ 63 }
    ensures { result ≡ numbers.up_to limit kind value }
{
    if value > limit {
        return Err(NumberFault::OutOfRange);
    }
    Ok(Number {
        kind,
        value: value as i64,
    })
}

/// A number whose bits make so many numbers: the upper half of them are the negative ones.
fn of_bits(size: u128, kind: NumberKind, value: u128) -> Result<Number, NumberFault>
    requires { size ≤ 2 ^ 64 }
    ensures { result ≡ numbers.of_bits size kind value }
{
    if value >= size {
        return Err(NumberFault::OutOfRange);
    }
    let signed = if value * 2 < size {
        value as i128
    } else {
        value as i128 - size as i128
    };
    Ok(Number {
        kind,
        value: signed as i64,
    })
}

/// So many ten-thousandths.
fn currency(count: u128) -> Result<Number, NumberFault>
    ensures { result ≡ numbers.currency count }
{
    up_to(0x7FFF_FFFF_FFFF_FFFF, NumberKind::Currency, count)
}

/// A number in decimal digits.
fn decimal_number(suffix: Option<TypeSuffix>, value: u128) -> Result<Number, NumberFault>
    requires { value ≤ LIMIT }
    ensures { result ≡ numbers.decimal_number suffix value }
{
    match suffix {
        None if value <= 32767 => up_to(32767, NumberKind::Integer, value),
        None if value <= 2147483647 => up_to(2147483647, NumberKind::Long, value),
        None | Some(TypeSuffix::Single | TypeSuffix::Double) => Err(NumberFault::Double),
        Some(TypeSuffix::Integer) => up_to(32767, NumberKind::Integer, value),
        Some(TypeSuffix::Long) => up_to(2147483647, NumberKind::Long, value),
        Some(TypeSuffix::LongLong) => up_to(0x7FFF_FFFF_FFFF_FFFF, NumberKind::LongLong, value),
        Some(TypeSuffix::Currency) => currency(value * 10000),
        Some(TypeSuffix::Text) => Err(NumberFault::OutOfRange),
    }
}

/// A number in hexadecimal or octal digits.
fn based_number(suffix: Option<TypeSuffix>, value: u128) -> Result<Number, NumberFault>
    ensures { result ≡ numbers.based_number suffix value }
{
    match suffix {
        None if value < 0x1_0000 => of_bits(0x1_0000, NumberKind::Integer, value),
        None | Some(TypeSuffix::Long) => of_bits(0x1_0000_0000, NumberKind::Long, value),
        Some(TypeSuffix::Integer) => of_bits(0x1_0000, NumberKind::Integer, value),
        Some(TypeSuffix::LongLong) => of_bits(LIMIT, NumberKind::LongLong, value),
        Some(TypeSuffix::Single | TypeSuffix::Double) => Err(NumberFault::Double),
        Some(TypeSuffix::Currency | TypeSuffix::Text) => Err(NumberFault::OutOfRange),
    }
}

/// The digit at a place behind the point, 0 past the last one.
fn digit_at(digits: &[u16], place: usize) -> u128
    ensures value { result ≡ numbers.digit_at digits.now place }
    ensures below { result < 16 }
{
    if place < digits.len() {
        digit_value(digits[place])
    } else {
        0
    }
}

/// Do these digits behind a count round it up, half to even?
fn rounds_up(count: u128, digits: &[u16]) -> bool
    ensures { result ≡ numbers.rounds_up count digits.now }
{
    match digits {
        [] => false,
        [digit, others @ ..] => *digit > '5' as u16
            || (*digit == '5' as u16 && (has_other(others) || count % 2 == 1)),
    }
}

/// Is one of the digits other than 0?
fn has_other(digits: &[u16]) -> bool
    ensures { result ≡ list_any (λ digit. not (digit == 48)) digits.now }
{
    digits.iter().any(|digit| *digit != '0' as u16)
}

/// What stands in a text from a place on.
fn from_place(text: &[u16], place: usize) -> &[u16]
    ensures { result.now ≡ drop place text.now }
{
    if place < text.len() {
        &text[place..]
    } else {
        &[]
    }
}

/// How many digits a text begins with.
fn digit_run(text: &[u16]) -> usize
    ensures size { result ≡ prefix_len classes.is_digit text.now }
    ensures within { result ≤ length text.now }
{
    text.iter()
        .take_while(|unit| is_digit(u32::from(**unit)))
        .count()
}

/// Are all units digits?
fn is_decimal(text: &[u16]) -> bool
    ensures { result ≡ list_all classes.is_digit text.now }
{
    text.iter().all(|unit| is_digit(u32::from(*unit)))
}

/// Has the text an exponent?
fn has_exponent(text: &[u16]) -> bool
    ensures { result ≡ numbers.has_exponent text.now }
{
    text.iter().any(|unit| is_one_of(u32::from(*unit), b"EeDd"))
}

/// A count that the digits behind it round, half to even.
fn rounded(count: u128, digits: &[u16]) -> u128
    requires { count < 2 ^ 100 }
    ensures { result ≡ count + (if numbers.rounds_up count digits.now then 1 else 0) }
{
    if rounds_up(count, digits) {
        count + 1
    } else {
        count
    }
}

/// A number with a point, as ten-thousandths.
fn fixed_currency(text: &[u16]) -> Result<Number, NumberFault>
    ensures { result ≡ numbers.currency (numbers.fixed_count (numbers.whole_part text.now) (numbers.fraction_part text.now)) }
{
    let run = digit_run(text);
    let fraction = from_place(text, run + 1);
    let places = digit_at(fraction, 0) * 1000
        + digit_at(fraction, 1) * 100
        + digit_at(fraction, 2) * 10
        + digit_at(fraction, 3);
    let count = digits_value(10, &text[..run]) * 10000 + places;
    currency(rounded(count, from_place(fraction, 4)))
}

/// A number with a point or an exponent.
fn fixed_number(suffix: Option<TypeSuffix>, text: &[u16]) -> Result<Number, NumberFault>
    ensures { result ≡ numbers.fixed_number suffix text.now }
{
    match suffix {
        None | Some(TypeSuffix::Single | TypeSuffix::Double) => Err(NumberFault::Double),
        Some(TypeSuffix::Currency) if !has_exponent(text) => fixed_currency(text),
        Some(_) => Err(NumberFault::OutOfRange),
    }
}

/// The number behind `&`, or `LIMIT` where it is above that.
fn based_value(text: &[u16]) -> u128
    ensures { result ≡ min (numbers.based_value text.now) LIMIT }
{
    match text {
        [0x48 | 0x68, digits @ ..] => digits_value(16, digits),
        [0x4F | 0x6F, digits @ ..] => digits_value(8, digits),
        _ => digits_value(8, text),
    }
}

/// The number that a text without its suffix stands for.
fn number_behind(suffix: Option<TypeSuffix>, text: &[u16]) -> Result<Number, NumberFault>
    ensures { result ≡ numbers.number_behind suffix text.now }
{
    match text {
        [] => fixed_number(suffix, text),
        [0x26, digits @ ..] => based_number(suffix, based_value(digits)),
        _ if is_decimal(text) => decimal_number(suffix, digits_value(10, text)),
        _ => fixed_number(suffix, text),
    }
}

/// A word or a number without its suffix.
pub fn without_suffix(text: &[u16]) -> &[u16]
    ensures { result.now ≡ numbers.without_suffix text.now }
{
    match suffix_of(text) {
        Some(_) => &text[..text.len() - 1],
        None => text,
    }
}

/// The value of a number literal, by the text of its token: a Whole or a Fixed.
pub fn number_value(text: &[u16]) -> Result<Number, NumberFault>
    ensures { result ≡ numbers.number_of text.now }
{
    number_behind(suffix_of(text), without_suffix(text))
}

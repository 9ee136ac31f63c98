// Fields of a sheet file, as values and from values.
ghost use Rattle.std.specs.Prelude.{◌≡◌, IfOk, OnErr, IsTrue, false, MatchOption};
ghost use Rattle.sheet_host.specs.Field.{value_of_field, field_of_cell, field_word, is_text, is_whole_field, is_currency_field, is_plain, is_fraction, behind_minus, whole_cell, has_units};
ghost use Rattle.sheet_host.specs.declared.cell.CellValue.TheVariants as cell;
ghost use Rattle.currency.specs.NumberText.{first_digits, behind_digits};

use crate::cell::CellValue;
use currency::{parse, parse_whole, print};
use std::alloc::Global;
use vba_base::{NoMemory, Units};
use vba_values::{Value, text_of};

const ZERO: u16 = 0x30;

const NINE: u16 = 0x39;

const MINUS: u16 = 0x2D;

const POINT: u16 = 0x2E;

/// The value of a field: Empty without units; `TRUE` or `FALSE`; Long, or LongLong where Long is too small, for digits
/// with an optional `-` and no spare leading zero; Currency where a point and one to four digits follow; a number out
/// of range and every other field is text. Only a text takes memory.
pub fn value_of_field(alloc: Global, field: &[u16]) -> Result<CellValue, NoMemory>
    ensures value { IfOk result (λ value. value ≡ value_of_field field.now) }
    ensures memory { OnErr result (IsTrue (is_text (value_of_field field.now))) }
{
    match plain_value(field) {
        Some(value) => Ok(value),
        None => Ok(CellValue::Text(Units::from_units(alloc, field)?)),
    }
}

/// The value of a field that isn't text.
fn plain_value(field: &[u16]) -> Option<CellValue>
    ensures { MatchOption result (value_of_field field.now ≡ cell.Text field.now)
        (λ value. (value ≡ value_of_field field.now) × (is_text value ≡ false)) }
{
    if field.is_empty() {
        return Some(CellValue::Empty);
    }
    if field == field_word(true) {
        return Some(CellValue::Boolean(true));
    }
    if field == field_word(false) {
        return Some(CellValue::Boolean(false));
    }
    if is_whole_field(field) {
        return match parse_whole(field) {
            Ok(number) => Some(whole_cell(number)),
            Err(_) => None,
        };
    }
    if is_currency_field(field) {
        return match parse(field) {
            Ok(amount) => Some(CellValue::Currency(amount)),
            Err(_) => None,
        };
    }
    None
}

pub fn whole_cell(number: i64) -> CellValue
    ensures value { result ≡ whole_cell number }
    ensures number { is_text result ≡ false }
{
    match i32::try_from(number) {
        Ok(long) => CellValue::Long(long),
        Err(_) => CellValue::LongLong(number),
    }
}

/// `TRUE` or `FALSE`.
fn field_word(truth: bool) -> &'static [u16]
    ensures { result.now ≡ field_word truth }
{
    if truth {
        &[0x54, 0x52, 0x55, 0x45]
    } else {
        &[0x46, 0x41, 0x4C, 0x53, 0x45]
    }
}

fn is_whole_field(field: &[u16]) -> bool
    ensures { result ≡ is_whole_field field.now }
{
    let (digits, rest) = split_digits(behind_minus(field));
    is_plain(digits) && rest.is_empty()
}

fn is_currency_field(field: &[u16]) -> bool
    ensures { result ≡ is_currency_field field.now }
{
    let (digits, rest) = split_digits(behind_minus(field));
    is_plain(digits) && is_fraction(rest)
}

fn behind_minus(field: &[u16]) -> &[u16]
    ensures { result.now ≡ behind_minus field.now }
{
    match field {
        [MINUS, rest @ ..] => rest,
        _ => field,
    }
}

fn is_plain(digits: &[u16]) -> bool
    ensures { result ≡ is_plain digits.now }
{
    match digits {
        [] => false,
        [_] => true,
        [first, ..] => *first != ZERO,
    }
}

fn is_fraction(text: &[u16]) -> bool
    ensures { result ≡ is_fraction text.now }
{
    match text {
        [POINT, digits @ ..] => {
            1 <= digits.len() && digits.len() <= 4 && skip_digits(digits).is_empty()
        }
        _ => false,
    }
}

fn split_digits(text: &[u16]) -> (&[u16], &[u16])
    ensures digits { result.0.now ≡ first_digits text.now }
    ensures rest { result.1.now ≡ behind_digits text.now }
{
    text.split_at(text.len() - skip_digits(text).len())
}

fn skip_digits(text: &[u16]) -> &[u16]
    ensures { result.now ≡ behind_digits text.now }
{
    let mut rest = text;
    while let [ZERO..=NINE, behind @ ..] = rest {
        rest = behind;
    }
    rest
}

/// The text that a written cell is saved as: decimal digits with `-` before negatives, Currency with a point only where
/// it is needed, `TRUE` or `FALSE`, and a text as it is. Empty has no units.
pub fn field_of_cell(alloc: Global, cell: &CellValue) -> Result<Units, NoMemory>
    ensures { IfOk result (λ text. text ≡ field_of_cell cell.now) }
{
    match cell {
        CellValue::Empty => Ok(Units::new(alloc)),
        CellValue::Boolean(truth) => Units::from_units(alloc, field_word(*truth)),
        CellValue::Long(number) => decimal(alloc, i64::from(*number)),
        CellValue::LongLong(number) => decimal(alloc, *number),
        CellValue::Currency(amount) => print(alloc, *amount),
        CellValue::Text(text) => Units::from_units(alloc, text.units()),
    }
}

fn decimal(alloc: Global, number: i64) -> Result<Units, NoMemory>
    ensures { IfOk result (λ text. text ≡ field_of_cell (cell.LongLong number)) }
{
    match text_of(alloc, &Value::LongLong(number)) {
        Ok(text) => Ok(text),
        Err(_) => Err(NoMemory),
    }
}

/// Whether a cell is saved as a text with units.
pub fn has_text(cell: &CellValue) -> bool
    ensures { result ≡ has_units (field_of_cell cell.now) }
{
    match cell {
        CellValue::Empty => false,
        CellValue::Boolean(_) => true,
        CellValue::Long(_) => true,
        CellValue::LongLong(_) => true,
        CellValue::Currency(_) => true,
        CellValue::Text(text) => !text.units().is_empty(),
    }
}

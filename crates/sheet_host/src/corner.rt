// Cells as addresses name them.
ghost use Rattle.std.specs.Prelude.{◌≡◌, ◌≤◌, IsTrue, All, IfSome, take_while};
ghost use Rattle.std.specs.Char.{IsAsciiDigit, is_ascii_alphabetic, is_ascii_digit};
ghost use Rattle.std.specs.Option.{option_map};
ghost use Rattle.std.specs.Str.Parse.{digits_value};
ghost use Rattle.sheet_host.specs.Size.{IsInside, sheet_rows, sheet_columns};
ghost use Rattle.sheet_host.specs.Address.{IsLetter, column_of, letter_number};
ghost use Rattle.sheet_host.specs.AddressText.{behind_dollar, behind, behind_corner, corner_of, place_up_to};

use crate::area::{SHEET_COLUMNS, SHEET_ROWS};

/// A row and a column of a sheet.
#[derive(Clone, Copy)]
pub struct Corner {
    pub row: u32,
    pub column: u32,
}

pub const DOLLAR: u16 = 0x24;

const ZERO: u16 = 0x30;

const NINE: u16 = 0x39;

const CAPITAL_A: u16 = 0x41;

const CAPITAL_Z: u16 = 0x5a;

const SMALL_A: u16 = 0x61;

const SMALL_Z: u16 = 0x7a;

/// The cell that a text begins with, where the sheet has it, and what stands behind it.
pub fn read_corner(text: &[u16]) -> Option<(Corner, &[u16])>
    ensures corner { option_map (λ r. r.0) result ≡ corner_of text.now }
    ensures rest { IfSome result (λ r. r.1.now ≡ behind_corner text.now) }
    ensures inside { IfSome result (λ r. IsInside r.0.row r.0.column) }
{
    let (letters, rest) = split_letters(behind_dollar(text));
    let (digits, rest) = split_digits(behind_dollar(rest));
    let row = row_of(digits)?;
    let column = column_of(letters)?;
    Some((Corner { row, column }, rest))
}

fn behind_dollar(text: &[u16]) -> &[u16]
    ensures { result.now ≡ behind_dollar text.now }
{
    match text {
        [DOLLAR, rest @ ..] => rest,
        _ => text,
    }
}

fn split_letters(text: &[u16]) -> (&[u16], &[u16])
    ensures letters { result.0.now ≡ take_while is_ascii_alphabetic text.now }
    ensures all { All IsLetter result.0.now }
    ensures rest { result.1.now ≡ behind is_ascii_alphabetic text.now }
{
    text.split_at(text.len() - skip_letters(text).len())
}

fn split_digits(text: &[u16]) -> (&[u16], &[u16])
    ensures digits { result.0.now ≡ take_while is_ascii_digit text.now }
    ensures all { All IsAsciiDigit result.0.now }
    ensures rest { result.1.now ≡ behind is_ascii_digit text.now }
{
    text.split_at(text.len() - skip_digits(text).len())
}

fn skip_letters(text: &[u16]) -> &[u16]
    ensures { result.now ≡ behind is_ascii_alphabetic text.now }
{
    let mut rest = text;
    while let [unit, behind @ ..] = rest {
        if !is_letter(*unit) {
            break;
        }
        rest = behind;
    }
    rest
}

fn skip_digits(text: &[u16]) -> &[u16]
    ensures { result.now ≡ behind is_ascii_digit text.now }
{
    let mut rest = text;
    while let [ZERO..=NINE, behind @ ..] = rest {
        rest = behind;
    }
    rest
}

fn is_letter(unit: u16) -> bool
    ensures { result ≡ is_ascii_alphabetic unit }
{
    matches!(unit, CAPITAL_A..=CAPITAL_Z | SMALL_A..=SMALL_Z)
}

/// The column that letters name, where the sheet has it.
#[tactic(auto, using(crate::proofs::Places::column_behind_last))]
fn column_of(letters: &[u16]) -> Option<u32>
    requires { All IsLetter letters.now }
    ensures { result ≡ place_up_to sheet_columns (column_of letters.now) }
{
    let mut column = 0;
    for letter in letters {
        column = column * 26 + letter_number(*letter);
        if column > SHEET_COLUMNS {
            return None;
        }
    }
    if column == 0 { None } else { Some(column) }
}

/// The row that digits write, where the sheet has it.
#[tactic(auto, using(crate::proofs::Places::row_behind_last, crate::proofs::Places::row_more))]
fn row_of(digits: &[u16]) -> Option<u32>
    requires { All IsAsciiDigit digits.now }
    ensures { result ≡ place_up_to sheet_rows (digits_value 10 digits.now) }
{
    let mut row = 0;
    for digit in digits {
        row = row * 10 + u32::from(*digit - ZERO);
        if row > SHEET_ROWS {
            return None;
        }
    }
    if row == 0 { None } else { Some(row) }
}

/// A is 1 and Z is 26, in either case.
fn letter_number(letter: u16) -> u32
    requires { IsLetter letter }
    ensures number { result ≡ letter_number letter }
    ensures small { result ≤ 26 }
{
    if letter < SMALL_A {
        u32::from(letter - CAPITAL_A + 1)
    } else {
        u32::from(letter - SMALL_A + 1)
    }
}

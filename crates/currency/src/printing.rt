ghost use Rattle.std.specs.Prelude.{◌≡◌, ◌<◌, ◌++◌, IfOk, OnOk};
ghost use Rattle.std.specs.Fmt.{decimal};
ghost use Rattle.currency.specs.Parsed.{parsed};
ghost use Rattle.currency.specs.Printed.{printed, printed_fraction, decimals};

use crate::mark::{MINUS, POINT, ZERO};
use crate::value::{Currency, count};
use std::alloc::Global;
use vba_base::{NoMemory, Units};

/// The amount in decimal digits, with `-` before negatives, a point only where it is needed and no zeros at the end.
pub fn print(alloc: Global, value: Currency) -> Result<Units, NoMemory>
    ensures { IfOk result (λ text. text ≡ printed value) }
{
    let count = count(value);
    let size = count.unsigned_abs();
    let mut text = Units::new(alloc);
    if count < 0 {
        text.push(MINUS)?;
    }
    push_whole(&mut text, size / 10000)?;
    push_fraction(&mut text, size % 10000)?;
    Ok(text)
}

fn push_whole(text: &mut Units, whole: u64) -> Result<(), NoMemory>
    ensures { OnOk result (text.new ≡ text.old ++ decimal whole) }
{
    if whole >= 10 {
        push_whole(text, whole / 10)?;
    }
    text.push(ZERO + (whole % 10) as u16)
}

fn push_fraction(text: &mut Units, part: u64) -> Result<(), NoMemory>
    requires { part < 10000 }
    ensures { OnOk result (text.new ≡ text.old ++ printed_fraction part) }
{
    if part == 0 {
        return Ok(());
    }
    text.push(POINT)?;
    push_decimals(text, part)
}

fn push_decimals(text: &mut Units, part: u64) -> Result<(), NoMemory>
    requires { part < 10000 }
    ensures { OnOk result (text.new ≡ text.old ++ decimals 4 part) }
{
    let mut rest = part;
    for places in (0..4u32).rev() {
        if rest == 0 {
            break;
        }
        let unit = 10u64.pow(places);
        text.push(ZERO + (rest / unit) as u16)?;
        rest %= unit;
    }
    Ok(())
}

/// What is printed reads as the amount that was printed.
pub fn printed_parses(value: Currency)
    ensures { parsed 4 (printed value) ≡ Ok value }
{
    // The count says that the amount fits 64 bits.
    let _count = count(value);
}

/// Different amounts are printed differently.
pub fn printed_differs(left: Currency, right: Currency)
    ensures { printed left ≡ printed right → left ≡ right }
{
    // The counts say that the amounts fit 64 bits.
    let _counts = (count(left), count(right));
}

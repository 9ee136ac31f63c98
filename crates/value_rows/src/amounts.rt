//! Amounts with four decimals, in ten-thousandths.

use crate::words::{Answer, BadLine, number, push_text, text_of_word};
use currency::{
    Currency, Overflow, ParseFault, add, compare_text, count, from_count, from_whole, mul, neg,
    parse, parse_whole, print, round_to_whole, sub,
};
use std::alloc::Global;
use vba_base::OrMemory;

fn push_amount(out: &mut String, got: Result<Currency, Overflow>) -> Answer<()> {
    match got {
        Ok(amount) => push_number(out, count(amount)),
        Err(Overflow) => {
            out.push_str("overflow")?;
            Ok(())
        }
    }
}

fn push_number(out: &mut String, number: i64) -> Answer<()> {
    write!(out, "{number}")?;
    Ok(())
}

/// The sum, difference or product of two amounts.
pub fn between(out: &mut String, kind: &str, words: &[&str]) -> Answer<()> {
    let [left, right] = words else {
        return Err(OrMemory::Fault(BadLine));
    };
    let left = from_count(number(left)?);
    let right = from_count(number(right)?);
    push_amount(
        out,
        match kind {
            "add" => add(left, right),
            "subtract" => sub(left, right),
            _ => mul(left, right),
        },
    )
}

pub fn negated(out: &mut String, word: &str) -> Answer<()> {
    push_amount(out, neg(from_count(number(word)?)))
}

/// The amount of a whole number.
pub fn whole(out: &mut String, word: &str) -> Answer<()> {
    push_amount(out, from_whole(number(word)?))
}

/// The whole number nearest to an amount, or its text.
pub fn of_amount(alloc: Global, out: &mut String, kind: &str, word: &str) -> Answer<()> {
    let amount = from_count(number(word)?);
    if kind == "round" {
        return push_number(out, round_to_whole(amount));
    }
    let text = print(alloc, amount)?;
    push_text(out, text.units())
}

/// The amount or the whole number that a text writes.
pub fn of_text(alloc: Global, out: &mut String, kind: &str, word: &str) -> Answer<()> {
    let text = text_of_word(alloc, word)?;
    let got = if kind == "amount" {
        parse(text.units()).map(|amount| count(amount))
    } else {
        parse_whole(text.units())
    };
    match got {
        Ok(number) => push_number(out, number),
        Err(fault) => push_parse_fault(out, fault),
    }
}

fn push_parse_fault(out: &mut String, fault: ParseFault) -> Answer<()> {
    write!(out, "{fault}")?;
    Ok(())
}

/// The greatest count that a text is compared with.
const MOST: u128 = 100_000_000_000_000_000_000_000;

/// `AMOUNT TEXT`
pub fn ordered(alloc: Global, out: &mut String, words: &[&str]) -> Answer<()> {
    let [amount, text] = words else {
        return Err(OrMemory::Fault(BadLine));
    };
    let amount: i128 = number(amount)?;
    if amount.unsigned_abs() > MOST {
        return Err(OrMemory::Fault(BadLine));
    }
    let text = text_of_word(alloc, text)?;
    match compare_text(amount, text.units()) {
        Some(order) => write!(out, "{order:?}")?,
        None => out.push_str("none")?,
    }
    Ok(())
}

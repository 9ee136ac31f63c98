//! Performs the cases of its input by the public calls of the crates of values and sheets, and says of each whether
//! its answer is the wanted one. A line without `gives` is no case.
//!
//! A case is a kind, its words, `gives` and the wanted answer, each one blank apart.
//!
//! - A text is `".."`, with `\s` for a blank, `\t`, `\r` and `\n` for the controls, `\b` for a backslash and `\u`
//!   with four hexadecimal digits for another unit. A quote inside stands as it is. Where bytes are meant each unit
//!   is a byte.
//! - A value is `Empty`, `Null`, `Missing`, `Nothing`, `Boolean(True)`, `Byte(1)`, `Integer(1)`, `Long(1)`,
//!   `LongLong(1)`, `Text("a")`, `Currency(15000)` in ten-thousandths, `Object(7)` with a number, `Sheet(2)`,
//!   `Longs` (an array of Long without elements), `Udt(4)` (a value without fields of that type) or `Numbers(1,2)`
//!   (an array of Variant with lower bounds 0, these upper bounds and the Integers from 0 on; of such an array an
//!   answer tells how many elements it has, as `Array(6)`).
//! - A declared type is its word in VBA, `String(3)` for `String * 3`, `Class(1)`, `Udt(4)` or `ArrayOf(Long)`.
//! - An error is `raise` with its number, an end of the run `stop` with its name.
//!
//! The kinds are:
//!
//! - of values `coerce VALUE As TYPE`, `text VALUE`, `fresh TYPE`, `binary VALUE As TYPE OPERATOR VALUE As TYPE`
//!   with `Folded` behind where texts compare without case, `unary OPERATOR VALUE As TYPE`, `static TYPE OPERATOR
//!   TYPE` and `static OPERATOR TYPE`;
//! - of amounts in ten-thousandths `add`, `subtract`, `multiply`, `negate`, `round` to a whole number, `whole` from
//!   one, `print`, and `order AMOUNT TEXT`; of texts `amount` and `number`;
//! - of texts `decode BYTES`, `encode TEXT` and `fold TEXT`;
//! - of the library `library NAME VALUE ..`, with `$` behind the name where it is written so, `Base1` behind under
//!   `Option Base 1` and `Folded` behind where texts compare without case (of an array an answer tells its bounds and
//!   its elements, as `0..1;Text("a");Text("b")`), `function NAME` (its least and greatest number of arguments),
//!   `constant NAME`, and `outside NAME` (whether it is a function or type that VBA has and the library hasn't);
//! - of arrays `shape BOUNDS`, with bounds as `1..4`, and `place BOUNDS at NUMBERS`;
//! - of sheets `field TEXT` (its value, and what that is saved as), `sheet BYTES` (its fields with `|` behind each
//!   and `/` behind each row, and the file that it is saved as), `cell BYTES ROW COLUMN`, `book BYTES ADDRESS VALUE
//!   ..` (the used area after these values were written, its value and the saved file), `put BYTES ROW COLUMN TEXT
//!   ..` (the same after the values of these fields were written cell by cell), `filled BYTES AREA ADDRESS VALUE ..`
//!   (row and column of each cell of the area that isn't Empty then, and `end`), `address TEXT`, `offset ADDRESS ROWS COLUMNS`,
//!   `resize ADDRESS ROWS COLUMNS`, `at ADDRESS ROW COLUMN`, `nth ADDRESS NUMBER` from 0, `around SHEET ADDRESS SHEET
//!   ADDRESS` and `member OBJECT NAME`.
#![tactic(auto)]

mod amounts;
mod arrays;
mod library;
mod operators;
mod sheets;
mod texts;
mod values;
mod words;

use amounts::{between, negated, of_amount, of_text, ordered, whole};
use arrays::{initial, place, shape};
use library::{library_of, named};
use operators::{binary_of, coerced, static_of, text_of_value, unary_of};
use sheets::{
    around, cell, field, filled, found_address, host_member, moved, nth, put_one_by_one,
    read_and_saved, written,
};
use std::alloc::Global;
use std::io;
use std::process::ExitCode;
use texts::{decoded, encoded, folded};
use vba_base::OrMemory;
use words::{Answer, BadLine};

fn main(rt: HostRuntime) -> io::Result<ExitCode> {
    let mut cases: u32 = 0;
    let mut failed = false;
    for line in rt.lines(rt.alloc()) {
        let line = line?;
        if let Some((case, wanted)) = line.split_once(" gives ") {
            cases = cases.saturating_add(1);
            failed = !report(&rt, case, wanted)? || failed;
        }
    }
    println!(rt; "{cases} cases")?;
    Ok(if failed {
        ExitCode::FAILURE
    } else {
        ExitCode::SUCCESS
    })
}

/// Performs a case, and says whether it gave what was wanted.
fn report(rt: &(impl Print + AllocGlobal), case: &str, wanted: &str) -> io::Result<bool> {
    let mut got = String::new(rt.alloc());
    match perform(rt.alloc(), &mut got, case) {
        Ok(()) => {
            let same = got.as_str() == wanted;
            if same {
                println!(rt; "ok {case} gives {wanted}")?;
            } else {
                println!(rt; "differs {case} gives {wanted}: got {got}")?;
            }
            Ok(same)
        }
        Err(OrMemory::Fault(BadLine)) => {
            println!(rt; "not a case: {case}")?;
            Ok(false)
        }
        Err(OrMemory::NoMemory) => Err(io::Error::from(io::ErrorKind::OutOfMemory)),
    }
}

/// Performs a case, and writes its answer.
fn perform(alloc: Global, out: &mut String, case: &str) -> Answer<()> {
    let (kind, rest) = case.split_once(' ').ok_or(OrMemory::Fault(BadLine))?;
    let words: Vec<&str> = rest.split(' ').collect(alloc)?;
    match kind {
        "add" | "subtract" | "multiply" => between(out, kind, &words),
        "negate" => negated(out, rest),
        "round" | "print" => of_amount(alloc, out, kind, rest),
        "whole" => whole(out, rest),
        "amount" | "number" => of_text(alloc, out, kind, rest),
        "order" => ordered(alloc, out, &words),
        "decode" => decoded(alloc, out, rest),
        "encode" => encoded(alloc, out, rest),
        "fold" => folded(alloc, out, rest),
        "field" => field(alloc, out, rest),
        "sheet" => read_and_saved(alloc, out, rest),
        "cell" => cell(alloc, out, &words),
        "book" => written(alloc, out, &words),
        "put" => put_one_by_one(alloc, out, &words),
        "filled" => filled(alloc, out, &words),
        "address" => found_address(alloc, out, rest),
        "offset" | "resize" | "at" => moved(alloc, out, kind, &words),
        "nth" => nth(alloc, out, &words),
        "around" => around(alloc, out, &words),
        "member" => host_member(alloc, out, &words),
        "shape" => shape(alloc, out, rest),
        "place" => place(alloc, out, rest),
        "fresh" => initial(alloc, out, rest),
        "library" => library_of(alloc, out, &words),
        "function" | "constant" | "outside" => named(alloc, out, kind, rest),
        _ => perform_with_values(alloc, out, kind, &words),
    }
}

/// Performs a case that has values or types.
fn perform_with_values(alloc: Global, out: &mut String, kind: &str, words: &[&str]) -> Answer<()> {
    match kind {
        "coerce" => coerced(alloc, out, words),
        "text" => text_of_value(alloc, out, words),
        "binary" => binary_of(alloc, out, words),
        "unary" => unary_of(alloc, out, words),
        "static" => static_of(alloc, out, words),
        _ => Err(OrMemory::Fault(BadLine)),
    }
}

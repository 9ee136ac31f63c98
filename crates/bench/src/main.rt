//! Measures how the cost of calls grows with their input, told as ratios within one run. `bench SUBJECT SIZE` does the
//! work of a subject at SIZE and at twice SIZE.
#![tactic(auto)]

mod arrays;
mod cells;
mod conditions;
mod expressions;
mod lexing;
mod links;
mod modules;
mod operators;
mod sheets;
mod source;

use arrays::bench_arrays;
use cells::bench_cells;
use conditions::bench_conditions;
use expressions::bench_expressions;
use lexing::bench_lex;
use links::bench_links;
use modules::{bench_modules, bench_places};
use operators::bench_operators;
use sheets::bench_sheets;
use std::env::Env;
use std::process::ExitCode;
use std::time::CpuClock;
use std::{env, io};

/// The greatest size; twice as much can still be done.
const MOST: u32 = 33_554_432;

/// The greatest count of cells: a book holds twice as many.
const MOST_CELLS: u32 = 2_000_000;

/// The greatest count of members of a place: a tree twice as deep can still be dropped.
const MOST_PLACES: u32 = 5_000;

/// The greatest count of rows: a sheet has twice as many.
const MOST_ROWS: u32 = 524_288;

fn main(rt: HostRuntime) -> io::Result<ExitCode> {
    let mut words = env::args(&rt)?.skip(1);
    let (Some(subject), Some(size), None) = (words.next(), words.next(), words.next()) else {
        return usage(&rt);
    };
    let size = match size.as_str().parse::<u32>() {
        Ok(size) if size <= MOST => size,
        _ => return usage(&rt),
    };
    match subject.as_str() {
        "lex" => bench_lex(&rt, size)?,
        "conditions" => bench_conditions(&rt, size)?,
        "expressions" => bench_expressions(&rt, size)?,
        "operators" => bench_operators(&rt, size)?,
        "arrays" => bench_arrays(&rt, size)?,
        "links" => bench_links(&rt, size)?,
        "modules" => bench_modules(&rt, size)?,
        "places" if size <= MOST_PLACES => bench_places(&rt, size)?,
        "cells" if size <= MOST_CELLS => bench_cells(&rt, size)?,
        "sheets" if size <= MOST_ROWS => bench_sheets(&rt, size)?,
        _ => return usage(&rt),
    }
    Ok(ExitCode::SUCCESS)
}

fn usage(rt: &impl Eprint) -> io::Result<ExitCode> {
    eprintln!(rt; "bench: usage: SUBJECT SIZE")?;
    eprintln!(rt;
        "lex, conditions, expressions, operators, arrays, links, modules: SIZE at most {MOST}"
    )?;
    eprintln!(rt; "cells: SIZE at most {MOST_CELLS}; sheets: SIZE at most {MOST_ROWS}")?;
    eprintln!(rt; "places: SIZE at most {MOST_PLACES}")?;
    Ok(ExitCode::from(2))
}

/// The processor time of the thread so far, in microseconds.
fn micros_now(rt: &impl CpuClock) -> io::Result<u64> {
    let micros = rt.thread_cpu_time()?.as_micros();
    Ok(u64::try_from(micros).unwrap_or(u64::MAX))
}

/// Tells how long work of a size took, and how many times as long work of twice that size.
fn tell(rt: &impl Print, what: &str, size: u32, once: u64, twice: u64) -> io::Result<()> {
    if size == 0 {
        return println!(rt; "{what}: nothing to time");
    }
    let tenths = twice.saturating_mul(10) / once.max(1);
    let times = tenths / 10;
    let tenth = tenths % 10;
    println!(rt; "{what}: {size} took {once} us, twice as many {times}.{tenth} times as long")
}

/// Memory ran out.
fn out_of_memory() -> io::Error {
    io::Error::from(io::ErrorKind::OutOfMemory)
}

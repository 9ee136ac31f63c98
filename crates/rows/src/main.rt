//! rows: performs the cases on its standard input, and tells which of them vbarun answers as they want.
//!
//! A case is a command, the files that it finds, and what it has to answer:
//!
//! ```text
//! case NAME
//! words WORD WORD ..      the words of the command, with a blank between two
//! file NAME               a file, and behind it its text; so many as the case has
//! |one line, which ends with a line end
//! +the rest of a text, or the beginning of its next line: no line end is added
//! repeat N TEXT           N times the text, to which no line end is added either
//! status N                the number with which the command ends
//! out                     what stands on standard output, as a text
//! err                     what stands on standard error, as a text
//! after NAME              a file as it is afterwards, where that isn't as it was before, and its text
//! end
//! ```
//!
//! Within texts and words `\\` is a backslash and `\xHH` the byte of that number. Empty lines between cases, and such
//! as begin with `#` there, say nothing. Of each case a line says `ok` and its name, or its name and what differs; the
//! last line counts. The status is 0 where none differs, 1 where some do, and 2 at a line that is of no such form.
#![tactic(auto)]

mod case;
mod performing;
mod reader;
mod text;

use case::Case;
use performing::differences;
use reader::CaseReader;
use std::alloc::Global;
use std::io::{self, BufRead, BufReader};
use std::process::ExitCode;
use vba_base::OrMemory;

fn main(rt: HostRuntime) -> io::Result<ExitCode> {
    let alloc = rt.alloc();
    let mut reader = CaseReader::new(alloc);
    let (mut count, mut differing, mut number) = (0u64, 0u64, 0u64);
    for line in BufReader::new(alloc, rt.reader())?.lines(alloc) {
        number = number.saturating_add(1);
        let line = line?;
        match reader.take_line(line.as_str()) {
            Ok(false) => {}
            Ok(true) => {
                count = count.saturating_add(1);
                if !tell(&rt, alloc, reader.case())? {
                    differing = differing.saturating_add(1);
                }
            }
            Err(OrMemory::Fault(why)) => return malformed(&rt, number, why),
            Err(OrMemory::NoMemory) => return Err(out_of_memory()),
        }
    }
    if reader.is_open() {
        return malformed(&rt, number, "the last case has no end");
    }
    if differing == 0 {
        println!(rt; "{count} cases")?;
        return Ok(ExitCode::SUCCESS);
    }
    println!(rt; "{count} cases, {differing} differ")?;
    Ok(ExitCode::from(1))
}

// Performs a case and tells what came of it. Did all agree?
fn tell(rt: &impl Print, alloc: Global, case: &Case) -> io::Result<bool> {
    let differences = match differences(alloc, case) {
        Ok(differences) => differences,
        Err(_) => return Err(out_of_memory()),
    };
    let name = case.name.as_str();
    for difference in &differences {
        println!(rt; "{name}: {}", difference.what)?;
        println!(rt; "  wanted {}", difference.wanted)?;
        println!(rt; "  got    {}", difference.got)?;
    }
    if differences.is_empty() {
        println!(rt; "ok {name}")?;
    }
    Ok(differences.is_empty())
}

fn malformed(rt: &impl Eprint, line: u64, why: &str) -> io::Result<ExitCode> {
    eprintln!(rt; "rows: line {line}: {why}")?;
    Ok(ExitCode::from(2))
}

fn out_of_memory() -> io::Error {
    io::Error::from(io::ErrorKind::OutOfMemory)
}

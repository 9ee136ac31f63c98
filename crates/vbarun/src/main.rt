//! vbarun: runs VBA macros.
#![tactic(auto)]

use std::alloc::Global;
use std::env::Env;
use std::process::ExitCode;
use std::{env, io};
use vba_base::{OsFiles, OsSink};
use vba_cli::{Status, run_cli};

fn main(rt: HostRuntime) -> ExitCode {
    let alloc = rt.alloc();
    let words = match words_of(&rt, alloc) {
        Ok(words) => words,
        Err(error) if error.kind() == io::ErrorKind::OutOfMemory => {
            return ExitCode::from(Status::NoMemory.code());
        }
        // Words that aren't text are no command.
        Err(_) => Vec::new(alloc),
    };
    let mut out = OsSink::new(rt.stdout());
    let mut err = OsSink::new(rt.stderr());
    let mut files = OsFiles::new(rt);
    let status = run_cli(alloc, &words, &mut files, &mut out, &mut err);
    ExitCode::from(status.code())
}

// The words after the program's own name.
fn words_of(rt: &(impl Env + AllocGlobal), alloc: Global) -> io::Result<Vec<String>> {
    let mut words = Vec::new(alloc);
    for word in env::args(rt)?.skip(1) {
        words.push(word)?;
    }
    Ok(words)
}

use crate::case::Case;
use crate::text::escaped;
use std::alloc::{AllocError, Global};
use vba_base::{MemFiles, NeverFails};
use vba_cli::run_cli;

/// What a command answers otherwise than its case wants.
#[derive(Drop)]
pub struct Difference {
    pub what: String,
    pub wanted: String,
    pub got: String,
}

/// Performs a case over memory, and gives what differs.
pub fn differences(alloc: Global, case: &Case) -> Result<Vec<Difference>, AllocError> {
    let mut found = Vec::new(alloc);
    let held = copy_of(alloc, case.files.as_slice())?;
    if !MemFiles::are_different(held.as_slice()) {
        note(
            alloc,
            &mut found,
            "files",
            "different names",
            "one name twice",
        )?;
        return Ok(found);
    }
    let mut files = MemFiles::new(alloc, held, Vec::new(alloc));
    let mut out = NeverFails::new(alloc);
    let mut err = NeverFails::new(alloc);
    let status = run_cli(alloc, &case.words, &mut files, &mut out, &mut err).code();
    if status != case.status {
        let wanted = format!(in alloc; "{}", case.status)?;
        let got = format!(in alloc; "{status}")?;
        note(alloc, &mut found, "status", wanted.as_str(), got.as_str())?;
    }
    compare(alloc, &mut found, "out", case.out.as_slice(), out.taken())?;
    compare(alloc, &mut found, "err", case.err.as_slice(), err.taken())?;
    compare_files(alloc, &mut found, case, &files)?;
    Ok(found)
}

// Adds a difference.
fn note(
    alloc: Global,
    found: &mut Vec<Difference>,
    what: &str,
    wanted: &str,
    got: &str,
) -> Result<(), AllocError> {
    found.push(Difference {
        what: String::from_str(alloc, what)?,
        wanted: String::from_str(alloc, wanted)?,
        got: String::from_str(alloc, got)?,
    })?;
    Ok(())
}

// The names and bytes once more.
fn copy_of(
    alloc: Global,
    files: &[(String, Vec<u8>)],
) -> Result<Vec<(String, Vec<u8>)>, AllocError> {
    let mut copy = Vec::new(alloc);
    for (name, bytes) in files {
        let bytes = Vec::from_slice(alloc, bytes.as_slice())?;
        copy.push((String::from_str(alloc, name.as_str())?, bytes))?;
    }
    Ok(copy)
}

// Adds a difference where bytes aren't as wanted.
fn compare(
    alloc: Global,
    found: &mut Vec<Difference>,
    what: &str,
    wanted: &[u8],
    got: &[u8],
) -> Result<(), AllocError> {
    if wanted != got {
        let wanted = escaped(alloc, wanted)?;
        let got = escaped(alloc, got)?;
        note(alloc, found, what, wanted.as_str(), got.as_str())?;
    }
    Ok(())
}

// Compares the files that the case names: those listed as changed with their new bytes, the others with their old ones.
fn compare_files(
    alloc: Global,
    found: &mut Vec<Difference>,
    case: &Case,
    files: &MemFiles,
) -> Result<(), AllocError> {
    for (name, bytes) in &case.after {
        compare_file(alloc, found, name.as_str(), bytes.as_slice(), files)?;
    }
    for (name, bytes) in &case.files {
        if !case
            .after
            .iter()
            .any(|changed| changed.0.as_str() == name.as_str())
        {
            compare_file(alloc, found, name.as_str(), bytes.as_slice(), files)?;
        }
    }
    Ok(())
}

// Compares a file with the bytes that it should have.
fn compare_file(
    alloc: Global,
    found: &mut Vec<Difference>,
    name: &str,
    wanted: &[u8],
    files: &MemFiles,
) -> Result<(), AllocError> {
    match files.held(name) {
        Some(bytes) => compare(alloc, found, name, wanted, bytes.as_slice()),
        None => note(alloc, found, name, "such a file", "none"),
    }
}

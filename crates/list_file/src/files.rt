//! Reading the files of a call.

ghost use Rattle.std.specs.Prelude.{◌≡◌, ◌≤◌, ◌<◌, ◌+◌, [], ◌∷◌, IfOk, Result, length};
ghost use Rattle.list_file.specs.Files.{FilesAt, ReadInOrder, call_limit, room, total};
ghost use Rattle.list_file.specs.declared.files.ReadStop.TheVariants as stops;
ghost use Rattle.list_file.specs.Plans.{module_files};
ghost use Rattle.list_file.specs.Sources.{bytes_view, files_view, modules_view, outcome, outcome_of_one, paths_view};

use crate::bytes::{FileBytes, ModuleBytes};
use crate::list::ModulePath;
use std::alloc::{AllocFailed, Global};
use vba_base::{Files, ReadAnswer};

/// The bytes that one file may have.
const FILE_LIMIT: u64 = 67_108_864;

/// The bytes that the files of a call may have together.
const CALL_LIMIT: u64 = 1_073_741_824;

/// Why reading the files of a call stopped. Files have numbers in the order of reading.
#[derive(Clone, Copy, Debug, PartialEq, Eq)]
pub enum ReadStop {
    /// The file with this number can't be read.
    Failed(u32),
    /// The file with this number has more bytes than it may.
    TooLong(u32),
    /// Memory ran out.
    NoMemory,
}

/// The bytes that a file may have where those before it have so many together.
fn room(taken: u64) -> u64
    ensures { result ≡ room taken }
{
    FILE_LIMIT.min(CALL_LIMIT.saturating_sub(taken))
}

/// Reads the file with this name and number, where those before it have so many bytes together.
pub fn read_file<F: Files>(
    alloc: Global,
    files: &mut F,
    name: &str,
    number: u32,
    taken: u64,
) -> Result<FileBytes, ReadStop>
    ensures read { let old : FilesAt = record { told = F.told files.old; counts = F.counts files.old } in
        let new : FilesAt = record { told = F.told files.new; counts = F.counts files.new } in
        ReadInOrder (name.now ∷ []) number taken (outcome_of_one result) old new }
    ensures within { IfOk result (λ file. length file.bytes.items ≤ room taken) }
{
    let mut bytes = Vec::new(alloc);
    match files.read(alloc, name, room(taken), &mut bytes) {
        Ok(()) => Ok(FileBytes { bytes }),
        Err(ReadAnswer::Failed) => Err(ReadStop::Failed(number)),
        Err(ReadAnswer::TooLong) => Err(ReadStop::TooLong(number)),
        Err(ReadAnswer::NoMemory) => Err(ReadStop::NoMemory),
    }
}

/// Reads the files of modules in order, numbered from 1, where the files before them have so many bytes together.
pub fn read_modules<F: Files>(
    alloc: Global,
    files: &mut F,
    modules: &[ModulePath],
    taken: u64,
) -> Result<Vec<ModuleBytes>, ReadStop>
    requires count { length modules.now ≤ 67108865 }
    requires within { taken ≤ call_limit }
    ensures count { IfOk result (λ files. length files.items ≡ length modules.now) }
    ensures listed { IfOk result (λ files. files_view files.items ≡ module_files (modules_view modules.now) (bytes_view files.items)) }
    ensures within { IfOk result (λ files. taken + total (bytes_view files.items) ≤ call_limit) }
    ensures read { let old : FilesAt = record { told = F.told files.old; counts = F.counts files.old } in
        let new : FilesAt = record { told = F.told files.new; counts = F.counts files.new } in
        ReadInOrder (paths_view modules.now) 1 taken (outcome result) old new }
{
    let mut read = Vec::new(alloc);
    let mut left = modules;
    let mut number = 1;
    let mut taken = taken;
    while let Some((module, rest)) = left.split_first() {
        let file = read_file(alloc, files, module.path.as_str(), number, taken)?;
        number += 1;
        taken += file.bytes.len() as u64;
        read.push(file.of_module(module.is_class))?;
        left = rest;
    }
    Ok(read)
}

/// How many bytes the files have together.
pub fn size_of(files: &[ModuleBytes]) -> u64
    requires { total (bytes_view files.now) ≤ call_limit }
    ensures { result ≡ total (bytes_view files.now) }
{
    let mut size = 0;
    for file in files {
        size += file.bytes.len() as u64;
    }
    size
}

impl<T: Drop> From<AllocFailed<T>> for ReadStop {
    ghost from_gives = { λ _ e. e ≡ stops.NoMemory };

    fn from(_error: AllocFailed<T>) -> ReadStop {
        ReadStop::NoMemory
    }
}

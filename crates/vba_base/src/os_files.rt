ghost use Rattle.std.specs.Prelude.{◌≡◌, ◌≤◌, ◌<◌, [], ◌++◌, length, None, Some, IfSome, OnOk};
ghost use Rattle.std.specs.Io.KnownBytes.{Appends};
ghost use Rattle.vba_base.specs.Causes.{IsPrefix};
ghost use Rattle.vba_base.specs.Memory.{no_counts};
ghost use Rattle.vba_base.specs.Outside.{ReadsOf};

use crate::outside::{Files, ReadAnswer, WriteAnswer};
use crate::tally::Tally;
use std::alloc::Global;
use std::fs;
use std::io::{Read, Write};
use std::marker::Model;
use std::rt::Files as System;

/// The files of the system. They tell no bytes.
#[derive(Drop)]
pub struct OsFiles<R> {
    system: R,
    tally: Tally,
}

/// They are seen as their counts.
impl<R> Model for OsFiles<R> {
    ghost use Rattle.vba_base.specs.Outside.{Counts};

    ghost Value = { Counts };

    ghost view = { λ f. f.tally };
}

impl<R> OsFiles<R> {
    /// The files that this runtime reaches, as `OsFiles::new(rt)` in `main`.
    pub fn new(system: R) -> OsFiles<R>
        ensures { result ≡ no_counts }
    {
        OsFiles {
            system,
            tally: Tally::new(),
        }
    }
}

impl<R: System> Files for OsFiles<R> {
    ghost told = { λ _. None };

    ghost counts = { λ f. f };

    /// Every error of the system is `Failed`, and an allocation that is refused is `NoMemory`.
    fn read(
        &mut self,
        _alloc: Global,
        name: &str,
        limit: u64,
        into: &mut Vec<u8>,
    ) -> Result<(), ReadAnswer> {
        let answer = read_named(&self.system, name, limit, into);
        self.tally.count_read(answer);
        answer
    }

    /// Every error of the system is `Failed`, and so is a write that takes nothing of what is left.
    fn write(&mut self, name: &str, bytes: &[u8]) -> Result<(), WriteAnswer> {
        let answer = write_named(&self.system, name, bytes);
        self.tally.count_write(answer);
        answer
    }
}

fn read_named<R: System>(
    system: &R,
    name: &str,
    limit: u64,
    into: &mut Vec<u8>,
) -> Result<(), ReadAnswer>
    requires { into.old.items ≡ [] }
    ensures { length into.new.items ≤ limit }
{
    match fs::open(system, name) {
        Ok(mut file) => read_up_to(&mut file, limit, into),
        Err(_) => Err(ReadAnswer::Failed),
    }
}

/// Reads to the end, or to the first byte past the limit.
fn read_up_to<F: Read>(file: &mut F, limit: u64, into: &mut Vec<u8>) -> Result<(), ReadAnswer>
    requires { into.old.items ≡ [] }
    ensures within { length into.new.items ≤ limit }
    ensures reads { IfSome (F.remaining file.old) (λ bytes. ReadsOf (Some bytes) limit into.new.items result) }
{
    let mut buffer = [0u8; 8192];
    for _ in 0..u64::MAX {
        let Ok(count) = file.read(&mut buffer) else {
            return Err(ReadAnswer::Failed);
        };
        if count == 0 {
            return Ok(());
        }
        add_up_to(&buffer[..count], limit, into)?;
    }
    Err(ReadAnswer::Failed)
}

/// Adds a piece at the end, or as much of it as the limit leaves room for.
fn add_up_to(piece: &[u8], limit: u64, into: &mut Vec<u8>) -> Result<(), ReadAnswer>
    requires { length into.old.items ≤ limit }
    ensures ok { OnOk result (into.new.items ≡ into.old.items ++ piece.now) }
    ensures long { result ≡ Err ReadAnswer.TooLong → limit < length (into.old.items ++ piece.now) }
    ensures prefix { IsPrefix into.new.items (into.old.items ++ piece.now) }
    ensures within { length into.new.items ≤ limit }
{
    let room = limit - into.len() as u64;
    if piece.len() as u64 > room {
        into.extend_from_slice(&piece[..room as usize])?;
        return Err(ReadAnswer::TooLong);
    }
    into.extend_from_slice(piece)?;
    Ok(())
}

fn write_named<R: System>(system: &R, name: &str, bytes: &[u8]) -> Result<(), WriteAnswer> {
    match fs::create(system, name) {
        Ok(mut file) => write_whole(&mut file, bytes),
        Err(_) => Err(WriteAnswer::Failed),
    }
}

/// Writes all the bytes and hands them on.
pub(crate) fn write_whole<W: Write>(writer: &mut W, bytes: &[u8]) -> Result<(), WriteAnswer>
    ensures { OnOk result (Appends (W.contents writer.old) (W.contents writer.new) bytes.now) }
{
    let mut rest = bytes;
    while !rest.is_empty() {
        match writer.write(rest) {
            Ok(0) | Err(_) => return Err(WriteAnswer::Failed),
            Ok(count) => rest = &rest[count..],
        }
    }
    match writer.flush() {
        Ok(()) => Ok(()),
        Err(_) => Err(WriteAnswer::Failed),
    }
}

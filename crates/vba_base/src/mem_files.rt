ghost use Rattle.std.specs.Prelude.{◌≡◌, [], ◌∷◌, ◌++◌, map, position, bytes_eq, string_bytes, IsTrue, Some, option_map, OnOk, OnErr};
ghost use Rattle.std.specs.FinMap.{from_entries};
ghost use Rattle.vba_base.specs.Map.{bytes_of, with_bytes};
ghost use Rattle.vba_base.specs.Memory.{entries_of, names_of, are_different, files_in_memory, next_fails, next_read, read_of, Reads, noted_after_read, after_read, FailsWhere, noted_after_write, after_write};

use crate::outside::{Files, ReadAnswer, WriteAnswer};
use crate::tally::Tally;
use std::alloc::{AllocError, Global};
use std::marker::Model;

/// Files in memory, whose listed calls fail.
#[derive(Drop)]
pub struct MemFiles {
    alloc: Global,
    entries: Vec<(String, Vec<u8>)>,
    read_names: Vec<String>,
    written_names: Vec<String>,
    tally: Tally,
    listed: Vec<u64>,
}

impl Model for MemFiles {
    ghost use Rattle.std.specs.Prelude.{map, string_bytes};
    ghost use Rattle.std.specs.FinMap.{from_entries};
    ghost use Rattle.vba_base.specs.Memory.{MemoryFiles, files_code, entries_of};

    ghost Value = { MemoryFiles };

    ghost coded = { files_code };

    ghost view = { λ f. record {
      told = record {
        files = from_entries (entries_of f.entries.items);
        names_read = map string_bytes f.read_names.items;
        names_written = map string_bytes f.written_names.items;
      };
      counts = f.tally;
      fails = f.listed.items;
    } };
}

impl MemFiles {
    /// Files of these names and bytes. The reads and writes whose numbers `fails` lists fail; both kinds are counted
    /// together, from 1. It takes no memory.
    pub fn new(alloc: Global, files: Vec<(String, Vec<u8>)>, fails: Vec<u64>) -> MemFiles
        requires { IsTrue (are_different (names_of files.items)) }
        ensures { result ≡ files_in_memory (entries_of files.items) fails.items }
    {
        MemFiles {
            alloc,
            entries: files,
            read_names: Vec::new(alloc),
            written_names: Vec::new(alloc),
            tally: Tally::new(),
            listed: fails,
        }
    }

    /// Whether the names are all different, as `new` needs them.
    pub fn are_different(files: &[(String, Vec<u8>)]) -> bool
        ensures { result ≡ are_different (names_of files.now) }
    {
        let mut rest = files;
        while let Some((first, others)) = rest.split_first() {
            if place_of(others, first.0.as_str()).is_some() {
                return false;
            }
            rest = others;
        }
        true
    }

    /// The bytes that a name holds.
    pub fn held(&self, name: &str) -> Option<&Vec<u8>>
        ensures { option_map (λ bytes. bytes.now.items) result
            ≡ bytes_of self.now.told.files name.now }
    {
        held_in(&self.entries, name)
    }

    /// Whether the next call fails.
    fn next_fails(&self) -> bool
        ensures { result ≡ next_fails self.now }
    {
        self.listed.contains(&self.tally.call_number())
    }

    /// A read that isn't counted yet.
    fn read_uncounted(
        &mut self,
        alloc: Global,
        name: &str,
        limit: u64,
        into: &mut Vec<u8>,
    ) -> Result<(), ReadAnswer>
        requires { into.old.items ≡ [] }
        ensures exact { Reads result into.new.items (next_read self.old name.now limit) }
        ensures after { self.new ≡ noted_after_read self.old name.now result }
        ensures err { OnErr result (into.new.items ≡ []) }
    {
        let fails = self.next_fails();
        note(alloc, &mut self.read_names, name)?;
        if fails {
            return Err(ReadAnswer::Failed);
        }
        let answer = copy_of(held_in(&self.entries, name), limit, into);
        if answer == Err(ReadAnswer::NoMemory) {
            self.read_names.pop();
        }
        answer
    }

    /// A write that isn't counted yet.
    fn write_uncounted(&mut self, name: &str, bytes: &[u8]) -> Result<(), WriteAnswer>
        ensures exact { FailsWhere (next_fails self.old) result }
        ensures after { self.new ≡ noted_after_write self.old name.now bytes.now result }
    {
        let fails = self.next_fails();
        note(self.alloc, &mut self.written_names, name)?;
        if fails {
            return Err(WriteAnswer::Failed);
        }
        let held = hold(self.alloc, &mut self.entries, name, bytes);
        if held.is_err() {
            self.written_names.pop();
        }
        Ok(held?)
    }
}

impl Files for MemFiles {
    ghost told = { λ f. Some f.told };

    ghost counts = { λ f. f.counts };

    /// Fails exactly where the call is listed or the name isn't held, and is too long exactly where a call that isn't
    /// listed finds more bytes than the limit, unless there is no memory. After an error the list is empty.
    fn read(
        &mut self,
        alloc: Global,
        name: &str,
        limit: u64,
        into: &mut Vec<u8>,
    ) -> Result<(), ReadAnswer>
        requires { into.old.items ≡ [] }
        ensures exact { Reads result into.new.items (next_read self.old name.now limit) }
        ensures after { self.new ≡ after_read self.old name.now result }
        ensures err { OnErr result (into.new.items ≡ []) }
    {
        let answer = self.read_uncounted(alloc, name, limit, into);
        self.tally.count_read(answer);
        answer
    }

    /// Fails exactly where the call is listed, unless there is no memory. After an error the bytes of every name are
    /// as they were.
    fn write(&mut self, name: &str, bytes: &[u8]) -> Result<(), WriteAnswer>
        ensures exact { FailsWhere (next_fails self.old) result }
        ensures after { self.new ≡ after_write self.old name.now bytes.now result }
    {
        let answer = self.write_uncounted(name, bytes);
        self.tally.count_write(answer);
        answer
    }
}

/// The place of a name.
fn place_of(entries: &[(String, Vec<u8>)], name: &str) -> Option<usize>
    ensures { result ≡ position (λ e. bytes_eq name.now (string_bytes e.0)) entries.now }
{
    entries.iter().position(|entry| name == entry.0.as_str())
}

/// The bytes that a name holds.
fn held_in<'a>(entries: &'a [(String, Vec<u8>)], name: &str) -> Option<&'a Vec<u8>>
    ensures { option_map (λ bytes. bytes.now.items) result
        ≡ bytes_of (from_entries (entries_of entries.now)) name.now }
{
    let place = place_of(entries, name)?;
    Some(&entries[place].1)
}

/// Puts bytes at a name. Without memory the entries stay as they were.
fn hold(
    alloc: Global,
    entries: &mut Vec<(String, Vec<u8>)>,
    name: &str,
    bytes: &[u8],
) -> Result<(), AllocError>
    ensures ok { OnOk result (from_entries (entries_of entries.new.items)
        ≡ with_bytes (from_entries (entries_of entries.old.items)) name.now bytes.now) }
    ensures err { OnErr result (entries.new.items ≡ entries.old.items) }
{
    let bytes = Vec::from_slice(alloc, bytes)?;
    match place_of(entries.as_slice(), name) {
        Some(place) => entries[place].1 = bytes,
        None => entries.push((String::from_str(alloc, name)?, bytes))?,
    }
    Ok(())
}

/// Adds a name at the end.
fn note(alloc: Global, names: &mut Vec<String>, name: &str) -> Result<(), AllocError>
    ensures ok { OnOk result (map string_bytes names.new.items
        ≡ map string_bytes names.old.items ++ name.now ∷ []) }
    ensures err { OnErr result (names.new.items ≡ names.old.items) }
{
    names.push(String::from_str(alloc, name)?)?;
    Ok(())
}

/// Copies what a name holds, of at most `limit` bytes, into an empty list.
fn copy_of(held: Option<&Vec<u8>>, limit: u64, into: &mut Vec<u8>) -> Result<(), ReadAnswer>
    requires { into.old.items ≡ [] }
    ensures answer { Reads result into.new.items
        (read_of (option_map (λ bytes. bytes.now.items) held.entry) limit) }
    ensures err { OnErr result (into.new.items ≡ []) }
{
    match held {
        None => Err(ReadAnswer::Failed),
        Some(bytes) if bytes.len() as u64 > limit => Err(ReadAnswer::TooLong),
        Some(bytes) => {
            into.extend_from_slice(bytes.as_slice())?;
            Ok(())
        }
    }
}

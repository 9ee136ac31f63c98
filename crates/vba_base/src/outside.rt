ghost use Rattle.std.specs.Prelude.{◌≡◌, ℕ, ◌≤◌, List, [], length, Option};
ghost use Rattle.vba_base.specs.Causes.{RoseOnly};
ghost use Rattle.vba_base.specs.declared.outside.ReadAnswer.TheVariants as reads;
ghost use Rattle.vba_base.specs.declared.outside.WriteAnswer.TheVariants as writes;
ghost use Rattle.vba_base.specs.Outside.{Told, Counts, CountsRead, CountsWrite, TellsRead, TellsWrite, Takes, write_failed};

use std::alloc::{AllocError, AllocFailed, Global};

/// Why a read gave no whole file.
#[derive(Clone, Copy, Debug, PartialEq, Eq)]
pub enum ReadAnswer {
    /// The name can't be read.
    Failed,
    /// The file has more bytes than the limit of the call.
    TooLong,
    NoMemory,
}

/// Why a write or a put took less than all.
#[derive(Clone, Copy, Debug, PartialEq, Eq)]
pub enum WriteAnswer {
    Failed,
    NoMemory,
}

impl From<AllocError> for ReadAnswer {
    ghost from_gives = { λ _ e. e ≡ reads.NoMemory };

    fn from(_error: AllocError) -> ReadAnswer {
        ReadAnswer::NoMemory
    }
}

impl<T: Drop> From<AllocFailed<T>> for ReadAnswer {
    ghost from_gives = { λ _ e. e ≡ reads.NoMemory };

    fn from(_error: AllocFailed<T>) -> ReadAnswer {
        ReadAnswer::NoMemory
    }
}

impl From<AllocError> for WriteAnswer {
    ghost from_gives = { λ _ e. e ≡ writes.NoMemory };

    fn from(_error: AllocError) -> WriteAnswer {
        WriteAnswer::NoMemory
    }
}

impl<T: Drop> From<AllocFailed<T>> for WriteAnswer {
    ghost from_gives = { λ _ e. e ≡ writes.NoMemory };

    fn from(_error: AllocFailed<T>) -> WriteAnswer {
        WriteAnswer::NoMemory
    }
}

/// The files of the outside.
pub trait Files {
    /// The map of names to bytes with the names read and written, where these files tell them.
    ghost told: { Self → Option Told };

    /// How often they were read and written, and how often that failed.
    ghost counts: { Self → Counts };

    /// Reads the whole file, of at most `limit` bytes, into an empty list. After an error the list holds a prefix
    /// of the file. `Failed` comes only with a rise of the count of failed reads, `TooLong` only with a rise of
    /// the count of long reads.
    fn read(
        &mut self,
        alloc: Global,
        name: &str,
        limit: u64,
        into: &mut Vec<u8>,
    ) -> Result<(), ReadAnswer>
        requires { into.old.items ≡ [] }
        ensures counts { CountsRead (counts self.old) (counts self.new) result }
        ensures told { TellsRead (told self.old) (told self.new) name.now limit into.new.items result }
        ensures within { length into.new.items ≤ limit };

    /// Replaces the bytes of a name. After an error the bytes of that name are open, and no other name's changed.
    /// `Failed` comes only with a rise of the count of failed writes.
    fn write(&mut self, name: &str, bytes: &[u8]) -> Result<(), WriteAnswer>
        ensures counts { CountsWrite (counts self.old) (counts self.new) result }
        ensures told { TellsWrite (told self.old) (told self.new) name.now bytes.now result };
}

/// What takes the bytes of an output.
pub trait Sink {
    /// The bytes taken so far, where the sink tells them.
    ghost taken: { Self → Option (List ℕ) };

    /// How many puts failed.
    ghost faults: { Self → ℕ };

    /// What the sink says for itself of an earlier and a later value.
    ghost goes_on: { Self → Self → Type 0 };

    /// Takes the whole piece. After an error a prefix of it was taken. `Failed` comes only with a rise of the count
    /// of faults, which no other answer changes.
    fn put(&mut self, bytes: &[u8]) -> Result<(), WriteAnswer>
        ensures taken { Takes (taken self.old) (taken self.new) bytes.now result }
        ensures faults { RoseOnly (write_failed result) (faults self.old) (faults self.new) }
        ensures goes_on { goes_on self.old self.new };

    /// Each value goes on with itself.
    ghost stays: { (s : Self) → goes_on s s };

    /// Where it goes on from a first value to a second and from that to a third, it does from the first to the third.
    ghost joins: { (a b c : Self) → goes_on a b → goes_on b c → goes_on a c };
}

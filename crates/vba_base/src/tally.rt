ghost use Rattle.std.specs.Prelude.{◌≡◌};
ghost use Rattle.vba_base.specs.Memory.{no_counts, counted_read, counted_write, call_number};

use crate::outside::{ReadAnswer, WriteAnswer};
use std::marker::Model;

/// The five counts of files. Each stays at the greatest u64.
#[derive(Drop)]
pub(crate) struct Tally {
    read_calls: u64,
    write_calls: u64,
    failed_reads: u64,
    failed_writes: u64,
    too_long_reads: u64,
}

impl Model for Tally {
    ghost use Rattle.vba_base.specs.Outside.{Counts};

    ghost Value = { Counts };

    ghost view = { λ t. record {
      reads = t.read_calls;
      writes = t.write_calls;
      read_faults = t.failed_reads;
      write_faults = t.failed_writes;
      long_reads = t.too_long_reads;
    } };
}

impl Tally {
    pub(crate) fn new() -> Tally
        ensures { result ≡ no_counts }
    {
        Tally {
            read_calls: 0,
            write_calls: 0,
            failed_reads: 0,
            failed_writes: 0,
            too_long_reads: 0,
        }
    }

    /// The number of the next call, reads and writes counted together from 1.
    pub(crate) fn call_number(&self) -> u64
        ensures { result ≡ call_number self.now }
    {
        self.read_calls
            .saturating_add(self.write_calls)
            .saturating_add(1)
    }

    pub(crate) fn count_read(&mut self, answer: Result<(), ReadAnswer>)
        ensures { self.new ≡ counted_read self.old answer }
    {
        self.read_calls = self.read_calls.saturating_add(1);
        match answer {
            Err(ReadAnswer::Failed) => self.failed_reads = self.failed_reads.saturating_add(1),
            Err(ReadAnswer::TooLong) => {
                self.too_long_reads = self.too_long_reads.saturating_add(1)
            }
            Ok(()) | Err(ReadAnswer::NoMemory) => {}
        }
    }

    pub(crate) fn count_write(&mut self, answer: Result<(), WriteAnswer>)
        ensures { self.new ≡ counted_write self.old answer }
    {
        self.write_calls = self.write_calls.saturating_add(1);
        if answer == Err(WriteAnswer::Failed) {
            self.failed_writes = self.failed_writes.saturating_add(1);
        }
    }
}

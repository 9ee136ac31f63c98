ghost use Rattle.std.specs.Prelude.{◌≡◌, [], Some, is_some};
ghost use Rattle.vba_base.specs.Memory.{FailsWhere, after_put, next_most};

use crate::outside::{Sink, WriteAnswer};
use std::alloc::Global;
use std::marker::Model;

/// A sink in memory, whose listed puts fail.
#[derive(Drop)]
pub struct MemSink {
    bytes: Vec<u8>,
    put_count: u64,
    fault_count: u64,
    listed: Vec<(u64, usize)>,
}

impl Model for MemSink {
    ghost use Rattle.vba_base.specs.Memory.{MemorySink};

    ghost Value = { MemorySink };

    ghost view = { λ s. record {
      taken = s.bytes.items;
      puts = s.put_count;
      faults = s.fault_count;
      fails = s.listed.items;
    } };
}

impl MemSink {
    /// An empty sink. Each pair of `fails` has the number of a put, counted from 1, that fails, and how many bytes it
    /// takes at most before. It takes no memory.
    pub fn new(alloc: Global, fails: Vec<(u64, usize)>) -> MemSink
        ensures { result ≡ record { taken = []; puts = 0; faults = 0; fails = fails.items } }
    {
        MemSink {
            bytes: Vec::new(alloc),
            put_count: 0,
            fault_count: 0,
            listed: fails,
        }
    }

    /// The bytes taken so far.
    pub fn taken(&self) -> &[u8]
        ensures { result.now ≡ self.now.taken }
    {
        self.bytes.as_slice()
    }

    /// The most bytes that the next put takes, where it fails.
    fn next_most(&self) -> Option<usize>
        ensures { result ≡ next_most self.now }
    {
        let number = self.put_count.saturating_add(1);
        self.listed
            .iter()
            .find(|fails| fails.0 == number)
            .map(|fails| fails.1)
    }
}

impl Sink for MemSink {
    ghost taken = { λ s. Some s.taken };

    ghost faults = { λ s. s.faults };

    ghost goes_on = { λ _ _. Unit {0} };

    ghost stays = { λ _. tt };

    ghost joins = { λ _ _ _ _ _. tt };

    /// Fails exactly where the put is listed, unless there is no memory.
    fn put(&mut self, bytes: &[u8]) -> Result<(), WriteAnswer>
        ensures exact { FailsWhere (is_some (next_most self.old)) result }
        ensures after { self.new ≡ after_put self.old bytes.now result }
    {
        let most = self.next_most();
        self.put_count = self.put_count.saturating_add(1);
        match most {
            None => {
                self.bytes.extend_from_slice(bytes)?;
                Ok(())
            }
            Some(most) => {
                self.bytes
                    .extend_from_slice(&bytes[..most.min(bytes.len())])?;
                self.fault_count = self.fault_count.saturating_add(1);
                Err(WriteAnswer::Failed)
            }
        }
    }
}

ghost use Rattle.std.specs.Prelude.{◌≡◌, [], Some};

use crate::mem_sink::MemSink;
use crate::outside::{Sink, WriteAnswer};
use std::alloc::Global;
use std::marker::Model;

/// A sink in memory that never fails. It may lack memory.
#[derive(Drop)]
pub struct NeverFails {
    sink: MemSink,
}

/// It is seen as the bytes taken.
impl Model for NeverFails {
    ghost use Rattle.std.specs.Prelude.{◌≡◌, ℕ, List, []};

    ghost Value = { List ℕ };

    ghost view = { λ s. s.sink.taken };

    ghost invariant = { λ s. s.sink.fails ≡ [] };
}

impl NeverFails {
    /// An empty sink. It takes no memory.
    pub fn new(alloc: Global) -> NeverFails
        ensures { result ≡ [] }
    {
        NeverFails {
            sink: MemSink::new(alloc, Vec::new(alloc)),
        }
    }

    /// The bytes taken so far.
    pub fn taken(&self) -> &[u8]
        ensures { result.now ≡ self.now }
    {
        self.sink.taken()
    }
}

impl Sink for NeverFails {
    ghost taken = { λ s. Some s };

    ghost faults = { λ _. 0 };

    ghost goes_on = { λ _ _. Unit {0} };

    ghost stays = { λ _. tt };

    ghost joins = { λ _ _ _ _ _. tt };

    fn put(&mut self, bytes: &[u8]) -> Result<(), WriteAnswer> {
        self.sink.put(bytes)
    }
}

ghost use Rattle.std.specs.Prelude.{◌≡◌, None, OnOk};
ghost use Rattle.std.specs.Io.KnownBytes.{Appends};
ghost use Rattle.vba_base.specs.Outside.{write_failed};
ghost use Rattle.vba_base.specs.Memory.{up_if};

use crate::os_files::write_whole;
use crate::outside::{Sink, WriteAnswer};
use std::io::Write;
use std::marker::Model;

/// A writer of the system, as standard output or standard error, as a sink. As a sink it tells no bytes.
#[derive(Drop)]
pub struct OsSink<W: Write> {
    writer: W,
    fault_count: u64,
}

impl<W: Write> Model for OsSink<W> {
    ghost use Rattle.vba_base.specs.System.{SystemSink};

    ghost Value = { SystemSink };

    ghost view = { λ s. record { faults = s.fault_count; contents = W.contents s.writer } };
}

impl<W: Write> OsSink<W> {
    /// A sink that writes to this, as `OsSink::new(rt.stdout())` and `OsSink::new(rt.stderr())` in `main`.
    pub fn new(writer: W) -> OsSink<W>
        ensures { result ≡ record { faults = 0; contents = W.contents writer } }
    {
        OsSink {
            writer,
            fault_count: 0,
        }
    }
}

impl<W: Write> Sink for OsSink<W> {
    ghost taken = { λ _. None };

    ghost faults = { λ s. s.faults };

    ghost goes_on = { λ _ _. Unit {0} };

    ghost stays = { λ _. tt };

    ghost joins = { λ _ _ _ _ _. tt };

    /// Writes the whole piece and flushes. Every error of the system is `Failed`, and so is a write that takes nothing
    /// of what is left.
    fn put(&mut self, bytes: &[u8]) -> Result<(), WriteAnswer>
        ensures faults { self.new.faults ≡ up_if (write_failed result) self.old.faults }
        ensures bytes { OnOk result (Appends self.old.contents self.new.contents bytes.now) }
    {
        let answer = write_whole(&mut self.writer, bytes);
        if answer == Err(WriteAnswer::Failed) {
            self.fault_count = self.fault_count.saturating_add(1);
        }
        answer
    }
}

// The memory with which a run begins.
ghost use Rattle.std.specs.Prelude.{◌≡◌, IfOk};
ghost use Rattle.bound_project.specs.View.{declarations_view};
ghost use Rattle.vba_meaning.specs.Memory.{opening};
ghost use Rattle.run_memory.specs.View.{memory_view};

use crate::frame::Frame;
use crate::initial::shared_values;
use crate::memory::{Memory, RunError};
use bound_project::Declarations;
use sheet_host::Book;
use std::alloc::Global;
use vba_base::NoMemory;

impl Memory {
    /// The memory with which a run over a book begins.
    pub fn opening(alloc: Global, declared: &Declarations, book: Book) -> Result<Memory, NoMemory>
        ensures { IfOk result (λ memory. memory_view memory ≡ opening (declarations_view declared.now) book) }
    {
        let shared = shared_values(alloc, declared)?;
        let mut objects = Vec::new(alloc);
        objects.push(None)?;
        Ok(Memory {
            stands: false,
            top: Frame::new(alloc),
            callers: Vec::new(alloc),
            shared,
            objects,
            waiting: Vec::new(alloc),
            err: RunError::none(),
            column: 0,
            book,
            events_on: true,
            updates_screen: true,
            shows_alerts: true,
            next_set: 1,
            changed: None,
        })
    }
}

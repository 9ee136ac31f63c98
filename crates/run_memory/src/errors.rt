// Errors ([MS-VBAL] 5.4.4).
ghost use Rattle.std.specs.Prelude.{◌≡◌, IfOk, map};
ghost use Rattle.bound_project.specs.View.{declarations_view, member_view};
ghost use Rattle.vba_values.specs.View.{view};
ghost use Rattle.vba_meaning.specs.Memory.{error_here, no_error, top};
ghost use Rattle.vba_meaning.specs.Effects.{done, err_off, err_of, failed_statement, given_text, handler_off, policy_on, raised_by, resumed, slot_value, taken_by, with_taken};
ghost use Rattle.run_memory.specs.Acts.{Acts};
ghost use Rattle.run_memory.specs.View.{error_view, memory_view, slot_view};

use crate::frame::Slot;
use crate::memory::{Memory, RunError};
use error_frames::{At, FrameErrors, Policy, ResumeKind, Taken};
use std::alloc::Global;
use vba_base::{NoMemory, OrMemory, Units};
use vba_values::{Bad, Value};

impl RunError {
    /// No error.
    pub fn none() -> RunError
        ensures { error_view result ≡ no_error }
    {
        RunError {
            number: 0,
            source: None,
            description: None,
            procedure: 0,
            statement: None,
        }
    }
}

impl Memory {
    /// An error with this number at the running statement.
    pub fn error_here(&self, number: u16) -> RunError
        ensures { error_view result ≡ error_here number (memory_view self.now) }
    {
        RunError {
            number: i32::from(number),
            source: None,
            description: None,
            procedure: if self.stands { self.top.procedure } else { 0 },
            statement: if self.stands {
                self.top.statement
            } else {
                None
            },
        }
    }

    /// Err.Clear.
    pub fn err_off(&mut self)
        ensures { err_off (memory_view self.old) ≡ done (memory_view self.new) }
    {
        self.err = RunError::none();
    }

    /// On Error: sets the policy, and clears Err.
    pub fn policy_on(&mut self, alloc: Global, policy: Policy)
        ensures { policy_on policy (memory_view self.old) ≡ done (memory_view self.new) }
    {
        self.stand(alloc);
        self.top.errors.set(policy);
        self.err = RunError::none();
    }

    /// On Error GoTo -1: ends the active handler, and clears Err.
    pub fn handler_off(&mut self, alloc: Global)
        ensures { handler_off (memory_view self.old) ≡ done (memory_view self.new) }
    {
        self.stand(alloc);
        self.top.errors.end_handler();
        self.err = RunError::none();
    }

    /// How the running frame takes errors.
    fn errors(&self) -> FrameErrors
        ensures { result ≡ (top (memory_view self.now)).errors }
    {
        if self.stands {
            self.top.errors
        } else {
            FrameErrors::new()
        }
    }

    /// The statement whose error the active handler took.
    pub fn failed_statement(&self) -> u64
        ensures { result ≡ failed_statement (memory_view self.now) }
    {
        match self.errors().failed {
            Some(At(statement)) => statement,
            None => 0,
        }
    }

    /// Any Resume, with the statement that is next after the failed one: where the run goes on. Without an active
    /// handler it raises 20.
    pub fn resumed(
        &mut self,
        alloc: Global,
        kind: ResumeKind,
        next: u64,
    ) -> Result<u64, OrMemory<Bad>>
        ensures { Acts (λ statement. statement) result (memory_view self.new) (resumed kind next (memory_view self.old)) }
    {
        let errors = self.errors();
        if errors.active.is_none() {
            return Err(OrMemory::Fault(Bad::Raise(20)));
        }
        self.stand(alloc);
        self.top.errors.end_handler();
        self.err = RunError::none();
        let failed = match errors.failed {
            Some(failed) => failed,
            None => At(next),
        };
        let At(statement) = match kind {
            ResumeKind::Again => failed,
            ResumeKind::Next => At(next),
            ResumeKind::Label(label) => label,
        };
        Ok(statement)
    }

    /// Whether the running frame takes an error, with the statement that is next after the running one.
    pub fn taken_by(&self, next: u64) -> Taken
        ensures { result ≡ taken_by next (memory_view self.now) }
    {
        let mut errors = self.errors();
        errors.take(At(0), At(next))
    }

    /// An error is taken: Err has it then.
    pub fn with_taken(&mut self, alloc: Global, error: RunError, taken: Taken)
        ensures { memory_view self.new ≡ with_taken (error_view error) taken (memory_view self.old) }
    {
        self.stand(alloc);
        if let Taken::Handler(label) = taken {
            let failed = match self.top.statement {
                Some(statement) => u64::from(statement),
                None => 0,
            };
            self.top.errors.active = Some(label);
            self.top.errors.failed = Some(At(failed));
        }
        self.err = error;
    }
}

ghost use Rattle.std.specs.Prelude.{◌≡◌};
ghost use Rattle.error_frames.specs.Decision.{decision, entered, after_take};
ghost use Rattle.error_frames.specs.Resume.{IsKept, answer, ended, after_resume};

use vba_values::Bad;

/// A statement of a frame, by the number that the machine gives it.
#[derive(Clone, Copy, Debug, PartialEq, Eq)]
pub struct At(pub u64);

/// What a frame does with an error: nothing, go to a label, or go on with the next statement.
#[derive(Clone, Copy, Debug, PartialEq, Eq)]
pub enum Policy {
    Default,
    Handler(At),
    ResumeNext,
}

/// Who takes an error: the frame goes on at the next statement or at a label, or the error passes on to the caller.
#[derive(Clone, Copy, Debug, PartialEq, Eq)]
pub enum Taken {
    Next(At),
    Handler(At),
    PassOn,
}

/// The forms of Resume: `Resume` and `Resume 0`, `Resume Next`, and `Resume` with a label.
#[derive(Clone, Copy, Debug, PartialEq, Eq)]
pub enum ResumeKind {
    Again,
    Next,
    Label(At),
}

/// How a frame takes errors: its policy, the label of the handler that is active, and the statement whose error that
/// handler took.
#[derive(Clone, Copy, Debug, PartialEq, Eq)]
pub struct FrameErrors {
    pub policy: Policy,
    pub active: Option<At>,
    pub failed: Option<At>,
}

impl FrameErrors {
    /// A frame that was just entered: it passes on every error.
    pub fn new() -> FrameErrors
        ensures { result ≡ entered }
    {
        FrameErrors {
            policy: Policy::Default,
            active: None,
            failed: None,
        }
    }

    /// On Error: sets the policy alone. A handler that is active stays so.
    pub fn set(&mut self, policy: Policy)
        ensures { self.new ≡ record self.old { policy = policy } }
    {
        self.policy = policy;
    }

    /// On Error GoTo -1: ends the active handler, where there is one.
    pub fn end_handler(&mut self)
        ensures { self.new ≡ ended self.old }
    {
        self.active = None;
        self.failed = None;
    }

    /// Takes an error of the statement `failed`, with `next` the statement after it. A handler that takes it is active
    /// then, and `failed` is kept; nothing else is changed.
    pub fn take(&mut self, failed: At, next: At) -> Taken
        ensures answer { result ≡ decision self.old.policy self.old.active next }
        ensures frame { self.new ≡ after_take self.old failed result }
    {
        if self.active.is_some() {
            return Taken::PassOn;
        }
        match self.policy {
            Policy::Default => Taken::PassOn,
            Policy::ResumeNext => Taken::Next(next),
            Policy::Handler(label) => {
                self.active = Some(label);
                self.failed = Some(failed);
                Taken::Handler(label)
            }
        }
    }

    /// Resume: ends the active handler and gives the statement where the run goes on, with `next` the statement after
    /// the kept one. Without an active handler it raises Resume without error, and changes nothing.
    pub fn resume(&mut self, kind: ResumeKind, next: At) -> Result<At, Bad>
        requires { IsKept self.old }
        ensures answer { result ≡ answer self.old.active self.old.failed kind next }
        ensures frame { self.new ≡ after_resume self.old }
    {
        let Some(_) = self.active else {
            return Err(Bad::Raise(20));
        };
        let Some(failed) = self.failed else {
            unreachable!();
        };
        self.end_handler();
        Ok(match kind {
            ResumeKind::Again => failed,
            ResumeKind::Next => next,
            ResumeKind::Label(label) => label,
        })
    }
}

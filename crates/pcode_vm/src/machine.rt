ghost use Rattle.std.specs.Prelude.{◌≡◌, [], ℕ, OnOk, IfOk, ◌+◌, ◌<◌, ◌^◌};
ghost use Rattle.vba_meaning.specs.Memory.{error_here};
ghost use Rattle.run_memory.specs.View.{error_view, memory_view};
ghost use Rattle.pcode.specs.Machine.{Fin, tells, raised, lets, lets_all, finishes, then_jump, letting, Goes, Back-to};
ghost use Rattle.pcode_vm.specs.View.{operands_view, backs_view, state_view, after_view, end_view, why_view};
ghost use Rattle.pcode_vm.specs.Does.{Does, Comes, stopped_at};

use crate::backs::{After, Back, Backs, Mode};
use crate::operands::Operands;
use crate::step::{Step, StepEnd, Why};
use run_host::{Event, Told};
use run_memory::{Memory, RunError};
use std::alloc::Global;
use std::mem;
use vba_base::NoMemory;

/// The machine.
pub struct Machine {
    pub mode: Mode,
    pub operands: Operands,
    pub backs: Backs,
    pub memory: Memory,
    pub begun: u64,
    pub told: Told,
}

impl Drop for Machine {
    fn drop(self) {
        let Machine {
            mode: _mode,
            operands: _operands,
            backs: _backs,
            memory: _memory,
            begun: _begun,
            told: _told,
        } = self;
    }
}

impl Machine {
    // An error is raised.
    #[cold]
    pub fn raise(&mut self, alloc: Global, turns: u64, error: RunError) -> Result<Step, NoMemory>
        ensures { IfOk result (λ step. Does turns (raised (error_view error) (backs_view self.old.backs) (state_view self.old)) self.old self.new step) }
    {
        if self.begun >= turns {
            return Ok(Step::Ended(StepEnd::Going));
        }
        self.begun += 1;
        self.told.push(Event::Raised {
            number: error.number,
        })?;
        self.operands.clear();
        let error = Box::new(alloc, error)?;
        self.turn(Mode::Failing(error));
        Ok(Step::On)
    }

    // The machine turns to something else.
    #[inline(always)]
    pub fn turn(&mut self, mode: Mode)
        ensures { self.new ≡ record self.old { mode = mode } }
    {
        self.mode = mode;
    }

    // The statement goes on at an address.
    #[inline(always)]
    pub fn go_on(&mut self, pc: usize)
        ensures { self.new ≡ record self.old { mode = Mode.At pc } }
    {
        if let Mode::At { pc: here } = &mut self.mode {
            *here = pc;
        } else {
            self.turn(Mode::At { pc });
        }
    }

    // An error with a number is raised at the statement that runs.
    #[cold]
    pub fn raise_number(&mut self, alloc: Global, turns: u64, number: u16) -> Result<Step, NoMemory>
        ensures { IfOk result (λ step. Does turns (raised (error_here number (memory_view self.old.memory)) (backs_view self.old.backs) (state_view self.old)) self.old self.new step) }
    {
        let error = self.memory.error_here(number);
        self.raise(alloc, turns, error)
    }

    // The run stops at the statement that runs.
    #[cold]
    pub fn stopped(&self, why: Why) -> StepEnd
        ensures { end_view result ≡ stopped_at (why_view why) (memory_view self.now.memory) }
    {
        let here = self.memory.error_here(0);
        StepEnd::Stopped {
            why,
            procedure: here.procedure,
            statement: here.statement,
        }
    }

    // The statement ends where a test holds, or goes on at the next address.
    pub fn jump_if(
        &mut self,
        alloc: Global,
        holds: bool,
        to: usize,
        pc: usize,
    ) -> Result<(), NoMemory>
        ensures { OnOk result (Comes self.old (then_jump to pc (operands_view self.old.operands) (backs_view self.old.backs) holds (state_view self.old)) self.new) }
    {
        if holds {
            return self.finish(alloc, to);
        }
        self.go_on(pc);
        Ok(())
    }

    // What the statement holds is let go.
    pub fn lets(&mut self, alloc: Global, after: After) -> Result<(), NoMemory>
        ensures { OnOk result (Comes self.old (lets (after_view after) (backs_view self.old.backs) (state_view self.old)) self.new) }
    {
        let count = self.memory.let_held(alloc)?;
        self.operands.clear();
        self.turn(Mode::Letting { count, after });
        Ok(())
    }

    // All that the frame holds is let go.
    pub fn let_all(&mut self, alloc: Global, after: After) -> Result<(), NoMemory>
        ensures { OnOk result (Comes self.old (lets_all (after_view after) (backs_view self.old.backs) (state_view self.old)) self.new) }
    {
        let count = self.memory.let_frame(alloc)?;
        self.operands.clear();
        self.turn(Mode::Letting { count, after });
        Ok(())
    }

    // A statement ends, and the next one begins at an address.
    pub fn finish(&mut self, alloc: Global, to: usize) -> Result<(), NoMemory>
        ensures { OnOk result (Comes self.old (finishes to (backs_view self.old.backs) (state_view self.old)) self.new) }
    {
        self.memory.unlent(alloc);
        self.lets(alloc, After::GoesOn { to })
    }

    // So many waiting references are let go, and the statement goes on at an address.
    pub fn let_go(&mut self, alloc: Global, count: usize, pc: usize)
        ensures { Comes self.old (Goes (letting count (Back-to pc (operands_view self.old.operands)) (backs_view self.old.backs) (state_view self.old))) self.new }
    {
        let operands = mem::replace(&mut self.operands, Operands::new(alloc));
        let after = After::BackTo { pc, operands };
        self.turn(Mode::Letting { count, after });
    }
}

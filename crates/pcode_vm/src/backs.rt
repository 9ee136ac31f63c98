// What a frame returns to, and what the machine is at.
ghost use Rattle.std.specs.Prelude.{◌≡◌, ◌∷◌, [], OnOk};
ghost use Rattle.pcode_vm.specs.View.{back_view, backs_view, LeavesBack};

use crate::operands::Operands;
use run_defaults::Task;
use run_memory::{RunError, Slot};
use vba_base::NoMemory;
use vba_events::Linked;
use vba_values::Value;

/// What comes when references are let go.
#[derive(Drop)]
pub enum After {
    /// A statement begins at this address.
    GoesOn { to: usize },
    Decide(Box<RunError>),
    Return,
    /// Inside a statement, with its operands.
    BackTo { pc: usize, operands: Operands },
    Pass(Box<RunError>),
    /// Module variables from this number on take these first values, the next one last.
    Close { first: Vec<Value>, shared: u32 },
}

/// The machine is at an address, an error is on its way to the frame, or so many waiting references are let go.
#[derive(Drop)]
pub enum Mode {
    At { pc: usize },
    Failing(Box<RunError>),
    Letting { count: usize, after: After },
}

/// What a frame returns to: a call, with the operands that wait there; the end of an object whose Class_Terminate it is;
/// the use of an object by an instruction, with what is then to be done, how many calls it may still make, and whether it
/// leaves a place; or a raise whose handler it is, with the event, its arguments and the links that are still to be asked,
/// the next one last.
#[derive(Drop)]
pub enum Back {
    Caller {
        pc: usize,
        operands: Operands,
    },
    EndOf {
        object: u32,
        count: usize,
        after: After,
    },
    Within {
        place: bool,
        left: u32,
        tasks: Vec<Task>,
        pc: usize,
        operands: Operands,
    },
    Delivering {
        event: u32,
        slots: Vec<Slot>,
        links: Vec<Linked>,
        pc: usize,
        operands: Operands,
    },
}

/// What waits, the next one last.
#[derive(Drop)]
pub struct Backs {
    pub backs: Vec<Back>,
}

impl Backs {
    pub fn push(&mut self, back: Back) -> Result<(), NoMemory>
        ensures { OnOk result (backs_view self.new ≡ back_view back ∷ backs_view self.old) }
    {
        self.backs.push(back)?;
        Ok(())
    }

    pub fn pop(&mut self) -> Option<Back>
        ensures { LeavesBack (backs_view self.old) result (backs_view self.new) }
    {
        self.backs.pop()
    }

    pub fn clear(&mut self)
        ensures { backs_view self.new ≡ [] }
    {
        self.backs.clear();
    }
}

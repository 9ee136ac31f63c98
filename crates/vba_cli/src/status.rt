ghost use Rattle.std.specs.Prelude.{◌≡◌};
ghost use Rattle.vba_cli.specs.Contract.{code_of};

use csv_book::BookFault;
use project_run::pcode_vm::Why;
use vba_base::{Place, Refusal};

/// How a command ended. The numbers in `ReadFault` and `TooLong` tell which file it was: 0 is the file that the command
/// names, and behind it come the modules of its list and then its sheets.
#[derive(Clone, Copy, Debug, PartialEq, Eq)]
pub enum Status {
    /// The command is done.
    Ended,
    /// An error with this number, raised at the statement at this place, left the startup macro.
    Faulted(i32, Place),
    /// The words are no command.
    Usage,
    /// The source breaks this rule at this place, and none before it.
    Refused(Refusal),
    /// `Stop`, or a value or a size that is outside of what vbarun has, stopped the run at the statement at this place.
    Stopped(Why, Place),
    /// One more turn than the bound was due.
    Going,
    /// A file can't be read.
    ReadFault(u32),
    /// Something can't be written.
    WriteFault,
    /// The list's line with this number breaks it, and none before it; 0 where the list isn't whole.
    BadList(u32),
    /// A file has more bytes than the limit.
    TooLong(u32),
    /// The file of the sheet with this number, from 1 in the order of the list, has this fault, and none before it has one.
    BadBook(u32, BookFault),
    /// The source has a part that isn't built yet, at this place; the list has where the place's module is 0.
    NotBuilt(Place),
    /// Memory ran out.
    NoMemory,
}

impl Status {
    /// The number with which the program ends.
    pub fn code(&self) -> u8
        ensures { result ≡ code_of self.now }
    {
        match self {
            Status::Ended => 0,
            Status::Faulted(_, _) => 1,
            Status::Usage => 2,
            Status::Refused(_) => 3,
            Status::Stopped(_, _) => 4,
            Status::Going => 5,
            Status::ReadFault(_) => 6,
            Status::WriteFault => 7,
            Status::BadList(_) => 8,
            Status::TooLong(_) => 9,
            Status::BadBook(_, _) => 10,
            Status::NotBuilt(_) => 69,
            Status::NoMemory => 70,
        }
    }
}

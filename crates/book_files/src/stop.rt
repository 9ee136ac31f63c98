ghost use Rattle.std.specs.Prelude.{◌≡◌};
ghost use Rattle.list_file.specs.declared.files.ReadStop.TheVariants as reads;
ghost use Rattle.book_files.specs.declared.stop.BookStop.TheVariants as stops;

use csv_book::BookFault;
use list_file::ReadStop;
use std::alloc::AllocFailed;
use vba_base::NoMemory;

/// Why reading the sheets of a call stopped.
#[derive(Clone, Copy, Debug, PartialEq, Eq)]
pub enum BookStop {
    /// A file can't be read, has too many bytes, or memory ran out.
    Unread(ReadStop),
    /// The file of the sheet with this number, from 1 in the order of the list, has this fault.
    BadSheet(u32, BookFault),
}

impl From<ReadStop> for BookStop {
    ghost from_gives = { λ reason e. e ≡ stops.Unread reason };

    fn from(reason: ReadStop) -> BookStop {
        BookStop::Unread(reason)
    }
}

impl From<NoMemory> for BookStop {
    ghost from_gives = { λ _ e. e ≡ stops.Unread reads.NoMemory };

    fn from(_error: NoMemory) -> BookStop {
        BookStop::Unread(ReadStop::NoMemory)
    }
}

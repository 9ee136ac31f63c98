// What a run tells.
ghost use Rattle.std.specs.Prelude.{◌≡◌, ◌≤◌, ◌∷◌, ◌++◌, [], OnOk, length, map, take};
ghost use Rattle.run_host.specs.View.{event_view, told_view};

use sheet_host::CellValue;
use vba_base::{NoMemory, Units};

/// What a run tells: a text of Debug.Print and whether the line ends behind it, a cell that is written and what it has
/// then, the number of an error that is raised, an object by the number of its class and its own.
pub enum Event {
    Printed {
        text: Units,
        ends: bool,
    },
    Cell {
        sheet: u32,
        row: u32,
        column: u32,
        value: CellValue,
    },
    Raised {
        number: i32,
    },
    Init {
        class: u32,
        number: u32,
    },
    Term {
        class: u32,
        number: u32,
    },
}

impl Drop for Event {
    fn drop(self) {
        match self {
            Event::Printed {
                text: _text,
                ends: _ends,
            } => {}
            Event::Cell {
                sheet: _sheet,
                row: _row,
                column: _column,
                value: _value,
            } => {}
            Event::Raised { number: _number } => {}
            Event::Init {
                class: _class,
                number: _number,
            } => {}
            Event::Term {
                class: _class,
                number: _number,
            } => {}
        }
    }
}

/// The events that were told and not taken yet.
#[derive(Drop)]
pub struct Told {
    pub events: Vec<Event>,
}

impl Told {
    /// One event more is told.
    pub fn push(&mut self, event: Event) -> Result<(), NoMemory>
        ensures { OnOk result (told_view self.new ≡ told_view self.old ++ event_view event ∷ []) }
    {
        self.events.push(event)?;
        Ok(())
    }

    /// The events behind the first ones are told no longer.
    pub fn keep_first(&mut self, count: usize)
        ensures { told_view self.new ≡ take count (told_view self.old) }
    {
        self.events.truncate(count);
    }
}

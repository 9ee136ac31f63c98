use crate::frame::Frame;
use sheet_host::{Area, Book};
use vba_base::Units;
use vba_values::Value;

/// An error on its way, and what Err keeps of the last one: its number, a source and a description where they were
/// given, and where it was raised ([MS-VBAL] 5.4.4, 6.1.3.2).
pub struct RunError {
    pub number: i32,
    pub source: Option<Units>,
    pub description: Option<Units>,
    pub procedure: u32,
    pub statement: Option<u32>,
}

impl Drop for RunError {
    fn drop(self) {
        let RunError {
            number: _number,
            source: _source,
            description: _description,
            procedure: _procedure,
            statement: _statement,
        } = self;
    }
}

/// A counted object. The fields of a Collection are its items, each of which may have a key, folded. Each WithEvents
/// variable stands among the set numbers, by the number of its field, with that of its last Set while it has a source.
pub struct Object {
    pub class: u32,
    pub is_told: bool,
    pub fields: Vec<Value>,
    pub keys: Vec<Option<Units>>,
    pub set_numbers: Vec<(u32, Option<u64>)>,
}

impl Drop for Object {
    fn drop(self) {
        let Object {
            class: _class,
            is_told: _is_told,
            fields: _fields,
            keys: _keys,
            set_numbers: _set_numbers,
        } = self;
    }
}

/// What a run remembers: frames, variables, objects, Err, the book and what Application is set to.
pub struct Memory {
    /// Whether a call stands: then it is the frame that runs, and the others called.
    pub stands: bool,
    pub top: Frame,
    pub callers: Vec<Frame>,
    /// Module variables and statics.
    pub shared: Vec<Value>,
    /// The counted objects by number, and the references whose letting go was begun, the next one last.
    pub objects: Vec<Option<Object>>,
    pub waiting: Vec<u32>,
    pub err: RunError,
    /// The units on the open line of Debug.Print.
    pub column: usize,
    /// The book, and what EnableEvents, ScreenUpdating and DisplayAlerts of Application are.
    pub book: Book,
    pub events_on: bool,
    pub updates_screen: bool,
    pub shows_alerts: bool,
    /// The number of the next Set of a WithEvents variable, and an area that was written of which no handler of Change was
    /// told yet.
    pub next_set: u64,
    pub changed: Option<Area>,
}

impl Drop for Memory {
    fn drop(self) {
        let Memory {
            stands: _stands,
            top: _top,
            callers: _callers,
            shared: _shared,
            objects: _objects,
            waiting: _waiting,
            err: _err,
            column: _column,
            book: _book,
            events_on: _events_on,
            updates_screen: _updates_screen,
            shows_alerts: _shows_alerts,
            next_set: _next_set,
            changed: _changed,
        } = self;
    }
}

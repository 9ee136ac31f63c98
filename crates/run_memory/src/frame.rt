ghost use Rattle.std.specs.Prelude.{◌≡◌, IfOk, Some, option_map};
ghost use Rattle.vba_values.specs.View.{view};
ghost use Rattle.vba_meaning.specs.Memory.{value_in};
ghost use Rattle.run_memory.specs.Slots.{path_in};
ghost use Rattle.run_memory.specs.View.{path_view, slot_view};

use crate::path::Path;
use bound_project::DeclaredType;
use error_frames::FrameErrors;
use std::alloc::Global;
use vba_base::NoMemory;
use vba_values::{Compare, Value, copy_value};

/// What a variable of a frame contains: its value, or where a ByRef parameter leads.
pub enum Slot {
    Value(Value),
    Path(Path),
}

impl Drop for Slot {
    fn drop(self) {
        match self {
            Slot::Value(_value) => {}
            Slot::Path(_path) => {}
        }
    }
}

impl Slot {
    /// Its value, where it has one.
    pub fn into_value(self) -> Option<Value>
        ensures { option_map view result ≡ value_in (Some (slot_view self)) }
    {
        match self {
            Slot::Value(value) => Some(value),
            Slot::Path(_path) => None,
        }
    }

    /// Its path, where it has one.
    pub fn into_path(self) -> Option<Path>
        ensures { option_map path_view result ≡ path_in (slot_view self) }
    {
        match self {
            Slot::Value(_value) => None,
            Slot::Path(path) => Some(path),
        }
    }

    /// A copy.
    pub fn copy(&self, alloc: Global) -> Result<Slot, NoMemory>
        ensures { IfOk result (λ copy. slot_view copy ≡ slot_view self.now) }
    {
        match self {
            Slot::Value(value) => Ok(Slot::Value(copy_value(alloc, value)?)),
            Slot::Path(path) => Ok(Slot::Path(path.copy(alloc)?)),
        }
    }
}

/// A value with the declared type of the expression that gave it.
pub struct Typed {
    pub value: Value,
    pub of: DeclaredType,
}

impl Drop for Typed {
    fn drop(self) {
        let Typed {
            value: _value,
            of: _of,
        } = self;
    }
}

/// A For that was begun: its last value and its step.
pub struct Loop {
    pub last: Typed,
    pub step: Typed,
    pub compare: Compare,
}

impl Drop for Loop {
    fn drop(self) {
        let Loop {
            last: _last,
            step: _step,
            compare: _compare,
        } = self;
    }
}

/// What a block keeps for its statements: the value of a Select Case or of a With over a value, where the place of a
/// With is, or what a For Each walks, whether the loop counts as begun, and the number of its next item.
pub enum Kept {
    Only(Value),
    AtPath(Path),
    Walk {
        is_begun: bool,
        value: Value,
        next: usize,
    },
}

impl Drop for Kept {
    fn drop(self) {
        match self {
            Kept::Only(_value) => {}
            Kept::AtPath(_path) => {}
            Kept::Walk {
                is_begun: _is_begun,
                value: _value,
                next: _next,
            } => {}
        }
    }
}

/// A call that stands. One that code called hands its result on; a Class_Terminate that the end of an object called
/// has none to hand on to.
pub struct Frame {
    pub is_called: bool,
    pub procedure: u32,
    /// The statement that was begun last.
    pub statement: Option<u32>,
    pub errors: FrameErrors,
    /// The result, the procedure's own variables, its parameters.
    pub slots: Vec<Slot>,
    /// Where ByRef parameters of calls lead whose arguments are still evaluated, the last one last.
    pub pending: Vec<Path>,
    /// The Fors that were begun, the last one last, and what blocks keep in text order, each by the number of its
    /// header.
    pub loops: Vec<(u32, Loop)>,
    pub keeps: Vec<(u32, Kept)>,
    /// Where Return goes on, the last GoSub last.
    pub returns: Vec<u32>,
    pub me: Value,
    /// The objects that the running statement holds: first what it displaced, then its temporaries.
    pub held: Vec<u32>,
}

impl Drop for Frame {
    fn drop(self) {
        let Frame {
            is_called: _is_called,
            procedure: _procedure,
            statement: _statement,
            errors: _errors,
            slots: _slots,
            pending: _pending,
            loops: _loops,
            keeps: _keeps,
            returns: _returns,
            me: _me,
            held: _held,
        } = self;
    }
}

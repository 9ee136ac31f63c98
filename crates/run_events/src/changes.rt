// Areas that were written, of whose Change is to be told.
ghost use Rattle.std.specs.Prelude.{◌≡◌};
ghost use Rattle.vba_values.specs.View.{view};
ghost use Rattle.vba_meaning.specs.Effects.{range_value};
ghost use Rattle.vba_meaning.specs.Events.{noted, sheet_of};
ghost use Rattle.run_memory.specs.View.{memory_view};

use crate::links::has_sinks;
use run_memory::Memory;
use sheet_host::Area;
use vba_values::{HostRef, ObjRef, Value};

/// The number of Change among the events of a sheet.
pub const CHANGE: u32 = 0;

/// The sheet of an area.
pub fn sheet_of(area: Area) -> ObjRef
    ensures { result ≡ sheet_of area }
{
    ObjRef::Host(HostRef::Sheet {
        sheet: area.sheet.0,
    })
}

/// The reference to an area.
pub fn area_value(area: Area) -> Value
    ensures { view result ≡ range_value area }
{
    Value::Object(ObjRef::Host(HostRef::Area {
        sheet: area.sheet.0,
        top: area.top,
        left: area.left,
        rows: area.rows,
        columns: area.columns,
    }))
}

/// An area was written: its Change is to be told where events are on and some variable has the sheet.
pub fn noted(memory: &mut Memory, area: Area)
    ensures { memory_view memory.new ≡ noted area (memory_view memory.old) }
{
    if memory.events_on && has_sinks(memory, sheet_of(area)) {
        memory.changed = Some(area);
    }
}

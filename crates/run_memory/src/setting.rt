// What is done in one go with references to objects.
ghost use Rattle.vba_values.specs.Types.{declared};
ghost use Rattle.vba_values.specs.View.{view};
ghost use Rattle.vba_meaning.specs.Objects.{compared, set_at, typed_as};
ghost use Rattle.vba_meaning.specs.Library.{plain_if_any};
ghost use Rattle.run_memory.specs.Acts.{Acts};
ghost use Rattle.run_memory.specs.View.{memory_view, path_view};

use crate::area::area_in;
use crate::memory::Memory;
use crate::path::Path;
use std::alloc::Global;
use vba_base::OrMemory;
use vba_values::{Bad, HostRef, ObjRef, VType, Value, is_same_object};

impl Memory {
    /// Is: 424 where one of both is no object ([MS-VBAL] 5.6.9.7).
    #[tactic(auto, using(crate::proofs::Refused::refused_then))]
    pub fn compared(&self, left: &Value, right: &Value) -> Result<Value, OrMemory<Bad>>
        ensures { Acts view result (memory_view self.now) (compared (view left.now) (view right.now) (memory_view self.now)) }
    {
        let same = is_same_object(left, right)?;
        Ok(Value::Boolean(same))
    }

    /// TypeOf: whether Set would let a variable of the type have the object ([MS-VBAL] 5.6.7).
    pub fn typed_as(&self, of: &VType, value: &Value) -> Result<Value, OrMemory<Bad>>
        ensures { Acts view result (memory_view self.now) (typed_as (declared of.now) (view value.now) (memory_view self.now)) }
    {
        match value {
            Value::Object(ObjRef::Nothing) => Err(OrMemory::Fault(Bad::Raise(91))),
            Value::Object(reference) => Ok(Value::Boolean(self.takes_object(of, *reference))),
            _ => Err(OrMemory::Fault(Bad::Raise(424))),
        }
    }

    /// Set: the test of Set by the declared type at the place, and the object is stored ([MS-VBAL] 5.4.3.9).
    #[tactic(auto, using(crate::proofs::Refused::refused_then))]
    pub fn set_at(&mut self, alloc: Global, path: &Path, value: Value) -> Result<(), OrMemory<Bad>>
        ensures { Acts (λ done. done) result (memory_view self.new) (set_at (path_view path.now) (view value) (memory_view self.old)) }
    {
        let value = self.set_object(&path.of, &value)?;
        self.stored(alloc, path, value)
    }

    /// An object gives way to the value of its default member, but where that needs an argument the object stays, and so
    /// does Nothing.
    pub fn plain_if_any(&self, alloc: Global, value: Value) -> Result<Value, OrMemory<Bad>>
        ensures { Acts view result (memory_view self.now) (plain_if_any (view value) (memory_view self.now)) }
    {
        match value {
            Value::Object(ObjRef::Host(HostRef::ErrObject)) => Ok(Value::Long(self.err.number)),
            Value::Object(
                ObjRef::Host(
                    HostRef::Area {
                        sheet,
                        top,
                        left,
                        rows,
                        columns,
                    },
                ),
            ) => self.value_in_area(alloc, area_in(sheet, top, left, rows, columns)),
            other => Ok(other),
        }
    }
}

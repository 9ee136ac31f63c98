// Variables: read, assigned, lent.
ghost use Rattle.std.specs.Prelude.{◌≡◌, IfOk, IsSome, OnOk, Some, option_map};
ghost use Rattle.arrays_udt.specs.Paths.{path_value};
ghost use Rattle.vba_values.specs.View.{view};
ghost use Rattle.vba_meaning.specs.Memory.{inner_or_none, root_value, value_at, value_or_empty, with_value};
ghost use Rattle.vba_meaning.specs.References.{replaced};
ghost use Rattle.vba_meaning.specs.Effects.{assignable, assigned, done, has_parts, lent, read_path, replaceable, stored, unlent};
ghost use Rattle.run_memory.specs.Acts.{Acts};
ghost use Rattle.run_memory.specs.Exchanges.{inside_exchanged};
ghost use Rattle.run_memory.specs.Looks.{object_here};
ghost use Rattle.run_memory.specs.View.{memory_view, path_view, root_view};

use crate::connecting::is_nothing;
use crate::looking::inner_value;
use crate::memory::Memory;
use crate::path::{Path, Root};
use arrays_udt::{PathStep, path_write};
use std::alloc::Global;
use vba_base::{NoMemory, OrMemory};
use vba_values::{Bad, ObjRef, Value, coerce_owned, copy_value};

impl Memory {
    /// The value at a path, which the running statement holds then; where the path leads nowhere any more it raises 9.
    pub fn read_path(&mut self, alloc: Global, path: &Path) -> Result<Value, OrMemory<Bad>>
        ensures { Acts view result (memory_view self.new) (read_path (path_view path.now) (memory_view self.old)) }
    {
        let Some(value) = self.copy_at(alloc, path)? else {
            return Err(OrMemory::Fault(Bad::Raise(9)));
        };
        self.hold(alloc, &value)?;
        Ok(value)
    }

    /// A copy of the value at a path.
    fn copy_at(&self, alloc: Global, path: &Path) -> Result<Option<Value>, NoMemory>
        ensures { IfOk result (λ value. option_map view value ≡ value_at (memory_view self.now) (path_view path.now)) }
    {
        let steps = path.plain_steps(alloc)?;
        let object = path.root.object_value();
        let Some(root) = self.root_value(&path.root, &object) else {
            return Ok(None);
        };
        copy_inner(alloc, root, steps.as_slice())
    }

    /// The object at a path, where one is there.
    pub fn object_there(&self, alloc: Global, path: &Path) -> Result<Option<ObjRef>, NoMemory>
        ensures { IfOk result (λ reference. reference ≡ object_here (value_at (memory_view self.now) (path_view path.now))) }
    {
        let steps = path.plain_steps(alloc)?;
        let object = path.root.object_value();
        let Some(root) = self.root_value(&path.root, &object) else {
            return Ok(None);
        };
        Ok(inner_object(root, steps.as_slice()))
    }

    /// Whether the value at a path has parts; where there is none the answer is None.
    fn parts_at(&self, alloc: Global, path: &Path) -> Result<Option<bool>, NoMemory>
        ensures { IfOk result (λ parts. parts ≡ option_map has_parts (value_at (memory_view self.now) (path_view path.now))) }
    {
        let steps = path.plain_steps(alloc)?;
        let object = path.root.object_value();
        let Some(root) = self.root_value(&path.root, &object) else {
            return Ok(None);
        };
        Ok(inner_parts(root, steps.as_slice()))
    }

    /// Whether a value may be replaced: there is one (9), and no frame holds a path through an array there (10). An object
    /// and an item that an index gave have no place (438).
    pub fn replaceable(&self, alloc: Global, path: &Path) -> Result<(), OrMemory<Bad>>
        ensures acts { Acts (λ done. value_or_empty (value_at (memory_view self.now) (path_view path.now))) result
            (memory_view self.now) (replaceable (path_view path.now) (memory_view self.now)) }
        ensures there { OnOk result (IsSome (value_at (memory_view self.now) (path_view path.now))) }
    {
        if matches!(path.root, Root::Object { .. } | Root::Item { .. }) {
            return Err(OrMemory::Fault(Bad::Raise(438)));
        }
        match self.parts_at(alloc, path)? {
            None => Err(OrMemory::Fault(Bad::Raise(9))),
            Some(has_parts) => {
                if has_parts && self.is_locked(path) {
                    return Err(OrMemory::Fault(Bad::Raise(10)));
                }
                Ok(())
            }
        }
    }

    /// The same, but an array that is declared with bounds is never replaced by another one (10).
    pub fn assignable(&self, alloc: Global, path: &Path) -> Result<(), OrMemory<Bad>>
        ensures acts { Acts (λ done. value_or_empty (value_at (memory_view self.now) (path_view path.now))) result
            (memory_view self.now) (assignable (path_view path.now) (memory_view self.now)) }
        ensures there { OnOk result (IsSome (value_at (memory_view self.now) (path_view path.now))) }
    {
        self.replaceable(alloc, path)?;
        if path.is_bounded {
            return Err(OrMemory::Fault(Bad::Raise(10)));
        }
        Ok(())
    }

    /// A value takes the place of that at a path.
    pub fn exchange_at(&mut self, alloc: Global, path: &Path, new: Value) -> Result<Value, NoMemory>
        requires { IsSome (value_at (memory_view self.old) (path_view path.now)) }
        ensures old { IfOk result (λ old. value_at (memory_view self.old) (path_view path.now) ≡ Some (view old)) }
        ensures new { OnOk result (memory_view self.new ≡ with_value (memory_view self.old) (path_view path.now) (view new)) }
    {
        let steps = path.plain_steps(alloc)?;
        if steps.is_empty() {
            let Some(old) = self.exchange(alloc, &path.root, new)? else {
                unreachable!();
            };
            return Ok(old);
        }
        self.exchange_inside(alloc, &path.root, steps.as_slice(), new)
    }

    #[tactic(auto, using(crate::proofs::Roots::root_again))]
    fn exchange_inside(
        &mut self,
        alloc: Global,
        root: &Root,
        steps: &[PathStep],
        new: Value,
    ) -> Result<Value, NoMemory>
        requires { IsSome (inner_or_none (root_value (memory_view self.old) (root_view root.now)) steps.now) }
        ensures old { IfOk result (λ old. inner_or_none (root_value (memory_view self.old) (root_view root.now)) steps.now ≡ Some (view old)) }
        ensures new { OnOk result (memory_view self.new
            ≡ inside_exchanged (memory_view self.old) (root_view root.now) (root_value (memory_view self.old) (root_view root.now)) steps.now (view new)) }
    {
        let Some(mut whole) = self.exchange(alloc, root, Value::Empty)? else {
            unreachable!();
        };
        let old = path_write(&mut whole, steps, new);
        let _empty = self.exchange(alloc, root, whole)?;
        Ok(old)
    }

    /// A value is stored; what was there gives way, and a WithEvents variable is connected.
    pub fn stored(&mut self, alloc: Global, path: &Path, value: Value) -> Result<(), OrMemory<Bad>>
        ensures { Acts (λ done. done) result (memory_view self.new) (stored (path_view path.now) (view value) (memory_view self.old)) }
    {
        self.assignable(alloc, path)?;
        let nothing = is_nothing(&value);
        self.replaced(alloc, path, value)?;
        self.connects(alloc, &path.root, nothing)
    }

    fn replaced(&mut self, alloc: Global, path: &Path, value: Value) -> Result<(), NoMemory>
        requires { IsSome (value_at (memory_view self.old) (path_view path.now)) }
        ensures { OnOk result (memory_view self.new ≡ replaced (path_view path.now) (view value) (memory_view self.old)) }
    {
        let old = self.exchange_at(alloc, path, value)?;
        self.displaced(alloc, &old)
    }

    /// Let: the value becomes one of the type of what it is assigned to ([MS-VBAL] 5.4.3.8).
    pub fn assigned(
        &mut self,
        alloc: Global,
        path: &Path,
        value: Value,
    ) -> Result<(), OrMemory<Bad>>
        ensures { Acts (λ done. done) result (memory_view self.new) (assigned (path_view path.now) (view value) (memory_view self.old)) }
    {
        let value = coerce_owned(alloc, value, &path.of)?;
        self.stored(alloc, path, value)
    }

    /// A path is bound to a ByRef parameter of a call that doesn't stand yet.
    pub fn lent(&mut self, alloc: Global, path: Path) -> Result<(), NoMemory>
        ensures { OnOk result (lent (path_view path) (memory_view self.old) ≡ done (memory_view self.new)) }
    {
        self.stand(alloc);
        self.top.pending.push(path)?;
        Ok(())
    }

    /// The paths of calls that didn't come to stand are bound no longer.
    pub fn unlent(&mut self, alloc: Global)
        ensures { memory_view self.new ≡ unlent (memory_view self.old) }
    {
        self.stand(alloc);
        self.top.pending = Vec::new(alloc);
    }
}

pub fn copy_inner(
    alloc: Global,
    root: &Value,
    steps: &[PathStep],
) -> Result<Option<Value>, NoMemory>
    ensures { IfOk result (λ value. option_map view value ≡ path_value (view root.now) steps.now) }
{
    match inner_value(root, steps) {
        Some(value) => Ok(Some(copy_value(alloc, value)?)),
        None => Ok(None),
    }
}

fn inner_object(root: &Value, steps: &[PathStep]) -> Option<ObjRef>
    ensures { result ≡ object_here (path_value (view root.now) steps.now) }
{
    match inner_value(root, steps) {
        Some(Value::Object(reference)) => Some(*reference),
        _ => None,
    }
}

fn inner_parts(root: &Value, steps: &[PathStep]) -> Option<bool>
    ensures { result ≡ option_map has_parts (path_value (view root.now) steps.now) }
{
    match inner_value(root, steps) {
        Some(value) => Some(matches!(value, Value::Array(_) | Value::Udt(_))),
        None => None,
    }
}

// What blocks keep: Select Case ([MS-VBAL] 5.4.2.10) and With (5.4.2.21).
ghost use Rattle.std.specs.Prelude.{◌≡◌, ◌++◌, IfOk, OnOk, map, true};
ghost use Rattle.vba_values.specs.View.{view};
ghost use Rattle.vba_meaning.specs.Memory.{found, without};
ghost use Rattle.vba_meaning.specs.References.{displaced, kept_value, objects_in};
ghost use Rattle.vba_meaning.specs.Effects.{Fine, done, keep, kept_at, kept_or, selected};
ghost use Rattle.vba_meaning.specs.Arrays.{block_over, dot_at, keep_path, keeping, kept_of};
ghost use Rattle.run_memory.specs.Acts.{Acts};
ghost use Rattle.run_memory.specs.Keeps.{others};
ghost use Rattle.run_memory.specs.View.{frame_view, kept_at_view, kept_view, memory_view, path_view};

use crate::frame::{Frame, Kept};
use crate::keeps::put_kept;
use crate::looking::value_in_item;
use crate::memory::Memory;
use crate::objects::add_objects;
use crate::path::{Path, Root};
use std::alloc::Global;
use vba_base::{NoMemory, OrMemory};
use vba_values::{Bad, VType, Value, copy_value};

impl Memory {
    /// The value that a block keeps gives way.
    fn displace_kept(&mut self, alloc: Global, header: u32) -> Result<(), NoMemory>
        ensures stands { self.new.stands ≡ true }
        ensures displaced { OnOk result (memory_view self.new ≡ displaced (kept_at header (memory_view self.old)) (memory_view self.old)) }
    {
        self.stand(alloc);
        let mut held = Vec::new(alloc);
        add_kept(alloc, &mut held, &self.top, header)?;
        held.extend_from_slice(self.top.held.as_slice())?;
        self.top.held = held;
        Ok(())
    }

    /// A block keeps something else.
    fn keeping(&mut self, alloc: Global, header: u32, kept: Kept) -> Result<(), NoMemory>
        ensures { OnOk result (memory_view self.new ≡ keeping header (kept_view kept) (memory_view self.old)) }
    {
        self.displace_kept(alloc, header)?;
        put_kept(&mut self.top.keeps, header, kept)
    }

    /// Select Case keeps its value, and With over a value.
    pub fn keep(&mut self, alloc: Global, header: u32, value: Value) -> Result<(), NoMemory>
        ensures { OnOk result (keep header (view value) (memory_view self.old) ≡ done (memory_view self.new)) }
    {
        self.keeping(alloc, header, Kept::Only(value))
    }

    /// With keeps a place; of an item of a Collection, which has none, the value.
    pub fn keep_path(&mut self, alloc: Global, header: u32, path: Path) -> Result<(), NoMemory>
        ensures { OnOk result (keep_path header (path_view path) (memory_view self.old) ≡ done (memory_view self.new)) }
    {
        let kept = kept_of(alloc, path)?;
        self.keeping(alloc, header, kept)
    }

    /// A block is over: it keeps nothing any more.
    pub fn block_over(&mut self, alloc: Global, header: u32) -> Result<(), NoMemory>
        ensures { OnOk result (block_over header (memory_view self.old) ≡ done (memory_view self.new)) }
    {
        self.displace_kept(alloc, header)?;
        remove_kept(&mut self.top.keeps, header);
        Ok(())
    }

    /// The value of a Select Case, which the running statement holds then. One that wasn't begun tests Empty.
    pub fn selected(&mut self, alloc: Global, header: u32) -> Result<Value, NoMemory>
        ensures { IfOk result (λ value. selected header (memory_view self.old) ≡ Fine (view value) (memory_view self.new)) }
    {
        let value = self.kept_at(alloc, header)?;
        self.hold(alloc, &value)?;
        Ok(value)
    }

    fn kept_at(&self, alloc: Global, header: u32) -> Result<Value, NoMemory>
        ensures { IfOk result (λ value. view value ≡ kept_at header (memory_view self.now)) }
    {
        if !self.stands {
            return Ok(Value::Empty);
        }
        match self.top.kept(header) {
            Some(Kept::Only(value)) => copy_value(alloc, value),
            Some(Kept::Walk { value, .. }) => copy_value(alloc, value),
            _ => Ok(Value::Empty),
        }
    }

    /// Where a With block's dot leads: to its place, or to the value that the block keeps; without one it raises 91.
    pub fn dot_at(&self, alloc: Global, header: u32) -> Result<Path, OrMemory<Bad>>
        ensures { Acts path_view result (memory_view self.now) (dot_at header (memory_view self.now)) }
    {
        if !self.stands {
            return Err(OrMemory::Fault(Bad::Raise(91)));
        }
        match self.top.kept(header) {
            Some(Kept::Only(_)) => Ok(Path {
                root: Root::Block {
                    frame: self.callers.len(),
                    header,
                },
                steps: Vec::new(alloc),
                of: VType::Variant,
                is_bounded: false,
                makes: None,
            }),
            Some(Kept::AtPath(path)) => Ok(path.copy(alloc)?),
            _ => Err(OrMemory::Fault(Bad::Raise(91))),
        }
    }
}

fn kept_of(alloc: Global, path: Path) -> Result<Kept, NoMemory>
    ensures { IfOk result (λ kept. kept_view kept ≡ kept_of (path_view path)) }
{
    if let Root::Item { value } = &path.root {
        return Ok(Kept::Only(value_in_item(alloc, value, &path)?));
    }
    Ok(Kept::AtPath(path))
}

/// Adds the objects of what a block keeps.
fn add_kept(
    alloc: Global,
    objects: &mut Vec<u32>,
    frame: &Frame,
    header: u32,
) -> Result<(), NoMemory>
    ensures { OnOk result (objects.new.items ≡ objects.old.items ++ objects_in (kept_value (kept_or (found (frame_view frame.now).keeps header)))) }
{
    match frame.kept(header) {
        Some(Kept::Only(value)) => add_objects(alloc, objects, value),
        Some(Kept::Walk { value, .. }) => add_objects(alloc, objects, value),
        _ => Ok(()),
    }
}

#[tactic(auto, using(crate::proofs::Others::keeps_without))]
fn remove_kept(keeps: &mut Vec<(u32, Kept)>, header: u32)
    ensures { map kept_at_view keeps.new.items ≡ without (map kept_at_view keeps.old.items) header }
{
    retain_kept(keeps, header);
}

fn retain_kept(keeps: &mut Vec<(u32, Kept)>, header: u32)
    ensures { keeps.new.items ≡ others header keeps.old.items }
{
    keeps.retain(|entry| entry.0 != header);
}

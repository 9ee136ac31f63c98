// What is in variables.
ghost use Rattle.std.specs.Prelude.{◌≡◌, option_map, slice_get, map, IfOk};
ghost use Rattle.arrays_udt.specs.Paths.{path_value};
ghost use Rattle.vba_values.specs.View.{view};
ghost use Rattle.bound_project.specs.View.{variable_view};
ghost use Rattle.vba_meaning.specs.Memory.{found, frame_at, number_of, object_at, path_of, root_value, top, value_in, value_in_item, value_kept};
ghost use Rattle.vba_meaning.specs.Paths.{in_block};
ghost use Rattle.run_memory.specs.Looks.{frame_or, root_or};
ghost use Rattle.run_memory.specs.View.{frame_view, kept_at_view, kept_view, memory_view, path_view, root_view, slot_view};

use crate::frame::{Frame, Kept, Slot};
use crate::memory::Memory;
use crate::path::{Path, Root};
use arrays_udt::{PathStep, has_path, path_read};
use bound_project::{Storage, Variable};
use std::alloc::Global;
use vba_base::NoMemory;
use vba_values::{ObjRef, Value, copy_value};

impl Memory {
    /// The frame with so many below it.
    #[tactic(auto, using(crate::proofs::Frames::frame_caller))]
    pub fn frame_at(&self, number: usize) -> Option<&Frame>
        ensures { frame_or (option_map (λ frame. frame_view frame.now) result) ≡ frame_at (memory_view self.now).frames number }
    {
        if !self.stands {
            return None;
        }
        if number == self.callers.len() {
            return Some(&self.top);
        }
        caller_at(&self.callers, number)
    }

    /// The value of a variable or a block, or an item, or this object.
    pub fn root_value<'a>(&'a self, root: &'a Root, object: &'a Value) -> Option<&'a Value>
        ensures { option_map (λ value. view value.now) result ≡ root_or (memory_view self.now) (root_view root.now) (view object.now) }
    {
        match root {
            Root::Frame { frame, variable } => self.frame_at(*frame)?.value_of(*variable),
            Root::Project { variable } => self.shared.get(*variable as usize),
            Root::Instance {
                object: number,
                field,
            } => self.instance_value(*number, *field as usize),
            Root::Block { frame, header } => self.block_value(*frame, *header),
            Root::Object { .. } => Some(object),
            Root::Item { value } => Some(value),
        }
    }

    /// The value that a block of a frame keeps.
    pub fn block_value(&self, frame: usize, header: u32) -> Option<&Value>
        ensures { option_map (λ value. view value.now) result ≡ root_value (memory_view self.now) (in_block frame header) }
    {
        self.frame_at(frame)?.value_kept(header)
    }

    /// The value of a variable of a counted object; of a Collection an item.
    pub fn instance_value(&self, object: u32, field: usize) -> Option<&Value>
        ensures { option_map (λ value. view value.now) result ≡ slice_get (object_at (memory_view self.now) object).fields field }
    {
        match self.objects.get(object as usize) {
            Some(Some(object)) => object.fields.get(field),
            _ => None,
        }
    }

    /// The number of the object whose procedure runs.
    fn own_number(&self) -> u32
        ensures { result ≡ number_of (top (memory_view self.now)).me }
    {
        if self.stands {
            number_of(&self.top.me)
        } else {
            0
        }
    }

    /// Where a variable is; a ByRef parameter leads to where its argument is.
    pub fn path_of(&self, alloc: Global, variable: Variable) -> Result<Path, NoMemory>
        ensures { IfOk result (λ path. path_view path ≡ path_of (memory_view self.now) (variable_view variable)) }
    {
        let number = match variable.storage {
            Storage::Local(number) => number,
            Storage::Own(field) => {
                let object = self.own_number();
                return Path::of_instance(alloc, object, field, variable.of, variable.is_bounded);
            }
            Storage::Shared(number) => {
                return Ok(Path {
                    root: Root::Project { variable: number },
                    steps: Vec::new(alloc),
                    of: variable.of.value_type(alloc)?,
                    is_bounded: variable.is_bounded,
                    makes: None,
                });
            }
        };
        if self.stands
            && let Some(Slot::Path(path)) = self.top.slots.get(number as usize)
        {
            return path.copy(alloc);
        }
        Ok(Path {
            root: Root::Frame {
                frame: self.below(),
                variable: number,
            },
            steps: Vec::new(alloc),
            of: variable.of.value_type(alloc)?,
            is_bounded: variable.is_bounded,
            makes: None,
        })
    }
}

/// The number of a counted object.
fn number_of(value: &Value) -> u32
    ensures { result ≡ number_of (view value.now) }
{
    match value {
        Value::Object(ObjRef::Heap(id)) => id.0,
        _ => 0,
    }
}

fn caller_at(callers: &Vec<Frame>, number: usize) -> Option<&Frame>
    ensures { option_map (λ frame. frame_view frame.now) result ≡ option_map frame_view (slice_get callers.now.items number) }
{
    callers.get(number)
}

impl Frame {
    /// The value of a variable that has one.
    fn value_of(&self, variable: u32) -> Option<&Value>
        ensures { option_map (λ value. view value.now) result ≡ value_in (slice_get (frame_view self.now).slots variable) }
    {
        match self.slots.get(variable as usize) {
            Some(Slot::Value(value)) => Some(value),
            _ => None,
        }
    }

    /// What a block keeps.
    pub fn kept(&self, header: u32) -> Option<&Kept>
        ensures { option_map (λ kept. kept_view kept.now) result ≡ found (frame_view self.now).keeps header }
    {
        kept_in(self.keeps.as_slice(), header)
    }

    /// The value that a block keeps.
    fn value_kept(&self, header: u32) -> Option<&Value>
        ensures { option_map (λ value. view value.now) result ≡ value_kept (found (frame_view self.now).keeps header) }
    {
        match self.kept(header) {
            Some(Kept::Only(value)) => Some(value),
            _ => None,
        }
    }
}

fn kept_in(keeps: &[(u32, Kept)], header: u32) -> Option<&Kept>
    ensures { option_map (λ kept. kept_view kept.now) result ≡ found (map kept_at_view keeps.now) header }
{
    match keeps {
        [] => None,
        [first, keeps @ ..] => if first.0 == header {
            Some(&first.1)
        } else {
            kept_in(keeps, header)
        },
    }
}

/// A copy of the value at a path's steps inside an item of a Collection.
pub fn value_in_item(alloc: Global, item: &Value, path: &Path) -> Result<Value, NoMemory>
    ensures { IfOk result (λ value. view value ≡ value_in_item (view item.now) (path_view path.now).steps) }
{
    let steps = path.plain_steps(alloc)?;
    match inner_value(item, steps.as_slice()) {
        Some(value) => Ok(copy_value(alloc, value)?),
        None => Ok(Value::Empty),
    }
}

/// The value at a path inside a value.
pub fn inner_value<'a>(root: &'a Value, steps: &[PathStep]) -> Option<&'a Value>
    ensures { option_map (λ value. view value.now) result ≡ path_value (view root.now) steps.now }
{
    if !has_path(root, steps) {
        return None;
    }
    Some(path_read(root, steps))
}

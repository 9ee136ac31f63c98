// A new array takes the place of another one.
ghost use Rattle.std.specs.Prelude.{◌≡◌, IfOk, IsSome, option_map};
ghost use Rattle.arrays_udt.specs.Paths.{path_value};
ghost use Rattle.vba_values.specs.View.{view};
ghost use Rattle.vba_meaning.specs.Memory.{value_at, value_or_empty};
ghost use Rattle.vba_meaning.specs.Effects.{Fine};
ghost use Rattle.vba_meaning.specs.Arrays.{exchanged};
ghost use Rattle.run_memory.specs.View.{memory_view, path_view};

use arrays_udt::{PathStep, has_path, path_read};
use run_memory::{Memory, Path, add_objects};
use std::alloc::Global;
use vba_base::NoMemory;
use vba_values::Value;

/// A value is stored, and what was there waits to be let go: so many references.
pub fn exchanged(
    memory: &mut Memory,
    alloc: Global,
    path: &Path,
    new: Value,
) -> Result<usize, NoMemory>
    requires { IsSome (value_at (memory_view memory.old) (path_view path.now)) }
    ensures { IfOk result (λ count. exchanged (path_view path.now) (value_or_empty (value_at (memory_view memory.old) (path_view path.now)))
        (view new) (memory_view memory.old) ≡ Fine count (memory_view memory.new)) }
{
    let old = memory.exchange_at(alloc, path, new)?;
    let mut objects = Vec::new(alloc);
    add_objects(alloc, &mut objects, &old)?;
    let count = objects.len();
    memory.waits(objects)?;
    Ok(count)
}

/// The value at a path inside a value.
pub fn inner_value<'a>(root: &'a Value, steps: &[PathStep]) -> Option<&'a Value>
    ensures { option_map (λ value. view value.now) result ≡ path_value (view root.now) steps.now }
{
    if !has_path(root, steps) {
        return None;
    }
    Some(path_read(root, steps))
}

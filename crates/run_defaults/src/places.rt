// Places that arguments lead to.
ghost use Rattle.std.specs.Prelude.{◌≡◌, IfOk, map};
ghost use Rattle.vba_values.specs.View.{view};
ghost use Rattle.arrays_udt.specs.Paths.{path_value};
ghost use Rattle.vba_meaning.specs.Effects.{slot_values};
ghost use Rattle.vba_meaning.specs.Defaults.{element_by, has_array, is_array, is_variable_place};
ghost use Rattle.run_memory.specs.Acts.{Acts};
ghost use Rattle.run_memory.specs.View.{memory_view, path_view, root_view, slot_view};

use arrays_udt::{PathStep, has_path, path_read};
use run_host::plains;
use run_memory::{Memory, Path, Root, Slot};
use std::alloc::Global;
use vba_base::{NoMemory, OrMemory};
use vba_values::{Bad, Value};

/// Whether a variable has what is at a place, or a With block: what an index gave is no place.
pub fn is_variable_place(root: &Root) -> bool
    ensures { result ≡ is_variable_place (root_view root.now) }
{
    match root {
        Root::Frame { .. } | Root::Project { .. } | Root::Instance { .. } | Root::Block { .. } =>
            true,
        Root::Object { .. } | Root::Item { .. } => false,
    }
}

/// Whether there is an array inside a value.
fn is_array_inside(value: &Value, steps: &[PathStep]) -> bool
    ensures { result ≡ is_array (path_value (view value.now) steps.now) }
{
    has_path(value, steps) && matches!(path_read(value, steps), Value::Array(_))
}

/// Whether there is an array at a place, whose elements are places.
pub fn has_array(memory: &Memory, alloc: Global, path: &Path) -> Result<bool, NoMemory>
    ensures { IfOk result (λ is. is ≡ has_array (path_view path.now) (memory_view memory.now)) }
{
    if !is_variable_place(&path.root) {
        return Ok(false);
    }
    let steps = path.plain_steps(alloc)?;
    let object = path.root.object_value();
    match memory.root_value(&path.root, &object) {
        Some(value) => Ok(is_array_inside(value, steps.as_slice())),
        None => Ok(false),
    }
}

/// The element with these numbers: an object among them gives way.
#[tactic(auto, using(run_memory::proofs::Refused::refused_then))]
pub fn element_by(
    memory: &Memory,
    alloc: Global,
    path: &Path,
    arguments: &[Slot],
) -> Result<Path, OrMemory<Bad>>
    ensures { Acts path_view result (memory_view memory.now) (element_by (path_view path.now) (slot_values (map slot_view arguments.now)) (memory_view memory.now)) }
{
    let numbers = plains(memory, alloc, arguments)?;
    memory.element_at(alloc, path, numbers.as_slice())
}

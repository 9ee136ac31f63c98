//! The parts of a module to its tree.

ghost use Rattle.std.specs.Prelude.{◌≡◌, [], map, IfOk};
ghost use Rattle.vba_module.specs.Blocks.{block_faults};
ghost use Rattle.vba_module.specs.Tree.{AreBracketed, parts_of_nodes};
ghost use Rattle.module_tree.specs.View.{tree_view};

use crate::bracketed::Bracketed;
use crate::progress::{Progress, take};
use crate::tree::ModuleTree;
use std::alloc::Global;
use vba_base::NoMemory;

/// The tree that brackets the parts of a module, which break S11 nowhere: an arm or an end belongs to
/// the nearest block of its kind ([MS-VBAL] 5.3, 5.4). It fails for want of memory alone, and goes
/// without recursion however deep blocks are nested.
pub fn bracket<P: Bracketed + Drop>(alloc: Global, parts: Vec<P>) -> Result<ModuleTree<P>, NoMemory>
    requires { block_faults [] (map P.view parts.items) ≡ [] }
    ensures bracketed { IfOk result (λ tree. AreBracketed [] (tree_view P.view tree)) }
    ensures parts { IfOk result (λ tree. parts_of_nodes (tree_view P.view tree) ≡ map P.view parts.items) }
{
    let mut progress = Progress {
        frames: Vec::new(alloc),
        read: Vec::new(alloc),
    };
    'parts: for part in parts {
        progress = take(alloc, progress, part)?;
    }
    let Progress { read, .. } = progress;
    Ok(ModuleTree { nodes: read })
}

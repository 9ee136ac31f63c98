//! The least refusal.

ghost use Rattle.std.specs.Prelude.{◌≡◌, None, IfOk};
ghost use Rattle.module_parts.specs.View.{parts_view};
ghost use Rattle.refusal_order.specs.Least.{least_of};
ghost use Rattle.vba_module.specs.Verdict.{part_violations};

use crate::headers::note_headers;
use crate::types::own_types;
use crate::walk::{pass_parts, start};
use module_parts::Part;
use refusal_order::note_both;
use std::alloc::Global;
use vba_base::{NoMemory, Refusal};

/// The least of the rules that the parts of a module break, in a class or a standard module: S11, openings without an end, and
/// ends, arms and Exits without their block; S12, parts that stand where they may not; and S14, headers of procedures and
/// events, and bounds, of a form that may not be. None where the parts break none of these.
///
/// It takes time in proportion to the parts, but that each part looks through the blocks that are open in its procedure, and
/// each parameter that is passed ByVal through the Types of the module. Single-line Ifs inside one another take stack.
#[tactic(auto, using(crate::proofs::Noted::all_noted))]
pub fn part_refusal(
    alloc: Global,
    parts: &[Part],
    is_class: bool,
) -> Result<Option<Refusal>, NoMemory>
    ensures { IfOk result (λ least. least ≡ least_of None (part_violations is_class (parts_view parts.now))) }
{
    let mut walk = start(alloc);
    pass_parts(is_class, parts, &mut walk)?;
    let types = own_types(alloc, parts)?;
    let mut headers = None;
    note_headers(parts, &types, &mut headers);
    let mut others = walk.misplaced;
    note_both(&mut others, headers);
    let mut least = walk.unmatched;
    note_both(&mut least, others);
    Ok(least)
}

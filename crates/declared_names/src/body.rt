//! The parts of a procedure.

ghost use Rattle.std.specs.Prelude.{◌≡◌, length};
ghost use Rattle.module_parts.specs.View.{part_view, parts_view};
ghost use Rattle.binder.specs.Declarations.{body_of};
ghost use Rattle.declared_names.specs.Entries.{is_procedure_end};
ghost use Rattle.declared_names.specs.Range.{range_items};

use crate::range::PartRange;
use module_parts::Part;
use vba_tree::LineTree;

/// Is it the end of a procedure?
pub(crate) fn is_procedure_end(part: &Part) -> bool
    ensures { result ≡ is_procedure_end (part_view part.now) }
{
    match part {
        Part::WholeLine(LineTree::ProcedureEnd(_)) => true,
        _ => false,
    }
}

/// How many parts stand before the end of a procedure.
#[tactic(auto, using(crate::proofs::Bodies::body_goes_on, crate::proofs::Bodies::body_ends))]
fn body_length(parts: &[Part]) -> usize
    ensures { result ≡ length (body_of (parts_view parts.now)) }
{
    for (number, part) in parts.iter().enumerate() {
        if is_procedure_end(part) {
            return number;
        }
    }
    parts.len()
}

/// The parts up to the end of a procedure.
#[tactic(auto, using(crate::proofs::Bodies::body_is, crate::proofs::Bodies::body_fits))]
pub(crate) fn body_of(behind: PartRange<'_>) -> PartRange<'_>
    ensures { parts_view (range_items result) ≡ body_of (parts_view (range_items behind.entry)) }
{
    let length = body_length(behind.slice());
    behind.first(length)
}

//! What ReDim gives to arrays that may not get it.

ghost use Rattle.std.specs.Prelude.{◌≡◌, Some, OnOk, option_map};
ghost use Rattle.bound_project.specs.DraftView.{draft_view};
ghost use Rattle.bound_project.specs.View.{declared_view};
ghost use Rattle.statement_nodes.specs.Resizing.{MarksBounds, is_resized};

use bound_calls::{is_same_declared, is_variant, push_node};
use bound_project::{DeclaredType, Draft, ElementType, NodeKind};
use vba_base::{NoMemory, Place, Refusal};

/// Are these the elements that an array has, where any are written?
fn are_elements(element: ElementType, written: Option<DeclaredType>) -> bool
    ensures { result ≡ is_resized (Some (DeclaredType.ArrayOf element)) (option_map declared_view written) }
{
    match written {
        None => true,
        Some(written) => is_same_declared(written, DeclaredType::Plain(element)),
    }
}

/// Does a place of a type get such elements, where any are written?
#[tactic(auto, using(crate::proofs::Resizing::resizes_array, crate::proofs::Resizing::resizes_plain))]
fn may_resize(of: DeclaredType, written: Option<DeclaredType>) -> bool
    ensures { result ≡ is_resized (Some of) (option_map declared_view written) }
{
    match of {
        DeclaredType::ArrayOf(element) => are_elements(element, written),
        DeclaredType::Plain(_) => is_variant(of),
    }
}

/// The same of what may be no place, and so of no type.
fn is_resized(of: Option<DeclaredType>, written: Option<DeclaredType>) -> bool
    ensures { result ≡ is_resized of (option_map declared_view written) }
{
    match of {
        None => false,
        Some(of) => may_resize(of, written),
    }
}

/// Marks the last of so many bounds, which were pushed, at the place of what doesn't get such elements.
pub fn mark_bounds(
    draft: &mut Draft,
    bounds: u32,
    of: Option<DeclaredType>,
    written: Option<DeclaredType>,
    place: Place,
) -> Result<(), NoMemory>
    ensures { OnOk result (MarksBounds of (option_map declared_view written) place bounds (draft_view draft.old) (draft_view draft.new)) }
{
    if bounds == 0 {
        return Ok(());
    }
    if is_resized(of, written) {
        return Ok(());
    }
    let variant = DeclaredType::Plain(ElementType::Variant);
    let broken = NodeKind::Marked {
        broken: Refusal { rule: 27, place },
        values: 1,
    };
    push_node(draft, broken, variant, place)
}

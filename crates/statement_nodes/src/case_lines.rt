//! Tests of Case lines, and the value of the Select Case that stands open.

ghost use Rattle.std.specs.Prelude.{◌≡◌, ◌∷◌, IfSome, OnOk};
ghost use Rattle.statement_nodes.specs.Actions.{Selects};
ghost use Rattle.bound_project.specs.DraftView.{draft_view};
ghost use Rattle.bound_project.specs.Pieces as piece;
ghost use Rattle.statement_numbers.specs.View.{standing_view};
ghost use Rattle.vba_expression.specs.View.{view as expression_view};

use crate::innermost::{innermost_block, opening_line};
use crate::values::blank_node;
use bound_project::{DeclaredType, Draft, Node, NodeKind};
use statement_numbers::Standing;
use vba_base::{NoMemory, Place};
use vba_expression::Expression;
use vba_tree::BlockLine;
use vba_values::OpKind;

/// Begins a test.
pub fn begin_test(draft: &mut Draft) -> Result<(), NoMemory>
    ensures { OnOk result (draft_view draft.new ≡ record (draft_view draft.old) { pieces = piece.a_test_begun ∷ (draft_view draft.old).pieces }) }
{
    draft.push(Node {
        kind: NodeKind::TestBegins,
        ..blank_node()
    })
}

/// Ends a test of one value, which is told at a place.
pub fn end_test(
    draft: &mut Draft,
    operator: OpKind,
    at: Place,
    of: DeclaredType,
) -> Result<(), NoMemory>
    ensures { OnOk result (draft_view draft.new ≡ record (draft_view draft.old) {
      pieces = piece.of_test (λ e. piece.a_test_is operator at (piece.as_operand of e)) (draft_view draft.old).pieces;
    }) }
{
    draft.push(Node {
        kind: NodeKind::TestIs { operator, of },
        place: at,
        ..blank_node()
    })
}

/// Ends a test of two values, each of which is told at a place.
pub fn end_range(
    draft: &mut Draft,
    low: DeclaredType,
    high: DeclaredType,
    low_at: Place,
    high_at: Place,
) -> Result<(), NoMemory>
    ensures { OnOk result (draft_view draft.new ≡ record (draft_view draft.old) {
      pieces = piece.of_range (λ a b. piece.a_test_range (piece.as_operand low a) (piece.as_operand high b) low_at high_at) (draft_view draft.old).pieces;
    }) }
{
    draft.push(Node {
        kind: NodeKind::TestRange { low, high, high_at },
        place: low_at,
        ..blank_node()
    })
}

/// The value of the Select Case that stands open.
pub fn selected_value<'a>(standing: Standing<'a>) -> Option<&'a Expression>
    ensures { IfSome result (λ value. Selects (standing_view standing.entry).around (expression_view value.now)) }
{
    let Some(opened) = innermost_block(standing) else {
        return None;
    };
    match opening_line(standing, opened) {
        Some(BlockLine::SelectCase { value, .. }) => Some(value),
        _ => None,
    }
}

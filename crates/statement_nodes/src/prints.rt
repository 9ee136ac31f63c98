//! Items of Debug.Print.

ghost use Rattle.std.specs.Prelude.{◌≡◌, Option, IfOk, OnOk, map, option_map};
ghost use Rattle.statement_nodes.specs.Reads.{ItemPushed, Read};
ghost use Rattle.bound_calls.specs.bound_forms.specs.StatementsBound as plain;
ghost use Rattle.bound_project.specs.DraftView.{draft_view};
ghost use Rattle.bound_project.specs.Drafts.{Drafted};
ghost use Rattle.bound_project.specs.Expressions.{Prints, zone};
ghost use Rattle.bound_project.specs.Pieces.{a_value_shown, of_value, prints_off};
ghost use Rattle.vba_tree.specs.View.{print_item_view};

use crate::values::blank_node;
use bound_project::{Draft, Node, NodeKind};
use statement_numbers::plus;
use vba_base::NoMemory;
use vba_tree::{PrintItem, PrintMark};

/// Shows the value that was pushed.
pub fn show(draft: &mut Draft) -> Result<(), NoMemory>
    ensures { OnOk result (draft_view draft.new ≡ record (draft_view draft.old) { pieces = of_value (λ e. a_value_shown e) (draft_view draft.old).pieces }) }
{
    draft.push(Node {
        kind: NodeKind::Shown,
        ..blank_node()
    })
}

/// Pushes a comma.
#[tactic(auto, using(crate::proofs::Items::zone_pushed))]
fn push_zone(draft: &mut Draft) -> Result<(), NoMemory>
    ensures { OnOk result ((rest : Option Prints) → ItemPushed Prints prints_off (option_map zone rest) rest (draft_view draft.old) (draft_view draft.new)) }
{
    draft.push(Node {
        kind: NodeKind::Zone,
        ..blank_node()
    })
}

/// Pushes what a mark shows, behind so many items; answers how many there are then.
#[tactic(auto, using(crate::proofs::Items::read_more))]
pub fn push_mark(draft: &mut Draft, mark: PrintMark, before: u32) -> Result<u32, NoMemory>
    ensures { IfOk result (λ count. (all rest : Option Prints) (base : Drafted)
        → Read Prints prints_off all (plain.mark_shown mark rest) before base (draft_view draft.old)
        → Read Prints prints_off all rest count base (draft_view draft.new)) }
{
    match mark {
        PrintMark::Semicolon => Ok(before),
        PrintMark::Comma => {
            push_zone(draft)?;
            plus(before, 1)
        }
    }
}

/// Is the line finished? A mark at its end leaves it open.
#[tactic(auto, using(crate::proofs::Items::ends_is))]
pub fn ends_line(items: &[PrintItem]) -> bool
    ensures { result ≡ plain.ends_line (map print_item_view items.now) }
{
    let mut ends = true;
    let mut left = items;
    'items: while let [item, behind @ ..] = left {
        ends = item.value.is_some();
        left = behind;
    }
    ends
}

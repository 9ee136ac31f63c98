ghost use Rattle.std.specs.Prelude.{◌≡◌, ◌∷◌, IfOk, OnOk, reverse};
ghost use Rattle.bound_project.specs.DraftView.{draft_view};
ghost use Rattle.bound_forms.specs.Terms.{Env};
ghost use Rattle.bound_calls.specs.Standing.{AllNamed, TermNamed};
ghost use Rattle.bound_calls.specs.Steps.{Goes, PushesLeft, taken};

use crate::references::{push_operand, push_reference};
use crate::term::{Item, Operand, Tree};
use bound_declarations::NotYet;
use bound_project::Draft;
use std::alloc::Global;
use vba_base::{NoMemory, OrMemory};

/// Puts an item on top.
pub fn put_item<'a>(stack: &mut Vec<Item<'a>>, item: Item<'a>) -> Result<(), NoMemory>
    ensures { OnOk result (reverse stack.new.items ≡ item.entry ∷ reverse stack.old.items) }
{
    stack.push(item)?;
    Ok(())
}

/// Takes the item on top, if there is one.
pub fn take_item<'a>(stack: &mut Vec<Item<'a>>) -> Option<Item<'a>>
    ensures { reverse stack.old.items ≡ taken result (reverse stack.new.items) }
{
    stack.pop()
}

/// Pushes a left operand: as a reference, or as an operand.
fn push_left<'a>(
    alloc: Global,
    draft: &mut Draft,
    tree: Tree<'a>,
    is_reference: bool,
) -> Result<Operand, OrMemory<NotYet>>
    requires { TermNamed (draft_view draft.old).tables tree.term }
    ensures { IfOk result (λ left. PushesLeft tree.entry (draft_view draft.old) (draft_view draft.new) left) }
{
    if is_reference {
        let of = push_reference(alloc, draft, tree)?;
        return Ok(Operand {
            of: Some(of),
            is_reference,
        });
    }
    let of = push_operand(alloc, draft, tree)?;
    Ok(Operand { of, is_reference })
}

/// A tree on top is a left operand, which is pushed: as a reference, or as an operand.
pub fn settle<'a>(
    alloc: Global,
    draft: &mut Draft,
    stack: &mut Vec<Item<'a>>,
    is_reference: bool,
) -> Result<(), OrMemory<NotYet>>
    requires { AllNamed (draft_view draft.old).tables (reverse stack.old.items) }
    ensures { OnOk result ((env : Env) → Goes env (draft_view draft.old) (reverse stack.old.items) (draft_view draft.new) (reverse stack.new.items) (λ is. is)) }
{
    match take_item(stack) {
        None => Ok(()),
        Some(Item::Tree(tree)) => {
            let left = push_left(alloc, draft, tree, is_reference)?;
            put_item(stack, Item::Operand(left))?;
            Ok(())
        }
        Some(item) => Ok(put_item(stack, item)?),
    }
}

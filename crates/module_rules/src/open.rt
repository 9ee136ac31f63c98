//! The blocks that are open, and the nearest one of a kind.

ghost use Rattle.std.specs.Prelude.{◌≡◌, true, is_some, option_map};
ghost use Rattle.module_parts.specs.Brackets.{kind_view};
ghost use Rattle.module_rules.specs.Found.{noted, outside_nearest, inside_nearest};
ghost use Rattle.module_rules.specs.Seen.{open_view, stack};
ghost use Rattle.vba_module.specs.Blocks as blocks;

use crate::kinds::{is_outer, is_same_kind};
use crate::noting::note_place;
use module_parts::BlockKind;
use vba_base::{Place, Refusal};

/// An open block: its kind, the place of its opening, and whether its last arm was read.
#[derive(Clone, Copy, Debug, PartialEq, Eq)]
pub struct Open {
    pub kind: BlockKind,
    pub place: Place,
    pub is_last: bool,
}

/// The nearest open one of a kind; a block is looked for in its procedure alone.
#[tactic(auto, using(crate::proofs::Stacks::found_deeper))]
pub fn nearest(opened: &[Open], kind: BlockKind) -> Option<Open>
    ensures { option_map open_view result ≡ option_map (λ near. near.found) (blocks.nearest (kind_view kind) (stack opened.now)) }
{
    let mut left = opened;
    'looking: while let Some((innermost, others)) = left.split_last() {
        if is_same_kind(kind, innermost.kind) {
            return Some(*innermost);
        }
        if is_outer(innermost.kind) && !is_outer(kind) {
            return None;
        }
        left = others;
    }
    None
}

/// Closes the nearest one of a kind. Those inside it are without their end (S11).
pub fn close_nearest(opened: &mut Vec<Open>, kind: BlockKind, least: &mut Option<Refusal>)
    requires { is_some (blocks.nearest (kind_view kind) (stack opened.old.items)) ≡ true }
    ensures opened { stack opened.new.items ≡ outside_nearest (blocks.nearest (kind_view kind) (stack opened.old.items)) }
    ensures least { least.new ≡ noted 11 least.old (inside_nearest (blocks.nearest (kind_view kind) (stack opened.old.items))) }
{
    'closing: while let Some(innermost) = opened.pop() {
        if is_same_kind(kind, innermost.kind) {
            return;
        }
        note_place(least, true, 11, innermost.place);
    }
}

/// Notes each one that is open at the end of the module: it is without its end (S11).
pub fn note_unclosed(opened: &mut Vec<Open>, least: &mut Option<Refusal>)
    ensures { least.new ≡ noted 11 least.old (blocks.places_of (stack opened.old.items)) }
{
    'closing: while let Some(innermost) = opened.pop() {
        note_place(least, true, 11, innermost.place);
    }
}

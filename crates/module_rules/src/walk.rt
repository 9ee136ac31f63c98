//! The walk over the parts of a module that finds where S11 and S12 are broken.

ghost use Rattle.std.specs.Prelude.{◌≡◌, OnOk, IfOk, []};
ghost use Rattle.module_parts.specs.View.{part_view, parts_view};
ghost use Rattle.module_rules.specs.Found.{noted};
ghost use Rattle.module_rules.specs.Seen.{before_view, stack};
ghost use Rattle.vba_module.specs.Blocks as blocks;
ghost use Rattle.vba_module.specs.Misplaced as places;
ghost use Rattle.vba_module.specs.Parts as parts;

use crate::before::{Before, go_behind, nothing_before};
use crate::brackets::pass_brackets;
use crate::inside::inside_of;
use crate::misplaced::note_misplaced;
use crate::open::{Open, note_unclosed};
use module_parts::{Part, place_of};
use std::alloc::Global;
use vba_base::{NoMemory, Refusal};

/// What is open before the next part, what stood before it, and the least refusals by S11 and by S12 that were found.
#[derive(Drop)]
pub struct Walk {
    pub opened: Vec<Open>,
    pub before: Before,
    pub unmatched: Option<Refusal>,
    pub misplaced: Option<Refusal>,
}

/// At the front of a module.
pub fn start(alloc: Global) -> Walk
    ensures opened { stack result.opened.items ≡ [] }
    ensures before { before_view result.before ≡ places.nothing_before }
    ensures unmatched { result.unmatched ≡ None }
    ensures misplaced { result.misplaced ≡ None }
{
    Walk {
        opened: Vec::new(alloc),
        before: nothing_before(),
        unmatched: None,
        misplaced: None,
    }
}

/// Goes behind a part.
fn pass_part(is_class: bool, part: &Part, walk: &mut Walk) -> Result<(), NoMemory>
    ensures opened { OnOk result (stack walk.new.opened.items
        ≡ (blocks.step (parts.place_of (part_view part.now)) (stack walk.old.opened.items) (blocks.role_of (part_view part.now))).opened) }
    ensures before { OnOk result (before_view walk.new.before
        ≡ places.behind (before_view walk.old.before) (places.inside_of (stack walk.old.opened.items)) (part_view part.now)) }
    ensures unmatched { OnOk result (walk.new.unmatched ≡ noted 11 walk.old.unmatched
        (blocks.step (parts.place_of (part_view part.now)) (stack walk.old.opened.items) (blocks.role_of (part_view part.now))).faults) }
    ensures misplaced { OnOk result (walk.new.misplaced ≡ noted 12 walk.old.misplaced
        (places.misplaced is_class (before_view walk.old.before) (places.inside_of (stack walk.old.opened.items)) (parts.place_of (part_view part.now)) (part_view part.now))) }
{
    let place = place_of(part);
    let inside = inside_of(walk.opened.as_slice());
    note_misplaced(
        is_class,
        &walk.before,
        inside,
        part,
        place,
        &mut walk.misplaced,
    );
    go_behind(&mut walk.before, inside, part);
    pass_brackets(&mut walk.opened, part, place, &mut walk.unmatched)
}

/// Goes behind all parts, to the end of the module.
pub fn pass_parts(is_class: bool, parts: &[Part], walk: &mut Walk) -> Result<(), NoMemory>
    ensures unmatched { OnOk result (walk.new.unmatched ≡ noted 11 walk.old.unmatched (blocks.block_faults (stack walk.old.opened.items) (parts_view parts.now))) }
    ensures misplaced { OnOk result (walk.new.misplaced ≡ noted 12 walk.old.misplaced (places.all_misplaced is_class (before_view walk.old.before) (stack walk.old.opened.items) (parts_view parts.now))) }
{
    for part in parts {
        pass_part(is_class, part, walk)?;
    }
    note_unclosed(&mut walk.opened, &mut walk.unmatched);
    Ok(())
}

//! Where control goes on.

ghost use Rattle.std.specs.Prelude.{◌≡◌, IfOk};
ghost use Rattle.module_parts.specs.View.{parts_view};
ghost use Rattle.binder.specs.Numbering as numbering;
ghost use Rattle.statement_numbers.specs.View.{awaited_view, sought_view};

use crate::awaited::Awaited;
use crate::counts::part_count;
use crate::step::{Step, step_of};
use crate::sums::plus;
use module_parts::{BlockKind, Part, bracket_of};
use vba_base::NoMemory;

/// What is looked for in the parts that follow, so many blocks deep inside what is passed.
#[derive(Clone, Copy)]
pub enum Sought {
    /// What runs next where control stands here: the arms that follow are passed.
    Here,
    /// The next arm of the block, or what stands behind it.
    Arm(u32),
    /// What stands behind the block.
    BehindBlock(u32),
    /// What stands behind the nearest block of a kind.
    BehindKind { kind: BlockKind, depth: u32 },
}

/// The number that is sought in these parts, of which the first has this number.
pub fn number_sought(
    what: Sought,
    awaited: Awaited,
    number: u32,
    parts: &[Part],
) -> Result<u32, NoMemory>
    ensures { IfOk result (λ n. n ≡ numbering.sought (sought_view what) (awaited_view awaited.entry) number (parts_view parts.now)) }
{
    let mut what = what;
    let mut awaited = awaited;
    let mut number = number;
    let mut left = parts;
    'seeking: while let [part, rest @ ..] = left {
        let count = part_count(part)?;
        match step_of(what, awaited, bracket_of(part), count)? {
            Step::Stops => return Ok(number),
            Step::GoesOn(what_next, awaited_next) => {
                what = what_next;
                awaited = awaited_next;
            }
        }
        number = plus(number, count)?;
        left = rest;
    }
    Ok(number)
}

//! Parts in their place, and the numbers that control goes on at from there.

ghost use Rattle.std.specs.Prelude.{◌<◌, length};

use crate::awaited::behind;
use crate::counts::part_count;
use crate::opened::{Opened, has_kind};
use crate::sought::{Sought, number_sought};
use crate::sums::plus;
use module_parts::{BlockKind, Bracket, Part, bracket_of};
use vba_base::NoMemory;

/// A part of a body, by its place there: the number of its statement, and the blocks that stand open before it, the
/// innermost last.
#[derive(Clone, Copy)]
pub struct Standing<'a> {
    pub body: &'a [Part],
    pub at: usize,
    pub number: u32,
    pub around: &'a [Opened],
    pub ghost in_body: { at < length body.now },
}

impl<'a> Standing<'a> {
    ghost use Rattle.std.specs.Prelude.{◌≡◌, IfOk};
    ghost use Rattle.binder.specs.Numbering as numbering;
    ghost use Rattle.binder.specs.Blocks.{next_number};
    ghost use Rattle.module_parts.specs.Brackets.{IsRole};
    ghost use Rattle.module_parts.specs.View.{part_view, parts_view};
    ghost use Rattle.statement_numbers.specs.View.{sought_view, standing_view};
    ghost use Rattle.vba_module.specs.Blocks.{role_of};

    /// The part.
    pub fn part(&self) -> &'a Part
        ensures { part_view result.now ≡ (standing_view self.now).part }
    {
        &self.body[self.at]
    }

    /// The parts that follow it.
    pub fn rest(&self) -> &'a [Part]
        ensures { parts_view result.now ≡ (standing_view self.now).rest }
    {
        &self.body[self.at + 1..]
    }

    /// What the part brackets.
    pub fn bracket(&self) -> Bracket
        ensures { IsRole result (role_of (standing_view self.now).part) }
    {
        bracket_of(self.part())
    }

    /// The number that is sought behind the part, whose block is round it where it opens one.
    pub fn sought_behind(&self, what: Sought) -> Result<u32, NoMemory>
        ensures { IfOk result (λ n. n ≡ numbering.sought_behind (sought_view what) (standing_view self.now)) }
    {
        let number = plus(self.number, part_count(self.part())?)?;
        number_sought(
            what,
            behind(self.bracket(), self.around),
            number,
            self.rest(),
        )
    }

    /// What runs behind the part: behind a header its block, but behind Select Case what stands behind that.
    pub fn next_number(&self) -> Result<u32, NoMemory>
        ensures { IfOk result (λ n. n ≡ next_number (standing_view self.now)) }
    {
        match self.bracket() {
            Bracket::Opens(BlockKind::Select) => self.sought_behind(Sought::BehindBlock(0)),
            _ => self.sought_behind(Sought::Here),
        }
    }

    /// Does a With block stand round the part?
    pub fn in_with(&self) -> bool
        ensures { result ≡ numbering.in_with (standing_view self.now) }
    {
        has_kind(self.around, BlockKind::With)
    }
}

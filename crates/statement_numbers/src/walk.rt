//! A walk through the parts of a body, one after another.

use crate::counts::part_count;
use crate::opened::{Opened, pass_part};
use crate::standing::Standing;
use crate::sums::plus;
use module_parts::{Part, bracket_of};
use std::alloc::Global;
use vba_base::NoMemory;

/// A walk through the parts of a body: which part is next, the number of its statement, and the blocks that stand open
/// before it, the innermost last.
#[derive(Drop)]
pub struct Walk<'a> {
    pub body: &'a [Part],
    pub at: usize,
    pub number: u32,
    pub opened: Vec<Opened>,
}

impl<'a> Walk<'a> {
    ghost use Rattle.std.specs.Prelude.{◌≡◌, [], ◌∷◌, drop, MatchOption, OnOk};
    ghost use Rattle.binder.specs.Numbering as numbering;
    ghost use Rattle.module_parts.specs.View.{parts_view};
    ghost use Rattle.statement_numbers.specs.View.{standing_view, walk_view};

    /// At the front of a body.
    pub fn start(alloc: Global, body: &'a [Part]) -> Walk<'a>
        ensures { walk_view result ≡ numbering.standings_in (parts_view body.now) }
    {
        Walk {
            body,
            at: 0,
            number: 0,
            opened: Vec::new(alloc),
        }
    }

    /// The part that is next, in its place.
    pub fn standing(&self) -> Option<Standing<'_>>
        ensures { MatchOption result (walk_view self.now ≡ []) (λ s. walk_view self.now ≡ standing_view s ∷ drop 1 (walk_view self.now)) }
    {
        if self.at < self.body.len() {
            Some(Standing {
                body: self.body,
                at: self.at,
                number: self.number,
                around: self.opened.as_slice(),
            })
        } else {
            None
        }
    }

    /// Goes behind the part that is next.
    pub fn advance(&mut self) -> Result<(), NoMemory>
        ensures { OnOk result (walk_view self.new ≡ drop 1 (walk_view self.old)) }
    {
        let Some(part) = self.body.get(self.at) else {
            return Ok(());
        };
        let count = part_count(part)?;
        pass_part(
            &mut self.opened,
            self.body,
            self.at,
            bracket_of(part),
            self.number,
        )?;
        self.number = plus(self.number, count)?;
        self.at += 1;
        Ok(())
    }
}

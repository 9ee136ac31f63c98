//! What trees are made of.

ghost use Rattle.module_parts.specs.Brackets.{IsRole};
ghost use Rattle.module_parts.specs.View.{part_view};
ghost use Rattle.vba_module.specs.Blocks.{role_of};
ghost use Rattle.vba_module.specs.Parts.{Part as PlainPart};

use module_parts::{Bracket, Part, bracket_of};

/// What trees bracket: the parts of a module. A tree sees nothing else of them, so it stands whatever
/// they are made of.
pub trait Bracketed {
    // the plain part that it stands for
    ghost view: { Self → PlainPart };

    /// What it brackets.
    fn bracket(&self) -> Bracket
        ensures { IsRole result (role_of (view self.now)) };
}

impl Bracketed for Part {
    ghost view = { part_view };

    fn bracket(&self) -> Bracket {
        bracket_of(self)
    }
}

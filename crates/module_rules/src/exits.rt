//! Exits that leave nothing.

ghost use Rattle.std.specs.Prelude.{◌≡◌};
ghost use Rattle.module_rules.specs.Found.{noted};
ghost use Rattle.module_rules.specs.Seen.{stack};
ghost use Rattle.vba_module.specs.Blocks.{exit_faults, exits_of};
ghost use Rattle.vba_tree.specs.Tree.{simple};
ghost use Rattle.vba_tree.specs.View.{simple_view};

use crate::kinds::kind_left;
use crate::noting::note_place;
use crate::open::{Open, nearest};
use vba_base::Refusal;
use vba_tree::SimpleStatement;

/// Notes a statement that is an Exit and stands in nothing that it leaves (S11). It takes time in proportion to the blocks
/// that are open in the procedure.
pub fn note_exit(opened: &[Open], statement: &SimpleStatement, least: &mut Option<Refusal>)
    ensures { least.new ≡ noted 11 least.old (exit_faults (stack opened.now) (exits_of (simple (simple_view statement.now)))) }
{
    if let SimpleStatement::Exit {
        exit_word,
        kind,
        ..
    } = statement
    {
        let is_outside = nearest(opened, kind_left(*kind)).is_none();
        note_place(least, is_outside, 11, exit_word.place);
    }
}

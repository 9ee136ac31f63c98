//! Where statements begin.

ghost use Rattle.std.specs.Prelude.{◌≡◌};
ghost use Rattle.vba_module.specs.Misplaced.{statement_place};
ghost use Rattle.vba_tree.specs.View.{statement_view};

use crate::simple::simple_place;
use vba_base::Place;
use vba_tree::Statement;

/// The place of the first token of a statement.
pub fn statement_place(statement: &Statement) -> Place
    ensures { result ≡ statement_place (statement_view statement.now) }
{
    match statement {
        Statement::Simple(simple) => simple_place(simple),
        Statement::SingleLineIf { if_word, .. } => if_word.place,
        Statement::SingleLineIfElse { if_word, .. } => if_word.place,
    }
}

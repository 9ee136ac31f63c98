//! S12 at the statements of procedures.

ghost use Rattle.std.specs.Prelude.{◌≡◌, map};
ghost use Rattle.module_rules.specs.Found.{noted};
ghost use Rattle.module_rules.specs.Seen.{variable_with_mark};
ghost use Rattle.vba_module.specs.Misplaced as places;
ghost use Rattle.vba_tree.specs.Tree.{simple};
ghost use Rattle.vba_tree.specs.View.{listed_view, simple_view, variable_view};

use crate::noting::note_place;
use vba_base::{Place, Refusal};
use vba_lexer::Token;
use vba_tree::{Listed, Next, SimpleStatement, Variable, VariableWord};

/// Notes a word that may not stand there, where it is written.
fn note_word(word: Option<Token>, least: &mut Option<Refusal>)
    ensures { least.new ≡ noted 12 least.old (places.word_place word) }
{
    if let Some(token) = word {
        note_place(least, true, 12, token.place);
    }
}

/// Notes each WithEvents of variables behind their commas.
#[tactic(auto, using(crate::proofs::Noted::noted_append, std::proofs::lemmas::List::drop_more))]
fn note_with_events_of_others(others: &[Next<Variable>], least: &mut Option<Refusal>)
    ensures { least.new ≡ noted 12 least.old (places.with_events_others (map variable_with_mark others.now)) }
{
    for next in others {
        note_word(next.item.with_events_word, least);
    }
}

/// Notes each WithEvents of variables, where none may stand.
#[tactic(auto, using(crate::proofs::Noted::noted_append))]
pub fn note_with_events(variables: &Listed<Variable>, least: &mut Option<Refusal>)
    ensures { least.new ≡ noted 12 least.old (places.with_events (listed_view variable_view variables.now)) }
{
    note_word(variables.first.with_events_word, least);
    note_with_events_of_others(variables.others.as_slice(), least);
}

/// Declares the word variables of a procedure?
fn is_local(word: VariableWord) -> bool
    ensures { result ≡ places.is_local word }
{
    match word {
        VariableWord::Dim | VariableWord::Static => true,
        VariableWord::Public | VariableWord::Private | VariableWord::Global => false,
    }
}

/// Notes where a statement that is no single-line If, inside one or not, may not stand in a procedure: Public variables and
/// constants, WithEvents, and a line of a block in a single-line If (S12).
#[tactic(auto, using(crate::proofs::Noted::noted_append))]
pub fn note_misplaced_in_body(
    statement: &SimpleStatement,
    place: Place,
    is_in_if: bool,
    least: &mut Option<Refusal>,
)
    ensures { least.new ≡ noted 12 least.old (places.in_body place is_in_if (simple (simple_view statement.now))) }
{
    match statement {
        SimpleStatement::Variables(variables) => {
            let is_outer = !is_local(variables.word);
            note_place(least, is_outer, 12, variables.word_token.place);
            note_with_events(&variables.variables, least);
        }
        SimpleStatement::Constants(constants) => {
            note_place(least, constants.access.is_some(), 12, place);
        }
        SimpleStatement::BlockLine(_) => note_place(least, is_in_if, 12, place),
        _ => {}
    }
}

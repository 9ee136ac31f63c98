//! S23 at a name: what it means, and its suffix.

ghost use Rattle.std.specs.Prelude.{◌≡◌, ◌++◌, option_map};
ghost use Rattle.declared_names.specs.binder.specs.LeftOut.{meaning_left_out, suffix_left_out};
ghost use Rattle.declared_names.specs.Outside.{the_outside};
ghost use Rattle.declared_names.specs.View.{meant_view};
ghost use Rattle.use_rules.specs.Asked.{at_suffix, rule_of};
ghost use Rattle.use_rules.specs.Found.{noted};

use crate::noting::note_place;
use crate::question::Question;
use declared_names::{Meant, is_left_out_name};
use vba_base::Refusal;
use vba_lexer::TypeSuffix;
use vba_words::Identifier;

/// Notes a name with the suffix of a Single or a Double.
pub fn note_suffix(name: &Identifier, least: &mut Option<Refusal>)
    ensures { least.new ≡ noted 23 least.old (suffix_left_out name.now) }
{
    match name.suffix {
        Some(TypeSuffix::Single | TypeSuffix::Double) => {
            note_place(least, true, 23, name.token.place)
        }
        _ => {}
    }
}

/// The same, where it is asked for.
pub fn note_suffix_asked(question: Question, name: &Identifier, least: &mut Option<Refusal>)
    ensures { least.new ≡ noted (rule_of question) least.old (at_suffix question name.now) }
{
    match question {
        Question::IsUnknown { .. } => {}
        Question::IsLeftOut => note_suffix(name, least),
    }
}

/// Notes a name that means what the library leaves out.
fn note_meaning(meant: Option<Meant>, name: &Identifier, least: &mut Option<Refusal>)
    ensures { least.new ≡ noted 23 least.old (meaning_left_out the_outside (option_map meant_view meant.entry) name.now) }
{
    match meant {
        Some(Meant::OfLibrary) => {
            if is_left_out_name(&name.name) {
                note_place(least, true, 23, name.token.place);
            }
        }
        _ => {}
    }
}

/// Notes a name that is left out, by what it means and by its suffix.
#[tactic(auto, using(crate::proofs::Noted::noted_append))]
pub fn note_left_out(meant: Option<Meant>, name: &Identifier, least: &mut Option<Refusal>)
    ensures { least.new ≡ noted 23 least.old (meaning_left_out the_outside (option_map meant_view meant.entry) name.now ++ suffix_left_out name.now) }
{
    note_meaning(meant, name, least);
    note_suffix(name, least);
}

//! Lines of a source to trees or refusals.

ghost use Rattle.std.specs.Prelude.{◌≡◌, Some, IfOk, IfErr};
ghost use Rattle.vba_grammar.specs.Lines.{line_of};
ghost use Rattle.vba_lexer.specs.Inside.{LiesIn};
ghost use Rattle.vba_module.specs.Outside.{form_of};
ghost use Rattle.vba_module.specs.Parts as parts;
ghost use Rattle.vba_module.specs.Verdict as verdict;
ghost use Rattle.vba_parser.specs.Parsed.{IsRefused, IsRefusedUnspelled};
ghost use Rattle.vba_tree.specs.Fitting.{IsReadAs};
ghost use Rattle.vba_tree.specs.Spelling.{spell, tokens_of};
ghost use Rattle.vba_tree.specs.View.{view};
ghost use Rattle.vba_words.specs.Readings as readings;

use crate::form::form_place;
use crate::line::read_line;
use std::alloc::Global;
use vba_base::{NoMemory, OrMemory, Place, Refusal, Units};
use vba_lexer::Line;
use vba_tree::LineTree;
use vba_words::{ReadToken, read_tokens};

/// The tree of a line of a source, whose tokens have to lie in it: the one tree of the grammar that has these tokens and fits.
///
/// Answers a tree exactly where there is one (`line_of` finds it), and refuses the line exactly where no tree of the
/// grammar's form has its tokens, whether it would fit or not: by S13 at the first word or mark of a form that the profile
/// hasn't, and by S10 at the line's first token where no such form stands there. Only want of memory says nothing of the
/// line.
#[tactic(auto, using(crate::proofs::Related::is_spelled))]
pub fn parse_line(alloc: Global, source: &Units, line: &Line) -> Result<LineTree, OrMemory<Refusal>>
    requires { LiesIn source.now line.now }
    ensures tree { IfOk result (λ tree. line_of (readings.read_line source.now line.now.tokens.items) ≡ Some (view tree)) }
    ensures read { IfOk result (λ tree. IsReadAs (readings.read_line source.now line.now.tokens.items) (view tree)) }
    ensures spelled { IfOk result (λ tree. tokens_of (spell (view tree)) ≡ line.now.tokens.items) }
    ensures unspelled { IfErr result (IsRefusedUnspelled (readings.read_line source.now line.now.tokens.items)) }
    ensures refused { IfErr result (IsRefused (readings.read_line source.now line.now.tokens.items)) }
{
    let tokens = read_tokens(alloc, source, line.tokens.as_slice())?;
    match read_line(alloc, tokens.as_slice())? {
        Some(tree) => Ok(tree),
        None => Err(OrMemory::Fault(refusal_of(alloc, tokens.as_slice())?)),
    }
}

/// The refusal of a line with these tokens that has no tree.
fn refusal_of(alloc: Global, tokens: &[ReadToken]) -> Result<Refusal, NoMemory>
    ensures { IfOk result (λ refusal. refusal ≡ verdict.unread tokens.now (form_of tokens.now)) }
{
    Ok(match form_place(alloc, tokens)? {
        Some(place) => Refusal { rule: 13, place },
        None => Refusal {
            rule: 10,
            place: first_place(tokens),
        },
    })
}

/// The place of the first token.
fn first_place(tokens: &[ReadToken]) -> Place
    ensures { result ≡ parts.first_place parts.nowhere tokens.now }
{
    match tokens {
        [] => Place {
            module: 0,
            line: 0,
            column: 0,
        },
        [first, ..] => first.token.place,
    }
}

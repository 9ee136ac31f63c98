//! Reading a statement other than a single-line If.

ghost use Rattle.std.specs.Prelude.{◌≡◌, IfOk, option_map};
ghost use Rattle.vba_tree.specs.View.{simple_view};
ghost use Rattle.vba_grammar.specs.Front.{ending};
ghost use Rattle.vba_grammar.specs.Statements.{kept_at, simple_at};
ghost use Rattle.vba_statements.specs.Kept.{unless_me, first_word};

use crate::assignment::read_free;
use crate::kept::read_kept;
use std::alloc::Global;
use vba_base::NoMemory;
use vba_clauses::ends;
use vba_lexer::Token;
use vba_tree::SimpleStatement;
use vba_words::{Keyword, ReadToken, Reading};

/// The kept word that a statement begins with; `Me` begins a place.
fn first_word(reading: &Reading) -> Option<Keyword>
    ensures { result ≡ first_word reading.now }
{
    match reading {
        Reading::Keyword(keyword) => unless_me(*keyword),
        Reading::Name { .. }
        | Reading::Number { .. }
        | Reading::Text(_)
        | Reading::Mark(_)
        | Reading::Other => None,
    }
}

fn unless_me(keyword: Keyword) -> Option<Keyword>
    ensures { result ≡ unless_me keyword }
{
    match keyword {
        Keyword::Me => None,
        _ => Some(keyword),
    }
}

/// Behind a kept word: the rest of the statement, where it ends there.
fn read_whole_kept(
    alloc: Global,
    token: Token,
    keyword: Keyword,
    tokens: &[ReadToken],
) -> Result<Option<(SimpleStatement, &[ReadToken])>, NoMemory>
    ensures { IfOk result (λ found. option_map (λ f. (simple_view f.0, f.1.now)) found ≡ ending (kept_at token keyword tokens.now)) }
{
    let Some((statement, rest)) = read_kept(alloc, token, keyword, tokens)? else {
        return Ok(None);
    };
    if ends(rest) {
        Ok(Some((statement, rest)))
    } else {
        Ok(None)
    }
}

/// The statement at the front of tokens ([MS-VBAL] 5.4), or the line of a block, and the tokens behind it: its line ends
/// there, or a colon or an `Else` stands there. None where no statement stands there, or an `If`.
#[tactic(auto, using(crate::proofs::Simples::free_first))]
pub fn read_simple(
    alloc: Global,
    tokens: &[ReadToken],
) -> Result<Option<(SimpleStatement, &[ReadToken])>, NoMemory>
    ensures { IfOk result (λ found. option_map (λ f. (simple_view f.0, f.1.now)) found ≡ simple_at tokens.now) }
{
    let [token, rest @ ..] = tokens else {
        return Ok(None);
    };
    match first_word(&token.reading) {
        Some(keyword) => read_whole_kept(alloc, token.token, keyword, rest),
        None => read_free(alloc, tokens),
    }
}

//! What a line is by its first words, behind a word of access and `Static`.

ghost use Rattle.std.specs.Prelude.{◌≡◌, option_map};
ghost use Rattle.vba_grammar.specs.Lines as lines;
ghost use Rattle.vba_parser.specs.Seen.{header_view};

use vba_clauses::{Expected, begins_with};
use vba_lexer::Token;
use vba_tree::ProcedureWords;
use vba_words::{Keyword, ReadToken, Reading, reads_word};

/// The words that say what is declared.
#[derive(Clone, Copy, Debug, PartialEq, Eq)]
pub enum Header {
    Enum(Token),
    Type(Token),
    Event(Token),
    Procedure(ProcedureWords),
}

/// The words at the front that say what is declared, and the tokens behind them.
pub fn read_words(tokens: &[ReadToken]) -> Option<(Header, &[ReadToken])>
    ensures { option_map (λ f. (header_view f.0, f.1.now)) result ≡ lines.kind_at tokens.now }
{
    let [first, rest @ ..] = tokens else {
        return None;
    };
    match &first.reading {
        Reading::Keyword(Keyword::Enum) => Some((Header::Enum(first.token), rest)),
        Reading::Keyword(Keyword::Type) => Some((Header::Type(first.token), rest)),
        Reading::Keyword(Keyword::Event) => Some((Header::Event(first.token), rest)),
        Reading::Keyword(Keyword::Sub) => {
            Some((Header::Procedure(ProcedureWords::Sub(first.token)), rest))
        }
        Reading::Keyword(Keyword::Function) => {
            Some((
                Header::Procedure(ProcedureWords::Function(first.token)),
                rest,
            ))
        }
        _ => {
            if !reads_word(first, b"property") {
                return None;
            }
            let (words, behind) = read_property(first.token, rest)?;
            Some((Header::Procedure(words), behind))
        }
    }
}

/// `Get`, `Let` or `Set` behind `Property`, where a name stands behind it.
fn read_property(
    property_word: Token,
    tokens: &[ReadToken],
) -> Option<(ProcedureWords, &[ReadToken])>
    ensures { option_map (λ f. (f.0, f.1.now)) result ≡ lines.property_at property_word tokens.now }
{
    let [first, rest @ ..] = tokens else {
        return None;
    };
    if !begins_with(rest, Expected::Name) {
        return None;
    }
    let words = property_words(property_word, first)?;
    Some((words, rest))
}

/// The words of a Property: what stands before its name is `Get`, `Let` or `Set`.
fn property_words(property_word: Token, token: &ReadToken) -> Option<ProcedureWords>
    ensures { result ≡ lines.property_of property_word token.now.token token.now.reading }
{
    match &token.reading {
        Reading::Keyword(Keyword::Let) => Some(ProcedureWords::PropertyLet {
            property_word,
            let_word: token.token,
        }),
        Reading::Keyword(Keyword::Set) => Some(ProcedureWords::PropertySet {
            property_word,
            set_word: token.token,
        }),
        _ if reads_word(token, b"get") => Some(ProcedureWords::PropertyGet {
            property_word,
            get_word: token.token,
        }),
        _ => None,
    }
}

//! The words that say where a declaration is known ([MS-VBAL] 5.2.3.1, 5.3.1.1).

ghost use Rattle.std.specs.Prelude.{◌≡◌};
ghost use Rattle.vba_grammar.specs.Clauses.{access_of, access_if};

use vba_lexer::Token;
use vba_tree::{Access, AccessWord};
use vba_words::{Keyword, ReadToken, Reading};

/// The word of access that a token is: `Public`, `Private`, `Friend` or `Global`.
pub fn access_of(token: &ReadToken) -> Option<AccessWord>
    ensures { result ≡ access_of token.now.token token.now.reading }
{
    match &token.reading {
        Reading::Keyword(Keyword::Public) => Some(access_word(Access::Public, token.token)),
        Reading::Keyword(Keyword::Private) => Some(access_word(Access::Private, token.token)),
        Reading::Keyword(Keyword::Friend) => Some(access_word(Access::Friend, token.token)),
        Reading::Keyword(Keyword::Global) => Some(access_word(Access::Global, token.token)),
        _ => None,
    }
}

fn access_word(access: Access, token: Token) -> AccessWord
    ensures { result ≡ record { access = access; token = token } }
{
    AccessWord { access, token }
}

/// The word of access at the front, if one stands there, and the tokens behind it, or else all.
pub fn skip_access(tokens: &[ReadToken]) -> (Option<AccessWord>, &[ReadToken])
    ensures { (result.0, result.1.now) ≡ access_if tokens.now }
{
    let [first, rest @ ..] = tokens else {
        return (None, tokens);
    };
    match access_of(first) {
        Some(word) => (Some(word), rest),
        None => (None, tokens),
    }
}

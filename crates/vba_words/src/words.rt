ghost use Rattle.std.specs.Prelude.{◌≡◌, IfOk};
ghost use Rattle.vba_words.specs.Words.{reads_word, identifier_of};

use crate::context::is_word;
use crate::identifier::Identifier;
use crate::reading::{ReadToken, Reading};
use std::alloc::Global;
use vba_base::NoMemory;

/// Is the token this word of the grammar, given in lower case, where one may stand? It is a name without suffix and
/// brackets elsewhere.
pub fn reads_word(token: &ReadToken, word: &[u8]) -> bool
    ensures { result ≡ reads_word token.now word.now }
{
    is_word(&token.reading, word)
}

/// The name that a token is.
pub fn identifier_at(alloc: Global, token: &ReadToken) -> Result<Option<Identifier>, NoMemory>
    ensures { IfOk result (λ found. found ≡ identifier_of token.now) }
{
    match &token.reading {
        Reading::Name {
            name,
            suffix,
            is_bracketed,
        } => Ok(Some(Identifier {
            token: token.token,
            name: name.copy(alloc)?,
            suffix: *suffix,
            is_bracketed: *is_bracketed,
        })),
        _ => Ok(None),
    }
}

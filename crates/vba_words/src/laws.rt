//! Laws of the definitions that the calls are proved against. The functions do nothing: their contracts are the laws.

ghost use Rattle.std.specs.Prelude.{◌≡◌, ◌↔◌, Some};
ghost use Rattle.vba_words.specs.Spelling.{naming};
ghost use Rattle.vba_words.specs.Words.{identifier_of};
ghost use Rattle.vba_words.specs.declared.identifier.Identifier.{Identifier};
ghost use Rattle.vba_words.specs.declared.reading.ReadToken.{ReadToken};

/// A name is the one that a token is exactly where the token is that of the name.
pub fn names_are_tokens()
    ensures { (token : ReadToken) (name : Identifier) → identifier_of token ≡ Some name ↔ naming name ≡ token }
{}

use vba_base::Name;
use vba_lexer::{Token, TypeSuffix};

/// A name where it stands in a source: without its suffix and its brackets.
#[derive(Drop)]
pub struct Identifier {
    pub token: Token,
    pub name: Name,
    pub suffix: Option<TypeSuffix>,
    /// Is it written in brackets? Then it is never a word of the grammar.
    pub is_bracketed: bool,
}

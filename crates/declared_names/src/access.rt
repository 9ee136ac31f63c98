//! Which entries other modules see.

ghost use Rattle.std.specs.Prelude.{◌≡◌};
ghost use Rattle.vba_module.specs.Misplaced.{is_public};
ghost use Rattle.binder.specs.Declarations.{is_public_constant, is_public_word};

use vba_tree::{Access, AccessWord, VariableWord};

/// Does no word say Private?
pub(crate) fn is_public(access: Option<AccessWord>) -> bool
    ensures { result ≡ is_public access }
{
    match access {
        Some(word) => match word.access {
            Access::Private => false,
            Access::Public | Access::Friend | Access::Global => true,
        },
        None => true,
    }
}

/// Does the word of variables make them public?
pub fn is_public_word(word: VariableWord) -> bool
    ensures { result ≡ is_public_word word }
{
    match word {
        VariableWord::Public | VariableWord::Global => true,
        VariableWord::Dim | VariableWord::Private | VariableWord::Static => false,
    }
}

/// Does a word make constants public?
pub(crate) fn is_public_constant(access: Option<AccessWord>) -> bool
    ensures { result ≡ is_public_constant access }
{
    match access {
        Some(word) => match word.access {
            Access::Public | Access::Global => true,
            Access::Private | Access::Friend => false,
        },
        None => false,
    }
}

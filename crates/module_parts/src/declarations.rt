//! Where the parts of declarations begin.

ghost use Rattle.std.specs.Prelude.{◌≡◌, List, ◌∷◌, ◌++◌};
ghost use Rattle.vba_module.specs.Parts.{nowhere, first_place};
ghost use Rattle.vba_module.specs.Headers.{place_of_parameter};
ghost use Rattle.vba_tree.specs.Spelling.{spell_access, spell_dim};
ghost use Rattle.vba_tree.specs.View.{dim_view, parameter_view};
ghost use Rattle.vba_words.specs.Spelling.{word};
ghost use Rattle.vba_words.specs.declared.keyword.Keyword.{Keyword};
ghost use Rattle.vba_words.specs.declared.reading.ReadToken.{ReadToken};

use crate::expressions::expression_place;
use vba_base::Place;
use vba_lexer::Token;
use vba_tree::{AccessWord, Dim, Parameter};

/// The place of the word of access, or where none is written that of the word behind it.
pub(crate) fn place_behind_access(access: Option<AccessWord>, token: Token) -> Place
    ensures { (kept : Keyword) (rest : List ReadToken) → result ≡ first_place nowhere (spell_access access ++ word token kept ∷ rest) }
{
    match access {
        Some(word) => word.token.place,
        None => token.place,
    }
}

/// The place of the first token of a dimension.
#[tactic(auto, using(crate::proofs::Firsts::expression_front))]
pub fn dim_place(dim: &Dim) -> Place
    ensures { result ≡ first_place nowhere (spell_dim (dim_view dim.now)) }
{
    match dim {
        Dim::Upper(upper) => expression_place(upper),
        Dim::Range { lower, .. } => expression_place(lower),
    }
}

/// The place of the first token of a parameter: a word before its name, where one is written.
pub fn parameter_place(parameter: &Parameter) -> Place
    ensures { result ≡ place_of_parameter (parameter_view parameter.now) }
{
    if let Some(word) = parameter.optional_word {
        return word.place;
    }
    if let Some(passing) = parameter.passing {
        return passing.token.place;
    }
    match parameter.param_array_word {
        Some(word) => word.place,
        None => parameter.name.token.place,
    }
}

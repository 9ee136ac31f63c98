//! The tokens of words, and of expressions beside them.

ghost use Rattle.std.specs.Prelude.{◌≡◌, [], ◌∷◌, ◌++◌, OnOk};
ghost use Rattle.std.specs.Option.{option_to_list};
ghost use Rattle.vba_expression.specs.Spelling.{spell as spell_expression};
ghost use Rattle.vba_expression.specs.View.{view as expression_view};
ghost use Rattle.vba_tree.specs.Spelling.{tokens_of};

use vba_base::NoMemory;
use vba_expression::{Expression, push_tokens as push_expression};
use vba_lexer::Token;

/// Adds a token that may be missing.
pub(crate) fn push_optional(tokens: &mut Vec<Token>, token: Option<Token>) -> Result<(), NoMemory>
    ensures { OnOk result (tokens.new.items ≡ tokens.old.items ++ option_to_list token) }
{
    if let Some(token) = token {
        tokens.push(token)?;
    }
    Ok(())
}

/// Adds two tokens.
pub(crate) fn push_two(tokens: &mut Vec<Token>, first: Token, last: Token) -> Result<(), NoMemory>
    ensures { OnOk result (tokens.new.items ≡ tokens.old.items ++ first ∷ last ∷ []) }
{
    tokens.push(first)?;
    tokens.push(last)?;
    Ok(())
}

/// Adds a token and the tokens of an expression behind it.
pub(crate) fn push_behind(
    tokens: &mut Vec<Token>,
    word: Token,
    expression: &Expression,
) -> Result<(), NoMemory>
    ensures { OnOk result (tokens.new.items ≡ tokens.old.items
        ++ word ∷ tokens_of (spell_expression (expression_view expression.now))) }
{
    tokens.push(word)?;
    push_expression(tokens, expression)
}

/// Adds the tokens of an expression between two words, as `If condition Then`.
#[tactic(auto, using(crate::proofs::Tokens::tokens_of_append))]
pub(crate) fn push_between(
    tokens: &mut Vec<Token>,
    first: Token,
    expression: &Expression,
    last: Token,
) -> Result<(), NoMemory>
    ensures { OnOk result (tokens.new.items ≡ tokens.old.items
        ++ first ∷ (tokens_of (spell_expression (expression_view expression.now)) ++ last ∷ [])) }
{
    push_behind(tokens, first, expression)?;
    tokens.push(last)?;
    Ok(())
}

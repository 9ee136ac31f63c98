//! Where expressions begin.

ghost use Rattle.std.specs.Prelude.{◌≡◌};
ghost use Rattle.vba_expression.specs.Spelling.{spell};
ghost use Rattle.vba_expression.specs.View.{view};
ghost use Rattle.vba_module.specs.Parts.{nowhere, first_place};
ghost use Rattle.module_parts.specs.Firsts.{place_of_first};

use vba_base::Place;
use vba_expression::Expression;
use vba_lexer::Token;

/// The place of the first token of an expression.
#[tactic(auto, using(crate::proofs::Firsts::first_of_bare))]
pub fn expression_place(expression: &Expression) -> Place
    ensures { result ≡ first_place nowhere (spell (view expression.now)) }
{
    place_of_first(expression.tokens())
}

/// The place of the first of tokens.
fn place_of_first(tokens: &[Token]) -> Place
    ensures { result ≡ place_of_first tokens.now }
{
    match tokens {
        [first, ..] => first.place,
        [] => Place {
            module: 0,
            line: 0,
            column: 0,
        },
    }
}

//! Variables ([MS-VBAL] 5.2.3.1.1, 5.2.3.1.2).

ghost use Rattle.std.specs.Prelude.{◌≡◌, IfOk, option_map};
ghost use Rattle.vba_tree.specs.Tree as tree;
ghost use Rattle.vba_tree.specs.View.{listed_view, variable_view};
ghost use Rattle.vba_grammar.specs.Front.{commas_at};
ghost use Rattle.vba_grammar.specs.Clauses.{variable_at};

use crate::dims::DimsPart;
use crate::expected::Expected;
use crate::front::{read_name, skip_token};
use crate::part::{Part, read_commas, read_part_if};
use crate::types::NewTypeClausePart;
use std::alloc::Global;
use vba_base::NoMemory;
use vba_tree::{Listed, Variable};
use vba_words::ReadToken;

/// `[WithEvents] name [([dims])] [As [New] type]` at the front, and the tokens behind it.
pub fn read_variable(
    alloc: Global,
    tokens: &[ReadToken],
) -> Result<Option<(Variable, &[ReadToken])>, NoMemory>
    ensures { IfOk result (λ found. option_map (λ f. (variable_view f.0, f.1.now)) found ≡ variable_at tokens.now) }
{
    let (with_events_word, named) = skip_token(tokens, Expected::WithEvents);
    let Some((name, rest)) = read_name(alloc, named)? else {
        return Ok(None);
    };
    let Some((dims, typed)) = read_part_if::<DimsPart>(alloc, rest, Expected::LeftParenthesis)?
    else {
        return Ok(None);
    };
    let Some((type_clause, behind)) = read_part_if::<NewTypeClausePart>(alloc, typed, Expected::As)?
    else {
        return Ok(None);
    };
    let variable = Variable {
        with_events_word,
        name,
        dims,
        type_clause,
    };
    Ok(Some((variable, behind)))
}

/// Variables with commas between them, and the tokens behind them.
pub fn read_variables(
    alloc: Global,
    tokens: &[ReadToken],
) -> Result<Option<(Listed<Variable>, &[ReadToken])>, NoMemory>
    ensures { IfOk result (λ found. option_map (λ f. (listed_view variable_view f.0, f.1.now)) found ≡ commas_at variable_at tokens.now) }
{
    read_commas::<VariablePart>(alloc, tokens)
}

/// A variable.
pub struct VariablePart;

impl Part for VariablePart {
    type Tree = Variable;

    ghost Plain = { tree.Variable };

    ghost plain_of = { variable_view };

    ghost part_at = { variable_at };

    fn read(
        alloc: Global,
        tokens: &[ReadToken],
    ) -> Result<Option<(Variable, &[ReadToken])>, NoMemory> {
        read_variable(alloc, tokens)
    }
}

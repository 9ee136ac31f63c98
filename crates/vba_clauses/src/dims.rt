//! The bounds of arrays ([MS-VBAL] 5.2.3.1.3).

ghost use Rattle.std.specs.Prelude.{◌≡◌, IfOk, option_map};
ghost use Rattle.vba_tree.specs.Tree as tree;
ghost use Rattle.vba_tree.specs.View.{listed_view, dim_view, dims_view};
ghost use Rattle.vba_grammar.specs.Front.{commas_at};
ghost use Rattle.vba_grammar.specs.Clauses.{dim_at, dims_at};

use crate::expected::Expected;
use crate::front::read_token;
use crate::part::{Part, read_commas, read_commas_in_brackets};
use std::alloc::Global;
use vba_base::NoMemory;
use vba_expression::read_expression;
use vba_tree::{Dim, Dims, Listed};
use vba_words::ReadToken;

/// The bounds of one dimension at the front, and the tokens behind them: `upper` or `lower To upper`.
pub fn read_dim(
    alloc: Global,
    tokens: &[ReadToken],
) -> Result<Option<(Dim, &[ReadToken])>, NoMemory>
    ensures { IfOk result (λ found. option_map (λ f. (dim_view f.0, f.1.now)) found ≡ dim_at tokens.now) }
{
    let Some((lower, rest)) = read_expression(alloc, tokens)? else {
        return Ok(None);
    };
    let Some((to_word, behind)) = read_token(rest, Expected::To) else {
        return Ok(Some((Dim::Upper(lower), rest)));
    };
    let Some((upper, left)) = read_expression(alloc, behind)? else {
        return Ok(None);
    };
    let range = Dim::Range {
        lower,
        to_word,
        upper,
    };
    Ok(Some((range, left)))
}

/// The bounds of the dimensions of an array with commas between them, and the tokens behind them.
pub fn read_dim_list(
    alloc: Global,
    tokens: &[ReadToken],
) -> Result<Option<(Listed<Dim>, &[ReadToken])>, NoMemory>
    ensures { IfOk result (λ found. option_map (λ f. (listed_view dim_view f.0, f.1.now)) found ≡ commas_at dim_at tokens.now) }
{
    read_commas::<DimPart>(alloc, tokens)
}

/// `([dims])` at the front, and the tokens behind it.
pub fn read_dims(
    alloc: Global,
    tokens: &[ReadToken],
) -> Result<Option<(Dims, &[ReadToken])>, NoMemory>
    ensures { IfOk result (λ found. option_map (λ f. (dims_view f.0, f.1.now)) found ≡ dims_at tokens.now) }
{
    let Some((left, rest)) = read_token(tokens, Expected::LeftParenthesis) else {
        return Ok(None);
    };
    let Some((dims, behind)) = read_commas_in_brackets::<DimPart>(alloc, rest)? else {
        return Ok(None);
    };
    let Some((right, behind)) = read_token(behind, Expected::RightParenthesis) else {
        return Ok(None);
    };
    Ok(Some((Dims { left, dims, right }, behind)))
}

/// The bounds of one dimension.
pub struct DimPart;

impl Part for DimPart {
    type Tree = Dim;

    ghost Plain = { tree.Dim };

    ghost plain_of = { dim_view };

    ghost part_at = { dim_at };

    fn read(alloc: Global, tokens: &[ReadToken]) -> Result<Option<(Dim, &[ReadToken])>, NoMemory> {
        read_dim(alloc, tokens)
    }
}

/// `([dims])`.
pub struct DimsPart;

impl Part for DimsPart {
    type Tree = Dims;

    ghost Plain = { tree.Dims };

    ghost plain_of = { dims_view };

    ghost part_at = { dims_at };

    fn read(alloc: Global, tokens: &[ReadToken]) -> Result<Option<(Dims, &[ReadToken])>, NoMemory> {
        read_dims(alloc, tokens)
    }
}

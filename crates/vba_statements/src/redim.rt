//! Reading ReDim and Erase statements ([MS-VBAL] 5.4.3.3, 5.4.3.4).

ghost use Rattle.std.specs.Prelude.{◌≡◌, ◌<◌, length, take, drop, IfOk, option_map};
ghost use Rattle.vba_expression.specs.Tree as expressions;
ghost use Rattle.vba_expression.specs.View.{view};
ghost use Rattle.vba_tree.specs.Tree as tree;
ghost use Rattle.vba_tree.specs.View.{array_view, simple_view};
ghost use Rattle.vba_grammar.specs.Front.{found_as, place_at, commas_at};
ghost use Rattle.vba_grammar.specs.Statements.{array_here, array_at, re_dim_at};
ghost use Rattle.vba_statements.specs.Arrays.{bounds_at, bounds_view, only_place, array_from};

use std::alloc::Global;
use vba_base::NoMemory;
use vba_clauses::{
    Expected, Part, TypeClausePart, item_ends, read_commas, read_dim_list, read_part_if,
    read_place, read_token, skip_word,
};
use vba_expression::Expression;
use vba_lexer::Token;
use vba_tree::{Dim, Listed, ReDimArray, SimpleStatement, TypeClause};
use vba_words::ReadToken;

/// What stands behind the place of an array of a ReDim and its bracket.
#[derive(Drop)]
pub struct Bounds {
    dims: Listed<Dim>,
    right: Token,
    type_clause: Option<TypeClause>,
}

/// The bounds and the type of an array of a ReDim, behind its place and bracket.
fn read_bounds(
    alloc: Global,
    tokens: &[ReadToken],
) -> Result<Option<(Bounds, &[ReadToken])>, NoMemory>
    ensures { IfOk result (λ found. option_map (λ f. (bounds_view f.0, f.1.now)) found ≡ bounds_at tokens.now) }
{
    let Some((dims, behind_dims)) = read_dim_list(alloc, tokens)? else {
        return Ok(None);
    };
    let Some((right, behind_right)) = read_token(behind_dims, Expected::RightParenthesis) else {
        return Ok(None);
    };
    let Some((type_clause, rest)) = read_part_if::<TypeClausePart>(
        alloc,
        behind_right,
        Expected::As,
    )?
    else {
        return Ok(None);
    };
    if !item_ends(rest) {
        return Ok(None);
    }
    let bounds = Bounds {
        dims,
        right,
        type_clause,
    };
    Ok(Some((bounds, rest)))
}

/// An array of a ReDim whose place is all that stands before this bracket. The bounds are read first: most brackets of a
/// place have none that end the array, so that the place is read once.
#[tactic(auto, using(crate::proofs::Arrays::by_bounds))]
fn read_array_here<'a>(
    alloc: Global,
    before: &[ReadToken],
    left: Token,
    tokens: &'a [ReadToken],
) -> Result<Option<(ReDimArray, &'a [ReadToken])>, NoMemory>
    ensures { IfOk result (λ found. option_map (λ f. (array_view f.0, f.1.now)) found ≡ array_here before.now left tokens.now) }
{
    let Some((bounds, rest)) = read_bounds(alloc, tokens)? else {
        return Ok(None);
    };
    let Some(place) = read_only_place(alloc, before)? else {
        return Ok(None);
    };
    let Bounds {
        dims,
        right,
        type_clause,
    } = bounds;
    let array = ReDimArray {
        place,
        left,
        dims,
        right,
        type_clause,
    };
    Ok(Some((array, rest)))
}

/// The place that the whole of tokens is.
fn read_only_place(alloc: Global, tokens: &[ReadToken]) -> Result<Option<Expression>, NoMemory>
    ensures { IfOk result (λ found. option_map view found ≡ only_place (place_at tokens.now)) }
{
    let Some((place, rest)) = read_place(alloc, tokens)? else {
        return Ok(None);
    };
    match rest {
        [] => Ok(Some(place)),
        [_, ..] => Ok(None),
    }
}

/// An array of a ReDim whose place ends before the bracket at this index.
fn read_array_from(
    alloc: Global,
    tokens: &[ReadToken],
    index: usize,
) -> Result<Option<(ReDimArray, &[ReadToken])>, NoMemory>
    requires { index < length tokens.now }
    ensures { IfOk result (λ found. option_map (λ f. (array_view f.0, f.1.now)) found
        ≡ array_from (take index tokens.now) (drop index tokens.now)) }
{
    let before = &tokens[..index];
    let Some((left, rest)) = read_token(&tokens[index..], Expected::LeftParenthesis) else {
        return Ok(None);
    };
    read_array_here(alloc, before, left, rest)
}

/// An array of a ReDim: `place(dims) [As type]`. Its place ends before the last bracket that allows it.
#[tactic(auto, using(crate::proofs::Arrays::no_array_behind, crate::proofs::Arrays::no_array_back, crate::proofs::Arrays::array_found, crate::proofs::Arrays::no_array))]
fn read_array(
    alloc: Global,
    tokens: &[ReadToken],
) -> Result<Option<(ReDimArray, &[ReadToken])>, NoMemory>
    ensures { IfOk result (λ found. option_map (λ f. (array_view f.0, f.1.now)) found ≡ array_at tokens.now) }
{
    let mut end = tokens.len();
    'brackets: while end > 0 {
        end -= 1;
        if let Some(found) = read_array_from(alloc, tokens, end)? {
            return Ok(Some(found));
        }
    }
    Ok(None)
}

/// The arrays of a ReDim.
struct ArrayPart;

impl Part for ArrayPart {
    type Tree = ReDimArray;

    ghost Plain = { tree.ReDimArray };

    ghost plain_of = { array_view };

    ghost part_at = { array_at };

    fn read(
        alloc: Global,
        tokens: &[ReadToken],
    ) -> Result<Option<(ReDimArray, &[ReadToken])>, NoMemory> {
        read_array(alloc, tokens)
    }
}

/// Behind ReDim and its Preserve: the arrays.
fn read_arrays(
    alloc: Global,
    redim_word: Token,
    preserve_word: Option<Token>,
    tokens: &[ReadToken],
) -> Result<Option<(SimpleStatement, &[ReadToken])>, NoMemory>
    ensures { IfOk result (λ found. option_map (λ f. (simple_view f.0, f.1.now)) found
        ≡ found_as (tree.re_dim redim_word preserve_word) (commas_at array_at tokens.now)) }
{
    let Some((arrays, rest)) = read_commas::<ArrayPart>(alloc, tokens)? else {
        return Ok(None);
    };
    let statement = SimpleStatement::ReDim {
        redim_word,
        preserve_word,
        arrays,
    };
    Ok(Some((statement, rest)))
}

/// Behind `ReDim`: `Preserve`, where it is written, and arrays. `Preserve` is the name of an array where no name stands
/// behind it.
pub fn read_re_dim(
    alloc: Global,
    redim_word: Token,
    tokens: &[ReadToken],
) -> Result<Option<(SimpleStatement, &[ReadToken])>, NoMemory>
    ensures { IfOk result (λ found. option_map (λ f. (simple_view f.0, f.1.now)) found ≡ re_dim_at redim_word tokens.now) }
{
    let (preserve_word, rest) = skip_word(tokens, b"preserve");
    let Some(preserve_word) = preserve_word else {
        return read_arrays(alloc, redim_word, None, rest);
    };
    match read_arrays(alloc, redim_word, Some(preserve_word), rest)? {
        Some(found) => Ok(Some(found)),
        None => read_arrays(alloc, redim_word, None, tokens),
    }
}

/// The places of an Erase.
struct PlacePart;

impl Part for PlacePart {
    type Tree = Expression;

    ghost Plain = { expressions.Expr };

    ghost plain_of = { view };

    ghost part_at = { place_at };

    fn read(
        alloc: Global,
        tokens: &[ReadToken],
    ) -> Result<Option<(Expression, &[ReadToken])>, NoMemory> {
        read_place(alloc, tokens)
    }
}

/// Behind `Erase`: the places of the arrays.
pub fn read_erase(
    alloc: Global,
    erase_word: Token,
    tokens: &[ReadToken],
) -> Result<Option<(SimpleStatement, &[ReadToken])>, NoMemory>
    ensures { IfOk result (λ found. option_map (λ f. (simple_view f.0, f.1.now)) found
        ≡ found_as (tree.erase erase_word) (commas_at place_at tokens.now)) }
{
    let Some((places, rest)) = read_commas::<PlacePart>(alloc, tokens)? else {
        return Ok(None);
    };
    Ok(Some((SimpleStatement::Erase { erase_word, places }, rest)))
}

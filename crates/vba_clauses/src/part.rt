//! Parts that may be missing, and parts with a mark between each two, for every kind of part.

ghost use Rattle.std.specs.Prelude.{◌≡◌, suc, List, length, map, Option, IfOk, option_map};
ghost use Rattle.vba_words.specs.declared.reading.ReadToken.{ReadToken};
ghost use Rattle.vba_tree.specs.View.{listed_view};
ghost use Rattle.vba_grammar.specs.Front.{part_if, before_right, others_at, listed_at, commas_at};
ghost use Rattle.vba_clauses.specs.Meets.{meets};

use crate::expected::Expected;
use crate::front::{begins_with, read_token};
use std::alloc::Global;
use vba_base::NoMemory;
use vba_tree::{Listed, Next};
use vba_words::ReadToken;

/// A kind of part of a line, such as a parameter.
pub trait Part {
    /// The tree of such a part.
    type Tree: Drop;

    /// The type of its plain trees.
    ghost Plain: { Type 0 };

    /// The plain tree that a tree stands for.
    ghost plain_of: { Self.Tree → Self.Plain };

    /// The plain tree of the part at the front of tokens, and the tokens behind it.
    ghost part_at: { List ReadToken → Option (Self.Plain × List ReadToken) };

    /// The part at the front of tokens, and the tokens behind it.
    fn read(
        alloc: Global,
        tokens: &[ReadToken],
    ) -> Result<Option<(Self::Tree, &[ReadToken])>, NoMemory>
        ensures { IfOk result (λ found. option_map (λ f. (Self.plain_of f.0, f.1.now)) found ≡ Self.part_at tokens.now) };
}

/// The part at the front, where tokens begin with what is expected of it, and the tokens behind it; else no part, and all
/// tokens. None where the part goes wrong.
pub fn read_part_if<P: Part>(
    alloc: Global,
    tokens: &[ReadToken],
    expected: Expected,
) -> Result<Option<(Option<P::Tree>, &[ReadToken])>, NoMemory>
    ensures { IfOk result (λ found. option_map (λ f. (option_map P.plain_of f.0, f.1.now)) found ≡ part_if (meets expected) P.part_at tokens.now) }
{
    if !begins_with(tokens, expected) {
        return Ok(Some((None, tokens)));
    }
    let Some((part, rest)) = P::read(alloc, tokens)? else {
        return Ok(None);
    };
    Ok(Some((Some(part), rest)))
}

/// The parts at the front with commas between them, as many as there can be, and the tokens behind them.
pub fn read_commas<P: Part>(
    alloc: Global,
    tokens: &[ReadToken],
) -> Result<Option<(Listed<P::Tree>, &[ReadToken])>, NoMemory>
    ensures { IfOk result (λ found. option_map (λ f. (listed_view P.plain_of f.0, f.1.now)) found ≡ commas_at P.part_at tokens.now) }
{
    read_listed::<P>(alloc, tokens, Expected::Comma)
}

/// The parts with commas between them before a `)`, which may be missing, and the tokens from the `)` on.
pub fn read_commas_in_brackets<P: Part>(
    alloc: Global,
    tokens: &[ReadToken],
) -> Result<Option<(Option<Listed<P::Tree>>, &[ReadToken])>, NoMemory>
    ensures { IfOk result (λ found. option_map (λ f. (option_map (listed_view P.plain_of) f.0, f.1.now)) found ≡ before_right (commas_at P.part_at) tokens.now) }
{
    if begins_with(tokens, Expected::RightParenthesis) {
        return Ok(Some((None, tokens)));
    }
    let Some((parts, rest)) = read_commas::<P>(alloc, tokens)? else {
        return Ok(None);
    };
    Ok(Some((Some(parts), rest)))
}

/// The parts at the front with such a mark between each two, as many as there can be, and the tokens behind them.
pub fn read_listed<P: Part>(
    alloc: Global,
    tokens: &[ReadToken],
    mark: Expected,
) -> Result<Option<(Listed<P::Tree>, &[ReadToken])>, NoMemory>
    ensures { IfOk result (λ found. option_map (λ f. (listed_view P.plain_of f.0, f.1.now)) found ≡ listed_at (meets mark) P.part_at tokens.now) }
{
    let Some((first, rest)) = P::read(alloc, tokens)? else {
        return Ok(None);
    };
    let Some((others, behind)) = read_others::<P>(alloc, rest, mark)? else {
        return Ok(None);
    };
    Ok(Some((Listed { first, others }, behind)))
}

/// The parts behind the first, each behind its mark.
#[tactic(auto, using(crate::proofs::Others::begun))]
fn read_others<P: Part>(
    alloc: Global,
    tokens: &[ReadToken],
    mark: Expected,
) -> Result<Option<(Vec<Next<P::Tree>>, &[ReadToken])>, NoMemory>
    ensures { IfOk result (λ found. option_map (λ f. (map (λ next. (next.mark, P.plain_of next.item)) f.0.items, f.1.now)) found
        ≡ others_at (suc (length tokens.now)) (meets mark) P.part_at tokens.now) }
{
    let mut others = Vec::new(alloc);
    let mut left = tokens;
    'others: for _ in 0..=tokens.len() {
        let Some((between, behind)) = read_token(left, mark) else {
            return Ok(Some((others, left)));
        };
        let Some((item, rest)) = P::read(alloc, behind)? else {
            return Ok(None);
        };
        others.push(Next {
            mark: between,
            item,
        })?;
        left = rest;
    }
    Ok(None)
}

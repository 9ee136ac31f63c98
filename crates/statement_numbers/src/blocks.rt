//! The blocks of a body, by the numbers of their statements.

ghost use Rattle.std.specs.Prelude.{◌≡◌, ◌++◌, IfOk, OnOk, map};
ghost use Rattle.binder.specs.Numbering.{standings_in};
ghost use Rattle.binder.specs.Blocks as plain;
ghost use Rattle.bound_project.specs.Bodies.{block_view};
ghost use Rattle.module_parts.specs.View.{parts_view};
ghost use Rattle.statement_numbers.specs.Lines.{block_of, blocks_at, has_header, is_line, is_line_of};
ghost use Rattle.statement_numbers.specs.View.{role_view, standing_view};
ghost use Rattle.vba_module.specs.Blocks.{role_of};

use crate::counts::part_count;
use crate::sought::Sought;
use crate::standing::Standing;
use crate::walk::Walk;
use bound_project::Block;
use module_parts::{Bracket, Part};
use std::alloc::Global;
use vba_base::NoMemory;

/// The lines of a block behind its header.
#[derive(Clone, Copy, Debug, PartialEq, Eq)]
pub enum BlockLines {
    Arms,
    Ends,
}

/// Does a bracket make such a line?
fn is_line(wanted: BlockLines, bracket: Bracket) -> bool
    ensures { result ≡ is_line wanted (role_view bracket) }
{
    match (wanted, bracket) {
        (BlockLines::Arms, Bracket::Divides { .. }) | (BlockLines::Ends, Bracket::Closes(_)) =>
            true,
        _ => false,
    }
}

/// Has the innermost block this header?
fn has_header(header: u32, standing: Standing) -> bool
    ensures { result ≡ has_header header (standing_view standing.entry).around }
{
    match standing.around.last() {
        Some(opened) => opened.header == header,
        None => false,
    }
}

/// Is a part a statement that is such a line of the block with this header?
fn is_line_of(wanted: BlockLines, header: u32, standing: Standing) -> Result<bool, NoMemory>
    ensures { IfOk result (λ is. is ≡ is_line_of wanted header (standing_view standing.entry)) }
{
    let is_statement = part_count(standing.part())? != 0;
    Ok(is_line(wanted, standing.bracket()) && is_statement && has_header(header, standing))
}

/// The numbers of such lines of the block with this header.
fn lines_in(
    alloc: Global,
    wanted: BlockLines,
    header: u32,
    body: &[Part],
) -> Result<Vec<u32>, NoMemory>
    ensures { IfOk result (λ numbers. numbers.items ≡ plain.lines_in (is_line wanted) header (standings_in (parts_view body.now))) }
{
    let mut numbers = Vec::new(alloc);
    let mut walk = Walk::start(alloc, body);
    'listing: while let Some(standing) = walk.standing() {
        if is_line_of(wanted, header, standing)? {
            numbers.push(standing.number)?;
        }
        walk.advance()?;
    }
    Ok(numbers)
}

/// The block that a header opens.
fn block_of(alloc: Global, standing: Standing, body: &[Part]) -> Result<Block, NoMemory>
    ensures { IfOk result (λ block. block_view block ≡ block_of (standings_in (parts_view body.now)) (standing_view standing.entry)) }
{
    let opening = standing.number;
    let arms = lines_in(alloc, BlockLines::Arms, opening, body)?;
    let ends = lines_in(alloc, BlockLines::Ends, opening, body)?;
    Ok(Block {
        opening,
        arms,
        closing: ends.as_slice().first().copied(),
        behind: standing.sought_behind(Sought::BehindBlock(0))?,
    })
}

/// Is a part the header of a block?
fn is_opening(standing: Standing) -> bool
    ensures { result ≡ plain.is_opening (role_of (standing_view standing.entry).part) }
{
    match standing.bracket() {
        Bracket::Opens(_) => true,
        Bracket::Divides { .. } | Bracket::Closes(_) | Bracket::Stands => false,
    }
}

/// Adds the block that a part opens, where it opens one.
fn push_block(
    alloc: Global,
    standing: Standing,
    body: &[Part],
    blocks: &mut Vec<Block>,
) -> Result<(), NoMemory>
    ensures { OnOk result (map block_view blocks.new.items
        ≡ map block_view blocks.old.items ++ blocks_at (standings_in (parts_view body.now)) (standing_view standing.entry)) }
{
    if is_opening(standing) {
        blocks.push(block_of(alloc, standing, body)?)?;
    }
    Ok(())
}

/// The blocks of a body, in the order of their headers.
pub fn blocks_in(alloc: Global, body: &[Part]) -> Result<Vec<Block>, NoMemory>
    ensures { IfOk result (λ blocks. map block_view blocks.items
        ≡ plain.blocks_in (standings_in (parts_view body.now)) (standings_in (parts_view body.now))) }
{
    let mut blocks = Vec::new(alloc);
    let mut walk = Walk::start(alloc, body);
    'listing: while let Some(standing) = walk.standing() {
        push_block(alloc, standing, body, &mut blocks)?;
        walk.advance()?;
    }
    Ok(blocks)
}

//! The blocks that stand open round a part, the innermost one first.

ghost use Rattle.std.specs.Prelude.{◌≡◌, [], ◌∷◌, List, Some, IfSome, MatchOption, option_map};
ghost use Rattle.statement_nodes.specs.Loops as loops;
ghost use Rattle.bound_calls.specs.bound_declarations.specs.constant_values.specs.declared_names.specs.binder.specs.Numbering as numbering;
ghost use Rattle.bound_calls.specs.bound_declarations.specs.constant_values.specs.declared_names.specs.binder.specs.Blocks as numbered;
ghost use Rattle.bound_calls.specs.bound_forms.specs.StatementsBound as plain;
ghost use Rattle.bound_calls.specs.bound_declarations.specs.constant_values.specs.declared_names.specs.module_parts.specs.View.{part_view};
ghost use Rattle.statement_numbers.specs.View.{opened_view, part_at, standing_view};
ghost use Rattle.vba_tree.specs.View.{block_line_view};

use bound_calls::bound_declarations::constant_values::declared_names::module_parts::{
    BlockKind, Part,
};
use statement_numbers::{Opened, Standing, is_same_kind};
use vba_tree::{BlockLine, SimpleStatement, Statement};

/// The innermost block.
pub fn innermost_block(standing: Standing) -> Option<Opened>
    ensures { MatchOption result ((standing_view standing.entry).around ≡ [])
        (λ o. (os : List numbering.Opened) × ((standing_view standing.entry).around ≡ opened_view standing.entry.body.now o ∷ os)) }
{
    standing.around.last().copied()
}

/// The line of a block that a part is.
pub(crate) fn line_of(part: &Part) -> Option<&BlockLine>
    ensures { option_map (λ line. block_line_view line.now) result ≡ plain.line_of (part_view part.now) }
{
    match part {
        Part::Statement(Statement::Simple(SimpleStatement::BlockLine(line))) => Some(line),
        _ => None,
    }
}

/// The line that opened a block.
#[tactic(auto, using(crate::proofs::Parts::part_there))]
pub fn opening_line<'a>(standing: Standing<'a>, opened: Opened) -> Option<&'a BlockLine>
    ensures { IfSome result (λ line. plain.line_of (part_at standing.entry.body.now opened.line) ≡ Some (block_line_view line.now)) }
{
    match standing.body.get(opened.line) {
        Some(part) => line_of(part),
        None => None,
    }
}

/// The header of a For Each, by its line.
fn line_each(line: &BlockLine, header: u32) -> Option<u32>
    ensures { result ≡ loops.line_each (block_line_view line.now) header }
{
    match line {
        BlockLine::ForEach { .. } => Some(header),
        _ => None,
    }
}

/// The header of a For Each, by the part that it is.
fn each_at(part: &Part, header: u32) -> Option<u32>
    ensures { result ≡ loops.each_at (part_view part.now) header }
{
    match line_of(part) {
        Some(line) => line_each(line, header),
        None => None,
    }
}

/// The header of a block that is a For Each.
#[tactic(auto, using(crate::proofs::Parts::part_there, crate::proofs::Parts::no_part_there))]
fn each_opened(body: &[Part], opened: Opened) -> Option<u32>
    ensures { result ≡ loops.each_at (part_at body.now opened.line) opened.header }
{
    match body.get(opened.line) {
        Some(part) => each_at(part, opened.header),
        None => None,
    }
}

/// The header of the nearest For, where it is a For Each.
#[tactic(auto, using(crate::proofs::Rounds::each_there, crate::proofs::Rounds::each_farther, crate::proofs::Rounds::each_nowhere))]
pub fn each_header(standing: Standing) -> Option<u32>
    ensures { result ≡ plain.for_each_header (standing_view standing.entry).around }
{
    let mut left = standing.around;
    'looking: while let Some((innermost, outer)) = left.split_last() {
        if is_same_kind(BlockKind::For, innermost.kind) {
            return each_opened(standing.body, *innermost);
        }
        left = outer;
    }
    None
}

/// The number of the line that opened the innermost block.
pub fn header_of(standing: Standing) -> u32
    ensures { result ≡ numbered.header_of (standing_view standing.entry).around }
{
    match innermost_block(standing) {
        Some(opened) => opened.header,
        None => 0,
    }
}

//! What With blocks are over.

ghost use Rattle.std.specs.Prelude.{◌≡◌, option_map};
ghost use Rattle.statement_nodes.specs.Loops as loops;
ghost use Rattle.bound_calls.specs.bound_forms.specs.StatementsBound as plain;
ghost use Rattle.bound_calls.specs.bound_declarations.specs.constant_values.specs.declared_names.specs.module_parts.specs.View.{part_view};
ghost use Rattle.statement_numbers.specs.View.{part_at};
ghost use Rattle.vba_expression.specs.View.{view as expression_view};
ghost use Rattle.vba_tree.specs.View.{block_line_view};

use crate::innermost::line_of;
use bound_calls::bound_declarations::constant_values::declared_names::module_parts::Part;
use statement_numbers::Opened;
use vba_expression::Expression;
use vba_tree::BlockLine;

/// What a With block is over, by the line that opens it.
fn line_object(line: &BlockLine) -> Option<&Expression>
    ensures { option_map (λ e. expression_view e.now) result ≡ loops.line_object (block_line_view line.now) }
{
    match line {
        BlockLine::With { object, .. } => Some(object),
        _ => None,
    }
}

/// What a With block is over, by the part that opens it.
fn with_object(part: &Part) -> Option<&Expression>
    ensures { option_map (λ e. expression_view e.now) result ≡ plain.with_object (part_view part.now) }
{
    match line_of(part) {
        Some(line) => line_object(line),
        None => None,
    }
}

/// What a block is over that stands open, where it is a With.
#[tactic(auto, using(crate::proofs::Parts::part_there, crate::proofs::Parts::no_part_there))]
pub fn object_of<'a>(body: &'a [Part], opened: Opened) -> Option<&'a Expression>
    ensures { option_map (λ e. expression_view e.now) result ≡ plain.with_object (part_at body.now opened.line) }
{
    match body.get(opened.line) {
        Some(part) => with_object(part),
        None => None,
    }
}

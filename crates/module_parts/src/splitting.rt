//! Lines, split into their parts.

ghost use Rattle.std.specs.Prelude.{◌≡◌, [], ◌∷◌, ◌++◌, map, OnOk};
ghost use Rattle.module_parts.specs.Nexts.{written_in};
ghost use Rattle.module_parts.specs.View.{part_view, parts_view};
ghost use Rattle.vba_module.specs.Parts.{label_part, as_parts, statements_in, parts_of};
ghost use Rattle.vba_tree.specs.Tree as tree;
ghost use Rattle.vba_tree.specs.View as views;

use crate::part::Part;
use vba_base::NoMemory;
use vba_tree::{LineLabel, LineTree, NextStatement, Statement, StatementLine};

/// Adds a part.
#[tactic(auto, using(crate::proofs::Splits::parts_push))]
fn push_part(parts: &mut Vec<Part>, part: Part) -> Result<(), NoMemory>
    ensures { OnOk result (parts_view parts.new.items ≡ parts_view parts.old.items ++ part_view part ∷ []) }
{
    Ok(parts.push(part)?)
}

/// Adds a label, which may be missing.
fn push_label(parts: &mut Vec<Part>, label: Option<LineLabel>) -> Result<(), NoMemory>
    ensures { OnOk result (parts_view parts.new.items ≡ parts_view parts.old.items ++ label_part label) }
{
    match label {
        Some(label) => push_part(parts, Part::Label(label)),
        None => Ok(()),
    }
}

/// Adds the first statement of a line, which may be missing.
fn push_first(parts: &mut Vec<Part>, first: Option<Statement>) -> Result<(), NoMemory>
    ensures { OnOk result (parts_view parts.new.items ≡ parts_view parts.old.items ++ as_parts (statements_in (views.front first))) }
{
    match first {
        Some(statement) => push_part(parts, Part::Statement(statement)),
        None => Ok(()),
    }
}

/// Adds a statement behind its colon, where one is written.
#[tactic(auto, using(crate::proofs::Splits::some_written, crate::proofs::Splits::none_written))]
fn push_next(parts: &mut Vec<Part>, next: NextStatement) -> Result<(), NoMemory>
    ensures { OnOk result (parts_view parts.new.items ≡ parts_view parts.old.items ++ as_parts (written_in (views.next_view next ∷ []))) }
{
    match next.into_statement() {
        Some(written) => push_part(parts, Part::Statement(written)),
        None => Ok(()),
    }
}

/// Adds the statements behind their colons.
fn push_others(parts: &mut Vec<Part>, others: Vec<NextStatement>) -> Result<(), NoMemory>
    ensures { OnOk result (parts_view parts.new.items ≡ parts_view parts.old.items ++ as_parts (written_in (map views.next_view others.items))) }
{
    for next in others {
        push_next(parts, next)?;
    }
    Ok(())
}

/// Adds the parts of a line of statements.
fn push_statements(parts: &mut Vec<Part>, line: StatementLine) -> Result<(), NoMemory>
    ensures { OnOk result (parts_view parts.new.items ≡ parts_view parts.old.items
        ++ parts_of (tree.statement_line line.label (views.put_all (views.front line.first) (map views.next_view line.others.items)))) }
{
    let (label, first, others) = line.into_parts();
    push_label(parts, label)?;
    push_first(parts, first)?;
    push_others(parts, others)
}

/// Adds the parts of a line: its label and each statement between its colons, or the line, where it is no statements.
///
/// It fails only for want of memory.
#[tactic(auto, using(crate::proofs::Splits::whole_parts))]
pub fn push_parts(parts: &mut Vec<Part>, line: LineTree) -> Result<(), NoMemory>
    ensures { OnOk result (parts_view parts.new.items ≡ parts_view parts.old.items ++ parts_of (views.view line)) }
{
    match line.into_statements() {
        Ok(statements) => push_statements(parts, statements),
        Err(whole) => push_part(parts, Part::WholeLine(whole)),
    }
}

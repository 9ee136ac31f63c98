//! What parts bracket.

ghost use Rattle.std.specs.Prelude.{◌≡◌, true, false};
ghost use Rattle.module_parts.specs.Brackets.{IsRole, kind_view};
ghost use Rattle.module_parts.specs.View.{part_view};
ghost use Rattle.vba_module.specs.Blocks as blocks;
ghost use Rattle.vba_module.specs.Parts as parts;
ghost use Rattle.vba_tree.specs.Tree as tree;
ghost use Rattle.vba_tree.specs.View as views;

use crate::bracket::{BlockKind, Bracket};
use crate::part::Part;
use vba_tree::{BlockLine, LineTree, ProcedureKind, ProcedureWords, SimpleStatement, Statement};

/// The kind of a procedure.
fn kind_of(words: ProcedureWords) -> ProcedureKind
    ensures { result ≡ blocks.procedure_of words }
{
    match words {
        ProcedureWords::Sub(_) => ProcedureKind::Sub,
        ProcedureWords::Function(_) => ProcedureKind::Function,
        ProcedureWords::PropertyGet { .. }
        | ProcedureWords::PropertyLet { .. }
        | ProcedureWords::PropertySet { .. } => ProcedureKind::Property,
    }
}

/// An arm that others may follow.
fn arm(kind: BlockKind) -> Bracket
    ensures { IsRole result (blocks.divides (kind_view kind) false) }
{
    Bracket::Divides {
        kind,
        is_last: false,
    }
}

/// The last arm of its block.
fn last_arm(kind: BlockKind) -> Bracket
    ensures { IsRole result (blocks.divides (kind_view kind) true) }
{
    Bracket::Divides {
        kind,
        is_last: true,
    }
}

/// What a line of a block brackets.
fn bracket_of_block(line: &BlockLine) -> Bracket
    ensures { IsRole result (blocks.role_of_block (views.block_line_view line.now)) }
{
    match line {
        BlockLine::If { .. } => Bracket::Opens(BlockKind::If),
        BlockLine::ElseIf { .. } => arm(BlockKind::If),
        BlockLine::Else(_) => last_arm(BlockKind::If),
        BlockLine::EndIf { .. } => Bracket::Closes(BlockKind::If),
        BlockLine::SelectCase { .. } => Bracket::Opens(BlockKind::Select),
        BlockLine::Case { .. } => arm(BlockKind::Select),
        BlockLine::CaseElse { .. } => last_arm(BlockKind::Select),
        BlockLine::EndSelect { .. } => Bracket::Closes(BlockKind::Select),
        BlockLine::For { .. } | BlockLine::ForEach { .. } => Bracket::Opens(BlockKind::For),
        BlockLine::Next { .. } => Bracket::Closes(BlockKind::For),
        BlockLine::Do { .. } => Bracket::Opens(BlockKind::Do),
        BlockLine::Loop { .. } => Bracket::Closes(BlockKind::Do),
        BlockLine::While { .. } => Bracket::Opens(BlockKind::While),
        BlockLine::Wend(_) => Bracket::Closes(BlockKind::While),
        BlockLine::With { .. } => Bracket::Opens(BlockKind::With),
        BlockLine::EndWith { .. } => Bracket::Closes(BlockKind::With),
    }
}

/// What a statement other than a single-line If brackets.
fn bracket_of_simple(statement: &SimpleStatement) -> Bracket
    ensures { IsRole result (blocks.role_of (parts.statement (tree.simple (views.simple_view statement.now)))) }
{
    match statement {
        SimpleStatement::BlockLine(line) => bracket_of_block(line),
        _ => Bracket::Stands,
    }
}

/// What a statement brackets. A line of a block inside a single-line If brackets nothing.
fn bracket_of_statement(statement: &Statement) -> Bracket
    ensures { IsRole result (blocks.role_of (parts.statement (views.statement_view statement.now))) }
{
    match statement {
        Statement::Simple(simple) => bracket_of_simple(simple),
        Statement::SingleLineIf { .. } | Statement::SingleLineIfElse { .. } => Bracket::Stands,
    }
}

/// What a line that is no statements brackets.
fn bracket_of_line(line: &LineTree) -> Bracket
    ensures { IsRole result (blocks.role_of_line (views.view line.now)) }
{
    match line {
        LineTree::EnumHeader(_) => Bracket::Opens(BlockKind::Enum),
        LineTree::EnumEnd { .. } => Bracket::Closes(BlockKind::Enum),
        LineTree::TypeHeader(_) => Bracket::Opens(BlockKind::Type),
        LineTree::TypeEnd { .. } => Bracket::Closes(BlockKind::Type),
        LineTree::ProcedureHeader(header) => {
            Bracket::Opens(BlockKind::Procedure(kind_of(header.words)))
        }
        LineTree::ProcedureEnd(ending) => Bracket::Closes(BlockKind::Procedure(ending.kind)),
        _ => Bracket::Stands,
    }
}

/// What a part brackets (S11).
pub fn bracket_of(part: &Part) -> Bracket
    ensures { IsRole result (blocks.role_of (part_view part.now)) }
{
    match part {
        Part::Label(_) => Bracket::Stands,
        Part::Statement(statement) => bracket_of_statement(statement),
        Part::WholeLine(line) => bracket_of_line(line),
    }
}

//! The kinds of what lines bracket.

ghost use Rattle.std.specs.Prelude.{◌≡◌};
ghost use Rattle.module_parts.specs.Brackets.{kind_view};
ghost use Rattle.vba_module.specs.Blocks as blocks;

use module_parts::BlockKind;
use vba_tree::{ExitKind, ProcedureKind};

/// Is it a procedure, an Enum or a Type? The others are blocks.
pub fn is_outer(kind: BlockKind) -> bool
    ensures { result ≡ blocks.is_outer (kind_view kind) }
{
    match kind {
        BlockKind::Procedure(_) | BlockKind::Enum | BlockKind::Type => true,
        BlockKind::If
        | BlockKind::Select
        | BlockKind::For
        | BlockKind::Do
        | BlockKind::While
        | BlockKind::With => false,
    }
}

/// Are they one kind?
#[tactic(auto, using(crate::proofs::OneKind::one_kind, crate::proofs::OneKind::other_kind))]
pub fn is_same_kind(kind: BlockKind, other: BlockKind) -> bool
    ensures { result ≡ blocks.same_kind (kind_view kind) (kind_view other) }
{
    kind == other
}

/// The kind that an Exit leaves.
pub fn kind_left(kind: ExitKind) -> BlockKind
    ensures { kind_view result ≡ blocks.exit_kind kind }
{
    match kind {
        ExitKind::Sub => BlockKind::Procedure(ProcedureKind::Sub),
        ExitKind::Function => BlockKind::Procedure(ProcedureKind::Function),
        ExitKind::Property => BlockKind::Procedure(ProcedureKind::Property),
        ExitKind::For => BlockKind::For,
        ExitKind::Do => BlockKind::Do,
    }
}

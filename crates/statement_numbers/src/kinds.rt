//! The kinds of blocks.

ghost use Rattle.std.specs.Prelude.{◌≡◌};
ghost use Rattle.module_parts.specs.Brackets.{kind_view};
ghost use Rattle.vba_module.specs.Blocks as blocks;
ghost use Rattle.binder.specs.Numbering as numbering;

use module_parts::BlockKind;

/// Are they one kind?
#[tactic(auto, using(crate::proofs::OneKind::one_kind, crate::proofs::OneKind::other_kind))]
pub fn is_same_kind(kind: BlockKind, other: BlockKind) -> bool
    ensures { result ≡ blocks.same_kind (kind_view kind) (kind_view other) }
{
    kind == other
}

/// Is it a Select Case? Its first arm is awaited behind its header.
pub fn is_select(kind: BlockKind) -> bool
    ensures { result ≡ numbering.is_select (kind_view kind) }
{
    match kind {
        BlockKind::Select => true,
        _ => false,
    }
}

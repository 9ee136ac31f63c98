use vba_tree::ProcedureKind;

/// What lines of a module bracket.
#[derive(Clone, Copy, Debug, PartialEq, Eq)]
pub enum BlockKind {
    Procedure(ProcedureKind),
    Enum,
    Type,
    If,
    Select,
    For,
    Do,
    While,
    With,
}

/// What a part is to the brackets of its module.
#[derive(Clone, Copy, Debug, PartialEq, Eq)]
pub enum Bracket {
    Opens(BlockKind),
    /// An arm; behind the last one, an `Else`, no arm may follow.
    Divides { kind: BlockKind, is_last: bool },
    Closes(BlockKind),
    /// It brackets nothing.
    Stands,
}

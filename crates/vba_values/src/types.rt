/// The kinds of whole numbers: unsigned with 8 bits, and signed with 16, 32 and 64 bits.
#[derive(Clone, Copy, Debug, PartialEq, Eq)]
pub enum WholeKind {
    Byte,
    Integer,
    Long,
    LongLong,
}

/// A declared type. `Class(n)` is the n-th class module of the project, from 1; `Udt(n)` is place n, from 0, of the list
/// of types.
#[derive(Debug, Drop)]
pub enum VType {
    Boolean,
    Byte,
    Integer,
    Long,
    LongLong,
    Currency,
    Text,
    FixedText(u16),
    Object,
    Class(u32),
    Collection,
    Worksheet,
    Range,
    Variant,
    Udt(u32),
    ArrayOf(Box<VType>),
}

/// The operators but `Is`.
#[derive(Clone, Copy, Debug, PartialEq, Eq)]
pub enum OpKind {
    Add,
    Sub,
    Mul,
    IntDiv,
    Mod,
    Divide,
    Power,
    Join,
    Eq,
    Ne,
    Lt,
    Le,
    Gt,
    Ge,
    And,
    Or,
    Xor,
    Eqv,
    Imp,
    Neg,
    Not,
}

/// How texts compare: by units, or by the units of their default case folds.
#[derive(Clone, Copy, Debug, PartialEq, Eq)]
pub enum Compare {
    Binary,
    Folded,
}

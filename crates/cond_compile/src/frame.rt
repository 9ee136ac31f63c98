//! What the reader of expressions keeps.

use crate::operand::Operand;
use crate::operator::{Operator, Prefix};
use vba_base::Name;

/// What waits for an operand or a bracket.
#[derive(Drop)]
pub enum Frame {
    Binary(Operator, Option<Operand>),
    Prefixed(Prefix),
    Paren,
    Index(Option<Operand>),
    TypeTest,
    Named(Name),
    Listed(Option<Operand>),
}

/// What waits for a name.
#[derive(Drop)]
pub enum Waiting {
    WithMember(bool),
    NewObject,
    Member(Option<Operand>),
    TypeName(Option<Operand>),
}

/// An operand is wanted, or one is there: a bare name, or another one; or a name is wanted.
#[derive(Drop)]
pub enum Mode {
    Want,
    Name(Name),
    Have(Option<Operand>),
    Wait(Waiting),
}

use crate::range::PartRange;
use vba_base::Place;
use vba_expression::Expression;
use vba_tree::{Constant, EventLine, ProcedureHeader, Variable};
use vba_words::Identifier;

/// A procedure as its module writes it: its header, the place of that, and the parts up to its end.
#[derive(Clone, Copy)]
pub struct Written<'a> {
    pub place: Place,
    pub header: &'a ProcedureHeader,
    pub body: PartRange<'a>,
}

/// What an entry of a module is.
#[derive(Clone, Copy)]
pub enum What<'a> {
    Variable(&'a Variable),
    Constant(&'a Constant),
    Enum,
    /// A member of an Enum: as much more as told than the value of the last member before it, or itself, that has one
    /// written, or than 0.
    Member {
        value: Option<&'a Expression>,
        steps: usize,
    },
    /// A Type, by the parts behind its header, of which its fields are the members up to its end.
    Type(PartRange<'a>),
    Event(&'a EventLine),
    Procedure(Written<'a>),
}

/// What a module declares: its name, whether other modules see it, and what it is.
#[derive(Clone, Copy)]
pub struct Entry<'a> {
    pub name: &'a Identifier,
    pub is_public: bool,
    pub what: What<'a>,
}

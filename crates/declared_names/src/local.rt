use crate::entry::Written;
use vba_tree::{Constant, Parameter, TypeClause, Variable};
use vba_words::Identifier;

/// A name of a procedure. Variables that are static are kept apart from the others.
#[derive(Clone, Copy)]
pub enum Own<'a> {
    /// The variable of a Function or a Property Get that has its own name.
    Result(Written<'a>),
    Parameter(&'a Parameter),
    Variable {
        variable: &'a Variable,
        is_static: bool,
    },
    Constant(&'a Constant),
    /// The array that a ReDim declares.
    Array {
        type_clause: &'a Option<TypeClause>,
        is_static: bool,
    },
    /// A name that is declared nowhere.
    Undeclared {
        is_static: bool,
    },
}

/// A name of a procedure, and what it is there.
#[derive(Clone, Copy)]
pub struct Local<'a> {
    pub name: &'a Identifier,
    pub own: Own<'a>,
}

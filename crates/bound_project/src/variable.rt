use crate::declared_type::DeclaredType;

/// Where a variable is kept: in its procedure's frame (the result first, then its own variables, then its parameters),
/// among the module variables and statics of the project, or in the object whose procedure runs.
#[derive(Clone, Copy)]
pub enum Storage {
    Local(u32),
    Shared(u32),
    Own(u32),
}

/// A variable, its declared type, and whether it is an array that is declared with bounds.
#[derive(Clone, Copy)]
pub struct Variable {
    pub storage: Storage,
    pub of: DeclaredType,
    pub is_bounded: bool,
}

/// What Err tells.
#[derive(Clone, Copy)]
pub enum ErrMember {
    Number,
    Source,
    Description,
}

/// What these declarations don't say yet: New, `String * length` as a parameter or a result, and a default that has no
/// value.
#[derive(Clone, Copy, Debug, PartialEq, Eq)]
pub struct NotYet;

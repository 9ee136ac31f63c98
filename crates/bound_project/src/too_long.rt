/// A project has more constants, nodes, statements or instructions than a number of 32 bits counts.
#[derive(Clone, Copy, Debug, PartialEq, Eq)]
pub struct TooLong;

ghost use Rattle.std.specs.Prelude.{◌≡◌};
ghost use Rattle.vba_base.specs.declared.fault.OrMemory.TheVariants as answers;

use vba_base::OrMemory;

/// What stops a run: a value or a size that is outside of what vbarun has.
#[derive(Clone, Copy, Debug, PartialEq, Eq)]
pub enum OutKind {
    /// A result would be a Double.
    DoubleResult,
    /// A text is written as a number in a way that isn't read.
    NumberText,
    /// Too many elements or items.
    Elements,
    /// Too many objects.
    Objects,
    /// Too many written cells.
    Cells,
    /// A text of more than 16777216 units.
    TextLength,
    /// Too many links of events.
    Links,
}

/// Why an operation gives no value: an error with a number, which a handler may take, or the end of the run.
#[derive(Clone, Copy, Debug, PartialEq, Eq)]
pub enum Bad {
    Raise(u16),
    Outside(OutKind),
}

impl Bad {
    /// Overflow.
    pub const OVERFLOW: Bad = Bad::Raise(6);
    /// Division by zero.
    pub const DIVISION_BY_ZERO: Bad = Bad::Raise(11);
    /// A result would be a Double.
    pub const DOUBLE_RESULT: Bad = Bad::Outside(OutKind::DoubleResult);
    /// Type mismatch.
    pub const TYPE_MISMATCH: Bad = Bad::Raise(13);
    /// Invalid use of Null.
    pub const INVALID_NULL: Bad = Bad::Raise(94);
}

impl From<Bad> for OrMemory<Bad> {
    ghost from_gives = { λ bad e. e ≡ answers.Fault bad };

    fn from(bad: Bad) -> OrMemory<Bad> {
        OrMemory::Fault(bad)
    }
}

use thiserror::Error;

/// Why a file is no sheet: its first row that has a fault, counted from 1.
#[derive(Clone, Copy, Debug, PartialEq, Eq, Error)]
pub enum BookFault {
    #[error("row {0}: not UTF-8")]
    NotUtf8(u32),
    #[error("too many rows")]
    TooManyRows,
    #[error("row {0}: too many columns")]
    TooManyColumns(u32),
}

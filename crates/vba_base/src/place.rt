/// Where something stands in the sources. Modules, lines and columns count from 1; a column is a unit of the
/// physical line.
#[derive(Clone, Copy, Debug, PartialEq, Eq)]
pub struct Place {
    pub module: u32,
    pub line: u32,
    pub column: u32,
}

/// A static rule (its number) and the place at which a source breaks it.
#[derive(Clone, Copy, Debug, PartialEq, Eq)]
pub struct Refusal {
    pub rule: u8,
    pub place: Place,
}

use vba_values::{ObjId, ObjRef};

/// A WithEvents variable that holds a source: a field of the object `sink`, and the number of its Set.
#[derive(Clone, Copy, Debug, PartialEq, Eq)]
pub struct Linked {
    pub source: ObjRef,
    pub sink: ObjId,
    pub field: u32,
    pub number: u64,
}

use vba_base::Units;

/// What `Err` holds: the number of an error, which is 0 where none is set, its source and its description.
#[derive(Drop)]
pub struct ErrObject {
    pub number: i32,
    pub source: Units,
    pub description: Units,
}

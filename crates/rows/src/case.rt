use std::alloc::{AllocError, Global};

/// A command, the files that it finds, and what it has to answer.
#[derive(Drop)]
pub struct Case {
    pub name: String,
    pub words: Vec<String>,
    pub files: Vec<(String, Vec<u8>)>,
    pub status: u8,
    pub out: Vec<u8>,
    pub err: Vec<u8>,
    /// The files that aren't afterwards as they were before.
    pub after: Vec<(String, Vec<u8>)>,
}

impl Case {
    /// A case of no words and no files, that wants nothing but the status 0.
    pub fn new(alloc: Global) -> Case {
        Case {
            name: String::new(alloc),
            words: Vec::new(alloc),
            files: Vec::new(alloc),
            status: 0,
            out: Vec::new(alloc),
            err: Vec::new(alloc),
            after: Vec::new(alloc),
        }
    }

    /// Such a case with a name.
    pub fn named(alloc: Global, name: &str) -> Result<Case, AllocError> {
        let mut case = Case::new(alloc);
        case.name.push_str(name)?;
        Ok(case)
    }
}

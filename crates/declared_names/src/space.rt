use crate::entry::Entry;
use bound_project::Spelled;
use module_parts::Part;
use vba_base::Units;

/// A module: whether it is a class, its text, and its parts.
#[derive(Clone, Copy)]
pub struct Source<'a> {
    pub is_class: bool,
    pub text: &'a Units,
    pub parts: &'a Vec<Part>,
}

/// A module of a project by its number, from 0, with its name and what it declares.
#[derive(Drop)]
pub struct Space<'a> {
    pub number: usize,
    pub source: Source<'a>,
    pub name: Spelled,
    pub entries: Vec<Entry<'a>>,
}

//! What is done in one go with objects of classes: they are made, found and given their places. The definitions stand in
//! `specs/` of vba_meaning.
#![tactic(auto)]

mod instances;

pub use instances::{field_in, made, made_there, object_there, own_object, stored_made};

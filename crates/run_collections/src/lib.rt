//! What is done in one go with Collections: items are added, counted, found by their numbers and keys, and removed. The
//! definitions stand in `specs/` of vba_meaning.
#![tactic(auto)]

mod adding;
mod changing;
mod items;
mod lists;
mod members;
mod places;
mod removing;
mod used;

pub use items::item_found;
pub use members::{
    CollectionMember, collection_member, member_by_name, names_in_collection, takes_in_collection,
};
pub use used::collection_used;

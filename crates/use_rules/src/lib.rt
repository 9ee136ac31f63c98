//! What is asked of each thing that a statement says: S16 unknown types, S17 unknown names, S18 unknown labels, S23 what
//! the language leaves out.
#![tactic(auto)]

mod body;
mod explicit;
mod labels;
mod left_out;
mod names_item;
mod names_walk;
mod noting;
mod question;
mod said_names;
mod said_types;
mod types_item;
mod types_walk;

pub use body::{BodyFound, note_body, note_left_out_body};
pub use labels::{is_same_label, labels_of, note_all_labels, place_of_label};
pub use left_out::note_suffix;
pub use noting::{lesser_of, note_place};
pub use question::Question;
pub use said_names::note_all_names;
pub use said_types::note_all_types;

//! What a statement does in one go with the host: members of its objects, and what writes cells. The definitions stand in
//! `specs/` of vba_meaning.
#![tactic(auto)]

mod areas;
mod arguments;
mod assigning;
mod by_name;
mod cell_events;
mod clearing;
mod counts;
mod events;
mod indexing;
mod members;
mod places;
mod raising;
mod ranges;
mod reading;
mod sheets;
mod writing;

pub use arguments::{as_given, plains};
pub use assigning::{item_assigned, member_assigned, member_not_set, written_default};
pub use by_name::{NamedArguments, in_parameter_order, named_there};
pub use events::{Event, Told};
pub use indexing::item_by;
pub use members::{is_counted, member_called, member_there, object_member};
pub use places::{assigned_at, path_to, place_at};
pub use raising::{error_given, is_raise};
pub use sheets::first_sheet;

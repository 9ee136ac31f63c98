//! How a frame takes errors: its policy, its active handler and the statement that failed.
#![tactic(auto)]

mod err_object;
mod frame;
mod laws;

pub use err_object::ErrObject;
pub use frame::{At, FrameErrors, Policy, ResumeKind, Taken};
pub use laws::{entered_frames_pass_on, handlers_pass_on_until_they_end, policies_decide_again};

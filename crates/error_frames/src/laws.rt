//! Laws of what a frame does over many calls. The functions do nothing: their contracts are the laws.
ghost use Rattle.std.specs.Prelude.{◌≡◌, List};
ghost use Rattle.error_frames.specs.declared.frame.At.{At};
ghost use Rattle.error_frames.specs.declared.frame.Taken.TheVariants as taken;
ghost use Rattle.error_frames.specs.Calls.{Call, after_call, after_calls, Each, KeepsHandler, KeepsPolicy, EndsHandler};
ghost use Rattle.error_frames.specs.Decision.{decision, entered, after_take};

use crate::frame::FrameErrors;

/// Once a handler took an error, the frame passes on every error, as long as it only sets policies and takes errors.
pub fn handlers_pass_on_until_they_end(frame: FrameErrors)
    ensures { (failed next label : At) (calls : List Call) → decision frame.policy frame.active next ≡ taken.Handler label
        → Each KeepsHandler calls → let later = after_calls (after_take frame failed (taken.Handler label)) calls in
        (after : At) → decision later.policy later.active after ≡ taken.PassOn }
{}

/// Once the handler has ended, the policy decides as in a frame without a handler.
pub fn policies_decide_again(frame: FrameErrors)
    ensures { (call : Call) (next : At) → EndsHandler call → let later = after_call frame call in
        decision later.policy later.active next ≡ decision frame.policy None next }
{}

/// A frame that was just entered passes on every error until a policy is set.
pub fn entered_frames_pass_on()
    ensures { (calls : List Call) (next : At) → Each KeepsPolicy calls → let later = after_calls entered calls in
        decision later.policy later.active next ≡ taken.PassOn }
{}

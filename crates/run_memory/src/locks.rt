// Paths that frames hold.
ghost use Rattle.std.specs.Prelude.{◌≡◌, ◌∷◌, [], map};
ghost use Rattle.vba_meaning.specs.Memory.{is_locked, paths_in_slots, paths_kept};
ghost use Rattle.vba_meaning.specs.Paths.{any_below};
ghost use Rattle.run_memory.specs.Locked.{any_holds, frame_holds};
ghost use Rattle.run_memory.specs.View.{frame_view, kept_at_view, memory_view, path_view, slot_view};

use crate::frame::{Frame, Kept, Slot};
use crate::memory::Memory;
use crate::path::Path;

impl Memory {
    /// What is at a path can't be replaced: a frame holds a path through an array there.
    #[tactic(auto, using(crate::proofs::HeldPaths::locked))]
    pub fn is_locked(&self, place: &Path) -> bool
        ensures { result ≡ is_locked (memory_view self.now) (path_view place.now) }
    {
        self.stands
            && (holds_below(&self.top, place) || callers_hold(self.callers.as_slice(), place))
    }
}

fn callers_hold(callers: &[Frame], place: &Path) -> bool
    ensures { result ≡ any_holds (map frame_view callers.now) (path_view place.now) }
{
    match callers {
        [] => false,
        [first, callers @ ..] => holds_below(first, place) || callers_hold(callers, place),
    }
}

#[tactic(auto, using(crate::proofs::HeldPaths::any_append, crate::proofs::HeldPaths::any_reverse), unfolding(crate::specs::Locked::frame_holds))]
fn holds_below(frame: &Frame, place: &Path) -> bool
    ensures { result ≡ frame_holds (frame_view frame.now) (path_view place.now) }
{
    any_below(frame.pending.as_slice(), place)
        || any_slot_below(frame.slots.as_slice(), place)
        || any_kept_below(frame.keeps.as_slice(), place)
}

fn any_below(paths: &[Path], place: &Path) -> bool
    ensures { result ≡ any_below (map path_view paths.now) (path_view place.now) }
{
    match paths {
        [] => false,
        [first, paths @ ..] => first.is_below(place) || any_below(paths, place),
    }
}

fn any_slot_below(slots: &[Slot], place: &Path) -> bool
    ensures { result ≡ any_below (paths_in_slots (map slot_view slots.now)) (path_view place.now) }
{
    match slots {
        [] => false,
        [first, slots @ ..] => slot_below(first, place) || any_slot_below(slots, place),
    }
}

fn slot_below(slot: &Slot, place: &Path) -> bool
    ensures { result ≡ any_below (paths_in_slots (slot_view slot.now ∷ [])) (path_view place.now) }
{
    match slot {
        Slot::Value(_) => false,
        Slot::Path(path) => path.is_below(place),
    }
}

fn any_kept_below(keeps: &[(u32, Kept)], place: &Path) -> bool
    ensures { result ≡ any_below (paths_kept (map kept_at_view keeps.now)) (path_view place.now) }
{
    match keeps {
        [] => false,
        [first, keeps @ ..] => kept_below(first, place) || any_kept_below(keeps, place),
    }
}

fn kept_below(entry: &(u32, Kept), place: &Path) -> bool
    ensures { result ≡ any_below (paths_kept (kept_at_view entry.now ∷ [])) (path_view place.now) }
{
    match &entry.1 {
        Kept::AtPath(path) => path.is_below(place),
        _ => false,
    }
}

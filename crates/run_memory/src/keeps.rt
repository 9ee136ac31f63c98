// What blocks keep, by the numbers of their headers.
ghost use Rattle.std.specs.Prelude.{◌≡◌, ◌<◌, ◌≤◌, true, OnOk, length, map, reverse};
ghost use Rattle.vba_meaning.specs.Memory.{put};
ghost use Rattle.run_memory.specs.Exchanges.{frames_with};
ghost use Rattle.run_memory.specs.Keeps.{frame_keeping, is_kept, place_in};
ghost use Rattle.run_memory.specs.View.{frame_view, kept_at_view, kept_view, memory_view};

use crate::frame::{Frame, Kept};
use crate::memory::Memory;
use vba_base::NoMemory;

impl Memory {
    /// A block of a frame keeps something else.
    #[tactic(auto, using(crate::proofs::Exchanged::top_changed, crate::proofs::Exchanged::with_caller))]
    pub fn put_kept_at(&mut self, frame: usize, header: u32, kept: Kept) -> Result<(), NoMemory>
        ensures { OnOk result (memory_view self.new ≡ record (memory_view self.old) {
          frames = frames_with (frame_keeping header (kept_view kept)) (memory_view self.old).frames frame;
        }) }
    {
        if !self.stands {
            return Ok(());
        }
        if frame == self.callers.len() {
            return keep_in_frame(&mut self.top, header, kept);
        }
        keep_below(&mut self.callers, frame, header, kept)
    }
}

#[tactic(auto, using(crate::proofs::Exchanged::below_set, crate::proofs::Exchanged::past_callers))]
fn keep_below(
    callers: &mut Vec<Frame>,
    frame: usize,
    header: u32,
    kept: Kept,
) -> Result<(), NoMemory>
    ensures { OnOk result (map frame_view (reverse callers.new.items)
        ≡ frames_with (frame_keeping header (kept_view kept)) (map frame_view (reverse callers.old.items)) frame) }
{
    if frame < callers.len() {
        keep_in_frame(&mut callers[frame], header, kept)
    } else {
        Ok(())
    }
}

fn keep_in_frame(frame: &mut Frame, header: u32, kept: Kept) -> Result<(), NoMemory>
    ensures { OnOk result (frame_view frame.new ≡ frame_keeping header (kept_view kept) (frame_view frame.old)) }
{
    put_kept(&mut frame.keeps, header, kept)
}

/// Puts what a block keeps at its place in text order.
#[tactic(auto, using(crate::proofs::KeptInOrder::put_set, crate::proofs::KeptInOrder::put_inserted))]
pub fn put_kept(keeps: &mut Vec<(u32, Kept)>, header: u32, kept: Kept) -> Result<(), NoMemory>
    ensures { OnOk result (map kept_at_view keeps.new.items ≡ put header (kept_view kept) (map kept_at_view keeps.old.items)) }
{
    let place = place_in(keeps.as_slice(), header);
    if is_kept(keeps.as_slice(), header) {
        keeps[place] = (header, kept);
    } else {
        keeps.insert(place, (header, kept))?;
    }
    Ok(())
}

/// How many blocks stand before a header.
fn place_in(keeps: &[(u32, Kept)], header: u32) -> usize
    ensures place { result ≡ place_in header keeps.now }
    ensures inside { result ≤ length keeps.now }
    ensures kept { is_kept header keeps.now ≡ true → result < length keeps.now }
{
    match keeps {
        [] => 0,
        [first, keeps @ ..] => if first.0 < header {
            place_in(keeps, header) + 1
        } else {
            0
        },
    }
}

fn is_kept(keeps: &[(u32, Kept)], header: u32) -> bool
    ensures { result ≡ is_kept header keeps.now }
{
    match keeps {
        [] => false,
        [first, keeps @ ..] => if first.0 < header {
            is_kept(keeps, header)
        } else {
            first.0 == header
        },
    }
}

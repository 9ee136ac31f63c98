ghost use Rattle.std.specs.Prelude.{◌≡◌, ◌≤◌, ◌<◌, ◌/◌, ◌%◌, ◌++◌, ◌∷◌, [], length, take, drop, slice_index, flat_map, chars, slice_index_or, IfOk, OnOk, OnErr};
ghost use Rattle.std.specs.Char.Escape.{encode_utf16};
ghost use Rattle.field_table.specs.Frames.{AreWhole, behind, with_mark};

use crate::frame::{behind, first_text, push_frame, push_text_frame};
use std::alloc::Global;
use std::marker::Model;
use vba_base::NoMemory;

/// How many frames stand from one mark to the next.
const FRAMES_PER_MARK: u32 = 64;

/// Texts: their frames behind one another, how many there are, and where each 64th frame begins, from the first on.
#[derive(Drop)]
pub struct TextList {
    units: Vec<u16>,
    count: u32,
    marks: Vec<u32>,
}

impl Model for TextList {
    ghost use Rattle.std.specs.Prelude.{ℕ, List};
    ghost use Rattle.field_table.specs.Frames.{AreFrames, texts_in};

    ghost Value = { List (List ℕ) };

    ghost view = { λ t. texts_in t.count t.units.items };

    ghost invariant = { λ t. AreFrames t.count t.units.items t.marks.items };
}

impl TextList {
    /// No texts. It takes no memory.
    pub fn new(alloc: Global) -> TextList
        ensures { result ≡ [] }
    {
        TextList {
            units: Vec::new(alloc),
            count: 0,
            marks: Vec::new(alloc),
        }
    }

    /// No texts, and room for so many with so many units.
    pub fn with_room(alloc: Global, units: usize, texts: usize) -> Result<TextList, NoMemory>
        ensures { IfOk result (λ list. list ≡ []) }
    {
        let long = units / 65_535 * 2;
        let units = Vec::with_capacity(alloc, units.saturating_add(texts).saturating_add(long))?;
        let marks = Vec::with_capacity(alloc, texts.div_ceil(FRAMES_PER_MARK as usize))?;
        Ok(TextList {
            units,
            count: 0,
            marks,
        })
    }

    /// How many texts there are.
    pub fn len(&self) -> u32
        ensures { result ≡ length self.now }
    {
        self.count
    }

    /// The text at a place, counted from 0.
    pub fn text(&self, place: u32) -> &[u16]
        requires { place < length self.now }
        ensures { result.now ≡ slice_index_or self.now place [] }
    {
        first_text(frames_from(&self.units, &self.marks, place))
    }

    /// Adds a text. Without memory, and where there would be more than 4294967295 units with the lengths, nothing changes.
    pub fn push(&mut self, text: &[u16]) -> Result<(), NoMemory>
        ensures ok { OnOk result (self.new ≡ self.old ++ text.now ∷ []) }
        ensures err { OnErr result (self.new ≡ self.old) }
    {
        let begin = self.units.len() as u32;
        push_frame(&mut self.units, text)?;
        mark_frame(&mut self.units, &mut self.marks, self.count, begin)?;
        self.count += 1;
        Ok(())
    }

    /// Adds the units of a text, as `push` does.
    pub fn push_text(&mut self, text: &str) -> Result<(), NoMemory>
        ensures ok { OnOk result (self.new ≡ self.old ++ flat_map encode_utf16 (chars text.now) ∷ []) }
        ensures err { OnErr result (self.new ≡ self.old) }
    {
        let begin = self.units.len() as u32;
        push_text_frame(&mut self.units, text)?;
        mark_frame(&mut self.units, &mut self.marks, self.count, begin)?;
        self.count += 1;
        Ok(())
    }
}

/// The units from the frame on that has this place.
fn frames_from<'a>(units: &'a [u16], marks: &[u32], place: u32) -> &'a [u16]
    requires marked { place / 64 < length marks.now }
    requires below { slice_index marks.now (place / 64) ≤ length units.now }
    requires whole { AreWhole (place % 64) (drop (slice_index marks.now (place / 64)) units.now) }
    ensures { result.now ≡ behind (place % 64) (drop (slice_index marks.now (place / 64)) units.now) }
{
    let mark = marks[(place / FRAMES_PER_MARK) as usize];
    let frames = &units[mark as usize..];
    behind(frames, place % FRAMES_PER_MARK)
}

/// Marks where the last frame begins, which stands behind so many, if it is one of those that have a mark. Without memory
/// that frame is dropped.
fn mark_frame(
    units: &mut Vec<u16>,
    marks: &mut Vec<u32>,
    count: u32,
    begin: u32,
) -> Result<(), NoMemory>
    ensures ok { OnOk result ((units.new.items ≡ units.old.items) × (marks.new.items ≡ with_mark count begin marks.old.items)) }
    ensures err { OnErr result ((units.new.items ≡ take begin units.old.items) × (marks.new.items ≡ marks.old.items)) }
{
    if count % FRAMES_PER_MARK != 0 {
        return Ok(());
    }
    match marks.push(begin) {
        Ok(()) => Ok(()),
        Err(_) => {
            units.truncate(begin as usize);
            Err(NoMemory)
        }
    }
}

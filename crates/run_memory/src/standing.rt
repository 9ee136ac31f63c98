// The frame that runs.
ghost use Rattle.std.specs.Prelude.{◌≡◌, true, length};
ghost use Rattle.vba_meaning.specs.Memory.{at_statement, no_frame, rest, top, with_top, frame_left};
ghost use Rattle.run_memory.specs.View.{frame_view, memory_view};

use crate::frame::Frame;
use crate::memory::Memory;
use error_frames::FrameErrors;
use std::alloc::Global;
use vba_values::Value;

impl Frame {
    /// A frame with nothing in it.
    pub fn new(alloc: Global) -> Frame
        ensures { frame_view result ≡ no_frame }
    {
        Frame {
            is_called: true,
            procedure: 0,
            statement: None,
            errors: FrameErrors::new(),
            slots: Vec::new(alloc),
            pending: Vec::new(alloc),
            loops: Vec::new(alloc),
            keeps: Vec::new(alloc),
            returns: Vec::new(alloc),
            me: Value::Empty,
            held: Vec::new(alloc),
        }
    }
}

impl Memory {
    /// A frame stands: a new one where there is none.
    pub fn stand(&mut self, alloc: Global)
        ensures stands { self.new.stands ≡ true }
        ensures same { memory_view self.new ≡ with_top (memory_view self.old) (top (memory_view self.old)) }
    {
        if !self.stands {
            self.top = Frame::new(alloc);
            self.callers = Vec::new(alloc);
            self.stands = true;
        }
    }

    /// How many frames are below the one that runs.
    pub fn below(&self) -> usize
        ensures { result ≡ length (rest (memory_view self.now).frames) }
    {
        if self.stands { self.callers.len() } else { 0 }
    }

    /// A statement begins.
    pub fn at_statement(&mut self, alloc: Global, statement: u32)
        ensures { memory_view self.new ≡ at_statement (memory_view self.old) statement }
    {
        self.stand(alloc);
        self.top.statement = Some(statement);
    }

    /// The frame that runs is left.
    pub fn frame_left(&mut self)
        ensures { memory_view self.new ≡ frame_left (memory_view self.old) }
    {
        match self.callers.pop() {
            Some(frame) => self.top = frame,
            None => self.stands = false,
        }
    }
}

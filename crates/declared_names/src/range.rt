ghost use Rattle.std.specs.Prelude.{◌≡◌, ◌≤◌, ◌-◌, length, take, drop};
ghost use Rattle.declared_names.specs.Range.{range_items};

use module_parts::Part;

/// Some parts of a module, one after another: those from `start` up to `end`, both counted from 0, or none where these
/// aren't there.
#[derive(Clone, Copy)]
pub struct PartRange<'a> {
    pub all: &'a Vec<Part>,
    pub start: usize,
    pub end: usize,
}

impl<'a> PartRange<'a> {
    /// The parts from a place on.
    pub fn behind(all: &'a Vec<Part>, start: usize) -> PartRange<'a>
        ensures { range_items result ≡ drop start all.now.items }
    {
        PartRange {
            all,
            start,
            end: all.len(),
        }
    }

    /// The parts from a place up to another, both of which are there.
    pub fn between(all: &'a Vec<Part>, start: usize, end: usize) -> PartRange<'a>
        requires order { start ≤ end }
        requires there { end ≤ length all.now.items }
        ensures { range_items result ≡ take (end - start) (drop start all.now.items) }
    {
        PartRange { all, start, end }
    }

    /// These parts, in order.
    pub fn slice(self) -> &'a [Part]
        ensures { result.now ≡ range_items self.entry }
    {
        if self.start <= self.end && self.end <= self.all.len() {
            &self.all[self.start..self.end]
        } else {
            &[]
        }
    }

    /// The first of these parts, so many as are there.
    pub fn first(self, count: usize) -> PartRange<'a>
        requires { count ≤ length (range_items self) }
        ensures { range_items result ≡ take count (range_items self.entry) }
    {
        PartRange {
            all: self.all,
            start: self.start,
            end: self.start.saturating_add(count).min(self.end),
        }
    }
}

ghost use Rattle.std.specs.Prelude.{◌≡◌, [], IfOk};
ghost use Rattle.vba_events.specs.Links.{Linking, unlinked, Connects, disconnected, links_of, stands};

use crate::linked::Linked;
use crate::maps::{BySink, BySource, is_kept, of_source, put, take_out};
use std::alloc::Global;
use std::collections::BTreeMap;
use std::marker::Model;
use vba_base::{NoMemory, OrMemory};
use vba_values::{Bad, ObjId, ObjRef, OutKind};

/// The links, by rising number, and the number that the next one gets.
#[derive(Drop)]
pub struct Links {
    by_source: BySource,
    by_sink: BySink,
    next: u64,
    alloc: Global,
}

impl Model for Links {
    ghost use Rattle.vba_events.specs.Links.{Linking};

    ghost Value = { Linking };

    ghost use Rattle.vba_events.specs.Kept.{AreKept, links_kept};

    ghost view = { λ l. record { links = links_kept l.by_sink.entries; next = l.next } };

    ghost invariant = { λ l. AreKept l.by_source.entries l.by_sink.entries l.next };
}

impl Links {
    /// No links. The first one gets the number 1.
    pub fn new(alloc: Global) -> Links
        ensures { result ≡ unlinked }
    {
        Links::numbered_from(alloc, 1)
    }

    /// No links, with the number of the first one.
    pub(crate) fn numbered_from(alloc: Global, next: u64) -> Links
        ensures { result ≡ record { links = []; next = next } }
    {
        Links {
            by_source: BTreeMap::new(alloc),
            by_sink: BTreeMap::new(alloc),
            next,
            alloc,
        }
    }

    /// Links a field of `sink` to `source` under the next number, in the place of the link that the field has.
    /// Outside(Links) exactly where the next number is the greatest u64. Where it fails nothing changes.
    pub fn connect(&mut self, source: ObjRef, sink: ObjId, field: u32) -> Result<(), OrMemory<Bad>>
        ensures { Connects result self.old source sink field self.new }
    {
        if self.next == u64::MAX {
            return Err(OrMemory::Fault(Bad::Outside(OutKind::Links)));
        }
        let link = Linked {
            source,
            sink,
            field,
            number: self.next,
        };
        put(&mut self.by_source, &mut self.by_sink, link)?;
        self.next += 1;
        Ok(())
    }

    /// Takes out the link of this field of `sink`, where there is one.
    pub fn disconnect(&mut self, sink: ObjId, field: u32)
        ensures { self.new ≡ disconnected self.old sink field }
    {
        take_out(&mut self.by_source, &mut self.by_sink, sink, field);
    }

    /// The links of a source, by rising number.
    pub fn sinks_of(&self, source: &ObjRef) -> Result<Vec<Linked>, NoMemory>
        ensures { IfOk result (λ found. found.items ≡ links_of source.now self.now.links) }
    {
        of_source(self.alloc, &self.by_source, self.next, *source)
    }

    /// Whether that very entry stands, with its number.
    pub fn still(&self, entry: &Linked) -> bool
        ensures { result ≡ stands entry.now self.now.links }
    {
        is_kept(&self.by_sink, entry)
    }
}

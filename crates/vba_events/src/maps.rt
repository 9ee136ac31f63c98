ghost use Rattle.std.specs.Prelude.{◌≡◌, ℕ, MatchResult, IfOk, List};
ghost use Rattle.vba_events.specs.Kept.{AreKept, links_kept, SinkKey, SourceKey, ArePut, AreTakenOut};
ghost use Rattle.vba_events.specs.Links.{links_of, stands};

use crate::linked::Linked;
use std::alloc::Global;
use std::collections::BTreeMap;
use vba_base::NoMemory;
use vba_values::{ObjId, ObjRef};

/// The links under their source and number.
pub type BySource = BTreeMap<(ObjRef, u64), (ObjId, u32)>;

/// The links under their sink and field.
pub type BySink = BTreeMap<(ObjId, u32), (ObjRef, u64)>;

/// Puts a new link in both, and takes out that of its field.
pub fn put(by_source: &mut BySource, by_sink: &mut BySink, link: Linked) -> Result<(), NoMemory>
    requires { AreKept by_source.old.entries by_sink.old.entries link.number }
    ensures { MatchResult result (λ _. ArePut link by_sink.old.entries by_source.new.entries by_sink.new.entries)
        (λ _. (by_source.new.entries ≡ by_source.old.entries) × (by_sink.new.entries ≡ by_sink.old.entries)) }
{
    let source_key = (link.source, link.number);
    let sink_key = (link.sink, link.field);
    let _ = by_source.insert(source_key, sink_key)?;
    match by_sink.insert(sink_key, source_key) {
        Ok(None) => Ok(()),
        Ok(Some(replaced)) => {
            let _ = by_source.remove(&replaced);
            Ok(())
        }
        Err(_) => {
            let _ = by_source.remove(&source_key);
            Err(NoMemory)
        }
    }
}

/// Takes out the link of a field, where there is one.
pub fn take_out(by_source: &mut BySource, by_sink: &mut BySink, sink: ObjId, field: u32)
    ensures { (next : ℕ) → AreKept by_source.old.entries by_sink.old.entries next
        → AreTakenOut sink field by_sink.old.entries next by_source.new.entries by_sink.new.entries }
{
    if let Some(held) = by_sink.remove(&(sink, field)) {
        let _ = by_source.remove(&held);
    }
}

/// The links of a source, in order, where all numbers are below `next`.
pub fn of_source(
    alloc: Global,
    by_source: &BySource,
    next: u64,
    source: ObjRef,
) -> Result<Vec<Linked>, NoMemory>
    ensures { (sinks : List (SinkKey × SourceKey)) → AreKept by_source.now.entries sinks next
        → IfOk result (λ found. found.items ≡ links_of source (links_kept sinks)) }
{
    let mut found = Vec::new(alloc);
    for (key, place) in by_source.range((source, 0)..(source, next)) {
        found.push(Linked {
            source: key.0,
            sink: place.0,
            field: place.1,
            number: key.1,
        })?;
    }
    Ok(found)
}

/// Whether that very link is kept.
pub fn is_kept(by_sink: &BySink, link: &Linked) -> bool
    ensures { (sources : List (SourceKey × SinkKey)) (next : ℕ) → AreKept sources by_sink.now.entries next
        → result ≡ stands link.now (links_kept by_sink.now.entries) }
{
    match by_sink.get(&(link.sink, link.field)) {
        Some(key) => (link.source, link.number) == *key,
        None => false,
    }
}

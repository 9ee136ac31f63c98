use crate::{micros_now, out_of_memory, tell};
use std::alloc::Global;
use std::io;
use std::time::CpuClock;
use vba_base::NoMemory;
use vba_events::Links;
use vba_values::{ObjId, ObjRef};

/// How many links each source has.
const SINKS: u32 = 100;

/// Sets so many links, a hundred on each source, reads each source's links once and takes each tenth link out; and twice
/// as many.
pub fn bench_links(rt: &(impl Print + CpuClock + AllocGlobal), size: u32) -> io::Result<()> {
    let once = time_links(rt, size)?;
    let twice = time_links(rt, size.saturating_mul(2))?;
    tell(rt, "links", size, once, twice)
}

// The microseconds that the work on so many links takes.
fn time_links(rt: &(impl CpuClock + AllocGlobal), size: u32) -> io::Result<u64> {
    let before = micros_now(rt)?;
    if work_on_links(rt.alloc(), size).is_err() {
        return Err(out_of_memory());
    }
    Ok(micros_now(rt)?.saturating_sub(before))
}

fn work_on_links(alloc: Global, size: u32) -> Result<(), NoMemory> {
    let mut links = Links::new(alloc);
    for sink in 0..size {
        let source = ObjRef::Heap(ObjId(sink / SINKS));
        if links.connect(source, ObjId(sink), 0).is_err() {
            return Err(NoMemory);
        }
    }
    for source in 0..size / SINKS {
        let found = links.sinks_of(&ObjRef::Heap(ObjId(source)))?;
        for entry in &found {
            let _stands = links.still(entry);
        }
    }
    for tenth in 0..size / 10 {
        links.disconnect(ObjId(tenth), 0);
    }
    Ok(())
}

use vba_events::{Linked, Links};
use vba_values::{ObjId, ObjRef};

const ONE: ObjRef = ObjRef::Heap(ObjId(1));

const TWO: ObjRef = ObjRef::Heap(ObjId(2));

fn link(source: ObjRef, sink: u32, field: u32, number: u64) -> Linked {
    Linked {
        source,
        sink: ObjId(sink),
        field,
        number,
    }
}

/// Whether these are the links of a source.
fn has(links: &Links, source: ObjRef, wanted: &[Linked]) -> bool {
    match links.sinks_of(&source) {
        Ok(found) => found.as_slice() == wanted,
        Err(_) => false,
    }
}

/// Whether a field of a sink was linked.
fn connects(links: &mut Links, source: ObjRef, sink: u32, field: u32) -> bool {
    links.connect(source, ObjId(sink), field).is_ok()
}

#[test]
fn links_stand_by_set_number(rt: HostRuntime) {
    let mut links = Links::new(rt.alloc());
    let mut made = connects(&mut links, ONE, 10, 0);
    made = connects(&mut links, ONE, 11, 0) && made;
    made = connects(&mut links, TWO, 10, 1) && made;
    made = connects(&mut links, ONE, 9, 5) && made;
    let first = [link(ONE, 10, 0, 1), link(ONE, 11, 0, 2), link(ONE, 9, 5, 4)];
    assert!(rt; made && has(&links, ONE, &first));

    // Set again, and set to Nothing.
    made = connects(&mut links, ONE, 10, 0);
    links.disconnect(ObjId(11), 0);
    let second = [link(ONE, 9, 5, 4), link(ONE, 10, 0, 5)];
    assert!(rt; made && has(&links, ONE, &second));
    assert!(rt; !links.still(&link(ONE, 10, 0, 1)) && links.still(&link(ONE, 10, 0, 5)));

    // Set to another source, while the other field of sink 10 stays.
    made = connects(&mut links, TWO, 9, 5);
    links.disconnect(ObjId(10), 0);
    links.disconnect(ObjId(12), 0);
    made = connects(&mut links, ONE, 10, 0) && made;
    assert!(rt; made && has(&links, ONE, &[link(ONE, 10, 0, 7)]));
    assert!(rt; has(&links, TWO, &[link(TWO, 10, 1, 3), link(TWO, 9, 5, 6)]));
    assert!(rt; links.still(&link(TWO, 10, 1, 3)) && !links.still(&link(ONE, 10, 1, 3)));
}

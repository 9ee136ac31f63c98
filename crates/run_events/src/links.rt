// Which WithEvents variables have a source.
ghost use Rattle.std.specs.Prelude.{◌≡◌, ◌==◌, IfOk, None, OnOk, Some, length, map, nat_lt, not, option_map, slice_index_or};
ghost use Rattle.vba_values.specs.Objects.{same_object};
ghost use Rattle.vba_values.specs.View.{view};
ghost use Rattle.vba_events.specs.Links.{links_of, stands};
ghost use Rattle.vba_events.specs.Order.{insert_link};
ghost use Rattle.vba_meaning.specs.Events.{link_of, links, links_in, sinks, source_of};
ghost use Rattle.run_memory.specs.View.{memory_view, object_view};
ghost use Rattle.run_events.specs.Sought.{any_linked, any_numbered, has_number, inserted_all, inserted_links, is_linked, is_numbered, is_set_to, place_among, source_in, stands_in};

use run_memory::{Memory, Object};
use std::alloc::Global;
use vba_base::NoMemory;
use vba_events::Linked;
use vba_values::{ObjId, ObjRef, Value};

/// The object that a value is.
pub fn source_of(value: &Value) -> ObjRef
    ensures { result ≡ source_of (view value.now) }
{
    match value {
        Value::Object(reference) => *reference,
        _ => ObjRef::Nothing,
    }
}

/// The object that a variable of an object has.
fn source_in(object: &Object, field: u32) -> ObjRef
    ensures { result ≡ source_in (object_view object.now) field }
{
    match object.fields.get(field as usize) {
        Some(value) => source_of(value),
        None => ObjRef::Nothing,
    }
}

/// Whether two references are to the same object.
#[tactic(auto, using(vba_values::proofs::SameObjects::object_equal))]
fn is_same(left: ObjRef, right: ObjRef) -> bool
    ensures { result ≡ same_object left right }
{
    left == right
}

/// The links of a source, by rising set number. Its time goes with the number of objects.
pub fn sinks(memory: &Memory, alloc: Global, source: ObjRef) -> Result<Vec<Linked>, NoMemory>
    ensures { IfOk result (λ links. links.items ≡ sinks source (memory_view memory.now)) }
{
    let mut links = Vec::new(alloc);
    let mut number = memory.objects.len();
    while number > 0 {
        number -= 1;
        add_links(&mut links, number, &memory.objects[number], source)?;
    }
    Ok(links)
}

/// The links of an object's variables come among those of the objects behind it.
fn add_links(
    links: &mut Vec<Linked>,
    number: usize,
    object: &Option<Object>,
    source: ObjRef,
) -> Result<(), NoMemory>
    ensures { OnOk result (links.new.items ≡ inserted_all source number (option_map object_view object.now) links.old.items) }
{
    match object {
        Some(object) => add_numbered(links, number, object, object.set_numbers.as_slice(), source),
        None => Ok(()),
    }
}

/// The same of some of its variables.
#[tactic(auto, using(crate::proofs::Ordered::entries_step))]
fn add_numbered(
    links: &mut Vec<Linked>,
    number: usize,
    object: &Object,
    entries: &[(u32, Option<u64>)],
    source: ObjRef,
) -> Result<(), NoMemory>
    ensures { OnOk result (links.new.items ≡ inserted_links (links_of source (links_in number (object_view object.now) entries.now)) links.old.items) }
{
    match entries {
        [] => Ok(()),
        [first, entries @ ..] => {
            add_numbered(links, number, object, entries, source)?;
            add_link(links, number, object, first.0, first.1, source)
        }
    }
}

/// The same of one of its variables.
fn add_link(
    links: &mut Vec<Linked>,
    number: usize,
    object: &Object,
    field: u32,
    set: Option<u64>,
    source: ObjRef,
) -> Result<(), NoMemory>
    ensures { OnOk result (links.new.items ≡ inserted_links (links_of source (link_of number (object_view object.now) field set)) links.old.items) }
{
    let Some(set) = set else {
        return Ok(());
    };
    let has = source_in(object, field);
    if is_same(source, has) {
        let Ok(number) = u32::try_from(number) else {
            return Err(NoMemory);
        };
        let link = Linked {
            source: has,
            sink: ObjId(number),
            field,
            number: set,
        };
        return insert_link(links, link);
    }
    Ok(())
}

/// A link is put before the first one with a greater number.
fn insert_link(links: &mut Vec<Linked>, link: Linked) -> Result<(), NoMemory>
    ensures { OnOk result (links.new.items ≡ insert_link link links.old.items) }
{
    let place = place_of(links.as_slice(), link.number);
    links.insert(place, link)?;
    Ok(())
}

/// Whether a link has a greater number.
fn is_later(link: &Linked, number: u64) -> bool
    ensures { result ≡ nat_lt number link.now.number }
{
    number < link.number
}

/// How many links stand before the first one with a greater number.
#[tactic(auto, using(crate::proofs::Ordered::place_goes_on, crate::proofs::Ordered::place_ends))]
fn place_of(links: &[Linked], number: u64) -> usize
    ensures { result ≡ place_among number links.now }
{
    for (place, link) in links.iter().enumerate() {
        if is_later(link, number) {
            return place;
        }
    }
    links.len()
}

/// Whether some variable has a source. Its time goes with the number of objects.
pub(crate) fn has_sinks(memory: &Memory, source: ObjRef) -> bool
    ensures { result ≡ not (length (sinks source (memory_view memory.now)) == 0) }
{
    any_linked(memory.objects.as_slice(), source)
}

/// Whether a variable of some object has a source.
fn any_linked(objects: &[Option<Object>], source: ObjRef) -> bool
    ensures { result ≡ any_linked source (map (option_map object_view) objects.now) }
{
    for object in objects {
        if is_linked(object, source) {
            return true;
        }
    }
    false
}

/// Whether a variable of an object has a source.
fn is_linked(object: &Option<Object>, source: ObjRef) -> bool
    ensures { result ≡ is_linked source (option_map object_view object.now) }
{
    match object {
        Some(object) => any_numbered(object, object.set_numbers.as_slice(), source),
        None => false,
    }
}

/// Whether a variable has a source.
fn is_set_to(object: &Object, entry: &(u32, Option<u64>), source: ObjRef) -> bool
    ensures { result ≡ is_set_to source (object_view object.now) entry.now }
{
    match entry.1 {
        Some(_) => is_same(source, source_in(object, entry.0)),
        None => false,
    }
}

/// The same of some of its variables.
fn any_numbered(object: &Object, entries: &[(u32, Option<u64>)], source: ObjRef) -> bool
    ensures { result ≡ any_numbered source (object_view object.now) entries.now }
{
    match entries {
        [] => false,
        [first, entries @ ..] => {
            is_set_to(object, first, source) || any_numbered(object, entries, source)
        }
    }
}

/// Whether that very link still stands: its variable has the source and the number.
pub(crate) fn stands(memory: &Memory, link: &Linked) -> bool
    ensures { result ≡ stands link.now (links (memory_view memory.now)) }
{
    stands_at(memory.objects.as_slice(), link)
}

/// The same by the objects.
fn stands_at(objects: &[Option<Object>], link: &Linked) -> bool
    ensures { result ≡ stands_in link.now (slice_index_or (map (option_map object_view) objects.now) link.now.sink.0 None) }
{
    match objects.get(link.sink.0 as usize) {
        Some(Some(object)) => stands_in(object, link),
        _ => false,
    }
}

/// The same in the object that has the variable.
fn stands_in(object: &Object, link: &Linked) -> bool
    ensures { result ≡ stands_in link.now (Some (object_view object.now)) }
{
    is_same(link.source, source_in(object, link.field))
        && has_number(object.set_numbers.as_slice(), link.field, link.number)
}

/// Whether an entry is that of a variable with this set number.
fn is_numbered(entry: &(u32, Option<u64>), field: u32, number: u64) -> bool
    ensures { result ≡ is_numbered field number entry.now }
{
    match entry.1 {
        Some(own) => field == entry.0 && number == own,
        None => false,
    }
}

/// Whether a variable has this set number.
fn has_number(entries: &[(u32, Option<u64>)], field: u32, number: u64) -> bool
    ensures { result ≡ has_number field number entries.now }
{
    match entries {
        [] => false,
        [first, entries @ ..] => {
            is_numbered(first, field, number) || has_number(entries, field, number)
        }
    }
}

// What a Collection has.
ghost use Rattle.std.specs.Prelude.{◌≡◌, ◌<◌, bytes_eq, length, map, option_map};
ghost use Rattle.vba_meaning.specs.Collections.{collection_member, member_by_name, names_in_collection, takes_in_collection};
ghost use Rattle.run_memory.specs.Acts.{Acts};
ghost use Rattle.run_memory.specs.View.{memory_view};
ghost use Rattle.run_collections.specs.View.{member_view};

use run_memory::Memory;
use vba_base::OrMemory;
use vba_values::{Bad, ObjId, ObjRef};

/// What a Collection has. The enumerator is the hidden `_NewEnum`, which gives the Collection itself.
#[derive(Clone, Copy)]
pub enum CollectionMember {
    Add,
    Count,
    Item,
    Remove,
    Enumerator,
}

/// The member of a counted object, by its folded name: 438 where it has no such one, as each object of a class.
pub fn collection_member(
    memory: &Memory,
    number: u32,
    name: &[u16],
) -> Result<CollectionMember, OrMemory<Bad>>
    ensures { Acts member_view result (memory_view memory.now) (collection_member number name.now (memory_view memory.now)) }
{
    if memory.class_of(ObjRef::Heap(ObjId(number))) != 0 {
        return Err(OrMemory::Fault(Bad::Raise(438)));
    }
    match member_by_name(name) {
        Some(member) => Ok(member),
        None => Err(OrMemory::Fault(Bad::Raise(438))),
    }
}

/// The member of a Collection, by its folded name.
pub fn member_by_name(name: &[u16]) -> Option<CollectionMember>
    ensures { option_map member_view result ≡ member_by_name name.now }
{
    if is_word(name, b"add") {
        Some(CollectionMember::Add)
    } else if is_word(name, b"count") {
        Some(CollectionMember::Count)
    } else if is_word(name, b"item") {
        Some(CollectionMember::Item)
    } else if is_word(name, b"remove") {
        Some(CollectionMember::Remove)
    } else if is_word(name, b"_newenum") {
        Some(CollectionMember::Enumerator)
    } else {
        None
    }
}

/// Whether these are the units of an ASCII word.
fn is_word(name: &[u16], word: &[u8]) -> bool
    ensures { result ≡ bytes_eq name.now word.now }
{
    match (name, word) {
        ([], []) => true,
        ([unit, units @ ..], [byte, bytes @ ..]) => *unit == u16::from(*byte)
            && is_word(units, bytes),
        _ => false,
    }
}

/// How many arguments a member may have.
pub fn takes_in_collection(member: CollectionMember) -> &'static [u32]
    ensures { result.now ≡ takes_in_collection (member_view member) }
{
    match member {
        CollectionMember::Add => &[1, 2, 3, 4],
        CollectionMember::Item | CollectionMember::Remove => &[1],
        CollectionMember::Count | CollectionMember::Enumerator => &[0],
    }
}

/// The names of a member's parameters; a member that has such must be given the first.
pub fn names_in_collection(member: CollectionMember) -> &'static [&'static [u8]]
    ensures names { map (λ w. w.now) result.now ≡ names_in_collection (member_view member) }
    ensures few { length result.now < 5 }
{
    match member {
        CollectionMember::Add => &[b"item", b"key", b"before", b"after"],
        CollectionMember::Item | CollectionMember::Remove => &[b"index"],
        CollectionMember::Count | CollectionMember::Enumerator => &[],
    }
}

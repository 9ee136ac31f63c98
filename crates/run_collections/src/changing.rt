// Collections with one item more and one less. An object that isn't there, which no run names, counts as want of memory.
ghost use Rattle.std.specs.Prelude.{◌≡◌, OnOk, Some, map, option_map};
ghost use Rattle.vba_values.specs.View.{view};
ghost use Rattle.vba_meaning.specs.Memory.{object_or};
ghost use Rattle.run_memory.specs.View.{object_view};
ghost use Rattle.run_collections.specs.Parts.{object_changed, with_item, without_item};

use crate::lists::{put_at, remove_at};
use run_memory::Object;
use vba_base::{NoMemory, Units};
use vba_values::Value;

/// One more item with its key: room for both is taken before there is one.
#[tactic(auto, using(crate::proofs::Placed::put_mapped))]
fn put_in_items(
    object: &mut Object,
    place: usize,
    item: Value,
    key: Option<Units>,
) -> Result<(), NoMemory>
    ensures { OnOk result (object_view object.new ≡ with_item place (view item) key (object_view object.old)) }
{
    object.keys.try_reserve(1)?;
    put_at(&mut object.fields, place, item)?;
    put_at(&mut object.keys, place, key)
}

fn put_in_object(
    object: &mut Option<Object>,
    place: usize,
    item: Value,
    key: Option<Units>,
) -> Result<(), NoMemory>
    ensures { OnOk result (option_map object_view object.new ≡ Some (with_item place (view item) key (object_or (option_map object_view object.old)))) }
{
    match object {
        Some(object) => put_in_items(object, place, item, key),
        None => Err(NoMemory),
    }
}

/// The Collection with a number has one more item.
pub fn put_item(
    objects: &mut Vec<Option<Object>>,
    number: usize,
    place: usize,
    item: Value,
    key: Option<Units>,
) -> Result<(), NoMemory>
    ensures { OnOk result (map (option_map object_view) objects.new.items ≡ object_changed (with_item place (view item) key) number (map (option_map object_view) objects.old.items)) }
{
    if number < objects.len() {
        put_in_object(&mut objects[number], place, item, key)?;
        Ok(())
    } else {
        Err(NoMemory)
    }
}

#[tactic(auto, using(crate::proofs::Placed::without_mapped))]
fn remove_from_items(object: &mut Object, place: usize)
    ensures { object_view object.new ≡ without_item place (object_view object.old) }
{
    remove_at(&mut object.fields, place);
    remove_at(&mut object.keys, place);
}

fn remove_from_object(object: &mut Option<Object>, place: usize) -> Result<(), NoMemory>
    ensures { OnOk result (option_map object_view object.new ≡ Some (without_item place (object_or (option_map object_view object.old)))) }
{
    match object {
        Some(object) => {
            remove_from_items(object, place);
            Ok(())
        }
        None => Err(NoMemory),
    }
}

/// The Collection with a number has an item less.
pub fn remove_item(
    objects: &mut Vec<Option<Object>>,
    number: usize,
    place: usize,
) -> Result<(), NoMemory>
    ensures { OnOk result (map (option_map object_view) objects.new.items ≡ object_changed (without_item place) number (map (option_map object_view) objects.old.items)) }
{
    if number < objects.len() {
        remove_from_object(&mut objects[number], place)?;
        Ok(())
    } else {
        Err(NoMemory)
    }
}

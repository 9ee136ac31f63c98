// WithEvents variables: a Set connects them to their source ([MS-VBAL] 5.2.3.1.2).
ghost use Rattle.std.specs.Prelude.{◌≡◌, Some, option_map};
ghost use Rattle.vba_values.specs.View.{view};
ghost use Rattle.vba_meaning.specs.Effects.{done, is_with_events, with_set_number};
ghost use Rattle.vba_meaning.specs.Memory.{object_at};
ghost use Rattle.run_memory.specs.Acts.{Acts};
ghost use Rattle.run_memory.specs.Connecting.{connects, entry_renumbered, is_nothing, number_drawn, object_renumbered, renumbered_from};
ghost use Rattle.run_memory.specs.View.{memory_view, object_view, root_view};

use crate::memory::{Memory, Object};
use crate::path::Root;
use std::alloc::Global;
use vba_base::OrMemory;
use vba_values::{Bad, ObjRef, OutKind, Value};

/// Whether a value is Nothing.
pub fn is_nothing(value: &Value) -> bool
    ensures { result ≡ is_nothing (view value.now) }
{
    matches!(value, Value::Object(ObjRef::Nothing))
}

impl Memory {
    /// What stands at a root was set, to Nothing or to something else: a WithEvents variable is connected to the object, or
    /// to nothing.
    pub fn connects(
        &mut self,
        alloc: Global,
        root: &Root,
        nothing: bool,
    ) -> Result<(), OrMemory<Bad>>
        ensures { Acts (λ done. done) result (memory_view self.new) (connects (root_view root.now) nothing (memory_view self.old)) }
    {
        let Root::Instance { object, field } = root else {
            return Ok(());
        };
        if !self.is_with_events(*object, *field) {
            return Ok(());
        }
        self.number_drawn(alloc, *object, *field, nothing)
    }

    /// Whether a variable of an object is declared WithEvents.
    fn is_with_events(&self, object: u32, field: u32) -> bool
        ensures { result ≡ is_with_events field (object_at (memory_view self.now) object).set_numbers }
    {
        match self.objects.get(object as usize) {
            Some(Some(object)) => has_number(object.set_numbers.as_slice(), field),
            _ => false,
        }
    }

    /// A Set to an object draws the next number, one to Nothing leaves the variable without one.
    fn number_drawn(
        &mut self,
        alloc: Global,
        object: u32,
        field: u32,
        nothing: bool,
    ) -> Result<(), OrMemory<Bad>>
        ensures { Acts (λ done. done) result (memory_view self.new) (number_drawn object field nothing (memory_view self.old)) }
    {
        if nothing {
            self.renumber(alloc, object, field, None);
            return Ok(());
        }
        let number = self.next_set;
        if number == u64::MAX {
            return Err(OrMemory::Fault(Bad::Outside(OutKind::Links)));
        }
        self.renumber(alloc, object, field, Some(number));
        self.next_set = number + 1;
        Ok(())
    }

    /// A variable of an object has another set number, or none.
    #[tactic(auto, using(crate::proofs::Numbered::object_set, crate::proofs::Numbered::object_past, crate::proofs::Numbered::object_read, crate::proofs::Numbered::object_none))]
    fn renumber(&mut self, alloc: Global, object: u32, field: u32, number: Option<u64>)
        ensures { memory_view self.new ≡ with_set_number object field number (memory_view self.old) }
    {
        let object = object as usize;
        if object < self.objects.len() {
            renumber_object(alloc, &mut self.objects[object], field, number);
        }
    }
}

/// Whether a variable has an entry.
fn has_number(entries: &[(u32, Option<u64>)], field: u32) -> bool
    ensures { result ≡ is_with_events field entries.now }
{
    match entries {
        [] => false,
        [first, entries @ ..] => first.0 == field || has_number(entries, field),
    }
}

/// A variable of an object has another set number, or none.
#[tactic(auto, using(crate::proofs::Renumbered::renumbered_all))]
fn renumber_object(alloc: Global, object: &mut Option<Object>, field: u32, number: Option<u64>)
    ensures { option_map object_view object.new ≡ Some (object_renumbered field number (option_map object_view object.old)) }
{
    match object {
        Some(object) => renumber_from(&mut object.set_numbers, field, number, 0),
        None => *object = Some(Object::none(alloc)),
    }
}

/// An entry has another number, where it is that of the variable.
fn renumber_entry(entry: &mut (u32, Option<u64>), field: u32, number: Option<u64>)
    ensures { entry.new ≡ entry_renumbered field number entry.old }
{
    if entry.0 == field {
        entry.1 = number;
    }
}

/// The same of the entries from a place on.
#[tactic(auto, using(crate::proofs::Renumbered::renumbered_next, crate::proofs::Renumbered::renumbered_past))]
fn renumber_from(
    entries: &mut Vec<(u32, Option<u64>)>,
    field: u32,
    number: Option<u64>,
    from: usize,
)
    ensures { entries.new.items ≡ renumbered_from from field number entries.old.items }
{
    if from < entries.len() {
        renumber_entry(&mut entries[from], field, number);
        renumber_from(entries, field, number, from + 1);
    }
}

// Objects that end, and variables of modules that close.
ghost use Rattle.std.specs.Prelude.{◌≡◌, ◌++◌, IfOk, OnOk, Some, length, map, option_map, slice_index_or, slice_set, true};
ghost use Rattle.vba_values.specs.View.{view};
ghost use Rattle.vba_values.specs.Val.{empty};
ghost use Rattle.vba_meaning.specs.Memory.{no_object, object_at, object_or};
ghost use Rattle.vba_meaning.specs.References.{as_told, closed, gone, objects_in, objects_in_values};
ghost use Rattle.run_memory.specs.View.{memory_view, object_view};

use crate::leaving::add_objects_in;
use crate::memory::{Memory, Object};
use crate::objects::add_objects;
use std::alloc::Global;
use std::mem;
use vba_base::NoMemory;
use vba_values::Value;

impl Object {
    /// No object.
    pub fn none(alloc: Global) -> Object
        ensures { object_view result ≡ no_object }
    {
        Object {
            class: 0,
            is_told: true,
            fields: Vec::new(alloc),
            keys: Vec::new(alloc),
            set_numbers: Vec::new(alloc),
        }
    }
}

impl Memory {
    /// The class of an object, and whether its end was told.
    pub fn is_told(&self, object: u32) -> bool
        ensures { result ≡ (object_at (memory_view self.now) object).told }
    {
        match self.objects.get(object as usize) {
            Some(Some(object)) => object.is_told,
            _ => true,
        }
    }

    /// The end of an object is told.
    #[tactic(auto, using(crate::proofs::Numbered::object_set, crate::proofs::Numbered::object_past, crate::proofs::Numbered::object_read, crate::proofs::Numbered::object_none))]
    pub fn as_told(&mut self, alloc: Global, object: u32)
        ensures { memory_view self.new ≡ as_told object (memory_view self.old) }
    {
        let object = object as usize;
        if object < self.objects.len() {
            tell(alloc, &mut self.objects[object]);
        }
    }

    /// The object leaves the map, and what its fields refer to waits: so many references.
    #[tactic(auto, using(crate::proofs::Numbered::object_set, crate::proofs::Numbered::object_past, crate::proofs::Numbered::object_read, crate::proofs::Numbered::object_none))]
    pub fn gone(&mut self, alloc: Global, object: u32) -> Result<usize, NoMemory>
        ensures count { IfOk result (λ count. count ≡ length (objects_in_values (object_at (memory_view self.old) object).fields)) }
        ensures gone { OnOk result (memory_view self.new ≡ gone object (memory_view self.old)) }
    {
        let mut objects = Vec::new(alloc);
        let number = object as usize;
        if number >= self.objects.len() {
            return Ok(0);
        }
        add_fields(alloc, &mut objects, &self.objects[number])?;
        self.objects[number] = None;
        let count = objects.len();
        self.waits(objects)?;
        Ok(count)
    }

    /// A variable of a module takes its first value, and what it referred to waits: so many references.
    pub fn closed(&mut self, alloc: Global, shared: u32, first: Value) -> Result<usize, NoMemory>
        ensures count { IfOk result (λ count. count ≡ length (objects_in (slice_index_or (memory_view self.old).shared shared empty))) }
        ensures closed { OnOk result (memory_view self.new ≡ closed shared (view first) (memory_view self.old)) }
    {
        let old = close_value(&mut self.shared, shared as usize, first);
        let mut objects = Vec::new(alloc);
        add_objects(alloc, &mut objects, &old)?;
        let count = objects.len();
        self.waits(objects)?;
        Ok(count)
    }
}

/// A variable takes its first value.
#[tactic(auto, using(crate::proofs::Exchanged::value_set, crate::proofs::Numbered::value_there, crate::proofs::Numbered::value_none, crate::proofs::Numbered::value_past))]
fn close_value(values: &mut Vec<Value>, variable: usize, first: Value) -> Value
    ensures old { view result ≡ slice_index_or (map view values.old.items) variable empty }
    ensures new { map view values.new.items ≡ slice_set (map view values.old.items) variable (view first) }
{
    if variable < values.len() {
        mem::replace(&mut values[variable], first)
    } else {
        Value::Empty
    }
}

/// The end of an object is told.
fn tell(alloc: Global, object: &mut Option<Object>)
    ensures { option_map object_view object.new ≡ Some (record (object_or (option_map object_view object.old)) { told = true }) }
{
    match object {
        Some(object) => object.is_told = true,
        None => *object = Some(Object::none(alloc)),
    }
}

/// Adds the objects of the fields of an object.
fn add_fields(
    alloc: Global,
    objects: &mut Vec<u32>,
    object: &Option<Object>,
) -> Result<(), NoMemory>
    ensures { OnOk result (objects.new.items ≡ objects.old.items ++ objects_in_values (object_or (option_map object_view object.now)).fields) }
{
    match object {
        Some(object) => add_objects_in(alloc, objects, object.fields.as_slice()),
        None => Ok(()),
    }
}

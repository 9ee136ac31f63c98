// Functions of the library ([MS-VBAL] 6.1.2); names of classes and Types the project alone has.
ghost use Rattle.std.specs.Prelude.{◌≡◌, ◌≤ℤ◌, ◌++◌, codes, map, option_map, pos, IfOk};
ghost use Rattle.vba_base.specs.Answer.{Gives};
ghost use Rattle.vba_values.specs.View.{array_view, view};
ghost use Rattle.arrays_udt.specs.Paths.{path_value};
ghost use Rattle.vba_lib.specs.Arrays.{numbered_bound};
ghost use Rattle.bound_project.specs.View.{base_view, declarations_view};
ghost use Rattle.vba_meaning.specs.Memory.{Memory as PlainMemory};
ghost use Rattle.vba_meaning.specs.Library.{bound_at, bound_in, class_name, library_answer, library_called};
ghost use Rattle.run_memory.specs.Acts.{Acts};
ghost use Rattle.run_memory.specs.Named.{Named, Told, a_bound, class_spelling, type_spelling};
ghost use Rattle.run_memory.specs.View.{memory_view, path_view};

use crate::looking::inner_value;
use crate::memory::Memory;
use crate::path::Path;
use arrays_udt::PathStep;
use bound_project::Declarations;
use library_calls::library;
use std::alloc::Global;
use vba_base::{NoMemory, OrMemory, Units};
use vba_lib::LibraryFunction;
use vba_values::{ArrayValue, Bad, Bound, Compare, ObjRef, VType, Value};

/// Subscript out of range.
const OUT_OF_RANGE: OrMemory<Bad> = OrMemory::Fault(Bad::Raise(9));

/// The name of a class of the library.
const COLLECTION: &[u16] = &[0x43, 0x6f, 0x6c, 0x6c, 0x65, 0x63, 0x74, 0x69, 0x6f, 0x6e];

/// `()`, which stands behind the name of an array's elements.
const BRACKETS: &[u16] = &[0x28, 0x29];

impl Memory {
    /// A function of the library, of its arguments in order; the running statement holds then what it gives.
    #[tactic(auto, using(crate::proofs::Refused::refused_then))]
    pub fn library_called(
        &mut self,
        alloc: Global,
        declared: &Declarations,
        function: LibraryFunction,
        is_text_form: bool,
        compare: Compare,
        is_base_one: bool,
        arguments: &[Value],
    ) -> Result<Value, OrMemory<Bad>>
        ensures { Acts view result (memory_view self.new)
            (library_called (declarations_view declared.now) function is_text_form compare (base_view is_base_one) (map view arguments.now) (memory_view self.old)) }
    {
        let value = self.library_answer(
            alloc,
            declared,
            function,
            is_text_form,
            compare,
            is_base_one,
            arguments,
        )?;
        self.hold(alloc, &value)?;
        Ok(value)
    }

    /// What it answers.
    fn library_answer(
        &self,
        alloc: Global,
        declared: &Declarations,
        function: LibraryFunction,
        is_text_form: bool,
        compare: Compare,
        is_base_one: bool,
        arguments: &[Value],
    ) -> Result<Value, OrMemory<Bad>>
        ensures { Gives view result
            (library_answer (declarations_view declared.now) function is_text_form compare (base_view is_base_one) (map view arguments.now) (memory_view self.now)) }
    {
        match self.told_name(alloc, declared, function, arguments)? {
            Some(name) => Ok(Value::Text(name)),
            None => library(
                alloc,
                function,
                is_text_form,
                arguments,
                compare,
                base_of(is_base_one),
            ),
        }
    }

    /// What TypeName answers, where the project tells it.
    #[tactic(auto, using(crate::proofs::Named::other_function, crate::proofs::Named::not_one, crate::proofs::Named::one_named))]
    fn told_name(
        &self,
        alloc: Global,
        declared: &Declarations,
        function: LibraryFunction,
        arguments: &[Value],
    ) -> Result<Option<Units>, NoMemory>
        ensures { IfOk result (λ name. Told (declarations_view declared.now) function (map view arguments.now) (memory_view self.now) name) }
    {
        if !matches!(function, LibraryFunction::TypeName) {
            return Ok(None);
        }
        match arguments {
            [value] => self.project_name(alloc, declared, value),
            _ => Ok(None),
        }
    }

    /// TypeName, where the project tells it: of a counted object its class, of an array of a class or a Type that one's
    /// name with `()` behind it.
    fn project_name(
        &self,
        alloc: Global,
        declared: &Declarations,
        value: &Value,
    ) -> Result<Option<Units>, NoMemory>
        ensures { IfOk result (λ name. Named (declarations_view declared.now) (view value.now) (memory_view self.now) name) }
    {
        match value {
            Value::Object(ObjRef::Heap(id)) => {
                let class = self.class_of(ObjRef::Heap(*id));
                let name = Units::from_units(alloc, class_name(declared, class))?;
                Ok(Some(name))
            }
            Value::Array(array) => {
                let name = self.array_name(alloc, declared, array)?;
                Ok(name)
            }
            _ => Ok(None),
        }
    }

    /// The name of an array, where the project tells it.
    fn array_name(
        &self,
        alloc: Global,
        declared: &Declarations,
        array: &ArrayValue,
    ) -> Result<Option<Units>, NoMemory>
        ensures { IfOk result (λ name. Named (declarations_view declared.now) (array_view array.now) (memory_view self.now) name) }
    {
        match array.element {
            VType::Class(number) => {
                let name = with_brackets(alloc, class_name(declared, number))?;
                Ok(Some(name))
            }
            VType::Udt(place) => {
                let name = with_brackets(alloc, type_spelling(declared, place))?;
                Ok(Some(name))
            }
            VType::Boolean
            | VType::Byte
            | VType::Integer
            | VType::Long
            | VType::LongLong
            | VType::Currency
            | VType::Text
            | VType::FixedText(_)
            | VType::Object
            | VType::Collection
            | VType::Worksheet
            | VType::Range
            | VType::Variant
            | VType::ArrayOf(_) => Ok(None),
        }
    }

    /// UBound, or LBound, of what is now at a path: 9 where there is no such place any more.
    pub fn bound_at(
        &self,
        alloc: Global,
        is_upper: bool,
        dimension: i32,
        path: &Path,
    ) -> Result<Value, OrMemory<Bad>>
        ensures { Acts view result (memory_view self.now) (bound_at is_upper dimension (path_view path.now) (memory_view self.now)) }
    {
        let steps = path.plain_steps(alloc)?;
        let object = path.root.object_value();
        let Some(root) = self.root_value(&path.root, &object) else {
            return Err(OUT_OF_RANGE);
        };
        bound_inside(is_upper, dimension, root, steps.as_slice())
    }
}

/// The same of what is at a path inside a value.
fn bound_inside(
    is_upper: bool,
    dimension: i32,
    root: &Value,
    steps: &[PathStep],
) -> Result<Value, OrMemory<Bad>>
    ensures { (m : PlainMemory) → Acts view result m (bound_in is_upper dimension (path_value (view root.now) steps.now) m) }
{
    match inner_value(root, steps) {
        Some(value) => a_bound(is_upper, dimension, value),
        None => Err(OUT_OF_RANGE),
    }
}

/// From where an Array counts.
fn base_of(is_one: bool) -> i32
    ensures base { result ≡ base_view is_one }
    ensures least { pos 0 ≤ℤ result }
    ensures greatest { result ≤ℤ pos 1 }
{
    if is_one { 1 } else { 0 }
}

/// The name of a class by its number: 0 is that of Collection.
#[tactic(auto, using(crate::proofs::Bounds::class_behind))]
fn class_name(declared: &Declarations, class: u32) -> &[u16]
    ensures { result.now ≡ class_name (declarations_view declared.now) class }
{
    if class == 0 {
        return COLLECTION;
    }
    class_spelling(declared, class - 1)
}

/// The name of a class module by its place.
fn class_spelling(declared: &Declarations, place: u32) -> &[u16]
    ensures { result.now ≡ class_spelling (declarations_view declared.now) place }
{
    match declared.classes.get(place as usize) {
        Some(class) => class.name.spelling.units(),
        None => &[],
    }
}

/// The name of a Type by its number.
fn type_spelling(declared: &Declarations, place: u32) -> &[u16]
    ensures { result.now ≡ type_spelling (declarations_view declared.now) place }
{
    match declared.types.get(place as usize) {
        Some(of) => of.name.spelling.units(),
        None => &[],
    }
}

fn with_brackets(alloc: Global, name: &[u16]) -> Result<Units, NoMemory>
    ensures { IfOk result (λ name_of_array. name_of_array ≡ name.now ++ codes "()") }
{
    let mut name = Units::from_units(alloc, name)?;
    name.extend(BRACKETS)?;
    Ok(name)
}

/// UBound, or LBound, of a value.
fn a_bound(is_upper: bool, dimension: i32, value: &Value) -> Result<Value, OrMemory<Bad>>
    ensures { Gives view result (a_bound is_upper (view value.now) dimension) }
{
    match value {
        Value::Array(array) => {
            let bound = numbered_bound(array.bounds.as_slice(), dimension)?;
            Ok(Value::Long(if is_upper { bound.high } else { bound.low }))
        }
        _ => Err(OrMemory::Fault(Bad::TYPE_MISMATCH)),
    }
}

/// A bound by its number, counted from 1.
fn numbered_bound(bounds: &[Bound], number: i32) -> Result<Bound, OrMemory<Bad>>
    ensures { Gives (λ bound. bound) result (numbered_bound bounds.now number) }
{
    let Ok(before) = usize::try_from(i64::from(number) - 1) else {
        return Err(OUT_OF_RANGE);
    };
    match bounds.get(before) {
        Some(bound) => Ok(*bound),
        None => Err(OUT_OF_RANGE),
    }
}

// Err, and what Err.Raise and Error raise ([MS-VBAL] 6.1.3.2).
ghost use Rattle.std.specs.Prelude.{◌≡◌, IfOk, map, slice_index_or};
ghost use Rattle.vba_values.specs.View.{view};
ghost use Rattle.bound_project.specs.View.{declarations_view, member_view};
ghost use Rattle.bound_project.specs.Expressions.{err_description, err_source};
ghost use Rattle.vba_values.specs.Val.{missing};
ghost use Rattle.vba_meaning.specs.Memory.{value};
ghost use Rattle.vba_meaning.specs.Effects.{err_of, given_text, module_name, raised_by, raised_number, slot_value};
ghost use Rattle.run_memory.specs.Told.{told_text};
ghost use Rattle.run_memory.specs.View.{error_view, memory_view, slot_view};

use crate::frame::Slot;
use crate::memory::{Memory, RunError};
use bound_project::{Declarations, ErrMember};
use std::alloc::Global;
use vba_base::{NoMemory, Units};
use vba_values::{Value, message_of};

impl Memory {
    /// The error that these arguments raise: its number, source and description. A number that isn't given, and 0, is 5.
    /// A LongLong beyond a Long has no number here, and counts as want of memory.
    pub fn raised_by(&self, alloc: Global, arguments: &[Slot]) -> Result<RunError, NoMemory>
        ensures { IfOk result (λ error. error_view error ≡ raised_by (map slot_view arguments.now) (memory_view self.now)) }
    {
        let number = number_given(arguments)?;
        let source = text_given(alloc, arguments, 1)?;
        let description = text_given(alloc, arguments, 2)?;
        Ok(RunError {
            number,
            source,
            description,
            procedure: if self.stands { self.top.procedure } else { 0 },
            statement: if self.stands {
                self.top.statement
            } else {
                None
            },
        })
    }

    /// What Err tells: the source is the module of the procedure that raised the error unless one was given, the
    /// description its message.
    pub fn err_of(
        &self,
        alloc: Global,
        declared: &Declarations,
        member: ErrMember,
    ) -> Result<Value, NoMemory>
        ensures { IfOk result (λ value. view value ≡ err_of (declarations_view declared.now) (member_view member) (memory_view self.now).err) }
    {
        match member {
            ErrMember::Number => Ok(Value::Long(self.err.number)),
            ErrMember::Source => self.err_source(alloc, declared),
            ErrMember::Description => self.err_description(alloc, declared),
        }
    }

    fn err_source(&self, alloc: Global, declared: &Declarations) -> Result<Value, NoMemory>
        ensures { IfOk result (λ value. view value ≡ err_of (declarations_view declared.now) err_source (memory_view self.now).err) }
    {
        let name = module_name(declared, self.err.procedure);
        told_text(alloc, self.err.number, &self.err.source, name)
    }

    fn err_description(&self, alloc: Global, declared: &Declarations) -> Result<Value, NoMemory>
        ensures { IfOk result (λ value. view value ≡ err_of (declarations_view declared.now) err_description (memory_view self.now).err) }
    {
        if self.err.number == 0 {
            return Ok(Value::Text(Units::new(alloc)));
        }
        match &self.err.description {
            Some(description) => Ok(Value::Text(description.copy(alloc)?)),
            None => {
                let message = message_of(self.err.number);
                Ok(Value::Text(from_ascii(alloc, message.as_bytes())?))
            }
        }
    }
}

/// What Err tells of a text: nothing where there is no error, and another one where it wasn't given.
fn told_text(
    alloc: Global,
    number: i32,
    text: &Option<Units>,
    other: &[u16],
) -> Result<Value, NoMemory>
    ensures { IfOk result (λ value. view value ≡ told_text number text.now other.now) }
{
    if number == 0 {
        return Ok(Value::Text(Units::new(alloc)));
    }
    match text {
        Some(text) => Ok(Value::Text(text.copy(alloc)?)),
        None => Ok(Value::Text(Units::from_units(alloc, other)?)),
    }
}

fn number_given(arguments: &[Slot]) -> Result<i32, NoMemory>
    ensures { IfOk result (λ number. number ≡ raised_number (slot_value (slice_index_or (map slot_view arguments.now) 0 (value missing)))) }
{
    match arguments.get(0) {
        Some(Slot::Value(value)) => raised_number(value),
        _ => Ok(5),
    }
}

fn raised_number(value: &Value) -> Result<i32, NoMemory>
    ensures { IfOk result (λ number. number ≡ raised_number (view value.now)) }
{
    let number = match value {
        Value::Byte(number) => i64::from(*number),
        Value::Integer(number) => i64::from(*number),
        Value::Long(number) => i64::from(*number),
        Value::LongLong(number) => *number,
        _ => 5,
    };
    if number == 0 {
        return Ok(5);
    }
    match i32::try_from(number) {
        Ok(number) => Ok(number),
        Err(_) => Err(NoMemory),
    }
}

fn text_given(alloc: Global, arguments: &[Slot], place: usize) -> Result<Option<Units>, NoMemory>
    ensures { IfOk result (λ text. text ≡ given_text (slot_value (slice_index_or (map slot_view arguments.now) place (value missing)))) }
{
    match arguments.get(place) {
        Some(Slot::Value(Value::Text(text))) => Ok(Some(text.copy(alloc)?)),
        _ => Ok(None),
    }
}

/// The name of the module of a procedure.
fn module_name(declared: &Declarations, procedure: u32) -> &[u16]
    ensures { result.now ≡ module_name (declarations_view declared.now) procedure }
{
    let module = match declared.procedures.get(procedure as usize) {
        Some(procedure) => procedure.in_module,
        None => 0,
    };
    match declared.modules.get(module as usize) {
        Some(module) => module.name.spelling.units(),
        None => &[],
    }
}

/// A text of these ASCII characters.
fn from_ascii(alloc: Global, bytes: &[u8]) -> Result<Units, NoMemory>
    ensures { IfOk result (λ text. text ≡ bytes.now) }
{
    let mut text = Units::new(alloc);
    for byte in bytes {
        text.push(u16::from(*byte))?;
    }
    Ok(text)
}

// Debug.Print ([MS-VBAL] 5.4.5.8.1).
ghost use Rattle.std.specs.Prelude.{◌≡◌, ◌++◌, [], ◌∷◌, IfOk, OnOk, length, map, replicate};
ghost use Rattle.vba_base.specs.Answer.{Gives};
ghost use Rattle.vba_values.specs.View.{view};
ghost use Rattle.vba_meaning.specs.Memory.{Memory as PlainMemory};
ghost use Rattle.vba_meaning.specs.Effects.{Printed, Tell, done, laid_out, number_shown, printed, show_value, shown_text, to_zone};
ghost use Rattle.run_memory.specs.Acts.{Acts};
ghost use Rattle.run_memory.specs.View.{memory_view, slot_view};

use crate::frame::Slot;
use crate::memory::Memory;
use std::alloc::Global;
use vba_base::{NoMemory, OrMemory, Units};
use vba_values::{Bad, Value, text_of};

const BLANK: u16 = 0x20;

const MINUS: u16 = 0x2d;

/// A value as it is shown.
pub fn show_value(alloc: Global, value: &Value) -> Result<Value, OrMemory<Bad>>
    ensures { (m : PlainMemory) → Acts view result m (show_value (view value.now) m) }
{
    let text = shown_text(alloc, value)?;
    Ok(Value::Text(text))
}

/// The text of a value as it is shown: a number with a blank or minus before it and a blank behind.
fn shown_text(alloc: Global, value: &Value) -> Result<Units, OrMemory<Bad>>
    ensures { Gives (λ text. text) result (shown_text (view value.now)) }
{
    match value {
        Value::Null => Ok(Units::from_units(alloc, &[0x4e, 0x75, 0x6c, 0x6c])?),
        Value::Byte(_)
        | Value::Integer(_)
        | Value::Long(_)
        | Value::LongLong(_)
        | Value::Currency(_) => {
            let digits = text_of(alloc, value)?;
            Ok(number_shown(alloc, digits.units())?)
        }
        Value::Empty
        | Value::Missing
        | Value::Boolean(_)
        | Value::Text(_)
        | Value::Object(_)
        | Value::Array(_)
        | Value::Udt(_) => text_of(alloc, value),
    }
}

fn number_shown(alloc: Global, digits: &[u16]) -> Result<Units, NoMemory>
    ensures { IfOk result (λ text. text ≡ number_shown digits.now) }
{
    let mut text = Units::new(alloc);
    match digits {
        [] => return Ok(text),
        [first, ..] => {
            if *first != MINUS {
                text.push(BLANK)?;
            }
        }
    }
    text.extend(digits)?;
    text.push(BLANK)?;
    Ok(text)
}

impl Memory {
    /// The texts are printed: the line that they are from the column that is open.
    pub fn printed(&mut self, alloc: Global, ends: bool, items: &[Slot]) -> Result<Units, NoMemory>
        ensures { IfOk result (λ line. printed ends (map slot_view items.now) (memory_view self.old) ≡ Tell (Printed line ends ∷ []) (done (memory_view self.new))) }
    {
        let mut line = Units::new(alloc);
        add_items(&mut line, self.column, items)?;
        if ends {
            self.column = 0;
            return Ok(line);
        }
        let Some(column) = self.column.checked_add(line.units().len()) else {
            return Err(NoMemory);
        };
        self.column = column;
        Ok(line)
    }
}

/// Adds texts from a column on, one behind the other; what is no text goes on to the next zone.
fn add_items(line: &mut Units, column: usize, items: &[Slot]) -> Result<(), NoMemory>
    ensures { OnOk result (line.new ≡ line.old ++ laid_out column (map slot_view items.now)) }
{
    match items {
        [] => Ok(()),
        [first, items @ ..] => {
            let width = add_item(line, column, first)?;
            let Some(column) = column.checked_add(width) else {
                return Err(NoMemory);
            };
            add_items(line, column, items)
        }
    }
}

/// Adds one item: how many units it has.
fn add_item(line: &mut Units, column: usize, item: &Slot) -> Result<usize, NoMemory>
    ensures { IfOk result (λ width. (line.new ≡ line.old ++ laid_out column (slot_view item.now ∷ [])) × (width ≡ length (laid_out column (slot_view item.now ∷ [])))) }
{
    match item {
        Slot::Value(Value::Text(text)) => {
            line.extend(text.units())?;
            Ok(text.units().len())
        }
        _ => {
            let width = 14 - column % 14;
            add_blanks(line, width)?;
            Ok(width)
        }
    }
}

fn add_blanks(line: &mut Units, count: usize) -> Result<(), NoMemory>
    ensures { OnOk result (line.new ≡ line.old ++ replicate count 32) }
{
    for _ in 0..count {
        line.push(BLANK)?;
    }
    Ok(())
}

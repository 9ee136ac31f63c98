// Texts as Booleans.
ghost use Rattle.std.specs.Prelude.{◌≡◌};
ghost use Rattle.vba_base.specs.Answer.{Gives};
ghost use Rattle.vba_values.specs.Texts.{boolean_of_text};
ghost use Rattle.vba_values.specs.View.{view};

use crate::fault::Bad;
use crate::number_text::boolean_of_number_text;
use crate::texts::word_of;
use crate::value::Value;
use std::alloc::Global;
use vba_base::{OrMemory, name_of};

/// A text as a Boolean: the words `True` and `False` without case, and number texts.
pub fn boolean_of_text(alloc: Global, text: &[u16]) -> Result<Value, OrMemory<Bad>>
    ensures { Gives view result (boolean_of_text text.now) }
{
    let name = name_of(alloc, text)?;
    if name == name_of(alloc, word_of(true))? {
        return Ok(Value::Boolean(true));
    }
    if name == name_of(alloc, word_of(false))? {
        return Ok(Value::Boolean(false));
    }
    Ok(boolean_of_number_text(text)?)
}

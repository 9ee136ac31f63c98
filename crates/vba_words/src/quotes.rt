ghost use Rattle.std.specs.Prelude.{◌≡◌, IfOk};
ghost use Rattle.vba_words.specs.Readings.{quoted_text, between_quotes};

use std::alloc::Global;
use vba_base::{NoMemory, Units};

/// The quote that begins and ends a string literal.
const QUOTE: u16 = 0x22;

/// The text that a string literal stands for: without its quotes, each doubled quote once.
pub fn quoted_text(alloc: Global, literal: &[u16]) -> Result<Units, NoMemory>
    ensures { IfOk result (λ text. text ≡ quoted_text literal.now) }
{
    match literal {
        [] => Ok(Units::new(alloc)),
        [_, text @ ..] => between_quotes(alloc, text),
    }
}

/// What stands behind the opening quote of a string literal, each doubled quote once.
fn between_quotes(alloc: Global, mut text: &[u16]) -> Result<Units, NoMemory>
    ensures { IfOk result (λ kept. kept ≡ between_quotes text.entry.now) }
{
    let mut kept = Units::new(alloc);
    while let [unit, rest @ ..] = text {
        if *unit != QUOTE {
            kept.push(*unit)?;
            text = rest;
        } else {
            match rest {
                [] => return Ok(kept),
                [double, rest @ ..] => {
                    kept.push(*double)?;
                    text = rest;
                }
            }
        }
    }
    Ok(kept)
}

ghost use Rattle.std.specs.Prelude.{◌≡◌, IfOk};
ghost use Rattle.vba_base.specs.Text.{encoded};

use crate::fault::NoMemory;
use std::alloc::Global;

/// The text in UTF-8, with U+FFFD for a lone surrogate: how printed text is written.
pub fn encode_text(alloc: Global, text: &[u16]) -> Result<Vec<u8>, NoMemory>
    ensures { IfOk result (λ bytes. bytes.items ≡ encoded text.now) }
{
    let text = String::from_utf16_lossy(alloc, text)?;
    Ok(text.into_bytes())
}

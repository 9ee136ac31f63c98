//! Sources, printed texts and names.

use crate::words::{Answer, bytes_of_word, push_bytes, push_text, text_of_word};
use std::alloc::Global;
use vba_base::{decode_source, encode_text, name_of};

/// The text of a source's bytes.
pub fn decoded(alloc: Global, out: &mut String, word: &str) -> Answer<()> {
    let bytes = bytes_of_word(alloc, word)?;
    let text = decode_source(alloc, &bytes)?;
    push_text(out, text.units())
}

/// The bytes of a printed text.
pub fn encoded(alloc: Global, out: &mut String, word: &str) -> Answer<()> {
    let text = text_of_word(alloc, word)?;
    let bytes = encode_text(alloc, text.units())?;
    push_bytes(out, &bytes)
}

/// The units of a copy of a name.
pub fn folded(alloc: Global, out: &mut String, word: &str) -> Answer<()> {
    let text = text_of_word(alloc, word)?;
    let name = name_of(alloc, text.units())?;
    let copy = name.copy(alloc)?;
    push_text(out, copy.units())
}

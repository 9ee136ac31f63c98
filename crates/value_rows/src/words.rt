//! The words of a case: texts, bytes, and words with something in brackets.

use std::alloc::Global;
use std::str::FromStr;
use vba_base::{OrMemory, Units};
use vba_values::Bad;

/// A case that isn't read.
#[derive(Clone, Copy)]
pub struct BadLine;

pub type Answer<T> = Result<T, OrMemory<BadLine>>;

/// A number.
pub fn number<T: FromStr>(word: &str) -> Answer<T>
where
    T::Err: Drop,
{
    word.parse().ok().ok_or(OrMemory::Fault(BadLine))
}

/// A word, and what stands in brackets behind it.
pub fn parts(word: &str) -> (&str, &str) {
    match word.strip_suffix(')') {
        Some(open) => open.split_once('(').unwrap_or((word, "")),
        None => (word, ""),
    }
}

/// The text that a word is.
pub fn text_of_word(alloc: Global, word: &str) -> Answer<Units> {
    let inside = word.strip_prefix('"').ok_or(OrMemory::Fault(BadLine))?;
    let inside = inside.strip_suffix('"').ok_or(OrMemory::Fault(BadLine))?;
    let mut text = Units::new(alloc);
    for (place, piece) in inside.split('\\').enumerate() {
        if place == 0 {
            push_plain(&mut text, piece.as_bytes())?;
        } else {
            push_escaped(&mut text, piece.as_bytes())?;
        }
    }
    Ok(text)
}

pub fn push_plain(text: &mut Units, bytes: &[u8]) -> Answer<()> {
    for byte in bytes {
        text.push(u16::from(*byte))?;
    }
    Ok(())
}

/// Adds what stands behind a backslash.
fn push_escaped(text: &mut Units, bytes: &[u8]) -> Answer<()> {
    let (unit, plain) = match bytes {
        [b's', plain @ ..] => (0x20, plain),
        [b't', plain @ ..] => (0x09, plain),
        [b'r', plain @ ..] => (0x0D, plain),
        [b'n', plain @ ..] => (0x0A, plain),
        [b'b', plain @ ..] => (0x5C, plain),
        [b'u', a, b, c, d, plain @ ..] => (hex_unit([*a, *b, *c, *d]), plain),
        _ => return Err(OrMemory::Fault(BadLine)),
    };
    text.push(unit)?;
    push_plain(text, plain)
}

/// The unit of four hexadecimal digits; another character counts as 0.
fn hex_unit(digits: [u8; 4]) -> u16 {
    let mut unit: u16 = 0;
    for digit in digits {
        let value = char::from(digit).to_digit(16).unwrap_or(0);
        unit = unit.wrapping_mul(16).wrapping_add(value as u16);
    }
    unit
}

/// Writes a text as its word.
pub fn push_text(out: &mut String, text: &[u16]) -> Answer<()> {
    out.push('"')?;
    for unit in text {
        push_unit(out, *unit)?;
    }
    out.push('"')?;
    Ok(())
}

fn push_unit(out: &mut String, unit: u16) -> Answer<()> {
    match unit {
        0x20 => out.push_str("\\s")?,
        0x09 => out.push_str("\\t")?,
        0x0D => out.push_str("\\r")?,
        0x0A => out.push_str("\\n")?,
        0x5C => out.push_str("\\b")?,
        0x21..=0x7E => out.push(char::from_u32(u32::from(unit)).unwrap_or('?'))?,
        _ => write!(out, "\\u{unit:04X}")?,
    }
    Ok(())
}

/// The bytes that a text is.
pub fn bytes_of_word(alloc: Global, word: &str) -> Answer<Vec<u8>> {
    let text = text_of_word(alloc, word)?;
    let mut bytes = Vec::new(alloc);
    for unit in text.units() {
        match u8::try_from(*unit) {
            Ok(byte) => bytes.push(byte)?,
            Err(_) => return Err(OrMemory::Fault(BadLine)),
        }
    }
    Ok(bytes)
}

/// Writes bytes as the word of a text.
pub fn push_bytes(out: &mut String, bytes: &[u8]) -> Answer<()> {
    out.push('"')?;
    for byte in bytes {
        push_unit(out, u16::from(*byte))?;
    }
    out.push('"')?;
    Ok(())
}

/// Writes an error or an end of the run.
pub fn push_bad(out: &mut String, bad: Bad) -> Answer<()> {
    match bad {
        Bad::Raise(number) => write!(out, "raise {number}")?,
        Bad::Outside(kind) => write!(out, "stop {kind:?}")?,
    }
    Ok(())
}

/// Writes why a call gave nothing, unless there is no memory.
pub fn push_fault(out: &mut String, fault: OrMemory<Bad>) -> Answer<()> {
    match fault {
        OrMemory::Fault(bad) => push_bad(out, bad),
        OrMemory::NoMemory => Err(OrMemory::NoMemory),
    }
}

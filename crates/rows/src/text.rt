ghost use Rattle.std.specs.Prelude.{◌<◌, IfSome};

use std::alloc::{AllocError, Global};
use vba_base::OrMemory;

const NO_ESCAPE: OrMemory<&'static str> = OrMemory::Fault("no such escape");

/// Adds the bytes that a text with escapes stands for.
pub fn push_plain(text: &str, into: &mut Vec<u8>) -> Result<(), OrMemory<&'static str>> {
    let mut rest = text.as_bytes();
    while let Some((first, behind)) = rest.split_first() {
        if *first != b'\\' {
            into.push(*first)?;
            rest = behind;
            continue;
        }
        match behind {
            [b'\\', others @ ..] => {
                into.push(b'\\')?;
                rest = others;
            }
            [b'x', high, low, others @ ..] => {
                into.push(byte_of(*high, *low)?)?;
                rest = others;
            }
            _ => return Err(NO_ESCAPE),
        }
    }
    Ok(())
}

// The byte of two hexadecimal digits.
fn byte_of(high: u8, low: u8) -> Result<u8, OrMemory<&'static str>> {
    match (digit(high), digit(low)) {
        (Some(high), Some(low)) => Ok(high * 16 + low),
        _ => Err(NO_ESCAPE),
    }
}

// The value of a hexadecimal digit.
fn digit(letter: u8) -> Option<u8>
    ensures { IfSome result (λ value. value < 16) }
{
    match letter {
        b'0'..=b'9' => Some(letter - b'0'),
        b'A'..=b'F' => Some(letter - b'A' + 10),
        _ => None,
    }
}

/// The text that a word with escapes stands for.
pub fn plain_string(alloc: Global, text: &str) -> Result<String, OrMemory<&'static str>> {
    let mut bytes = Vec::new(alloc);
    push_plain(text, &mut bytes)?;
    match str::from_utf8(bytes.as_slice()) {
        Ok(text) => Ok(String::from_str(alloc, text)?),
        Err(_) => Err(OrMemory::Fault("a word that isn't UTF-8")),
    }
}

/// Adds bytes so many times.
pub fn push_repeated(once: &[u8], times: u32, into: &mut Vec<u8>) -> Result<(), AllocError> {
    for _ in 0..times {
        into.extend_from_slice(once)?;
    }
    Ok(())
}

/// Bytes as a text with escapes.
pub fn escaped(alloc: Global, bytes: &[u8]) -> Result<String, AllocError> {
    let mut text = String::new(alloc);
    for byte in bytes {
        match *byte {
            b'\\' => text.push_str("\\\\")?,
            b' '..=b'~' => text.push(char::from(*byte))?,
            _ => write!(text, "\\x{byte:02X}")?,
        }
    }
    Ok(text)
}

ghost use Rattle.std.specs.Prelude.{◌≡◌, false, map, flat_map, chars, IfOk};
ghost use Rattle.std.specs.Char.Escape.{encode_utf16};
ghost use Rattle.std.specs.Char.Utf16.{has_unpaired_surrogate};
ghost use Rattle.vba_base.specs.Decode.{decoded, windows_1252, without_mark};

use crate::fault::NoMemory;
use crate::units::Units;
use std::alloc::Global;

/// The text of a source: of UTF-8 with an optional byte order mark, which is dropped. Bytes that
/// aren't UTF-8 are read whole as Windows-1252, where 81, 8D, 8F, 90 and 9D are the controls of the
/// same number. The text has no lone surrogate.
pub fn decode_source(alloc: Global, bytes: &[u8]) -> Result<Units, NoMemory>
    ensures text { IfOk result (λ text. text ≡ decoded bytes.now) }
    ensures paired { IfOk result (λ text. has_unpaired_surrogate text ≡ false) }
{
    match str::from_utf8(past_mark(bytes)) {
        Ok(text) => units_of_utf8(alloc, text),
        Err(_) => units_of_windows_1252(alloc, bytes),
    }
}

/// The bytes without a byte order mark before them.
fn past_mark(bytes: &[u8]) -> &[u8]
    ensures { result.now ≡ without_mark bytes.now }
{
    bytes.strip_prefix(b"\xEF\xBB\xBF").unwrap_or(bytes)
}

fn units_of_utf8(alloc: Global, text: &str) -> Result<Units, NoMemory>
    ensures { IfOk result (λ units. units ≡ flat_map encode_utf16 (chars text.now)) }
{
    let mut units = Units::new(alloc);
    for character in text.chars() {
        units.push_character(character)?;
    }
    Ok(units)
}

fn units_of_windows_1252(alloc: Global, bytes: &[u8]) -> Result<Units, NoMemory>
    ensures { IfOk result (λ units. units ≡ flat_map encode_utf16 (map windows_1252 bytes.now)) }
{
    let mut units = Units::new(alloc);
    for byte in bytes {
        units.push_character(windows_1252(*byte))?;
    }
    Ok(units)
}

/// The characters of the bytes 80 to 9F in Windows-1252.
static FROM_80: [char; 32] = [
    '\u{20AC}', '\u{81}', '\u{201A}', '\u{192}', '\u{201E}', '\u{2026}', '\u{2020}', '\u{2021}',
    '\u{2C6}', '\u{2030}', '\u{160}', '\u{2039}', '\u{152}', '\u{8D}', '\u{17D}', '\u{8F}',
    '\u{90}', '\u{2018}', '\u{2019}', '\u{201C}', '\u{201D}', '\u{2022}', '\u{2013}', '\u{2014}',
    '\u{2DC}', '\u{2122}', '\u{161}', '\u{203A}', '\u{153}', '\u{9D}', '\u{17E}', '\u{178}',
];

/// The character of a byte in Windows-1252.
fn windows_1252(byte: u8) -> char
    ensures { result ≡ windows_1252 byte }
{
    match byte {
        0x80..=0x9F => FROM_80[(byte - 0x80) as usize],
        _ => char::from(byte),
    }
}

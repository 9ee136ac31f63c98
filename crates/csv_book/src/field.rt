// Writing one field.
ghost use Rattle.std.specs.Prelude.{◌≡◌, ◌<◌, ◌&&◌, true, ◌++◌, ◌∷◌, [], length, MatchOption, OnOk, unwrap_or};
ghost use Rattle.std.specs.Char.{encode_utf8};
ghost use Rattle.std.specs.Char.Utf16.{is_high_surrogate, is_low_surrogate, lone_unit_char, surrogate_pair_char};
ghost use Rattle.csv.specs.Writing.{default_writer, escaped, field_text, needs_byte, needs_quotes};
ghost use Rattle.vba_base.specs.Text.{encoded};

use vba_base::NoMemory;

/// Writes a field in UTF-8, in quotes where it needs them.
#[tactic(auto, using(crate::proofs::Characters::plain_field))]
pub fn write_field(file: &mut Vec<u8>, text: &[u16]) -> Result<(), NoMemory>
    ensures { OnOk result (file.new.items ≡ file.old.items ++ field_text default_writer (encoded text.now)) }
{
    if needs_quotes(text) {
        file.push(b'"')?;
        write_text(file, text)?;
        file.push(b'"')?;
        Ok(())
    } else {
        write_text(file, text)?;
        Ok(())
    }
}

/// Whether a field needs quotes: it has a comma, a quote or an end of a line.
pub fn needs_quotes(text: &[u16]) -> bool
    ensures { result ≡ needs_quotes default_writer (encoded text.now) }
{
    for unit in text {
        if needs_quote(*unit) {
            return true;
        }
    }
    false
}

/// Whether a field with this unit needs quotes.
fn needs_quote(unit: u16) -> bool
    ensures { result ≡ needs_byte default_writer unit }
{
    matches!(unit, 0x0A | 0x0D | 0x22 | 0x2C)
}

/// Writes a text in UTF-8, each quote twice.
fn write_text(file: &mut Vec<u8>, text: &[u16]) -> Result<(), NoMemory>
    ensures { OnOk result (file.new.items ≡ file.old.items ++ escaped default_writer (encoded text.now)) }
{
    let mut rest = text;
    while let Some((character, behind)) = first_character(rest) {
        write_character(file, character)?;
        rest = behind;
    }
    Ok(())
}

/// Writes a character in UTF-8, and a quote twice.
#[tactic(auto, using(crate::proofs::Characters::quote_written, crate::proofs::Characters::other_written))]
fn write_character(file: &mut Vec<u8>, character: char) -> Result<(), NoMemory>
    ensures { OnOk result (file.new.items ≡ file.old.items ++ escaped default_writer (encode_utf8 character)) }
{
    if character == '"' {
        file.extend_from_slice(b"\"\"")?;
        return Ok(());
    }
    let mut buffer = [0; 4];
    let bytes = character.encode_utf8(&mut buffer).as_bytes();
    file.extend_from_slice(bytes)?;
    Ok(())
}

/// The first character of a text, U+FFFD for a lone surrogate, and the text behind it.
pub fn first_character(text: &[u16]) -> Option<(char, &[u16])>
    ensures text { MatchOption result (encoded text.now ≡ []) (λ first. encoded text.now ≡ encode_utf8 first.0 ++ encoded first.1.now) }
    ensures shorter { MatchOption result Unit (λ first. length first.1.now < length text.now) }
{
    let (unit, behind) = text.split_first()?;
    // Where there is no next unit, 0 stands for it, which is in no pair.
    let next = behind.first().copied().unwrap_or(0);
    if is_pair(*unit, next) {
        Some((character_of_pair(*unit, next), &behind[1..]))
    } else {
        Some((character_of_unit(*unit), behind))
    }
}

/// Whether two units are a pair of surrogates.
fn is_pair(high: u16, low: u16) -> bool
    ensures { result ≡ (is_high_surrogate high && is_low_surrogate low) }
{
    0xD800 <= high && high < 0xDC00 && 0xDC00 <= low && low < 0xE000
}

/// The character of a unit that is in no pair.
fn character_of_unit(unit: u16) -> char
    ensures { result ≡ unwrap_or (lone_unit_char unit) 0xFFFD }
{
    char::from_u32(u32::from(unit)).unwrap_or(char::REPLACEMENT_CHARACTER)
}

/// The character of a pair of surrogates.
fn character_of_pair(high: u16, low: u16) -> char
    requires { (is_high_surrogate high && is_low_surrogate low) ≡ true }
    ensures { result ≡ surrogate_pair_char high low }
{
    let code = 0x1_0000 + (u32::from(high) - 0xD800) * 0x400 + (u32::from(low) - 0xDC00);
    char::from_u32(code).unwrap_or(char::REPLACEMENT_CHARACTER)
}

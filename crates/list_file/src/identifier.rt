//! Which texts are identifiers.

ghost use Rattle.std.specs.Prelude.{◌≡◌, ◌≤◌, ◌∷◌, length};
ghost use Rattle.std.specs.List.{list_all};
ghost use Rattle.std.specs.Char.Utf16 as utf16;
ghost use Rattle.vba_lexer.specs.Characters.{characters_of};
ghost use Rattle.list_file.specs.Lines as lines;

/// Is the unit the first one of a pair?
fn is_high_surrogate(unit: u16) -> bool
    ensures { result ≡ utf16.is_high_surrogate unit }
{
    0xD800 <= unit && unit < 0xDC00
}

/// Is the unit the second one of a pair?
fn is_low_surrogate(unit: u16) -> bool
    ensures { result ≡ utf16.is_low_surrogate unit }
{
    0xDC00 <= unit && unit < 0xE000
}

/// The character of a pair.
fn pair_character(high: u16, low: u16) -> u32
    ensures { result ≡ utf16.surrogate_pair_char high low }
{
    0x1_0000
        + u32::from(high).saturating_sub(0xD800) * 0x400
        + u32::from(low).saturating_sub(0xDC00)
}

/// The first character of a text that begins with a unit, and what stands behind that character.
fn first_character(unit: u16, behind: &[u16]) -> (u32, &[u16])
    ensures first { characters_of (unit ∷ behind.now) ≡ result.0 ∷ characters_of result.1.now }
    ensures shorter { length result.1.now ≤ length behind.now }
{
    match behind {
        [next, rest @ ..] => {
            if is_high_surrogate(unit) && is_low_surrogate(*next) {
                return (pair_character(unit, *next), rest);
            }
            (u32::from(unit), behind)
        }
        [] => (u32::from(unit), behind),
    }
}

/// Does an identifier begin with the character?
fn is_start(character: u32) -> bool
    ensures { result ≡ lines.is_start character }
{
    match char::from_u32(character) {
        Some(scalar) => unicode_ident::is_xid_start(scalar),
        None => false,
    }
}

/// May the character stand in an identifier behind its first one?
fn is_part(character: u32) -> bool
    ensures { result ≡ lines.is_part character }
{
    match char::from_u32(character) {
        Some(scalar) => unicode_ident::is_xid_continue(scalar),
        None => false,
    }
}

/// May each character of a text stand in an identifier behind its first one?
fn are_parts(text: &[u16]) -> bool
    ensures { result ≡ list_all lines.is_part (characters_of text.now) }
{
    let mut left = text;
    while let [unit, behind @ ..] = left {
        let (character, rest) = first_character(*unit, behind);
        if !is_part(character) {
            return false;
        }
        left = rest;
    }
    true
}

/// Is a text an identifier: an XID start character, then XID continue characters?
pub fn is_identifier(text: &[u16]) -> bool
    ensures { result ≡ lines.is_identifier text.now }
{
    match text {
        [unit, behind @ ..] => {
            let (character, rest) = first_character(*unit, behind);
            is_start(character) && are_parts(rest)
        }
        [] => false,
    }
}

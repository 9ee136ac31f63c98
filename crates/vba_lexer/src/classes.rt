//! Classes of characters.

ghost use Rattle.std.specs.Prelude.{◌≡◌};
ghost use Rattle.vba_lexer.specs.Classes as classes;

/// The double quote.
pub const QUOTE: u32 = 34;
/// The line end inside a logical line.
pub const FEED: u32 = 10;

/// A class of characters, of which the forms of tokens are made.
#[derive(Clone, Copy)]
pub enum Class {
    /// What begins a name.
    NameStart,
    /// What a name has behind its first character.
    NamePart,
    Digit,
    HexadecimalDigit,
    OctalDigit,
    /// `E` and `D`, in either case.
    ExponentLetter,
    /// What may stand in brackets.
    BracketPart,
    /// What may stand in a date.
    DatePart,
    /// What is a mark by itself.
    Mark,
    /// This character.
    Exactly(u8),
    /// One of these two characters.
    Either(u8, u8),
}

impl Class {
    /// Is the character in the class?
    pub fn has(self, character: u32) -> bool
        ensures { result ≡ classes.is_in self character }
    {
        match self {
            Class::NameStart => is_name_start(character),
            Class::NamePart => is_name_part(character),
            Class::Digit => is_digit(character),
            Class::HexadecimalDigit => is_hexadecimal_digit(character),
            Class::OctalDigit => '0' as u32 <= character && character <= '7' as u32,
            Class::ExponentLetter => is_one_of(character, b"EeDd"),
            Class::BracketPart => character != ']' as u32 && character != FEED,
            Class::DatePart => character != '#' as u32 && character != QUOTE,
            Class::Mark => is_one_of(character, b"+-*/\\^&=<>(),.:;!#"),
            Class::Exactly(only) => character == u32::from(only),
            Class::Either(one, other) => character == u32::from(one)
                || character == u32::from(other),
        }
    }
}

/// Is the character one of these?
pub fn is_one_of(character: u32, characters: &[u8]) -> bool
    ensures { result ≡ classes.is_one_of character characters.now }
{
    characters.iter().any(|one| u32::from(*one) == character)
}

/// A letter: A to Z and a to z.
fn is_letter(character: u32) -> bool
    ensures { result ≡ classes.is_letter character }
{
    ('A' as u32 <= character && character <= 'Z' as u32)
        || ('a' as u32 <= character && character <= 'z' as u32)
}

/// A decimal digit.
pub fn is_digit(character: u32) -> bool
    ensures { result ≡ classes.is_digit character }
{
    '0' as u32 <= character && character <= '9' as u32
}

/// A hexadecimal digit, in either case.
fn is_hexadecimal_digit(character: u32) -> bool
    ensures { result ≡ classes.is_hexadecimal_digit character }
{
    is_digit(character)
        || ('A' as u32 <= character && character <= 'F' as u32)
        || ('a' as u32 <= character && character <= 'f' as u32)
}

/// Does a name begin with the character: an XID start character?
fn is_name_start(character: u32) -> bool
    ensures { result ≡ classes.is_name_start character }
{
    if character < 128 {
        return is_letter(character);
    }
    match char::from_u32(character) {
        Some(scalar) => unicode_ident::is_xid_start(scalar),
        None => false,
    }
}

/// What a name has behind its first character: an XID continue character.
fn is_name_part(character: u32) -> bool
    ensures { result ≡ classes.is_name_part character }
{
    if character < 128 {
        return is_letter(character) || is_digit(character) || character == '_' as u32;
    }
    match char::from_u32(character) {
        Some(scalar) => unicode_ident::is_xid_continue(scalar),
        None => false,
    }
}

/// White space: blank, tab and the other characters of the Unicode class Zs.
pub fn is_white(character: u32) -> bool
    ensures { result ≡ classes.is_white character }
{
    matches!(
        character,
        0x09 | 0x20 | 0xA0 | 0x1680 | 0x2000..=0x200A | 0x202F | 0x205F | 0x3000
    )
}

/// Does an operand begin here, so that a `&`, `^` or `!` before it is an operator?
fn begins_operand(rest: &[u32]) -> bool
    ensures { result ≡ classes.begins_operand rest.now }
{
    match rest {
        [] => false,
        [character, ..] => {
            is_name_start(*character)
                || is_digit(*character)
                || *character == '_' as u32
                || *character == QUOTE
                || *character == '[' as u32
        }
    }
}

/// Is the character a type suffix, where `rest` follows it on its line?
pub fn is_suffix(character: u32, rest: &[u32]) -> bool
    ensures { result ≡ classes.is_suffix character rest.now }
{
    is_one_of(character, b"%#@$") || (is_one_of(character, b"&^!") && !begins_operand(rest))
}

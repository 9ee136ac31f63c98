//! The first rule of tokens that a line breaks.

ghost use Rattle.std.specs.Prelude.{◌≡◌, ◌≤◌, length, All};
ghost use Rattle.vba_lexer.specs.Characters.{characters_of};
ghost use Rattle.vba_lexer.specs.Faults as faults;
ghost use Rattle.vba_lexer.specs.Inside.{IsWithin};
ghost use Rattle.vba_lexer.specs.Numbers.{number_of};

use crate::characters::first_character;
use crate::number::{NumberFault, number_value, without_suffix};
use crate::token::{Token, TokenKind};
use vba_base::Refusal;

/// The longest word that is no rule's fault, in characters without the suffix.
const LONGEST_WORD: usize = 255;

/// How many characters units spell.
fn character_count(units: &[u16]) -> usize
    ensures { result ≡ length (characters_of units.now) }
{
    let mut count = 0;
    let mut place = 0;
    while place < units.len() {
        let (_, size) = first_character(&units[place..]);
        place += size;
        count += 1;
    }
    count
}

/// The rule that a number literal breaks.
fn number_rule(text: &[u16]) -> Option<u8>
    ensures { result ≡ faults.number_rule (number_of text.now) }
{
    match number_value(text) {
        Ok(_) => None,
        Err(NumberFault::OutOfRange) => Some(4),
        Err(NumberFault::Double) => Some(5),
    }
}

/// The rule that a token of this kind and text breaks.
fn broken_rule(kind: TokenKind, text: &[u16]) -> Option<u8>
    ensures { result ≡ faults.broken_rule kind text.now }
{
    match kind {
        TokenKind::Word if character_count(without_suffix(text)) > LONGEST_WORD => Some(3),
        TokenKind::Whole | TokenKind::Fixed => number_rule(text),
        TokenKind::DateMark => Some(6),
        TokenKind::BadMark if is_quote(text) => Some(2),
        TokenKind::BadMark => Some(1),
        TokenKind::Word | TokenKind::Text | TokenKind::Mark => None,
    }
}

/// Is the text a double quote?
fn is_quote(text: &[u16]) -> bool
    ensures { result ≡ faults.is_quote text.now }
{
    match text {
        [only] => *only == '"' as u16,
        _ => false,
    }
}

/// The first rule that tokens of a source break, by their places.
pub fn first_fault(source: &[u16], tokens: &[Token]) -> Option<Refusal>
    requires { All (IsWithin (length source.now)) tokens.now }
    ensures { result ≡ faults.first_fault source.now tokens.now }
{
    for token in tokens {
        let text = &source[token.start as usize..token.end as usize];
        if let Some(rule) = broken_rule(token.kind, text) {
            return Some(Refusal {
                rule,
                place: token.place,
            });
        }
    }
    None
}

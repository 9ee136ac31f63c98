//! Words of the grammar.

ghost use Rattle.std.specs.Prelude.{◌≡◌, IfOk, bytes_eq};
ghost use Rattle.std.specs.List.{list_any};
ghost use Rattle.vba_base.specs.Fold.{folded};
ghost use Rattle.cond_compile.specs.Words as words;

use std::alloc::Global;
use vba_base::{Name, NoMemory, name_of};
use vba_lexer::without_suffix;

/// The words that are no names, but behind a dot and in brackets.
const KEPT_WORDS: [&[u8]; 75] = [
    b"addressof",
    b"and",
    b"as",
    b"byref",
    b"byval",
    b"call",
    b"case",
    b"const",
    b"declare",
    b"dim",
    b"do",
    b"each",
    b"else",
    b"elseif",
    b"empty",
    b"end",
    b"enum",
    b"eqv",
    b"erase",
    b"event",
    b"exit",
    b"false",
    b"for",
    b"friend",
    b"function",
    b"global",
    b"gosub",
    b"goto",
    b"if",
    b"imp",
    b"implements",
    b"in",
    b"is",
    b"let",
    b"like",
    b"loop",
    b"lset",
    b"me",
    b"mod",
    b"new",
    b"next",
    b"not",
    b"nothing",
    b"null",
    b"on",
    b"open",
    b"option",
    b"optional",
    b"or",
    b"paramarray",
    b"print",
    b"private",
    b"public",
    b"raiseevent",
    b"redim",
    b"rem",
    b"resume",
    b"return",
    b"rset",
    b"select",
    b"set",
    b"static",
    b"stop",
    b"sub",
    b"then",
    b"to",
    b"true",
    b"type",
    b"typeof",
    b"until",
    b"wend",
    b"while",
    b"with",
    b"withevents",
    b"xor",
];

/// Are units these letters?
pub fn is_word(text: &[u16], word: &[u8]) -> bool
    ensures { result ≡ bytes_eq text.now word.now }
{
    let mut left = text;
    let mut wanted = word;
    while let ([unit, units @ ..], [letter, letters @ ..]) = (left, wanted) {
        if *unit != u16::from(*letter) {
            return false;
        }
        left = units;
        wanted = letters;
    }
    left.is_empty() && wanted.is_empty()
}

/// Is a text one of these words?
fn is_among(text: &[u16], wanted: &[&[u8]]) -> bool
    ensures { result ≡ list_any (λ word. bytes_eq text.now word.now) wanted.now }
{
    wanted.iter().any(|word| is_word(text, word))
}

/// Is a folded word one that is no name?
pub fn is_kept_word(word: &[u16]) -> bool
    ensures { result ≡ words.is_among words.kept_words word.now }
{
    is_among(word, &KEPT_WORDS)
}

/// A word without its brackets or its suffix.
fn bare_word(text: &[u16]) -> &[u16]
    ensures { result.now ≡ words.bare_word text.now }
{
    match text {
        [] => text,
        [0x5B, rest @ ..] => &rest[..rest.len().saturating_sub(1)],
        _ => without_suffix(text),
    }
}

/// The name that a word is.
pub fn name_in(alloc: Global, text: &[u16]) -> Result<Name, NoMemory>
    ensures { IfOk result (λ name. name ≡ words.name_in text.now) }
{
    name_of(alloc, bare_word(text))
}

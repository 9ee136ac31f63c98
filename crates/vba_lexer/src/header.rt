//! The header lines of an exported class file.

ghost use Rattle.std.specs.Prelude.{◌≡◌, ◌+◌, ◌≤◌, IfSome, length};
ghost use Rattle.std.specs.List.{prefix_len};
ghost use Rattle.vba_lexer.specs.Classes.{is_white};
ghost use Rattle.vba_lexer.specs.Header as header;
ghost use Rattle.vba_lexer.specs.Lines.{lines_of};

use crate::classes::is_white;
use crate::continuation::is_all_white;
use crate::lines::{Ending, first_line};

/// The unit, in lower case where it is a letter of ASCII.
fn ascii_lower(unit: u16) -> u16
    ensures { result ≡ header.ascii_lower unit }
{
    match unit {
        0x41..=0x5A => unit + 32,
        other => other,
    }
}

/// How much white space a text begins with.
fn white_size(text: &[u16]) -> usize
    ensures size { result ≡ prefix_len is_white text.now }
    ensures within { result ≤ length text.now }
{
    text.iter()
        .take_while(|unit| is_white(u32::from(**unit)))
        .count()
}

/// The text without the white space at its front.
fn trimmed(text: &[u16]) -> &[u16]
    ensures { result.now ≡ header.trimmed text.now }
{
    &text[white_size(text)..]
}

/// Is the text these words, given in lower case with a blank between two of them? White space may follow.
fn spells(text: &[u16], words: &[u8]) -> bool
    ensures { result ≡ header.spells words.now text.now }
{
    match words {
        [] => is_all_white(text),
        [letter, words @ ..] => match text {
            [] => false,
            [unit, text @ ..] if *letter == b' ' => is_white(u32::from(*unit))
                && spells(trimmed(text), words),
            [unit, text @ ..] => ascii_lower(*unit) == u16::from(*letter) && spells(text, words),
        },
    }
}

/// Is the first line of a source these words, with white space round them or none?
fn begins_with_line(source: &[u16], words: &[u8]) -> bool
    ensures { result ≡ header.begins_with_line words.now (lines_of source.now) }
{
    let (size, _) = first_line(source);
    spells(trimmed(&source[..size]), words)
}

/// How many lines a source has up to the first line END; none without one.
fn lines_to_end(source: &[u16]) -> Option<usize>
    ensures value { result ≡ header.lines_to_end (lines_of source.now) }
    ensures within { IfSome result (λ count. count ≤ length source.now + 1) }
{
    let mut start = 0;
    let mut count = 0;
    loop {
        let rest = &source[start..];
        let (size, ending) = first_line(rest);
        count += 1;
        if spells(trimmed(&rest[..size]), b"end") {
            return Some(count);
        }
        if let Ending::FileEnd = ending {
            return None;
        }
        start += size + ending.size();
    }
}

/// How many lines a header has behind a line of this text, where one begins with it; `source` stands behind the line.
fn header_behind(text: &[u16], source: &[u16], ending: Ending) -> Option<usize>
    ensures value { result ≡ header.header_behind (record { text = text.now; ending = ending }) (lines_of source.now) }
    ensures within { IfSome result (λ count. count ≤ length source.now + 1) }
{
    if spells(trimmed(text), b"version 1.0 class") && begins_with_line(source, b"begin") {
        lines_to_end(source)
    } else {
        None
    }
}

/// How many lines a source has up to the last line of its class header; none without a header.
fn header_end(source: &[u16]) -> Option<usize>
    ensures { result ≡ header.header_end (lines_of source.now) }
{
    let mut start = 0;
    let mut count = 0;
    loop {
        let rest = &source[start..];
        let (size, ending) = first_line(rest);
        if let Ending::FileEnd = ending {
            return None;
        }
        count += 1;
        start += size + ending.size();
        let text = &rest[..size];
        if !is_all_white(text) {
            let more = header_behind(text, &source[start..], ending)?;
            return Some(count + more);
        }
    }
}

/// How many lines of a source count as empty: the lines of its class header and the empty lines before them.
pub fn header_size(source: &[u16]) -> usize
    ensures { result ≡ header.header_size (lines_of source.now) }
{
    header_end(source).unwrap_or(0)
}

//! The tokens of a logical line.

ghost use Rattle.std.specs.Prelude.{◌≡◌, ◌+◌, ◌≤◌, ◌==◌, ◌&&◌, ℕ, All, not, length, codes, IsTrue, IfOk};
ghost use Rattle.vba_lexer.specs.Characters.{HasRoom, characters_of, past};
ghost use Rattle.vba_lexer.specs.Inside.{IsWithin};
ghost use Rattle.vba_lexer.specs.Kinds as kinds;
ghost use Rattle.vba_lexer.specs.Lexed.{token_between, tokens_of};
ghost use Rattle.vba_lexer.specs.Scans as scans;
ghost use Rattle.vba_lexer.specs.Tokens as tokens;
ghost use Rattle.vba_lexer.specs.declared.cursor.Cursor.{Cursor};

use crate::characters::characters;
use crate::classes::{FEED, is_white};
use crate::cursor::Cursor;
use crate::scan::{Lexeme, Standing, bracket_stop, scan};
use crate::token::{Token, TokenKind};
use std::alloc::Global;
use vba_base::NoMemory;

/// The tokens of a line whose first unit stands at `first`.
pub fn line_tokens(
    alloc: Global,
    line: &[u16],
    module_number: u32,
    first: Cursor,
) -> Result<Vec<Token>, NoMemory>
    requires units { first.units + length line.now ≤ 67108864 }
    requires line { first.line ≤ 67108865 }
    requires column { first.column ≡ 1 }
    ensures value { IfOk result (λ found. found.items ≡ tokens_of module_number first (characters_of line.now)) }
    ensures inside { IfOk result (λ found. (size : ℕ) → first.units + length line.now ≤ size → All (IsWithin size) found.items) }
{
    let characters = characters(alloc, line)?;
    let found = tokens_among(alloc, characters.as_slice(), module_number, first)?;
    Ok(found)
}

/// The tokens of a line of these characters.
fn tokens_among(
    alloc: Global,
    line: &[u32],
    module_number: u32,
    first: Cursor,
) -> Result<Vec<Token>, NoMemory>
    requires { HasRoom first line.now }
    ensures { IfOk result (λ found. found.items ≡ tokens_of module_number first line.now) }
{
    let mut found = Vec::new(alloc);
    let mut cursor = first;
    let mut standing = Standing::First;
    let mut place = 0;
    let mut stop = 0;
    while place < line.len() {
        let rest = &line[place..];
        if is_gap(line[place]) {
            cursor = cursor.past(&rest[..1]);
            place += 1;
            continue;
        }
        stop = bracket_stop(line, place, stop);
        let Some(lexeme) = lexeme_at(rest, standing, stop.saturating_sub(place + 1)) else {
            return Ok(found);
        };
        let text = &rest[..lexeme.size];
        let end = cursor.past(text);
        found.push(token_from(lexeme.kind, module_number, cursor, end))?;
        cursor = end;
        standing = standing_behind(text);
        place += lexeme.size;
    }
    Ok(found)
}

/// White space, or the line end of a continuation.
fn is_gap(character: u32) -> bool
    ensures { result ≡ kinds.is_gap character }
{
    is_white(character) || character == FEED
}

/// The token that begins at one place and ends before another.
fn token_from(kind: TokenKind, module_number: u32, start: Cursor, end: Cursor) -> Token
    ensures { result ≡ token_between module_number kind start end }
{
    Token {
        kind,
        start: start.units,
        end: end.units,
        place: start.place(module_number),
    }
}

/// The token at the front of a line that begins with no gap; none where a comment begins there. So many characters behind a
/// `[` there may stand in brackets.
fn lexeme_at(line: &[u32], standing: Standing, bracket_run: usize) -> Option<Lexeme>
    requires begins { IsTrue (scans.begins_with (λ character. not (kinds.is_gap character)) line.now) }
    requires run { scans.IsBracketRun line.now bracket_run }
    ensures { scans.IsLexemeAt standing line.now result }
{
    if line[0] == '\'' as u32 {
        return None;
    }
    let lexeme = scan(line, is_first(standing), bracket_run);
    if is_comment_word(standing, &line[..lexeme.size]) {
        None
    } else {
        Some(lexeme)
    }
}

/// Is the text the word Rem where it begins a comment?
fn is_comment_word(standing: Standing, text: &[u32]) -> bool
    ensures { result ≡ (tokens.opens standing && tokens.is_the_word (codes "rem") text.now) }
{
    opens(standing) && is_the_word(text, b"rem")
}

/// Does no token stand before?
fn is_first(standing: Standing) -> bool
    ensures { result ≡ tokens.is_first standing }
{
    match standing {
        Standing::First => true,
        Standing::BehindOpener | Standing::Within => false,
    }
}

/// Does the word Rem begin a comment there?
fn opens(standing: Standing) -> bool
    ensures { result ≡ tokens.opens standing }
{
    match standing {
        Standing::First | Standing::BehindOpener => true,
        Standing::Within => false,
    }
}

/// What stands behind a token with this text.
fn standing_behind(text: &[u32]) -> Standing
    ensures { result ≡ tokens.standing_behind text.now }
{
    if is_the_word(text, b":") || is_the_word(text, b"then") || is_the_word(text, b"else") {
        Standing::BehindOpener
    } else {
        Standing::Within
    }
}

/// A letter of ASCII in lower case; any other character as it is, but for `ſ`, whose case fold is `s`.
fn lower(character: u32) -> u32
    ensures { result ≡ tokens.lower character }
{
    match character {
        0x41..=0x5A => character + 32,
        0x17F => 's' as u32,
        other => other,
    }
}

/// Is the text this word, given in lower case, without regard to case?
fn is_the_word(text: &[u32], word: &[u8]) -> bool
    ensures { result ≡ tokens.is_the_word word.now text.now }
{
    match text {
        [] => word.is_empty(),
        [left, text @ ..] => match word {
            [] => false,
            [right, word @ ..] => lower(*left) == u32::from(*right) && is_the_word(text, word),
        },
    }
}

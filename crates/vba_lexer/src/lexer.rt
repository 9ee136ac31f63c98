ghost use Rattle.std.specs.Prelude.{◌≡◌, ◌+◌, ◌≤◌, length, IfOk};
ghost use Rattle.vba_lexer.specs.Header.{text_behind_header};
ghost use Rattle.vba_lexer.specs.Inside.{AllLieIn, token_count};
ghost use Rattle.vba_lexer.specs.Lexed.{lexed, lexed_line, line_view, lines_view, text_of};

use crate::continuation::{continued_at, push_continued};
use crate::cursor::Cursor;
use crate::fault::first_fault;
use crate::header::header_size;
use crate::line::Line;
use crate::line_tokens::line_tokens;
use crate::lines::{Ending, first_line};
use crate::token::Token;
use std::alloc::Global;
use vba_base::{NoMemory, Units};

/// The logical lines of a module's source with their tokens and places. The header lines of an exported class, `VERSION 1.0
/// CLASS` to `END`, count as empty lines. The source has at most 67108864 units. It takes time in proportion to the source.
pub fn lex(alloc: Global, source: &Units, module_number: u32) -> Result<Vec<Line>, NoMemory>
    requires { length source.now ≤ 67108864 }
    ensures lines { IfOk result (λ lines. lines_view lines.items ≡ lexed module_number source.now) }
    ensures inside { IfOk result (λ lines. AllLieIn source.now lines.items) }
    ensures count { IfOk result (λ lines. token_count lines.items ≤ length source.now) }
{
    lex_units(alloc, source.units(), module_number)
}

/// The logical lines of a source of these units.
fn lex_units(alloc: Global, units: &[u16], module_number: u32) -> Result<Vec<Line>, NoMemory>
    requires { length units.now ≤ 67108864 }
    ensures lines { IfOk result (λ lines. lines_view lines.items ≡ lexed module_number units.now) }
    ensures inside { IfOk result (λ lines. AllLieIn units.now lines.items) }
    ensures count { IfOk result (λ lines. token_count lines.items ≤ length units.now) }
{
    let mut lines = Vec::new(alloc);
    let mut text = Vec::new(alloc);
    let mut cursor = Cursor {
        units: 0,
        line: 1,
        column: 1,
    };
    let mut first = cursor;
    let header = header_size(units);
    loop {
        let rest = &units[cursor.units as usize..];
        let (size, ending) = first_line(rest);
        let line_text = text_behind_header(header, cursor.line, &rest[..size]);
        cursor = behind_line(cursor, size + ending.size());
        if let Some(mark) = continued_at(line_text, ending) {
            push_continued(&mut text, line_text, mark, ending)?;
            continue;
        }
        text.extend_from_slice(line_text)?;
        lines.push(logical_line(alloc, units, text.as_slice(), module_number, first)?)?;
        if let Ending::FileEnd = ending {
            return Ok(lines);
        }
        text.clear();
        first = cursor;
    }
}

/// What is read of the text of a line with this number: nothing of a header line.
fn text_behind_header(header: usize, number: u32, text: &[u16]) -> &[u16]
    ensures { result.now ≡ text_behind_header header number text.now }
{
    if number as usize <= header { &[] } else { text }
}

/// The place behind a physical line that takes so many units.
fn behind_line(cursor: Cursor, size: usize) -> Cursor
    requires units { cursor.units + size ≤ 67108864 }
    requires line { cursor.line ≤ 67108865 }
    ensures { result ≡ record { units = cursor.units + size; line = cursor.line + 1; column = 1 } }
{
    Cursor {
        units: cursor.units + size as u32,
        line: cursor.line + 1,
        column: 1,
    }
}

/// The logical line that begins at a place of a source and has this text.
fn logical_line(
    alloc: Global,
    source: &[u16],
    text: &[u16],
    module_number: u32,
    first: Cursor,
) -> Result<Line, NoMemory>
    requires source { length source.now ≤ 67108864 }
    requires units { first.units + length text.now ≤ length source.now }
    requires line { first.line ≤ 67108865 }
    requires column { first.column ≡ 1 }
    ensures { IfOk result (λ line. line_view line ≡ lexed_line module_number source.now (record { first = first; text = text.now })) }
{
    let tokens = line_tokens(alloc, text, module_number, first)?;
    let fault = first_fault(source, tokens.as_slice());
    Ok(Line {
        tokens,
        place: first.place(module_number),
        fault,
    })
}

/// A token's text: its slice of the source, in which it has to lie.
pub fn slice_of<'a>(source: &'a Units, token: &Token) -> &'a [u16]
    requires order { token.now.start ≤ token.now.end }
    requires inside { token.now.end ≤ length source.now }
    ensures { result.now ≡ text_of source.now token.now }
{
    &source.units()[token.start as usize..token.end as usize]
}

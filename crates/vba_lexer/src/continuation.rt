//! Continuations of lines.

ghost use Rattle.std.specs.Prelude.{◌≡◌, ◌<◌, ◌==◌, ◌&&◌, ◌++◌, length, IfSome, OnOk};
ghost use Rattle.std.specs.List.{list_all};
ghost use Rattle.vba_lexer.specs.Classes as classes;
ghost use Rattle.vba_lexer.specs.Continuations as continuations;
ghost use Rattle.vba_lexer.specs.Lines as lines;

use crate::classes::is_white;
use crate::lines::Ending;
use vba_base::NoMemory;

/// Are all units white space?
pub fn is_all_white(text: &[u16]) -> bool
    ensures { result ≡ list_all classes.is_white text.now }
{
    text.iter().all(|unit| is_white(u32::from(*unit)))
}

/// Is the unit the `_` of a continuation, where `rest` follows it on its line?
fn is_mark(white_before: bool, unit: u16, rest: &[u16]) -> bool
    ensures { result ≡ (white_before && (unit == 95) && list_all classes.is_white rest.now) }
{
    white_before && unit == '_' as u16 && is_all_white(rest)
}

/// The place of the `_` of a continuation at the end of a line's text.
fn continuation_mark(text: &[u16]) -> Option<usize>
    ensures value { result ≡ continuations.continuation_mark text.now }
    ensures within { IfSome result (λ mark. mark < length text.now) }
{
    let mut white_before = false;
    let mut place = 0;
    while place < text.len() {
        if is_mark(white_before, text[place], &text[place + 1..]) {
            return Some(place);
        }
        white_before = is_white(u32::from(text[place]));
        place += 1;
    }
    None
}

/// Is the line end that of the source?
fn is_last(ending: Ending) -> bool
    ensures { result ≡ lines.is_last ending }
{
    matches!(ending, Ending::FileEnd)
}

/// The place of the `_` at which a line goes on in the next one; none at the end of the source.
pub fn continued_at(text: &[u16], ending: Ending) -> Option<usize>
    ensures value { result ≡ continuations.continued_at text.now ending }
    ensures within { IfSome result (λ mark. mark < length text.now) }
{
    if is_last(ending) {
        None
    } else {
        continuation_mark(text)
    }
}

/// Adds a continued line to its logical line's text: a blank stands for the `_`, and LF ends it.
pub fn push_continued(
    line_text: &mut Vec<u16>,
    text: &[u16],
    mark: usize,
    ending: Ending,
) -> Result<(), NoMemory>
    requires { mark < length text.now }
    ensures { OnOk result (line_text.new.items ≡ line_text.old.items ++ continuations.inner_text text.now mark ending) }
{
    line_text.extend_from_slice(&text[..mark])?;
    line_text.push(0x20)?;
    line_text.extend_from_slice(&text[mark + 1..])?;
    match ending {
        Ending::ReturnFeed => line_text.extend_from_slice(&[0x20, 0x0A])?,
        Ending::FileEnd => {}
        Ending::Feed | Ending::Return | Ending::LineSeparator | Ending::ParagraphSeparator =>
            line_text.push(0x0A)?,
    }
    Ok(())
}

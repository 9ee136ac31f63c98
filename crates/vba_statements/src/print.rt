//! Reading `Debug.Print` ([MS-VBAL] 5.4.5.8, 6.1.2.2).

ghost use Rattle.std.specs.Prelude.{◌≡◌, suc, length, map, IfOk, option_map};
ghost use Rattle.vba_expression.specs.View.{view};
ghost use Rattle.vba_tree.specs.Forms.{goes_on, begins_print};
ghost use Rattle.vba_tree.specs.View.{print_item_view, simple_view};
ghost use Rattle.vba_grammar.specs.Statements.{print_mark_of, printed_at, items_at, print_at};

use std::alloc::Global;
use vba_base::NoMemory;
use vba_clauses::ends;
use vba_expression::{Expression, read_expression};
use vba_tree::{PrintItem, PrintMark, SimpleStatement};
use vba_words::{Mark, ReadToken, Reading, reads_word};

/// Does a dot that goes on with the word before it stand there?
fn goes_on(reading: &Reading) -> bool
    ensures { result ≡ goes_on reading.now }
{
    matches!(reading, Reading::Mark(Mark::Dot))
}

/// Do tokens begin with `Debug.Print`?
pub fn begins_print(tokens: &[ReadToken]) -> bool
    ensures { result ≡ begins_print tokens.now }
{
    let [debug, behind_debug @ ..] = tokens else {
        return false;
    };
    let [dot, behind_dot @ ..] = behind_debug else {
        return false;
    };
    let [print, ..] = behind_dot else {
        return false;
    };
    reads_word(debug, b"debug") && goes_on(&dot.reading) && reads_word(print, b"print")
}

/// The mark between what is printed that a token is.
fn print_mark_of(reading: &Reading) -> Option<PrintMark>
    ensures { result ≡ print_mark_of reading.now }
{
    match reading {
        Reading::Mark(Mark::Semicolon) => Some(PrintMark::Semicolon),
        Reading::Mark(Mark::Comma) => Some(PrintMark::Comma),
        _ => None,
    }
}

/// The value that is printed next, where the statement doesn't end and no mark stands there.
fn read_printed(
    alloc: Global,
    tokens: &[ReadToken],
) -> Result<Option<(Option<Expression>, &[ReadToken])>, NoMemory>
    ensures { IfOk result (λ found. option_map (λ f. (option_map view f.0, f.1.now)) found ≡ printed_at tokens.now) }
{
    let [token, ..] = tokens else {
        return Ok(Some((None, tokens)));
    };
    if ends(tokens) {
        return Ok(Some((None, tokens)));
    }
    match print_mark_of(&token.reading) {
        Some(_) => Ok(Some((None, tokens))),
        None => match read_expression(alloc, tokens)? {
            Some((value, rest)) => Ok(Some((Some(value), rest))),
            None => Ok(None),
        },
    }
}

/// What is printed behind the first value, each behind its mark.
#[tactic(auto, using(crate::proofs::Prints::begun, crate::proofs::Prints::more, crate::proofs::Prints::ended, crate::proofs::Prints::stopped, crate::proofs::Prints::failed, crate::proofs::Prints::fewer))]
fn read_items(
    alloc: Global,
    tokens: &[ReadToken],
) -> Result<Option<(Vec<PrintItem>, &[ReadToken])>, NoMemory>
    ensures { IfOk result (λ found. option_map (λ f. (map print_item_view f.0.items, f.1.now)) found ≡ items_at (suc (length tokens.now)) tokens.now) }
{
    let mut items = Vec::new(alloc);
    let mut left = tokens;
    'items: while let [token, behind @ ..] = left {
        let Some(mark) = print_mark_of(&token.reading) else {
            return Ok(Some((items, left)));
        };
        let Some((value, rest)) = read_printed(alloc, behind)? else {
            return Ok(None);
        };
        items.push(PrintItem {
            mark,
            mark_token: token.token,
            value,
        })?;
        left = rest;
    }
    Ok(Some((items, left)))
}

/// `Debug.Print` and what is printed, and the end of the statement behind it.
pub fn read_print(
    alloc: Global,
    tokens: &[ReadToken],
) -> Result<Option<(SimpleStatement, &[ReadToken])>, NoMemory>
    ensures { IfOk result (λ found. option_map (λ f. (simple_view f.0, f.1.now)) found ≡ print_at tokens.now) }
{
    let [debug, behind_debug @ ..] = tokens else {
        return Ok(None);
    };
    let [dot, behind_dot @ ..] = behind_debug else {
        return Ok(None);
    };
    let [print, behind_print @ ..] = behind_dot else {
        return Ok(None);
    };
    let Some((first, behind_first)) = read_printed(alloc, behind_print)? else {
        return Ok(None);
    };
    let Some((others, rest)) = read_items(alloc, behind_first)? else {
        return Ok(None);
    };
    if !ends(rest) {
        return Ok(None);
    }
    let statement = SimpleStatement::DebugPrint {
        debug_word: debug.token,
        dot: dot.token,
        print_word: print.token,
        first,
        others,
    };
    Ok(Some((statement, rest)))
}

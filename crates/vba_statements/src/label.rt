//! Reading labels where they are gone to, and what is left by `Exit` ([MS-VBAL] 5.4.2.9 to 5.4.2.18).

ghost use Rattle.std.specs.Prelude.{◌≡◌, true, IfOk, option_map};
ghost use Rattle.vba_words.specs.declared.reading.Reading.TheVariants as readings;
ghost use Rattle.vba_tree.specs.Tree as tree;
ghost use Rattle.vba_tree.specs.View.{simple_view};
ghost use Rattle.vba_grammar.specs.Front.{found_as};
ghost use Rattle.vba_grammar.specs.Statements.{label_of, label_at, exit_of, exit_at, is_whole, is_digit};

use std::alloc::Global;
use vba_base::NoMemory;
use vba_lexer::{Number, NumberKind, Token};
use vba_tree::{ExitKind, LabelName, SimpleStatement};
use vba_words::{Keyword, ReadToken, Reading, identifier_at, reads_word};

/// The label that a token is where it is gone to: a name without a suffix, or a line number.
fn label_of(alloc: Global, token: &ReadToken) -> Result<Option<LabelName>, NoMemory>
    ensures { IfOk result (λ found. found ≡ label_of token.now) }
{
    match &token.reading {
        Reading::Name { suffix: None, .. } => match identifier_at(alloc, token)? {
            Some(name) => Ok(Some(LabelName::Name(name))),
            None => Ok(None),
        },
        Reading::Name { .. } => Ok(None),
        Reading::Number { number, is_plain } => Ok(line_number(token.token, *number, *is_plain)),
        Reading::Keyword(_) | Reading::Text(_) | Reading::Mark(_) | Reading::Other => Ok(None),
    }
}

/// A line number is decimal digits alone.
fn line_number(token: Token, number: Number, is_plain: bool) -> Option<LabelName>
    ensures { result ≡ label_of (record { token = token; reading = readings.Number number is_plain }) }
{
    if is_plain {
        Some(LabelName::Number { token, number })
    } else {
        None
    }
}

/// The label at the front, and the tokens behind it.
pub fn read_label(
    alloc: Global,
    tokens: &[ReadToken],
) -> Result<Option<(LabelName, &[ReadToken])>, NoMemory>
    ensures { IfOk result (λ found. option_map (λ f. (f.0, f.1.now)) found ≡ label_at tokens.now) }
{
    let [token, rest @ ..] = tokens else {
        return Ok(None);
    };
    let Some(label) = label_of(alloc, token)? else {
        return Ok(None);
    };
    Ok(Some((label, rest)))
}

/// Behind `GoTo`: a label.
pub fn read_go_to(
    alloc: Global,
    goto_word: Token,
    tokens: &[ReadToken],
) -> Result<Option<(SimpleStatement, &[ReadToken])>, NoMemory>
    ensures { IfOk result (λ found. option_map (λ f. (simple_view f.0, f.1.now)) found ≡ found_as (tree.go_to goto_word) (label_at tokens.now)) }
{
    let Some((label, rest)) = read_label(alloc, tokens)? else {
        return Ok(None);
    };
    Ok(Some((SimpleStatement::GoTo { goto_word, label }, rest)))
}

/// Behind `GoSub`: a label.
pub fn read_go_sub(
    alloc: Global,
    gosub_word: Token,
    tokens: &[ReadToken],
) -> Result<Option<(SimpleStatement, &[ReadToken])>, NoMemory>
    ensures { IfOk result (λ found. option_map (λ f. (simple_view f.0, f.1.now)) found ≡ found_as (tree.go_sub gosub_word) (label_at tokens.now)) }
{
    let Some((label, rest)) = read_label(alloc, tokens)? else {
        return Ok(None);
    };
    Ok(Some((SimpleStatement::GoSub { gosub_word, label }, rest)))
}

/// What a kept word says is left.
fn kept_exit(keyword: Keyword) -> Option<ExitKind>
    ensures { result ≡ exit_of (readings.Keyword keyword) }
{
    match keyword {
        Keyword::Sub => Some(ExitKind::Sub),
        Keyword::Function => Some(ExitKind::Function),
        Keyword::For => Some(ExitKind::For),
        Keyword::Do => Some(ExitKind::Do),
        _ => None,
    }
}

/// What is left, by the word behind `Exit`.
fn exit_of(token: &ReadToken) -> Option<ExitKind>
    ensures { result ≡ exit_of token.now.reading }
{
    match &token.reading {
        Reading::Keyword(keyword) => kept_exit(*keyword),
        Reading::Name { .. } => {
            if reads_word(token, b"property") {
                Some(ExitKind::Property)
            } else {
                None
            }
        }
        Reading::Number { .. } | Reading::Text(_) | Reading::Mark(_) | Reading::Other => None,
    }
}

/// Behind `Exit`: the word of what is left.
pub fn read_exit(exit_word: Token, tokens: &[ReadToken]) -> Option<(SimpleStatement, &[ReadToken])>
    ensures { option_map (λ f. (simple_view f.0, f.1.now)) result ≡ exit_at exit_word tokens.now }
{
    let [token, rest @ ..] = tokens else {
        return None;
    };
    let Some(kind) = exit_of(token) else {
        return None;
    };
    let statement = SimpleStatement::Exit {
        exit_word,
        kind,
        kind_word: token.token,
    };
    Some((statement, rest))
}

/// Is a whole number this digit?
#[tactic(auto, using(crate::proofs::Words::whole_is, crate::proofs::Words::whole_is_not))]
fn is_whole(digit: u8, value: i64) -> bool
    ensures { result ≡ is_whole digit value }
{
    if value == i64::from(digit) {
        true
    } else {
        false
    }
}

/// Is a token this decimal digit alone?
pub fn is_digit(digit: u8, token: &ReadToken) -> bool
    ensures { result ≡ is_digit digit token.now }
{
    match &token.reading {
        Reading::Number { number, is_plain } => {
            *is_plain && is_digit_number(digit, token.token, *number)
        }
        Reading::Keyword(_)
        | Reading::Name { .. }
        | Reading::Text(_)
        | Reading::Mark(_)
        | Reading::Other => false,
    }
}

/// Is a number of decimal digits this digit, and its token one unit long?
fn is_digit_number(digit: u8, token: Token, number: Number) -> bool
    ensures { result ≡ is_digit digit (record { token = token; reading = readings.Number number true }) }
{
    matches!(number.kind, NumberKind::Integer)
        && is_whole(digit, number.value)
        && u64::from(token.end) == u64::from(token.start) + 1
}

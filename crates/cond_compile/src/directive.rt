//! Directive lines.

ghost use Rattle.std.specs.Prelude.{◌≡◌, length, All, IfOk, IfSome, option_map};
ghost use Rattle.vba_base.specs.Fold.{folded};
ghost use Rattle.vba_lexer.specs.Inside.{IsWithin};
ghost use Rattle.cond_compile.specs.Seen.{DirectiveLiesIn, directive_view};
ghost use Rattle.cond_compile.specs.Selection as selection;

use crate::words::is_word;
use std::alloc::Global;
use vba_base::{Name, NoMemory, Units, name_of};
use vba_lexer::{Token, slice_of};

/// The kinds of directive lines, by their first words.
#[derive(Clone, Copy, Debug, PartialEq, Eq)]
pub enum DirectiveKind {
    Constant,
    If,
    ElseIf,
    Else,
    EndIf,
    /// A line that begins with `#` and goes on otherwise.
    Unknown,
}

/// A directive line: its kind, the last of its first words, and the tokens behind them.
#[derive(Drop)]
pub struct Directive<'a> {
    pub kind: DirectiveKind,
    pub last: Token,
    pub rest: &'a [Token],
}

/// The kind that one word behind `#` tells.
fn kind_of_word(word: &[u16]) -> Option<DirectiveKind>
    ensures { result ≡ selection.kind_of_word word.now }
{
    if is_word(word, b"const") {
        Some(DirectiveKind::Constant)
    } else if is_word(word, b"if") {
        Some(DirectiveKind::If)
    } else if is_word(word, b"elseif") {
        Some(DirectiveKind::ElseIf)
    } else if is_word(word, b"else") {
        Some(DirectiveKind::Else)
    } else {
        None
    }
}

/// A token's text, folded.
fn word_at(alloc: Global, source: &Units, token: &Token) -> Result<Name, NoMemory>
    requires { IsWithin (length source.now) token.now }
    ensures { IfOk result (λ word. word ≡ selection.word_at source.now token.now) }
{
    name_of(alloc, slice_of(source, token))
}

/// What stands behind `#` and End.
fn ending<'a>(
    alloc: Global,
    source: &Units,
    last: &Token,
    tokens: &'a [Token],
) -> Result<Directive<'a>, NoMemory>
    requires last { IsWithin (length source.now) last.now }
    requires tokens { All (IsWithin (length source.now)) tokens.now }
    ensures directive { IfOk result (λ directive. directive_view directive ≡ selection.ending source.now last.now tokens.now) }
    ensures inside { IfOk result (λ directive. DirectiveLiesIn source.now directive) }
{
    if let [token, rest @ ..] = tokens {
        let word = word_at(alloc, source, token)?;
        if is_word(word.units(), b"if") {
            return Ok(Directive {
                kind: DirectiveKind::EndIf,
                last: *token,
                rest,
            });
        }
    }
    Ok(Directive {
        kind: DirectiveKind::Unknown,
        last: *last,
        rest: tokens,
    })
}

/// The directive behind `#`.
fn by_words<'a>(
    alloc: Global,
    source: &Units,
    hash: &Token,
    tokens: &'a [Token],
) -> Result<Directive<'a>, NoMemory>
    requires hash { IsWithin (length source.now) hash.now }
    requires tokens { All (IsWithin (length source.now)) tokens.now }
    ensures directive { IfOk result (λ directive. directive_view directive ≡ selection.by_words source.now hash.now tokens.now) }
    ensures inside { IfOk result (λ directive. DirectiveLiesIn source.now directive) }
{
    if let [token, rest @ ..] = tokens {
        let word = word_at(alloc, source, token)?;
        if let Some(kind) = kind_of_word(word.units()) {
            return Ok(Directive {
                kind,
                last: *token,
                rest,
            });
        }
        if is_word(word.units(), b"end") {
            return ending(alloc, source, token, rest);
        }
    }
    Ok(Directive {
        kind: DirectiveKind::Unknown,
        last: *hash,
        rest: tokens,
    })
}

/// The directive that a line with these tokens is.
pub fn directive_in<'a>(
    alloc: Global,
    source: &Units,
    tokens: &'a [Token],
) -> Result<Option<Directive<'a>>, NoMemory>
    requires { All (IsWithin (length source.now)) tokens.now }
    ensures directive { IfOk result (λ directive. option_map directive_view directive ≡ selection.directive_in source.now tokens.now) }
    ensures inside { IfOk result (λ directive. IfSome directive (λ d. DirectiveLiesIn source.now d)) }
{
    match tokens {
        [token, rest @ ..] if is_word(slice_of(source, token), b"#") => {
            Ok(Some(by_words(alloc, source, token, rest)?))
        }
        _ => Ok(None),
    }
}

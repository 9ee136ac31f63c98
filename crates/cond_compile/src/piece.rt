//! The tokens of an expression as the grammar reads them.

ghost use Rattle.std.specs.Prelude.{◌≡◌, ◌≤◌, ◌∷◌, [], ◌++◌, IfOk, length, Some, option_map};
ghost use Rattle.vba_base.specs.Fold.{folded};
ghost use Rattle.vba_lexer.specs.Inside.{IsWithin};
ghost use Rattle.vba_lexer.specs.Texts.{text_of};
ghost use Rattle.vba_values.specs.View.{view};
ghost use Rattle.cond_compile.specs.Pieces as pieces;
ghost use Rattle.cond_compile.specs.Pieces.{is_apart, spaced};
ghost use Rattle.cond_compile.specs.Seen.{piece_view};

use crate::literals::value_of_number;
use crate::operator::Operator;
use crate::words::{is_kept_word, is_word, name_in};
use std::alloc::Global;
use vba_base::{Name, NoMemory, Units, name_of};
use vba_lexer::{Token, TokenKind, slice_of, suffix_of, without_suffix};
use vba_values::{ObjRef, Value};
use vba_words::quoted_text;

/// A token of an expression: a literal with its value, where it has one, a name, or a word or mark of the grammar.
#[derive(Drop)]
pub enum Piece {
    Literal(Option<Value>),
    Name(Name),
    Me,
    Operator(Operator),
    Not,
    New,
    TypeOf,
    Left,
    Right,
    Comma,
    Dot,
    /// A dot with white space before it.
    ApartDot,
    Gets,
    Then,
    Other,
}

/// Is it the word Then?
pub fn is_then(piece: &Piece) -> bool
    ensures { result ≡ pieces.is_then (piece_view piece.now) }
{
    match piece {
        Piece::Then => true,
        _ => false,
    }
}

/// A word that is a literal.
fn literal_word(word: &[u16]) -> Option<Value>
    ensures { option_map view result ≡ pieces.literal_word word.now }
{
    if is_word(word, b"true") {
        Some(Value::Boolean(true))
    } else if is_word(word, b"false") {
        Some(Value::Boolean(false))
    } else if is_word(word, b"null") {
        Some(Value::Null)
    } else if is_word(word, b"empty") {
        Some(Value::Empty)
    } else if is_word(word, b"nothing") {
        Some(Value::Object(ObjRef::Nothing))
    } else {
        None
    }
}

/// A word that is an operator of two operands.
fn operator_word(word: &[u16]) -> Option<Operator>
    ensures { result ≡ pieces.operator_word word.now }
{
    if is_word(word, b"mod") {
        Some(Operator::Mod)
    } else if is_word(word, b"is") {
        Some(Operator::Is)
    } else if is_word(word, b"and") {
        Some(Operator::And)
    } else if is_word(word, b"or") {
        Some(Operator::Or)
    } else if is_word(word, b"xor") {
        Some(Operator::Xor)
    } else if is_word(word, b"eqv") {
        Some(Operator::Eqv)
    } else if is_word(word, b"imp") {
        Some(Operator::Imp)
    } else {
        None
    }
}

/// Another word with a place in the grammar.
fn grammar_word(word: &[u16]) -> Option<Piece>
    ensures { option_map piece_view result ≡ pieces.grammar_word word.now }
{
    if is_word(word, b"me") {
        Some(Piece::Me)
    } else if is_word(word, b"not") {
        Some(Piece::Not)
    } else if is_word(word, b"new") {
        Some(Piece::New)
    } else if is_word(word, b"typeof") {
        Some(Piece::TypeOf)
    } else if is_word(word, b"then") {
        Some(Piece::Then)
    } else if is_kept_word(word) {
        Some(Piece::Other)
    } else {
        None
    }
}

/// A word that is no name.
fn kept_piece(word: &[u16]) -> Option<Piece>
    ensures { option_map piece_view result ≡ pieces.kept_piece word.now }
{
    if let Some(value) = literal_word(word) {
        return Some(Piece::Literal(Some(value)));
    }
    if let Some(operator) = operator_word(word) {
        return Some(Piece::Operator(operator));
    }
    grammar_word(word)
}

/// A word, which may be a name. One that is no name has no suffix in an expression.
fn word_piece(alloc: Global, text: &[u16]) -> Result<Piece, NoMemory>
    ensures { IfOk result (λ piece. piece_view piece ≡ pieces.word_piece text.now) }
{
    let word = name_of(alloc, without_suffix(text))?;
    match kept_piece(word.units()) {
        Some(_) if suffix_of(text).is_some() => Ok(Piece::Other),
        Some(piece) => Ok(piece),
        None => Ok(Piece::Name(name_in(alloc, text)?)),
    }
}

/// A mark of one character.
fn single_mark(unit: u16) -> Piece
    ensures { piece_view result ≡ pieces.single_mark unit }
{
    match unit {
        0x2B => Piece::Operator(Operator::Plus),
        0x2D => Piece::Operator(Operator::Minus),
        0x2A => Piece::Operator(Operator::Times),
        0x2F => Piece::Operator(Operator::Divide),
        0x5C => Piece::Operator(Operator::IntDivide),
        0x5E => Piece::Operator(Operator::Power),
        0x26 => Piece::Operator(Operator::Join),
        0x3D => Piece::Operator(Operator::Equal),
        0x3C => Piece::Operator(Operator::Less),
        0x3E => Piece::Operator(Operator::Greater),
        0x28 => Piece::Left,
        0x29 => Piece::Right,
        0x2C => Piece::Comma,
        0x2E => Piece::Dot,
        _ => Piece::Other,
    }
}

/// A mark of two characters.
fn double_mark(unit: u16, next: u16) -> Piece
    ensures { piece_view result ≡ pieces.double_mark unit next }
{
    match (unit, next) {
        (0x3C, 0x3D) | (0x3D, 0x3C) => Piece::Operator(Operator::LessEqual),
        (0x3C, 0x3E) => Piece::Operator(Operator::Unequal),
        (0x3E, 0x3D) | (0x3D, 0x3E) => Piece::Operator(Operator::GreaterEqual),
        (0x3A, 0x3D) => Piece::Gets,
        _ => Piece::Other,
    }
}

fn mark_piece(text: &[u16]) -> Piece
    ensures { piece_view result ≡ pieces.mark_piece text.now }
{
    match text {
        [unit] => single_mark(*unit),
        [unit, next] => double_mark(*unit, *next),
        _ => Piece::Other,
    }
}

/// Does white space stand before a token on its line?
fn is_apart(previous: &Token, token: &Token) -> bool
    ensures { result ≡ is_apart previous.now token.now }
{
    previous.end < token.start && previous.place.line == token.place.line
}

/// A mark, with white space before it or without.
fn spaced(apart: bool, piece: Piece) -> Piece
    ensures { piece_view result ≡ spaced apart (piece_view piece) }
{
    match piece {
        Piece::Dot if apart => Piece::ApartDot,
        piece => piece,
    }
}

/// A word; behind a dot every word is a name.
fn word_behind(alloc: Global, previous: &[u16], text: &[u16]) -> Result<Piece, NoMemory>
    ensures { IfOk result (λ piece. piece_view piece ≡ pieces.word_behind previous.now text.now) }
{
    if is_word(previous, b".") {
        Ok(Piece::Name(name_in(alloc, text)?))
    } else {
        word_piece(alloc, text)
    }
}

/// A token that stands behind another one.
pub fn piece_behind(
    alloc: Global,
    source: &Units,
    previous: &Token,
    token: &Token,
) -> Result<Piece, NoMemory>
    requires previous { IsWithin (length source.now) previous.now }
    requires token { IsWithin (length source.now) token.now }
    ensures { IfOk result (λ piece. piece_view piece ≡ pieces.piece_behind source.now previous.now token.now) }
{
    let text = slice_of(source, token);
    match token.kind {
        TokenKind::Word => word_behind(alloc, slice_of(source, previous), text),
        TokenKind::Whole | TokenKind::Fixed => Ok(Piece::Literal(value_of_number(alloc, text)?)),
        TokenKind::Text => Ok(Piece::Literal(Some(Value::Text(quoted_text(alloc, text)?)))),
        TokenKind::DateMark => Ok(Piece::Literal(None)),
        TokenKind::Mark => Ok(spaced(is_apart(previous, token), mark_piece(text))),
        TokenKind::BadMark => Ok(Piece::Other),
    }
}

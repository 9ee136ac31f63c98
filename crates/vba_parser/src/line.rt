//! A line, by its first words.

ghost use Rattle.std.specs.Prelude.{◌≡◌, IfOk, option_map};
ghost use Rattle.vba_grammar.specs.Lines as lines;
ghost use Rattle.vba_parser.specs.Seen.{statements_view};
ghost use Rattle.vba_tree.specs.Tree.{statement_line};
ghost use Rattle.vba_tree.specs.View.{view};

use crate::attribute::read_attribute;
use crate::choice::read_choice;
use crate::frame::Statements;
use crate::header::read_words;
use crate::headings::read_header;
use crate::label::skip_label;
use crate::lists::read_statements;
use crate::member::{has_as, read_member};
use std::alloc::Global;
use vba_base::NoMemory;
use vba_clauses::{Expected, begins_with, is_expected, skip_access, skip_token};
use vba_lexer::Token;
use vba_tree::{
    LineLabel, LineTree, OptionLine, ProcedureEnd, ProcedureKind, Statement, StatementLine,
};
use vba_words::{Keyword, ReadToken, Reading, reads_word};

/// The first statement out of its box.
fn unboxed(first: Option<Box<Statement>>) -> Option<Statement>
    ensures { result ≡ option_map (λ statement. statement.value) first }
{
    match first {
        Some(statement) => Some(Box::into_inner(statement)),
        None => None,
    }
}

/// The line with this label and these statements.
#[tactic(auto, unfolding(crate::specs::Seen::statements_view))]
fn with_label(label: Option<LineLabel>, statements: Statements) -> LineTree
    ensures { view result ≡ statement_line label (statements_view statements) }
{
    let (first, others) = statements.parts();
    LineTree::Statements(StatementLine {
        label,
        first: unboxed(first),
        others,
    })
}

/// A label where one stands, and statements. A line without tokens is one of them.
fn read_statement_line(alloc: Global, tokens: &[ReadToken]) -> Result<Option<LineTree>, NoMemory>
    ensures { IfOk result (λ line. option_map view line ≡ lines.statements_line tokens.now) }
{
    let (label, rest) = skip_label(alloc, tokens)?;
    let Some(statements) = read_statements(alloc, rest)? else {
        return Ok(None);
    };
    Ok(Some(with_label(label, statements)))
}

/// A line that begins with no word of its own: a member of a Type, or statements.
fn read_other_line(alloc: Global, tokens: &[ReadToken]) -> Result<Option<LineTree>, NoMemory>
    ensures { IfOk result (λ line. option_map view line ≡ lines.other_line tokens.now) }
{
    if begins_with(tokens, Expected::Name) && has_as(tokens) {
        read_member(alloc, tokens)
    } else {
        read_statement_line(alloc, tokens)
    }
}

/// A header of an Enum, a Type, an event or a procedure, or another line.
fn read_header_or_other(alloc: Global, tokens: &[ReadToken]) -> Result<Option<LineTree>, NoMemory>
    ensures { IfOk result (λ line. option_map view line ≡ lines.header_or_other tokens.now) }
{
    let (access, rest) = skip_access(tokens);
    let (static_word, rest) = skip_token(rest, Expected::Static);
    match read_words(rest) {
        Some((header, behind)) => read_header(alloc, access, static_word, header, behind),
        None => read_other_line(alloc, tokens),
    }
}

/// The end of a procedure, an Enum or a Type: `End` and the token behind it.
fn end_of(end_word: Token, token: &ReadToken) -> Option<LineTree>
    ensures { option_map view result ≡ lines.end_of end_word token.now.token token.now.reading }
{
    let kind_word = token.token;
    let kind = match &token.reading {
        Reading::Keyword(Keyword::Enum) => {
            return Some(LineTree::EnumEnd {
                end_word,
                enum_word: kind_word,
            });
        }
        Reading::Keyword(Keyword::Type) => {
            return Some(LineTree::TypeEnd {
                end_word,
                type_word: kind_word,
            });
        }
        Reading::Keyword(Keyword::Sub) => ProcedureKind::Sub,
        Reading::Keyword(Keyword::Function) => ProcedureKind::Function,
        _ if reads_word(token, b"property") => ProcedureKind::Property,
        _ => return None,
    };
    Some(LineTree::ProcedureEnd(ProcedureEnd {
        end_word,
        kind,
        kind_word,
    }))
}

/// The same where one token alone stands behind `End`.
fn read_end(end_word: Token, tokens: &[ReadToken]) -> Option<LineTree>
    ensures { option_map view result ≡ lines.ended end_word tokens.now }
{
    match tokens {
        [token] => end_of(end_word, token),
        _ => None,
    }
}

/// The tree of a line: the one tree of the grammar that has these tokens and fits, and none exactly where there is none. Only
/// memory can fail.
pub fn read_line(alloc: Global, tokens: &[ReadToken]) -> Result<Option<LineTree>, NoMemory>
    ensures { IfOk result (λ line. option_map view line ≡ lines.line_of tokens.now) }
{
    let [first, rest @ ..] = tokens else {
        return read_statement_line(alloc, tokens);
    };
    if is_expected(&first.reading, Expected::Option) {
        let Some(choice) = read_choice(rest) else {
            return Ok(None);
        };
        return Ok(Some(LineTree::Option(OptionLine {
            option_word: first.token,
            choice,
        })));
    }
    if reads_word(first, b"attribute") && begins_with(rest, Expected::Name) {
        return read_attribute(alloc, first.token, rest);
    }
    if !is_expected(&first.reading, Expected::End) {
        return read_header_or_other(alloc, tokens);
    }
    match read_end(first.token, rest) {
        Some(line) => Ok(Some(line)),
        None => read_statement_line(alloc, tokens),
    }
}

//! Headers of Types, Enums, events and procedures ([MS-VBAL] 5.2.3.3, 5.2.3.4, 5.2.4.3, 5.3.1).

ghost use Rattle.std.specs.Prelude.{◌≡◌, IfOk, option_map};
ghost use Rattle.vba_grammar.specs.Clauses.{parameters_at, result_type_at};
ghost use Rattle.vba_grammar.specs.Front.{is_as, is_left, name_at, part_if, whole_line};
ghost use Rattle.vba_grammar.specs.Lines as lines;
ghost use Rattle.vba_parser.specs.Headers.{event_of, procedure_of};
ghost use Rattle.vba_parser.specs.Seen.{header_view};
ghost use Rattle.vba_tree.specs.Forms as forms;
ghost use Rattle.vba_tree.specs.View.{parameters_view, result_type_view, view};

use crate::header::Header;
use std::alloc::Global;
use vba_base::NoMemory;
use vba_clauses::{Expected, ParametersPart, ResultTypePart, read_name, read_part_if};
use vba_lexer::Token;
use vba_tree::{
    Access, AccessWord, EnumHeader, EventLine, LineTree, Parameters, ProcedureHeader,
    ProcedureWords, ResultType, TypeHeader,
};
use vba_words::{Identifier, ReadToken};

/// May a word of access, or none, stand before `Enum` and `Type`?
fn may_precede_type(access: Option<AccessWord>) -> bool
    ensures { result ≡ lines.allowed forms.before_type access }
{
    match access {
        None => true,
        Some(word) => matches!(word.access, Access::Public | Access::Private),
    }
}

/// May a word of access, or none, stand before `Event`?
fn may_precede_event(access: Option<AccessWord>) -> bool
    ensures { result ≡ lines.allowed forms.before_event access }
{
    match access {
        None => true,
        Some(word) => matches!(word.access, Access::Public),
    }
}

/// May a word of access, or none, stand before the words of a procedure?
fn may_precede_procedure(access: Option<AccessWord>) -> bool
    ensures { result ≡ lines.allowed forms.before_procedure access }
{
    match access {
        None => true,
        Some(word) => !matches!(word.access, Access::Global),
    }
}

/// A name at the end of a line.
fn read_last_name(alloc: Global, tokens: &[ReadToken]) -> Result<Option<Identifier>, NoMemory>
    ensures { IfOk result (λ found. found ≡ whole_line (name_at tokens.now)) }
{
    let Some((name, rest)) = read_name(alloc, tokens)? else {
        return Ok(None);
    };
    if rest.is_empty() {
        Ok(Some(name))
    } else {
        Ok(None)
    }
}

/// `[Public|Private] Enum name`, behind `Enum`.
#[tactic(auto, using(crate::proofs::Chains::whole_as))]
fn read_enum_header(
    alloc: Global,
    access: Option<AccessWord>,
    static_word: Option<Token>,
    enum_word: Token,
    tokens: &[ReadToken],
) -> Result<Option<LineTree>, NoMemory>
    ensures { IfOk result (λ line. option_map view line ≡ lines.header_of access static_word (lines.of_enum enum_word) tokens.now) }
{
    if !may_precede_type(access) || static_word.is_some() {
        return Ok(None);
    }
    let Some(name) = read_last_name(alloc, tokens)? else {
        return Ok(None);
    };
    Ok(Some(LineTree::EnumHeader(EnumHeader {
        access,
        enum_word,
        name,
    })))
}

/// `[Public|Private] Type name`, behind `Type`.
#[tactic(auto, using(crate::proofs::Chains::whole_as))]
fn read_type_header(
    alloc: Global,
    access: Option<AccessWord>,
    static_word: Option<Token>,
    type_word: Token,
    tokens: &[ReadToken],
) -> Result<Option<LineTree>, NoMemory>
    ensures { IfOk result (λ line. option_map view line ≡ lines.header_of access static_word (lines.of_type type_word) tokens.now) }
{
    if !may_precede_type(access) || static_word.is_some() {
        return Ok(None);
    }
    let Some(name) = read_last_name(alloc, tokens)? else {
        return Ok(None);
    };
    Ok(Some(LineTree::TypeHeader(TypeHeader {
        access,
        type_word,
        name,
    })))
}

/// `[Public] Event name [([parameters])]`, behind `Event`.
fn read_event(
    alloc: Global,
    access: Option<AccessWord>,
    static_word: Option<Token>,
    event_word: Token,
    tokens: &[ReadToken],
) -> Result<Option<LineTree>, NoMemory>
    ensures { IfOk result (λ line. option_map view line ≡ lines.header_of access static_word (lines.of_event event_word) tokens.now) }
{
    if !may_precede_event(access) || static_word.is_some() {
        return Ok(None);
    }
    read_allowed_event(alloc, access, event_word, tokens)
}

/// `[([parameters])]` at the end of a line.
fn read_last_parameters(
    alloc: Global,
    tokens: &[ReadToken],
) -> Result<Option<Option<Parameters>>, NoMemory>
    ensures { IfOk result (λ found. option_map (option_map parameters_view) found ≡ whole_line (part_if is_left parameters_at tokens.now)) }
{
    let Some((parameters, rest)) = read_part_if::<ParametersPart>(
        alloc,
        tokens,
        Expected::LeftParenthesis,
    )?
    else {
        return Ok(None);
    };
    if rest.is_empty() {
        Ok(Some(parameters))
    } else {
        Ok(None)
    }
}

/// `[As type [()]]` at the end of a line.
fn read_last_result(
    alloc: Global,
    tokens: &[ReadToken],
) -> Result<Option<Option<ResultType>>, NoMemory>
    ensures { IfOk result (λ found. option_map (option_map result_type_view) found ≡ whole_line (part_if is_as result_type_at tokens.now)) }
{
    let Some((result_type, rest)) = read_part_if::<ResultTypePart>(alloc, tokens, Expected::As)?
    else {
        return Ok(None);
    };
    if rest.is_empty() {
        Ok(Some(result_type))
    } else {
        Ok(None)
    }
}

/// `name [([parameters])]` of an event that may stand there.
fn read_allowed_event(
    alloc: Global,
    access: Option<AccessWord>,
    event_word: Token,
    tokens: &[ReadToken],
) -> Result<Option<LineTree>, NoMemory>
    ensures { IfOk result (λ line. option_map view line ≡ event_of access event_word tokens.now) }
{
    let Some((name, rest)) = read_name(alloc, tokens)? else {
        return Ok(None);
    };
    let Some(parameters) = read_last_parameters(alloc, rest)? else {
        return Ok(None);
    };
    Ok(Some(LineTree::Event(EventLine {
        access,
        event_word,
        name,
        parameters,
    })))
}

/// `[Public|Private|Friend] [Static] Sub name [([parameters])] [As type [()]]`, likewise of Functions and Properties, behind
/// these words.
fn read_procedure_header(
    alloc: Global,
    access: Option<AccessWord>,
    static_word: Option<Token>,
    words: ProcedureWords,
    tokens: &[ReadToken],
) -> Result<Option<LineTree>, NoMemory>
    ensures { IfOk result (λ line. option_map view line ≡ lines.header_of access static_word (lines.of_procedure words) tokens.now) }
{
    if !may_precede_procedure(access) {
        return Ok(None);
    }
    read_allowed_procedure(alloc, access, static_word, words, tokens)
}

/// `name [([parameters])] [As type [()]]` of a procedure that may stand there.
fn read_allowed_procedure(
    alloc: Global,
    access: Option<AccessWord>,
    static_word: Option<Token>,
    words: ProcedureWords,
    tokens: &[ReadToken],
) -> Result<Option<LineTree>, NoMemory>
    ensures { IfOk result (λ line. option_map view line ≡ procedure_of access static_word words tokens.now) }
{
    let Some((name, rest)) = read_name(alloc, tokens)? else {
        return Ok(None);
    };
    let Some((parameters, rest)) = read_part_if::<ParametersPart>(
        alloc,
        rest,
        Expected::LeftParenthesis,
    )?
    else {
        return Ok(None);
    };
    let Some(result_type) = read_last_result(alloc, rest)? else {
        return Ok(None);
    };
    Ok(Some(LineTree::ProcedureHeader(ProcedureHeader {
        access,
        static_word,
        words,
        name,
        parameters,
        result_type,
    })))
}

/// A header, behind its words.
pub fn read_header(
    alloc: Global,
    access: Option<AccessWord>,
    static_word: Option<Token>,
    header: Header,
    tokens: &[ReadToken],
) -> Result<Option<LineTree>, NoMemory>
    ensures { IfOk result (λ line. option_map view line ≡ lines.header_of access static_word (header_view header) tokens.now) }
{
    match header {
        Header::Enum(token) => read_enum_header(alloc, access, static_word, token, tokens),
        Header::Type(token) => read_type_header(alloc, access, static_word, token, tokens),
        Header::Event(token) => read_event(alloc, access, static_word, token, tokens),
        Header::Procedure(words) => {
            read_procedure_header(alloc, access, static_word, words, tokens)
        }
    }
}

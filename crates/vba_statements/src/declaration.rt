//! Reading the statements that declare variables and constants ([MS-VBAL] 5.2.3.1, 5.4.3.1, 5.4.3.2).

ghost use Rattle.std.specs.Prelude.{◌≡◌, IfOk, option_map};
ghost use Rattle.vba_words.specs.declared.reading.Reading.TheVariants as readings;
ghost use Rattle.vba_tree.specs.Tree as tree;
ghost use Rattle.vba_tree.specs.View.{simple_view};
ghost use Rattle.vba_grammar.specs.Front.{found_as, commas_at};
ghost use Rattle.vba_grammar.specs.Clauses.{variable_at, constant_at, access_of};
ghost use Rattle.vba_grammar.specs.Statements.{variable_word_of, constants_at, declared_at};
ghost use Rattle.vba_statements.specs.Kept.{declaration_at};

use std::alloc::Global;
use vba_base::NoMemory;
use vba_clauses::{Expected, access_of, begins_with, read_constants, read_token, read_variables};
use vba_lexer::Token;
use vba_tree::{AccessWord, Constants, SimpleStatement, VariableWord, Variables};
use vba_words::{Keyword, ReadToken, Reading};

/// Constants behind `Const`, which stands behind a word of access where one is written.
pub fn read_const(
    alloc: Global,
    access: Option<AccessWord>,
    const_word: Token,
    tokens: &[ReadToken],
) -> Result<Option<(SimpleStatement, &[ReadToken])>, NoMemory>
    ensures { IfOk result (λ found. option_map (λ f. (simple_view f.0, f.1.now)) found
        ≡ found_as (tree.constants access const_word) (commas_at constant_at tokens.now)) }
{
    let Some((constants, rest)) = read_constants(alloc, tokens)? else {
        return Ok(None);
    };
    let statement = SimpleStatement::Constants(Constants {
        access,
        const_word,
        constants,
    });
    Ok(Some((statement, rest)))
}

/// `Const` and constants behind a word of access.
fn read_const_behind(
    alloc: Global,
    access: AccessWord,
    tokens: &[ReadToken],
) -> Result<Option<(SimpleStatement, &[ReadToken])>, NoMemory>
    ensures { IfOk result (λ found. option_map (λ f. (simple_view f.0, f.1.now)) found ≡ constants_at (Some access) tokens.now) }
{
    let Some((const_word, rest)) = read_token(tokens, Expected::Const) else {
        return Ok(None);
    };
    read_const(alloc, Some(access), const_word, rest)
}

/// Variables behind the word that declares them.
fn read_dim(
    alloc: Global,
    word: VariableWord,
    word_token: Token,
    tokens: &[ReadToken],
) -> Result<Option<(SimpleStatement, &[ReadToken])>, NoMemory>
    ensures { IfOk result (λ found. option_map (λ f. (simple_view f.0, f.1.now)) found
        ≡ found_as (tree.variables word word_token) (commas_at variable_at tokens.now)) }
{
    let Some((variables, rest)) = read_variables(alloc, tokens)? else {
        return Ok(None);
    };
    let statement = SimpleStatement::Variables(Variables {
        word,
        word_token,
        variables,
    });
    Ok(Some((statement, rest)))
}

/// The word of access that a kept word is.
fn access_by(token: Token, keyword: Keyword) -> Option<AccessWord>
    ensures { result ≡ access_of token (readings.Keyword keyword) }
{
    let word = ReadToken {
        token,
        reading: Reading::Keyword(keyword),
    };
    access_of(&word)
}

/// Behind a word that may declare variables: constants, where it is a word of access with `Const` behind it, or variables.
fn read_declared(
    alloc: Global,
    token: Token,
    keyword: Keyword,
    word: VariableWord,
    tokens: &[ReadToken],
) -> Result<Option<(SimpleStatement, &[ReadToken])>, NoMemory>
    ensures { IfOk result (λ found. option_map (λ f. (simple_view f.0, f.1.now)) found ≡ declared_at token keyword word tokens.now) }
{
    if !begins_with(tokens, Expected::Const) {
        return read_dim(alloc, word, token, tokens);
    }
    match access_by(token, keyword) {
        Some(access) => read_const_behind(alloc, access, tokens),
        None => read_dim(alloc, word, token, tokens),
    }
}

/// The word that declares variables: `Dim`, `Public`, `Private`, `Global` or `Static`.
fn variable_word_of(keyword: Keyword) -> Option<VariableWord>
    ensures { result ≡ variable_word_of keyword }
{
    match keyword {
        Keyword::Dim => Some(VariableWord::Dim),
        Keyword::Public => Some(VariableWord::Public),
        Keyword::Private => Some(VariableWord::Private),
        Keyword::Global => Some(VariableWord::Global),
        Keyword::Static => Some(VariableWord::Static),
        _ => None,
    }
}

/// Behind a kept word that begins a statement only where it declares variables or constants.
pub fn read_declaration(
    alloc: Global,
    token: Token,
    keyword: Keyword,
    tokens: &[ReadToken],
) -> Result<Option<(SimpleStatement, &[ReadToken])>, NoMemory>
    ensures { IfOk result (λ found. option_map (λ f. (simple_view f.0, f.1.now)) found ≡ declaration_at token keyword tokens.now) }
{
    match variable_word_of(keyword) {
        Some(word) => read_declared(alloc, token, keyword, word, tokens),
        None => Ok(None),
    }
}

//! The tokens of the headers of procedures and events.

ghost use Rattle.std.specs.Prelude.{◌≡◌, ◌++◌, map, OnOk, option_map};
ghost use Rattle.vba_words.specs.declared.mark.Mark.TheVariants.{Comma};
ghost use Rattle.vba_tree.specs.Spelling as spelling;
ghost use Rattle.vba_tree.specs.Spelling.{tokens_of};
ghost use Rattle.vba_tree.specs.Tree as tree;
ghost use Rattle.vba_tree.specs.View as views;

use crate::declaration_tokens::{push_access, push_brackets, push_type, push_type_clause};
use crate::list::{Listed, Next};
use crate::procedure::{
    DefaultValue, EventLine, Parameter, Parameters, PassingWord, ProcedureEnd, ProcedureHeader,
    ProcedureWords, ResultType,
};
use crate::word_tokens::{push_behind, push_optional, push_two};
use vba_base::NoMemory;
use vba_lexer::Token;

/// Adds the token of ByVal or ByRef, which may be missing.
fn push_passing(tokens: &mut Vec<Token>, passing: &Option<PassingWord>) -> Result<(), NoMemory>
    ensures { OnOk result (tokens.new.items ≡ tokens.old.items ++ tokens_of (spelling.spell_passing passing.now)) }
{
    if let Some(word) = passing {
        tokens.push(word.token)?;
    }
    Ok(())
}

/// Adds the tokens of `= value`, which may be missing.
fn push_default(tokens: &mut Vec<Token>, default: &Option<DefaultValue>) -> Result<(), NoMemory>
    ensures { OnOk result (tokens.new.items ≡ tokens.old.items
        ++ tokens_of (spelling.optional spelling.spell_default (option_map views.default_view default.now))) }
{
    if let Some(default) = default {
        push_behind(tokens, default.equal, &default.value)?;
    }
    Ok(())
}

/// Adds the tokens of a parameter.
#[tactic(auto, using(crate::proofs::Tokens::tokens_of_append, crate::proofs::Tokens::tokens_of_word))]
fn push_parameter(tokens: &mut Vec<Token>, parameter: &Parameter) -> Result<(), NoMemory>
    ensures { OnOk result (tokens.new.items ≡ tokens.old.items ++ tokens_of (spelling.spell_parameter (views.parameter_view parameter.now))) }
{
    push_optional(tokens, parameter.optional_word)?;
    push_passing(tokens, &parameter.passing)?;
    push_optional(tokens, parameter.param_array_word)?;
    tokens.push(parameter.name.token)?;
    push_brackets(tokens, &parameter.brackets)?;
    push_type_clause(tokens, &parameter.type_clause)?;
    push_default(tokens, &parameter.default)
}

/// Adds the tokens of parameters behind their commas.
#[tactic(auto, using(crate::proofs::Tokens::tokens_of_append))]
fn push_other_parameters(
    tokens: &mut Vec<Token>,
    mut others: &[Next<Parameter>],
) -> Result<(), NoMemory>
    ensures { OnOk result (tokens.new.items ≡ tokens.old.items
        ++ tokens_of (spelling.spell_others spelling.spell_parameter Comma (map (λ next. (next.mark, views.parameter_view next.item)) others.entry.now))) }
{
    while let [next, rest @ ..] = others {
        tokens.push(next.mark)?;
        push_parameter(tokens, &next.item)?;
        others = rest;
    }
    Ok(())
}

/// Adds the tokens of parameters.
#[tactic(auto, using(crate::proofs::Tokens::tokens_of_append))]
fn push_parameter_list(
    tokens: &mut Vec<Token>,
    parameters: &Listed<Parameter>,
) -> Result<(), NoMemory>
    ensures { OnOk result (tokens.new.items ≡ tokens.old.items
        ++ tokens_of (spelling.with_commas spelling.spell_parameter (views.listed_view views.parameter_view parameters.now))) }
{
    push_parameter(tokens, &parameters.first)?;
    push_other_parameters(tokens, parameters.others.as_slice())
}

/// Adds the tokens of `([parameters])`, which may be missing.
#[tactic(auto, using(crate::proofs::Tokens::tokens_of_append))]
fn push_parameters(tokens: &mut Vec<Token>, parameters: &Option<Parameters>) -> Result<(), NoMemory>
    ensures { OnOk result (tokens.new.items ≡ tokens.old.items
        ++ tokens_of (spelling.optional spelling.spell_parameters (option_map views.parameters_view parameters.now))) }
{
    if let Some(parameters) = parameters {
        tokens.push(parameters.left)?;
        if let Some(list) = &parameters.parameters {
            push_parameter_list(tokens, list)?;
        }
        tokens.push(parameters.right)?;
    }
    Ok(())
}

/// Adds the tokens of an event's line.
#[tactic(auto, using(crate::proofs::Tokens::tokens_of_append))]
pub(crate) fn push_event(tokens: &mut Vec<Token>, line: &EventLine) -> Result<(), NoMemory>
    ensures { OnOk result (tokens.new.items ≡ tokens.old.items
        ++ tokens_of (spelling.spell (tree.event_line line.now.access line.now.event_word line.now.name (option_map views.parameters_view line.now.parameters)))) }
{
    push_access(tokens, &line.access)?;
    push_two(tokens, line.event_word, line.name.token)?;
    push_parameters(tokens, &line.parameters)
}

/// Adds the tokens of the words for a procedure's kind.
fn push_words(tokens: &mut Vec<Token>, words: ProcedureWords) -> Result<(), NoMemory>
    ensures { OnOk result (tokens.new.items ≡ tokens.old.items ++ tokens_of (spelling.spell_words words)) }
{
    match words {
        ProcedureWords::Sub(token) | ProcedureWords::Function(token) => Ok(tokens.push(token)?),
        ProcedureWords::PropertyGet {
            property_word,
            get_word: word,
        }
        | ProcedureWords::PropertyLet {
            property_word,
            let_word: word,
        }
        | ProcedureWords::PropertySet {
            property_word,
            set_word: word,
        } => push_two(tokens, property_word, word),
    }
}

/// Adds the tokens of the type of a result, which may be missing.
#[tactic(auto, using(crate::proofs::Tokens::tokens_of_append))]
fn push_result_type(
    tokens: &mut Vec<Token>,
    result_type: &Option<ResultType>,
) -> Result<(), NoMemory>
    ensures { OnOk result (tokens.new.items ≡ tokens.old.items
        ++ tokens_of (spelling.optional spelling.spell_result_type (option_map views.result_type_view result_type.now))) }
{
    if let Some(result_type) = result_type {
        tokens.push(result_type.as_word)?;
        push_type(tokens, &result_type.declared_type)?;
        push_brackets(tokens, &result_type.brackets)?;
    }
    Ok(())
}

/// Adds the tokens of a procedure's header.
#[tactic(auto, using(crate::proofs::Tokens::tokens_of_append, crate::proofs::Tokens::tokens_of_word))]
pub(crate) fn push_header(tokens: &mut Vec<Token>, header: &ProcedureHeader) -> Result<(), NoMemory>
    ensures { OnOk result (tokens.new.items ≡ tokens.old.items
        ++ tokens_of (spelling.spell (tree.procedure_header header.now.access header.now.static_word header.now.words header.now.name
        (option_map views.parameters_view header.now.parameters) (option_map views.result_type_view header.now.result_type)))) }
{
    push_access(tokens, &header.access)?;
    push_optional(tokens, header.static_word)?;
    push_words(tokens, header.words)?;
    tokens.push(header.name.token)?;
    push_parameters(tokens, &header.parameters)?;
    push_result_type(tokens, &header.result_type)
}

/// Adds the tokens of `End Sub`, `End Function` or `End Property`.
#[tactic(auto, using(crate::proofs::Tokens::kind_token_itself))]
pub(crate) fn push_procedure_end(
    tokens: &mut Vec<Token>,
    ending: ProcedureEnd,
) -> Result<(), NoMemory>
    ensures { OnOk result (tokens.new.items ≡ tokens.old.items ++ tokens_of (spelling.spell (tree.procedure_end ending))) }
{
    push_two(tokens, ending.end_word, ending.kind_word)
}

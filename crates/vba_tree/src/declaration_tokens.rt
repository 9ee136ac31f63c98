//! The tokens of declarations.

ghost use Rattle.std.specs.Prelude.{◌≡◌, ◌++◌, map, OnOk, option_map};
ghost use Rattle.vba_words.specs.declared.mark.Mark.TheVariants.{Comma};
ghost use Rattle.vba_expression.specs.Spelling.{type_name_tokens};
ghost use Rattle.vba_tree.specs.Spelling as spelling;
ghost use Rattle.vba_tree.specs.Spelling.{tokens_of};
ghost use Rattle.vba_tree.specs.View as views;

use crate::declaration::{
    AccessWord, Brackets, Constant, DeclaredType, Dim, Dims, NewTypeClause, TypeClause, Variable,
};
use crate::list::{Listed, Next};
use crate::word_tokens::{push_behind, push_optional};
use vba_base::NoMemory;
use vba_expression::{TypeName, push_tokens as push_expression};
use vba_lexer::Token;

/// Adds the tokens of an access word.
pub(crate) fn push_access(
    tokens: &mut Vec<Token>,
    access: &Option<AccessWord>,
) -> Result<(), NoMemory>
    ensures { OnOk result (tokens.new.items ≡ tokens.old.items ++ tokens_of (spelling.spell_access access.now)) }
{
    if let Some(word) = access {
        tokens.push(word.token)?;
    }
    Ok(())
}

/// Adds the tokens of `()`, which may be missing.
pub(crate) fn push_brackets(
    tokens: &mut Vec<Token>,
    brackets: &Option<Brackets>,
) -> Result<(), NoMemory>
    ensures { OnOk result (tokens.new.items ≡ tokens.old.items ++ tokens_of (spelling.optional spelling.spell_brackets brackets.now)) }
{
    if let Some(brackets) = brackets {
        tokens.push(brackets.left)?;
        tokens.push(brackets.right)?;
    }
    Ok(())
}

/// Adds the tokens of a type's name.
fn push_type_name(tokens: &mut Vec<Token>, class: &TypeName) -> Result<(), NoMemory>
    ensures { OnOk result (tokens.new.items ≡ tokens.old.items ++ tokens_of (type_name_tokens class.now)) }
{
    if let Some(qualifier) = &class.qualifier {
        tokens.push(qualifier.name.token)?;
        tokens.push(qualifier.dot)?;
    }
    tokens.push(class.name.token)?;
    Ok(())
}

/// Adds the tokens of a type behind `As`.
#[tactic(auto, using(crate::proofs::Tokens::tokens_of_append))]
pub(crate) fn push_type(
    tokens: &mut Vec<Token>,
    declared_type: &DeclaredType,
) -> Result<(), NoMemory>
    ensures { OnOk result (tokens.new.items ≡ tokens.old.items ++ tokens_of (spelling.spell_type (views.declared_type_view declared_type.now))) }
{
    match declared_type {
        DeclaredType::Named(class) => push_type_name(tokens, class),
        DeclaredType::FixedText {
            string_word,
            times,
            length,
        } => {
            tokens.push(*string_word)?;
            push_behind(tokens, *times, length)
        }
    }
}

/// Adds the tokens of `As type`, which may be missing.
#[tactic(auto, using(crate::proofs::Tokens::tokens_of_append))]
pub(crate) fn push_type_clause(
    tokens: &mut Vec<Token>,
    clause: &Option<TypeClause>,
) -> Result<(), NoMemory>
    ensures { OnOk result (tokens.new.items ≡ tokens.old.items
        ++ tokens_of (spelling.optional spelling.spell_type_clause (option_map views.type_clause_view clause.now))) }
{
    if let Some(clause) = clause {
        tokens.push(clause.as_word)?;
        push_type(tokens, &clause.declared_type)?;
    }
    Ok(())
}

/// Adds the tokens of `As [New] type`, which may be missing.
#[tactic(auto, using(crate::proofs::Tokens::tokens_of_append, crate::proofs::Tokens::tokens_of_word))]
fn push_new_type_clause(
    tokens: &mut Vec<Token>,
    clause: &Option<NewTypeClause>,
) -> Result<(), NoMemory>
    ensures { OnOk result (tokens.new.items ≡ tokens.old.items
        ++ tokens_of (spelling.optional spelling.spell_new_type_clause (option_map views.new_type_clause_view clause.now))) }
{
    if let Some(clause) = clause {
        tokens.push(clause.as_word)?;
        push_optional(tokens, clause.new_word)?;
        push_type(tokens, &clause.declared_type)?;
    }
    Ok(())
}

/// Adds the tokens of the bounds of a dimension.
#[tactic(auto, using(crate::proofs::Tokens::tokens_of_append))]
fn push_dim(tokens: &mut Vec<Token>, dim: &Dim) -> Result<(), NoMemory>
    ensures { OnOk result (tokens.new.items ≡ tokens.old.items ++ tokens_of (spelling.spell_dim (views.dim_view dim.now))) }
{
    match dim {
        Dim::Upper(upper) => push_expression(tokens, upper),
        Dim::Range {
            lower,
            to_word,
            upper,
        } => {
            push_expression(tokens, lower)?;
            push_behind(tokens, *to_word, upper)
        }
    }
}

/// Adds the tokens of dimensions behind their commas.
#[tactic(auto, using(crate::proofs::Tokens::tokens_of_append))]
fn push_other_dims(tokens: &mut Vec<Token>, mut others: &[Next<Dim>]) -> Result<(), NoMemory>
    ensures { OnOk result (tokens.new.items ≡ tokens.old.items
        ++ tokens_of (spelling.spell_others spelling.spell_dim Comma (map (λ next. (next.mark, views.dim_view next.item)) others.entry.now))) }
{
    while let [next, rest @ ..] = others {
        tokens.push(next.mark)?;
        push_dim(tokens, &next.item)?;
        others = rest;
    }
    Ok(())
}

/// Adds the tokens of dimensions.
#[tactic(auto, using(crate::proofs::Tokens::tokens_of_append))]
pub(crate) fn push_dim_list(tokens: &mut Vec<Token>, dims: &Listed<Dim>) -> Result<(), NoMemory>
    ensures { OnOk result (tokens.new.items ≡ tokens.old.items
        ++ tokens_of (spelling.with_commas spelling.spell_dim (views.listed_view views.dim_view dims.now))) }
{
    push_dim(tokens, &dims.first)?;
    push_other_dims(tokens, dims.others.as_slice())
}

/// Adds the tokens of `([dims])`, which may be missing.
#[tactic(auto, using(crate::proofs::Tokens::tokens_of_append))]
pub(crate) fn push_dims(tokens: &mut Vec<Token>, dims: &Option<Dims>) -> Result<(), NoMemory>
    ensures { OnOk result (tokens.new.items ≡ tokens.old.items
        ++ tokens_of (spelling.optional spelling.spell_dims (option_map views.dims_view dims.now))) }
{
    if let Some(dims) = dims {
        tokens.push(dims.left)?;
        if let Some(list) = &dims.dims {
            push_dim_list(tokens, list)?;
        }
        tokens.push(dims.right)?;
    }
    Ok(())
}

/// Adds the tokens of a variable.
#[tactic(auto, using(crate::proofs::Tokens::tokens_of_append, crate::proofs::Tokens::tokens_of_word))]
fn push_variable(tokens: &mut Vec<Token>, variable: &Variable) -> Result<(), NoMemory>
    ensures { OnOk result (tokens.new.items ≡ tokens.old.items ++ tokens_of (spelling.spell_variable (views.variable_view variable.now))) }
{
    push_optional(tokens, variable.with_events_word)?;
    tokens.push(variable.name.token)?;
    push_dims(tokens, &variable.dims)?;
    push_new_type_clause(tokens, &variable.type_clause)
}

/// Adds the tokens of variables behind their commas.
#[tactic(auto, using(crate::proofs::Tokens::tokens_of_append))]
fn push_other_variables(
    tokens: &mut Vec<Token>,
    mut others: &[Next<Variable>],
) -> Result<(), NoMemory>
    ensures { OnOk result (tokens.new.items ≡ tokens.old.items
        ++ tokens_of (spelling.spell_others spelling.spell_variable Comma (map (λ next. (next.mark, views.variable_view next.item)) others.entry.now))) }
{
    while let [next, rest @ ..] = others {
        tokens.push(next.mark)?;
        push_variable(tokens, &next.item)?;
        others = rest;
    }
    Ok(())
}

/// Adds the tokens of variables.
#[tactic(auto, using(crate::proofs::Tokens::tokens_of_append))]
pub(crate) fn push_variables(
    tokens: &mut Vec<Token>,
    variables: &Listed<Variable>,
) -> Result<(), NoMemory>
    ensures { OnOk result (tokens.new.items ≡ tokens.old.items
        ++ tokens_of (spelling.with_commas spelling.spell_variable (views.listed_view views.variable_view variables.now))) }
{
    push_variable(tokens, &variables.first)?;
    push_other_variables(tokens, variables.others.as_slice())
}

/// Adds the tokens of a constant.
#[tactic(auto, using(crate::proofs::Tokens::tokens_of_append))]
fn push_constant(tokens: &mut Vec<Token>, constant: &Constant) -> Result<(), NoMemory>
    ensures { OnOk result (tokens.new.items ≡ tokens.old.items ++ tokens_of (spelling.spell_constant (views.constant_view constant.now))) }
{
    tokens.push(constant.name.token)?;
    push_type_clause(tokens, &constant.type_clause)?;
    push_behind(tokens, constant.equal, &constant.value)
}

/// Adds the tokens of constants behind their commas.
#[tactic(auto, using(crate::proofs::Tokens::tokens_of_append))]
fn push_other_constants(
    tokens: &mut Vec<Token>,
    mut others: &[Next<Constant>],
) -> Result<(), NoMemory>
    ensures { OnOk result (tokens.new.items ≡ tokens.old.items
        ++ tokens_of (spelling.spell_others spelling.spell_constant Comma (map (λ next. (next.mark, views.constant_view next.item)) others.entry.now))) }
{
    while let [next, rest @ ..] = others {
        tokens.push(next.mark)?;
        push_constant(tokens, &next.item)?;
        others = rest;
    }
    Ok(())
}

/// Adds the tokens of constants.
#[tactic(auto, using(crate::proofs::Tokens::tokens_of_append))]
pub(crate) fn push_constants(
    tokens: &mut Vec<Token>,
    constants: &Listed<Constant>,
) -> Result<(), NoMemory>
    ensures { OnOk result (tokens.new.items ≡ tokens.old.items
        ++ tokens_of (spelling.with_commas spelling.spell_constant (views.listed_view views.constant_view constants.now))) }
{
    push_constant(tokens, &constants.first)?;
    push_other_constants(tokens, constants.others.as_slice())
}

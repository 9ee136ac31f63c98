//! The tokens of lines.

ghost use Rattle.std.specs.Prelude.{◌≡◌, [], ◌∷◌, ◌++◌, map, IfOk, OnOk, option_map};
ghost use Rattle.vba_words.specs.declared.mark.Mark.TheVariants.{Dot, Comma};
ghost use Rattle.vba_words.specs.Spelling.{naming};
ghost use Rattle.vba_tree.specs.Spelling as spelling;
ghost use Rattle.vba_tree.specs.Spelling.{tokens_of};
ghost use Rattle.vba_tree.specs.Tree as tree;
ghost use Rattle.vba_tree.specs.View as views;

use crate::declaration_tokens::{push_access, push_dims, push_type};
use crate::line::{
    AttributeLine, AttributeValue, EnumHeader, LineLabel, LineTree, OptionChoice, OptionLine,
    StatementLine, TypeHeader, TypeMember,
};
use crate::list::{Listed, Next};
use crate::procedure_tokens::{push_event, push_header, push_procedure_end};
use crate::statement::Statement;
use crate::statement_tokens::{push_others, push_statement};
use crate::word_tokens::push_two;
use std::alloc::Global;
use vba_base::NoMemory;
use vba_lexer::Token;
use vba_words::Identifier;

/// The tokens of the tree of a line, in order.
pub fn spell(alloc: Global, tree: &LineTree) -> Result<Vec<Token>, NoMemory>
    ensures { IfOk result (λ tokens. tokens.items ≡ tokens_of (spelling.spell (views.view tree.now))) }
{
    let mut tokens = Vec::new(alloc);
    push_line(&mut tokens, tree)?;
    Ok(tokens)
}

/// Adds the tokens of a line.
fn push_line(tokens: &mut Vec<Token>, line: &LineTree) -> Result<(), NoMemory>
    ensures { OnOk result (tokens.new.items ≡ tokens.old.items ++ tokens_of (spelling.spell (views.view line.now))) }
{
    match line {
        LineTree::Option(line) => push_option(tokens, *line),
        LineTree::Attribute(line) => push_attribute(tokens, line),
        LineTree::EnumHeader(header) => push_enum_header(tokens, header),
        LineTree::TypeHeader(header) => push_type_header(tokens, header),
        LineTree::EnumEnd {
            end_word,
            enum_word: last,
        }
        | LineTree::TypeEnd {
            end_word,
            type_word: last,
        } => push_two(tokens, *end_word, *last),
        LineTree::TypeMember(member) => push_member(tokens, member),
        LineTree::Event(line) => push_event(tokens, line),
        LineTree::ProcedureHeader(header) => push_header(tokens, header),
        LineTree::ProcedureEnd(ending) => push_procedure_end(tokens, *ending),
        LineTree::Statements(line) => push_statements(tokens, line),
    }
}

/// Adds the tokens of an Option line.
fn push_option(tokens: &mut Vec<Token>, line: OptionLine) -> Result<(), NoMemory>
    ensures { OnOk result (tokens.new.items ≡ tokens.old.items ++ tokens_of (spelling.spell (tree.option_line line))) }
{
    tokens.push(line.option_word)?;
    push_choice(tokens, line.choice)
}

/// Adds the tokens of the header of an Enum.
#[tactic(auto, using(crate::proofs::Tokens::tokens_of_append))]
fn push_enum_header(tokens: &mut Vec<Token>, header: &EnumHeader) -> Result<(), NoMemory>
    ensures { OnOk result (tokens.new.items ≡ tokens.old.items ++ tokens_of (spelling.spell (tree.enum_header header.now))) }
{
    push_access(tokens, &header.access)?;
    push_two(tokens, header.enum_word, header.name.token)
}

/// Adds the tokens of the header of a Type.
#[tactic(auto, using(crate::proofs::Tokens::tokens_of_append))]
fn push_type_header(tokens: &mut Vec<Token>, header: &TypeHeader) -> Result<(), NoMemory>
    ensures { OnOk result (tokens.new.items ≡ tokens.old.items ++ tokens_of (spelling.spell (tree.type_header header.now))) }
{
    push_access(tokens, &header.access)?;
    push_two(tokens, header.type_word, header.name.token)
}

/// Adds the tokens of a member of a Type.
#[tactic(auto, using(crate::proofs::Tokens::tokens_of_append))]
fn push_member(tokens: &mut Vec<Token>, member: &TypeMember) -> Result<(), NoMemory>
    ensures { OnOk result (tokens.new.items ≡ tokens.old.items
        ++ tokens_of (spelling.spell (tree.type_member member.now.name (option_map views.dims_view member.now.dims) (views.type_clause_view member.now.type_clause)))) }
{
    tokens.push(member.name.token)?;
    push_dims(tokens, &member.dims)?;
    tokens.push(member.type_clause.as_word)?;
    push_type(tokens, &member.type_clause.declared_type)
}

/// Adds the tokens of what stands behind `Option`.
fn push_choice(tokens: &mut Vec<Token>, choice: OptionChoice) -> Result<(), NoMemory>
    ensures { OnOk result (tokens.new.items ≡ tokens.old.items ++ tokens_of (spelling.spell_choice choice)) }
{
    match choice {
        OptionChoice::Explicit(token) => Ok(tokens.push(token)?),
        OptionChoice::BaseZero {
            base_word: first,
            zero: last,
        }
        | OptionChoice::BaseOne {
            base_word: first,
            one: last,
        }
        | OptionChoice::CompareBinary {
            compare_word: first,
            binary_word: last,
        }
        | OptionChoice::CompareText {
            compare_word: first,
            text_word: last,
        }
        | OptionChoice::PrivateModule {
            private_word: first,
            module_word: last,
        } => push_two(tokens, first, last),
    }
}

/// Adds the tokens of names behind their dots.
#[tactic(auto, using(crate::proofs::Tokens::tokens_of_append))]
fn push_other_names(
    tokens: &mut Vec<Token>,
    mut others: &[Next<Identifier>],
) -> Result<(), NoMemory>
    ensures { OnOk result (tokens.new.items ≡ tokens.old.items
        ++ tokens_of (spelling.spell_others (λ name. naming name ∷ []) Dot (map (λ next. (next.mark, next.item)) others.entry.now))) }
{
    while let [next, rest @ ..] = others {
        push_two(tokens, next.mark, next.item.token)?;
        others = rest;
    }
    Ok(())
}

/// Adds the tokens of the value of an attribute.
#[tactic(auto, using(crate::proofs::Tokens::tokens_of_append))]
fn push_attribute_value(tokens: &mut Vec<Token>, value: &AttributeValue) -> Result<(), NoMemory>
    ensures { OnOk result (tokens.new.items ≡ tokens.old.items ++ tokens_of (spelling.spell_attribute_value value.now)) }
{
    if let Some(minus) = value.minus {
        tokens.push(minus)?;
    }
    tokens.push(value.literal.token)?;
    Ok(())
}

/// Adds the tokens of values of an attribute behind their commas.
#[tactic(auto, using(crate::proofs::Tokens::tokens_of_append))]
fn push_other_values(
    tokens: &mut Vec<Token>,
    mut others: &[Next<AttributeValue>],
) -> Result<(), NoMemory>
    ensures { OnOk result (tokens.new.items ≡ tokens.old.items
        ++ tokens_of (spelling.spell_others spelling.spell_attribute_value Comma (map (λ next. (next.mark, next.item)) others.entry.now))) }
{
    while let [next, rest @ ..] = others {
        tokens.push(next.mark)?;
        push_attribute_value(tokens, &next.item)?;
        others = rest;
    }
    Ok(())
}

/// Adds the tokens of names with dots.
#[tactic(auto, using(crate::proofs::Tokens::tokens_of_append))]
fn push_names(tokens: &mut Vec<Token>, list: &Listed<Identifier>) -> Result<(), NoMemory>
    ensures { OnOk result (tokens.new.items ≡ tokens.old.items
        ++ tokens_of (spelling.spell_listed (λ name. naming name ∷ []) Dot (views.listed_view (λ name. name) list.now))) }
{
    tokens.push(list.first.token)?;
    push_other_names(tokens, list.others.as_slice())
}

/// Adds the tokens of values of an attribute.
#[tactic(auto, using(crate::proofs::Tokens::tokens_of_append))]
fn push_values(tokens: &mut Vec<Token>, list: &Listed<AttributeValue>) -> Result<(), NoMemory>
    ensures { OnOk result (tokens.new.items ≡ tokens.old.items
        ++ tokens_of (spelling.with_commas spelling.spell_attribute_value (views.listed_view (λ value. value) list.now))) }
{
    push_attribute_value(tokens, &list.first)?;
    push_other_values(tokens, list.others.as_slice())
}

/// Adds the tokens of an Attribute line.
#[tactic(auto, using(crate::proofs::Tokens::tokens_of_append))]
fn push_attribute(tokens: &mut Vec<Token>, line: &AttributeLine) -> Result<(), NoMemory>
    ensures { OnOk result (tokens.new.items ≡ tokens.old.items
        ++ tokens_of (spelling.spell (tree.attribute_line line.now.attribute_word (views.listed_view (λ name. name) line.now.names)
        line.now.equal (views.listed_view (λ value. value) line.now.values)))) }
{
    tokens.push(line.attribute_word)?;
    push_names(tokens, &line.names)?;
    tokens.push(line.equal)?;
    push_values(tokens, &line.values)
}

/// Adds the tokens of a label, which may be missing.
#[tactic(auto, using(crate::proofs::Tokens::tokens_of_append))]
fn push_label(tokens: &mut Vec<Token>, label: &Option<LineLabel>) -> Result<(), NoMemory>
    ensures { OnOk result (tokens.new.items ≡ tokens.old.items ++ tokens_of (spelling.optional spelling.spell_line_label label.now)) }
{
    match label {
        None => Ok(()),
        Some(LineLabel::Name { name, colon }) => push_two(tokens, name.token, *colon),
        Some(LineLabel::Number { token, colon, .. }) => {
            tokens.push(*token)?;
            if let Some(colon) = colon {
                tokens.push(*colon)?;
            }
            Ok(())
        }
    }
}

/// Adds the tokens of the first statement of a line, which may be missing.
fn push_first(tokens: &mut Vec<Token>, first: &Option<Statement>) -> Result<(), NoMemory>
    ensures { OnOk result (tokens.new.items ≡ tokens.old.items ++ tokens_of (spelling.spell_statements (views.front first.now))) }
{
    if let Some(statement) = first {
        push_statement(tokens, statement)?;
    }
    Ok(())
}

/// Adds the tokens of a line of statements.
fn push_statements(tokens: &mut Vec<Token>, line: &StatementLine) -> Result<(), NoMemory>
    ensures { OnOk result (tokens.new.items ≡ tokens.old.items
        ++ tokens_of (spelling.spell (tree.statement_line line.now.label (views.put_all (views.front line.now.first) (map views.next_view line.now.others.items))))) }
{
    push_label(tokens, &line.label)?;
    push_first(tokens, &line.first)?;
    push_others(tokens, &line.others)
}

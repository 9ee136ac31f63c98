//! The tokens of statements with colons between them.

ghost use Rattle.std.specs.Prelude.{◌≡◌, ◌++◌, map, OnOk};
ghost use Rattle.vba_tree.specs.Items.{next_tokens, all_next_tokens};
ghost use Rattle.vba_tree.specs.Spelling.{tokens_of, spell_statement, spell_statements};
ghost use Rattle.vba_tree.specs.View.{statement_view, list_view, next_view};

use crate::simple_tokens::push_simple;
use crate::statement::{NextStatement, Statement, StatementList};
use vba_base::NoMemory;
use vba_expression::push_tokens as push_expression;
use vba_lexer::Token;

/// Adds the tokens of a statement.
#[tactic(auto, using(crate::proofs::Tokens::tokens_of_append))]
#[cycle(statement_tokens)]
pub(crate) fn push_statement(tokens: &mut Vec<Token>, statement: &Statement) -> Result<(), NoMemory>
    ensures { OnOk result (tokens.new.items ≡ tokens.old.items ++ tokens_of (spell_statement (statement_view statement.now))) }
{
    match statement {
        Statement::Simple(statement) => push_simple(tokens, statement),
        Statement::SingleLineIf {
            if_word,
            condition,
            then_word,
            then_list,
        } => {
            tokens.push(*if_word)?;
            push_expression(tokens, condition)?;
            tokens.push(*then_word)?;
            push_statement_list(tokens, then_list)
        }
        Statement::SingleLineIfElse {
            if_word,
            condition,
            then_word,
            then_list,
            else_word,
            else_list,
        } => {
            tokens.push(*if_word)?;
            push_expression(tokens, condition)?;
            tokens.push(*then_word)?;
            push_statement_list(tokens, then_list)?;
            tokens.push(*else_word)?;
            push_statement_list(tokens, else_list)
        }
    }
}

/// Adds the tokens of a list of statements.
#[cycle(statement_tokens)]
fn push_statement_list(tokens: &mut Vec<Token>, list: &StatementList) -> Result<(), NoMemory>
    ensures { OnOk result (tokens.new.items ≡ tokens.old.items ++ tokens_of (spell_statements (list_view list.now))) }
{
    push_statement(tokens, &list.first)?;
    push_others(tokens, &list.others)
}

/// Adds the tokens of statements behind their colons.
#[cycle(statement_tokens)]
pub(crate) fn push_others(
    tokens: &mut Vec<Token>,
    others: &Vec<NextStatement>,
) -> Result<(), NoMemory>
    ensures { OnOk result (tokens.new.items ≡ tokens.old.items ++ tokens_of (all_next_tokens (map next_view others.now.items))) }
{
    for next in others {
        push_next(tokens, next)?;
    }
    Ok(())
}

/// Adds the tokens of a statement behind its colon.
#[tactic(auto, using(crate::proofs::Tokens::tokens_of_append))]
#[cycle(statement_tokens)]
fn push_next(tokens: &mut Vec<Token>, next: &NextStatement) -> Result<(), NoMemory>
    ensures { OnOk result (tokens.new.items ≡ tokens.old.items ++ tokens_of (next_tokens (next_view next.now))) }
{
    match next {
        NextStatement::Written { colon, statement } => {
            tokens.push(*colon)?;
            push_statement(tokens, statement)
        }
        NextStatement::Missing { colon } => Ok(tokens.push(*colon)?),
    }
}

//! What statements say, single-line Ifs too, and parts.

ghost use Rattle.std.specs.Prelude.{◌≡◌, ◌++◌, OnOk, map};
ghost use Rattle.binder.specs.Said as plain;
ghost use Rattle.module_parts.specs.View.{part_view};
ghost use Rattle.said_parts.specs.Statements.{next_said, all_next_said};
ghost use Rattle.said_parts.specs.View.{all_said};
ghost use Rattle.vba_tree.specs.View.{statement_view, list_view, next_view};

use crate::said::{Said, push_said};
use crate::simple::push_simple;
use module_parts::Part;
use vba_base::NoMemory;
use vba_tree::{NextStatement, Statement, StatementList};

/// A statement.
#[cycle(statements)]
fn push_statement<'a>(
    said: &mut Vec<Said<'a>>,
    statement: &'a Statement,
    is_static: bool,
) -> Result<(), NoMemory>
    ensures { OnOk result (all_said said.new.items ≡ all_said said.old.items ++ plain.said is_static (statement_view statement.now)) }
{
    match statement {
        Statement::Simple(simple) => push_simple(said, simple, is_static),
        Statement::SingleLineIf {
            condition,
            then_list,
            ..
        } => {
            push_said(said, Said::Expression(condition))?;
            push_list(said, then_list, is_static)
        }
        Statement::SingleLineIfElse {
            condition,
            then_list,
            else_list,
            ..
        } => {
            push_said(said, Said::Expression(condition))?;
            push_list(said, then_list, is_static)?;
            push_list(said, else_list, is_static)
        }
    }
}

/// A list of statements.
#[cycle(statements)]
fn push_list<'a>(
    said: &mut Vec<Said<'a>>,
    list: &'a StatementList,
    is_static: bool,
) -> Result<(), NoMemory>
    ensures { OnOk result (all_said said.new.items ≡ all_said said.old.items ++ plain.said_in_list is_static (list_view list.now)) }
{
    push_statement(said, &list.first, is_static)?;
    push_others(said, &list.others, is_static)
}

/// Statements behind their colons.
#[cycle(statements)]
fn push_others<'a>(
    said: &mut Vec<Said<'a>>,
    others: &'a Vec<NextStatement>,
    is_static: bool,
) -> Result<(), NoMemory>
    ensures { OnOk result (all_said said.new.items ≡ all_said said.old.items ++ all_next_said is_static (map next_view others.now.items)) }
{
    for next in others {
        push_next(said, next, is_static)?;
    }
    Ok(())
}

/// A statement behind its colon.
#[cycle(statements)]
fn push_next<'a>(
    said: &mut Vec<Said<'a>>,
    next: &'a NextStatement,
    is_static: bool,
) -> Result<(), NoMemory>
    ensures { OnOk result (all_said said.new.items ≡ all_said said.old.items ++ next_said is_static (next_view next.now)) }
{
    match next {
        NextStatement::Written { statement, .. } => push_statement(said, statement, is_static),
        NextStatement::Missing { .. } => Ok(()),
    }
}

/// Adds what a part of a procedure says, in text order; the procedure is Static or not.
pub fn push_part<'a>(
    said: &mut Vec<Said<'a>>,
    part: &'a Part,
    is_static: bool,
) -> Result<(), NoMemory>
    ensures { OnOk result (all_said said.new.items ≡ all_said said.old.items ++ plain.said_in_part is_static (part_view part.now)) }
{
    match part {
        Part::Statement(statement) => push_statement(said, statement, is_static),
        Part::Label(_) | Part::WholeLine(_) => Ok(()),
    }
}

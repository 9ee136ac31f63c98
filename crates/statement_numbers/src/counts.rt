//! How many statements there are ([MS-VBAL] 5.4).

ghost use Rattle.std.specs.Prelude.{◌≡◌, IfOk, map};
ghost use Rattle.vba_tree.specs.View as tree;
ghost use Rattle.module_parts.specs.View.{part_view, parts_view};
ghost use Rattle.binder.specs.Numbering as numbering;
ghost use Rattle.statement_numbers.specs.Counts.{next_count, next_counts};

use crate::sums::plus;
use module_parts::Part;
use vba_base::NoMemory;
use vba_tree::{BlockLine, NextStatement, SimpleStatement, Statement, StatementList};

/// How many statements a line of a block is: Else, Case Else, End If and End Select are none.
fn line_count(line: &BlockLine) -> u32
    ensures { result ≡ numbering.line_count (tree.block_line_view line.now) }
{
    match line {
        BlockLine::Else(_)
        | BlockLine::EndIf { .. }
        | BlockLine::CaseElse { .. }
        | BlockLine::EndSelect { .. } => 0,
        _ => 1,
    }
}

/// How many statements one is that is no single-line If. Declarations are none.
pub fn simple_count(statement: &SimpleStatement) -> u32
    ensures { result ≡ numbering.simple_count (tree.simple_view statement.now) }
{
    match statement {
        SimpleStatement::Variables(_) | SimpleStatement::Constants(_) => 0,
        SimpleStatement::BlockLine(line) => line_count(line),
        _ => 1,
    }
}

/// How many statements a statement is. A single-line If is one, and so are those in it.
#[cycle(count)]
pub fn count(statement: &Statement) -> Result<u32, NoMemory>
    ensures { IfOk result (λ n. n ≡ numbering.count (tree.statement_view statement.now)) }
{
    match statement {
        Statement::Simple(simple) => Ok(simple_count(simple)),
        Statement::SingleLineIf { then_list, .. } => plus(1, count_list(then_list)?),
        Statement::SingleLineIfElse {
            then_list,
            else_list,
            ..
        } => {
            let before = plus(1, count_list(then_list)?)?;
            plus(before, count_list(else_list)?)
        }
    }
}

/// How many statements stand in a list.
#[cycle(count)]
pub fn count_list(list: &StatementList) -> Result<u32, NoMemory>
    ensures { IfOk result (λ n. n ≡ numbering.count_list (tree.list_view list.now)) }
{
    let first = count(&list.first)?;
    plus(first, count_others(&list.others)?)
}

/// How many statements stand behind colons.
#[cycle(count)]
fn count_others(others: &Vec<NextStatement>) -> Result<u32, NoMemory>
    ensures { IfOk result (λ n. n ≡ next_counts (map tree.next_view others.now.items)) }
{
    let mut counted = 0;
    for next in others {
        counted = plus(counted, count_next(next)?)?;
    }
    Ok(counted)
}

/// How many statements stand behind a colon.
#[cycle(count)]
pub fn count_next(next: &NextStatement) -> Result<u32, NoMemory>
    ensures { IfOk result (λ n. n ≡ next_count (tree.next_view next.now)) }
{
    match next {
        NextStatement::Written { statement, .. } => count(statement),
        NextStatement::Missing { .. } => Ok(0),
    }
}

/// How many statements a part is.
pub fn part_count(part: &Part) -> Result<u32, NoMemory>
    ensures { IfOk result (λ n. n ≡ numbering.part_count (part_view part.now)) }
{
    match part {
        Part::Statement(statement) => count(statement),
        Part::Label(_) | Part::WholeLine(_) => Ok(0),
    }
}

/// How many statements the parts of a body are: the number of its end.
pub fn body_count(parts: &[Part]) -> Result<u32, NoMemory>
    ensures { IfOk result (λ n. n ≡ numbering.body_count (parts_view parts.now)) }
{
    let mut counted = 0;
    let mut left = parts;
    'counting: while let [part, rest @ ..] = left {
        counted = plus(counted, part_count(part)?)?;
        left = rest;
    }
    Ok(counted)
}

//! Statements, also single-line Ifs with the statements in them.

ghost use Rattle.std.specs.Prelude.{◌≡◌, [], OnOk, map};
ghost use Rattle.statement_nodes.specs.Nexts.{bound_next, bound_nexts};
ghost use Rattle.bound_lines.specs.Round.{StandsAt, around_view};
ghost use Rattle.statement_nodes.specs.Walks.{Added};
ghost use Rattle.bound_names.specs.bound_members.specs.bound_calls.specs.bound_forms.specs.StatementsBound as plain;
ghost use Rattle.bound_project.specs.DraftView.{draft_view};
ghost use Rattle.bound_names.specs.View.{EnvStands};
ghost use Rattle.statement_nodes.specs.statement_numbers.specs.View.{standing_view};
ghost use Rattle.vba_tree.specs.View.{list_view, next_view, statement_view};

use crate::statements::bind_simple;
use bound_lines::{Around, bind_if};
use bound_names::bound_members::bound_calls::bound_declarations::NotYet;
use bound_project::Draft;
use module_parts::statement_place;
use statement_nodes::statement_numbers::{Standing, count, count_list, count_next, plus};
use statement_nodes::{Numbers, count_others, first_of};
use std::alloc::Global;
use vba_base::OrMemory;
use vba_tree::{NextStatement, Statement, StatementList};

/// Adds a statement with this number, behind which that one runs.
#[tactic(auto, using(statement_nodes::proofs::Ifs::if_then_added, statement_nodes::proofs::Ifs::if_else_added))]
#[cycle(bound_statements)]
pub fn bind_statement<'a>(
    alloc: Global,
    draft: &mut Draft,
    around: Around<'a>,
    standing: Standing<'a>,
    statement: &'a Statement,
    number: u32,
    behind: u32,
) -> Result<(), OrMemory<NotYet>>
    requires env { EnvStands around.env }
    requires empty { (draft_view draft.old).pieces ≡ [] }
    requires placed { StandsAt around (standing_view standing) }
    ensures { OnOk result (Added
        (plain.bound_statement (around_view around.entry) (standing_view standing.entry) (statement_view statement.now) number behind)
        (draft_view draft.old) (draft_view draft.new)) }
{
    match statement {
        Statement::Simple(simple) => {
            let place = statement_place(statement);
            bind_simple(alloc, draft, around, standing, simple, place, behind)
        }
        Statement::SingleLineIf {
            if_word,
            condition,
            then_list,
            ..
        } => {
            let inside = plus(number, 1)?;
            let end = plus(inside, count_list(then_list)?)?;
            let first = first_of(Numbers {
                number: inside,
                end,
                behind,
            });
            bind_if(
                alloc,
                draft,
                around,
                condition,
                if_word.place,
                first,
                behind,
            )?;
            bind_list(alloc, draft, around, standing, then_list, inside, behind)?;
            Ok(())
        }
        Statement::SingleLineIfElse {
            if_word,
            condition,
            then_list,
            else_list,
            ..
        } => {
            let inside = plus(number, 1)?;
            let other = plus(inside, count_list(then_list)?)?;
            let end = plus(other, count_list(else_list)?)?;
            let first = first_of(Numbers {
                number: inside,
                end: other,
                behind,
            });
            let otherwise = first_of(Numbers {
                number: other,
                end,
                behind,
            });
            bind_if(
                alloc,
                draft,
                around,
                condition,
                if_word.place,
                first,
                otherwise,
            )?;
            bind_list(alloc, draft, around, standing, then_list, inside, behind)?;
            bind_list(alloc, draft, around, standing, else_list, other, behind)?;
            Ok(())
        }
    }
}

/// Adds the statements of a list.
#[tactic(auto, using(statement_nodes::proofs::Lists::list_added, statement_nodes::proofs::Lists::others_counted))]
#[cycle(bound_statements)]
fn bind_list<'a>(
    alloc: Global,
    draft: &mut Draft,
    around: Around<'a>,
    standing: Standing<'a>,
    list: &'a StatementList,
    number: u32,
    behind: u32,
) -> Result<(), OrMemory<NotYet>>
    requires env { EnvStands around.env }
    requires empty { (draft_view draft.old).pieces ≡ [] }
    requires placed { StandsAt around (standing_view standing) }
    ensures { OnOk result (Added
        (plain.bound_list (around_view around.entry) (standing_view standing.entry) (list_view list.now) number behind)
        (draft_view draft.old) (draft_view draft.new)) }
{
    let others = Numbers {
        number: plus(number, count(&list.first)?)?,
        end: plus(number, count_list(list)?)?,
        behind,
    };
    bind_statement(
        alloc,
        draft,
        around,
        standing,
        &list.first,
        number,
        first_of(others),
    )?;
    bind_others(
        alloc,
        draft,
        around,
        standing,
        &list.others,
        others.number,
        behind,
    )?;
    Ok(())
}

/// Adds the statements behind colons.
#[tactic(auto, using(statement_nodes::proofs::Lists::others_begin, statement_nodes::proofs::Lists::others_go_on, statement_nodes::proofs::Lists::others_end, std::proofs::lemmas::List::drop_more))]
#[cycle(bound_statements)]
fn bind_others<'a>(
    alloc: Global,
    draft: &mut Draft,
    around: Around<'a>,
    standing: Standing<'a>,
    others: &'a Vec<NextStatement>,
    number: u32,
    behind: u32,
) -> Result<(), OrMemory<NotYet>>
    requires env { EnvStands around.env }
    requires empty { (draft_view draft.old).pieces ≡ [] }
    requires placed { StandsAt around (standing_view standing) }
    ensures { OnOk result (Added
        (bound_nexts (around_view around.entry) (standing_view standing.entry) (map next_view others.now.items) number behind)
        (draft_view draft.old) (draft_view draft.new)) }
{
    let mut left = Numbers {
        number,
        end: plus(number, count_others(others)?)?,
        behind,
    };
    for next in others {
        let number = left.number;
        left.number = plus(number, count_next(next)?)?;
        bind_next(alloc, draft, around, standing, next, number, first_of(left))?;
    }
    Ok(())
}

/// Adds the statement behind a colon, where there is one.
#[cycle(bound_statements)]
fn bind_next<'a>(
    alloc: Global,
    draft: &mut Draft,
    around: Around<'a>,
    standing: Standing<'a>,
    next: &'a NextStatement,
    number: u32,
    behind: u32,
) -> Result<(), OrMemory<NotYet>>
    requires env { EnvStands around.env }
    requires empty { (draft_view draft.old).pieces ≡ [] }
    requires placed { StandsAt around (standing_view standing) }
    ensures { OnOk result (Added
        (bound_next (around_view around.entry) (standing_view standing.entry) (next_view next.now) number behind)
        (draft_view draft.old) (draft_view draft.new)) }
{
    match next {
        NextStatement::Written { statement, .. } => {
            bind_statement(alloc, draft, around, standing, statement, number, behind)
        }
        NextStatement::Missing { .. } => Ok(()),
    }
}

//! What is looked for in statements, in single-line Ifs too.

ghost use Rattle.std.specs.Prelude.{◌≡◌, map};
ghost use Rattle.module_rules.specs.Found.{noted};
ghost use Rattle.module_rules.specs.Statements.{rule_of, faults, all_faults, next_faults, all_next_faults};
ghost use Rattle.vba_module.specs.Misplaced.{statement_place};
ghost use Rattle.vba_tree.specs.Tree.{simple};
ghost use Rattle.vba_tree.specs.View.{simple_view, statement_view, list_view, next_view};

use crate::body::note_misplaced_in_body;
use crate::bounds::note_bounds_in;
use crate::exits::note_exit;
use crate::open::Open;
use module_parts::statement_place;
use vba_base::{Place, Refusal};
use vba_tree::{NextStatement, SimpleStatement, Statement, StatementList};

/// What is looked for in statements.
#[derive(Clone, Copy)]
pub enum Check<'a> {
    /// Exits that stand in nothing that they leave (S11), where these are open.
    Exits(&'a [Open]),
    /// What may not stand in a single-line If of a procedure (S12).
    Body,
    /// Bounds that are too many (S14).
    Bounds,
}

/// Notes what is looked for in a statement that is no single-line If.
fn note_simple(check: Check, statement: &SimpleStatement, place: Place, least: &mut Option<Refusal>)
    requires { place ≡ statement_place (simple (simple_view statement.now)) }
    ensures { least.new ≡ noted (rule_of check.entry) least.old (faults check.entry (simple (simple_view statement.now))) }
{
    match check {
        Check::Exits(opened) => note_exit(opened, statement, least),
        Check::Body => note_misplaced_in_body(statement, place, true, least),
        Check::Bounds => note_bounds_in(statement, least),
    }
}

/// Notes what is looked for in a statement.
#[cycle(statements)]
pub fn note_statement(check: Check, statement: &Statement, least: &mut Option<Refusal>)
    ensures { least.new ≡ noted (rule_of check.entry) least.old (faults check.entry (statement_view statement.now)) }
{
    match statement {
        Statement::Simple(simple) => {
            note_simple(check, simple, statement_place(statement), least);
        }
        Statement::SingleLineIf { then_list, .. } => note_list(check, then_list, least),
        Statement::SingleLineIfElse {
            then_list,
            else_list,
            ..
        } => {
            note_list(check, then_list, least);
            note_list(check, else_list, least);
        }
    }
}

/// Notes what is looked for in a list of statements.
#[cycle(statements)]
fn note_list(check: Check, list: &StatementList, least: &mut Option<Refusal>)
    ensures { least.new ≡ noted (rule_of check.entry) least.old (all_faults check.entry (list_view list.now)) }
{
    note_statement(check, &list.first, least);
    note_others(check, &list.others, least);
}

/// Notes what is looked for in statements behind their colons.
#[cycle(statements)]
fn note_others(check: Check, others: &Vec<NextStatement>, least: &mut Option<Refusal>)
    ensures { least.new ≡ noted (rule_of check.entry) least.old (all_next_faults check.entry (map next_view others.now.items)) }
{
    for next in others {
        note_next(check, next, least);
    }
}

/// Notes what is looked for in a statement behind its colon.
#[cycle(statements)]
fn note_next(check: Check, next: &NextStatement, least: &mut Option<Refusal>)
    ensures { least.new ≡ noted (rule_of check.entry) least.old (next_faults check.entry (next_view next.now)) }
{
    match next {
        NextStatement::Written { statement, .. } => note_statement(check, statement, least),
        NextStatement::Missing { .. } => {}
    }
}

//! Whether a project declares a variable As New ([MS-VBAL] 2.5.1).

ghost use Rattle.std.specs.List.{list_any};
ghost use Rattle.std.specs.Prelude.{◌≡◌, map, option_map};
ghost use Rattle.bound_declarations.specs.NewWords.{any_new, next_makes};
ghost use Rattle.constant_values.specs.declared_names.specs.binder.specs.Classes as classes;
ghost use Rattle.constant_values.specs.declared_names.specs.module_parts.specs.View.{part_view, parts_view};
ghost use Rattle.constant_values.specs.declared_names.specs.View.{space_view};
ghost use Rattle.vba_module.specs.Headers.{all_of};
ghost use Rattle.vba_tree.specs.View.{list_view, listed_view, new_type_clause_view, next_view, simple_view, statement_view, variable_view};

use constant_values::declared_names::Space;
use constant_values::declared_names::module_parts::Part;
use vba_tree::{
    NewTypeClause, NextStatement, SimpleStatement, Statement, StatementList, Variables,
};

/// Does a clause declare a variable As New?
fn is_new_clause(clause: &Option<NewTypeClause>) -> bool
    ensures { result ≡ classes.is_new_clause (option_map new_type_clause_view clause.now) }
{
    match clause {
        None => false,
        Some(clause) => clause.new_word.is_some(),
    }
}

/// Is one of the variables that a statement declares declared so?
fn any_new(variables: &Variables) -> bool
    ensures { result ≡ any_new (all_of (listed_view variable_view variables.now.variables)) }
{
    if is_new_clause(&variables.variables.first.type_clause) {
        return true;
    }
    let mut left = variables.variables.others.as_slice();
    'variables: while let [next, behind @ ..] = left {
        if is_new_clause(&next.item.type_clause) {
            return true;
        }
        left = behind;
    }
    false
}

/// Does a statement that is no single-line If declare one?
fn makes_variables(statement: &SimpleStatement) -> bool
    ensures { result ≡ classes.makes_variables (simple_view statement.now) }
{
    match statement {
        SimpleStatement::Variables(variables) => any_new(variables),
        _ => false,
    }
}

/// Does a statement, or one inside a single-line If?
#[cycle(makes)]
fn statement_makes(statement: &Statement) -> bool
    ensures { result ≡ classes.statement_makes (statement_view statement.now) }
{
    match statement {
        Statement::Simple(simple) => makes_variables(simple),
        Statement::SingleLineIf { then_list, .. } => list_makes(then_list),
        Statement::SingleLineIfElse {
            then_list,
            else_list,
            ..
        } => {
            if list_makes(then_list) {
                return true;
            }
            list_makes(else_list)
        }
    }
}

/// Does a statement of a list?
#[cycle(makes)]
fn list_makes(list: &StatementList) -> bool
    ensures { result ≡ classes.list_makes (list_view list.now) }
{
    if statement_makes(&list.first) {
        return true;
    }
    others_make(&list.others)
}

/// Does a statement behind one of these colons?
#[cycle(makes)]
fn others_make(others: &Vec<NextStatement>) -> bool
    ensures { result ≡ list_any next_makes (map next_view others.now.items) }
{
    for next in others {
        if next_makes(next) {
            return true;
        }
    }
    false
}

/// Does the statement behind a colon?
#[cycle(makes)]
fn next_makes(next: &NextStatement) -> bool
    ensures { result ≡ next_makes (next_view next.now) }
{
    match next {
        NextStatement::Written { statement, .. } => statement_makes(statement),
        NextStatement::Missing { .. } => false,
    }
}

/// Does a part of a module?
fn declares_new(part: &Part) -> bool
    ensures { result ≡ classes.declares_new (part_view part.now) }
{
    match part {
        Part::Statement(statement) => statement_makes(statement),
        Part::Label(_) | Part::WholeLine(_) => false,
    }
}

/// Does one of the parts of a module?
#[tactic(auto, using(std::proofs::lemmas::List::drop_more))]
fn any_declares_new(parts: &[Part]) -> bool
    ensures { result ≡ list_any classes.declares_new (parts_view parts.now) }
{
    for part in parts {
        if declares_new(part) {
            return true;
        }
    }
    false
}

/// Does a project?
#[tactic(auto, using(std::proofs::lemmas::List::drop_more))]
pub fn has_new(spaces: &[Space]) -> bool
    ensures { result ≡ classes.has_new (map space_view spaces.now) }
{
    for space in spaces {
        if any_declares_new(space.source.parts.as_slice()) {
            return true;
        }
    }
    false
}

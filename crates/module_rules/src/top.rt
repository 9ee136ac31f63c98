//! S12 at the parts outside of procedures.

ghost use Rattle.std.specs.Prelude.{◌≡◌};
ghost use Rattle.module_rules.specs.Found.{noted};
ghost use Rattle.module_rules.specs.Statements.{is_plain_name};
ghost use Rattle.module_rules.specs.Seen.{before_view};
ghost use Rattle.vba_expression.specs.View.{view as expression_view};
ghost use Rattle.vba_module.specs.Misplaced as places;
ghost use Rattle.vba_tree.specs.Tree.{simple};
ghost use Rattle.vba_tree.specs.View.{simple_view, statement_view, view};

use crate::before::{Before, has_option};
use crate::body::note_with_events;
use crate::noting::note_place;
use vba_base::{Place, Refusal};
use vba_expression::Expression;
use vba_tree::{Access, AccessWord, LineTree, SimpleStatement, Statement, VariableWord};

/// Does no word say Private?
fn is_public(access: Option<AccessWord>) -> bool
    ensures { result ≡ places.is_public access }
{
    match access {
        Some(word) => match word.access {
            Access::Private => false,
            Access::Public | Access::Friend | Access::Global => true,
        },
        None => true,
    }
}

/// Is it `Static`?
fn is_static(word: VariableWord) -> bool
    ensures { result ≡ places.is_static word }
{
    match word {
        VariableWord::Static => true,
        _ => false,
    }
}

/// Notes where a statement that is no single-line If may not stand outside of procedures.
#[tactic(auto, using(crate::proofs::Noted::noted_append))]
fn note_simple_at_top(
    is_class: bool,
    before: &Before,
    statement: &SimpleStatement,
    place: Place,
    least: &mut Option<Refusal>,
)
    ensures { least.new ≡ noted 12 least.old (places.at_top is_class (before_view before.now) place (simple (simple_view statement.now))) }
{
    match statement {
        SimpleStatement::Variables(variables) => {
            let is_late = is_static(variables.word) || before.has_procedure;
            note_place(least, is_late, 12, place);
            if !is_class {
                note_with_events(&variables.variables, least);
            }
        }
        SimpleStatement::Constants(_) => note_place(least, before.has_procedure, 12, place),
        _ => note_place(least, true, 12, place),
    }
}

/// Notes where a statement may not stand outside of procedures: it declares variables or constants, before the procedures.
pub fn note_at_top(
    is_class: bool,
    before: &Before,
    statement: &Statement,
    place: Place,
    least: &mut Option<Refusal>,
)
    ensures { least.new ≡ noted 12 least.old (places.at_top is_class (before_view before.now) place (statement_view statement.now)) }
{
    match statement {
        Statement::Simple(simple) => note_simple_at_top(is_class, before, simple, place, least),
        Statement::SingleLineIf { .. } | Statement::SingleLineIfElse { .. } => {
            note_place(least, true, 12, place);
        }
    }
}

/// Notes where a line that is no statements may not stand outside of procedures, Enums and Types: options stand before
/// declarations, and these before procedures.
#[tactic(auto, using(crate::proofs::Noted::noted_append))]
pub fn note_line_at_top(
    is_class: bool,
    before: &Before,
    line: &LineTree,
    place: Place,
    least: &mut Option<Refusal>,
)
    ensures { least.new ≡ noted 12 least.old (places.line_at_top is_class (before_view before.now) place (view line.now)) }
{
    match line {
        LineTree::Option(option) => {
            let is_late = before.has_declaration
                || before.has_procedure
                || has_option(before, &option.choice);
            note_place(least, is_late, 12, place);
        }
        LineTree::EnumHeader(_) => note_place(least, before.has_procedure, 12, place),
        LineTree::TypeHeader(header) => {
            let is_wrong = before.has_procedure || (is_class && is_public(header.access));
            note_place(least, is_wrong, 12, place);
        }
        LineTree::Event(event) => {
            note_place(least, before.has_procedure, 12, place);
            note_place(least, !is_class, 12, event.event_word.place);
        }
        LineTree::TypeMember(_) => note_place(least, true, 12, place),
        _ => {}
    }
}

/// Is it a name without a suffix?
#[tactic(auto, using(crate::proofs::Members::plain_name, crate::proofs::Members::no_name))]
fn is_plain_name(expression: &Expression) -> bool
    ensures { result ≡ is_plain_name (expression_view expression.now) }
{
    match expression.name() {
        Some(name) => name.suffix.is_none(),
        None => false,
    }
}

/// Is it a member of an Enum, that is a name without a suffix, with `=` and its value where it is written?
#[tactic(auto, using(crate::proofs::Members::called, crate::proofs::Members::assigned, crate::proofs::Members::assigned_by_let))]
fn is_simple_member(statement: &SimpleStatement) -> bool
    ensures { result ≡ places.is_enum_member (simple (simple_view statement.now)) }
{
    match statement {
        SimpleStatement::Call { target, arguments } => {
            is_plain_name(target) && arguments.is_empty()
        }
        SimpleStatement::Assignment {
            let_word: None,
            place,
            ..
        } => is_plain_name(place),
        _ => false,
    }
}

/// The same of any statement.
pub fn is_enum_member(statement: &Statement) -> bool
    ensures { result ≡ places.is_enum_member (statement_view statement.now) }
{
    match statement {
        Statement::Simple(simple) => is_simple_member(simple),
        Statement::SingleLineIf { .. } | Statement::SingleLineIfElse { .. } => false,
    }
}

//! S12 at a part: whether it may stand there.

ghost use Rattle.std.specs.Prelude.{◌≡◌, Bool, false};
ghost use Rattle.module_parts.specs.View.{part_view};
ghost use Rattle.module_rules.specs.Found.{noted};
ghost use Rattle.module_rules.specs.Seen.{before_view, inside_view};
ghost use Rattle.vba_module.specs.Misplaced as places;
ghost use Rattle.vba_module.specs.Parts as parts;
ghost use Rattle.vba_tree.specs.View.{statement_view, view};

use crate::before::Before;
use crate::body::note_misplaced_in_body;
use crate::inside::Inside;
use crate::noting::note_place;
use crate::statements::{Check, note_statement};
use crate::top::{is_enum_member, note_at_top, note_line_at_top};
use module_parts::{Part, statement_place};
use vba_base::{Place, Refusal};
use vba_tree::{LineTree, Statement};

/// May a line stand inside a procedure, an Enum or a Type? Ends are told by S11, and attributes may stand anywhere.
fn may_stand(line: &LineTree) -> bool
    ensures { result ≡ places.may_stand (view line.now) }
{
    match line {
        LineTree::Attribute(_)
        | LineTree::EnumEnd { .. }
        | LineTree::TypeEnd { .. }
        | LineTree::ProcedureEnd(_) => true,
        _ => false,
    }
}

/// Is it a member of a Type?
fn is_type_member(line: &LineTree) -> bool
    ensures { result ≡ places.is_type_member (view line.now) }
{
    match line {
        LineTree::TypeMember(_) => true,
        _ => false,
    }
}

/// Notes where a part may not stand outside of procedures, Enums and Types.
fn note_in_module(
    is_class: bool,
    before: &Before,
    part: &Part,
    place: Place,
    least: &mut Option<Refusal>,
)
    ensures { least.new ≡ noted 12 least.old (places.misplaced is_class (before_view before.now) places.at_module place (part_view part.now)) }
{
    match part {
        Part::Label(_) => note_place(least, true, 12, place),
        Part::Statement(statement) => note_at_top(is_class, before, statement, place, least),
        Part::WholeLine(line) => note_line_at_top(is_class, before, line, place, least),
    }
}

/// The same of a statement in a procedure.
fn note_in_body(statement: &Statement, least: &mut Option<Refusal>)
    ensures { least.new ≡ noted 12 least.old (places.in_body (places.statement_place (statement_view statement.now)) false (statement_view statement.now)) }
{
    match statement {
        Statement::Simple(simple) => {
            note_misplaced_in_body(simple, statement_place(statement), false, least);
        }
        Statement::SingleLineIf { .. } | Statement::SingleLineIfElse { .. } => {
            note_statement(Check::Body, statement, least);
        }
    }
}

/// The same of any part in a procedure.
fn note_in_procedure(part: &Part, place: Place, least: &mut Option<Refusal>)
    requires { place ≡ parts.place_of (part_view part.now) }
    ensures { (is_class : Bool) (before : places.Before) →
        least.new ≡ noted 12 least.old (places.misplaced is_class before places.in_procedure place (part_view part.now)) }
{
    match part {
        Part::Label(_) => {}
        Part::Statement(statement) => note_in_body(statement, least),
        Part::WholeLine(line) => note_place(least, !may_stand(line), 12, place),
    }
}

/// The same in an Enum.
fn note_in_enum(part: &Part, place: Place, least: &mut Option<Refusal>)
    ensures { (is_class : Bool) (before : places.Before) →
        least.new ≡ noted 12 least.old (places.misplaced is_class before places.in_enum place (part_view part.now)) }
{
    match part {
        Part::Label(_) => note_place(least, true, 12, place),
        Part::Statement(statement) => note_place(least, !is_enum_member(statement), 12, place),
        Part::WholeLine(line) => note_place(least, !may_stand(line), 12, place),
    }
}

/// The same in a Type.
fn note_in_type(part: &Part, place: Place, least: &mut Option<Refusal>)
    ensures { (is_class : Bool) (before : places.Before) →
        least.new ≡ noted 12 least.old (places.misplaced is_class before places.in_type place (part_view part.now)) }
{
    match part {
        Part::Label(_) | Part::Statement(_) => note_place(least, true, 12, place),
        Part::WholeLine(line) => {
            let is_wrong = !may_stand(line) && !is_type_member(line);
            note_place(least, is_wrong, 12, place);
        }
    }
}

/// Notes where a part may not stand (S12).
pub fn note_misplaced(
    is_class: bool,
    before: &Before,
    inside: Inside,
    part: &Part,
    place: Place,
    least: &mut Option<Refusal>,
)
    requires { place ≡ parts.place_of (part_view part.now) }
    ensures { least.new ≡ noted 12 least.old (places.misplaced is_class (before_view before.now) (inside_view inside) place (part_view part.now)) }
{
    match inside {
        Inside::Module => note_in_module(is_class, before, part, place, least),
        Inside::Procedure => note_in_procedure(part, place, least),
        Inside::Enum => note_in_enum(part, place, least),
        Inside::Type => note_in_type(part, place, least),
    }
}

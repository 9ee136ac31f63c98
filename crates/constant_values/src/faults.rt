//! S20: what must be constant and isn't, raises or stops.

ghost use Rattle.std.specs.Prelude.{◌≡◌, ◌==◌, ◌&&◌, ◌||◌, ◌+ℤ◌, pos, negsuc, is_none, OnOk, option_map};
ghost use Rattle.refusal_order.specs.Least.{least_of};
ghost use Rattle.vba_values.specs.declared.types.WholeKind.TheVariants as kind;
ghost use Rattle.vba_values.specs.Whole.{fits};
ghost use Rattle.vba_expression.specs.View.{view};
ghost use Rattle.vba_module.specs.Misplaced.{place_if};
ghost use Rattle.vba_module.specs.Verdict.{broken};
ghost use Rattle.vba_tree.specs.View.{constant_view, declared_type_view, parameter_view, type_clause_view};
ghost use Rattle.declared_names.specs.binder.specs.Constants as plain;
ghost use Rattle.declared_names.specs.View.{scope_view};
ghost use Rattle.constant_values.specs.Tables.{AreConstants};

use crate::api::{clause_type, constant_value, first_value, known_value};
use crate::constant::stepped;
use crate::operate::{as_length, coerced, long_of};
use crate::own::Constants;
use declared_names::module_parts::expression_place;
use refusal_order::note_if;
use std::alloc::Global;
use vba_base::{NoMemory, Place, Refusal};
use vba_expression::Expression;
use vba_tree::{Constant, DeclaredType as WrittenType, Parameter, TypeClause};

/// Notes S20 at a place, if something is wrong.
#[tactic(auto, using(crate::proofs::Noting::noted_if))]
pub fn note_place(least: &mut Option<Refusal>, is_wrong: bool, place: Place)
    ensures { least.new ≡ least_of least.old (broken 20 (place_if is_wrong place)) }
{
    note_if(least, is_wrong, 20, place);
}

/// Notes a length that is none.
#[tactic(auto, using(crate::proofs::Noting::unless_place))]
fn note_length(
    alloc: Global,
    constants: Constants,
    expression: &Expression,
    least: &mut Option<Refusal>,
) -> Result<(), NoMemory>
    requires { AreConstants constants }
    ensures { OnOk result (least.new ≡ least_of least.old (broken 20 (plain.length_faults (scope_view constants.entry.scope) (view expression.now)))) }
{
    let known = known_value(alloc, constants, expression)?;
    let length = as_length(long_of(alloc, &known)?);
    note_place(least, length.is_none(), expression_place(expression));
    Ok(())
}

/// Notes S20 in a type behind As.
pub fn note_type_faults(
    alloc: Global,
    constants: Constants,
    of: &WrittenType,
    least: &mut Option<Refusal>,
) -> Result<(), NoMemory>
    requires { AreConstants constants }
    ensures { OnOk result (least.new ≡ least_of least.old (broken 20 (plain.type_faults (scope_view constants.entry.scope) (declared_type_view of.now)))) }
{
    match of {
        WrittenType::Named(_) => Ok(()),
        WrittenType::FixedText { length, .. } => note_length(alloc, constants, length, least),
    }
}

/// The same of the type of a declaration.
pub fn note_clause_faults(
    alloc: Global,
    constants: Constants,
    clause: &Option<TypeClause>,
    least: &mut Option<Refusal>,
) -> Result<(), NoMemory>
    requires { AreConstants constants }
    ensures { OnOk result (least.new ≡ least_of least.old (broken 20 (plain.clause_faults (scope_view constants.entry.scope) (option_map type_clause_view clause.now)))) }
{
    match clause {
        Some(clause) => note_type_faults(alloc, constants, &clause.declared_type, least),
        None => Ok(()),
    }
}

/// The same of a constant.
#[tactic(auto, using(crate::proofs::Noting::unless_place, crate::proofs::Noting::noted_append))]
pub fn note_constant_faults(
    alloc: Global,
    constants: Constants,
    constant: &Constant,
    least: &mut Option<Refusal>,
) -> Result<(), NoMemory>
    requires { AreConstants constants }
    ensures { OnOk result (least.new ≡ least_of least.old (broken 20 (plain.constant_faults (scope_view constants.entry.scope) (constant_view constant.now)))) }
{
    note_clause_faults(alloc, constants, &constant.type_clause, least)?;
    let value = constant_value(alloc, constants, constant)?;
    note_place(least, value.is_none(), expression_place(&constant.value));
    Ok(())
}

/// The same of the default of a parameter.
#[tactic(auto, using(crate::proofs::Noting::unless_place))]
pub fn note_default_faults(
    alloc: Global,
    constants: Constants,
    parameter: &Parameter,
    least: &mut Option<Refusal>,
) -> Result<(), NoMemory>
    requires { AreConstants constants }
    ensures { OnOk result (least.new ≡ least_of least.old (broken 20 (plain.default_faults (scope_view constants.entry.scope) (parameter_view parameter.now)))) }
{
    let Some(default) = &parameter.default else {
        return Ok(());
    };
    let suffix = parameter.name.suffix;
    let of = clause_type(alloc, constants, suffix, &parameter.type_clause)?;
    let known = known_value(alloc, constants, &default.value)?;
    let value = coerced(alloc, of, &known)?;
    note_place(least, value.is_none(), expression_place(&default.value));
    Ok(())
}

/// Is it a number that a Long can hold?
fn is_long(number: i128) -> bool
    ensures { result ≡ fits kind.Long number }
{
    i32::try_from(number).is_ok()
}

/// Is it a member's turn to be the first past the greatest Long?
fn is_past(steps: usize, first: i64) -> bool
    ensures { result ≡ (is_none (plain.stepped steps (Some first)) && (steps == 0 || fits kind.Long (first +ℤ negsuc 0 +ℤ pos steps))) }
{
    stepped(steps, Some(first)).is_none()
        && (steps == 0 || is_long(i128::from(first) - 1 + steps as i128))
}

/// The same of a member of an Enum: one without a value is wrong where its turn is the first past the greatest Long.
#[tactic(auto, using(crate::proofs::Noting::unless_place, crate::proofs::Noting::turn_place))]
pub fn note_member_faults(
    alloc: Global,
    constants: Constants,
    place: Place,
    value: Option<&Expression>,
    steps: usize,
    least: &mut Option<Refusal>,
) -> Result<(), NoMemory>
    requires { AreConstants constants }
    ensures { OnOk result (least.new ≡ least_of least.old (broken 20 (plain.member_faults (scope_view constants.entry.scope) place (option_map (λ e. view e.now) value.entry) steps))) }
{
    let first = first_value(alloc, constants, value)?;
    match value {
        Some(expression) if steps == 0 => {
            note_place(least, first.is_none(), expression_place(expression));
        }
        _ => {
            if let Some(first) = first {
                note_place(least, is_past(steps, first), place);
            }
        }
    }
    Ok(())
}

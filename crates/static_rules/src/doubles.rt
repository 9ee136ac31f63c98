//! Whether the result of an operator is a Double by the types of its operands.

ghost use Rattle.std.specs.Prelude.{◌≡◌, ◌++◌};
ghost use Rattle.vba_values.specs.Types.{declared};
ghost use Rattle.bound_project.specs.View.{declared_view};
ghost use Rattle.static_rules.specs.Broken.{double_at, is_double, least_of, loop_broken, step_broken};
ghost use Rattle.static_rules.specs.Scan.{operator_type};

use crate::least::note_if;
use bound_project::{DeclaredType, ElementType};
use vba_base::{Place, Refusal};
use vba_values::{OpKind, VType, static_type};

// The type that operators see.
fn operator_type(of: DeclaredType) -> VType
    ensures { declared result ≡ operator_type (declared_view of) }
{
    match of {
        DeclaredType::Plain(of) => of.value_type(),
        DeclaredType::ArrayOf(_) => VType::Variant,
    }
}

fn is_double(operator: OpKind, left: DeclaredType, right: DeclaredType) -> bool
    ensures { result ≡ is_double operator (declared_view left) (declared_view right) }
{
    let left = operator_type(left);
    let right = operator_type(right);
    static_type(operator, &left, &right).is_none()
}

/// Notes the place of an operator whose result is a Double.
pub fn note_double(
    least: &mut Option<Refusal>,
    at: Place,
    operator: OpKind,
    left: DeclaredType,
    right: DeclaredType,
)
    ensures { least.new ≡ least_of least.old (double_at at operator (declared_view left) (declared_view right)) }
{
    note_if(least, is_double(operator, left, right), 24, at);
}

// The sum of the counter of a For and its step, and the comparison of the step with 0.
fn note_step(
    least: &mut Option<Refusal>,
    counter: DeclaredType,
    step: DeclaredType,
    step_at: Option<Place>,
)
    ensures { least.new ≡ least_of least.old (step_broken (declared_view counter) (declared_view step) step_at) }
{
    if let Some(at) = step_at {
        note_double(least, at, OpKind::Add, counter, step);
        let zero = DeclaredType::Plain(ElementType::Integer);
        note_double(least, at, OpKind::Ge, step, zero);
    }
}

/// Notes what a For compares and adds.
pub fn note_loop(
    least: &mut Option<Refusal>,
    counter: DeclaredType,
    last: DeclaredType,
    step: DeclaredType,
    last_at: Place,
    step_at: Option<Place>,
)
    ensures { least.new ≡ least_of least.old (loop_broken (declared_view counter) (declared_view last) (declared_view step) last_at step_at) }
{
    note_double(least, last_at, OpKind::Le, counter, last);
    note_step(least, counter, step, step_at);
}

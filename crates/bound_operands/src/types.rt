ghost use Rattle.std.specs.Prelude.{◌≡◌, IfOk};
ghost use Rattle.bound_project.specs.View.{declared_view};
ghost use Rattle.bound_members.specs.bound_calls.specs.bound_forms.specs.ExpressionsBound.{result_of};

use bound_members::bound_calls::element_type;
use bound_project::{DeclaredType, ElementType};
use std::alloc::Global;
use vba_base::NoMemory;
use vba_values::{OpKind, static_type};

/// The type that an operator's result has; Variant where it would be a Double.
pub fn result_of(
    alloc: Global,
    operator: OpKind,
    left: DeclaredType,
    right: DeclaredType,
) -> Result<DeclaredType, NoMemory>
    ensures { IfOk result (λ of. declared_view of ≡ result_of operator (declared_view left) (declared_view right)) }
{
    let left = left.value_type(alloc)?;
    let right = right.value_type(alloc)?;
    let of = match static_type(operator, &left, &right) {
        Some(of) => element_type(of)?,
        None => ElementType::Variant,
    };
    Ok(DeclaredType::Plain(of))
}

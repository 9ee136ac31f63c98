ghost use Rattle.std.specs.Prelude.{IfOk};
ghost use Rattle.vba_values.specs.View.{view as value_view};
ghost use Rattle.bound_project.specs.DraftView.{draft_view};
ghost use Rattle.bound_project.specs.View.{declared_view};
ghost use Rattle.bound_project.specs.Expressions.{constant};
ghost use Rattle.bound_forms.specs.Terms.{a_value};
ghost use Rattle.bound_forms.specs.Terms as plain;
ghost use Rattle.bound_calls.specs.Steps.{AddsConstant, MakesLeaf};

use crate::term::{Ending, Term};
use bound_project::{DeclaredType, Draft, NodeKind};
use vba_base::NoMemory;
use vba_values::Value;

/// The number of one more constant of the draft.
pub fn constant_number(draft: &mut Draft, value: Value) -> Result<u32, NoMemory>
    ensures { IfOk result (λ number. AddsConstant (value_view value) (draft_view draft.old) (draft_view draft.new) number) }
{
    match draft.add_constant(value) {
        Ok(number) => Ok(number),
        Err(_) => Err(NoMemory),
    }
}

/// A value that is known.
pub fn value_term<'a>(
    draft: &mut Draft,
    value: Value,
    of: DeclaredType,
) -> Result<Term<'a>, NoMemory>
    ensures { IfOk result (λ term. (env : plain.Env) → MakesLeaf env (draft_view draft.old) (draft_view draft.new) term (a_value (constant (value_view value)) (declared_view of))) }
{
    let constant = constant_number(draft, value)?;
    Ok(Term::Value(Ending {
        kind: NodeKind::Constant { constant },
        of,
    }))
}

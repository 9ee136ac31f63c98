ghost use Rattle.std.specs.Prelude.{IfOk};
ghost use Rattle.bound_members.specs.bound_calls.specs.Steps.{MakesBinary, MakesUnary};

use crate::types::result_of;
use bound_members::bound_calls::bound_declarations::constant_values::{operator_kind, unary_kind};
use bound_members::bound_calls::{Ending, Term};
use bound_project::{DeclaredType, NodeKind};
use std::alloc::Global;
use vba_base::NoMemory;
use vba_expression::{BinaryOperator, UnaryOperator};
use vba_values::Compare;

/// What an operator makes of the operand that was pushed.
pub fn unary_term<'a>(
    alloc: Global,
    operator: UnaryOperator,
    of: Option<DeclaredType>,
) -> Result<Term<'a>, NoMemory>
    ensures { IfOk result (λ term. MakesUnary operator of term) }
{
    let Some(of) = of else {
        return Ok(Term::Nothing);
    };
    let operator = unary_kind(operator);
    Ok(Term::Value(Ending {
        kind: NodeKind::Unary { operator, of },
        of: result_of(alloc, operator, of, of)?,
    }))
}

/// What an operator makes of the two operands that were pushed.
pub fn binary_term<'a>(
    alloc: Global,
    compare: Compare,
    operator: BinaryOperator,
    left: Option<DeclaredType>,
    right: Option<DeclaredType>,
) -> Result<Term<'a>, NoMemory>
    ensures { IfOk result (λ term. MakesBinary compare operator left right term) }
{
    let Some(operator) = operator_kind(operator) else {
        return Ok(Term::Nothing);
    };
    let Some(left) = left else {
        return Ok(Term::Nothing);
    };
    let Some(right) = right else {
        return Ok(Term::Nothing);
    };
    Ok(Term::Value(Ending {
        kind: NodeKind::Binary {
            operator,
            compare,
            left,
            right,
        },
        of: result_of(alloc, operator, left, right)?,
    }))
}

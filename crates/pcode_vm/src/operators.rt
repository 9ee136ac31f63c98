// Operators and tests of Select Case, as effects on the memory of the machine.
ghost use Rattle.std.specs.Prelude.{◌≡◌, false};
ghost use Rattle.vba_base.specs.Answer.{Gives};
ghost use Rattle.vba_values.specs.Operators.{has_two_operands, binary_of};
ghost use Rattle.pcode_vm.specs.Odd.{without_truth};
ghost use Rattle.vba_values.specs.View.{view};
ghost use Rattle.bound_project.specs.View.{declared_view};
ghost use Rattle.vba_meaning.specs.Effects.{operated, operated_alone, fits, fits_between, condition, show_value};
ghost use Rattle.run_memory.specs.View.{memory_view};
ghost use Rattle.run_memory.specs.Acts.{Acts};

use crate::machine::Machine;
use bound_project::DeclaredType;
use run_memory::{condition, fits_between, is_true, operated, operated_alone, show_value};
use std::alloc::Global;
use vba_base::OrMemory;
use vba_values::{Bad, Compare, OpKind, Value, binary};

// Whether it is an operator of two operands.
fn has_two_operands(op: OpKind) -> bool
    ensures { result ≡ has_two_operands op }
{
    !matches!(op, OpKind::Neg | OpKind::Not)
}

#[cold]
#[tactic(auto, using(crate::proofs::Odd::odd_binary))]
fn never_holds(
    alloc: Global,
    op: OpKind,
    compare: Compare,
    left: DeclaredType,
    right: DeclaredType,
    first: &Value,
    second: &Value,
) -> Result<Value, OrMemory<Bad>>
    requires { has_two_operands op ≡ false }
    ensures { Gives view result (binary_of op (view first.now) (declared_view left) (view second.now) (declared_view right) compare) }
{
    let left = left.value_type(alloc)?;
    let right = right.value_type(alloc)?;
    let value = binary(alloc, OpKind::Eq, first, &left, second, &right, compare)?;
    Ok(without_truth(value))
}

fn without_truth(value: Value) -> Value
    ensures { view result ≡ without_truth (view value) }
{
    match value {
        Value::Boolean(_) => Value::Boolean(false),
        value => value,
    }
}

impl Machine {
    // Any operator of two operands. One of one operand counts as a comparison that never holds.
    pub fn operated(
        &self,
        alloc: Global,
        op: OpKind,
        compare: Compare,
        left: DeclaredType,
        right: DeclaredType,
        first: &Value,
        second: &Value,
    ) -> Result<Value, OrMemory<Bad>>
        ensures { let m = memory_view self.now.memory in Acts view result m (operated op compare (declared_view left) (declared_view right) (view first.now) (view second.now) m) }
    {
        if has_two_operands(op) {
            return operated(alloc, op, compare, left, right, first, second);
        }
        never_holds(alloc, op, compare, left, right, first, second)
    }

    // Any operator of one operand. All but Not count as the unary minus.
    pub fn operated_alone(
        &self,
        alloc: Global,
        op: OpKind,
        of: DeclaredType,
        value: &Value,
    ) -> Result<Value, OrMemory<Bad>>
        ensures { let m = memory_view self.now.memory in Acts view result m (operated_alone op (declared_view of) (view value.now) m) }
    {
        match op {
            OpKind::Not => operated_alone(alloc, OpKind::Not, of, value),
            _ => operated_alone(alloc, OpKind::Neg, of, value),
        }
    }

    // Whether a test of a Case fits: a comparison that gives Null doesn't.
    #[tactic(auto, using(run_memory::proofs::Refused::refused_then))]
    pub fn fits(
        &self,
        alloc: Global,
        op: OpKind,
        compare: Compare,
        of: DeclaredType,
        test: DeclaredType,
        value: &Value,
        tested: &Value,
    ) -> Result<bool, OrMemory<Bad>>
        ensures { let m = memory_view self.now.memory in Acts (λ holds. holds) result m (fits op compare (declared_view of) (declared_view test) (view value.now) (view tested.now) m) }
    {
        let holds = self.operated(alloc, op, compare, of, test, value, tested)?;
        Ok(is_true(&holds))
    }

    // Whether a value is within the range of a Case.
    pub fn fits_between(
        &self,
        alloc: Global,
        compare: Compare,
        of: DeclaredType,
        low: DeclaredType,
        high: DeclaredType,
        value: &Value,
        first: &Value,
        last: &Value,
    ) -> Result<bool, OrMemory<Bad>>
        ensures { let m = memory_view self.now.memory in Acts (λ holds. holds) result m (fits_between compare (declared_view of) (declared_view low) (declared_view high) (view value.now) (view first.now) (view last.now) m) }
    {
        fits_between(alloc, compare, of, low, high, value, first, last)
    }

    // A value as Debug.Print shows it.
    pub fn show_value(&self, alloc: Global, value: &Value) -> Result<Value, OrMemory<Bad>>
        ensures { let m = memory_view self.now.memory in Acts view result m (show_value (view value.now) m) }
    {
        show_value(alloc, value)
    }

    // Whether a condition is as told.
    pub fn condition(
        &self,
        alloc: Global,
        sense: bool,
        value: &Value,
    ) -> Result<bool, OrMemory<Bad>>
        ensures { let m = memory_view self.now.memory in Acts (λ holds. holds) result m (condition sense (view value.now) m) }
    {
        condition(alloc, sense, value)
    }
}

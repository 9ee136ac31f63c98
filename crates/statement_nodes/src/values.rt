//! Nodes of statements without an expression.

ghost use Rattle.std.specs.Prelude.{◌≡◌, [], Some, IfOk, pos};
ghost use Rattle.statement_nodes.specs.Actions.{ValuePushed};
ghost use Rattle.bound_calls.specs.bound_forms.specs.Terms.{broken_rule};
ghost use Rattle.bound_calls.specs.bound_forms.specs.StatementsBound as statements;
ghost use Rattle.bound_project.specs.declared.node.NodeKind.TheVariants as node;
ghost use Rattle.bound_project.specs.DraftView.{draft_view};
ghost use Rattle.bound_project.specs.Expressions.{no_exprs};
ghost use Rattle.bound_project.specs.Statements as to;
ghost use Rattle.statement_nodes.specs.Pushed.{ActionPushed};
ghost use Rattle.vba_values.specs.declared.types.WholeKind.TheVariants as whole_kind;
ghost use Rattle.vba_values.specs.Val.{whole};
ghost use Rattle.vba_values.specs.View.{view as value_view};

use bound_calls::bound_declarations::NotYet;
use bound_calls::push_node;
use bound_project::{ActionKind, DeclaredType, Draft, ElementType, Node, NodeKind};
use vba_base::{NoMemory, OrMemory, Place, Refusal};
use vba_values::Value;

/// A statement that is bound is one.
pub fn there(kind: Option<ActionKind>) -> Result<ActionKind, OrMemory<NotYet>>
    ensures { IfOk result (λ found. kind ≡ Some found) }
{
    match kind {
        Some(kind) => Ok(kind),
        None => Err(OrMemory::Fault(NotYet)),
    }
}

/// A number as an Integer.
fn integer(number: u8) -> Value
    ensures { value_view result ≡ whole whole_kind.Integer (pos number) }
{
    Value::Integer(i16::from(number))
}

/// Pushes an Integer that isn't written: the step of a For without one, and a low bound.
pub fn push_integer(draft: &mut Draft, place: Place, number: u8) -> Result<DeclaredType, NoMemory>
    ensures { IfOk result (λ of. ValuePushed (Some (statements.integer place number)) of (draft_view draft.old) (draft_view draft.new)) }
{
    let of = DeclaredType::Plain(ElementType::Integer);
    match draft.push_constant(integer(number), place, of, of) {
        Ok(()) => Ok(of),
        Err(_) => Err(NoMemory),
    }
}

/// A statement that breaks a static rule at a place.
#[tactic(auto, using(crate::proofs::Broken::rule_marked))]
pub fn mark(draft: &mut Draft, rule: u8, place: Place) -> Result<ActionKind, OrMemory<NotYet>>
    requires { (draft_view draft.old).pieces ≡ [] }
    ensures { IfOk result (λ kind. ActionPushed kind (Some (to.evaluate (broken_rule rule place no_exprs))) (draft_view draft.old) (draft_view draft.new)) }
{
    let variant = DeclaredType::Plain(ElementType::Variant);
    let broken = NodeKind::Marked {
        broken: Refusal { rule, place },
        values: 0,
    };
    push_node(draft, broken, variant, place)?;
    Ok(ActionKind::Evaluate)
}

/// A node whose kind is still to be told, where it asks for no place and no type.
pub fn blank_node() -> Node
    ensures { result.kind ≡ node.NotGiven }
{
    let of = DeclaredType::Plain(ElementType::Variant);
    Node {
        kind: NodeKind::NotGiven,
        place: Place {
            module: 0,
            line: 0,
            column: 0,
        },
        of,
        operand: of,
    }
}

//! The nodes of all statements in order, in place: no operand is kept.

ghost use Rattle.std.specs.Prelude.{◌≡◌};
ghost use Rattle.bound_project.specs.Bodies.{Fits, part, project_view};
ghost use Rattle.static_rules.specs.Broken.{first_broken, least_of};
ghost use Rattle.static_rules.specs.Scan.{bodies_places, kind_places, loop_places, nodes_places, selected_type, statement_places, statements_places};

use crate::doubles::{note_double, note_loop};
use crate::least::note;
use bound_project::{
    ActionKind, Body, DeclaredType, ElementType, Node, NodeKind, Project, StatementNode,
};
use vba_base::{Place, Refusal};
use vba_values::OpKind;

fn note_node(least: &mut Option<Refusal>, selected: DeclaredType, at: Place, kind: NodeKind)
    ensures { least.new ≡ least_of least.old (kind_places selected at kind) }
{
    match kind {
        NodeKind::Unary { operator, of } => note_double(least, at, operator, of, of),
        NodeKind::Binary {
            operator,
            left,
            right,
            ..
        } => note_double(least, at, operator, left, right),
        NodeKind::TestIs { operator, of } => note_double(least, at, operator, selected, of),
        NodeKind::Marked { broken, .. } => note(least, broken),
        NodeKind::TestRange { low, high, high_at } => {
            note_double(least, at, OpKind::Ge, selected, low);
            note_double(least, high_at, OpKind::Le, selected, high);
        }
        _ => {}
    }
}

fn note_nodes(least: &mut Option<Refusal>, selected: DeclaredType, nodes: &[Node])
    ensures { least.new ≡ least_of least.old (nodes_places selected nodes.now) }
{
    for node in nodes {
        note_node(least, selected, node.place, node.kind);
    }
}

fn selected_type(action: ActionKind) -> DeclaredType
    ensures { result ≡ selected_type action }
{
    match action {
        ActionKind::Case { of, .. } => of,
        _ => DeclaredType::Plain(ElementType::Variant),
    }
}

fn note_action(least: &mut Option<Refusal>, action: ActionKind)
    ensures { least.new ≡ least_of least.old (loop_places action) }
{
    if let ActionKind::For {
        counter,
        last,
        step,
        last_at,
        step_at,
        ..
    } = action
    {
        note_loop(least, counter.of, last, step, last_at, step_at);
    }
}

// The nodes of a statement, as far as they are there.
fn nodes_of(nodes: &[Node], first: u32, count: u32) -> &[Node]
    ensures { result.now ≡ part nodes.now first count }
{
    let start = (first as usize).min(nodes.len());
    let rest = &nodes[start..];
    let count = (count as usize).min(rest.len());
    &rest[..count]
}

fn note_statement(least: &mut Option<Refusal>, nodes: &[Node], statement: StatementNode)
    ensures { least.new ≡ least_of least.old (statement_places nodes.now statement) }
{
    let own = nodes_of(nodes, statement.first_node, statement.nodes);
    note_nodes(least, selected_type(statement.action), own);
    note_action(least, statement.action);
}

fn note_statements(least: &mut Option<Refusal>, nodes: &[Node], statements: &[StatementNode])
    ensures { least.new ≡ least_of least.old (statements_places nodes.now statements.now) }
{
    for statement in statements {
        note_statement(least, nodes, *statement);
    }
}

fn note_bodies(least: &mut Option<Refusal>, bodies: &[Body])
    ensures { least.new ≡ least_of least.old (bodies_places bodies.now) }
{
    for body in bodies {
        note_statements(least, &body.nodes, &body.statements);
    }
}

/// The first rule that a bound project breaks, by module, place and rule: S24, where an operator, a comparison of a Case
/// or of a For, or the sum of a For's counter and step, has a Double result by the declared types of its operands, and
/// what is marked. None where it breaks none.
pub fn first_broken(project: &Project) -> Option<Refusal>
    requires { Fits project.now }
    ensures { result ≡ first_broken (project_view project.now) }
{
    let mut least = None;
    note_bodies(&mut least, &project.bodies);
    least
}

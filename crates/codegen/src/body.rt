ghost use Rattle.std.specs.Prelude.{◌≡◌, ◌+◌, length, [], ◌∷◌, ◌++◌, IfOk, OnOk, map, slice_index};
ghost use Rattle.bound_project.specs.Bodies.{part};
ghost use Rattle.codegen.specs.Emission.{bodies_instrs, body_instrs, body_size, lists_of, row_in, row_of, statement_instrs, statement_size, table_of};

use crate::action::{Numbers, emit_action};
use crate::node::{Added, put};
use bound_project::{Body, Node, StatementNode, TooLong};
use pcode::Instr;
use std::alloc::Global;
use vba_base::OrMemory;

// The nodes of a statement, as far as they are there.
fn nodes_of(nodes: &[Node], first: u32, count: u32) -> &[Node]
    ensures { result.now ≡ part nodes.now first count }
{
    let start = (first as usize).min(nodes.len());
    let rest = &nodes[start..];
    let count = (count as usize).min(rest.len());
    &rest[..count]
}

fn emit_statement(
    code: &mut Vec<Instr>,
    added: Added,
    orders: &[Vec<u32>],
    row: &[u32],
    procedure: u32,
    nodes: &[Node],
    number: u32,
    statement: StatementNode,
) -> Result<(), OrMemory<TooLong>>
    ensures { OnOk result (code.new.items ≡ code.old.items
        ++ statement_instrs added (lists_of orders.now) row.now procedure nodes.now number statement) }
{
    put(code, Instr::Begin { statement: number })?;
    let numbers = Numbers {
        procedure,
        statement: number,
        next: statement.next,
    };
    let nodes = nodes_of(nodes, statement.first_node, statement.nodes);
    emit_action(code, added, orders, row, numbers, statement.action, nodes)
}

fn emit_body(
    code: &mut Vec<Instr>,
    added: Added,
    orders: &[Vec<u32>],
    row: &[u32],
    procedure: u32,
    nodes: &[Node],
    statements: &[StatementNode],
) -> Result<(), OrMemory<TooLong>>
    ensures { OnOk result (code.new.items ≡ code.old.items
        ++ body_instrs added (lists_of orders.now) row.now procedure nodes.now 0 statements.now) }
{
    for (i, statement) in statements.iter().enumerate() {
        let Ok(number) = u32::try_from(i) else {
            return Err(OrMemory::Fault(TooLong));
        };
        emit_statement(
            code, added, orders, row, procedure, nodes, number, *statement,
        )?;
    }
    Ok(())
}

fn row_in(table: &[Vec<u32>], procedure: usize) -> &[u32]
    ensures { result.now ≡ row_in (lists_of table.now) procedure }
{
    match table.get(procedure) {
        Some(row) => row.as_slice(),
        None => &[],
    }
}

/// The instructions of all procedures.
pub fn emit_bodies(
    code: &mut Vec<Instr>,
    added: Added,
    orders: &[Vec<u32>],
    table: &[Vec<u32>],
    bodies: &[Body],
) -> Result<(), OrMemory<TooLong>>
    ensures { OnOk result (code.new.items ≡ code.old.items
        ++ bodies_instrs added (lists_of orders.now) (lists_of table.now) 0 bodies.now) }
{
    for (i, body) in bodies.iter().enumerate() {
        let Ok(procedure) = u32::try_from(i) else {
            return Err(OrMemory::Fault(TooLong));
        };
        let row = row_in(table, i);
        emit_body(
            code,
            added,
            orders,
            row,
            procedure,
            &body.nodes,
            &body.statements,
        )?;
    }
    Ok(())
}

// How many instructions a statement has; it empties the scratch before.
fn size_of_statement(
    scratch: &mut Vec<Instr>,
    added: Added,
    orders: &[Vec<u32>],
    nodes: &[Node],
    statement: StatementNode,
) -> Result<u32, OrMemory<TooLong>>
    ensures { IfOk result (λ n. n ≡ statement_size added (lists_of orders.now) nodes.now statement) }
{
    scratch.clear();
    emit_statement(scratch, added, orders, &[], 0, nodes, 0, statement)?;
    match u32::try_from(scratch.len()) {
        Ok(size) => Ok(size),
        Err(_) => Err(OrMemory::Fault(TooLong)),
    }
}

fn behind(at: u32, size: u32) -> Result<u32, OrMemory<TooLong>>
    ensures { IfOk result (λ n. n ≡ at + size) }
{
    match at.checked_add(size) {
        Some(next) => Ok(next),
        None => Err(OrMemory::Fault(TooLong)),
    }
}

// The addresses of a procedure's statements, of which the first stands at `at`.
fn row_of(
    scratch: &mut Vec<Instr>,
    at: &mut u32,
    added: Added,
    orders: &[Vec<u32>],
    nodes: &[Node],
    statements: &[StatementNode],
    alloc: Global,
) -> Result<Vec<u32>, OrMemory<TooLong>>
    ensures row { IfOk result (λ v. v.items ≡ row_of added (lists_of orders.now) at.old nodes.now statements.now) }
    ensures at { IfOk result (λ _. at.new ≡ at.old + body_size added (lists_of orders.now) nodes.now statements.now) }
{
    let mut row = Vec::new(alloc);
    for statement in statements {
        row.push(*at)?;
        let size = size_of_statement(scratch, added, orders, nodes, *statement)?;
        *at = behind(*at, size)?;
    }
    Ok(row)
}

/// The address of each statement of each procedure.
pub fn table_of(
    alloc: Global,
    added: Added,
    orders: &[Vec<u32>],
    bodies: &[Body],
) -> Result<Vec<Vec<u32>>, OrMemory<TooLong>>
    ensures { IfOk result (λ t. lists_of t.items ≡ table_of added (lists_of orders.now) 1 bodies.now) }
{
    let mut scratch = Vec::new(alloc);
    let mut at = 1;
    let mut table = Vec::new(alloc);
    for body in bodies {
        let row = row_of(
            &mut scratch,
            &mut at,
            added,
            orders,
            &body.nodes,
            &body.statements,
            alloc,
        )?;
        table.push(row)?;
    }
    Ok(table)
}

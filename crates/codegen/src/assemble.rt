ghost use Rattle.std.specs.Prelude.{◌≡◌, ◌+◌, length, [], ◌∷◌, ◌++◌, IfOk, OnOk, map, slice_index};
ghost use Rattle.bound_project.specs.Bodies.{Fits, project_view};
ghost use Rattle.pcode.specs.Layout.{code_of};
ghost use Rattle.pcode.specs.View.{code_view};
ghost use Rattle.codegen.specs.Emission.{bodies_instrs, lists_of, table_of};
ghost use Rattle.codegen.specs.Parts.{HasAdded, IsMade, nexts_in};

use crate::body::{emit_bodies, table_of};
use crate::node::{Added, put};
use bound_project::{Body, Project, StatementNode, TooLong};
use pcode::{Code, Instr};
use std::alloc::Global;
use vba_base::OrMemory;
use vba_values::Value;

// Behind the constants of a project stand two of the compiler.
fn add_constants(constants: &mut Vec<Value>) -> Result<Added, OrMemory<TooLong>>
    ensures { IfOk result (λ added. HasAdded constants.old.items constants.new.items added) }
{
    let Ok(empty) = u32::try_from(constants.len()) else {
        return Err(OrMemory::Fault(TooLong));
    };
    let Some(missing) = empty.checked_add(1) else {
        return Err(OrMemory::Fault(TooLong));
    };
    constants.push(Value::Empty)?;
    constants.push(Value::Missing)?;
    Ok(Added { empty, missing })
}

fn first_of(row: &Vec<u32>) -> u32
    ensures { result ≡ slice_index row.now.items 0 }
{
    match row.first() {
        Some(address) => *address,
        None => 0,
    }
}

// The address of each procedure: that of its first statement.
fn starts_in(alloc: Global, table: &[Vec<u32>]) -> Result<Vec<u32>, OrMemory<TooLong>>
    ensures { IfOk result (λ v. v.items ≡ map (λ row. slice_index row.items 0) table.now) }
{
    let mut starts = Vec::new(alloc);
    for row in table {
        starts.push(first_of(row))?;
    }
    Ok(starts)
}

fn nexts_of(alloc: Global, statements: &[StatementNode]) -> Result<Vec<u32>, OrMemory<TooLong>>
    ensures { IfOk result (λ v. v.items ≡ map (λ s. s.next) statements.now) }
{
    let mut nexts = Vec::new(alloc);
    for statement in statements {
        nexts.push(statement.next)?;
    }
    Ok(nexts)
}

// For each statement of each procedure the number of the next one.
fn nexts_in(alloc: Global, bodies: &[Body]) -> Result<Vec<Vec<u32>>, OrMemory<TooLong>>
    ensures { IfOk result (λ v. lists_of v.items ≡ nexts_in bodies.now) }
{
    let mut all = Vec::new(alloc);
    for body in bodies {
        let nexts = nexts_of(alloc, &body.statements)?;
        all.push(nexts)?;
    }
    Ok(all)
}

/// What a code has beside what its project has.
#[derive(Drop)]
struct Parts {
    instrs: Vec<Instr>,
    starts: Vec<u32>,
    nexts: Vec<Vec<u32>>,
    entries: Vec<Vec<u32>>,
}

fn parts_of(
    alloc: Global,
    added: Added,
    orders: &[Vec<u32>],
    bodies: &[Body],
) -> Result<Parts, OrMemory<TooLong>>
    ensures { IfOk result (λ parts. IsMade added orders.now bodies.now
        parts.instrs.items parts.starts.items (lists_of parts.nexts.items) (lists_of parts.entries.items)) }
{
    let entries = table_of(alloc, added, orders, bodies)?;
    let starts = starts_in(alloc, &entries)?;
    let nexts = nexts_in(alloc, bodies)?;
    let mut instrs = Vec::new(alloc);
    put(&mut instrs, Instr::Leave)?;
    emit_bodies(&mut instrs, added, orders, &entries, bodies)?;
    Ok(Parts {
        instrs,
        starts,
        nexts,
        entries,
    })
}

/// The code of a project whose statements' nodes fit: its declarations, constants and orders become the code's, and
/// nothing of them is copied. `TooLong` says that there are more instructions, statements, constants or arguments
/// than a number of 32 bits counts.
pub fn compile(alloc: Global, mut project: Project) -> Result<Code, OrMemory<TooLong>>
    requires { Fits project }
    ensures { IfOk result (λ code. code_view code ≡ code_of (project_view project)) }
{
    let added = add_constants(&mut project.constants)?;
    let parts = parts_of(alloc, added, &project.orders, &project.bodies)?;
    Ok(Code {
        instrs: parts.instrs,
        constants: project.constants,
        orders: project.orders,
        starts: parts.starts,
        nexts: parts.nexts,
        entries: parts.entries,
        declared: project.declared,
        startup: project.startup,
    })
}

//! Codes that no compiler of ours made, checked before they would run.

use bound_project::{
    Declaration, Declarations, DeclaredType, ElementType, Procedure, ProcedureKind, Spelled,
};
use code_check::CheckedCode;
use pcode::{Code, Instr};
use std::alloc::Global;
use std::mem;
use std::test::Fail;
use vba_base::{NoMemory, Place, Units, name_of};
use vba_values::Value;

const NOWHERE: Place = Place {
    module: 0,
    line: 1,
    column: 1,
};

fn spelled(alloc: Global) -> Result<Spelled, NoMemory> {
    Ok(Spelled {
        spelling: Units::new(alloc),
        fold: name_of(alloc, &[])?,
    })
}

/// A project that declares one Sub without variables.
fn one_sub(alloc: Global) -> Result<Declarations, NoMemory> {
    let result = Declaration {
        name: spelled(alloc)?,
        place: NOWHERE,
        of: DeclaredType::Plain(ElementType::Variant),
        bounds: Vec::new(alloc),
    };
    let sub = Procedure {
        name: spelled(alloc)?,
        kind: ProcedureKind::Sub,
        in_module: 0,
        place: NOWHERE,
        result,
        locals: Vec::new(alloc),
        parameters: Vec::new(alloc),
    };
    let mut procedures = Vec::with_capacity(alloc, 1)?;
    procedures.push(sub)?;
    Ok(Declarations {
        modules: Vec::new(alloc),
        types: Vec::new(alloc),
        classes: Vec::new(alloc),
        shared: Vec::new(alloc),
        procedures,
    })
}

fn one_table(alloc: Global, number: u32) -> Result<Vec<Vec<u32>>, NoMemory> {
    let mut table = Vec::with_capacity(alloc, 1)?;
    table.push(Vec::from_slice(alloc, &[number])?)?;
    Ok(table)
}

/// Whether a code of one statement, which prints so many values that are pushed and goes on at an address, is
/// well-formed.
fn is_checked(alloc: Global, items: u32, to: u32, startup: u32) -> Result<bool, NoMemory> {
    let instrs = [
        Instr::Leave,
        Instr::Begin { statement: 0 },
        Instr::Push { constant: 0 },
        Instr::ShowText,
        Instr::Show { ends: true, items },
        Instr::Finish { to },
    ];
    let mut constants = Vec::with_capacity(alloc, 1)?;
    constants.push(Value::Integer(1))?;
    let code = Code {
        instrs: Vec::from_slice(alloc, &instrs)?,
        constants,
        orders: Vec::new(alloc),
        starts: Vec::from_slice(alloc, &[1])?,
        nexts: one_table(alloc, 1)?,
        entries: one_table(alloc, 1)?,
        declared: one_sub(alloc)?,
        startup,
    };
    let checked = CheckedCode::try_new(alloc, code)?;
    let is_some = checked.is_some();
    mem::forget(checked);
    Ok(is_some)
}

#[test]
fn codes_are_checked(rt: HostRuntime) -> Result<(), Fail> {
    let alloc = rt.alloc();
    assert!(rt; is_checked(alloc, 1, 0, 0)?);
    // It begins again and again.
    assert!(rt; is_checked(alloc, 1, 1, 0)?);
    // It shows two values where one is, or leaves one behind.
    assert!(rt; !is_checked(alloc, 2, 0, 0)?);
    assert!(rt; !is_checked(alloc, 0, 0, 0)?);
    // It goes on within a statement, or behind the end.
    assert!(rt; !is_checked(alloc, 1, 3, 0)?);
    assert!(rt; !is_checked(alloc, 1, 6, 0)?);
    // There is no second procedure.
    assert!(rt; !is_checked(alloc, 1, 0, 1)?);
    Ok(())
}

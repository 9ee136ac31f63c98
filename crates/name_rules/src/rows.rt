//! Which Types lead to one of them.

ghost use Rattle.std.specs.Prelude.{◌≡◌, ◌==◌, ◌||◌, [], ◌∷◌, ◌++◌, length, map, IfOk, OnOk};
ghost use Rattle.std.specs.List.{list_any};
ghost use Rattle.constant_values.specs.declared_names.specs.binder.specs.Violations.{leads};
ghost use Rattle.name_rules.specs.Rows.{told, next_row, row_of};

use std::alloc::Global;
use vba_base::NoMemory;

/// Adds an answer.
fn push_answer(row: &mut Vec<bool>, answer: bool) -> Result<(), NoMemory>
    ensures { OnOk result (row.new.items ≡ row.old.items ++ answer ∷ []) }
{
    Ok(row.push(answer)?)
}

/// The answer for a Type, and none for a number that no Type has.
fn told(row: &[bool], number: u32) -> bool
    ensures { result ≡ told row.now number }
{
    row.get(number as usize).copied().unwrap_or(false)
}

/// Is one of the numbers the one that is led to, or one that leads to it?
fn leads_by(held: &[u32], to: u32, row: &[bool]) -> bool
    ensures { result ≡ list_any (λ n. (n == to) || told row.now n) held.now }
{
    for number in held {
        if *number == to || told(row, *number) {
            return true;
        }
    }
    false
}

/// The answers through one field more.
fn next_row(alloc: Global, types: &[Vec<u32>], to: u32, row: &[bool]) -> Result<Vec<bool>, NoMemory>
    ensures { IfOk result (λ next. next.items ≡ next_row (map (λ v. v.items) types.now) to row.now) }
{
    let mut next = Vec::new(alloc);
    for held in types {
        push_answer(&mut next, leads_by(held.as_slice(), to, row))?;
    }
    Ok(next)
}

/// The answers through no field.
fn first_row(alloc: Global, types: &[Vec<u32>], to: u32) -> Result<Vec<bool>, NoMemory>
    ensures { IfOk result (λ row. row.items ≡ row_of 0 (map (λ v. v.items) types.now) to) }
{
    let _to = to;
    let mut row = Vec::new(alloc);
    for _held in types {
        push_answer(&mut row, false)?;
    }
    Ok(row)
}

/// Does a Type lead to itself, through as many fields as there are Types?
#[tactic(auto, using(crate::proofs::RowsTold::row_told))]
pub fn holds_itself(alloc: Global, types: &[Vec<u32>], number: u32) -> Result<bool, NoMemory>
    ensures { IfOk result (λ r. r ≡ leads (length (map (λ v. v.items) types.now)) (map (λ v. v.items) types.now) number number) }
{
    let mut row = first_row(alloc, types, number)?;
    for _round in 0..types.len() {
        row = next_row(alloc, types, number, row.as_slice())?;
    }
    Ok(told(row.as_slice(), number))
}

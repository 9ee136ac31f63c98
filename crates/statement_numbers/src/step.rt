//! What a part does to what is sought.

ghost use Rattle.std.specs.Prelude.{◌≡◌, IfOk};
ghost use Rattle.module_parts.specs.Brackets.{kind_view};
ghost use Rattle.binder.specs.Numbering as numbering;
ghost use Rattle.statement_numbers.specs.View.{awaited_view, role_view, sought_view, step_view};

use crate::awaited::{Awaited, begun, is_awaited, outer};
use crate::kinds::is_same_kind;
use crate::sought::Sought;
use crate::sums::plus;
use module_parts::{BlockKind, Bracket};
use vba_base::NoMemory;

/// A part is what is sought, or so is what stands behind it.
#[derive(Clone, Copy)]
pub enum Step<'a> {
    Stops,
    GoesOn(Sought, Awaited<'a>),
}

/// A part that has statements is found, another one is passed.
fn unless_counted(count: u32, awaited: Awaited) -> Step
    ensures { step_view result ≡ numbering.unless_counted count (numbering.goes_on numbering.here (awaited_view awaited.entry)) }
{
    match count {
        0 => Step::GoesOn(Sought::Here, awaited),
        _ => Step::Stops,
    }
}

/// What a part does where what runs next is sought.
fn step_here(awaited: Awaited, bracket: Bracket, count: u32) -> Step
    ensures { step_view result ≡ numbering.step numbering.here (awaited_view awaited.entry) (role_view bracket) count }
{
    match bracket {
        Bracket::Stands => unless_counted(count, awaited),
        Bracket::Opens(_) => Step::Stops,
        Bracket::Closes(_) => unless_counted(count, outer(awaited)),
        Bracket::Divides { .. } if is_awaited(awaited) => unless_counted(count, begun(awaited)),
        Bracket::Divides { .. } => Step::GoesOn(Sought::BehindBlock(0), awaited),
    }
}

/// What a part does where an arm is sought.
fn step_arm(depth: u32, awaited: Awaited, bracket: Bracket, count: u32) -> Result<Step, NoMemory>
    ensures { IfOk result (λ s. step_view s ≡ numbering.step (numbering.an_arm depth) (awaited_view awaited.entry) (role_view bracket) count) }
{
    Ok(match (bracket, depth) {
        (Bracket::Opens(_), _) => Step::GoesOn(Sought::Arm(plus(depth, 1)?), awaited),
        (Bracket::Closes(_), 0) => Step::GoesOn(Sought::Here, outer(awaited)),
        (Bracket::Closes(_), _) => Step::GoesOn(Sought::Arm(depth - 1), awaited),
        (Bracket::Divides { .. }, 0) => unless_counted(count, begun(awaited)),
        _ => Step::GoesOn(Sought::Arm(depth), awaited),
    })
}

/// What a part does where what stands behind a block is sought.
fn step_behind_block(
    depth: u32,
    awaited: Awaited,
    bracket: Bracket,
    count: u32,
) -> Result<Step, NoMemory>
    ensures { IfOk result (λ s. step_view s ≡ numbering.step (numbering.behind_block depth) (awaited_view awaited.entry) (role_view bracket) count) }
{
    Ok(match (bracket, depth) {
        (Bracket::Opens(_), _) => Step::GoesOn(Sought::BehindBlock(plus(depth, 1)?), awaited),
        (Bracket::Closes(_), 0) => Step::GoesOn(Sought::Here, outer(awaited)),
        (Bracket::Closes(_), _) => Step::GoesOn(Sought::BehindBlock(depth - 1), awaited),
        _ => Step::GoesOn(Sought::BehindBlock(depth), awaited),
    })
}

/// What a part does where what stands behind the nearest block of a kind is sought.
fn step_behind_kind(
    wanted: BlockKind,
    depth: u32,
    awaited: Awaited,
    bracket: Bracket,
    count: u32,
) -> Result<Step, NoMemory>
    ensures { IfOk result (λ s. step_view s
        ≡ numbering.step (numbering.behind_kind (kind_view wanted) depth) (awaited_view awaited.entry) (role_view bracket) count) }
{
    Ok(match (bracket, depth) {
        (Bracket::Opens(_), _) => Step::GoesOn(
            Sought::BehindKind {
                kind: wanted,
                depth: plus(depth, 1)?,
            },
            awaited,
        ),
        (Bracket::Closes(kind), 0) if is_same_kind(wanted, kind) => {
            Step::GoesOn(Sought::Here, outer(awaited))
        }
        (Bracket::Closes(_), 0) => Step::GoesOn(
            Sought::BehindKind {
                kind: wanted,
                depth: 0,
            },
            outer(awaited),
        ),
        (Bracket::Closes(_), _) => Step::GoesOn(
            Sought::BehindKind {
                kind: wanted,
                depth: depth - 1,
            },
            awaited,
        ),
        _ => Step::GoesOn(
            Sought::BehindKind {
                kind: wanted,
                depth,
            },
            awaited,
        ),
    })
}

/// What a part does to what is sought.
pub fn step_of(
    what: Sought,
    awaited: Awaited,
    bracket: Bracket,
    count: u32,
) -> Result<Step, NoMemory>
    ensures { IfOk result (λ s. step_view s ≡ numbering.step (sought_view what) (awaited_view awaited.entry) (role_view bracket) count) }
{
    match what {
        Sought::Here => Ok(step_here(awaited, bracket, count)),
        Sought::Arm(depth) => step_arm(depth, awaited, bracket, count),
        Sought::BehindBlock(depth) => step_behind_block(depth, awaited, bracket, count),
        Sought::BehindKind { kind, depth } => {
            step_behind_kind(kind, depth, awaited, bracket, count)
        }
    }
}
